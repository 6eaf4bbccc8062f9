//! Why a text is refused.

use edb_check::CheckFault;
use edb_parse::FormFault;
use edb_scan::ScanFault;

/// Why a text is refused: its first fault.
#[derive(Clone, Copy, PartialEq, Eq, Debug)]
pub enum ModuleFault {
    /// At this byte no token, white space or comment begins.
    Scan(ScanFault),
    /// This form is none by the grammar.
    Form(FormFault),
    /// The checker has this fault.
    Check(CheckFault),
    /// The debugger doesn't run such a module yet. A verdict is never this.
    NotYet,
}
