//! What comes before a token.

ghost use Rattle.std.specs.Prelude.{◌≡◌, ◌++◌, ◌+◌, IfOk, OnOk, replicate};
ghost use Rattle.edb_print.specs.Pieces.{gap_text};
ghost use Rattle.edb_print.specs.Views.{gap_of};

use std::alloc::AllocError;

/// What comes before a token.
#[derive(Clone, Copy)]
pub(crate) enum Gap {
    /// Nothing.
    Tight,
    /// A space.
    Blank,
    /// The end of a line, and so many spaces.
    Line(usize),
}

/// Puts spaces.
fn put_spaces(out: &mut Vec<u8>, count: usize) -> Result<(), AllocError>
    ensures { OnOk result (out.new.items ≡ out.old.items ++ replicate count 32) }
{
    for _ in 0..count {
        out.push(b' ')?;
    }
    Ok(())
}

/// Puts a gap.
pub(crate) fn put_gap(out: &mut Vec<u8>, gap: Gap) -> Result<(), AllocError>
    ensures { OnOk result (out.new.items ≡ out.old.items ++ gap_text (gap_of gap)) }
{
    match gap {
        Gap::Tight => Ok(()),
        Gap::Blank => {
            out.push(b' ')?;
            Ok(())
        }
        Gap::Line(depth) => {
            out.push(b'\n')?;
            put_spaces(out, depth)
        }
    }
}

/// Four spaces deeper; fails if no memory would hold so many spaces.
pub(crate) fn deeper(depth: usize) -> Result<usize, AllocError>
    ensures { IfOk result (λ d. d ≡ depth + 4) }
{
    match depth.checked_add(4) {
        Some(deeper) => Ok(deeper),
        None => Err(AllocError),
    }
}
