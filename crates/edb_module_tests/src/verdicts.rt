//! Texts and their verdicts.

use edb_check::{CheckFault, CheckKind};
use edb_parse::FormFault;
use edb_scan::ScanFault;
use edb_verdict::{ModuleFault, verdict};
use std::test::Fail;

#[test]
fn texts_have_their_verdicts(rt: HostRuntime) -> Result<(), Fail> {
    let scan = ModuleFault::Scan(ScanFault { at: 12 });
    let form = ModuleFault::Form(FormFault { form: 2, line: 2 });
    let check = ModuleFault::Check(CheckFault {
        line: 2,
        kind: CheckKind::Unbound,
    });
    let rows: [(&[u8], Option<ModuleFault>); 4] = [
        (b"-module(a).\nf(X) -> X.", None),
        (b"-module(a).\n\"f() -> .", Some(scan)),
        (b"-module(a).\nf() -> X, .", Some(form)),
        (b"-module(a).\nf() -> X.", Some(check)),
    ];
    for (text, wanted) in rows {
        let found = match verdict(rt.alloc(), text)? {
            Ok(_checked) => None,
            Err(fault) => Some(fault),
        };
        assert!(rt; found == wanted);
    }
    Ok(())
}
