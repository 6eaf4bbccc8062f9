//! Versions of the modules of a code.

use edb_check::{Checked, Code};
use edb_lang::Name;
use edb_verdict::verdict;
use std::alloc::Global;
use std::process::Abort;
use std::test::Fail;

/// The module that the text is.
fn module(rt: &impl Abort, alloc: Global, text: &[u8]) -> Result<Checked, Fail> {
    match verdict(alloc, text)? {
        Ok(checked) => Ok(checked),
        Err(_) => panic!(rt; "a text that is no module"),
    }
}

#[test]
fn versions_count_by_name(rt: HostRuntime) -> Result<(), Fail> {
    let alloc = rt.alloc();
    let mut code = Code::new(alloc);
    let first = code.add(module(&rt, alloc, b"-module(shop).")?)?;
    let other = code.add(module(&rt, alloc, b"-module(till).")?)?;
    let second = code.add(module(&rt, alloc, b"-module(shop).\nf() -> 1.")?)?;
    assert_eq!(rt; first, 1);
    assert_eq!(rt; other, 1);
    assert_eq!(rt; second, 2);
    assert_eq!(rt; code.modules().len(), 3);
    assert!(rt; code.holds(&Name::from_str(alloc, "till")?));
    assert!(rt; !code.holds(&Name::from_str(alloc, "til")?));
    Ok(())
}
