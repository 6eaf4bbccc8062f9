//! Calls that succeed where memory is ample.
use edb_lang::{Module, Name, Rows};
use edb_model::{Checked, Code};
use std::alloc::{AllocError, Global};
use std::test::Fail;

/// A module without functions.
fn module(alloc: Global, name: &str) -> Result<Checked, AllocError> {
    Ok(Checked::new(Module {
        name: Name::from_str(alloc, name)?,
        exports: Vec::new(alloc),
        functions: Vec::new(alloc),
    }))
}

#[test]
fn versions_count_by_name(rt: HostRuntime) -> Result<(), Fail> {
    let alloc = rt.alloc();
    let mut code = Code::new(alloc);
    let first = code.add(module(alloc, "a")?)?;
    assert!(rt; first == 1);
    Ok(())
}

#[test]
fn rows_grow(rt: HostRuntime) -> Result<(), Fail> {
    let mut rows = Rows::new(rt.alloc());
    rows.push(7u32)?;
    assert!(rt; rows.len() == 1);
    Ok(())
}
