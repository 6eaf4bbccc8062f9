//! Bodies: the calls that run.

use edb_lang::Name;
use edb_units::Unit;
use edb_variables::Variables;

/// A call that runs.
#[derive(Drop)]
pub struct Body<'a> {
    /// The module of its function.
    pub unit: &'a Unit<'a>,
    /// The version of that module.
    pub version: u32,
    /// The function's name; none for a fun.
    pub name: Option<&'a Name>,
    pub arity: u32,
    /// One more than that of the call round it, or 1.
    pub level: u64,
    /// What its variables are bound to.
    pub variables: Variables,
}
