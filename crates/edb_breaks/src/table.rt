//! The table of breakpoints.

ghost use Rattle.std.specs.Prelude.{◌≡◌, ◌+◌, ◌<◌, ◌^◌, ◌↔◌, None, IsTrue, IsSome, IfOk, OnOk, OnErr};
ghost use Rattle.std.specs.Option.{option_copied};
ghost use Rattle.edb_breaks.specs.Table.{empty_table, has_row, row_at, with_enabled, with_row, IsSound};
ghost use Rattle.edb_breaks.specs.Table as spec;

use crate::rows::{any_row, copy_rows, enable_rows, find_row, same_rows};
use edb_lang::{Action, Break, BreakRow, Name, Status};
use std::alloc::{AllocError, Global};
use std::marker::Model;

/// Breakpoints, each at a line of a module. Contracts see the table: the rows in the order of their
/// making, and how many serials were given.
#[derive(Drop)]
pub struct Breaks {
    alloc: Global,
    rows: Vec<BreakRow>,
    given: u128,
}

impl Model for Breaks {
    ghost use Rattle.edb_breaks.specs.Table.{Table, IsSound};

    ghost Value = { Table };

    ghost view = { λ b. record { rows = b.rows.items; given = b.given } };

    ghost invariant = { λ b. IsSound (record { rows = b.rows.items; given = b.given }) };
}

/// The refusal of a breakpoint at a place that has one.
#[derive(Clone, Copy, PartialEq, Eq, Debug)]
pub struct Exists;

impl Breaks {
    /// No breakpoints, and no serial given.
    pub fn new(alloc: Global) -> Breaks
        ensures { result ≡ empty_table }
    {
        Breaks {
            alloc,
            rows: Vec::new(alloc),
            given: 0,
        }
    }

    /// Makes a breakpoint at a place and answers its serial; fewer than 2^127 were given before. `Exists`
    /// comes exactly if the place has one. The other error is out of memory. At either the table stays as
    /// it was.
    #[tactic(auto, using(crate::proofs::TableLaws::tables))]
    pub fn add(&mut self, module: Name, line: u32) -> Result<Result<u128, Exists>, AllocError>
        requires { self.old.given < 2 ^ 127 }
        ensures free { IfOk result (λ answer.
            OnOk answer (row_at «module» line self.old ≡ None)) }
        ensures table { IfOk result (λ answer.
            OnOk answer (self.new ≡ with_row «module» line self.old)) }
        ensures serial { IfOk result (λ answer. IfOk answer (λ serial. serial ≡ self.old.given + 1)) }
        ensures exists { IfOk result (λ answer.
            OnErr answer (IsSome (row_at «module» line self.old))) }
        ensures same { IfOk result (λ answer. OnErr answer (self.new ≡ self.old)) }
        ensures err { OnErr result (self.new ≡ self.old) }
    {
        if self.at(&module, line).is_some() {
            return Ok(Err(Exists));
        }
        let serial = self.given + 1;
        let row = new_break(serial);
        self.rows.push(BreakRow { module, line, row })?;
        self.given = serial;
        Ok(Ok(serial))
    }

    /// Makes the breakpoint of this serial at a place active, and says whether the place has it; takes no
    /// memory.
    pub fn enable_serial(&mut self, module: &Name, line: u32, serial: u128) -> bool
        ensures found { result ≡ has_row serial «module».now line self.old }
        ensures table { self.new ≡ with_enabled serial «module».now line self.old }
    {
        enable_rows(&mut self.rows, module, line, serial)
    }

    /// The breakpoint at a place; `None` exactly if no row is there.
    pub fn at(&self, module: &Name, line: u32) -> Option<&Break>
        ensures row { option_copied result ≡ row_at «module».now line self.now }
        ensures sound { IsSound self.now }
    {
        find_row(&self.rows, module, line)
    }

    /// Whether a place has the breakpoint of this serial.
    pub fn has(&self, module: &Name, line: u32, serial: u128) -> bool
        ensures { result ≡ has_row serial «module».now line self.now }
    {
        any_row(&self.rows, module, line, serial)
    }

    /// The rows in the order of their making. The only error is out of memory.
    pub fn all(&self) -> Result<Vec<BreakRow>, AllocError>
        ensures rows { IfOk result (λ rows. rows.items ≡ self.now.rows) }
        ensures sound { IsSound self.now }
    {
        copy_rows(self.alloc, &self.rows)
    }

    /// An equal table. The only error is out of memory.
    pub fn copy(&self) -> Result<Breaks, AllocError>
        ensures { IfOk result (λ breaks. breaks ≡ self.now) }
    {
        let rows = copy_rows(self.alloc, &self.rows)?;
        Ok(Breaks {
            alloc: self.alloc,
            rows,
            given: self.given,
        })
    }

    /// Whether the two tables are equal, in their rows and in how many serials were given.
    pub fn is_same(&self, other: &Breaks) -> bool
        ensures { IsTrue result ↔ (self.now ≡ other.now) }
    {
        self.given == other.given && same_rows(&self.rows, &other.rows)
    }
}

// A breakpoint as it is made.
fn new_break(serial: u128) -> Break
    ensures { result ≡ spec.new_break serial }
{
    Break {
        status: Status::Active,
        trigger: Action::Enable,
        cond: None,
        serial,
    }
}
