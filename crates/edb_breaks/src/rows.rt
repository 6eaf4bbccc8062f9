//! Rows of breakpoints: looked for, made active, copied and compared.

ghost use Rattle.std.specs.Prelude.{◌≡◌, ◌↔◌, IsTrue, IfOk, find, map};
ghost use Rattle.std.specs.List.{list_any};
ghost use Rattle.std.specs.Option.{option_copied, option_map};
ghost use Rattle.edb_breaks.specs.Table.{enabled_row, is_at, is_row};

use edb_lang::{Break, BreakRow, Name, Status};
use std::alloc::{AllocError, Global};

// The breakpoint at a place, reading from the top.
pub(crate) fn find_row<'a>(rows: &'a [BreakRow], module: &Name, line: u32) -> Option<&'a Break>
    ensures { option_copied result ≡ option_map (λ r. r.row) (find (is_at «module».now line) rows.now) }
{
    for row in rows {
        if module.same(&row.module) && line == row.line {
            return Some(&row.row);
        }
    }
    None
}

// Whether there is a row of this serial at a place.
pub(crate) fn any_row(rows: &[BreakRow], module: &Name, line: u32, serial: u128) -> bool
    ensures { result ≡ list_any (is_row serial «module».now line) rows.now }
{
    rows.iter().any(|row| {
        module.same(&row.module) && line == row.line && row.row.serial == serial
    })
}

// Makes the rows of this serial at a place active, and says whether there is one.
pub(crate) fn enable_rows(rows: &mut [BreakRow], module: &Name, line: u32, serial: u128) -> bool
    ensures found { result ≡ list_any (is_row serial «module».now line) rows.old }
    ensures rows { rows.new ≡ map (enabled_row serial «module».now line) rows.old }
{
    let mut found = false;
    for row in rows.iter_mut() {
        if enable_row(row, module, line, serial) {
            found = true;
        }
    }
    found
}

fn enable_row(row: &mut BreakRow, module: &Name, line: u32, serial: u128) -> bool
    ensures found { result ≡ is_row serial «module».now line row.old }
    ensures row { row.new ≡ enabled_row serial «module».now line row.old }
{
    let found = module.same(&row.module) && line == row.line && row.row.serial == serial;
    if found {
        row.row.status = Status::Active;
    }
    found
}

pub(crate) fn copy_rows(alloc: Global, rows: &[BreakRow]) -> Result<Vec<BreakRow>, AllocError>
    ensures { IfOk result (λ copies. copies.items ≡ rows.now) }
{
    let mut copies = Vec::new(alloc);
    for row in rows {
        copies.push(copy_row(alloc, row)?)?;
    }
    Ok(copies)
}

fn copy_row(alloc: Global, row: &BreakRow) -> Result<BreakRow, AllocError>
    ensures { IfOk result (λ copied. copied ≡ row.now) }
{
    let module = row.module.copy(alloc)?;
    let cond = copy_condition(alloc, &row.row.cond)?;
    Ok(BreakRow {
        module,
        line: row.line,
        row: Break {
            status: row.row.status,
            trigger: row.row.trigger,
            cond,
            serial: row.row.serial,
        },
    })
}

fn copy_condition(
    alloc: Global,
    cond: &Option<(Name, Name)>,
) -> Result<Option<(Name, Name)>, AllocError>
    ensures { IfOk result (λ copied. copied ≡ cond.now) }
{
    match cond {
        None => Ok(None),
        Some((module, name)) => {
            let module = module.copy(alloc)?;
            let name = name.copy(alloc)?;
            Ok(Some((module, name)))
        }
    }
}

pub(crate) fn same_rows(left: &[BreakRow], right: &[BreakRow]) -> bool
    ensures { IsTrue result ↔ (left.now ≡ right.now) }
{
    if left.len() != right.len() {
        return false;
    }
    for (row, other) in left.iter().zip(right) {
        if !same_row(row, other) {
            return false;
        }
    }
    true
}

fn same_row(row: &BreakRow, other: &BreakRow) -> bool
    ensures { IsTrue result ↔ (row.now ≡ other.now) }
{
    row.module.same(&other.module) && row.line == other.line && same_break(&row.row, &other.row)
}

fn same_break(left: &Break, right: &Break) -> bool
    ensures { IsTrue result ↔ (left.now ≡ right.now) }
{
    left.serial == right.serial
        && left.status == right.status
        && left.trigger == right.trigger
        && same_condition(&left.cond, &right.cond)
}

fn same_condition(left: &Option<(Name, Name)>, right: &Option<(Name, Name)>) -> bool
    ensures { IsTrue result ↔ (left.now ≡ right.now) }
{
    match (left, right) {
        (None, None) => true,
        (Some((module, name)), Some((other, function))) => {
            module.same(other) && name.same(function)
        }
        _ => false,
    }
}
