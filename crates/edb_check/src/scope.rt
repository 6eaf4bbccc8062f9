//! Scopes: which variables are bound, what was bound last behind what was bound before.

ghost use Rattle.std.specs.Prelude.{◌≡◌, ◌≤◌, ◌++◌, ◌∷◌, [], ℕ, length, take, drop, map, is_some, IfOk, OnOk};
ghost use Rattle.edb_check.specs.Scopes as scopes;
ghost use Rattle.edb_check.specs.Views.{scope_of, names_of};

use crate::status::Status;
use edb_lang::Name;
use std::alloc::{AllocError, Global};
use std::marker::Model;

// A variable that is bound.
#[derive(Clone, Copy)]
pub(crate) struct Bound<'a> {
    pub(crate) name: &'a Name,
    pub(crate) status: Status,
}

/// Variables that are bound. Contracts see a list of `Binding`.
#[derive(Drop)]
pub(crate) struct Scope<'a> {
    bindings: Vec<Bound<'a>>,
}

impl<'a> Model for Scope<'a> {
    ghost use Rattle.std.specs.Prelude.{List};
    ghost use Rattle.std.specs.Coded.{coded_list};
    ghost use Rattle.edb_check.specs.Scopes.{Binding};
    ghost use Rattle.edb_check.specs.Views.{coded_binding, scope_of};

    ghost Value = { List Binding };

    ghost coded = { coded_list coded_binding };

    ghost view = { λ s. scope_of s.bindings.items };
}

// How a name is bound, if it is: as it was bound last.
fn find(bindings: &[Bound], name: &Name) -> Option<Status>
    ensures { result ≡ scopes.lookup name.now (scope_of bindings.now) }
{
    let mut end = bindings.len();
    while end > 0 {
        end -= 1;
        let last = &bindings[end];
        if last.name.same(name) {
            return Some(last.status);
        }
    }
    None
}

// Whether a name is bound.
fn has(bindings: &[Bound], name: &Name) -> bool
    ensures { result ≡ scopes.has name.now (scope_of bindings.now) }
{
    find(bindings, name).is_some()
}

// The status of what is bound on one way as the first says, after the other way was looked at.
fn both_ways(status: Status, other: Option<Status>) -> Status
    ensures { result ≡ scopes.both_ways status other }
{
    match (status, other) {
        (Status::Sure, Some(Status::Sure)) => Status::Sure,
        _ => Status::Partly,
    }
}

// Makes each binding behind a mark one on some ways alone.
fn weaken(bindings: &mut [Bound], mark: usize)
    requires { mark ≤ length bindings.old }
    ensures { scope_of bindings.new ≡ take mark (scope_of bindings.old) ++ map scopes.partly (drop mark (scope_of bindings.old)) }
{
    for i in mark..bindings.len() {
        bindings[i].status = Status::Partly;
    }
}

// What the first way binds, after the second was looked at.
fn weakened<'a>(
    alloc: Global,
    first: &[Bound<'a>],
    second: &[Bound<'a>],
) -> Result<Vec<Bound<'a>>, AllocError>
    ensures { IfOk result (λ v. scope_of v.items ≡ map (scopes.weaken (scope_of second.now)) (scope_of first.now)) }
{
    let mut joined = Vec::new(alloc);
    for bound in first {
        let name = bound.name;
        let status = both_ways(bound.status, find(second, name));
        joined.push(Bound { name, status })?;
    }
    Ok(joined)
}

// Puts what the second way alone binds behind the others.
fn add_beyond<'a>(
    joined: &mut Vec<Bound<'a>>,
    first: &[Bound<'a>],
    second: &[Bound<'a>],
) -> Result<(), AllocError>
    ensures { OnOk result (scope_of joined.new.items ≡ scope_of joined.old.items ++ scopes.beyond (scope_of first.now) (scope_of second.now)) }
{
    let status = Status::Partly;
    for bound in second {
        let name = bound.name;
        if !has(first, name) {
            joined.push(Bound { name, status })?;
        }
    }
    Ok(())
}

/// Whether one of the names is bound.
pub(crate) fn meets(bindings: &[Bound], names: &[&Name]) -> bool
    ensures { result ≡ scopes.meets (scope_of bindings.now) (names_of names.now) }
{
    if bindings.is_empty() {
        return false;
    }
    for name in names {
        if has(bindings, name) {
            return true;
        }
    }
    false
}

#[tactic(auto, using(crate::proofs::Bindings::views))]
impl<'a> Scope<'a> {
    /// Where nothing is bound.
    pub(crate) fn new(alloc: Global) -> Scope<'a>
        ensures { result ≡ [] }
    {
        Scope {
            bindings: Vec::new(alloc),
        }
    }

    /// How many bindings there are: a mark, behind which later ones come.
    pub(crate) fn mark(&self) -> usize
        ensures { result ≡ length self.now }
    {
        self.bindings.len()
    }

    /// What two ways bind.
    pub(crate) fn meet(&self, alloc: Global, other: &Scope<'a>) -> Result<Scope<'a>, AllocError>
        ensures { IfOk result (λ s. s ≡ scopes.meet self.now other.now) }
    {
        let mut bindings = weakened(alloc, &self.bindings, &other.bindings)?;
        add_beyond(&mut bindings, &self.bindings, &other.bindings)?;
        Ok(Scope { bindings })
    }

    /// The bindings between two marks.
    pub(crate) fn between(&self, from: usize, to: usize) -> &[Bound<'a>]
        requires { (from ≤ to) × (to ≤ length self.now) }
        ensures { scope_of result.now ≡ drop from (take to self.now) }
    {
        let (front, _) = self.bindings.split_at(to);
        let (_, part) = front.split_at(from);
        part
    }

    /// The bindings behind a mark.
    pub(crate) fn behind(&self, mark: usize) -> &[Bound<'a>]
        requires { mark ≤ length self.now }
        ensures { scope_of result.now ≡ drop mark self.now }
    {
        let (_, behind) = self.bindings.split_at(mark);
        behind
    }

    /// How a name is bound behind a mark, if it is.
    pub(crate) fn find(&self, mark: usize, name: &Name) -> Option<Status>
        requires { mark ≤ length self.now }
        ensures { result ≡ scopes.lookup name.now (drop mark self.now) }
    {
        find(self.behind(mark), name)
    }

    /// Whether a name is bound behind a mark.
    pub(crate) fn has(&self, mark: usize, name: &Name) -> bool
        requires { mark ≤ length self.now }
        ensures { result ≡ scopes.has name.now (drop mark self.now) }
    {
        has(self.behind(mark), name)
    }

    /// Binds a name.
    pub(crate) fn bind(&mut self, name: &'a Name, status: Status) -> Result<(), AllocError>
        ensures { OnOk result (self.new ≡ self.old ++ record { name = name.now; status = status } ∷ []) }
    {
        self.bindings.push(Bound { name, status })?;
        Ok(())
    }

    /// Leaves the scope behind a mark.
    pub(crate) fn leave(&mut self, mark: usize)
        requires { mark ≤ length self.old }
        ensures { self.new ≡ take mark self.old }
    {
        self.bindings.truncate(mark);
    }

    /// Leaves the scope behind a mark, and gives what was bound there.
    pub(crate) fn split(&mut self, mark: usize) -> Result<Scope<'a>, AllocError>
        requires { mark ≤ length self.old }
        ensures front { OnOk result (self.new ≡ take mark self.old) }
        ensures back { IfOk result (λ s. s ≡ drop mark self.old) }
    {
        let bindings = self.bindings.split_off(mark)?;
        Ok(Scope { bindings })
    }

    /// Binds all of these.
    pub(crate) fn add(&mut self, more: Scope<'a>) -> Result<(), AllocError>
        ensures { OnOk result (self.new ≡ self.old ++ more.entry) }
    {
        let mut more = more;
        self.bindings.append(&mut more.bindings)?;
        Ok(())
    }

    /// Makes what is bound behind a mark bound on some ways alone.
    pub(crate) fn weaken(&mut self, mark: usize)
        requires { mark ≤ length self.old }
        ensures { self.new ≡ take mark self.old ++ map scopes.partly (drop mark self.old) }
    {
        weaken(&mut self.bindings, mark);
    }
}
