//! The walk of the checker: the variables that are bound where it stands, the names that it has met, and the first
//! fault so far.

ghost use Rattle.std.specs.Prelude.{◌≡◌, ◌≤◌, ◌∷◌, ◌++◌, [], None, length, take, drop, map, OnOk, IfOk, if◌then◌else◌};
ghost use Rattle.edb_check.specs.Faults as faults;
ghost use Rattle.edb_check.specs.Scopes.{lookup, has, sure, partly, outer};
ghost use Rattle.edb_check.specs.PatternRules.{matched};
ghost use Rattle.edb_check.specs.Rules.{used};
ghost use Rattle.edb_check.specs.Walking.{Walks, part, only};
ghost use Rattle.edb_check.specs.Joins as joins;
ghost use Rattle.edb_check.specs.Joins.{or_none};

use crate::fault::{CheckFault, CheckKind, better};
use crate::names::NameList;
use crate::scope::Scope;
use crate::status::Status;
use edb_lang::Name;
use std::alloc::{AllocError, Global};

/// Where a walk stands.
#[derive(Drop)]
pub(crate) struct Walk<'a> {
    pub(crate) scope: Scope<'a>,
    pub(crate) names: NameList<'a>,
    pub(crate) first: Option<CheckFault>,
    pub(crate) alloc: Global,
}

impl<'a> Walk<'a> {
    /// Where nothing is bound and nothing was met.
    pub(crate) fn new(alloc: Global) -> Walk<'a>
        ensures scope { result.scope ≡ [] }
        ensures names { result.names ≡ [] }
        ensures first { result.first ≡ None }
    {
        Walk {
            scope: Scope::new(alloc),
            names: NameList::new(alloc),
            first: None,
            alloc,
        }
    }

    /// Tells a fault.
    pub(crate) fn report(&mut self, line: u32, kind: CheckKind)
        ensures { Walks self.old self.new (only (faults.fault line kind)) }
    {
        self.first = better(self.first, CheckFault { line, kind });
    }

    /// Tells a fault where there is one.
    pub(crate) fn report_if(&mut self, wrong: bool, line: u32, kind: CheckKind)
        ensures { Walks self.old self.new (only (faults.fault_if wrong line kind)) }
    {
        if wrong {
            self.report(line, kind);
        }
    }

    /// Comes to a variable that is used.
    pub(crate) fn use_name(&mut self, line: u32, name: &'a Name) -> Result<(), AllocError>
        ensures { OnOk result (Walks self.old self.new (part [] (name.now ∷ []) (used line (lookup name.now self.old.scope)))) }
    {
        self.names.push(name)?;
        match self.scope.find(0, name) {
            None => {
                self.report(line, CheckKind::Unbound);
                Ok(())
            }
            Some(Status::Sure) => Ok(()),
            Some(Status::Partly) => {
                self.report(line, CheckKind::Unsafe);
                Ok(())
            }
        }
    }

    /// Comes to a variable of a pattern, which sees what is bound behind a mark.
    pub(crate) fn match_name(
        &mut self,
        mark: usize,
        line: u32,
        name: &'a Name,
    ) -> Result<(), AllocError>
        requires { mark ≤ length self.old.scope }
        ensures { let seen = drop mark self.old.scope in OnOk result (Walks self.old self.new
            (part (if has name.now seen then [] else sure name.now ∷ []) (name.now ∷ []) (matched line (lookup name.now seen)))) }
    {
        self.names.push(name)?;
        match self.scope.find(mark, name) {
            None => {
                self.scope.bind(name, Status::Sure)?;
                Ok(())
            }
            Some(Status::Sure) => Ok(()),
            Some(Status::Partly) => {
                self.report(line, CheckKind::Unsafe);
                Ok(())
            }
        }
    }

    /// Leaves the scope behind a mark.
    pub(crate) fn leave(&mut self, mark: usize)
        requires { mark ≤ length self.old.scope }
        ensures scope { self.new.scope ≡ take mark self.old.scope }
        ensures names { self.new.names ≡ self.old.names }
        ensures first { self.new.first ≡ self.old.first }
    {
        self.scope.leave(mark);
    }

    /// Leaves the scope behind a mark, and gives what was bound there.
    pub(crate) fn split(&mut self, mark: usize) -> Result<Scope<'a>, AllocError>
        requires { mark ≤ length self.old.scope }
        ensures scope { OnOk result (self.new.scope ≡ take mark self.old.scope) }
        ensures names { self.new.names ≡ self.old.names }
        ensures first { self.new.first ≡ self.old.first }
        ensures back { IfOk result (λ s. s ≡ drop mark self.old.scope) }
    {
        self.scope.split(mark)
    }

    /// Makes what is bound behind a mark bound on some ways alone.
    pub(crate) fn weaken(&mut self, mark: usize)
        requires { mark ≤ length self.old.scope }
        ensures scope { self.new.scope ≡ take mark self.old.scope ++ map partly (drop mark self.old.scope) }
        ensures names { self.new.names ≡ self.old.names }
        ensures first { self.new.first ≡ self.old.first }
    {
        self.scope.weaken(mark);
    }

    /// Binds what the ways bind, where there was one.
    pub(crate) fn add(&mut self, joined: Option<Scope<'a>>) -> Result<(), AllocError>
        ensures { OnOk result (Walks self.old self.new (part (or_none joined.entry) [] [])) }
    {
        match joined {
            None => Ok(()),
            Some(bindings) => self.scope.add(bindings),
        }
    }

    /// Binds what the ways bind, on some ways alone.
    pub(crate) fn add_partly(&mut self, joined: Option<Scope<'a>>) -> Result<(), AllocError>
        ensures { OnOk result (Walks self.old self.new (part (map partly (or_none joined.entry)) [] [])) }
    {
        let mark = self.scope.mark();
        self.add(joined)?;
        self.weaken(mark);
        Ok(())
    }

    /// Takes away the names behind a mark that are bound behind a mark.
    pub(crate) fn hide(&mut self, names_mark: usize, mark: usize) -> Result<(), AllocError>
        requires { (names_mark ≤ length self.old.names) × (mark ≤ length self.old.scope) }
        ensures scope { self.new.scope ≡ self.old.scope }
        ensures names { OnOk result (self.new.names ≡ take names_mark self.old.names ++ outer (drop mark self.old.scope) (drop names_mark self.old.names)) }
        ensures first { self.new.first ≡ self.old.first }
    {
        self.names.hide(names_mark, &self.scope, mark)
    }

    /// Takes away the names behind a mark.
    pub(crate) fn leave_names(&mut self, mark: usize)
        requires { mark ≤ length self.old.names }
        ensures scope { self.new.scope ≡ self.old.scope }
        ensures names { self.new.names ≡ take mark self.old.names }
        ensures first { self.new.first ≡ self.old.first }
    {
        self.names.leave(mark);
    }
}

/// What several ways bind, after one more.
pub(crate) fn with_way<'a>(
    alloc: Global,
    joined: Option<Scope<'a>>,
    way: Scope<'a>,
) -> Result<Option<Scope<'a>>, AllocError>
    ensures { IfOk result (λ o. o ≡ joins.with_way joined.entry way.entry) }
{
    match joined {
        None => Ok(Some(way)),
        Some(others) => Ok(Some(others.meet(alloc, &way)?)),
    }
}
