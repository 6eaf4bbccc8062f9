//! Names that parts of an expression have in common with their surroundings.

ghost use Rattle.std.specs.Prelude.{◌≡◌, ◌≤◌, ◌++◌, ◌∷◌, [], length, take, drop, OnOk};
ghost use Rattle.edb_check.specs.Scopes as scopes;
ghost use Rattle.edb_check.specs.Views.{names_of};

use crate::scope::Scope;
use edb_lang::Name;
use std::alloc::{AllocError, Global};
use std::marker::Model;

/// Names, one behind the other. Contracts see a list of names.
#[derive(Drop)]
pub(crate) struct NameList<'a> {
    names: Vec<&'a Name>,
}

impl<'a> Model for NameList<'a> {
    ghost use Rattle.std.specs.Prelude.{ℕ, List};
    ghost use Rattle.edb_check.specs.Views.{names_of};

    ghost Value = { List (List ℕ) };

    ghost view = { λ n. names_of n.names.items };
}

#[tactic(auto, using(crate::proofs::NameLists::views))]
impl<'a> NameList<'a> {
    /// No names.
    pub(crate) fn new(alloc: Global) -> NameList<'a>
        ensures { result ≡ [] }
    {
        NameList {
            names: Vec::new(alloc),
        }
    }

    /// How many names there are: a mark, behind which later ones come.
    pub(crate) fn mark(&self) -> usize
        ensures { result ≡ length self.now }
    {
        self.names.len()
    }

    /// The names between two marks.
    pub(crate) fn between(&self, from: usize, to: usize) -> &[&'a Name]
        requires { (from ≤ to) × (to ≤ length self.now) }
        ensures { names_of result.now ≡ drop from (take to self.now) }
    {
        let (front, _) = self.names.split_at(to);
        let (_, part) = front.split_at(from);
        part
    }

    /// The names behind a mark.
    pub(crate) fn behind(&self, mark: usize) -> &[&'a Name]
        requires { mark ≤ length self.now }
        ensures { names_of result.now ≡ drop mark self.now }
    {
        let (_, behind) = self.names.split_at(mark);
        behind
    }

    /// Puts a name behind the others.
    pub(crate) fn push(&mut self, name: &'a Name) -> Result<(), AllocError>
        ensures { OnOk result (self.new ≡ self.old ++ name.now ∷ []) }
    {
        self.names.push(name)?;
        Ok(())
    }

    /// Takes the names behind a mark away.
    pub(crate) fn leave(&mut self, mark: usize)
        requires { mark ≤ length self.old }
        ensures { self.new ≡ take mark self.old }
    {
        self.names.truncate(mark);
    }

    /// Takes away the names behind a mark that are bound in a scope behind a mark.
    pub(crate) fn hide(&mut self, mark: usize, scope: &Scope, from: usize) -> Result<(), AllocError>
        requires { (mark ≤ length self.old) × (from ≤ length scope.now) }
        ensures { OnOk result (self.new ≡ take mark self.old ++ scopes.outer (drop from scope.now) (drop mark self.old)) }
    {
        let tail = self.names.split_off(mark)?;
        add_outer(&mut self.names, &tail, scope, from)
    }
}

// Puts those names behind others that aren't bound in a scope behind a mark.
fn add_outer<'a>(
    names: &mut Vec<&'a Name>,
    more: &[&'a Name],
    scope: &Scope,
    from: usize,
) -> Result<(), AllocError>
    requires { from ≤ length scope.now }
    ensures { OnOk result (names_of names.new.items ≡ names_of names.old.items ++ scopes.outer (drop from scope.now) (names_of more.now)) }
{
    for name in more {
        if !scope.has(from, name) {
            names.push(name)?;
        }
    }
    Ok(())
}
