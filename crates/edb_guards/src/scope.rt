//! What is bound for a guard.

ghost use Rattle.std.specs.Prelude.{◌≡◌, []};
ghost use Rattle.std.specs.Option.{option_copied};
ghost use Rattle.edb_lang.specs.Pairs.{bound};
ghost use Rattle.edb_match.specs.Newest.{newest_first};
ghost use Rattle.edb_guards.specs.Views.{scope_pairs};

use edb_lang::{Bindings, Captured, Name, Term};
use edb_match::newest_value;

/// What is bound: sorted bindings, or three stacks of pairs, each with its newest pair last: what a clause's patterns bound,
/// what they saw, and what stands behind both.
#[derive(Clone, Copy)]
pub(crate) enum Scope<'a> {
    Sorted(&'a Bindings),
    Stacks(&'a [Captured], &'a [Captured], &'a [Captured]),
}

impl<'a> Scope<'a> {
    /// The value of a variable.
    #[tactic(auto, unfolding(crate::specs::Views::scope_pairs))]
    pub(crate) fn get(&self, name: &Name) -> Option<&Term>
        ensures { option_copied result ≡ bound name.now (scope_pairs self.now) }
    {
        match self {
            Scope::Sorted(bindings) => bindings.get(name),
            Scope::Stacks(new, sees, hidden) => newest_of(new, sees, hidden, name),
        }
    }
}

/// The value of a variable in the first of three stacks that has it.
#[tactic(auto, using(edb_match::proofs::Lists::bound_stack))]
fn newest_of<'b>(
    new: &'b [Captured],
    sees: &'b [Captured],
    hidden: &'b [Captured],
    name: &Name,
) -> Option<&'b Term>
    ensures { option_copied result ≡ bound name.now (newest_first new.now (newest_first sees.now (newest_first hidden.now []))) }
{
    if let Some(value) = newest_value(new, name) {
        return Some(value);
    }
    if let Some(value) = newest_value(sees, name) {
        return Some(value);
    }
    newest_value(hidden, name)
}
