//! The clause that is chosen.

ghost use Rattle.std.specs.Prelude.{◌≡◌, ℕ, [], IfOk, MatchOption, length, map, unwrap_or};
ghost use Rattle.std.specs.Option.{option_map};
ghost use Rattle.edb_guards.specs.Choices.{choice_of};
ghost use Rattle.edb_lang.specs.Terms.{Datum};
ghost use Rattle.edb_moves.specs.Clauses.{chosen};
ghost use Rattle.edb_moves.specs.Going.{Place, Effect, if_some, taken};
ghost use Rattle.edb_moves.specs.Running.{Run};
ghost use Rattle.edb_path.specs.Plans.{effect, Suits};
ghost use Rattle.edb_syntax.specs.Syntax.{clauses_of};

use edb_guards::{Choice, choose};
use edb_lang::Term;
use edb_path::Plan;
use edb_stack::{Leaf, Path, Redex};
use edb_syntax::Clause;
use edb_variables::Variables;
use std::alloc::{AllocError, Global};

/// The sequence of the first clause whose patterns match the arguments and whose guard holds for the process `me`, with
/// what the patterns bind; `None` where there is no such clause. `AllocError` only if out of memory.
pub fn take_clause<'a>(
    alloc: Global,
    clauses: &'a [Clause],
    arguments: &[&Term],
    me: u32,
    variables: &Variables,
) -> Result<Option<Plan<'a>>, AllocError>
    ensures effect { (p : Place) (v : Datum) (none : Effect Run) → p.me ≡ me → p.bindings ≡ variables.now.pairs → IfOk result (λ found. unwrap_or (option_map (effect p v) found) none ≡ if_some (chosen p.me p.bindings [] (clauses_of clauses.entry.now) (map (λ t. t.now) arguments.now)) taken none) }
    ensures suits { IfOk result (λ found. MatchOption found (Unit {0}) (Suits (length variables.now.pairs))) }
{
    match choose(alloc, clauses, arguments, variables.pairs(), &[], me)? {
        Some(choice) => Ok(Some(begin_clause(alloc, choice))),
        None => Ok(None),
    }
}

/// The sequence of a clause that is chosen, with its pairs.
fn begin_clause<'a>(alloc: Global, choice: Choice<'a>) -> Plan<'a>
    ensures effect { (p : Place) (v : Datum) → effect p v result ≡ taken (choice_of p.bindings choice.entry) }
    ensures suits { (n : ℕ) → Suits n result }
{
    let body = choice.body;
    let layers = Vec::new(alloc);
    let redex = Redex::Leaf(Leaf::Unbegun(&body.first, &body.rest));
    Plan::Turns(choice.pairs, Path { layers, redex })
}
