//! The choice of a clause: the first whose patterns match and whose guard holds.

ghost use Rattle.std.specs.Prelude.{◌≡◌, [], IfOk, map};
ghost use Rattle.std.specs.Option.{option_map};
ghost use Rattle.edb_syntax.specs.Syntax.{clauses_of};
ghost use Rattle.edb_moves.specs.Clauses.{chosen, chosen_clause};
ghost use Rattle.edb_match.specs.Newest.{newest_first};
ghost use Rattle.edb_guards.specs.Choices.{choice_of};

use crate::choice::Choice;
use crate::guards::holds;
use crate::scope::Scope;
use edb_lang::{Captured, Term};
use edb_match::match_all_new;
use edb_syntax::Clause;
use std::alloc::{AllocError, Global};

/// The first clause whose patterns match the arguments and whose guard holds for the process `me`; none if there is no
/// such clause. `sees` and `hidden` are what is bound already, newest last. The patterns see `sees` alone: a variable that
/// is bound there matches its value, and any other one takes the term, also one that `hidden` binds. The guard sees the new
/// pairs, `sees` behind them, and `hidden` behind both. What a clause binds is copied once all of its patterns match.
/// `AllocError` only if out of memory.
pub fn choose<'a>(
    alloc: Global,
    clauses: &'a [Clause],
    arguments: &[&Term],
    sees: &[Captured],
    hidden: &[Captured],
    me: u32,
) -> Result<Option<Choice<'a>>, AllocError>
    ensures { IfOk result (λ found. option_map (choice_of (newest_first sees.now (newest_first hidden.now []))) found ≡ chosen me (newest_first sees.now []) (newest_first hidden.now []) (clauses_of clauses.now) (map (λ t. t.now) arguments.now)) }
{
    for clause in clauses {
        if let Some(choice) = choose_clause(alloc, clause, arguments, sees, hidden, me)? {
            return Ok(Some(choice));
        }
    }
    Ok(None)
}

/// The clause, if its patterns match and its guard holds.
#[tactic(auto, using(crate::proofs::Stacks::stack_behind), unfolding(crate::specs::Views::scope_pairs))]
fn choose_clause<'a>(
    alloc: Global,
    clause: &'a Clause,
    arguments: &[&Term],
    sees: &[Captured],
    hidden: &[Captured],
    me: u32,
) -> Result<Option<Choice<'a>>, AllocError>
    ensures { IfOk result (λ found. option_map (choice_of (newest_first sees.now (newest_first hidden.now []))) found ≡ chosen_clause me (newest_first sees.now []) (newest_first hidden.now []) clause.now (map (λ t. t.now) arguments.now)) }
{
    let Some(pairs) = match_all_new(alloc, &clause.patterns, arguments, sees, &[])? else {
        return Ok(None);
    };
    if !holds(
        alloc,
        &clause.guard,
        &Scope::Stacks(&pairs, sees, hidden),
        me,
    )? {
        return Ok(None);
    }
    Ok(Some(Choice {
        pairs,
        body: &clause.body,
    }))
}
