//! The choice of a clause of a `try` for an exception.

ghost use Rattle.std.specs.Prelude.{◌≡◌, [], IfOk};
ghost use Rattle.std.specs.Option.{option_map};
ghost use Rattle.edb_lang.specs.Terms as terms;
ghost use Rattle.edb_syntax.specs.Syntax.{catches_of};
ghost use Rattle.edb_moves.specs.Clauses.{class_atom, handler, handling_clause, stack_pattern};
ghost use Rattle.edb_moves.specs.Matching.{matched};
ghost use Rattle.edb_match.specs.Newest.{newest_first};
ghost use Rattle.edb_match.specs.Views.{left};
ghost use Rattle.edb_guards.specs.Choices.{choice_of};

use crate::choice::Choice;
use crate::guards::holds;
use crate::scope::Scope;
use edb_lang::{Captured, Class, Name, Term};
use edb_match::match_new;
use edb_syntax::{CatchClause, Pattern};
use std::alloc::{AllocError, Global};

/// The first clause behind `catch` that matches an exception and whose guard holds for the process `me`; none if there is
/// no such clause. A clause's class, its pattern and its variable for the stack are matched one after the other with the
/// class as an atom, the reason, and the stack, which is always `[]`. `kept` is what the `try` began with, newest last, and
/// all see it. `AllocError` only if out of memory.
pub fn choose_catch<'a>(
    alloc: Global,
    catches: &'a [CatchClause],
    class: Class,
    reason: &Term,
    kept: &[Captured],
    me: u32,
) -> Result<Option<Choice<'a>>, AllocError>
    ensures { IfOk result (λ found. option_map (choice_of (newest_first kept.now [])) found ≡ handler me (newest_first kept.now []) (catches_of catches.now) class reason.now) }
{
    for clause in catches {
        if let Some(choice) = choose_handler(alloc, clause, class, reason, kept, me)? {
            return Ok(Some(choice));
        }
    }
    Ok(None)
}

/// The clause, if it matches and its guard holds.
#[tactic(auto, unfolding(crate::specs::Views::scope_pairs))]
fn choose_handler<'a>(
    alloc: Global,
    clause: &'a CatchClause,
    class: Class,
    reason: &Term,
    kept: &[Captured],
    me: u32,
) -> Result<Option<Choice<'a>>, AllocError>
    ensures { IfOk result (λ found. option_map (choice_of (newest_first kept.now [])) found ≡ handling_clause me (newest_first kept.now []) clause.now class reason.now) }
{
    let name = class_term(alloc, class)?;
    let mut pairs = Vec::new(alloc);
    if !match_more(alloc, &clause.class, &name, &mut pairs, kept)? {
        return Ok(None);
    }
    if !match_more(alloc, &clause.pattern, reason, &mut pairs, kept)? {
        return Ok(None);
    }
    if !match_stack(alloc, &clause.stack, &mut pairs, kept)? {
        return Ok(None);
    }
    if !holds(alloc, &clause.guard, &Scope::Stacks(&pairs, kept, &[]), me)? {
        return Ok(None);
    }
    Ok(Some(Choice {
        pairs,
        body: &clause.body,
    }))
}

/// The atom of a class.
fn class_term(alloc: Global, class: Class) -> Result<Term, AllocError>
    ensures { IfOk result (λ term. term ≡ class_atom class) }
{
    let text = match class {
        Class::Error => "error",
        Class::Exit => "exit",
        Class::Throw => "throw",
    };
    Ok(Term::atom(Name::from_str(alloc, text)?))
}

/// Whether the term matches under `kept` and the pairs in front of it. Those that it binds are pushed; if it doesn't match,
/// nothing is.
#[tactic(auto, using(crate::proofs::Stacks::stack_joined))]
fn match_more(
    alloc: Global,
    pattern: &Pattern,
    term: &Term,
    pairs: &mut Vec<Captured>,
    kept: &[Captured],
) -> Result<bool, AllocError>
    ensures { IfOk result (λ ok. matched pattern.now term.now (newest_first pairs.old.items (newest_first kept.now [])) ≡ left ok (newest_first pairs.new.items (newest_first kept.now []))) }
{
    let Some(mut more) = match_new(alloc, pattern, term, pairs, kept)? else {
        return Ok(false);
    };
    pairs.append(&mut more)?;
    Ok(true)
}

/// As `match_more`, for the stack, which is `[]`; if there is no pattern for it, all matches.
fn match_stack(
    alloc: Global,
    stack: &Option<Pattern>,
    pairs: &mut Vec<Captured>,
    kept: &[Captured],
) -> Result<bool, AllocError>
    ensures { IfOk result (λ ok. matched (stack_pattern stack.now) terms.nil (newest_first pairs.old.items (newest_first kept.now [])) ≡ left ok (newest_first pairs.new.items (newest_first kept.now []))) }
{
    match stack {
        Some(pattern) => match_more(alloc, pattern, &Term::nil(), pairs, kept),
        None => Ok(true),
    }
}
