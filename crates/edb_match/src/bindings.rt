//! Matching under bindings.

ghost use Rattle.std.specs.Prelude.{◌≡◌, [], IfOk, map};
ghost use Rattle.std.specs.Option.{option_map};
ghost use Rattle.edb_lang.specs.Pairs.{Pairs, bindings_of};
ghost use Rattle.edb_lang.specs.TermViews.{pairs_of};
ghost use Rattle.edb_syntax.specs.Patterns.{pats_of};
ghost use Rattle.edb_moves.specs.Matching.{matched, all_matched};
ghost use Rattle.edb_match.specs.Newest.{newest_first};
ghost use Rattle.edb_match.specs.Views.{known_pairs, with_lent};

use crate::known::Known;
use crate::lent::Lent;
use crate::matching::{match_arguments, match_pattern};
use edb_lang::{Bindings, Captured, Term};
use edb_syntax::Pattern;
use std::alloc::{AllocError, Global};

/// The bindings with those that the pattern's variables get from the term; `None` if the term doesn't match. A variable
/// that is bound matches its value alone. `AllocError` only if out of memory.
pub fn matches(
    alloc: Global,
    pattern: &Pattern,
    term: &Term,
    bindings: &Bindings,
) -> Result<Option<Bindings>, AllocError>
    ensures { IfOk result (λ found. found ≡ option_map bindings_of (matched pattern.now term.now bindings.now)) }
{
    let known = Known::Sorted(bindings);
    let mut lent = Vec::new(alloc);
    if !match_pattern(pattern, term, &known, &mut lent)? {
        return Ok(None);
    }
    let pairs = all_pairs(alloc, &lent, bindings)?;
    Ok(Some(Bindings::of(alloc, &pairs)?))
}

/// The pairs that the pattern's variables get from the term, oldest first; `None` if the term doesn't match. `sees` and
/// `hidden` are what is bound already, newest last; `hidden` stands behind `sees`. A variable that is bound matches its
/// value alone. `AllocError` only if out of memory.
pub fn match_new(
    alloc: Global,
    pattern: &Pattern,
    term: &Term,
    sees: &[Captured],
    hidden: &[Captured],
) -> Result<Option<Vec<Captured>>, AllocError>
    ensures { IfOk result (λ found. option_map (λ new. newest_first new.items (newest_first sees.now (newest_first hidden.now []))) found ≡ matched pattern.now term.now (newest_first sees.now (newest_first hidden.now []))) }
{
    let known = Known::Stack(sees, hidden);
    let mut lent = Vec::new(alloc);
    if !match_pattern(pattern, term, &known, &mut lent)? {
        return Ok(None);
    }
    Ok(Some(copied(alloc, &lent)?))
}

/// As `match_new`, for patterns and terms one by one, as of a clause and its arguments; `None` also if there aren't as many
/// of both. Each pattern sees what those before it bound. `AllocError` only if out of memory.
pub fn match_all_new(
    alloc: Global,
    patterns: &[Pattern],
    terms: &[&Term],
    sees: &[Captured],
    hidden: &[Captured],
) -> Result<Option<Vec<Captured>>, AllocError>
    ensures { IfOk result (λ found. option_map (λ new. newest_first new.items (newest_first sees.now (newest_first hidden.now []))) found ≡ all_matched (pats_of patterns.now) (map (λ t. t.now) terms.now) (newest_first sees.now (newest_first hidden.now []))) }
{
    let known = Known::Stack(sees, hidden);
    let mut lent = Vec::new(alloc);
    if !match_arguments(patterns, terms, &known, &mut lent)? {
        return Ok(None);
    }
    Ok(Some(copied(alloc, &lent)?))
}

/// The pairs, each copied, in their order.
fn copied(alloc: Global, lent: &[Lent]) -> Result<Vec<Captured>, AllocError>
    ensures { (bs : Pairs) → IfOk result (λ pairs. newest_first pairs.items bs ≡ with_lent lent.now bs) }
{
    let mut pairs = Vec::new(alloc);
    for pair in lent {
        let name = pair.name.copy(alloc)?;
        let value = pair.value.copy(alloc)?;
        pairs.push(Captured { name, value })?;
    }
    Ok(pairs)
}

/// The new pairs, the newest first, and then the bindings.
fn all_pairs(alloc: Global, lent: &[Lent], bindings: &Bindings) -> Result<Vec<Captured>, AllocError>
    ensures { IfOk result (λ pairs. pairs_of pairs.items ≡ with_lent lent.now bindings.now) }
{
    let mut pairs = Vec::new(alloc);
    let mut end = lent.len();
    while end > 0 {
        end -= 1;
        let last = &lent[end];
        let name = last.name.copy(alloc)?;
        let value = last.value.copy(alloc)?;
        pairs.push(Captured { name, value })?;
    }
    let mut older = bindings.captured(alloc)?;
    pairs.append(&mut older)?;
    Ok(pairs)
}
