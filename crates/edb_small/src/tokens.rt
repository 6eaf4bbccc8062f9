//! Single tokens at the front of others.

ghost use Rattle.std.specs.Prelude.{◌≡◌, ◌<◌, ◌&&◌, IfSome, MatchOption, [], ◌∷◌, length};
ghost use Rattle.edb_lang.specs.TermText.{same_name};
ghost use Rattle.edb_small.specs.Conditions as conditions;
ghost use Rattle.edb_small.specs.Descent as descent;
ghost use Rattle.edb_small.specs.Descent.{Finds};

use edb_lang::Name;
use edb_scan::{Mark, Placed, Token};

/// The first token, and those behind it.
pub fn first(tokens: &[Placed]) -> Option<(&Placed, &[Placed])>
    ensures { MatchOption result (tokens.now ≡ []) (λ x. tokens.now ≡ x.0.now ∷ x.1.now) }
{
    tokens.split_first()
}

/// What stands behind this mark, where the tokens begin with it.
#[tactic(auto, unfolding(crate::specs::Descent::behind, crate::specs::Descent::same_mark))]
pub fn behind(mark: Mark, tokens: &[Placed]) -> Option<&[Placed]>
    ensures finds { Finds (λ rest. rest.now) result (descent.behind mark tokens.now) }
    ensures shorter { IfSome result (λ rest. length rest.now < length tokens.now) }
{
    let (placed, rest) = first(tokens)?;
    match &placed.token {
        Token::Mark(found) if mark == *found => Some(rest),
        _ => None,
    }
}

/// What stands behind the dot that ends a form, where the tokens begin with it.
#[tactic(auto, unfolding(crate::specs::Descent::behind_dot))]
pub fn behind_dot(tokens: &[Placed]) -> Option<&[Placed]>
    ensures finds { Finds (λ rest. rest.now) result (descent.behind_dot tokens.now) }
    ensures shorter { IfSome result (λ rest. length rest.now < length tokens.now) }
{
    let (placed, rest) = first(tokens)?;
    match &placed.token {
        Token::Dot => Some(rest),
        _ => None,
    }
}

/// An atom's name with its line, and what stands behind it.
#[tactic(auto, unfolding(crate::specs::Descent::atom_at))]
pub fn atom(tokens: &[Placed]) -> Option<(u32, &Name, &[Placed])>
    ensures finds { Finds (λ x. ((x.0, x.1.now), x.2.now)) result (descent.atom_at tokens.now) }
    ensures shorter { IfSome result (λ x. length x.2.now < length tokens.now) }
{
    let (placed, rest) = first(tokens)?;
    match &placed.token {
        Token::Atom(name) => Some((placed.line, name, rest)),
        _ => None,
    }
}

/// Whether a variable's name begins with an upper-case letter.
pub fn is_capital(name: &Name) -> bool
    ensures { result ≡ conditions.is_capital name.now }
{
    match name.as_bytes().first() {
        Some(byte) => (b'A'..=b'Z').contains(byte),
        None => false,
    }
}

/// A variable's name with its line, and what stands behind it.
#[tactic(auto, unfolding(crate::specs::Descent::variable_at))]
pub fn variable(tokens: &[Placed]) -> Option<(u32, &Name, &[Placed])>
    ensures finds { Finds (λ x. ((x.0, x.1.now), x.2.now)) result (descent.variable_at tokens.now) }
    ensures shorter { IfSome result (λ x. length x.2.now < length tokens.now) }
{
    let (placed, rest) = first(tokens)?;
    match &placed.token {
        Token::Var(name) if is_capital(name) => Some((placed.line, name, rest)),
        _ => None,
    }
}

/// An integer that fits 32 bits, and what stands behind it.
#[tactic(auto, unfolding(crate::specs::Descent::arity_at))]
pub fn arity(tokens: &[Placed]) -> Option<(u32, &[Placed])>
    ensures finds { Finds (λ x. (x.0, x.1.now)) result (descent.arity_at tokens.now) }
    ensures shorter { IfSome result (λ x. length x.1.now < length tokens.now) }
{
    let (placed, rest) = first(tokens)?;
    match &placed.token {
        Token::Int(value) if *value <= u32::MAX as u128 => Some((*value as u32, rest)),
        _ => None,
    }
}

/// Whether two names are the call of `display`: the module and the function.
pub fn is_display(module: &Name, name: &Name) -> bool
    ensures { result ≡ descent.is_display «module».now name.now }
{
    module.as_bytes() == b"erlang".as_slice() && name.as_bytes() == b"display".as_slice()
}

/// What stands behind this atom, where the tokens begin with it.
#[tactic(auto, unfolding(crate::specs::Descent::behind_word))]
pub fn behind_word<'a>(word: &[u8], tokens: &'a [Placed]) -> Option<&'a [Placed]>
    ensures finds { Finds (λ rest. rest.now) result (descent.behind_word word.now tokens.now) }
    ensures shorter { IfSome result (λ rest. length rest.now < length tokens.now) }
{
    let (_, name, rest) = atom(tokens)?;
    if name.as_bytes() == word {
        return Some(rest);
    }
    None
}
