//! Tokens still to be read.

ghost use Rattle.std.specs.Prelude.{◌≡◌, ◌<◌, ◌∷◌, ◌++◌, [], MatchOption, MatchResult, true, false, pos, nat_le, IfSome, IfOk, None, Some};
ghost use Rattle.edb_grammar.specs.Toks.{tok};
ghost use Rattle.edb_grammar.specs.Toks as grammar;
ghost use Rattle.edb_grammar.specs.Reading as reading;
ghost use Rattle.edb_grammar.specs.ExpressionReading as expressions;
ghost use Rattle.edb_grammar.specs.FormReading as forms;
ghost use Rattle.edb_parse.specs.declared.unread.Unread.TheVariants.{Refused};
ghost use Rattle.edb_parse.specs.Cursors.{toks, at_place, Fits, Moves, Stays};
ghost use Rattle.edb_parse.specs.Gives.{Gives, GivesTree};

use crate::unread::Unread;
use edb_lang::Name;
use edb_scan::{Mark, Placed, Text, Token};
use std::alloc::{AllocError, Global};

/// Tokens still to be read, and how many `fun`s of functions stand before them in the module.
#[derive(Clone, Copy)]
pub struct Cursor<'a> {
    pub tokens: &'a [Placed],
    pub funs: u32,
}

/// Where a token stands: its line, and how many `fun`s of functions stand before it in the module.
#[derive(Clone, Copy)]
pub struct Place {
    pub line: u32,
    pub funs: u32,
}

/// How many `fun`s stand up to this token, where so many stand before it.
pub fn funs_with(funs: u32, token: &Token) -> u32
    requires { funs < 4_294_967_295 }
    ensures { result ≡ grammar.funs_with funs token.now }
{
    match token {
        Token::Mark(Mark::Fun) => funs + 1,
        _ => funs,
    }
}

impl<'a> Cursor<'a> {
    /// The first token with its place, and what stands behind it.
    pub fn first(self) -> Option<(Place, &'a Token, Cursor<'a>)>
        requires fits { Fits self }
        ensures first { MatchOption result (toks self.entry ≡ []) (λ x. toks self.entry ≡ tok (at_place x.0) x.1.now ∷ toks x.2) }
        ensures moves { IfSome result (λ x. Moves self.entry x.2) }
    {
        let (placed, tokens) = self.tokens.split_first()?;
        let line = placed.line;
        let place = Place {
            line,
            funs: self.funs,
        };
        let funs = funs_with(self.funs, &placed.token);
        Some((place, &placed.token, Cursor { tokens, funs }))
    }

    /// The first token with its place, and what stands behind it, where there is one.
    pub fn require(self) -> Result<(Place, &'a Token, Cursor<'a>), Unread>
        requires fits { Fits self }
        ensures first { MatchResult result (λ x. toks self.entry ≡ tok (at_place x.0) x.1.now ∷ toks x.2) (λ e. (toks self.entry ≡ []) × (e ≡ Refused)) }
        ensures moves { IfOk result (λ x. Moves self.entry x.2) }
    {
        match self.first() {
            Some(found) => Ok(found),
            None => Err(Unread::Refused),
        }
    }

    /// What stands behind this mark, where it stands first.
    pub fn behind(self, mark: Mark) -> Option<Cursor<'a>>
        requires fits { Fits self }
        ensures finds { MatchOption result (reading.behind mark (toks self.entry) ≡ None) (λ rest. reading.behind mark (toks self.entry) ≡ Some (toks rest)) }
        ensures moves { IfSome result (λ rest. Moves self.entry rest) }
    {
        let (_, token, rest) = self.first()?;
        match token {
            Token::Mark(found) if mark as u8 == *found as u8 => Some(rest),
            _ => None,
        }
    }

    /// What stands behind this mark, which has to stand first.
    pub fn expect(self, mark: Mark) -> Result<Cursor<'a>, Unread>
        requires fits { Fits self }
        ensures finds { MatchResult result (λ rest. reading.behind mark (toks self.entry) ≡ Some (toks rest)) (λ e. (reading.behind mark (toks self.entry) ≡ None) × (e ≡ Refused)) }
        ensures moves { IfOk result (λ rest. Moves self.entry rest) }
    {
        match self.behind(mark) {
            Some(rest) => Ok(rest),
            None => Err(Unread::Refused),
        }
    }

    /// The line of the first token; 1 where there is none.
    pub fn line(self) -> u32
        ensures { result ≡ grammar.line_at (toks self.entry) }
    {
        match self.tokens.first() {
            Some(placed) => placed.line,
            None => 1,
        }
    }

    /// The name of the atom that stands first, and what stands behind it.
    pub fn name(self) -> Result<(&'a Name, Cursor<'a>), Unread>
        requires fits { Fits self }
        ensures gives { Gives (λ name. name.now) result (expressions.read_name (toks self.entry)) }
        ensures moves { IfOk result (λ x. Moves self.entry x.1) }
    {
        let (_, token, rest) = self.require()?;
        match token {
            Token::Atom(name) => Ok((name, rest)),
            _ => Err(Unread::Refused),
        }
    }

    /// The integer that stands first, where it may be a number of parameters, and what stands behind it.
    pub fn arity(self) -> Result<(u32, Cursor<'a>), Unread>
        requires fits { Fits self }
        ensures gives { GivesTree result (expressions.read_arity (toks self.entry)) }
        ensures moves { IfOk result (λ x. Moves self.entry x.1) }
    {
        let (_, token, rest) = self.require()?;
        match token {
            Token::Int(value) if *value <= 255 => Ok((*value as u32, rest)),
            _ => Err(Unread::Refused),
        }
    }

    /// Whether nothing is left but the dot that ends a form; refused where it isn't so.
    pub fn expect_end(self) -> Result<(), Unread>
        requires fits { Fits self }
        ensures { MatchResult result (λ _. forms.is_end (toks self.entry) ≡ true) (λ e. (forms.is_end (toks self.entry) ≡ false) × (e ≡ Refused)) }
    {
        let (_, token, rest) = self.require()?;
        match token {
            Token::Dot => {
                if rest.tokens.is_empty() {
                    return Ok(());
                }
                Err(Unread::Refused)
            }
            _ => Err(Unread::Refused),
        }
    }

    /// The string token that stands first, and what stands behind it.
    fn string(self) -> Option<(&'a Text, Cursor<'a>)>
        requires fits { Fits self }
        ensures text { MatchOption result (reading.more_text (toks self.entry) ≡ []) (λ x. reading.more_text (toks self.entry) ≡ x.0.now ++ reading.more_text (toks x.1)) }
        ensures rest { MatchOption result (reading.behind_text (toks self.entry) ≡ toks self.entry) (λ x. reading.behind_text (toks self.entry) ≡ reading.behind_text (toks x.1)) }
        ensures moves { IfSome result (λ x. Moves self.entry x.1) }
    {
        let (_, token, rest) = self.first()?;
        match token {
            Token::Str(text) => Some((text, rest)),
            _ => None,
        }
    }

    /// These characters and those of the string tokens at the front, and what stands behind them; refused
    /// only for want of memory.
    pub fn joined(self, alloc: Global, front: &[u32]) -> Result<(Vec<u32>, Cursor<'a>), AllocError>
        requires fits { Fits self }
        ensures text { IfOk result (λ x. x.0.items ≡ front.now ++ reading.more_text (toks self.entry)) }
        ensures rest { IfOk result (λ x. toks x.1 ≡ reading.behind_text (toks self.entry)) }
        ensures stays { IfOk result (λ x. Stays self.entry x.1) }
    {
        let mut points = Vec::from_slice(alloc, front)?;
        let mut rest = self;
        while let Some((more, behind)) = rest.string() {
            points.extend_from_slice(more.as_slice())?;
            rest = behind;
        }
        Ok((points, rest))
    }
}

/// This integer, where it has 128 bits.
pub fn integer(value: u128) -> Result<i128, Unread>
    ensures { MatchResult result (λ i. (nat_le value grammar.most_integer ≡ true) × (i ≡ pos value)) (λ e. (nat_le value grammar.most_integer ≡ false) × (e ≡ Refused)) }
{
    if value <= i128::MAX as u128 {
        return Ok(value as i128);
    }
    Err(Unread::Refused)
}

/// Whether this is the name of the variable that nothing binds.
pub fn is_blank(name: &Name) -> bool
    ensures { result ≡ reading.is_blank name.now }
{
    match name.as_bytes() {
        [byte] => *byte == b'_',
        _ => false,
    }
}
