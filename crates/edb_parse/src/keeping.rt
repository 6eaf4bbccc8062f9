//! Trees that are kept while more is read, and let go where it can't be read.

ghost use Rattle.std.specs.Prelude.{◌≡◌, ◌&&◌, IfOk, MatchResult, Ok, Err, Some, None, true, false, nat_le};
ghost use Rattle.edb_syntax.specs.Depths.{depth};
ghost use Rattle.edb_grammar.specs.Reading.{behind};
ghost use Rattle.edb_parse.specs.Cursors.{toks, Fits, Moves};
ghost use Rattle.edb_parse.specs.declared.unread.Unread.TheVariants.{Refused};

use crate::cursor::Cursor;
use crate::unread::Unread;
use edb_scan::Mark;
use edb_syntax::Expr;

/// What was read before, and what was read now.
pub fn beside<'a, T: Drop, U: Drop>(
    kept: T,
    read: Result<(U, Cursor<'a>), Unread>,
) -> Result<(T, U, Cursor<'a>), Unread>
    ensures { MatchResult result (λ x. (x.0 ≡ kept) × (read.entry ≡ Ok (x.1, x.2))) (λ e. read.entry ≡ Err e) }
{
    match read {
        Ok((found, rest)) => Ok((kept, found, rest)),
        Err(why) => Err(why),
    }
}

/// What was read, where this mark stands behind it.
pub fn close<'a, T: Drop>(
    kept: T,
    tokens: Cursor<'a>,
    mark: Mark,
) -> Result<(T, Cursor<'a>), Unread>
    requires fits { Fits tokens }
    ensures finds { MatchResult result (λ x. (x.0 ≡ kept) × (behind mark (toks tokens.entry) ≡ Some (toks x.1))) (λ e. (behind mark (toks tokens.entry) ≡ None) × (e ≡ Refused)) }
    ensures moves { IfOk result (λ x. Moves tokens.entry x.1) }
{
    match tokens.behind(mark) {
        Some(rest) => Ok((kept, rest)),
        None => Err(Unread::Refused),
    }
}

/// This expression, where it is at most so deep.
pub fn fitting(expr: Box<Expr>, levels: u32) -> Result<Box<Expr>, Unread>
    ensures { MatchResult result (λ e. (e ≡ expr) × (nat_le (depth expr.value) levels ≡ true)) (λ e. (nat_le (depth expr.value) levels ≡ false) × (e ≡ Refused)) }
{
    if expr.is_within(levels) {
        return Ok(expr);
    }
    drop(expr);
    Err(Unread::Refused)
}

/// These expressions, where both are at most so deep.
pub fn both_fitting(
    exprs: (Box<Expr>, Box<Expr>),
    levels: u32,
) -> Result<(Box<Expr>, Box<Expr>), Unread>
    ensures { MatchResult result (λ x. (x ≡ exprs) × (nat_le (depth exprs.0.value) levels && nat_le (depth exprs.1.value) levels ≡ true)) (λ e. (nat_le (depth exprs.0.value) levels && nat_le (depth exprs.1.value) levels ≡ false) × (e ≡ Refused)) }
{
    if exprs.0.is_within(levels) && exprs.1.is_within(levels) {
        return Ok(exprs);
    }
    drop(exprs);
    Err(Unread::Refused)
}
