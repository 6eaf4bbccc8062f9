//! Tokens, and tokens at their lines.

use crate::points::Text;
use edb_lang::Name;

/// How many characters an atom may have.
pub const LONGEST_ATOM: usize = 255;

/// The marks and the reserved words: tokens with one spelling each.
#[derive(Clone, Copy, Debug, PartialEq, Eq, Drop)]
pub enum Mark {
    /// `...`
    Ellipsis,
    /// `=:=`
    ExactlyEqual,
    /// `=/=`
    ExactlyUnequal,
    /// `<<`
    BinaryOpen,
    /// `>>`
    BinaryClose,
    /// `->`
    Arrow,
    /// `<-`
    From,
    /// `<=`
    FromBinary,
    /// `=>`
    MapsTo,
    /// `:=`
    Updates,
    /// `==`
    Equal,
    /// `/=`
    Unequal,
    /// `=<`
    AtMost,
    /// `>=`
    AtLeast,
    /// `++`
    PlusPlus,
    /// `--`
    MinusMinus,
    /// `||`
    BarBar,
    /// `::`
    ColonColon,
    /// `..`
    PointPoint,
    /// `(`
    ParenOpen,
    /// `)`
    ParenClose,
    /// `[`
    BracketOpen,
    /// `]`
    BracketClose,
    /// `{`
    BraceOpen,
    /// `}`
    BraceClose,
    /// `,`
    Comma,
    /// `;`
    Semicolon,
    /// `:`
    Colon,
    /// `|`
    Bar,
    /// `#`
    Hash,
    /// `?`
    Question,
    /// `!`
    Bang,
    /// `=`
    Match,
    /// `<`
    LessThan,
    /// `>`
    GreaterThan,
    /// `+`
    Plus,
    /// `-`
    Minus,
    /// `*`
    Star,
    /// `/`
    Slash,
    /// `.`, if it is no dot
    Point,
    /// `after`
    After,
    /// `and`
    And,
    /// `andalso`
    AndAlso,
    /// `band`
    BitAnd,
    /// `begin`
    Begin,
    /// `bnot`
    BitNot,
    /// `bor`
    BitOr,
    /// `bsl`
    ShiftLeft,
    /// `bsr`
    ShiftRight,
    /// `bxor`
    BitXor,
    /// `case`
    Case,
    /// `catch`
    Catch,
    /// `cond`
    Cond,
    /// `div`
    Div,
    /// `else`
    Else,
    /// `end`
    End,
    /// `fun`
    Fun,
    /// `if`
    If,
    /// `let`
    Let,
    /// `maybe`
    Maybe,
    /// `not`
    Not,
    /// `of`
    Of,
    /// `or`
    Or,
    /// `orelse`
    OrElse,
    /// `receive`
    Receive,
    /// `rem`
    Rem,
    /// `try`
    Try,
    /// `when`
    When,
    /// `xor`
    Xor,
}

/// A token.
#[derive(Drop)]
pub enum Token {
    /// An integer, below 2^127.
    Int(u128),
    /// A number with a fraction; its value isn't kept.
    Float,
    /// A character: its code point.
    Char(u32),
    /// An atom, bare or in quotes.
    Atom(Name),
    /// A variable; the name `_` is the anonymous one.
    Var(Name),
    /// A string: its code points.
    Str(Text),
    /// A mark or a reserved word.
    Mark(Mark),
    /// The `.` that ends a form.
    Dot,
}

/// A token and the line of its first byte.
#[derive(Drop)]
pub struct Placed {
    /// The line: 1 for the first.
    pub line: u32,
    /// The token.
    pub token: Token,
}
