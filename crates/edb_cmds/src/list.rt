//! Literal lists of integers.

ghost use Rattle.std.specs.Prelude.{◌≡◌, ◌+◌, ◌-◌, ◌^◌, ◌<◌, ◌++◌, All, Some, map, pos, IfOk, MatchOption};
ghost use Rattle.edb_lang.specs.Terms.{Datum, IsWithin};
ghost use Rattle.edb_scan.specs.Lexis.{Fits};
ghost use Rattle.edb_scan.specs.declared.lexeme.Token.{Token};
ghost use Rattle.edb_cmds.specs.Integers.{ReadsList};
ghost use Rattle.edb_cmds.specs.Steps as steps;
ghost use Rattle.edb_cmds.specs.Words.{IsList};

use edb_lang::{Cell, Node, Term};
use edb_scan::{Mark, Placed, Token, scan};
use std::alloc::{AllocError, Global};

// A list of more elements would be too high a term.
const MOST_ELEMENTS: usize = 4_000;

// What may come next.
#[derive(Clone, Copy)]
enum Stage {
    // A list.
    AnyList,
    // Behind `[`: an integer, or `]`.
    FirstItem,
    // Behind `,`: an integer.
    Item,
    // Behind `-`: a number.
    Number,
    // Behind an integer: `,`, `|` or `]`.
    ItemEnd,
    // Behind a string: a further string, or what may come behind a list.
    StringEnd,
    // Behind a list: a `]` for each bracket that is open.
    ListEnd,
}

// A place among the tokens of a list.
#[derive(Clone, Copy)]
struct Place {
    stage: Stage,
    brackets: usize,
}

impl Place {
    fn with_stage(self, stage: Stage) -> Option<Place>
        ensures { result ≡ steps.place stage self.brackets }
    {
        Some(Place {
            stage,
            brackets: self.brackets,
        })
    }

    fn behind_number(self) -> Option<Place>
        ensures { result ≡ steps.behind_number self.stage self.brackets }
    {
        match self.stage {
            Stage::FirstItem => self.with_stage(Stage::ItemEnd),
            Stage::Item => self.with_stage(Stage::ItemEnd),
            Stage::Number => self.with_stage(Stage::ItemEnd),
            _ => None,
        }
    }

    fn behind_character(self) -> Option<Place>
        ensures { result ≡ steps.behind_integer self.stage self.brackets }
    {
        match self.stage {
            Stage::FirstItem => self.with_stage(Stage::ItemEnd),
            Stage::Item => self.with_stage(Stage::ItemEnd),
            _ => None,
        }
    }

    fn behind_string(self) -> Option<Place>
        ensures { result ≡ steps.behind_string self.stage self.brackets }
    {
        match self.stage {
            Stage::AnyList => self.with_stage(Stage::StringEnd),
            Stage::StringEnd => self.with_stage(Stage::StringEnd),
            _ => None,
        }
    }

    fn behind_open(self) -> Option<Place>
        requires { self.brackets < 2 ^ 64 - 1 }
        ensures { result ≡ steps.behind_open self.stage self.brackets }
    {
        match self.stage {
            Stage::AnyList => Some(Place {
                stage: Stage::FirstItem,
                brackets: self.brackets + 1,
            }),
            _ => None,
        }
    }

    fn closed(self) -> Option<Place>
        ensures { result ≡ steps.closed self.brackets }
    {
        let brackets = self.brackets.checked_sub(1)?;
        Some(Place {
            stage: Stage::ListEnd,
            brackets,
        })
    }

    fn behind_close(self) -> Option<Place>
        ensures { result ≡ steps.behind_close self.stage self.brackets }
    {
        match self.stage {
            Stage::FirstItem => self.closed(),
            Stage::ItemEnd => self.closed(),
            Stage::StringEnd => self.closed(),
            Stage::ListEnd => self.closed(),
            _ => None,
        }
    }

    fn behind_comma(self) -> Option<Place>
        ensures { result ≡ steps.behind_comma self.stage self.brackets }
    {
        match self.stage {
            Stage::ItemEnd => self.with_stage(Stage::Item),
            _ => None,
        }
    }

    fn behind_bar(self) -> Option<Place>
        ensures { result ≡ steps.behind_bar self.stage self.brackets }
    {
        match self.stage {
            Stage::ItemEnd => self.with_stage(Stage::AnyList),
            _ => None,
        }
    }

    fn behind_minus(self) -> Option<Place>
        ensures { result ≡ steps.behind_minus self.stage self.brackets }
    {
        match self.stage {
            Stage::FirstItem => self.with_stage(Stage::Number),
            Stage::Item => self.with_stage(Stage::Number),
            _ => None,
        }
    }

    fn behind_mark(self, mark: Mark) -> Option<Place>
        requires { self.brackets < 2 ^ 64 - 1 }
        ensures { result ≡ steps.behind_sign (steps.sign_of mark) self.stage self.brackets }
    {
        match mark {
            Mark::BracketOpen => self.behind_open(),
            Mark::BracketClose => self.behind_close(),
            Mark::Comma => self.behind_comma(),
            Mark::Bar => self.behind_bar(),
            Mark::Minus => self.behind_minus(),
            _ => None,
        }
    }

    // The place behind a token, where it may stand here.
    fn behind(self, token: &Token) -> Option<Place>
        requires { self.brackets < 2 ^ 64 - 1 }
        ensures { result ≡ steps.behind token.now self.stage self.brackets }
    {
        match token {
            Token::Int(_) => self.behind_number(),
            Token::Char(_) => self.behind_character(),
            Token::Str(_) => self.behind_string(),
            Token::Mark(mark) => self.behind_mark(*mark),
            _ => None,
        }
    }

    // Whether a list may end here.
    fn is_end(self) -> bool
        ensures { result ≡ steps.is_end self.stage self.brackets }
    {
        match self.stage {
            Stage::StringEnd => self.brackets == 0,
            Stage::ListEnd => self.brackets == 0,
            _ => false,
        }
    }

    // The integer of a number here.
    fn signed(self, number: u128) -> i128
        requires { number < 2 ^ 127 }
        ensures { result ≡ steps.number_of self.stage number }
    {
        match self.stage {
            Stage::Number => -(number as i128),
            _ => number as i128,
        }
    }

    // Puts the integers of a token here behind the others.
    fn put(self, integers: &mut Vec<i128>, token: &Token) -> Result<(), AllocError>
        requires { Fits (Some token.now) }
        ensures { IfOk result (λ _. integers.new.items ≡ integers.old.items ++ steps.integers_of token.now self.stage) }
    {
        match token {
            Token::Int(number) => {
                integers.push(self.signed(*number))?;
                Ok(())
            }
            Token::Char(point) => {
                integers.push(i128::from(*point))?;
                Ok(())
            }
            Token::Str(text) => put_points(integers, text.as_slice()),
            _ => Ok(()),
        }
    }
}

fn put_points(integers: &mut Vec<i128>, points: &[u32]) -> Result<(), AllocError>
    ensures { IfOk result (λ _. integers.new.items ≡ integers.old.items ++ map pos points.now) }
{
    for point in points {
        integers.push(i128::from(*point))?;
    }
    Ok(())
}

// The integers of a list, where the tokens are one.
fn integers_of(alloc: Global, tokens: &[Placed]) -> Result<Option<Vec<i128>>, AllocError>
    requires { All (λ p. Fits (Some p.token)) tokens.now }
    ensures { IfOk result (λ r. MatchOption r (steps.run Stage.AnyList 0 (map (λ p. p.token) tokens.now) ≡ None) (λ integers. steps.run Stage.AnyList 0 (map (λ p. p.token) tokens.now) ≡ Some integers.items)) }
{
    let mut integers = Vec::new(alloc);
    let mut place = Place {
        stage: Stage::AnyList,
        brackets: 0,
    };
    for placed in tokens {
        match place.behind(&placed.token) {
            Some(next) => {
                place.put(&mut integers, &placed.token)?;
                place = next;
            }
            None => return Ok(None),
        }
    }
    if place.is_end() {
        Ok(Some(integers))
    } else {
        Ok(None)
    }
}

// The list of these integers.
fn list_of(alloc: Global, mut integers: Vec<i128>) -> Result<Term, AllocError>
    ensures { IfOk result (λ t. t ≡ steps.list_of integers.items) }
{
    let mut list = Term::nil();
    while let Some(integer) = integers.pop() {
        let head = Term::int(integer);
        let cell = Box::new(alloc, Cell { head, tail: list })?;
        list = Term {
            node: Node::List(cell),
        };
    }
    Ok(list)
}

// The list that the tokens are, where it is within the limits of a term.
fn list_of_tokens(alloc: Global, tokens: &[Placed]) -> Result<Option<Term>, AllocError>
    requires { All (λ p. Fits (Some p.token)) tokens.now }
    ensures { IfOk result (λ r. MatchOption r ((t : Datum) → ReadsList (map (λ p. p.token) tokens.now) t → IsWithin t → ⊥) (λ t. ReadsList (map (λ p. p.token) tokens.now) t × IsWithin t)) }
{
    match integers_of(alloc, tokens)? {
        Some(integers) => {
            if integers.len() > MOST_ELEMENTS {
                return Ok(None);
            }
            Ok(Some(list_of(alloc, integers)?))
        }
        None => Ok(None),
    }
}

/// The list that a text writes, where it is one within the limits of a term.
pub fn read_list(alloc: Global, text: &[u8]) -> Result<Option<Term>, AllocError>
    ensures { IfOk result (λ r. MatchOption r ((t : Datum) → IsList text.now t → ⊥) (λ t. IsList text.now t)) }
{
    match scan(alloc, text)? {
        Ok(tokens) => list_of_tokens(alloc, tokens.as_slice()),
        Err(_) => Ok(None),
    }
}
