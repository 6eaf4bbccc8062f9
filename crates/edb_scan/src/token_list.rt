//! The list of a text's tokens.

ghost use Rattle.std.specs.Prelude.{◌≡◌, ◌≤◌, ◌↔◌, List, [], IsTrue, length};
ghost use Rattle.edb_scan.specs.declared.lexeme.Placed.{Placed};
ghost use Rattle.edb_scan.specs.Parting.{longest_file};

use crate::lexeme::Placed;
use std::marker::Model;

/// The tokens of a text, in order: at most as many as a file may have bytes. Contracts see the list of them.
#[derive(Drop)]
pub struct Tokens {
    items: Vec<Placed>,
}

impl Model for Tokens {
    ghost Value = { List Placed };

    ghost view = { λ t. t.items.items };

    ghost invariant = { λ t. length t.items.items ≤ longest_file };
}

impl Tokens {
    /// The list of these tokens.
    pub fn from_vec(items: Vec<Placed>) -> Tokens
        requires { length items.items ≤ longest_file }
        ensures { result ≡ items.items }
    {
        Tokens { items }
    }

    /// The tokens, in order.
    pub fn as_slice(&self) -> &[Placed]
        ensures { result.now ≡ self.now }
    {
        self.items.as_slice()
    }

    /// How many there are: at most `LONGEST_FILE`.
    pub fn len(&self) -> usize
        ensures counted { result ≡ length self.now }
        ensures few { result ≤ longest_file }
    {
        self.items.len()
    }

    /// Whether there are none.
    pub fn is_empty(&self) -> bool
        ensures { IsTrue result ↔ (self.now ≡ []) }
    {
        self.items.is_empty()
    }
}
