//! The code points of a string.

ghost use Rattle.std.specs.Prelude.{◌≡◌, ◌↔◌, List, [], ℕ, IsTrue, length};

use std::marker::Model;

/// The characters of a string, each as its code point. Contracts see the list of the numbers.
#[derive(Drop)]
pub struct Text {
    points: Vec<u32>,
}

impl Model for Text {
    ghost Value = { List ℕ };

    ghost view = { λ t. t.points.items };
}

impl Text {
    /// The text of these code points.
    pub fn from_vec(points: Vec<u32>) -> Text
        ensures { result ≡ points.items }
    {
        Text { points }
    }

    /// The code points, in order.
    pub fn as_slice(&self) -> &[u32]
        ensures { result.now ≡ self.now }
    {
        self.points.as_slice()
    }

    /// How many there are.
    pub fn len(&self) -> usize
        ensures { result ≡ length self.now }
    {
        self.points.len()
    }

    /// Whether there are none.
    pub fn is_empty(&self) -> bool
        ensures { IsTrue result ↔ (self.now ≡ []) }
    {
        self.points.is_empty()
    }
}
