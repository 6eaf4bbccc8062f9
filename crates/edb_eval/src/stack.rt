//! A stack, which contracts see as the list of its items, the last one first.

ghost use Rattle.std.specs.Prelude.{◌≡◌, ◌∷◌, [], List, length, reverse, MatchOption, MatchResult, slice_get};
ghost use Rattle.std.specs.Option.{option_copied};

use std::alloc::Global;
use std::marker::Model;

/// A stack of items.
#[derive(Drop)]
pub struct Stack<T> {
    items: Vec<T>,
}

impl<T> Model for Stack<T> {
    ghost Value = { List T };

    ghost view = { λ s. reverse s.items.items };
}

impl<T> Stack<T> {
    /// No items; takes no memory.
    pub fn new(alloc: Global) -> Stack<T>
        ensures { result ≡ [] }
    {
        Stack {
            items: Vec::new(alloc),
        }
    }

    /// How many items there are.
    pub fn len(&self) -> usize
        ensures { result ≡ length self.now }
    {
        self.items.len()
    }

    /// Puts an item on top; where memory is refused the stack stays as it was, and the item comes back.
    pub fn push(&mut self, item: T) -> Result<(), T>
        ensures { MatchResult result (λ _. self.new ≡ item ∷ self.old) (λ back. (back ≡ item) × (self.new ≡ self.old)) }
    {
        match self.items.push(item) {
            Ok(()) => Ok(()),
            Err(refused) => Err(refused.value),
        }
    }

    /// Takes the item on top away, where there is one.
    pub fn pop(&mut self) -> Option<T>
        ensures { MatchOption result ((self.old ≡ []) × (self.new ≡ [])) (λ item. self.old ≡ item ∷ self.new) }
    {
        self.items.pop()
    }

    /// The item that has `depth` items on top of it.
    pub fn get(&self, depth: usize) -> Option<&T>
        ensures { option_copied result ≡ slice_get self.now depth }
    {
        let len = self.items.len();
        if depth < len {
            Some(&self.items[len - 1 - depth])
        } else {
            None
        }
    }
}
