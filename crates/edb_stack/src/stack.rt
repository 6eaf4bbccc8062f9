//! A stack with room.

ghost use Rattle.std.specs.Prelude.{◌≡◌, ◌≤◌, ◌<◌, ◌+◌, ◌^◌, ◌∷◌, ◌++◌, [], OnOk, length, reverse, MatchOption, slice_get};
ghost use Rattle.std.specs.Option.{option_copied};

use std::alloc::{AllocError, Global};
use std::marker::Model;

/// A stack. Contracts see its items, the last one first, and for how many more there is room.
#[derive(Drop)]
pub struct Stack<T> {
    items: Vec<T>,
}

impl<T> Model for Stack<T> {
    ghost use Rattle.std.specs.Prelude.{List, ℕ, ◌-◌, reverse};
    ghost use Rattle.std.specs.Vec.{vec_len, vec_capacity};

    ghost Value = { List T × ℕ };

    ghost view = { λ s. (reverse s.items.items, vec_capacity s.items - vec_len s.items) };
}

impl<T> Stack<T> {
    /// No items; takes no memory.
    pub fn new(alloc: Global) -> Stack<T>
        ensures { result.0 ≡ [] }
    {
        Stack {
            items: Vec::new(alloc),
        }
    }

    /// How many items there are, which is below 2^63.
    pub fn len(&self) -> usize
        ensures count { result ≡ length self.now.0 }
        ensures small { result < 2 ^ 63 }
    {
        self.items.len()
    }

    /// Makes room for so many items; where memory is refused the items stay as they were.
    pub fn reserve(&mut self, count: usize) -> Result<(), AllocError>
        ensures ok { OnOk result (count ≤ self.new.1) }
        ensures items { self.new.0 ≡ self.old.0 }
        ensures room { self.old.1 ≤ self.new.1 }
    {
        self.items.reserve(count)?;
        Ok(())
    }

    /// Puts an item on top, where there is room; takes no memory.
    pub fn push(&mut self, item: T)
        requires room { 0 < self.old.1 }
        ensures items { self.new.0 ≡ item ∷ self.old.0 }
        ensures room { self.new.1 + 1 ≡ self.old.1 }
    {
        self.items.push_reserved(item);
    }

    /// Puts these items on top, the first of them first, where there is room; takes no memory.
    pub fn push_all(&mut self, items: Vec<T>)
    where
        T: Drop,
        requires room { length items.items ≤ self.old.1 }
        ensures items { self.new.0 ≡ reverse items.items ++ self.old.0 }
        ensures room { self.old.1 ≤ self.new.1 + length items.items }
    {
        let mut more = items;
        let _never_refused = self.items.append(&mut more);
    }

    /// Takes the item on top away, where there is one.
    pub fn pop(&mut self) -> Option<T>
        ensures items { MatchOption result ((self.old.0 ≡ []) × (self.new.0 ≡ [])) (λ item. self.old.0 ≡ item ∷ self.new.0) }
        ensures room { MatchOption result (self.old.1 ≤ self.new.1) (λ item. self.old.1 + 1 ≤ self.new.1) }
    {
        self.items.pop()
    }

    /// The item that has `depth` items on top of it; `None` where there is no such item.
    pub fn get(&self, depth: usize) -> Option<&T>
        ensures { option_copied result ≡ slice_get self.now.0 depth }
    {
        let len = self.items.len();
        if depth < len {
            Some(&self.items[len - 1 - depth])
        } else {
            None
        }
    }
}
