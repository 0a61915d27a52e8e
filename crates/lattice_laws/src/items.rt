//! A vector that contracts see as the list of its items.
ghost use Rattle.std.specs.Prelude.{◌≡◌, ◌++◌, ◌∷◌, [], MatchResult};

use crate::NoMemory;
use std::marker::Model;

/// A list of items. Contracts see the items in order, and nothing of capacity, so that two lists
/// with the same items are equal. It is made from a vector and given back as one without memory.
#[derive(Debug, Drop)]
pub struct Items<T> {
    items: Vec<T>,
}

impl<T> Model for Items<T> {
    ghost use Rattle.std.specs.Prelude.{List};

    ghost Value = { List T };

    ghost view = { λ list. list.items.items };
}

impl<T> Items<T> {
    /// The items of a vector. Takes no memory.
    pub fn new(items: Vec<T>) -> Items<T>
        ensures { result ≡ items.items }
    {
        Items { items }
    }

    /// The items, in order. Takes no memory.
    pub fn as_slice(&self) -> &[T]
        ensures { result.now ≡ self.now }
    {
        self.items.as_slice()
    }

    /// Adds an item at the end. After `NoMemory` the items are as before, and the item is dropped.
    pub fn push(&mut self, item: T) -> Result<(), NoMemory>
    where
        T: Drop,
        ensures { MatchResult result
            (λ _. self.new ≡ self.old ++ item ∷ [])
            (λ _. self.new ≡ self.old) }
    {
        match self.items.push(item) {
            Ok(()) => Ok(()),
            Err(_) => Err(NoMemory),
        }
    }

    /// The items as a vector. Takes no memory.
    pub fn into_vec(self) -> Vec<T>
        ensures { result.items ≡ self }
    {
        self.items
    }
}

impl<T> From<Vec<T>> for Items<T> {
    ghost from_gives = { λ vector items. items ≡ vector.items };

    fn from(items: Vec<T>) -> Items<T> {
        Items::new(items)
    }
}
