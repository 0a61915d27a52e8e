//! A list that copies share.
ghost use Rattle.std.specs.Prelude.{◌≡◌, [], IfOk, OnErr};
ghost use Rattle.lattice_laws.specs.Shared.{IsAddedOr, shared_items};

use crate::NoMemory;
use std::alloc::Global;
use std::marker::Model;
use std::sync::Arc;

/// A list of items that copies share: a copy is an owner more, and takes no time that grows with the items. Contracts
/// see the items in order. No items take no memory.
#[derive(Debug, Drop)]
pub struct Shared<T> {
    alloc: Global,
    /// An array of one, so that dropping it is one step to a proof and no case of two.
    pub(crate) items: [Option<Arc<Vec<T>, Global>>; 1],
}

impl<T> Model for Shared<T> {
    ghost use Rattle.std.specs.Prelude.{List};
    ghost use Rattle.lattice_laws.specs.Shared.{shared_items};

    ghost Value = { List T };

    ghost view = { λ shared. shared_items shared.items };
}

impl<T> Shared<T> {
    /// No items. Takes no memory.
    pub fn new(alloc: Global) -> Shared<T>
        ensures { result ≡ [] }
    {
        Shared {
            alloc,
            items: [None],
        }
    }

    /// The items of a vector.
    pub fn of(items: Vec<T>) -> Result<Shared<T>, NoMemory>
    where
        T: Drop,
        ensures { IfOk result (λ shared. shared ≡ items.items) }
    {
        let alloc = *items.allocator();
        Ok(Shared {
            alloc,
            items: [Some(Arc::new(alloc, items)?)],
        })
    }

    /// Where it takes its memory.
    pub fn alloc(&self) -> Global {
        self.alloc
    }

    /// The items, in order. Takes no memory.
    pub fn as_slice(&self) -> &[T]
        ensures { result.now ≡ self.now }
    {
        match &self.items[0] {
            Some(items) => items.as_slice(),
            None => &[],
        }
    }

    /// The same items, which have an owner more then. Takes no memory, and answers `NoMemory` only where no more owners
    /// can be counted.
    pub fn share(&self) -> Result<Shared<T>, NoMemory>
        ensures { IfOk result (λ shared. shared ≡ self.now) }
    {
        match &self.items[0] {
            Some(items) => Ok(Shared {
                alloc: self.alloc,
                items: [Some(Arc::try_clone(items)?)],
            }),
            None => Ok(Shared::new(self.alloc)),
        }
    }

    /// Adds an item at the end, where nobody shares the items; else gives it back. After `NoMemory` the items are as
    /// before, and the item is dropped.
    pub fn push(&mut self, item: T) -> Result<Option<T>, NoMemory>
    where
        T: Drop,
        ensures ok { IfOk result (IsAddedOr self.old item self.new) }
        ensures err { OnErr result (self.new ≡ self.old) }
    {
        let Some(items) = &mut self.items[0] else {
            let mut items = Vec::new(self.alloc);
            items.push(item)?;
            self.items = [Some(Arc::new(self.alloc, items)?)];
            return Ok(None);
        };
        match Arc::get_mut(items) {
            Some(items) => {
                items.push(item)?;
                Ok(None)
            }
            None => Ok(Some(item)),
        }
    }
}
