//! Gossip between workers.
ghost use Rattle.std.specs.Prelude.{◌≡◌, ◌↔◌, ◌<◌, ◌≤◌, [], length, slice_get, Some, IsSome, IfSome, IfOk};
ghost use Rattle.store_msg.specs.Batch.{Added};

use composed_value::Cell;
use lattice_laws::{Lattice, NoMemory};
use mail_contract::Message;
use std::alloc::Global;
use std::marker::Model;

/// How many entries a batch has at most.
const MOST: usize = 16;

/// Gossip: up to 16 keys, each with a cell that is merged into the cell of the key. Contracts see the
/// entries in order. The room for 16 is taken when the batch is made.
#[derive(Debug, Drop)]
pub struct Batch {
    entries: Vec<(u16, Cell)>,
}

impl Model for Batch {
    ghost use Rattle.std.specs.Prelude.{◌≤◌, ℕ, List, length, vec_capacity};
    ghost use Rattle.composed_value.specs.Cell.{PlainCell};

    ghost Value = { List (ℕ × PlainCell) };

    ghost view = { λ batch. batch.entries.items };

    ghost invariant = { λ batch. (length batch.entries.items ≤ 16) × (16 ≤ vec_capacity batch.entries) };
}

impl Batch {
    /// A batch without entries, with room for 16.
    pub fn new(alloc: Global) -> Result<Batch, NoMemory>
        ensures { IfOk result (λ batch. batch ≡ []) }
    {
        Ok(Batch {
            entries: Vec::with_capacity(alloc, MOST)?,
        })
    }

    /// Adds an entry at the end, and hands the cell back exactly where 16 are there. Takes no memory.
    pub fn add(&mut self, key: u16, cell: Cell) -> Result<(), Cell>
        ensures { Added result key cell self.old self.new }
    {
        if self.entries.len() == MOST {
            return Err(cell);
        }
        self.entries.push_reserved((key, cell));
        Ok(())
    }

    /// The number of entries, at most 16. Takes no memory.
    pub fn len(&self) -> usize
        ensures len { result ≡ length self.now }
        ensures few { result ≤ 16 }
    {
        self.entries.len()
    }

    /// The entries, in order. Takes no memory.
    pub fn as_slice(&self) -> &[(u16, Cell)]
        ensures { result.now ≡ self.now }
    {
        self.entries.as_slice()
    }

    /// The key and cell at a place, counted from 0, and nothing past the last. Takes no memory.
    pub fn at(&self, i: usize) -> Option<(u16, &Cell)>
        ensures some { IsSome result ↔ (i < length self.now) }
        ensures entry { IfSome result (λ entry.
            slice_get self.now i ≡ Some (entry.0, entry.1.now)) }
    {
        let (key, cell) = self.entries.get(i)?;
        Some((*key, cell))
    }
}

impl Message for Batch {
    fn copy(&self) -> Result<Batch, NoMemory> {
        let mut copy = Batch::new(*self.entries.allocator())?;
        for (key, cell) in &self.entries {
            copy.entries.push_reserved((*key, cell.copy()?));
        }
        Ok(copy)
    }
}
