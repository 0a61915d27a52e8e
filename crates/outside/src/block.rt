//! A block of bytes.
ghost use Rattle.std.specs.Prelude.{◌≡◌, ◌-◌, [], ◌++◌, min, take, length};

use crate::transfer::move_front;
use std::marker::Model;

/// How many bytes are gathered before they are given to the sink.
pub const BLOCK: usize = 16_384;

/// Bytes that are gathered: at most [`BLOCK`]. Contracts see them.
#[derive(Drop)]
pub(crate) struct Block {
    bytes: [u8; BLOCK],
    len: usize,
}

impl Model for Block {
    ghost use Rattle.std.specs.Prelude.{ℕ, List, take, ◌≤◌};
    ghost use Rattle.outside.specs.Outside.{block_size};

    ghost Value = { List ℕ };

    ghost view = { λ block. take block.len block.bytes };

    ghost invariant = { λ block. block.len ≤ block_size };
}

impl Block {
    ghost use Rattle.std.specs.Prelude.{◌≡◌, ◌-◌, [], ◌++◌, min, take, length};
    ghost use Rattle.outside.specs.Outside.{block_size};

    pub(crate) fn new() -> Block
        ensures { result ≡ [] }
    {
        Block {
            bytes: [0; BLOCK],
            len: 0,
        }
    }

    pub(crate) fn bytes(&self) -> &[u8]
        ensures { result.now ≡ self.now }
    {
        &self.bytes[..self.len]
    }

    /// Gathers the front of a piece, as much as there is room for, and says how much.
    pub(crate) fn gather(&mut self, piece: &[u8]) -> usize
        ensures count { result ≡ min (block_size - length self.old) (length piece.now) }
        ensures bytes { self.new ≡ self.old ++ take result piece.now }
    {
        let moved = move_front(&mut self.bytes[self.len..], piece);
        self.len += moved;
        moved
    }

    pub(crate) fn clear(&mut self)
        ensures { self.new ≡ [] }
    {
        self.len = 0;
    }
}
