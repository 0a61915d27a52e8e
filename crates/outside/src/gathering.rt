//! A text on its way to a sink, gathered in a block.
use crate::block::Block;
use crate::transfer::write_all;
use crate::{Failed, Sink};

/// A text on its way to a sink.
///
/// What is written to it is gathered, and given to the sink a whole block at a time; the last bytes
/// wait for [`Out::finish`]. A sink that fails is remembered: nothing more is given to it, and
/// `finish` says so. So a caller writes piece after piece and asks once. Takes no memory.
#[derive(Drop)]
pub struct Out<'a, K> {
    sink: &'a mut K,
    held: Block,
    failed: bool,
}

impl<'a, K: Sink> Out<'a, K> {
    ghost use Rattle.std.specs.Prelude.{◌≡◌, [], ◌-◌, length, take, min};
    ghost use Rattle.outside.specs.Gathering.{Adds, Begins, HasEnded};
    ghost use Rattle.outside.specs.Outside.{block_size};

    /// Begins a text. Nothing is given to the sink yet.
    pub fn new(sink: &'a mut K) -> Out<'a, K>
        ensures same { result.sink.ghost_name ≡ sink.entry.ghost_name }
        ensures begins { Begins sink.old result }
    {
        Out {
            sink,
            held: Block::new(),
            failed: false,
        }
    }

    /// Writes a piece of the text, however long.
    pub fn write(&mut self, piece: &[u8])
        ensures { Adds K.written K.faults self.old self.new piece.now }
    {
        let mut at = self.gather(piece);
        while at < piece.len() {
            self.flush();
            at += self.gather(&piece[at..]);
        }
    }

    /// Gives what is left to the sink, and says whether the sink failed at any time.
    pub fn finish(&mut self) -> Result<(), Failed>
        ensures adds { Adds K.written K.faults self.old self.new [] }
        ensures ends { HasEnded self.new result }
    {
        self.flush();
        if self.failed {
            return Err(Failed);
        }
        Ok(())
    }

    /// Gathers the front of a piece, as much as there is room for, and says how much.
    fn gather(&mut self, piece: &[u8]) -> usize
        ensures count { result ≡ min (block_size - length self.old.held) (length piece.now) }
        ensures adds { Adds K.written K.faults self.old self.new (take result piece.now) }
    {
        self.held.gather(piece)
    }

    /// Gives what is gathered to the sink, unless it has failed.
    fn flush(&mut self)
        ensures adds { Adds K.written K.faults self.old self.new [] }
        ensures empty { self.new.held ≡ [] }
    {
        if !self.failed {
            self.failed = write_all(self.sink, self.held.bytes()).is_err();
        }
        self.held.clear();
    }
}
