//! The ends through which a program meets the world.
//!
//! A contract cannot say what a file or a terminal gives or takes, so a program is written over a
//! [`Source`] and a [`Sink`], which tell their bytes where they can and count their faults always.
//! What reads or writes through them is proved for every source and sink; the adapters over std's
//! readers and writers tell no bytes, and they are the only part of the outside that is trusted.
//!
//! [`read_all`] and [`write_all`] move a whole input and a whole text. A text of many pieces goes
//! through an [`Out`], which gathers them in a block and gives the sink whole blocks.
//!
//! This crate stands on `lattice_laws` alone, and offers to the layers above what passes through the
//! ends (`Outside.antt`), which calls of the ends over memory fail (`Memory.antt`), and what becomes
//! of a text on its way (`Gathering.antt`).
#![tactic(auto)]

mod adapters;
mod block;
mod gathering;
mod memory;
mod transfer;

ghost use Rattle.std.specs.Prelude.{ℕ, ◌≤◌, ◌<◌, List, Option, length, take, IfOk, OnErr};
ghost use Rattle.outside.specs.Outside.{Takes, Grew, HasCause};

pub use adapters::{ReadSource, WriteSink};
pub use block::BLOCK;
pub use gathering::Out;
pub use memory::{MEM_SINK_ROOM, MemSink, MemSource, SureSink, SureSource};
pub use transfer::{ReadFault, finish, read_all, write_all};

/// A read or a write that failed.
#[derive(Clone, Copy, Debug, PartialEq, Eq)]
pub struct Failed;

/// Where bytes come from.
///
/// Contracts see the bytes that are left, where the source tells them, and a count of the faults so
/// far. The count never falls; one that is kept in a `u64` stays at 18,446,744,073,709,551,615, and
/// "rose" includes that it stands there.
pub trait Source {
    ghost left: { Self → Option (List ℕ) };

    ghost faults: { Self → ℕ };

    /// Moves the next bytes to the front of `into`, and says how many: at most as many as there is
    /// room for, and 0 exactly where no byte is left. `Failed` comes only where the count of faults
    /// rose; then no byte was taken.
    fn take(&mut self, into: &mut [u8]) -> Result<usize, Failed>
        requires { 0 < length into.old }
        ensures bound { IfOk result (λ n. n ≤ length into.new) }
        ensures bytes { Takes (left self.old) (left self.new) result into.new }
        ensures cause { HasCause (faults self.old) (faults self.new) result };
}

/// Where bytes go.
///
/// Contracts see the bytes written so far, where the sink tells them, and a count of the faults so
/// far, as for a [`Source`]. A sink may stop telling its bytes.
pub trait Sink {
    ghost written: { Self → Option (List ℕ) };

    ghost faults: { Self → ℕ };

    /// Writes the front of the piece, and says how much of it: at least one byte. `Failed` comes
    /// only where the count of faults rose; then nothing was written.
    fn give(&mut self, piece: &[u8]) -> Result<usize, Failed>
        requires { 0 < length piece.now }
        ensures some { IfOk result (λ n. 0 < n) }
        ensures bound { IfOk result (λ n. n ≤ length piece.now) }
        ensures bytes { IfOk result (λ n.
            Grew (written self.old) (written self.new) (take n piece.now)) }
        ensures nothing { OnErr result
            (Grew (written self.old) (written self.new) (take 0 piece.now)) }
        ensures cause { HasCause (faults self.old) (faults self.new) result };
}
