//! Whole inputs and whole texts, over calls that move a part.
ghost use Rattle.std.specs.Prelude.{◌≡◌, ℕ, ◌≤◌, min, List, length, take, IfOk, OnOk, OnErr, IsErrOf};
ghost use Rattle.lattice_laws.specs.Counts.{Rose};
ghost use Rattle.outside.specs.Outside.{HasCause, TookMost, TookSome, Grew, GrewByFront, Writes};

use crate::{Failed, Sink, Source};
use lattice_laws::NoMemory;
use std::alloc::{AllocError, Global};

/// Why an input was not read.
#[derive(Clone, Copy, Debug, PartialEq, Eq)]
pub enum ReadFault {
    /// The source failed.
    Failed,
    /// There was no room for the bytes.
    NoMemory,
}

impl From<Failed> for ReadFault {
    ghost use Rattle.outside.specs.declared.transfer.ReadFault.TheVariants as faults;

    ghost from_gives = { λ _ fault. fault ≡ faults.Failed };

    fn from(_failed: Failed) -> ReadFault {
        ReadFault::Failed
    }
}

impl From<AllocError> for ReadFault {
    ghost use Rattle.outside.specs.declared.transfer.ReadFault.TheVariants as faults;

    ghost from_gives = { λ _ fault. fault ≡ faults.NoMemory };

    fn from(_error: AllocError) -> ReadFault {
        ReadFault::NoMemory
    }
}

/// Moves the front of `from` to the front of `into`, as much as there is room for, and says how
/// much.
pub(crate) fn move_front(into: &mut [u8], from: &[u8]) -> usize
    ensures moved { result ≡ min (length into.old) (length from.now) }
    ensures bytes { take result into.new ≡ take result from.now }
{
    let moved = into.len().min(from.len());
    into[..moved].copy_from_slice(&from[..moved]);
    moved
}

/// The bytes that are taken at once.
const CHUNK: usize = 4096;

/// Reads the whole input, or its first `most` bytes where it is longer. Each turn takes at least
/// one byte or is the last, and no more than `most` bytes are taken in all, also where it fails.
pub fn read_all<S: Source>(alloc: Global, src: &mut S, most: usize) -> Result<Vec<u8>, ReadFault>
    ensures ok { IfOk result (λ read. TookMost most (S.left src.old) (S.left src.new) read.items) }
    ensures err { OnErr result (TookSome most (S.left src.old) (S.left src.new)) }
    ensures failed { IsErrOf result ReadFault.Failed → Rose (S.faults src.old) (S.faults src.new) }
    ensures count { S.faults src.old ≤ S.faults src.new }
{
    let mut bytes = Vec::new(alloc);
    let mut chunk = [0u8; CHUNK];
    while bytes.len() < most {
        let room = (most - bytes.len()).min(CHUNK);
        let taken = src.take(&mut chunk[..room])?;
        if taken == 0 {
            break;
        }
        bytes.extend_from_slice(&chunk[..taken])?;
    }
    Ok(bytes)
}

/// Writes the whole text, however little each call takes. `Failed` comes only where the count of
/// faults rose; then a front of the text was written.
pub fn write_all<K: Sink>(sink: &mut K, text: &[u8]) -> Result<(), Failed>
    ensures ok { OnOk result (Grew (K.written sink.old) (K.written sink.new) text.now) }
    ensures err { OnErr result (GrewByFront (K.written sink.old) (K.written sink.new) text.now) }
    ensures cause { HasCause (K.faults sink.old) (K.faults sink.new) result }
{
    let mut at = 0;
    while at < text.len() {
        at += sink.give(&text[at..])?;
    }
    Ok(())
}

/// Ends a program that owes a text: writes it whole and answers the status that goes with it, or
/// answers `write_fault` where the sink failed; then a front of the text was written.
pub fn finish<K: Sink, T: Drop>(sink: &mut K, status: T, text: &[u8], write_fault: T) -> T
    ensures wrote { Writes write_fault (Rose (K.faults sink.old) (K.faults sink.new))
        (K.written sink.old) (K.written sink.new) status text.now result }
    ensures count { K.faults sink.old ≤ K.faults sink.new }
{
    match write_all(sink, text) {
        Ok(()) => status,
        Err(Failed) => write_fault,
    }
}
