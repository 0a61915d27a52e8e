//! Ends over memory: sources and sinks for tests and for whatever runs without the world. They tell
//! their bytes, so a contract about them says what was read and written.
ghost use Rattle.std.specs.Prelude.{◌≡◌, ◌≢◌, ℕ, ◌+◌, ◌-◌, ◌^◌, ◌<◌, ◌≤◌, ◌↔◌, ◌⊎◌, min, List, [], ◌++◌, Some, Ok, IsTrue, IsErr, IfOk, IfSome, OnOk, OnErr, MatchBool, Contains, take, drop, length, if◌then◌else◌, codes, false};
ghost use Rattle.lattice_laws.specs.Counts.{Rose, one_more};
ghost use Rattle.outside.specs.Outside.{Takes, Grew, HasCause};
ghost use Rattle.outside.specs.Memory.{FailsNext, next_call, new_plan, after_call, written_of, with_piece};

use crate::transfer::move_front;
use crate::{Failed, Sink, Source};
use lattice_laws::NoMemory;
use std::alloc::Global;
use std::marker::Model;

/// A source that never fails: the bytes that it was made with. Contracts see what is left of them.
#[derive(Drop)]
pub struct SureSource {
    bytes: Vec<u8>,
    at: usize,
}

impl Model for SureSource {
    ghost Value = { List ℕ };

    ghost view = { λ source. drop source.at source.bytes.items };

    ghost invariant = { λ source. source.at ≤ length source.bytes.items };
}

impl SureSource {
    /// Takes no memory.
    pub fn new(bytes: Vec<u8>) -> SureSource
        ensures { result ≡ bytes.items }
    {
        SureSource { bytes, at: 0 }
    }
}

impl Source for SureSource {
    ghost left = { λ source. Some source };

    ghost faults = { λ _. 0 };

    fn take(&mut self, into: &mut [u8]) -> Result<usize, Failed>
        requires { 0 < length into.old }
        ensures bound { IfOk result (λ n. n ≤ length into.new) }
        ensures bytes { Takes (Some self.old) (Some self.new) result into.new }
        ensures cause { HasCause 0 0 result }
        ensures sure { result ≡ Ok (min (length into.old) (length self.old)) }
    {
        let moved = move_front(into, &self.bytes[self.at..]);
        self.at += moved;
        Ok(moved)
    }
}

/// A sink that never fails, with room for so many bytes. From the first piece that does not fit it
/// keeps no more, and no longer tells its bytes. Contracts see what it keeps, whether there is such
/// a gap after it, and its room.
#[derive(Drop)]
pub struct SureSink {
    kept: Kept,
    gap: bool,
}

impl Model for SureSink {
    ghost use Rattle.outside.specs.Memory.{BoundedSink};

    ghost Value = { BoundedSink };

    ghost view = { λ sink. record { kept = sink.kept.bytes; gap = sink.gap; room = sink.kept.room } };
}

impl SureSink {
    /// Takes its room, in bytes, here and never again.
    pub fn new(alloc: Global, room: usize) -> Result<SureSink, NoMemory>
        ensures { IfOk result (λ sink. sink ≡ record { kept = []; gap = false; room = room }) }
    {
        Ok(SureSink {
            kept: Kept::new(alloc, room)?,
            gap: false,
        })
    }

    /// The bytes that it keeps: all that was written before the first piece that did not fit. Takes
    /// no memory.
    pub fn written(&self) -> &[u8]
        ensures { result.now ≡ self.now.kept }
    {
        self.kept.bytes()
    }
}

impl Sink for SureSink {
    ghost written = { written_of };

    ghost faults = { λ _. 0 };

    fn give(&mut self, piece: &[u8]) -> Result<usize, Failed>
        requires { 0 < length piece.now }
        ensures some { IfOk result (λ n. 0 < n) }
        ensures bound { IfOk result (λ n. n ≤ length piece.now) }
        ensures bytes { IfOk result (λ n.
            Grew (written_of self.old) (written_of self.new) (take n piece.now)) }
        ensures nothing { OnErr result
            (Grew (written_of self.old) (written_of self.new) (take 0 piece.now)) }
        ensures cause { HasCause 0 0 result }
        ensures sure { result ≡ Ok (length piece.now) }
        ensures kept { self.new ≡ with_piece self.old piece.now }
    {
        self.gap = self.gap || !self.kept.keep(piece);
        Ok(piece.len())
    }
}

/// A source over memory whose calls with the given numbers fail; the first call has the number 1.
/// A failed call takes nothing.
#[derive(Drop)]
pub struct MemSource {
    source: SureSource,
    plan: FaultPlan,
}

impl Model for MemSource {
    ghost use Rattle.outside.specs.Memory.{FailingSource};

    ghost Value = { FailingSource };

    ghost view = { λ end. record { left = end.source; plan = end.plan } };
}

impl MemSource {
    /// Takes no memory.
    pub fn new(bytes: Vec<u8>, failing: Vec<u32>) -> MemSource
        ensures { result ≡ record { left = bytes.items; plan = new_plan failing.items } }
    {
        MemSource {
            source: SureSource::new(bytes),
            plan: FaultPlan::new(failing),
        }
    }
}

impl Source for MemSource {
    ghost left = { λ source. Some source.left };

    ghost faults = { λ source. source.plan.faults };

    fn take(&mut self, into: &mut [u8]) -> Result<usize, Failed>
        requires { 0 < length into.old }
        ensures bound { IfOk result (λ n. n ≤ length into.new) }
        ensures bytes { Takes (Some self.old.left) (Some self.new.left) result into.new }
        ensures cause { HasCause self.old.plan.faults self.new.plan.faults result }
        ensures fails { IsErr result ↔ FailsNext self.old.plan }
        ensures most { IfOk result (λ n. n ≡ min (length into.old) (length self.old.left)) }
        ensures plan { self.new.plan ≡ after_call self.old.plan result }
    {
        if self.plan.next_fails() {
            self.plan.raise();
            return Err(Failed);
        }
        self.source.take(into)
    }
}

/// The room of a [`MemSink`], in bytes.
pub const MEM_SINK_ROOM: usize = 1_048_576;

/// A sink over memory with room for 1,048,576 bytes, whose calls with the given numbers fail; the
/// first call has the number 1. A piece that does not fit is a fault too. Every other piece is
/// taken whole.
#[derive(Drop)]
pub struct MemSink {
    kept: Kept,
    plan: FaultPlan,
}

impl Model for MemSink {
    ghost use Rattle.std.specs.Prelude.{◌≡◌};
    ghost use Rattle.outside.specs.Memory.{FailingSink, mem_sink_room};

    ghost Value = { FailingSink };

    ghost view = { λ end. record { written = end.kept.bytes; plan = end.plan } };

    ghost invariant = { λ end. end.kept.room ≡ mem_sink_room };
}

impl MemSink {
    /// Takes its room here and never again.
    pub fn new(alloc: Global, failing: Vec<u32>) -> Result<MemSink, NoMemory>
        ensures { IfOk result (λ sink.
            sink ≡ record { written = []; plan = new_plan failing.items }) }
    {
        Ok(MemSink {
            kept: Kept::new(alloc, MEM_SINK_ROOM)?,
            plan: FaultPlan::new(failing),
        })
    }

    /// All that was written. Takes no memory.
    pub fn written(&self) -> &[u8]
        ensures { result.now ≡ self.now.written }
    {
        self.kept.bytes()
    }
}

impl Sink for MemSink {
    ghost written = { λ sink. Some sink.written };

    ghost faults = { λ sink. sink.plan.faults };

    fn give(&mut self, piece: &[u8]) -> Result<usize, Failed>
        requires { 0 < length piece.now }
        ensures some { IfOk result (λ n. 0 < n) }
        ensures bound { IfOk result (λ n. n ≤ length piece.now) }
        ensures bytes { IfOk result (λ n.
            Grew (Some self.old.written) (Some self.new.written) (take n piece.now)) }
        ensures nothing { OnErr result
            (Grew (Some self.old.written) (Some self.new.written) (take 0 piece.now)) }
        ensures cause { HasCause self.old.plan.faults self.new.plan.faults result }
        ensures whole { IfOk result (λ n. n ≡ length piece.now) }
        ensures plan { self.new.plan ≡ after_call self.old.plan result }
        ensures fails { IsErr result ↔ (FailsNext self.old.plan
            ⊎ (MEM_SINK_ROOM < length self.old.written + length piece.now)) }
    {
        if self.plan.next_fails() || !self.kept.keep(piece) {
            self.plan.raise();
            return Err(Failed);
        }
        Ok(piece.len())
    }
}

/// Bytes that are kept in a room of fixed size.
#[derive(Drop)]
struct Kept {
    bytes: Vec<u8>,
    room: usize,
}

impl Model for Kept {
    ghost use Rattle.std.specs.Prelude.{◌≤◌, vec_capacity, vec_len};
    ghost use Rattle.outside.specs.Memory.{KeptBytes};

    ghost Value = { KeptBytes };

    ghost view = { λ kept. record { bytes = kept.bytes.items; room = kept.room } };

    ghost invariant = { λ kept. (vec_len kept.bytes ≤ kept.room) × (kept.room ≤ vec_capacity kept.bytes) };
}

impl Kept {
    fn new(alloc: Global, room: usize) -> Result<Kept, NoMemory>
        ensures { IfOk result (λ kept. kept ≡ record { bytes = []; room = room }) }
    {
        Ok(Kept {
            bytes: Vec::with_capacity(alloc, room)?,
            room,
        })
    }

    fn bytes(&self) -> &[u8]
        ensures { result.now ≡ self.now.bytes }
    {
        self.bytes.as_slice()
    }

    /// Keeps the piece where it fits, and says whether it did.
    fn keep(&mut self, piece: &[u8]) -> bool
        ensures fits { IsTrue result ↔ (length self.old.bytes + length piece.now ≤ self.old.room) }
        ensures kept { self.new ≡ (if result
            then record self.old { bytes = self.old.bytes ++ piece.now } else self.old) }
    {
        if piece.len() > self.room - self.bytes.len() {
            return false;
        }
        self.bytes.extend_from_slice(piece).is_ok()
    }
}

/// Which calls of an end fail, and how many have: the calls are counted from 1, to at most
/// 4,294,967,295.
#[derive(Drop)]
struct FaultPlan {
    failing: Vec<u32>,
    calls: u32,
    faults: u64,
}

impl Model for FaultPlan {
    ghost use Rattle.outside.specs.Memory.{Faults};

    ghost Value = { Faults };

    ghost view = { λ plan. record { failing = plan.failing.items; calls = plan.calls; faults = plan.faults } };
}

impl FaultPlan {
    fn new(failing: Vec<u32>) -> FaultPlan
        ensures { result ≡ new_plan failing.items }
    {
        FaultPlan {
            failing,
            calls: 0,
            faults: 0,
        }
    }

    /// Counts a call, and says whether it is one of those that fail.
    fn next_fails(&mut self) -> bool
        ensures fails { IsTrue result ↔ FailsNext self.old }
        ensures counted { self.new ≡ record self.old { calls = next_call self.old.calls } }
    {
        self.calls = self.calls.saturating_add(1);
        self.failing.contains(&self.calls)
    }

    /// Counts a fault.
    fn raise(&mut self)
        ensures raised { self.new ≡ record self.old { faults = one_more self.old.faults } }
        ensures rose { (self.old.faults ≤ self.new.faults) × Rose self.old.faults self.new.faults }
    {
        self.faults = self.faults.saturating_add(1);
    }
}
