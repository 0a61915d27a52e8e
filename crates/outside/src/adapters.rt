//! std's readers and writers as a source and a sink. They tell no bytes: no contract can say what
//! the world gives or takes, and what std answers there is trusted. Where a reader or a writer of std
//! tells its bytes, as one over memory does, a call hands on what one read gave, or one write took.
ghost use Rattle.std.specs.Prelude.{◌≡◌, ◌<◌, ◌≤◌, None, IfOk, OnErr, length, take};
ghost use Rattle.std.specs.Io.KnownBytes.{ReadConsumes, WriteAppends};
ghost use Rattle.outside.specs.Outside.{Takes, Grew, HasCause, faults_after};

use crate::{Failed, Sink, Source};
use std::io::{Read, Write};
use std::marker::Model;

/// A source over a reader of std: each call is one read. Contracts see the reader and the count of
/// faults.
#[derive(Drop)]
pub struct ReadSource<R> {
    reader: R,
    faults: u64,
}

impl<R> Model for ReadSource<R> {
    ghost use Rattle.outside.specs.Adapters.{Adapter};

    ghost Value = { Adapter R };

    ghost view = { λ end. record { over = end.reader; faults = end.faults } };
}

impl<R: Read> ReadSource<R> {
    /// Takes no memory.
    pub fn new(reader: R) -> ReadSource<R>
        ensures { result ≡ record { over = reader; faults = 0 } }
    {
        ReadSource { reader, faults: 0 }
    }

    /// How many reads failed, at most 18,446,744,073,709,551,615.
    pub fn faults(&self) -> u64
        ensures { result ≡ self.now.faults }
    {
        self.faults
    }
}

impl<R: Read> Source for ReadSource<R> {
    ghost left = { λ _. None };

    ghost faults = { λ source. source.faults };

    fn take(&mut self, into: &mut [u8]) -> Result<usize, Failed>
        requires { 0 < length into.old }
        ensures bound { IfOk result (λ n. n ≤ length into.new) }
        ensures bytes { Takes None None result into.new }
        ensures cause { HasCause self.old.faults self.new.faults result }
        ensures counts { self.new.faults ≡ faults_after self.old.faults result }
        ensures once { ReadConsumes
            (R.remaining self.old.over) (R.remaining self.new.over) result into.new }
    {
        match self.reader.read(into) {
            Ok(taken) => Ok(taken),
            Err(_) => {
                self.faults = self.faults.saturating_add(1);
                Err(Failed)
            }
        }
    }
}

/// A sink over a writer of std: each call is one write, and a write of 0 bytes counts as a fault. The
/// writer is never flushed, so it is to be one that keeps nothing back. Contracts see the writer and
/// the count of faults.
#[derive(Drop)]
pub struct WriteSink<W> {
    writer: W,
    faults: u64,
}

impl<W> Model for WriteSink<W> {
    ghost use Rattle.outside.specs.Adapters.{Adapter};

    ghost Value = { Adapter W };

    ghost view = { λ end. record { over = end.writer; faults = end.faults } };
}

impl<W: Write> WriteSink<W> {
    /// Takes no memory.
    pub fn new(writer: W) -> WriteSink<W>
        ensures { result ≡ record { over = writer; faults = 0 } }
    {
        WriteSink { writer, faults: 0 }
    }

    /// How many writes failed, at most 18,446,744,073,709,551,615.
    pub fn faults(&self) -> u64
        ensures { result ≡ self.now.faults }
    {
        self.faults
    }
}

impl<W: Write> Sink for WriteSink<W> {
    ghost written = { λ _. None };

    ghost faults = { λ sink. sink.faults };

    fn give(&mut self, piece: &[u8]) -> Result<usize, Failed>
        requires { 0 < length piece.now }
        ensures some { IfOk result (λ n. 0 < n) }
        ensures bound { IfOk result (λ n. n ≤ length piece.now) }
        ensures bytes { IfOk result (λ n. Grew None None (take n piece.now)) }
        ensures nothing { OnErr result (Grew None None (take 0 piece.now)) }
        ensures cause { HasCause self.old.faults self.new.faults result }
        ensures counts { self.new.faults ≡ faults_after self.old.faults result }
        ensures once { WriteAppends
            (W.contents self.old.over) (W.contents self.new.over) result piece.now }
    {
        match self.writer.write(piece) {
            Ok(taken) if taken > 0 => Ok(taken),
            _ => {
                self.faults = self.faults.saturating_add(1);
                Err(Failed)
            }
        }
    }
}
