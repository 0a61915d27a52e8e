//! What a worker replies to a get.
ghost use Rattle.std.specs.Prelude.{◌≡◌, IfOk};
ghost use Rattle.store_msg.specs.Reply.{IsAnswer, reply_of};

use clock_lattice::Clock;
use composed_value::Cell;
use lattice_laws::{Lattice, NoMemory};
use mail_contract::Message;
use std::marker::Model;

/// What a get was answered.
#[derive(Debug, Drop)]
pub enum Answered {
    /// A cell whose clock covers what was required.
    Found(Cell),
    /// The clock of the cell, which does not cover it: the session may ask again.
    Again(Clock),
}

/// A worker's reply to a get. A cell that is found covers what was required, and a clock that comes
/// in place of one does not; the type keeps both.
#[derive(Debug, Drop)]
pub struct Reply {
    ask: u64,
    worker: u16,
    key: u16,
    required: Clock,
    answered: Answered,
}

impl Model for Reply {
    ghost use Rattle.store_msg.specs.Reply.{IsAnswer, PlainReply};

    ghost Value = { PlainReply };

    ghost view = { λ reply. record {
      ask = reply.ask;
      worker = reply.worker;
      key = reply.key;
      required = reply.required;
      answered = reply.answered;
    } };

    ghost invariant = { λ reply. IsAnswer reply.required reply.answered };
}

impl Reply {
    /// The reply of a worker to an ask for a key, by its cell: a copy of the cell exactly where the
    /// cell's clock covers what is required, else a copy of the clock.
    pub fn answer(
        ask: u64,
        worker: u16,
        key: u16,
        required: &Clock,
        cell: &Cell,
    ) -> Result<Reply, NoMemory>
        ensures { IfOk result (λ reply. reply ≡ reply_of ask worker key required.now cell.now) }
    {
        let required_copy = required.copy()?;
        let answered = if cell.clock().covers(required) {
            Answered::Found(cell.copy()?)
        } else {
            Answered::Again(cell.clock().copy()?)
        };
        Ok(Reply {
            ask,
            worker,
            key,
            required: required_copy,
            answered,
        })
    }

    /// The number of the ask that is answered. Takes no memory.
    pub fn ask(&self) -> u64
        ensures { result ≡ self.now.ask }
    {
        self.ask
    }

    /// The worker that replies. Takes no memory.
    pub fn worker(&self) -> u16
        ensures { result ≡ self.now.worker }
    {
        self.worker
    }

    /// The key that was asked for. Takes no memory.
    pub fn key(&self) -> u16
        ensures { result ≡ self.now.key }
    {
        self.key
    }

    /// The clock that was required. Takes no memory.
    pub fn required(&self) -> &Clock
        ensures { result.now ≡ self.now.required }
    {
        &self.required
    }

    /// What the get was answered. Takes no memory.
    pub fn answered(&self) -> &Answered
        ensures answered { result.now ≡ self.now.answered }
        ensures is_answer { IsAnswer self.now.required result.now }
    {
        &self.answered
    }

    /// What the get was answered, taken out. Takes no memory.
    pub fn into_answered(self) -> Answered
        ensures answered { result ≡ self.answered }
        ensures is_answer { IsAnswer self.required result }
    {
        self.answered
    }
}

impl Message for Reply {
    fn copy(&self) -> Result<Reply, NoMemory> {
        let answered = match &self.answered {
            Answered::Found(cell) => Answered::Found(cell.copy()?),
            Answered::Again(clock) => Answered::Again(clock.copy()?),
        };
        Ok(Reply {
            ask: self.ask,
            worker: self.worker,
            key: self.key,
            required: self.required.copy()?,
            answered,
        })
    }
}
