//! A session between its lines: what it knows, and what it holds.
ghost use Rattle.std.specs.Prelude.{◌≡◌, ◌↔◌, ◌+◌, ◌<◌, ◌^◌, [], length, IsTrue, IsFalse, IsSome, IfOk, OnOk, OnErr, Some, None};
ghost use Rattle.composed_value.specs.Kind.{kind_of};
ghost use Rattle.composed_value.specs.PlainValue.{IsPutOf};
ghost use Rattle.session_known.specs.Lawful.{IsLawfulPut, IsLawfulCommit, last_lamport};
ghost use Rattle.session_known.specs.Session.{known_of, held_puts, IsNextPut, own_count, nothing_known, shown_of, start, state_held, state_put, state_shown};

use crate::{Known, Level, Shown};
use composed_value::{Cell, Payload, Put};
use lattice_laws::{Items, NoMemory};
use std::alloc::Global;
use std::marker::Model;

/// A session between its lines: what it knows, and where a transaction is begun the puts that it holds.
/// The calls that change it follow what its lines and their answers do: a put line is answered by
/// [`SessionState::put`] or held, a transaction is begun and ended, and a commit puts what
/// [`SessionState::end`] gives back, one after another. Contracts see the session and its state.
#[derive(Debug, Drop)]
pub struct SessionState {
    known: Known,
    // The puts that are held, in order, each with its key.
    held: Option<Items<(u16, Payload)>>,
    alloc: Global,
}

impl Model for SessionState {
    ghost use Rattle.session_known.specs.Session.{InState};

    ghost Value = { InState };

    ghost view = { λ session. record { client = session.known.client; state = record { knows = session.known.knows; held = session.held } } };
}

impl SessionState {
    /// The session of this number, from 1, before its first line. Takes no memory.
    pub fn new(alloc: Global, session: u16, level: Level) -> SessionState
        ensures client { result.client ≡ record { session = session; level = level } }
        ensures state { result.state ≡ start nothing_known }
    {
        SessionState::start(alloc, Known::new(alloc, session, level))
    }

    /// The session before its first line, where it knows this. Takes no memory.
    pub fn start(alloc: Global, known: Known) -> SessionState
        ensures client { result.client ≡ known.client }
        ensures state { result.state ≡ start known.knows }
    {
        SessionState {
            known,
            held: None,
            alloc,
        }
    }

    /// What the session knows, of a session that is done with. Takes no memory.
    pub fn into_known(self) -> Known
        ensures { result ≡ known_of self }
    {
        self.known
    }

    /// What the session knows. Takes no memory.
    pub fn known(&self) -> &Known
        ensures { result.now ≡ known_of self.now }
    {
        &self.known
    }

    /// Whether a transaction is begun. Takes no memory.
    pub fn is_begun(&self) -> bool
        ensures some { IsTrue result ↔ IsSome self.now.state.held }
        ensures none { IsFalse result ↔ (self.now.state.held ≡ None) }
    {
        self.held.is_some()
    }

    /// Whether the session's Lamport numbers are used up. Takes no memory.
    pub fn is_worn(&self) -> bool
        ensures { IsTrue result ↔ (self.now.state.knows.lamport ≡ last_lamport) }
    {
        self.known.next_number().is_none()
    }

    /// Whether a put may be accepted with this number at this Lamport number. Takes no memory.
    pub fn is_lawful_put(&self, key: u16, number: u64, lamport: u64) -> bool
        ensures { IsTrue result ↔ IsLawfulPut self.now.state key number lamport }
    {
        self.held.is_none()
            && number > 0
            && number - 1 == self.known.own(key)
            && self.known.next_number() == Some(lamport)
    }

    /// The puts that are held, in order, each with its key; none where no transaction is begun. Takes no
    /// memory.
    pub fn held(&self) -> &[(u16, Payload)]
        ensures { result.now ≡ held_puts self.now.state }
    {
        match &self.held {
            Some(held) => held.as_slice(),
            None => &[],
        }
    }

    /// Whether a commit may accept so many puts at this Lamport number. Takes no memory.
    pub fn is_lawful_commit(&self, puts: u32, lamport: u64) -> bool
        ensures { IsTrue result ↔ IsLawfulCommit self.now.state puts lamport }
    {
        let Some(next) = self.known.next_number() else {
            return false;
        };
        self.held.is_some()
            && puts as usize == self.held().len()
            && lamport == if puts == 0 { 0 } else { next }
    }

    /// Makes the session's next put on the key at this Lamport number and place, 0 outside a commit: the
    /// session knows it from then on. After `NoMemory` it is as before.
    pub fn put(
        &mut self,
        key: u16,
        payload: &Payload,
        lamport: u64,
        place: u32,
    ) -> Result<Put, NoMemory>
        requires { own_count self.old.state.knows key + 1 < 2 ^ 64 }
        ensures client { self.new.client ≡ self.old.client }
        ensures put { IfOk result (IsNextPut (known_of self.old) key payload.now lamport place) }
        ensures kind { IfOk result (IsPutOf (kind_of payload.now)) }
        ensures ok { OnOk result (self.new.state ≡ state_put self.old key lamport) }
        ensures err { OnErr result (self.new.state ≡ self.old.state) }
    {
        let put = self.known.put_at(key, payload, lamport, place)?;
        self.known.note_put(key, lamport)?;
        Ok(put)
    }

    /// Begins a transaction: puts are held from here on. Takes no memory.
    pub fn begin(&mut self)
        ensures client { self.new.client ≡ self.old.client }
        ensures state { self.new.state ≡ record { knows = self.old.state.knows; held = Some [] } }
    {
        self.held = Some(Items::new(Vec::new(self.alloc)));
    }

    /// Holds a put on the key; a transaction is begun. After `NoMemory` the session is as before.
    pub fn hold(&mut self, key: u16, payload: &Payload) -> Result<(), NoMemory>
        requires { IsSome self.old.state.held }
        ensures client { self.new.client ≡ self.old.client }
        ensures ok { OnOk result (self.new.state ≡ state_held self.old key payload.now) }
        ensures err { OnErr result (self.new.state ≡ self.old.state) }
    {
        let payload = payload.copy()?;
        match &mut self.held {
            Some(held) => held.push((key, payload)),
            None => unreachable!(),
        }
    }

    /// Ends the transaction and gives back what was held: a commit puts it, and else it is dropped. Takes
    /// no memory.
    pub fn end(&mut self) -> Items<(u16, Payload)>
        ensures held { result ≡ held_puts self.old.state }
        ensures client { self.new.client ≡ self.old.client }
        ensures state { self.new.state ≡ record { knows = self.old.state.knows; held = None } }
    {
        match self.held.take() {
            Some(held) => held,
            None => Items::new(Vec::new(self.alloc)),
        }
    }

    /// Takes in the cell of the key that a reply shows. After `NoMemory` the session is as before.
    pub fn note_reply(&mut self, key: u16, cell: &Cell) -> Result<(), NoMemory>
        ensures client { self.new.client ≡ self.old.client }
        ensures ok { OnOk result (self.new.state ≡ state_shown self.old key (shown_of cell.now)) }
        ensures err { OnErr result (self.new.state ≡ self.old.state) }
    {
        self.known.note_reply(key, cell)
    }

    /// Takes in what a reply has shown of the key. After `NoMemory` the session is as before.
    pub fn note_shown(&mut self, key: u16, shown: &Shown) -> Result<(), NoMemory>
        ensures client { self.new.client ≡ self.old.client }
        ensures ok { OnOk result (self.new.state ≡ state_shown self.old key shown.now) }
        ensures err { OnErr result (self.new.state ≡ self.old.state) }
    {
        self.known.note_shown(key, shown)
    }
}
