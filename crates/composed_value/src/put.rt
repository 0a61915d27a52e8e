//! An update that a client makes.
ghost use Rattle.std.specs.Prelude.{◌≡◌, ◌≤◌, IfOk};
ghost use Rattle.composed_value.specs.Put.{IsPut, stamp_of};

use crate::Payload;
use basic_lattices::{Stamped, Word};
use clock_lattice::{Clock, Needs};
use lattice_laws::{Lattice, NoMemory};

/// An update of a key that a session makes (the client update of Wu, Faleiro, Lin, Hellerstein 2018).
#[derive(Debug, Drop)]
pub struct Put {
    /// The session that makes it, from 1.
    pub session: u16,
    /// Its number among the session's puts on the key, from 1.
    pub number: u64,
    /// Its Lamport number (Lamport 1978): above all that its session has seen or used.
    pub lamport: u64,
    /// Its place, from 0, among the puts of one commit, which share a Lamport number.
    pub place: u32,
    /// The clock of the version that it writes: what its session had seen of the key, the put itself
    /// included. Used by kinds versions and orset alone.
    pub seen: Clock,
    /// Its causal dependencies: what a causal session that is shown the put must be shown of these keys
    /// from then on. Other sessions are not bound by them.
    pub needs: Needs,
    /// What it brings.
    pub payload: Payload,
}

impl Put {
    /// The word under the stamp of the put. Takes no memory.
    pub(crate) fn stamped(&self, word: Word) -> Stamped
        ensures { result ≡ stamp_of self.now word }
    {
        Stamped {
            number: self.lamport,
            session: self.session,
            place: self.place,
            word,
        }
    }

    /// With a number it is a put that there can be. Code calls it to learn the fact; it does nothing.
    pub fn attest(&self)
        ensures { 1 ≤ self.now.number → IsPut self.now }
    {
        let _session = self.session;
        let _number = self.number;
        let _lamport = self.lamport;
        let _place = self.place;
        self.seen.attest();
        self.needs.attest();
        self.payload.attest();
    }

    /// An equal put.
    pub fn copy(&self) -> Result<Put, NoMemory>
        ensures { IfOk result (λ copy. copy ≡ self.now) }
    {
        Ok(Put {
            session: self.session,
            number: self.number,
            lamport: self.lamport,
            place: self.place,
            seen: self.seen.copy()?,
            needs: self.needs.copy()?,
            payload: self.payload.copy()?,
        })
    }
}
