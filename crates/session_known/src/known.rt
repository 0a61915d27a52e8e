//! What a session knows between its lines.
ghost use Rattle.std.specs.Prelude.{◌≡◌, ◌+◌, ◌^◌, ◌<◌, [], unwrap_or, IfOk, OnOk, OnErr};
ghost use Rattle.std.specs.Option.{option_map};
ghost use Rattle.std.specs.Ordering.{nat_cmp};
ghost use Rattle.std.specs.FinMap.{find};
ghost use Rattle.clock_lattice.specs.Clock.{covers};
ghost use Rattle.clock_lattice.specs.Needs.{clock_at, joined_needs, one_need};
ghost use Rattle.composed_value.specs.Kind.{kind_of};
ghost use Rattle.composed_value.specs.PlainValue.{IsPutOf};
ghost use Rattle.session_known.specs.Lawful.{IsNextLamport, required};
ghost use Rattle.session_known.specs.declared.script.Level.TheVariants.{Causal};
ghost use Rattle.session_known.specs.Session.{nothing_known, handed, own_count, known_raised, needs_by, IsNextPut, knows_next, needs_learned, knows_learned, shown_of, knows_reply};

use crate::{Level, Line, Shown};
use clock_lattice::{Clock, Needs};
use composed_value::{Cell, Payload, Put};
use lattice_laws::{Lattice, NoMemory};
use std::alloc::Global;
use std::marker::Model;

/// What a session knows between its lines: of each key a clock, which counts the puts that replies
/// have shown, that the session made, or that a shown put depends on; the greatest Lamport number that
/// it has seen or used (Lamport 1978); and how many puts it has made on each key.
/// Contracts see the session with what it knows.
#[derive(Debug, Drop)]
pub struct Known {
    session: u16,
    level: Level,
    needs: Needs,
    lamport: u64,
    // Each key with the number of puts that the session has made on it.
    own: Clock,
    alloc: Global,
}

impl Model for Known {
    ghost use Rattle.session_known.specs.Session.{Knows};

    ghost Value = { Knows };

    ghost view = { λ known. record { client = record { session = known.session; level = known.level }; knows = record { clocks = known.needs; lamport = known.lamport; own = known.own } } };
}

impl Known {
    /// What the session of this number, from 1, knows before its first line: nothing. Takes no memory.
    pub fn new(alloc: Global, session: u16, level: Level) -> Known
        ensures client { result.client ≡ record { session = session; level = level } }
        ensures knows { result.knows ≡ nothing_known }
    {
        Known {
            session,
            level,
            needs: Needs::new(alloc),
            lamport: 0,
            own: Clock::new(alloc),
            alloc,
        }
    }

    /// What the session of this number, from 1, knows before its first line where it comes after this one, which has
    /// ended, and is causal: the same of each key, and the same Lamport number. It has made no puts.
    pub fn handed(&self, session: u16) -> Result<Known, NoMemory>
        ensures client { IfOk result (λ known. known.client ≡ record { session = session; level = Causal }) }
        ensures knows { IfOk result (λ known. known.knows ≡ handed self.now.knows) }
    {
        let mut known = Known::new(self.alloc, session, Level::Causal);
        known.needs = self.needs.copy()?;
        known.lamport = self.lamport;
        Ok(known)
    }

    /// What is known, once more.
    pub fn copy(&self) -> Result<Known, NoMemory>
        ensures { IfOk result (λ known. known ≡ self.now) }
    {
        Ok(Known {
            session: self.session,
            level: self.level,
            needs: self.needs.copy()?,
            lamport: self.lamport,
            own: self.own.copy()?,
            alloc: self.alloc,
        })
    }

    /// The number of the session, from 1. Takes no memory.
    pub fn session(&self) -> u16
        ensures { result ≡ self.now.client.session }
    {
        self.session
    }

    /// What the session is promised. Takes no memory.
    pub fn level(&self) -> Level
        ensures { result ≡ self.now.client.level }
    {
        self.level
    }

    /// Takes in the cell of the key that a reply shows: its clock, its greatest Lamport number and, in a
    /// causal session, its causal dependencies. After `NoMemory` what is known is as before.
    pub fn note_reply(&mut self, key: u16, cell: &Cell) -> Result<(), NoMemory>
        ensures client { self.new.client ≡ self.old.client }
        ensures ok { OnOk result (self.new.knows ≡ knows_reply self.old key (shown_of cell.now)) }
        ensures err { OnErr result (self.new.knows ≡ self.old.knows) }
    {
        let learned = learned(self.level, Some(cell.needs()));
        self.learn(key, cell.clock(), cell.top(), learned)
    }

    /// Takes in what a reply has shown of the key, as [`Known::note_reply`] takes in a cell. After
    /// `NoMemory` what is known is as before.
    pub fn note_shown(&mut self, key: u16, shown: &Shown) -> Result<(), NoMemory>
        ensures client { self.new.client ≡ self.old.client }
        ensures ok { OnOk result (self.new.knows ≡ knows_reply self.old key shown.now) }
        ensures err { OnErr result (self.new.knows ≡ self.old.knows) }
    {
        let learned = learned(self.level, shown.needs.as_ref());
        self.learn(key, &shown.clock, shown.top, learned)
    }

    // Takes in a clock of the key, a Lamport number, and causal dependencies where any are learned.
    fn learn(
        &mut self,
        key: u16,
        clock: &Clock,
        top: u64,
        learned: Option<&Needs>,
    ) -> Result<(), NoMemory>
        ensures client { self.new.client ≡ self.old.client }
        ensures ok { OnOk result (self.new.knows ≡ knows_learned self.old.knows key clock.now top
            (option_map (λ needs. needs.now) learned.entry)) }
        ensures err { OnErr result (self.new.knows ≡ self.old.knows) }
    {
        learn_needs(&mut self.needs, key, clock, learned)?;
        self.lamport = self.lamport.max(top);
        Ok(())
    }

    /// Takes in a put on the key that the session makes at the Lamport number, from 0 to
    /// 18,446,744,073,709,551,615: it is the session's next put on the key, and the Lamport number that is
    /// known is never lowered. After `NoMemory` what is known is as before.
    pub fn note_put(&mut self, key: u16, lamport: u64) -> Result<(), NoMemory>
        requires { own_count self.old.knows key + 1 < 2 ^ 64 }
        ensures client { self.new.client ≡ self.old.client }
        ensures ok { OnOk result (self.new.knows ≡ knows_next self.old key lamport) }
        ensures err { OnErr result (self.new.knows ≡ self.old.knows) }
    {
        let number = self.own.count(key) + 1;
        let mut own = self.own.copy()?;
        own.raise(key, number)?;
        let mut made = Clock::new(self.alloc);
        made.raise(self.session, number)?;
        self.needs.raise(key, &made)?;
        self.own = own;
        self.lamport = self.lamport.max(lamport);
        Ok(())
    }

    /// The Lamport number of the session's next put, from 1: one above all that it has seen or used,
    /// and nothing where 18,446,744,073,709,551,615 is seen or used, so that none is left. Takes no
    /// memory.
    pub fn next_number(&self) -> Option<u64>
        ensures { IsNextLamport self.now.knows result }
    {
        self.lamport.checked_add(1)
    }

    /// How many puts the session has made on the key, 0 for most. Takes no memory.
    pub fn own(&self, key: u16) -> u64
        ensures { result ≡ own_count self.now.knows key }
    {
        self.own.count(key)
    }

    /// The clock that is known of the key, and nothing where no put on it is known. Takes no memory.
    pub fn clock_for(&self, key: u16) -> Option<&Clock>
        ensures { option_map (λ clock. clock.now) result ≡ find nat_cmp key self.now.knows.clocks }
    {
        self.needs.of(key)
    }

    /// The clocks that are known, key by key: the causal dependencies of a causal session's next put.
    /// Takes no memory.
    pub fn needs(&self) -> &Needs
        ensures { result.now ≡ self.now.knows.clocks }
    {
        &self.needs
    }

    /// The put that the session makes next on the key, at this Lamport number and place, from 0 to
    /// 4,294,967,295 and 0 outside a commit: a version has seen all that is known of the key, and the put
    /// of a causal session depends on all that it knows. It is not noted; see [`Known::note_put`].
    pub fn put_at(
        &self,
        key: u16,
        payload: &Payload,
        lamport: u64,
        place: u32,
    ) -> Result<Put, NoMemory>
        requires { own_count self.now.knows key + 1 < 2 ^ 64 }
        ensures put { IfOk result (IsNextPut self.now key payload.now lamport place) }
        ensures kind { IfOk result (IsPutOf (kind_of payload.now)) }
    {
        let session = self.session();
        let number = self.own(key) + 1;
        let seen = self.clock_raised(key, session, number)?;
        seen.attest();
        let needs = self.needs_of_put()?;
        needs.attest();
        Ok(Put {
            session,
            number,
            lamport,
            place,
            seen,
            needs,
            payload: payload.copy()?,
        })
    }

    // The clock that is known of the key, raised at the session to the count.
    fn clock_raised(&self, key: u16, session: u16, count: u64) -> Result<Clock, NoMemory>
        ensures { IfOk result (λ clock. clock ≡ known_raised self.now.knows key session count) }
    {
        let mut clock = self.clock_copy(key)?;
        clock.raise(session, count)?;
        Ok(clock)
    }

    // The clock that is known of the key, empty where no put on it is known.
    fn clock_copy(&self, key: u16) -> Result<Clock, NoMemory>
        ensures { IfOk result (λ clock. clock ≡ clock_at key self.now.knows.clocks) }
    {
        match self.clock_for(key) {
            Some(clock) => clock.copy(),
            None => Ok(Clock::new(self.alloc)),
        }
    }

    // The causal dependencies of the session's next put: all that it knows, where it is causal.
    fn needs_of_put(&self) -> Result<Needs, NoMemory>
        ensures { IfOk result (λ needs. needs ≡ needs_by self.now.client.level self.now.knows) }
    {
        match self.level {
            Level::Causal => self.needs.copy(),
            Level::Eventual | Level::Committed => Ok(Needs::new(self.alloc)),
        }
    }

    /// What a reply to the line must cover: at an await what is known of the key, raised to the awaited
    /// count; at a get of a causal session what is known of the key; and else nothing.
    pub fn required(&self, line: &Line) -> Result<Clock, NoMemory>
        ensures { IfOk result (λ clock. clock ≡ required self.now.client self.now.knows line.now) }
    {
        match line {
            Line::Get { key, .. } if self.level == Level::Causal => self.clock_copy(*key),
            Line::Await {
                key,
                session,
                count,
            } => self.clock_raised(*key, *session, *count),
            Line::Get { .. } | Line::Put { .. } | Line::Begin | Line::Commit | Line::Abort => {
                Ok(Clock::new(self.alloc))
            }
        }
    }

    /// Whether the clock covers what a reply to the line must cover. Takes no memory.
    pub fn covers_required(&self, line: &Line, clock: &Clock) -> bool
        ensures { result ≡ covers clock.now (required self.now.client self.now.knows line.now) }
    {
        match line {
            Line::Get { key, .. } => self.level != Level::Causal || self.covers_known(*key, clock),
            Line::Await {
                key,
                session,
                count,
            } => self.covers_raised(*key, *session, *count, clock),
            Line::Put { .. } | Line::Begin | Line::Commit | Line::Abort => true,
        }
    }

    // Whether the clock covers what is known of the key.
    fn covers_known(&self, key: u16, clock: &Clock) -> bool
        ensures { result ≡ covers clock.now (clock_at key self.now.knows.clocks) }
    {
        match self.clock_for(key) {
            Some(known) => clock.covers(known),
            None => true,
        }
    }

    // Whether the clock covers what is known of the key, raised at the session to the count.
    fn covers_raised(&self, key: u16, session: u16, count: u64, clock: &Clock) -> bool
        ensures { result ≡ covers clock.now (known_raised self.now.knows key session count) }
    {
        clock.attest();
        self.needs().attest();
        self.covers_known(key, clock) & (clock.count(session) >= count)
    }
}

// Joins a clock of the key into what is known, and the causal dependencies that are learned, if any.
fn learn_needs(
    known: &mut Needs,
    key: u16,
    clock: &Clock,
    learned: Option<&Needs>,
) -> Result<(), NoMemory>
    ensures ok { OnOk result (known.new ≡ joined_needs
        (joined_needs known.old (one_need key clock.now))
        (unwrap_or (option_map (λ needs. needs.now) learned.entry) [])) }
    ensures err { OnErr result (known.new ≡ known.old) }
{
    let Some(learned) = learned else {
        return known.raise(key, clock);
    };
    known.attest();
    learned.attest();
    clock.attest();
    let mut joined = known.joined(learned)?;
    joined.raise(key, clock)?;
    *known = joined;
    Ok(())
}

// The causal dependencies that a session of the level learns where a reply shows these: all of them where
// it is causal.
fn learned<'a>(level: Level, shown: Option<&'a Needs>) -> Option<&'a Needs>
    ensures { unwrap_or (option_map (λ needs. needs.now) result) []
        ≡ needs_learned level (option_map (λ needs. needs.now) shown.entry) }
{
    match level {
        Level::Causal => shown,
        Level::Eventual | Level::Committed => None,
    }
}
