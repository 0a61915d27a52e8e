//! Vector clocks.
ghost use Rattle.std.specs.Prelude.{◌≡◌, ◌↔◌, List, [], ℕ, length, slice_get, refl, IsTrue, IfOk, OnOk, OnErr, ⊤};
ghost use Rattle.std.specs.Iterator.{YieldsFirst, item_count};
ghost use Rattle.lattice_laws.specs.Entries.{IsPushed};
ghost use Rattle.clock_lattice.specs.Clock.{IsClock, count_of, joined_clocks, one_count, covers};
ghost use Rattle.clock_lattice.specs.ClockLaws.{clock_laws, clock_associative};
ghost use Rattle.clock_lattice.specs.ClockOrder.{clock_eq, clock_cmp, clock_partial_cmp, clock_total, clock_equivalence, clock_partial_equivalence, clock_partial_order, clock_ties};

use crate::count::Count;
use lattice_laws::entries::{at_most_entries, find_entry, join_shared, push_shared, raise_shared};
use lattice_laws::{AllFit, Lattice, NoMemory, Shared};
use std::alloc::Global;
use std::cmp::Ordering;
use std::marker::Model;

/// A vector clock: for each session how many of its puts are counted, 0 for most. A merge keeps the
/// greater count of each session. Contracts see the entries (session, count) in the order of the
/// sessions; a session of which nothing is counted has none.
///
/// A copy shares the entries, and takes no memory; and the join of two clocks of which one covers the other is that one.
#[derive(Debug, Drop)]
pub struct Clock {
    counts: Shared<(u16, Count)>,
}

impl Model for Clock {
    ghost use Rattle.std.specs.Prelude.{List, ℕ};
    ghost use Rattle.lattice_laws.specs.Entries.{plain_entries};
    ghost use Rattle.clock_lattice.specs.Clock.{IsClock};

    ghost Value = { List (ℕ × ℕ) };

    ghost view = { λ clock. plain_entries (λ n. n) clock.counts };

    ghost invariant = { λ clock. IsClock (plain_entries (λ n. n) clock.counts) };
}

impl Clock {
    /// The clock that counts nothing. Takes no memory.
    pub fn new(alloc: Global) -> Clock
        ensures { result ≡ [] }
    {
        Clock {
            counts: Shared::new(alloc),
        }
    }

    /// Raises the count of a session to `n`, where it is below it. After `NoMemory` the clock is as
    /// before.
    pub fn raise(&mut self, session: u16, n: u64) -> Result<(), NoMemory>
        ensures ok { OnOk result (self.new ≡ joined_clocks self.old (one_count session n)) }
        ensures err { OnErr result (self.new ≡ self.old) }
    {
        if n == 0 {
            return Ok(());
        }
        raise_shared(&mut self.counts, session, Count::of(n))
    }

    /// Adds the count `n` of a session after the others, and answers whether the session comes after
    /// theirs and `n` is not 0; else the clock is left as before, and after `NoMemory` too. Takes
    /// constant time on average.
    pub fn push(&mut self, session: u16, n: u64) -> Result<bool, NoMemory>
        ensures pushed { IfOk result (IsPushed IsClock self.old (session, n) self.new) }
        ensures err { OnErr result (self.new ≡ self.old) }
    {
        if n > 0 {
            push_shared(&mut self.counts, session, Count::of(n))
        } else {
            Ok(false)
        }
    }

    /// The join of two clocks: of each session the greater count.
    pub fn joined(&self, other: &Clock) -> Result<Clock, NoMemory>
        ensures { IfOk result (λ both. both ≡ joined_clocks self.now other.now) }
    {
        Ok(Clock {
            counts: join_shared(&self.counts, &other.counts)?,
        })
    }

    /// How many puts of the session are counted, 0 where none is. Takes no memory.
    pub fn count(&self, session: u16) -> u64
        ensures { result ≡ count_of session self.now }
    {
        match find_entry(self.counts.as_slice(), &session) {
            Some(count) => count.number(),
            None => 0,
        }
    }

    /// Whether every count is at least the other's: whether this clock has seen all that the other
    /// has. Takes no memory.
    pub fn covers(&self, other: &Clock) -> bool
        ensures { result ≡ covers self.now other.now }
    {
        at_most_entries(other.counts.as_slice(), self.counts.as_slice())
    }

    /// How many sessions have a count. Takes no memory.
    pub fn len(&self) -> usize
        ensures { result ≡ length self.now }
    {
        self.counts.as_slice().len()
    }

    /// Whether nothing is counted. Takes no memory.
    pub fn is_empty(&self) -> bool
        ensures { IsTrue result ↔ (self.now ≡ []) }
    {
        self.counts.as_slice().is_empty()
    }

    /// The session and count at place `i`, counted from 0 in the order of the sessions, and nothing
    /// past the last. Takes no memory.
    pub fn at(&self, i: usize) -> Option<(u16, u64)>
        ensures { result ≡ slice_get self.now i }
    {
        let (session, count) = self.counts.as_slice().get(i)?;
        Some((*session, count.number()))
    }

    /// The sessions and counts, in the order of the sessions. Takes no memory.
    pub fn iter(&self) -> ClockIter<'_>
        ensures { result ≡ self.now }
    {
        ClockIter {
            counts: self.counts.as_slice(),
        }
    }
}

/// The sessions and counts of a clock that are still to come, in the order of the sessions. Contracts
/// see the list of them.
#[derive(Drop)]
pub struct ClockIter<'a> {
    counts: &'a [(u16, Count)],
}

impl<'a> Model for ClockIter<'a> {
    ghost use Rattle.std.specs.Prelude.{List, ℕ};
    ghost use Rattle.lattice_laws.specs.Entries.{plain_entries};

    ghost Value = { List (ℕ × ℕ) };

    ghost view = { λ iter. plain_entries (λ n. n) iter.counts.now };
}

impl<'a> Iterator for ClockIter<'a> {
    type Item = (u16, u64);

    ghost next_gives = { YieldsFirst (λ rest. rest) };

    ghost remaining = { item_count (λ rest. rest) };

    fn next(&mut self) -> Option<(u16, u64)> {
        let ((session, count), others) = self.counts.split_first()?;
        self.counts = others;
        Some((*session, count.number()))
    }
}

impl<'a> IntoIterator for &'a Clock {
    type Item = (u16, u64);

    type IntoIter = ClockIter<'a>;

    ghost into_iter_gives = { λ clock iter. iter ≡ clock.now };

    fn into_iter(self) -> ClockIter<'a> {
        self.iter()
    }
}

impl Lattice for Clock {
    ghost Plain = { List (ℕ × ℕ) };

    ghost plain = { λ clock. clock };

    ghost is_value = { IsClock };

    ghost fits = { λ _ _. ⊤ };

    ghost joined = { joined_clocks };

    fn attest(&self) {
        let _counts = &self.counts;
    }

    fn join(&mut self, other: &Clock) -> Result<(), NoMemory> {
        *self = self.joined(other)?;
        Ok(())
    }

    fn merged(&self, other: &Clock) -> Result<Clock, NoMemory> {
        self.joined(other)
    }

    fn copy(&self) -> Result<Clock, NoMemory> {
        Ok(Clock {
            counts: self.counts.share()?,
        })
    }

    fn at_most(&self, other: &Clock) -> bool {
        at_most_entries(self.counts.as_slice(), other.counts.as_slice())
    }

    ghost laws = { clock_laws };

    ghost associative = { clock_associative };
}

impl AllFit for Clock {
    ghost all_fit = { λ _ _. tt };
}

impl PartialEq for Clock {
    ghost eq = { clock_eq };

    ghost laws = { clock_partial_equivalence };

    fn eq(&self, other: &Clock) -> bool {
        self.cmp(other).is_eq()
    }
}

impl Eq for Clock {
    ghost laws = { clock_equivalence };
}

impl PartialOrd for Clock {
    ghost partial_cmp = { clock_partial_cmp };

    ghost laws = { clock_partial_order };

    fn partial_cmp(&self, other: &Clock) -> Option<Ordering> {
        Some(self.cmp(other))
    }
}

/// The order in which clocks are listed, by their entries as lists of (session, count). It says
/// nothing of causality, of which [`Clock::covers`] speaks.
impl Ord for Clock {
    ghost cmp = { clock_cmp };

    ghost total = { clock_total };

    ghost matches_partial_cmp = { λ a b. refl };

    ghost matches_eq = { clock_ties };

    fn cmp(&self, other: &Clock) -> Ordering {
        self.counts.as_slice().cmp(other.counts.as_slice())
    }
}
