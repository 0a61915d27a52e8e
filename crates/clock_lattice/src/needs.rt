//! Causal dependencies: a clock for each key.
ghost use Rattle.std.specs.Prelude.{◌≡◌, ◌↔◌, List, [], ℕ, length, slice_get, IsTrue, IfOk, OnOk, OnErr, ⊤};
ghost use Rattle.std.specs.Option.{option_map};
ghost use Rattle.std.specs.Ordering.{nat_cmp};
ghost use Rattle.std.specs.FinMap.{find};
ghost use Rattle.std.specs.Iterator.{YieldsFirstBy, item_count};
ghost use Rattle.lattice_laws.specs.Entries.{IsPushed};
ghost use Rattle.clock_lattice.specs.Needs.{lent_need, IsNeeds, joined_needs, one_need, covers_needs};
ghost use Rattle.clock_lattice.specs.NeedsLaws.{needs_laws, needs_associative};

use crate::Clock;
use crate::some_clock::SomeClock;
use lattice_laws::entries::{at_most_entries, find_entry, join_shared, push_shared, raise_shared};
use lattice_laws::{AllFit, Lattice, NoMemory, Shared};
use std::alloc::Global;
use std::marker::Model;

/// Causal dependencies: for each key a clock, empty for most. Whoever is shown something with these
/// needs in a causal session must from then on be shown at least these clocks of these keys. A merge
/// joins the clocks of each key. Contracts see the entries (key, clock) in the order of the keys; a
/// key whose clock is empty has none.
///
/// A copy shares the entries, and takes no memory; and where all that the one of two needs says is said by the other,
/// their join is that other: what a session knows is passed on with each of its puts, and most of it was there before.
#[derive(Debug, Drop)]
pub struct Needs {
    clocks: Shared<(u16, SomeClock)>,
}

impl Model for Needs {
    ghost use Rattle.std.specs.Prelude.{List, ℕ};
    ghost use Rattle.lattice_laws.specs.Entries.{plain_entries};
    ghost use Rattle.clock_lattice.specs.Needs.{IsNeeds};

    ghost Value = { List (ℕ × List (ℕ × ℕ)) };

    ghost view = { λ needs. plain_entries (λ clock. clock) needs.clocks };

    ghost invariant = { λ needs. IsNeeds (plain_entries (λ clock. clock) needs.clocks) };
}

impl Needs {
    /// Needs of nothing. Takes no memory.
    pub fn new(alloc: Global) -> Needs
        ensures { result ≡ [] }
    {
        Needs {
            clocks: Shared::new(alloc),
        }
    }

    /// Joins a clock into that of the key. After `NoMemory` the needs are as before.
    pub fn raise(&mut self, key: u16, clock: &Clock) -> Result<(), NoMemory>
        ensures ok { OnOk result (self.new ≡ joined_needs self.old (one_need key clock.now)) }
        ensures err { OnErr result (self.new ≡ self.old) }
    {
        if clock.is_empty() {
            return Ok(());
        }
        let raised = SomeClock::of(clock.copy()?);
        raise_shared(&mut self.clocks, key, raised)
    }

    /// Adds the clock of a key after the others, and answers whether the key comes after theirs and
    /// the clock counts something; else the needs are left as before, and after `NoMemory` too. Takes
    /// constant time on average.
    pub fn push(&mut self, key: u16, clock: Clock) -> Result<bool, NoMemory>
        ensures pushed { IfOk result (IsPushed IsNeeds self.old (key, clock) self.new) }
        ensures err { OnErr result (self.new ≡ self.old) }
    {
        if clock.is_empty() {
            return Ok(false);
        }
        push_shared(&mut self.clocks, key, SomeClock::of(clock))
    }

    /// The join of two needs: at each key the join of the two clocks.
    pub fn joined(&self, other: &Needs) -> Result<Needs, NoMemory>
        ensures { IfOk result (λ both. both ≡ joined_needs self.now other.now) }
    {
        Ok(Needs {
            clocks: join_shared(&self.clocks, &other.clocks)?,
        })
    }

    /// The clock of the key, and nothing where the key has none. Takes no memory.
    pub fn of(&self, key: u16) -> Option<&Clock>
        ensures { option_map (λ clock. clock.now) result ≡ find nat_cmp key self.now }
    {
        let found = find_entry(self.clocks.as_slice(), &key)?;
        Some(found.clock())
    }

    /// Whether the clock of each key covers the other's there: whether all that the other needs is
    /// needed here. Takes no memory.
    pub fn covers(&self, other: &Needs) -> bool
        ensures { result ≡ covers_needs self.now other.now }
    {
        at_most_entries(other.clocks.as_slice(), self.clocks.as_slice())
    }

    /// How many keys have a clock. Takes no memory.
    pub fn len(&self) -> usize
        ensures { result ≡ length self.now }
    {
        self.clocks.as_slice().len()
    }

    /// Whether no key has a clock. Takes no memory.
    pub fn is_empty(&self) -> bool
        ensures { IsTrue result ↔ (self.now ≡ []) }
    {
        self.clocks.as_slice().is_empty()
    }

    /// The key and clock at place `i`, counted from 0 in the order of the keys, and nothing past the
    /// last. Takes no memory.
    pub fn at(&self, i: usize) -> Option<(u16, &Clock)>
        ensures { option_map lent_need result ≡ slice_get self.now i }
    {
        let (key, clock) = self.clocks.as_slice().get(i)?;
        Some((*key, clock.clock()))
    }

    /// The keys and clocks, in the order of the keys. Takes no memory.
    pub fn iter(&self) -> NeedsIter<'_>
        ensures { result ≡ self.now }
    {
        NeedsIter {
            clocks: self.clocks.as_slice(),
        }
    }
}

/// The keys and clocks of needs that are still to come, in the order of the keys. Contracts see the
/// list of them.
#[derive(Drop)]
pub struct NeedsIter<'a> {
    clocks: &'a [(u16, SomeClock)],
}

impl<'a> Model for NeedsIter<'a> {
    ghost use Rattle.std.specs.Prelude.{List, ℕ};
    ghost use Rattle.lattice_laws.specs.Entries.{plain_entries};

    ghost Value = { List (ℕ × List (ℕ × ℕ)) };

    ghost view = { λ iter. plain_entries (λ clock. clock) iter.clocks.now };
}

impl<'a> Iterator for NeedsIter<'a> {
    type Item = (u16, &'a Clock);

    ghost next_gives = { YieldsFirstBy lent_need (λ rest. rest) };

    ghost remaining = { item_count (λ rest. rest) };

    fn next(&mut self) -> Option<(u16, &'a Clock)> {
        let ((key, clock), others) = self.clocks.split_first()?;
        self.clocks = others;
        Some((*key, clock.clock()))
    }
}

impl<'a> IntoIterator for &'a Needs {
    type Item = (u16, &'a Clock);

    type IntoIter = NeedsIter<'a>;

    ghost into_iter_gives = { λ needs iter. iter ≡ needs.now };

    fn into_iter(self) -> NeedsIter<'a> {
        self.iter()
    }
}

impl Lattice for Needs {
    ghost Plain = { List (ℕ × List (ℕ × ℕ)) };

    ghost plain = { λ needs. needs };

    ghost is_value = { IsNeeds };

    ghost fits = { λ _ _. ⊤ };

    ghost joined = { joined_needs };

    fn attest(&self) {
        let _clocks = &self.clocks;
    }

    fn join(&mut self, other: &Needs) -> Result<(), NoMemory> {
        *self = self.joined(other)?;
        Ok(())
    }

    fn merged(&self, other: &Needs) -> Result<Needs, NoMemory> {
        self.joined(other)
    }

    fn copy(&self) -> Result<Needs, NoMemory> {
        Ok(Needs {
            clocks: self.clocks.share()?,
        })
    }

    fn at_most(&self, other: &Needs) -> bool {
        at_most_entries(self.clocks.as_slice(), other.clocks.as_slice())
    }

    ghost laws = { needs_laws };

    ghost associative = { needs_associative };
}

impl AllFit for Needs {
    ghost all_fit = { λ _ _. tt };
}
