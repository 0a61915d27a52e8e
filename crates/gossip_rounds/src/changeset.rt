//! The changeset of a worker.
ghost use Rattle.std.specs.Prelude.{◌≡◌, ◌+◌, ◌<◌, ◌≤◌, ◌^◌, ◌↔◌, [], length, replicate, slice_index_or, slice_set, sum_by, if◌then◌else◌, IsTrue, IfOk};
ghost use Rattle.std.specs.List.{remove_range};
ghost use Rattle.gossip_rounds.specs.Changes.{with_key};

use lattice_laws::NoMemory;
use std::alloc::Global;
use std::marker::Model;

/// Keys, numbered from 1, in ascending order. The room for all that there are is taken when the set is
/// made.
#[derive(Debug, Drop)]
struct Keys {
    most: u16,
    keys: Vec<u16>,
}

impl Model for Keys {
    ghost use Rattle.std.specs.Prelude.{◌≤◌, vec_capacity};
    ghost use Rattle.gossip_rounds.specs.Changes.{PlainKeys, AreKeys};

    ghost Value = { PlainKeys };

    ghost view = { λ set. record { most = set.most; keys = set.keys.items } };

    ghost invariant = { λ set. AreKeys set.most set.keys.items × (set.most ≤ vec_capacity set.keys) };
}

impl Keys {
    /// No keys, of so many that there are.
    fn new(alloc: Global, most: u16) -> Result<Keys, NoMemory>
        ensures { IfOk result (λ set. set ≡ record { most = most; keys = [] }) }
    {
        Ok(Keys {
            most,
            keys: Vec::with_capacity(alloc, usize::from(most))?,
        })
    }

    /// Adds a key, and tells whether it was not there. Takes no memory.
    fn add(&mut self, key: u16) -> bool
        requires { (1 ≤ key) × (key ≤ self.old.most) }
        ensures most { self.new.most ≡ self.old.most }
        ensures keys { self.new.keys ≡ with_key key self.old.keys }
        ensures more { length self.new.keys ≡ length self.old.keys + (if result then 1 else 0) }
    {
        match self.keys.binary_search(&key) {
            Ok(_) => false,
            Err(place) => {
                let _ = self.keys.insert(place, key);
                true
            }
        }
    }

    /// Takes the keys from a place up to another out. Takes no memory.
    fn remove(&mut self, from: usize, to: usize)
        requires { (from ≤ to) × (to ≤ length self.old.keys) }
        ensures most { self.new.most ≡ self.old.most }
        ensures keys { self.new.keys ≡ remove_range self.old.keys from to }
    {
        self.keys.drain(from..to);
    }

    /// The keys, in ascending order. Takes no memory.
    fn as_slice(&self) -> &[u16]
        ensures { result.now ≡ self.now.keys }
    {
        self.keys.as_slice()
    }
}

/// A set of pairs of a key and a mate: the key changed since the mate was last told of it. Mates are
/// numbered from 0 and keys from 1. The room for all pairs is taken when the set is made.
#[derive(Debug, Drop)]
pub struct Changeset {
    most: u16,
    mates: Vec<Keys>,
    pairs: usize,
}

impl Model for Changeset {
    ghost use Rattle.std.specs.Prelude.{◌≡◌, ◌<◌, ◌^◌, All, length, map, sum_by};
    ghost use Rattle.gossip_rounds.specs.Changes.{AreKeys, PlainChanges};

    ghost Value = { PlainChanges };

    ghost view = { λ set. record { most = set.most; of_mates = map (λ mate. mate.keys) set.mates.items } };

    ghost invariant = { λ set. All (λ mate. (mate.most ≡ set.most) × AreKeys set.most mate.keys) set.mates.items
        × (length set.mates.items < 2 ^ 16)
        × (set.pairs ≡ sum_by length (map (λ mate. mate.keys) set.mates.items)) };
}

impl Changeset {
    /// No pairs, of so many keys and mates.
    pub fn new(alloc: Global, most: u16, mates: usize) -> Result<Changeset, NoMemory>
        requires { mates < 2 ^ 16 }
        ensures { IfOk result (λ set. set ≡ record { most = most; of_mates = replicate mates [] }) }
    {
        let mut of_mates = Vec::with_capacity(alloc, mates)?;
        for _ in 0..mates {
            of_mates.push_reserved(Keys::new(alloc, most)?);
        }
        Ok(Changeset {
            most,
            mates: of_mates,
            pairs: 0,
        })
    }

    /// The key changed for a mate. Takes no memory.
    pub fn mark(&mut self, mate: usize, key: u16)
        requires mate { mate < length self.old.of_mates }
        requires key { (1 ≤ key) × (key ≤ self.old.most) }
        ensures most { self.new.most ≡ self.old.most }
        ensures keys { self.new.of_mates ≡ slice_set self.old.of_mates mate
            (with_key key (slice_index_or self.old.of_mates mate [])) }
    {
        let keys = &mut self.mates[mate];
        if keys.add(key) {
            self.pairs += 1;
        }
    }

    /// A mate was told of its keys from a place up to another. Takes no memory.
    pub fn clear(&mut self, mate: usize, from: usize, to: usize)
        requires mate { mate < length self.old.of_mates }
        requires places { (from ≤ to)
            × (to ≤ length (slice_index_or self.old.of_mates mate [])) }
        ensures most { self.new.most ≡ self.old.most }
        ensures small { self.new.most < 2 ^ 16 }
        ensures keys { self.new.of_mates ≡ slice_set self.old.of_mates mate
            (remove_range (slice_index_or self.old.of_mates mate []) from to) }
    {
        let keys = &mut self.mates[mate];
        keys.remove(from, to);
        self.pairs -= to - from;
    }

    /// The keys that changed for a mate, in ascending order. Takes no memory.
    pub fn keys(&self, mate: usize) -> &[u16]
        requires { mate < length self.now.of_mates }
        ensures keys { result.now ≡ slice_index_or self.now.of_mates mate [] }
        ensures few { length result.now ≤ self.now.most }
    {
        let keys = &self.mates[mate];
        keys.as_slice()
    }

    /// The number of mates. Takes no memory.
    pub fn mates(&self) -> usize
        ensures { result ≡ length self.now.of_mates }
    {
        self.mates.len()
    }

    /// The number of pairs. Takes no memory.
    pub fn len(&self) -> usize
        ensures { result ≡ sum_by length self.now.of_mates }
    {
        self.pairs
    }
}
