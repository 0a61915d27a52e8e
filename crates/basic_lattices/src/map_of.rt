//! Maps whose values merge key by key.
ghost use Rattle.std.specs.Prelude.{◌≡◌, ◌↔◌, [], length, slice_get, IfOk, IsTrue, OnOk, OnErr, List, ⊤};
ghost use Rattle.std.specs.Option.{option_map};
ghost use Rattle.std.specs.FinMap.{find, is_sorted};
ghost use Rattle.std.specs.Iterator.{YieldsFirstBy, item_count};
ghost use Rattle.lattice_laws.specs.Entries.{plain_entries, raised, joined_maps, IsMap, IsPushed, JoinsPerKey};
ghost use Rattle.lattice_laws.specs.EntriesLaws.{map_laws, map_associative};

use crate::{MaxNum, Word};
use lattice_laws::entries::{
    at_most_entries, attest_entries, find_entry, join_shared, push_shared, raise_shared,
};
use lattice_laws::{AllFit, Lattice, MapKey, NoMemory, Shared};
use std::alloc::Global;
use std::marker::Model;

/// A map whose values merge key by key. Contracts see its entries in the order of their keys.
#[derive(Debug, Drop)]
pub struct MapOf<K: MapKey, L: AllFit> {
    entries: Shared<(K, L)>,
}

impl<K: MapKey, L: AllFit> Model for MapOf<K, L> {
    ghost use Rattle.std.specs.Prelude.{List, IsTrue};
    ghost use Rattle.std.specs.FinMap.{is_sorted};
    ghost use Rattle.lattice_laws.specs.Entries.{plain_entries};

    ghost Value = { List (K × L) };

    ghost view = { λ map. map.entries };

    ghost invariant = { λ map. IsTrue (is_sorted K.cmp (plain_entries L.plain map.entries)) };
}

/// A map that merges each field to the greatest number put on it.
pub type FieldMax = MapOf<Word, MaxNum>;

impl<K: MapKey, L: AllFit> MapOf<K, L> {
    /// The empty map. Takes no memory.
    pub fn new(alloc: Global) -> MapOf<K, L>
        ensures { result ≡ [] }
    {
        MapOf {
            entries: Shared::new(alloc),
        }
    }

    /// Where it takes its memory.
    pub fn alloc(&self) -> Global {
        self.entries.alloc()
    }

    /// Merges the value into what stands at the key, or puts it where the key is new. After
    /// `NoMemory` the map is as before.
    pub fn raise(&mut self, key: K, value: L) -> Result<(), NoMemory>
        ensures ok { OnOk result (plain_entries L.plain self.new
            ≡ raised K.cmp L.joined key (L.plain value) (plain_entries L.plain self.old)) }
        ensures err { OnErr result
            (plain_entries L.plain self.new ≡ plain_entries L.plain self.old) }
    {
        raise_shared(&mut self.entries, key, value)
    }

    /// Adds an entry after the others, and answers whether its key comes after theirs; else the map
    /// is left as before, and after `NoMemory` too. Takes constant time on average.
    pub fn push(&mut self, key: K, value: L) -> Result<bool, NoMemory>
        ensures pushed { IfOk result (IsPushed (λ entries. IsTrue (is_sorted K.cmp entries))
            (plain_entries L.plain self.old)
            (key, L.plain value)
            (plain_entries L.plain self.new)) }
        ensures err { OnErr result
            (plain_entries L.plain self.new ≡ plain_entries L.plain self.old) }
    {
        push_shared(&mut self.entries, key, value)
    }

    /// The value at the key, and nothing where the key is not there. Takes no memory.
    pub fn get(&self, key: &K) -> Option<&L>
        ensures { option_map (λ found. L.plain found.now) result
            ≡ find K.cmp key.now (plain_entries L.plain self.now) }
    {
        find_entry(self.entries.as_slice(), key)
    }

    /// How many keys there are. Takes no memory.
    pub fn len(&self) -> usize
        ensures { result ≡ length self.now }
    {
        self.entries.as_slice().len()
    }

    /// Whether there is no key. Takes no memory.
    pub fn is_empty(&self) -> bool
        ensures { IsTrue result ↔ (self.now ≡ []) }
    {
        self.entries.as_slice().is_empty()
    }

    /// The entry at place `i`, counted from 0 in the order of the keys, and nothing past the last.
    /// Takes no memory.
    pub fn at(&self, i: usize) -> Option<(&K, &L)>
        ensures { option_map (λ entry. (entry.0.now, entry.1.now)) result ≡ slice_get self.now i }
    {
        let entry = self.entries.as_slice().get(i)?;
        Some((&entry.0, &entry.1))
    }

    /// The entries, in the order of the keys. Takes no memory.
    pub fn iter(&self) -> MapIter<'_, K, L>
        ensures { result ≡ self.now }
    {
        MapIter {
            entries: self.entries.as_slice(),
        }
    }
}

/// A join of two maps has at each key the join of what stands there in both, where a key that is not
/// there stands below every value; and maps with the same at each key are one.
pub fn maps_join_per_key<K: MapKey, L: AllFit>()
    ensures { JoinsPerKey K.cmp L.joined (IsMap K.cmp K.is_key L.is_value) }
{}

/// The entries of a map that are still to come, in the order of the keys. Contracts see the list of
/// them.
#[derive(Drop)]
pub struct MapIter<'a, K, L> {
    entries: &'a [(K, L)],
}

impl<'a, K, L> Model for MapIter<'a, K, L> {
    ghost use Rattle.std.specs.Prelude.{List};

    ghost Value = { List (K × L) };

    ghost view = { λ iter. iter.entries.now };
}

impl<'a, K, L> Iterator for MapIter<'a, K, L> {
    type Item = (&'a K, &'a L);

    ghost next_gives = { YieldsFirstBy (λ entry. (entry.0.now, entry.1.now)) (λ rest. rest) };

    ghost remaining = { item_count (λ rest. rest) };

    fn next(&mut self) -> Option<(&'a K, &'a L)> {
        let (first, others) = self.entries.split_first()?;
        self.entries = others;
        Some((&first.0, &first.1))
    }
}

impl<'a, K: MapKey, L: AllFit> IntoIterator for &'a MapOf<K, L> {
    type Item = (&'a K, &'a L);

    type IntoIter = MapIter<'a, K, L>;

    ghost into_iter_gives = { λ map iter. iter ≡ map.now };

    fn into_iter(self) -> MapIter<'a, K, L> {
        self.iter()
    }
}

impl<K: MapKey, L: AllFit> Lattice for MapOf<K, L> {
    ghost Plain = { List (K × L.Plain) };

    ghost plain = { plain_entries L.plain };

    ghost is_value = { IsMap K.cmp K.is_key L.is_value };

    ghost fits = { λ _ _. ⊤ };

    ghost joined = { joined_maps K.cmp L.joined };

    fn attest(&self) {
        attest_entries(self.entries.as_slice());
    }

    fn join(&mut self, other: &Self) -> Result<(), NoMemory> {
        // One entry goes into its place, so that putting into a large map copies none of it.
        if let [(key, value)] = other.entries.as_slice() {
            return raise_shared(&mut self.entries, key.copy()?, value.copy()?);
        }
        self.entries = join_shared(&self.entries, &other.entries)?;
        Ok(())
    }

    fn copy(&self) -> Result<Self, NoMemory> {
        Ok(MapOf {
            entries: self.entries.share()?,
        })
    }

    fn at_most(&self, other: &Self) -> bool {
        at_most_entries(self.entries.as_slice(), other.entries.as_slice())
    }

    ghost laws = { map_laws K.total K.exact K.is_key L.laws L.all_fit };

    ghost associative = { map_associative K.total K.exact K.is_key L.laws L.all_fit L.associative };
}

impl<K: MapKey, L: AllFit> AllFit for MapOf<K, L> {
    ghost all_fit = { λ _ _. tt };
}
