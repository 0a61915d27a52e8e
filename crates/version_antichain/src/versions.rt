//! The versions that no other has seen.
ghost use Rattle.std.specs.Prelude.{◌≡◌, ◌↔◌, ◌<◌, ◌||◌, List, [], ◌∷◌, ℕ, map, length, slice_get, slice_index_or, IsTrue, IfOk, OnOk, OnErr, ⊤};
ghost use Rattle.std.specs.List.{list_any, list_all};
ghost use Rattle.std.specs.Option.{option_map};
ghost use Rattle.std.specs.Ordering.{eq_by_cmp};
ghost use Rattle.std.specs.Iterator.{YieldsFirstBy, item_count};
ghost use Rattle.lattice_laws.specs.Entries.{IsPushed};
ghost use Rattle.clock_lattice.specs.Clock as clocks;
ghost use Rattle.version_antichain.specs.declared.version.Version.{Version};
ghost use Rattle.version_antichain.specs.Antichain.{maximal, MaximalOfMaximal};
ghost use Rattle.version_antichain.specs.Version.{IsVersion, version_of, version_cmp, is_below};
ghost use Rattle.version_antichain.specs.Versions.{IsVersions, joined_versions};
ghost use Rattle.version_antichain.specs.VersionsLaws.{versions_laws, versions_associative};

use crate::Version;
use basic_lattices::Word;
use clock_lattice::Clock;
use lattice_laws::entries::{copy_entries, join_entries, push_entry};
use lattice_laws::{AllFit, Lattice, MapKey, Member, NoMemory};
use std::alloc::Global;
use std::marker::Model;

/// The versions of a register of which none was overtaken: no clock is strictly below another's.
/// Equal clocks with different words stand side by side. Contracts see the versions in order, each
/// once. A merge compares pairs; in a run a register holds few versions, at most one of each session.
#[derive(Debug, Drop)]
pub struct Versions {
    versions: Vec<(Version, Member)>,
}

impl Model for Versions {
    ghost use Rattle.std.specs.Prelude.{List, map};
    ghost use Rattle.version_antichain.specs.declared.version.Version.{Version};

    ghost Value = { List Version };

    ghost use Rattle.version_antichain.specs.Versions.{IsVersions};

    ghost view = { λ all. map (λ entry. entry.0) all.versions.items };

    ghost invariant = { λ all. IsVersions (map (λ entry. entry.0) all.versions.items) };
}

impl Versions {
    /// No version. Takes no memory.
    pub fn new(alloc: Global) -> Versions
        ensures { result ≡ [] }
    {
        Versions {
            versions: Vec::new(alloc),
        }
    }

    /// The one version of a word that was written under a clock.
    pub fn one(alloc: Global, clock: Clock, word: Word) -> Result<Versions, NoMemory>
        ensures { IfOk result (λ one. one ≡ record { clock = clock; word = word } ∷ []) }
    {
        let version = Version { clock, word };
        version.attest();
        let mut versions = Vec::new(alloc);
        versions.push((version, Member))?;
        Ok(Versions { versions })
    }

    /// Adds a version after the others, and answers whether it comes after them in the order of
    /// versions and no clock is then strictly below another; else the versions are left as before, and
    /// after `NoMemory` too. Compares the version with each of the others.
    pub fn push(&mut self, clock: Clock, word: Word) -> Result<bool, NoMemory>
        ensures pushed { IfOk result
            (IsPushed IsVersions self.old (record { clock = clock; word = word }) self.new) }
        ensures err { OnErr result (self.new ≡ self.old) }
    {
        let version = Version { clock, word };
        if is_ordered_with(&version, self.versions.as_slice()) {
            return Ok(false);
        }
        version.attest();
        push_entry(&mut self.versions, version, Member)
    }

    /// How many versions there are. Takes no memory.
    pub fn len(&self) -> usize
        ensures { result ≡ length self.now }
    {
        self.versions.len()
    }

    /// Whether there is no version. Takes no memory.
    pub fn is_empty(&self) -> bool
        ensures { IsTrue result ↔ (self.now ≡ []) }
    {
        self.versions.is_empty()
    }

    /// The clock and word of the version at place `i`, counted from 0 in the order of the versions,
    /// and nothing past the last. Takes no memory.
    pub fn at(&self, i: usize) -> Option<(&Clock, &Word)>
        ensures { option_map version_of result ≡ slice_get self.now i }
    {
        let entry = self.versions.get(i)?;
        Some((&entry.0.clock, &entry.0.word))
    }

    /// The clocks and words of the versions, in order. Takes no memory.
    pub fn iter(&self) -> VersionsIter<'_>
        ensures { result ≡ self.now }
    {
        VersionsIter {
            versions: self.versions.as_slice(),
        }
    }
}

/// The clocks and words of versions that are still to come, in order. Contracts see the list of the
/// versions.
#[derive(Drop)]
pub struct VersionsIter<'a> {
    versions: &'a [(Version, Member)],
}

impl<'a> Model for VersionsIter<'a> {
    ghost use Rattle.std.specs.Prelude.{List, map};
    ghost use Rattle.version_antichain.specs.declared.version.Version.{Version};

    ghost Value = { List Version };

    ghost view = { λ iter. map (λ entry. entry.0) iter.versions.now };
}

impl<'a> Iterator for VersionsIter<'a> {
    type Item = (&'a Clock, &'a Word);

    ghost next_gives = { YieldsFirstBy version_of (λ rest. rest) };

    ghost remaining = { item_count (λ rest. rest) };

    fn next(&mut self) -> Option<(&'a Clock, &'a Word)> {
        let (first, others) = self.versions.split_first()?;
        self.versions = others;
        Some((&first.0.clock, &first.0.word))
    }
}

impl<'a> IntoIterator for &'a Versions {
    type Item = (&'a Clock, &'a Word);

    type IntoIter = VersionsIter<'a>;

    ghost into_iter_gives = { λ versions iter. iter ≡ versions.now };

    fn into_iter(self) -> VersionsIter<'a> {
        self.iter()
    }
}

/// The maximal versions of the maximal versions of one set and of another set are those of both sets:
/// what was overtaken once stays so, whatever is merged first.
pub fn maximal_of_maximal()
    ensures { MaximalOfMaximal version_cmp IsVersion is_below }
{}

impl Lattice for Versions {
    ghost Plain = { List Version };

    ghost plain = { λ versions. versions };

    ghost is_value = { IsVersions };

    ghost fits = { λ _ _. ⊤ };

    ghost joined = { joined_versions };

    fn attest(&self) {
        let _versions = &self.versions;
    }

    fn join(&mut self, other: &Versions) -> Result<(), NoMemory> {
        let alloc = *self.versions.allocator();
        let mut all = join_entries(alloc, self.versions.as_slice(), other.versions.as_slice())?;
        drop_overtaken(&mut all);
        self.versions = all;
        Ok(())
    }

    fn copy(&self) -> Result<Versions, NoMemory> {
        Ok(Versions {
            versions: copy_entries(*self.versions.allocator(), self.versions.as_slice(), 0)?,
        })
    }

    fn at_most(&self, other: &Versions) -> bool {
        all_within(self.versions.as_slice(), other.versions.as_slice())
    }

    ghost laws = { versions_laws };

    ghost associative = { versions_associative };
}

impl AllFit for Versions {
    ghost all_fit = { λ _ _. tt };
}

// Drops each version whose clock is strictly below another's.
fn drop_overtaken(all: &mut Vec<(Version, Member)>)
    ensures { all.new.items ≡ maximal (λ entry other. is_below entry.0 other.0) all.old.items }
{
    let mut at = 0;
    while at < all.len() {
        if is_overtaken(&all[at].0, all) {
            all.remove(at);
        } else {
            at += 1;
        }
    }
}

// Whether each of the versions stands among the others, or was overtaken by one of them.
fn all_within(all: &[(Version, Member)], others: &[(Version, Member)]) -> bool
    ensures { result ≡ list_all (λ entry.
        list_any (λ other. eq_by_cmp version_cmp entry.0 other.0) others.now
        || list_any (λ other. is_below entry.0 other.0) others.now) all.now }
{
    all.iter().all(|entry| stands_among(&entry.0, others) || is_overtaken(&entry.0, others))
}

// Whether the version stands among the others.
fn stands_among(version: &Version, others: &[(Version, Member)]) -> bool
    ensures { result ≡ list_any (λ other. eq_by_cmp version_cmp version.now other.0) others.now }
{
    others.iter().any(|other| version.cmp(&other.0).is_eq())
}

// Whether the version's clock is strictly below that of one of the others.
fn is_overtaken(version: &Version, others: &[(Version, Member)]) -> bool
    ensures { result ≡ list_any (λ other. is_below version.now other.0) others.now }
{
    others
        .iter()
        .any(|other| is_below(&version.clock, &other.0.clock))
}

// Whether the version's clock is strictly below that of one of the others, or strictly above it.
fn is_ordered_with(version: &Version, others: &[(Version, Member)]) -> bool
    ensures { result ≡ list_any (λ other.
        is_below version.now other.0 || is_below other.0 version.now) others.now }
{
    others.iter().any(|other| {
        is_below(&version.clock, &other.0.clock) || is_below(&other.0.clock, &version.clock)
    })
}

// Whether the clock is strictly below the other.
fn is_below(clock: &Clock, other: &Clock) -> bool
    ensures { result ≡ clocks.is_below clock.now other.now }
{
    other.covers(clock) && !clock.covers(other)
}
