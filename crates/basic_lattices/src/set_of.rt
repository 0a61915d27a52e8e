//! Sets.
ghost use Rattle.std.specs.Prelude.{◌≡◌, ◌↔◌, ◌||◌, List, [], length, not, slice_get, IsTrue, OnOk, OnErr, IfOk, ⊤};
ghost use Rattle.std.specs.Option.{option_map};
ghost use Rattle.std.specs.Iterator.{YieldsFirstBy, item_count};
ghost use Rattle.lattice_laws.specs.Entries.{IsPushed};
ghost use Rattle.lattice_laws.specs.Sets.{IsSet, has, with_member, united};
ghost use Rattle.lattice_laws.specs.SetsLaws.{set_laws, set_associative};

use crate::{MapIter, MapOf, Word};
use lattice_laws::{AllFit, Lattice, MapKey, Member, NoMemory};
use std::alloc::Global;
use std::marker::Model;

/// A set; a merge is the union. Contracts see the members in order.
#[derive(Debug, Drop)]
pub struct SetOf<K: MapKey> {
    members: MapOf<K, Member>,
}

impl<K: MapKey> Model for SetOf<K> {
    ghost use Rattle.std.specs.Prelude.{List};
    ghost use Rattle.lattice_laws.specs.Entries.{plain_entries};
    ghost use Rattle.lattice_laws.specs.Sets.{keys_of};

    ghost Value = { List K };

    ghost view = { λ set. keys_of (plain_entries (λ _. tt) set.members) };
}

/// A set of words.
pub type TextSet = SetOf<Word>;

impl<K: MapKey> SetOf<K> {
    /// The empty set. Takes no memory.
    pub fn new(alloc: Global) -> SetOf<K>
        ensures { result ≡ [] }
    {
        SetOf {
            members: MapOf::new(alloc),
        }
    }

    /// Where it takes its memory.
    pub fn alloc(&self) -> Global {
        self.members.alloc()
    }

    /// Puts the member into the set, and answers whether it is new there. After `NoMemory` the set is
    /// as before.
    pub fn insert(&mut self, member: K) -> Result<bool, NoMemory>
        ensures ok { OnOk result (self.new ≡ with_member K.cmp member self.old) }
        ensures is_new { IfOk result (λ is_new. is_new ≡ not (has K.cmp member self.old)) }
        ensures err { OnErr result (self.new ≡ self.old) }
    {
        let is_new = !self.has(&member);
        self.members.raise(member, Member)?;
        Ok(is_new)
    }

    /// Adds a member after the others, and answers whether it comes after them in their order; else
    /// the set is left as before, and after `NoMemory` too. Takes constant time on average.
    pub fn push(&mut self, member: K) -> Result<bool, NoMemory>
        ensures pushed { IfOk result (IsPushed (IsSet K.cmp K.is_key) self.old member self.new) }
        ensures err { OnErr result (self.new ≡ self.old) }
    {
        self.members.push(member, Member)
    }

    /// Whether the member is in the set. Takes no memory.
    pub fn has(&self, member: &K) -> bool
        ensures { result ≡ has K.cmp member.now self.now }
    {
        self.members.get(member).is_some()
    }

    /// How many members there are. Takes no memory.
    pub fn len(&self) -> usize
        ensures { result ≡ length self.now }
    {
        self.members.len()
    }

    /// Whether there is no member. Takes no memory.
    pub fn is_empty(&self) -> bool
        ensures { IsTrue result ↔ (self.now ≡ []) }
    {
        self.members.is_empty()
    }

    /// The member at place `i`, counted from 0 in their order, and nothing past the last. Takes no
    /// memory.
    pub fn at(&self, i: usize) -> Option<&K>
        ensures { option_map (λ member. member.now) result ≡ slice_get self.now i }
    {
        let (member, _) = self.members.at(i)?;
        Some(member)
    }

    /// The members, in order. Takes no memory.
    pub fn iter(&self) -> SetIter<'_, K>
        ensures { result ≡ self.now }
    {
        SetIter {
            members: self.members.iter(),
        }
    }
}

/// The members of a set that are still to come, in order. Contracts see the list of them.
#[derive(Drop)]
pub struct SetIter<'a, K> {
    members: MapIter<'a, K, Member>,
}

impl<'a, K> Model for SetIter<'a, K> {
    ghost use Rattle.std.specs.Prelude.{List};
    ghost use Rattle.lattice_laws.specs.Entries.{plain_entries};
    ghost use Rattle.lattice_laws.specs.Sets.{keys_of};

    ghost Value = { List K };

    ghost view = { λ iter. keys_of (plain_entries (λ _. tt) iter.members) };
}

impl<'a, K> Iterator for SetIter<'a, K> {
    type Item = &'a K;

    ghost next_gives = { YieldsFirstBy (λ member. member.now) (λ rest. rest) };

    ghost remaining = { item_count (λ rest. rest) };

    fn next(&mut self) -> Option<&'a K> {
        let (member, _) = self.members.next()?;
        Some(member)
    }
}

impl<'a, K: MapKey> IntoIterator for &'a SetOf<K> {
    type Item = &'a K;

    type IntoIter = SetIter<'a, K>;

    ghost into_iter_gives = { λ set iter. iter ≡ set.now };

    fn into_iter(self) -> SetIter<'a, K> {
        self.iter()
    }
}

/// A member is in the union of two sets exactly where it is in one of them.
pub fn union_is_pointwise<K: MapKey>()
    ensures { (a b : List K) (q : K) → IsSet K.cmp K.is_key a → IsSet K.cmp K.is_key b
        → has K.cmp q (united K.cmp a b) ≡ (has K.cmp q a || has K.cmp q b) }
{}

impl<K: MapKey> Lattice for SetOf<K> {
    ghost Plain = { List K };

    ghost plain = { λ set. set };

    ghost is_value = { IsSet K.cmp K.is_key };

    ghost fits = { λ _ _. ⊤ };

    ghost joined = { united K.cmp };

    fn attest(&self) {
        self.members.attest();
    }

    fn join(&mut self, other: &SetOf<K>) -> Result<(), NoMemory> {
        self.members.join(&other.members)
    }

    fn copy(&self) -> Result<SetOf<K>, NoMemory> {
        Ok(SetOf {
            members: self.members.copy()?,
        })
    }

    fn at_most(&self, other: &SetOf<K>) -> bool {
        self.members.at_most(&other.members)
    }

    ghost laws = { set_laws K.total K.exact K.is_key };

    ghost associative = { set_associative K.total K.exact K.is_key };
}

impl<K: MapKey> AllFit for SetOf<K> {
    ghost all_fit = { λ _ _. tt };
}
