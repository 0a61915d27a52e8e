//! Maps as slices and vectors of entries in the order of their keys, joined key by key.
//!
//! Contracts see entries through their plain values (`plain_entries`), and say with the words of
//! `specs/Entries.antt` which map comes out. Each call that reads two maps passes once over both.
ghost use Rattle.std.specs.Prelude.{◌≡◌, ◌↔◌, ◌≤◌, ◌<◌, ◌+◌, ◌∷◌, ◌++◌, [], length, All, IsTrue, IfOk, IfErr, OnOk, OnErr, MatchOption};
ghost use Rattle.std.specs.Option.{option_map};
ghost use Rattle.std.specs.FinMap.{find, is_sorted};
ghost use Rattle.lattice_laws.specs.Entries.{plain_entries, AreSame, IsEntry, IsPushed, AddsNothing, raised, joined_maps};
ghost use Rattle.lattice_laws.specs.Places.{IsPlaceOf, IsGapFor};
ghost use Rattle.lattice_laws.specs.Merging.{first_side, IsJoinStep, NeverAtMost, IsPassed};

use crate::{AllFit, MapKey, NoMemory, Shared};
use std::alloc::Global;
use std::cmp::Ordering;
use std::sync::Arc;

/// The value at a key, and nothing where the key is not there. Searches by halves.
pub fn find_entry<'a, K: MapKey, L: AllFit>(entries: &'a [(K, L)], key: &K) -> Option<&'a L>
    requires { IsTrue (is_sorted K.cmp (plain_entries L.plain entries.now)) }
    ensures { option_map (λ found. L.plain found.now) result
        ≡ find K.cmp key.now (plain_entries L.plain entries.now) }
{
    match place_of(entries, key) {
        Ok(at) => Some(&entries[at].1),
        Err(_) => None,
    }
}

/// Raises the value at a key by another: merges the other into it, or puts the other where the key
/// is new. After `NoMemory` the map is as before.
pub fn raise_entry<K: MapKey, L: AllFit>(
    entries: &mut Vec<(K, L)>,
    key: K,
    value: L,
) -> Result<(), NoMemory>
    requires { IsTrue (is_sorted K.cmp (plain_entries L.plain entries.old.items)) }
    ensures ok { OnOk result (plain_entries L.plain entries.new.items
        ≡ raised K.cmp L.joined key (L.plain value) (plain_entries L.plain entries.old.items)) }
    ensures err { OnErr result (AreSame L.plain entries.new.items entries.old.items) }
    ensures ascending { IsTrue (is_sorted K.cmp (plain_entries L.plain entries.new.items)) }
{
    match place_of(entries, &key) {
        Ok(at) => entries[at].1.join(&value),
        Err(at) => Ok(entries.insert(at, (key, value))?),
    }
}

/// Adds an entry after the others, and answers whether its key comes after theirs; else the map is
/// left as before, and after `NoMemory` too. Takes constant time on average.
pub fn push_entry<K: MapKey, L: AllFit>(
    entries: &mut Vec<(K, L)>,
    key: K,
    value: L,
) -> Result<bool, NoMemory>
    requires { IsTrue (is_sorted K.cmp (plain_entries L.plain entries.old.items)) }
    ensures pushed { IfOk result (IsPushed (λ entries. IsTrue (is_sorted K.cmp entries))
        (plain_entries L.plain entries.old.items)
        (key, L.plain value)
        (plain_entries L.plain entries.new.items)) }
    ensures err { OnErr result (AreSame L.plain entries.new.items entries.old.items) }
    ensures ascending { IsTrue (is_sorted K.cmp (plain_entries L.plain entries.new.items)) }
{
    if !comes_last(entries, &key) {
        return Ok(false);
    }
    entries.push((key, value))?;
    Ok(true)
}

/// Raises the value at a key of a map that copies share, as [`raise_entry`] does. Where it is shared, it is copied for
/// that.
pub fn raise_shared<K: MapKey, L: AllFit>(
    entries: &mut Shared<(K, L)>,
    key: K,
    value: L,
) -> Result<(), NoMemory>
    requires { IsTrue (is_sorted K.cmp (plain_entries L.plain entries.old)) }
    ensures ok { OnOk result (plain_entries L.plain entries.new
        ≡ raised K.cmp L.joined key (L.plain value) (plain_entries L.plain entries.old)) }
    ensures err { OnErr result (AreSame L.plain entries.new entries.old) }
    ensures ascending { IsTrue (is_sorted K.cmp (plain_entries L.plain entries.new)) }
{
    if let Some(items) = &mut entries.items[0] {
        if let Some(items) = Arc::get_mut(items) {
            return raise_entry(items, key, value);
        }
    }
    let mut copies = copy_entries(entries.alloc(), entries.as_slice(), 1)?;
    raise_entry(&mut copies, key, value)?;
    *entries = Shared::of(copies)?;
    Ok(())
}

/// Adds an entry to a map that copies share, as [`push_entry`] does. Where it is shared, it is copied for that.
pub fn push_shared<K: MapKey, L: AllFit>(
    entries: &mut Shared<(K, L)>,
    key: K,
    value: L,
) -> Result<bool, NoMemory>
    requires { IsTrue (is_sorted K.cmp (plain_entries L.plain entries.old)) }
    ensures pushed { IfOk result (IsPushed (λ entries. IsTrue (is_sorted K.cmp entries))
        (plain_entries L.plain entries.old)
        (key, L.plain value)
        (plain_entries L.plain entries.new)) }
    ensures err { OnErr result (AreSame L.plain entries.new entries.old) }
    ensures ascending { IsTrue (is_sorted K.cmp (plain_entries L.plain entries.new)) }
{
    if !comes_last(entries.as_slice(), &key) {
        return Ok(false);
    }
    let Some(entry) = entries.push((key, value))? else {
        return Ok(true);
    };
    let mut copies = copy_entries(entries.alloc(), entries.as_slice(), 1)?;
    copies.push(entry)?;
    *entries = Shared::of(copies)?;
    Ok(true)
}

/// The join of two maps that copies share, which is one of them, without memory, where that holds all that the other
/// does.
pub fn join_shared<K: MapKey, L: AllFit>(
    mine: &Shared<(K, L)>,
    theirs: &Shared<(K, L)>,
) -> Result<Shared<(K, L)>, NoMemory>
    requires mine { IsTrue (is_sorted K.cmp (plain_entries L.plain mine.now)) }
    requires theirs { IsTrue (is_sorted K.cmp (plain_entries L.plain theirs.now)) }
    ensures joined { IfOk result (λ all. plain_entries L.plain all
        ≡ joined_maps K.cmp L.joined
        (plain_entries L.plain mine.now) (plain_entries L.plain theirs.now)) }
    ensures ascending { IfOk result
        (λ all. IsTrue (is_sorted K.cmp (plain_entries L.plain all))) }
{
    let of_mine = mine.as_slice();
    let of_theirs = theirs.as_slice();
    attest_entries(of_mine);
    attest_entries(of_theirs);
    if at_most_entries(of_theirs, of_mine) {
        let all = mine.share()?;
        Ok(all)
    } else if at_most_entries(of_mine, of_theirs) {
        theirs.share()
    } else {
        Shared::of(join_entries(mine.alloc(), of_mine, of_theirs)?)
    }
}

/// The join of two maps: at each key the join of what stands there in both.
pub fn join_entries<K: MapKey, L: AllFit>(
    alloc: Global,
    mine: &[(K, L)],
    theirs: &[(K, L)],
) -> Result<Vec<(K, L)>, NoMemory>
    requires mine { IsTrue (is_sorted K.cmp (plain_entries L.plain mine.now)) }
    requires theirs { IsTrue (is_sorted K.cmp (plain_entries L.plain theirs.now)) }
    ensures joined { IfOk result (λ all. plain_entries L.plain all.items
        ≡ joined_maps K.cmp L.joined
        (plain_entries L.plain mine.now) (plain_entries L.plain theirs.now)) }
    ensures ascending { IfOk result
        (λ all. IsTrue (is_sorted K.cmp (plain_entries L.plain all.items))) }
{
    let mut all = Vec::with_capacity(alloc, mine.len().max(theirs.len()))?;
    let mut of_mine = 0;
    let mut of_theirs = 0;
    while of_mine < mine.len() || of_theirs < theirs.len() {
        let (more, theirs_more) = push_first(&mut all, &mine[of_mine..], &theirs[of_theirs..])?;
        of_mine += more;
        of_theirs += theirs_more;
    }
    Ok(all)
}

/// Equal entries, with room for so many more.
pub fn copy_entries<K: MapKey, L: AllFit>(
    alloc: Global,
    entries: &[(K, L)],
    more: usize,
) -> Result<Vec<(K, L)>, NoMemory>
    ensures { IfOk result (λ copies. AreSame L.plain copies.items entries.now) }
{
    let mut copies = Vec::with_capacity(alloc, entries.len().saturating_add(more))?;
    for entry in entries {
        copies.push(copy_entry(entry)?)?;
    }
    Ok(copies)
}

/// Whether the other map holds all that this one holds: joining this one into it would change
/// nothing. Takes no memory.
pub fn at_most_entries<K: MapKey, L: AllFit>(mine: &[(K, L)], theirs: &[(K, L)]) -> bool
    requires mine { IsTrue (is_sorted K.cmp (plain_entries L.plain mine.now)) }
    requires theirs { IsTrue (is_sorted K.cmp (plain_entries L.plain theirs.now)) }
    ensures { IsTrue result ↔ AddsNothing K.cmp L.joined
        (plain_entries L.plain mine.now) (plain_entries L.plain theirs.now) }
{
    let mut found = 0;
    for entry in theirs {
        let Some(more) = passed(&mine[found..], entry) else {
            return false;
        };
        found += more;
    }
    found == mine.len()
}

/// Attests that the keys and values of a map are those of their types, which the laws have as their
/// premise. Does nothing when it runs.
pub fn attest_entries<K: MapKey, L: AllFit>(entries: &[(K, L)])
    ensures { All (IsEntry K.is_key L.is_value) (plain_entries L.plain entries.now) }
{
    for entry in entries {
        entry.0.attest();
        entry.1.attest();
    }
}

// Where the key stands, or where it would go.
fn place_of<K: MapKey, L: AllFit>(entries: &[(K, L)], key: &K) -> Result<usize, usize>
    requires { IsTrue (is_sorted K.cmp (plain_entries L.plain entries.now)) }
    ensures found { IfOk result (IsPlaceOf K.cmp key.now entries.now) }
    ensures absent { IfErr result (IsGapFor K.cmp key.now entries.now) }
{
    entries.binary_search_by(
        |entry| -> Ordering
            ensures { result ≡ K.cmp entry.now.0 key.entry.now }
        { entry.0.cmp(key) },
    )
}

// Whether the key comes after those of all entries.
fn comes_last<K: MapKey, L: AllFit>(entries: &[(K, L)], key: &K) -> bool
    requires { IsTrue (is_sorted K.cmp (plain_entries L.plain entries.now)) }
    ensures { (value : L.Plain)
        → result ≡ is_sorted K.cmp (plain_entries L.plain entries.now ++ (key.now, value) ∷ []) }
{
    match entries.last() {
        Some(last) => last.0.cmp(key).is_lt(),
        None => true,
    }
}

// Pushes the first entry of the join of two maps that are not both empty, and says how many entries
// of each it took.
fn push_first<K: MapKey, L: AllFit>(
    all: &mut Vec<(K, L)>,
    mine: &[(K, L)],
    theirs: &[(K, L)],
) -> Result<(usize, usize), NoMemory>
    requires mine { IsTrue (is_sorted K.cmp (plain_entries L.plain mine.now)) }
    requires theirs { IsTrue (is_sorted K.cmp (plain_entries L.plain theirs.now)) }
    requires some { 0 < length mine.now + length theirs.now }
    ensures { IfOk result (λ taken. IsJoinStep K.cmp L.joined
        (plain_entries L.plain all.old.items)
        (plain_entries L.plain mine.now)
        (plain_entries L.plain theirs.now)
        (plain_entries L.plain all.new.items)
        taken.0 taken.1) }
{
    match side_of_first(mine, theirs) {
        Ordering::Less => {
            all.push(copy_entry(&mine[0])?)?;
            Ok((1, 0))
        }
        Ordering::Equal => {
            all.push(join_entry(&mine[0], &theirs[0])?)?;
            Ok((1, 1))
        }
        Ordering::Greater => {
            all.push(copy_entry(&theirs[0])?)?;
            Ok((0, 1))
        }
    }
}

// Which of two maps has the first key of their join: `Less` for the first map, `Equal` for both.
fn side_of_first<K: MapKey, L: AllFit>(mine: &[(K, L)], theirs: &[(K, L)]) -> Ordering
    ensures { result
        ≡ first_side K.cmp (plain_entries L.plain mine.now) (plain_entries L.plain theirs.now) }
{
    if theirs.is_empty() {
        Ordering::Less
    } else if mine.is_empty() {
        Ordering::Greater
    } else {
        mine[0].0.cmp(&theirs[0].0)
    }
}

// An equal entry.
fn copy_entry<K: MapKey, L: AllFit>(entry: &(K, L)) -> Result<(K, L), NoMemory>
    ensures key { IfOk result (λ copy. copy.0 ≡ entry.now.0) }
    ensures value { IfOk result (λ copy. L.plain copy.1 ≡ L.plain entry.now.1) }
{
    Ok((entry.0.copy()?, entry.1.copy()?))
}

// An entry with the key of the first, and the join of the values.
fn join_entry<K: MapKey, L: AllFit>(mine: &(K, L), theirs: &(K, L)) -> Result<(K, L), NoMemory>
    ensures key { IfOk result (λ both. both.0 ≡ mine.now.0) }
    ensures value { IfOk result
        (λ both. L.plain both.1 ≡ L.joined (L.plain mine.now.1) (L.plain theirs.now.1)) }
{
    Ok((mine.0.copy()?, mine.1.merged(&theirs.1)?))
}

// How many of the entries, none or the first, the other map's first entry covers; nothing where the
// first can no longer be covered.
fn passed<K: MapKey, L: AllFit>(mine: &[(K, L)], entry: &(K, L)) -> Option<usize>
    ensures { MatchOption result
        (NeverAtMost K.cmp L.joined
        (plain_entries L.plain mine.now) (entry.now.0, L.plain entry.now.1))
        (IsPassed K.cmp L.joined
        (plain_entries L.plain mine.now) (entry.now.0, L.plain entry.now.1)) }
{
    let Some(first) = mine.first() else {
        return Some(0);
    };
    match first.0.cmp(&entry.0) {
        Ordering::Less => None,
        Ordering::Equal => first.1.at_most(&entry.1).then_some(1),
        Ordering::Greater => Some(0),
    }
}
