//! Sets that observed removes take from.
ghost use Rattle.std.specs.Prelude.{◌≡◌, ◌≤◌, ◌||◌, [], length, slice_get, unwrap_or, IfOk, MatchOption, ⊤};
ghost use Rattle.std.specs.List.{list_all};
ghost use Rattle.std.specs.FinMap.{find};
ghost use Rattle.std.specs.Option.{option_map};
ghost use Rattle.basic_lattices.specs.Word.{word_cmp};
ghost use Rattle.dot_lattices.specs.Dot.{counts};
ghost use Rattle.lattice_laws.specs.Entries.{plain_entries};
ghost use Rattle.lattice_laws.specs.Sets as sets;
ghost use Rattle.dot_lattices.specs.DotSet.{is_seen, unseen_by, AreLesser, AreUnseen, IsDotSet, joined_dot_sets, no_inserts, one_insert, one_remove, parts_of, has, insert_lent, removal_lent};
ghost use Rattle.dot_lattices.specs.DotSetLaws.{dot_set_laws, dot_set_associative};
ghost use Rattle.dot_lattices.specs.Insert.{insert_cmp};

use crate::{Dot, Insert};
use basic_lattices::{MapOf, SetOf, Word};
use clock_lattice::{Clock, SomeClock};
use lattice_laws::{AllFit, Lattice, MapKey, NoMemory};
use std::alloc::Global;
use std::cmp::Ordering;
use std::marker::Model;

/// A set of words that can be removed: a remove takes away the inserts of its word that its session had
/// seen, and no others. The set has the inserts that are there, and for each removed word the clock of
/// all that its removes had seen, which takes away an insert that comes late. A merge joins the clocks,
/// and keeps of the inserts of both those that the joined clocks do not count. Contracts see the inserts
/// and the removals in order.
#[derive(Debug, Drop)]
pub struct DotSet {
    inserts: SetOf<Insert>,
    removals: MapOf<Word, SomeClock>,
}

impl Model for DotSet {
    ghost use Rattle.lattice_laws.specs.Entries.{plain_entries};
    ghost use Rattle.dot_lattices.specs.DotSet.{PlainDotSet, AreUnseen};

    ghost Value = { PlainDotSet };

    ghost view = { λ set. record { inserts = set.inserts; removals = plain_entries (λ clock. clock) set.removals } };

    ghost invariant = { λ set. AreUnseen (record { inserts = set.inserts; removals = plain_entries (λ clock. clock) set.removals }) };
}

impl DotSet {
    /// The set of no put. Takes no memory.
    pub fn new(alloc: Global) -> DotSet
        ensures { result ≡ no_inserts }
    {
        DotSet {
            inserts: SetOf::new(alloc),
            removals: MapOf::new(alloc),
        }
    }

    /// The set of one insert, by its session and its number, which is at least 1.
    pub fn insert(alloc: Global, word: Word, session: u16, number: u64) -> Result<DotSet, NoMemory>
        requires { 1 ≤ number }
        ensures { IfOk result (λ set. set
            ≡ one_insert word (record { session = session; number = number })) }
    {
        let mut inserts = SetOf::new(alloc);
        inserts.insert(Insert {
            word,
            dot: Dot { session, number },
        })?;
        Ok(DotSet {
            inserts,
            removals: MapOf::new(alloc),
        })
    }

    /// The set of one remove, of what its session had seen; the empty set where that is nothing.
    pub fn remove(alloc: Global, word: Word, seen: Clock) -> Result<DotSet, NoMemory>
        ensures { IfOk result (λ set. set ≡ one_remove word seen) }
    {
        let mut removals = MapOf::new(alloc);
        if !seen.is_empty() {
            removals.raise(word, SomeClock::of(seen))?;
        }
        Ok(DotSet {
            inserts: SetOf::new(alloc),
            removals,
        })
    }

    /// The set of these inserts and removals, or nothing where a remove had seen one of the inserts.
    /// Takes no memory, and for each insert a search by halves.
    pub fn of_parts(inserts: SetOf<Insert>, removals: MapOf<Word, SomeClock>) -> Option<DotSet>
        ensures { MatchOption result (AreUnseen (parts_of inserts removals) → ⊥)
            (λ set. set ≡ parts_of inserts removals) }
    {
        for i in 0..inserts.len() {
            let Some(insert) = inserts.at(i) else {
                unreachable!()
            };
            if had_seen(&removals, insert) {
                return None;
            }
        }
        Some(DotSet { inserts, removals })
    }

    /// Whether an insert of the word is there. Takes no memory, and a search by halves.
    pub fn has(&self, word: &Word) -> bool
        ensures { result ≡ has word.now self.now }
    {
        self.inserts.attest();
        let mut low = 0;
        let mut high = self.inserts.len();
        while low < high {
            let middle = low + (high - low) / 2;
            let Some(insert) = self.inserts.at(middle) else {
                unreachable!()
            };
            match insert.word.cmp(word) {
                Ordering::Less => low = middle + 1,
                Ordering::Equal => return true,
                Ordering::Greater => high = middle,
            }
        }
        false
    }

    /// How many inserts there are. Takes no memory.
    pub fn inserts(&self) -> usize
        ensures { result ≡ length self.now.inserts }
    {
        self.inserts.len()
    }

    /// The word, the session and the number of the insert at place `i`, counted from 0 in the order of
    /// words and then of dots, and nothing past the last. Takes no memory.
    pub fn insert_at(&self, i: usize) -> Option<(&Word, u16, u64)>
        ensures { option_map insert_lent result ≡ slice_get self.now.inserts i }
    {
        let insert = self.inserts.at(i)?;
        Some((&insert.word, insert.dot.session, insert.dot.number))
    }

    /// How many words were removed. Takes no memory.
    pub fn removals(&self) -> usize
        ensures { result ≡ length self.now.removals }
    {
        self.removals.len()
    }

    /// The removed word at place `i`, counted from 0 in the order of the words, with what its removes
    /// had seen, and nothing past the last. Takes no memory.
    pub fn removal_at(&self, i: usize) -> Option<(&Word, &Clock)>
        ensures { option_map removal_lent result ≡ slice_get self.now.removals i }
    {
        let (word, seen) = self.removals.at(i)?;
        Some((word, seen.clock()))
    }
}

/// Whether what the removes of a word had seen counts the dot.
fn is_counted(seen: Option<&SomeClock>, dot: &Dot) -> bool
    ensures { result ≡ counts (unwrap_or (option_map (λ clock. clock.now) seen.entry) []) dot.now }
{
    match seen {
        Some(seen) => dot.number <= seen.clock().count(dot.session),
        None => dot.number == 0,
    }
}

/// Whether the removes of its word had seen the insert.
fn had_seen(removals: &MapOf<Word, SomeClock>, insert: &Insert) -> bool
    ensures { result ≡ is_seen (plain_entries (λ clock. clock) removals.now) insert.now }
{
    is_counted(removals.get(&insert.word), &insert.dot)
}

/// What the removes of the word had seen, where the removals before this place are of lesser words; and the
/// first place whose removal is of no lesser one.
fn seen_from<'a>(
    removals: &'a MapOf<Word, SomeClock>,
    from: usize,
    word: &Word,
) -> (Option<&'a SomeClock>, usize)
    requires { AreLesser word.now from removals.now }
    ensures seen { option_map (λ clock. clock.now) result.0 ≡ find word_cmp word.now removals.now }
    ensures lesser { AreLesser word.now result.1 removals.now }
{
    removals.attest();
    for place in from..removals.len() {
        let Some((removed, seen)) = removals.at(place) else {
            unreachable!()
        };
        match removed.cmp(word) {
            Ordering::Less => {}
            Ordering::Equal => return (Some(seen), place),
            Ordering::Greater => return (None, place),
        }
    }
    (None, removals.len())
}

/// The inserts that the removes had not seen. Inserts and removals are passed once.
fn unseen(
    inserts: &SetOf<Insert>,
    removals: &MapOf<Word, SomeClock>,
) -> Result<SetOf<Insert>, NoMemory>
    ensures { IfOk result (λ unseen. unseen
        ≡ unseen_by (plain_entries (λ clock. clock) removals.now) inserts.now) }
{
    inserts.attest();
    let mut unseen = SetOf::new(inserts.alloc());
    let mut from = 0;
    for i in 0..inserts.len() {
        let Some(insert) = inserts.at(i) else {
            unreachable!()
        };
        let (seen, place) = seen_from(removals, from, &insert.word);
        from = place;
        if is_counted(seen, &insert.dot) {
            continue;
        }
        unseen.push(insert.copy()?)?;
    }
    Ok(unseen)
}

/// Whether each insert is in the set, or its removes had seen it.
fn are_known(inserts: &SetOf<Insert>, set: &DotSet) -> bool
    ensures { result ≡ list_all (λ insert. sets.has insert_cmp insert set.now.inserts
        || is_seen set.now.removals insert) inserts.now }
{
    for i in 0..inserts.len() {
        let Some(insert) = inserts.at(i) else {
            unreachable!()
        };
        if !set.inserts.has(insert) && !had_seen(&set.removals, insert) {
            return false;
        }
    }
    true
}

impl Lattice for DotSet {
    ghost use Rattle.dot_lattices.specs.DotSet.{PlainDotSet};

    ghost Plain = { PlainDotSet };

    ghost plain = { λ set. set };

    ghost is_value = { IsDotSet };

    ghost fits = { λ _ _. ⊤ };

    ghost joined = { joined_dot_sets };

    fn attest(&self) {
        self.inserts.attest();
        self.removals.attest();
    }

    fn join(&mut self, other: &DotSet) -> Result<(), NoMemory> {
        self.attest();
        other.attest();
        let more = unseen(&other.inserts, &self.removals)?;
        // Where the other has no removes nothing is taken away, and one insert goes into its place.
        if other.removals.is_empty() {
            self.inserts.join(&more)?;
            return Ok(());
        }
        let removals = self.removals.merged(&other.removals)?;
        let mut inserts = unseen(&self.inserts, &other.removals)?;
        inserts.join(&more)?;
        *self = DotSet { inserts, removals };
        Ok(())
    }

    fn copy(&self) -> Result<DotSet, NoMemory> {
        Ok(DotSet {
            inserts: self.inserts.copy()?,
            removals: self.removals.copy()?,
        })
    }

    fn at_most(&self, other: &DotSet) -> bool {
        self.attest();
        other.attest();
        self.removals.at_most(&other.removals) && are_known(&self.inserts, other)
    }

    ghost laws = { dot_set_laws };

    ghost associative = { dot_set_associative };
}

impl AllFit for DotSet {
    ghost all_fit = { λ _ _. tt };
}
