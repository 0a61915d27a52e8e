//! Counters and sets with removal, read.
ghost use Rattle.std.specs.Prelude.{IfOk};
ghost use Rattle.report_lines.specs.Parts.{IsSumIn, IsInsertIn};
ghost use Rattle.report_lines.specs.Text.{sum_text, sums_text, counter_word, insert_text, inserts_text, removals_text};
ghost use Rattle.report_reader.specs.ReadClocks.{open_clocked};
ghost use Rattle.report_reader.specs.ReadDots.{AreSumsIn, IsCounterIn, AreInsertsIn, IsRemovalIn, AreRemovalsIn, IsOrSetIn, set_word};
ghost use Rattle.report_reader.specs.ReadRows.{IsRow};
ghost use Rattle.report_reader.specs.Reads.{Reads};
ghost use Rattle.session_known.specs.Script.{IsValid};

use crate::clocks::{read_clocked, read_count};
use crate::words::{
    before_brace, cut_at, in_braces, is_none, is_written, pieces_of, read_small_number, read_word,
};
use basic_lattices::{MapOf, SetOf, Word};
use clock_lattice::SomeClock;
use dot_lattices::{Amounts, Dot, DotSet, DotSums, Insert};
use lattice_laws::{Lattice, NoMemory};
use session_known::Script;
use std::alloc::Global;

/// The most dots that a counter may have.
const MOST_DOTS: usize = 4096;

// ---- counters

/// Reads a counter: its total, which is the sum, and its dots in braces.
pub(crate) fn read_counter(
    alloc: Global,
    script: &Script,
    text: &[u8],
) -> Result<Option<DotSums>, NoMemory>
    requires { IsValid script.now }
    ensures { IfOk result (Reads (IsCounterIn script.now) (counter_word script.now) text.now) }
{
    if is_none(text) {
        return Ok(Some(DotSums::new(alloc)));
    }
    let Some((total, later)) = cut_at(text, b'{') else {
        return Ok(None);
    };
    let Some(dots) = before_brace(later) else {
        return Ok(None);
    };
    let Some(sums) = read_sums(alloc, script, dots)? else {
        return Ok(None);
    };
    if sums.len() > MOST_DOTS || !is_written(sums.total(), total) {
        return Ok(None);
    }
    Ok(Some(sums))
}

/// Reads the dots of a counter, of which there are some, between commas.
fn read_sums(alloc: Global, script: &Script, text: &[u8]) -> Result<Option<DotSums>, NoMemory>
    requires { IsValid script.now }
    ensures { IfOk result (Reads (IsRow (AreSumsIn script.now)) (sums_text script.now) text.now) }
{
    let pieces = pieces_of(alloc, text, b',')?;
    let mut sums = DotSums::new(alloc);
    for piece in &pieces {
        let Some((dot, amounts)) = read_sum(script, piece) else {
            return Ok(None);
        };
        if !sums.push(dot, amounts)? {
            return Ok(None);
        }
    }
    sums.attest();
    Ok(Some(sums))
}

/// Reads a dot with what was added and taken there, `SESSION:NUMBER+ADDED-TAKEN`.
fn read_sum(script: &Script, text: &[u8]) -> Option<(Dot, Amounts)>
    requires { IsValid script.now }
    ensures { Reads (IsSumIn script.now) (sum_text script.now) text.now result }
{
    let (dot, amounts) = cut_at(text, b'+')?;
    let (added, taken) = cut_at(amounts, b'-')?;
    let (session, number) = read_count(script, dot)?;
    let added = read_small_number(added)?;
    let taken = read_small_number(taken)?;
    Some((Dot { session, number }, Amounts { added, taken }))
}

// ---- sets with removal

/// Reads a set with removal: its inserts and its removals in braces.
pub(crate) fn read_or_set(
    alloc: Global,
    script: &Script,
    text: &[u8],
) -> Result<Option<DotSet>, NoMemory>
    requires { IsValid script.now }
    ensures { IfOk result (Reads (IsOrSetIn script.now) (set_word script.now) text.now) }
{
    if is_none(text) {
        return Ok(Some(DotSet::new(alloc)));
    }
    let Some(inner) = in_braces(text) else {
        return Ok(None);
    };
    let Some((inserts, removals)) = cut_at(inner, b';') else {
        return Ok(None);
    };
    let Some(inserts) = read_inserts(alloc, script, inserts)? else {
        return Ok(None);
    };
    let Some(removals) = read_removals(alloc, script, removals)? else {
        return Ok(None);
    };
    if inserts.is_empty() && removals.is_empty() {
        return Ok(None);
    }
    let Some(set) = DotSet::of_parts(inserts, removals) else {
        return Ok(None);
    };
    set.attest();
    Ok(Some(set))
}

/// Reads the inserts of a set between commas.
fn read_inserts(
    alloc: Global,
    script: &Script,
    text: &[u8],
) -> Result<Option<SetOf<Insert>>, NoMemory>
    requires { IsValid script.now }
    ensures { IfOk result (Reads (AreInsertsIn script.now) (inserts_text script.now) text.now) }
{
    if text.is_empty() {
        return Ok(Some(SetOf::new(alloc)));
    }
    read_each_insert(alloc, script, text)
}

/// Reads inserts, of which there are some, between commas.
fn read_each_insert(
    alloc: Global,
    script: &Script,
    text: &[u8],
) -> Result<Option<SetOf<Insert>>, NoMemory>
    requires { IsValid script.now }
    ensures { IfOk result (Reads (IsRow (AreInsertsIn script.now))
        (inserts_text script.now) text.now) }
{
    let pieces = pieces_of(alloc, text, b',')?;
    let mut inserts = SetOf::new(alloc);
    for piece in &pieces {
        let Some(insert) = read_insert(script, piece) else {
            return Ok(None);
        };
        if !inserts.push(insert)? {
            return Ok(None);
        }
    }
    inserts.attest();
    Ok(Some(inserts))
}

/// Reads an insert, `WORD@SESSION:NUMBER`.
fn read_insert(script: &Script, text: &[u8]) -> Option<Insert>
    requires { IsValid script.now }
    ensures { Reads (IsInsertIn script.now) (insert_text script.now) text.now result }
{
    let (word, dot) = cut_at(text, b'@')?;
    let (session, number) = read_count(script, dot)?;
    let word = read_word(word)?;
    Some(Insert {
        word,
        dot: Dot { session, number },
    })
}

/// Reads the removed words of a set between commas.
fn read_removals(
    alloc: Global,
    script: &Script,
    text: &[u8],
) -> Result<Option<MapOf<Word, SomeClock>>, NoMemory>
    requires { IsValid script.now }
    ensures { IfOk result (Reads (AreRemovalsIn script.now) (removals_text script.now) text.now) }
{
    if text.is_empty() {
        return Ok(Some(MapOf::new(alloc)));
    }
    read_each_removal(alloc, script, text)
}

/// Reads removed words, of which there are some, between commas: each ends with its parenthesis.
fn read_each_removal(
    alloc: Global,
    script: &Script,
    text: &[u8],
) -> Result<Option<MapOf<Word, SomeClock>>, NoMemory>
    requires { IsValid script.now }
    ensures { IfOk result (Reads (IsRow (AreRemovalsIn script.now))
        (removals_text script.now) text.now) }
{
    let mut removals = MapOf::new(alloc);
    let mut rest = text;
    while let Some((entry, later)) = cut_at(rest, b')') {
        let Some((word, seen)) = read_removal(alloc, script, entry)? else {
            return Ok(None);
        };
        if !removals.push(word, seen)? {
            return Ok(None);
        }
        match later {
            [] => {
                removals.attest();
                return Ok(Some(removals));
            }
            [b',', more @ ..] => rest = more,
            _ => return Ok(None),
        }
    }
    Ok(None)
}

/// Reads a removed word with what its removes had seen, without the closing parenthesis.
fn read_removal(
    alloc: Global,
    script: &Script,
    text: &[u8],
) -> Result<Option<(Word, SomeClock)>, NoMemory>
    requires { IsValid script.now }
    ensures { IfOk result (Reads (IsRemovalIn script.now) (open_clocked script.now) text.now) }
{
    let Some((word, seen)) = read_clocked(alloc, script, text)? else {
        return Ok(None);
    };
    if seen.is_empty() {
        return Ok(None);
    }
    Ok(Some((word, SomeClock::of(seen))))
}
