//! Clocks and needs, read.
ghost use Rattle.std.specs.Prelude.{IfOk};
ghost use Rattle.session_known.specs.Form.{IsClockIn, AreNeedsIn};
ghost use Rattle.session_known.specs.Script.{IsValid};
ghost use Rattle.report_lines.specs.Parts.{IsClockedIn, IsCounted};
ghost use Rattle.report_reader.specs.ReadClocks.{open_clocked, IsNeedIn, open_need};
ghost use Rattle.report_reader.specs.ReadRows.{IsRow};
ghost use Rattle.report_reader.specs.Reads.{Reads};
ghost use Rattle.report_lines.specs.Text.{count_text, counts_text, clock_word, each_need_text, needs_word};

use crate::words::{cut_at, pieces_of, read_key, read_number, read_session, read_word};
use basic_lattices::Word;
use clock_lattice::{Clock, Needs};
use lattice_laws::{Lattice, NoMemory};
use session_known::Script;
use std::alloc::Global;

// ---- clocks

/// Reads a clock.
pub(crate) fn read_clock(
    alloc: Global,
    script: &Script,
    text: &[u8],
) -> Result<Option<Clock>, NoMemory>
    requires { IsValid script.now }
    ensures { IfOk result (Reads (IsClockIn script.now) (clock_word script.now) text.now) }
{
    if text == b"-".as_slice() {
        return Ok(Some(Clock::new(alloc)));
    }
    read_counts(alloc, script, text)
}

/// Reads the entries of a clock, of which there are some, between commas.
fn read_counts(alloc: Global, script: &Script, text: &[u8]) -> Result<Option<Clock>, NoMemory>
    requires { IsValid script.now }
    ensures { IfOk result (Reads (IsRow (IsClockIn script.now))
        (counts_text script.now) text.now) }
{
    let pieces = pieces_of(alloc, text, b',')?;
    let mut clock = Clock::new(alloc);
    for piece in &pieces {
        let Some((session, count)) = read_count(script, piece) else {
            return Ok(None);
        };
        if !clock.push(session, count)? {
            return Ok(None);
        }
    }
    clock.attest();
    Ok(Some(clock))
}

/// Reads a session with a count.
pub(crate) fn read_count(script: &Script, text: &[u8]) -> Option<(u16, u64)>
    requires { IsValid script.now }
    ensures { Reads (IsCounted script.now) (count_text script.now) text.now result }
{
    let (name, digits) = cut_at(text, b':')?;
    let session = read_session(script, name)?;
    let count = read_number(digits)?;
    Some((session, count))
}

/// Reads a word with a clock, without the closing parenthesis, `WORD(CLOCK`.
pub(crate) fn read_clocked(
    alloc: Global,
    script: &Script,
    text: &[u8],
) -> Result<Option<(Word, Clock)>, NoMemory>
    requires { IsValid script.now }
    ensures { IfOk result (Reads (IsClockedIn script.now) (open_clocked script.now) text.now) }
{
    let Some((word, clock)) = cut_at(text, b'(') else {
        return Ok(None);
    };
    let Some(word) = read_word(word) else {
        return Ok(None);
    };
    let Some(clock) = read_clock(alloc, script, clock)? else {
        return Ok(None);
    };
    Ok(Some((word, clock)))
}

// ---- needs

/// Reads needs.
pub(crate) fn read_needs(
    alloc: Global,
    script: &Script,
    text: &[u8],
) -> Result<Option<Needs>, NoMemory>
    requires { IsValid script.now }
    ensures { IfOk result (Reads (AreNeedsIn script.now) (needs_word script.now) text.now) }
{
    if text == b"-".as_slice() {
        return Ok(Some(Needs::new(alloc)));
    }
    read_each_need(alloc, script, text)
}

/// Reads the entries of needs, of which there are some, between commas: each ends with its brace.
fn read_each_need(alloc: Global, script: &Script, text: &[u8]) -> Result<Option<Needs>, NoMemory>
    requires { IsValid script.now }
    ensures { IfOk result (Reads (IsRow (AreNeedsIn script.now))
        (each_need_text script.now) text.now) }
{
    let mut needs = Needs::new(alloc);
    let mut rest = text;
    while let Some((entry, later)) = cut_at(rest, b'}') {
        let Some((key, clock)) = read_open(alloc, script, entry)? else {
            return Ok(None);
        };
        if !needs.push(key, clock)? {
            return Ok(None);
        }
        match later {
            [] => {
                needs.attest();
                return Ok(Some(needs));
            }
            [b',', more @ ..] => rest = more,
            _ => return Ok(None),
        }
    }
    Ok(None)
}

/// Reads a key with a clock, without the closing brace.
fn read_open(alloc: Global, script: &Script, text: &[u8]) -> Result<Option<(u16, Clock)>, NoMemory>
    requires { IsValid script.now }
    ensures { IfOk result (Reads (IsNeedIn script.now) (open_need script.now) text.now) }
{
    let Some((name, word)) = cut_at(text, b'{') else {
        return Ok(None);
    };
    let Some(key) = read_key(script, name) else {
        return Ok(None);
    };
    let Some(clock) = read_clock(alloc, script, word)? else {
        return Ok(None);
    };
    Ok(Some((key, clock)))
}
