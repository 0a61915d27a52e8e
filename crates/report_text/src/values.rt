//! Values, written to a text.
ghost use Rattle.std.specs.Prelude.{◌≤◌, length, map, codes, decimal, if◌then◌else◌};
ghost use Rattle.std.specs.List.{join_with_byte};
ghost use Rattle.outside.specs.Gathering.{Adds};
ghost use Rattle.report_lines.specs.Text.{braced, field_text, fields_text, stamped_text, clocked_text, each_version_text, versions_word, sum_text, sums_text, counter_word, insert_text, inserts_text, removals_text, or_set_word, value_word};
ghost use Rattle.session_known.specs.Form.{HasFewDots};

use crate::clocks::{write_clock, write_count, write_session};
use crate::pieces::{write_number, write_separator};
use basic_lattices::{FieldMax, Flag, MaxNum, Stamped, TextSet, Word};
use clock_lattice::Clock;
use composed_value::Value;
use dot_lattices::{DotSet, DotSums};
use lattice_laws::Maybe;
use script_reader::outside::{Out, Sink};
use session_known::Script;
use version_antichain::Versions;

// ---- words and numbers

/// Writes a word.
fn write_word<K: Sink>(out: &mut Out<'_, K>, word: &Word)
    ensures { Adds K.written K.faults out.old out.new word.now }
{
    out.write(word.as_bytes());
}

/// Writes the greatest number that was put.
fn write_greatest<K: Sink>(out: &mut Out<'_, K>, number: &MaxNum)
    ensures { Adds K.written K.faults out.old out.new (decimal number.now) }
{
    write_number(out, number.0);
}

/// Writes whether a flag is on.
fn write_flag<K: Sink>(out: &mut Out<'_, K>, flag: &Flag)
    ensures { Adds K.written K.faults out.old out.new
        (if flag.now then codes "on" else codes "none") }
{
    if flag.0 {
        out.write(b"on")
    } else {
        out.write(b"none")
    }
}

// ---- sets

/// Writes the words of a set between commas.
fn write_words<K: Sink>(out: &mut Out<'_, K>, words: &TextSet)
    ensures { Adds K.written K.faults out.old out.new (join_with_byte 44 words.now) }
{
    for i in 0..words.len() {
        let Some(word) = words.at(i) else {
            unreachable!()
        };
        write_separator(out, i, b',');
        write_word(out, word);
    }
}

/// Writes a set of words.
#[tactic(auto, using(crate::proofs::WritesLemmas::parts))]
fn write_set<K: Sink>(out: &mut Out<'_, K>, words: &TextSet)
    ensures { Adds K.written K.faults out.old out.new (braced words.now) }
{
    if words.is_empty() {
        out.write(b"none");
    } else {
        out.write(b"{");
        write_words(out, words);
        out.write(b"}");
    }
}

// ---- maps

/// Writes a field with its number, `FIELD=NUMBER`.
#[tactic(auto, using(crate::proofs::WritesLemmas::parts))]
fn write_field<K: Sink>(out: &mut Out<'_, K>, field: &Word, number: &MaxNum)
    ensures { Adds K.written K.faults out.old out.new (field_text (field.now, number.now)) }
{
    write_word(out, field);
    out.write(b"=");
    write_greatest(out, number);
}

/// Writes the fields of a map between commas.
fn write_fields<K: Sink>(out: &mut Out<'_, K>, fields: &FieldMax)
    ensures { Adds K.written K.faults out.old out.new
        (fields_text fields.now) }
{
    for i in 0..fields.len() {
        let Some((field, number)) = fields.at(i) else {
            unreachable!()
        };
        write_separator(out, i, b',');
        write_field(out, field, number);
    }
}

/// Writes a map.
#[tactic(auto, using(crate::proofs::WritesLemmas::parts))]
fn write_map<K: Sink>(out: &mut Out<'_, K>, fields: &FieldMax)
    ensures { Adds K.written K.faults out.old out.new (braced (map field_text fields.now)) }
{
    if fields.is_empty() {
        out.write(b"none");
    } else {
        out.write(b"{");
        write_fields(out, fields);
        out.write(b"}");
    }
}

// ---- stamped words

/// Writes a stamped word, `WORD/NUMBER/SESSION/PLACE`.
fn write_stamped<K: Sink>(out: &mut Out<'_, K>, script: &Script, stamped: &Stamped)
    ensures { Adds K.written K.faults out.old out.new (stamped_text script.now stamped.now) }
{
    write_word(out, &stamped.word);
    out.write(b"/");
    write_number(out, stamped.number);
    out.write(b"/");
    write_session(out, script, stamped.session);
    out.write(b"/");
    write_number(out, stamped.place);
}

// ---- words with clocks

/// Writes a word with a clock, `WORD(CLOCK)`.
#[tactic(auto, using(crate::proofs::WritesLemmas::parts))]
fn write_clocked<K: Sink>(out: &mut Out<'_, K>, script: &Script, word: &Word, clock: &Clock)
    ensures { Adds K.written K.faults out.old out.new
        (clocked_text script.now word.now clock.now) }
{
    write_word(out, word);
    out.write(b"(");
    write_clock(out, script, clock);
    out.write(b")");
}

// ---- versions

/// Writes versions between vertical bars.
fn write_each_version<K: Sink>(out: &mut Out<'_, K>, script: &Script, versions: &Versions)
    ensures { Adds K.written K.faults out.old out.new
        (each_version_text script.now versions.now) }
{
    for i in 0..versions.len() {
        let Some((clock, word)) = versions.at(i) else {
            unreachable!()
        };
        write_separator(out, i, b'|');
        write_clocked(out, script, word, clock);
    }
}

/// Writes the versions of a register.
fn write_versions<K: Sink>(out: &mut Out<'_, K>, script: &Script, versions: &Versions)
    ensures { Adds K.written K.faults out.old out.new (versions_word script.now versions.now) }
{
    if versions.is_empty() {
        out.write(b"none");
    } else {
        write_each_version(out, script, versions);
    }
}

// ---- counters

/// Writes a dot with what was added and taken there, `SESSION:NUMBER+ADDED-TAKEN`.
#[tactic(auto, using(crate::proofs::WritesLemmas::parts))]
fn write_sum<K: Sink>(
    out: &mut Out<'_, K>,
    script: &Script,
    session: u16,
    number: u64,
    added: u32,
    taken: u32,
)
    ensures { Adds K.written K.faults out.old out.new (sum_text script.now
        (record { session = session; number = number }, record { added = added; taken = taken })) }
{
    write_count(out, script, session, number);
    out.write(b"+");
    write_number(out, added);
    out.write(b"-");
    write_number(out, taken);
}

/// Writes the dots of a counter between commas.
fn write_sums<K: Sink>(out: &mut Out<'_, K>, script: &Script, sums: &DotSums)
    ensures { Adds K.written K.faults out.old out.new (sums_text script.now sums.now) }
{
    for i in 0..sums.len() {
        let Some((session, number, added, taken)) = sums.at(i) else {
            unreachable!()
        };
        write_separator(out, i, b',');
        write_sum(out, script, session, number, added, taken);
    }
}

/// Writes a counter, its total first.
#[tactic(auto, using(crate::proofs::WritesLemmas::parts))]
fn write_counter<K: Sink>(out: &mut Out<'_, K>, script: &Script, sums: &DotSums)
    requires { length sums.now ≤ 4096 }
    ensures { Adds K.written K.faults out.old out.new (counter_word script.now sums.now) }
{
    if sums.is_empty() {
        out.write(b"none");
    } else {
        write_number(out, sums.total());
        out.write(b"{");
        write_sums(out, script, sums);
        out.write(b"}");
    }
}

// ---- sets with removal

/// Writes an insert, `WORD@SESSION:NUMBER`.
#[tactic(auto, using(crate::proofs::WritesLemmas::parts))]
fn write_insert<K: Sink>(
    out: &mut Out<'_, K>,
    script: &Script,
    word: &Word,
    session: u16,
    number: u64,
)
    ensures { Adds K.written K.faults out.old out.new (insert_text script.now
        (record { word = word.now; dot = record { session = session; number = number } })) }
{
    write_word(out, word);
    out.write(b"@");
    write_count(out, script, session, number);
}

/// Writes the inserts of a set between commas.
fn write_inserts<K: Sink>(out: &mut Out<'_, K>, script: &Script, set: &DotSet)
    ensures { Adds K.written K.faults out.old out.new
        (inserts_text script.now set.now.inserts) }
{
    for i in 0..set.inserts() {
        let Some((word, session, number)) = set.insert_at(i) else {
            unreachable!()
        };
        write_separator(out, i, b',');
        write_insert(out, script, word, session, number);
    }
}

/// Writes the removed words of a set between commas.
fn write_removals<K: Sink>(out: &mut Out<'_, K>, script: &Script, set: &DotSet)
    ensures { Adds K.written K.faults out.old out.new
        (removals_text script.now set.now.removals) }
{
    for i in 0..set.removals() {
        let Some((word, seen)) = set.removal_at(i) else {
            unreachable!()
        };
        write_separator(out, i, b',');
        write_clocked(out, script, word, seen);
    }
}

/// Writes a set with removal.
#[tactic(auto, using(crate::proofs::WritesLemmas::parts))]
fn write_or_set<K: Sink>(out: &mut Out<'_, K>, script: &Script, set: &DotSet)
    ensures { Adds K.written K.faults out.old out.new
        (or_set_word script.now set.now.inserts set.now.removals) }
{
    if set.inserts() == 0 && set.removals() == 0 {
        out.write(b"none");
    } else {
        out.write(b"{");
        write_inserts(out, script, set);
        out.write(b";");
        write_removals(out, script, set);
        out.write(b"}");
    }
}

// ---- all

/// Writes a value.
pub(crate) fn write_value<K: Sink>(out: &mut Out<'_, K>, script: &Script, value: &Value)
    requires { HasFewDots value.now }
    ensures { Adds K.written K.faults out.old out.new (value_word script.now value.now) }
{
    match value {
        Value::Max(Maybe::Bottom) | Value::Last(Maybe::Bottom) => out.write(b"none"),
        Value::Max(Maybe::Is(number)) => write_greatest(out, number),
        Value::Or(flag) => write_flag(out, flag),
        Value::Set(words) => write_set(out, words),
        Value::Map(fields) => write_map(out, fields),
        Value::Last(Maybe::Is(stamped)) => write_stamped(out, script, stamped),
        Value::Versions(versions) => write_versions(out, script, versions),
        Value::Counter(sums) => write_counter(out, script, sums),
        Value::OrSet(set) => write_or_set(out, script, set),
    }
}
