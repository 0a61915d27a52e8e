//! Names, clocks and needs, written to a text.
ghost use Rattle.std.specs.Prelude.{[], ◌∷◌};
ghost use Rattle.session_known.specs.Script.{key_name, session_name};
ghost use Rattle.report_lines.specs.Text.{count_text, counts_text, clock_word, need_text, each_need_text, needs_word, worker_word};
ghost use Rattle.outside.specs.Gathering.{Adds};
ghost use Rattle.report_text.specs.Writes.{AddsWords};

use crate::pieces::{write_number, write_separator};
use clock_lattice::{Clock, Needs};
use placement::Name;
use script_reader::outside::{Out, Sink};
use session_known::Script;

// ---- names

/// Writes a name.
pub(crate) fn write_name<K: Sink>(out: &mut Out<'_, K>, name: &Name)
    ensures { Adds K.written K.faults out.old out.new name.now }
{
    out.write(name.as_bytes());
}

/// Writes the name of a key.
pub(crate) fn write_key<K: Sink>(out: &mut Out<'_, K>, script: &Script, key: u16)
    ensures { Adds K.written K.faults out.old out.new (key_name script.now key) }
{
    out.write(script.key_name(key));
}

/// Writes the name of a session.
pub(crate) fn write_session<K: Sink>(out: &mut Out<'_, K>, script: &Script, session: u16)
    ensures { Adds K.written K.faults out.old out.new (session_name script.now session) }
{
    out.write(script.session_name(session));
}

/// Writes the name of a key after a space.
#[tactic(auto, using(crate::proofs::WritesLemmas::words))]
pub(crate) fn write_spaced_key<K: Sink>(out: &mut Out<'_, K>, script: &Script, key: u16)
    ensures { AddsWords K.Sink out.old out.new (key_name script.now key ∷ []) }
{
    out.write(b" ");
    write_key(out, script, key);
}

/// Writes the name of a session after a space.
#[tactic(auto, using(crate::proofs::WritesLemmas::words))]
pub(crate) fn write_spaced_session<K: Sink>(out: &mut Out<'_, K>, script: &Script, session: u16)
    ensures { AddsWords K.Sink out.old out.new (session_name script.now session ∷ []) }
{
    out.write(b" ");
    write_session(out, script, session);
}

/// Writes a worker, `@W`.
#[tactic(auto, using(crate::proofs::WritesLemmas::parts))]
fn write_worker<K: Sink>(out: &mut Out<'_, K>, worker: u16)
    ensures { Adds K.written K.faults out.old out.new (worker_word worker) }
{
    out.write(b"@");
    write_number(out, worker);
}

/// Writes a worker after a space, ` @W`.
#[tactic(auto, using(crate::proofs::WritesLemmas::words))]
pub(crate) fn write_spaced_worker<K: Sink>(out: &mut Out<'_, K>, worker: u16)
    ensures { AddsWords K.Sink out.old out.new (worker_word worker ∷ []) }
{
    out.write(b" ");
    write_worker(out, worker);
}

// ---- clocks

/// Writes a session with the number of its puts, `NAME:COUNT`.
#[tactic(auto, using(crate::proofs::WritesLemmas::parts))]
pub(crate) fn write_count<K: Sink>(out: &mut Out<'_, K>, script: &Script, session: u16, count: u64)
    ensures { Adds K.written K.faults out.old out.new (count_text script.now (session, count)) }
{
    write_session(out, script, session);
    out.write(b":");
    write_number(out, count);
}

/// Writes the counts of a clock between commas.
fn write_counts<K: Sink>(out: &mut Out<'_, K>, script: &Script, clock: &Clock)
    ensures { Adds K.written K.faults out.old out.new
        (counts_text script.now clock.now) }
{
    for i in 0..clock.len() {
        let Some((session, count)) = clock.at(i) else {
            unreachable!()
        };
        write_separator(out, i, b',');
        write_count(out, script, session, count);
    }
}

/// Writes a clock, as a dash where it counts nothing.
pub(crate) fn write_clock<K: Sink>(out: &mut Out<'_, K>, script: &Script, clock: &Clock)
    ensures { Adds K.written K.faults out.old out.new (clock_word script.now clock.now) }
{
    if clock.is_empty() {
        out.write(b"-");
    } else {
        write_counts(out, script, clock);
    }
}

// ---- needs

/// Writes a key with the clock that is needed of it, `KEY{CLOCK}`.
#[tactic(auto, using(crate::proofs::WritesLemmas::parts))]
fn write_need<K: Sink>(out: &mut Out<'_, K>, script: &Script, key: u16, clock: &Clock)
    ensures { Adds K.written K.faults out.old out.new (need_text script.now (key, clock.now)) }
{
    write_key(out, script, key);
    out.write(b"{");
    write_clock(out, script, clock);
    out.write(b"}");
}

/// Writes the clocks that are needed of keys between commas.
fn write_each_need<K: Sink>(out: &mut Out<'_, K>, script: &Script, needs: &Needs)
    ensures { Adds K.written K.faults out.old out.new
        (each_need_text script.now needs.now) }
{
    for i in 0..needs.len() {
        let Some((key, clock)) = needs.at(i) else {
            unreachable!()
        };
        write_separator(out, i, b',');
        write_need(out, script, key, clock);
    }
}

/// Writes needs, as a dash where nothing is needed.
pub(crate) fn write_needs<K: Sink>(out: &mut Out<'_, K>, script: &Script, needs: &Needs)
    ensures { Adds K.written K.faults out.old out.new (needs_word script.now needs.now) }
{
    if needs.is_empty() {
        out.write(b"-");
    } else {
        write_each_need(out, script, needs);
    }
}
