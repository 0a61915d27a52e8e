//! Lines of answers, written to a text.
ghost use Rattle.std.specs.Prelude.{[], ◌∷◌, codes, decimal};
ghost use Rattle.session_known.specs.Form.{HasFewDots};
ghost use Rattle.session_known.specs.Script.{key_name};
ghost use Rattle.report_lines.specs.Text.{shown_words, needs_words, again_words, gave_up_words, put_words, awaited_words, number_at, commit_words, answer_words};
ghost use Rattle.report_text.specs.Writes.{MayAnswer, AddsWords, AddsLine};

use crate::cells::{write_cell, write_clock_words};
use crate::clocks::{write_needs, write_spaced_key, write_spaced_session, write_spaced_worker};
use crate::pieces::{write_spaced, write_spaced_number};
use clock_lattice::Clock;
use itoa::Integer;
use script_reader::outside::{Out, Sink};
use session_known::{Answer, Line, Script, Shown};

// ---- what answers end with

/// Writes the needs of a shown cell, where there are any.
#[tactic(auto, using(crate::proofs::WritesLemmas::words))]
fn write_shown_needs<K: Sink>(out: &mut Out<'_, K>, script: &Script, shown: &Shown)
    ensures { AddsWords K.Sink out.old out.new (needs_words script.now shown.now.needs) }
{
    if let Some(needs) = &shown.needs {
        write_spaced(out, b"needs");
        out.write(b" ");
        write_needs(out, script, needs);
    }
}

/// Writes what a worker showed.
fn write_shown<K: Sink>(out: &mut Out<'_, K>, script: &Script, worker: u16, shown: &Shown)
    requires { HasFewDots shown.now.value }
    ensures { AddsWords K.Sink out.old out.new (shown_words script.now worker shown.now) }
{
    write_spaced_worker(out, worker);
    write_cell(out, script, &shown.clock, shown.top, &shown.value);
    write_shown_needs(out, script, shown);
}

/// Writes how asking ended.
#[tactic(auto, using(crate::proofs::WritesLemmas::words))]
fn write_again<K: Sink>(
    out: &mut Out<'_, K>,
    script: &Script,
    asks: u32,
    worker: u16,
    clock: &Clock,
)
    ensures { AddsWords K.Sink out.old out.new (again_words script.now asks worker clock.now) }
{
    write_spaced(out, b"after");
    write_spaced_number(out, asks);
    write_spaced_worker(out, worker);
    write_clock_words(out, script, clock);
}

/// Writes a number and the Lamport number of a put or of a commit.
#[tactic(auto, using(crate::proofs::WritesLemmas::words))]
fn write_stamp<K: Sink, N: Integer>(out: &mut Out<'_, K>, number: N, lamport: u64)
    ensures { AddsWords K.Sink out.old out.new (number_at (N.text number) (decimal lamport)) }
{
    write_spaced_number(out, number);
    write_spaced(out, b"at");
    write_spaced_number(out, lamport);
}

// ---- puts

/// Writes the line of a put that was accepted.
fn write_put<K: Sink>(out: &mut Out<'_, K>, script: &Script, key: u16, number: u64, lamport: u64)
    ensures { AddsLine K.Sink out.old out.new
        (put_words script.now key (number_at (decimal number) (decimal lamport))) }
{
    out.write(b"put");
    write_spaced_key(out, script, key);
    write_stamp(out, number, lamport);
    out.write(b"\n");
}

/// Writes the line of a put that was not accepted yet, or not at all, with the word that says so.
fn write_other_put<K: Sink>(out: &mut Out<'_, K>, script: &Script, key: u16, word: &[u8])
    ensures { AddsLine K.Sink out.old out.new (put_words script.now key (word.now ∷ [])) }
{
    out.write(b"put");
    write_spaced_key(out, script, key);
    write_spaced(out, word);
    out.write(b"\n");
}

// ---- gets

/// Writes the line of a get that was shown a cell.
fn write_got<K: Sink>(out: &mut Out<'_, K>, script: &Script, key: u16, worker: u16, shown: &Shown)
    requires { HasFewDots shown.now.value }
    ensures { AddsLine K.Sink out.old out.new (codes "get" ∷ key_name script.now key
        ∷ shown_words script.now worker shown.now) }
{
    out.write(b"get");
    write_spaced_key(out, script, key);
    write_shown(out, script, worker, shown);
    out.write(b"\n");
}

/// Writes the line of a get that is to ask again.
fn write_get_again<K: Sink>(
    out: &mut Out<'_, K>,
    script: &Script,
    key: u16,
    asks: u32,
    worker: u16,
    clock: &Clock,
)
    ensures { AddsLine K.Sink out.old out.new (codes "again" ∷ key_name script.now key
        ∷ again_words script.now asks worker clock.now) }
{
    out.write(b"again");
    write_spaced_key(out, script, key);
    write_again(out, script, asks, worker, clock);
    out.write(b"\n");
}

// ---- awaits

/// Writes what is awaited: puts of a session on a key, so many.
#[tactic(auto, using(crate::proofs::WritesLemmas::words))]
fn write_awaited<K: Sink>(out: &mut Out<'_, K>, script: &Script, key: u16, session: u16, count: u64)
    ensures { AddsWords K.Sink out.old out.new (awaited_words script.now key session count []) }
{
    write_spaced_key(out, script, key);
    write_spaced_session(out, script, session);
    write_spaced_number(out, count);
}

/// Writes that an await gave up.
#[tactic(auto, using(crate::proofs::WritesLemmas::words))]
fn write_gave_up<K: Sink>(
    out: &mut Out<'_, K>,
    script: &Script,
    asks: u32,
    worker: u16,
    clock: &Clock,
)
    ensures { AddsWords K.Sink out.old out.new (gave_up_words script.now asks worker clock.now) }
{
    write_spaced(out, b"gave");
    write_spaced(out, b"up");
    write_again(out, script, asks, worker, clock);
}

// ---- transactions

/// Writes the line of a commit.
fn write_commit<K: Sink>(out: &mut Out<'_, K>, puts: u32, lamport: u64)
    ensures { AddsLine K.Sink out.old out.new (commit_words puts lamport) }
{
    if puts == 0 {
        out.write(b"commit 0\n");
    } else {
        out.write(b"commit");
        write_stamp(out, puts, lamport);
        out.write(b"\n");
    }
}

/// Writes the line of an abort.
fn write_abort<K: Sink>(out: &mut Out<'_, K>, puts: u32)
    ensures { AddsLine K.Sink out.old out.new (codes "abort" ∷ decimal puts ∷ []) }
{
    out.write(b"abort");
    write_spaced_number(out, puts);
    out.write(b"\n");
}

// ---- all

/// Writes the line of an answer.
pub(crate) fn write_answer<K: Sink>(
    out: &mut Out<'_, K>,
    script: &Script,
    line: &Line,
    answer: &Answer,
)
    requires { MayAnswer script.now line.now answer.now }
    ensures { AddsLine K.Sink out.old out.new (answer_words script.now line.now answer.now) }
{
    match (line, answer) {
        (Line::Put { key, .. }, Answer::Put { number, lamport }) => {
            write_put(out, script, *key, *number, *lamport)
        }
        (Line::Put { key, .. }, Answer::Held) => write_other_put(out, script, *key, b"held"),
        (Line::Put { key, .. }, Answer::Worn) => write_other_put(out, script, *key, b"worn"),
        (Line::Get { key, .. }, Answer::Got { worker, shown }) => {
            write_got(out, script, *key, *worker, shown)
        }
        (
            Line::Get { key, .. },
            Answer::Again {
                asks,
                worker,
                clock,
            },
        ) => { write_get_again(out, script, *key, *asks, *worker, clock) }
        (
            Line::Await {
                key,
                session,
                count,
            },
            Answer::Got { worker, shown },
        ) => {
            out.write(b"await");
            write_awaited(out, script, *key, *session, *count);
            write_shown(out, script, *worker, shown);
            out.write(b"\n");
        }
        (
            Line::Await {
                key,
                session,
                count,
            },
            Answer::Again {
                asks,
                worker,
                clock,
            },
        ) => {
            out.write(b"await");
            write_awaited(out, script, *key, *session, *count);
            write_gave_up(out, script, *asks, *worker, clock);
            out.write(b"\n");
        }
        (Line::Begin, Answer::Begun) => out.write(b"begin\n"),
        (Line::Commit, Answer::Committed { puts, lamport }) => write_commit(out, *puts, *lamport),
        (Line::Commit, Answer::Worn) => out.write(b"commit worn\n"),
        (Line::Abort, Answer::Aborted { puts }) => write_abort(out, *puts),
        _ => unreachable!(),
    }
}
