//! Whether an answer is lawful, as far as it is decided inside its session.
ghost use Rattle.std.specs.Prelude.{◌≡◌, ◌↔◌, ◌≤◌, ◌*◌, IsTrue, length};
ghost use Rattle.session_known.specs.Lawful.{MayReply};
ghost use Rattle.placement.specs.Config.{IsOneOf};
ghost use Rattle.anna_check.specs.ClocksSeen.{TellsClock, TellsReply, TellsAgain, TellsLawful};
ghost use Rattle.anna_check.specs.Judged.{NamesKey, NamesWorker};

use crate::clocks_seen::ClocksSeen;
use clock_lattice::Clock;
use lattice_laws::Lattice;
use placement::Placement;
use session_known::{Answer, Known, Level, Line, SessionState};

/// Whether the worker may reply to a get of the session: in a causal session any replica, else the
/// named worker or the home.
fn may_reply(
    placement: &Placement,
    known: &Known,
    key: u16,
    named: Option<u16>,
    worker: u16,
) -> bool
    requires session { 1 ≤ known.now.client.session }
    requires key { IsOneOf (length placement.now) key }
    ensures { IsTrue result ↔ MayReply known.now.client.level placement.now known.now.client.session
        key named worker }
{
    match known.level() {
        Level::Causal => placement.replicas(key).contains(&worker),
        Level::Eventual | Level::Committed => {
            let asked = match named {
                Some(named) => named,
                None => placement.home(known.session(), key),
            };
            worker == asked
        }
    }
}

/// Whether the worker may show this clock of the key: it covers those that the session had from it, and
/// at the home it counts all puts that the session has made on the key.
fn is_clock_from(
    placement: &Placement,
    known: &Known,
    seen: &ClocksSeen,
    key: u16,
    worker: u16,
    clock: &Clock,
) -> bool
    requires session { 1 ≤ known.now.client.session }
    requires key { IsOneOf (length placement.now) key }
    requires worker { IsOneOf (length seen.now) worker }
    ensures { TellsClock seen.now placement.now known.now key worker clock.now result }
{
    clock.attest();
    let home = placement.home(known.session(), key);
    seen.are_covered(key, worker, clock)
        && (worker != home || clock.count(known.session()) == known.own(key))
}

/// Whether the worker may reply to the line with a cell of this clock.
fn is_lawful_reply(
    placement: &Placement,
    known: &Known,
    seen: &ClocksSeen,
    line: &Line,
    key: u16,
    named: Option<u16>,
    worker: u16,
    clock: &Clock,
) -> bool
    requires session { 1 ≤ known.now.client.session }
    requires key { IsOneOf (length placement.now) key }
    requires worker { IsOneOf (length seen.now) worker }
    ensures { TellsReply seen.now placement.now known.now line.now key named worker clock.now
        result }
{
    let may_reply = may_reply(placement, known, key, named, worker);
    let is_clock = is_clock_from(placement, known, seen, key, worker, clock);
    let is_no_later = clock.count(known.session()) <= known.own(key);
    let is_covering = known.covers_required(line, clock);
    may_reply & is_clock & is_no_later & is_covering
}

/// Whether so many asks are 8 of each of so many replicas.
fn is_asks_of(asks: u32, replicas: usize) -> bool
    ensures { IsTrue result ↔ (asks ≡ 8 * replicas) }
{
    asks % 8 == 0 && asks as usize / 8 == replicas
}

/// Whether the session may be told at the line to ask again, after so many asks and with this clock of
/// the worker.
fn is_lawful_again(
    placement: &Placement,
    known: &Known,
    seen: &ClocksSeen,
    line: &Line,
    key: u16,
    asks: u32,
    worker: u16,
    clock: &Clock,
) -> bool
    requires session { 1 ≤ known.now.client.session }
    requires key { IsOneOf (length placement.now) key }
    requires worker { IsOneOf (length seen.now) worker }
    ensures { TellsAgain seen.now placement.now known.now line.now key asks worker clock.now
        result }
{
    let is_causal = known.level() == Level::Causal;
    let is_asked = is_asks_of(asks, placement.replicas(key).len());
    let is_last = worker == placement.last_asked(known.session(), key);
    let is_clock = is_clock_from(placement, known, seen, key, worker, clock);
    let is_lacking = !known.covers_required(line, clock);
    is_causal & is_asked & is_last & is_clock & is_lacking
}

/// Whether the line may get the answer, as far as it is decided inside the session.
pub(crate) fn is_lawful(
    placement: &Placement,
    session: &SessionState,
    seen: &ClocksSeen,
    line: &Line,
    answer: &Answer,
) -> bool
    requires client { 1 ≤ session.now.client.session }
    requires line { NamesKey (length placement.now) line.now }
    requires answer { NamesWorker (length seen.now) answer.now }
    ensures { TellsLawful seen.now placement.now session.now line.now answer.now result }
{
    let known = session.known();
    match (line, answer) {
        (Line::Put { key, .. }, Answer::Put { number, lamport }) => {
            session.is_lawful_put(*key, *number, *lamport)
        }
        (Line::Put { .. }, Answer::Held) => session.is_begun(),
        (Line::Put { .. }, Answer::Worn) => !session.is_begun() && session.is_worn(),
        (Line::Begin, Answer::Begun) => !session.is_begun(),
        (Line::Commit, Answer::Committed { puts, lamport }) => {
            session.is_lawful_commit(*puts, *lamport)
        }
        (Line::Commit, Answer::Worn) => session.is_begun() && session.is_worn(),
        (Line::Abort, Answer::Aborted { puts }) => {
            session.is_begun() && *puts as usize == session.held().len()
        }
        (Line::Get { key, worker: named }, Answer::Got { worker, shown }) => is_lawful_reply(
            placement,
            known,
            seen,
            line,
            *key,
            *named,
            *worker,
            &shown.clock,
        ),
        (Line::Await { key, .. }, Answer::Got { worker, shown }) => is_lawful_reply(
            placement,
            known,
            seen,
            line,
            *key,
            None,
            *worker,
            &shown.clock,
        ),
        (
            Line::Get { key, .. },
            Answer::Again {
                asks,
                worker,
                clock,
            },
        ) => is_lawful_again(placement, known, seen, line, *key, *asks, *worker, clock),
        (
            Line::Await { key, .. },
            Answer::Again {
                asks,
                worker,
                clock,
            },
        ) => is_lawful_again(placement, known, seen, line, *key, *asks, *worker, clock),
        _ => false,
    }
}
