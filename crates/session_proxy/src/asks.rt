//! Asking for what a get or an await wants.
ghost use Rattle.std.specs.Prelude.{◌≡◌, ◌↔◌, ◌≤◌, ◌<◌, ◌+◌, ◌-◌, ◌^◌, false, length, map, IsTrue, IfOk, Some, None};
ghost use Rattle.std.specs.Vec.{vec_capacity};
ghost use Rattle.mail_contract.specs.OverBoxes as boxes;
ghost use Rattle.placement.specs.Asked.{replicas_of};
ghost use Rattle.placement.specs.Config.{IsOneOf};
ghost use Rattle.session_proxy.specs.Lines.{MayRun, most_asks};
ghost use Rattle.session_proxy.specs.Kept.{KeepsAt};
ghost use Rattle.session_proxy.specs.Local.{AreAsks, CanHear, CanWork, Hears, MayAskAt, OnOpen, Works, clock_begun, course_of, key_asked, last_ask, worker_asked};
ghost use Rattle.session_proxy.specs.OverProxies as over;
ghost use Rattle.session_proxy.specs.Run.{IsReplyTo, answer_by};
ghost use Rattle.session_proxy.specs.Share.{IsAsked};
ghost use Rattle.session_proxy.specs.State.{IsFixed};
ghost use Rattle.store_msg.specs.Reply.{IsAnswer};
ghost use Rattle.store_msg.specs.declared.request.Request.TheVariants as requests;

use crate::Progress;
use crate::answering::{close, reserve_one};
use crate::local::{Begun, Local};
use lattice_laws::{Lattice, NoMemory};
use mail_contract::{Refused, Rx, Tx, post, take_one};
use placement::Placement;
use session_known::{Answer, Known, Level, Line, Shown};
use store_msg::{Answered, Reply, Request, SessionEndsOver};

/// The key of a get or an await.
fn key_asked(line: &Line) -> u16
    ensures { result ≡ key_asked line.now }
{
    match line {
        Line::Get { key, .. } | Line::Await { key, .. } => *key,
        Line::Put { .. } | Line::Begin | Line::Commit | Line::Abort => 0,
    }
}

/// How many asks a get or an await of the key sends at most.
fn most_asks(placement: &Placement, level: Level, key: u16) -> u32
    requires key { IsOneOf (length placement.now) key }
    requires few { length (replicas_of placement.now key) < 2 ^ 16 }
    ensures { result ≡ most_asks placement.now level key }
{
    match level {
        Level::Causal => 8 * placement.replicas(key).len() as u32,
        Level::Eventual | Level::Committed => 1,
    }
}

/// The worker that an ask of a line goes to, by its place from 0: of a causal session the replicas in turn,
/// else the named one or the home.
fn worker_asked(placement: &Placement, known: &Known, line: &Line, place: u32) -> u16
    requires line { MayRun placement.now known.now.client.level line.now }
    requires asked { IsAsked line.now }
    requires session { 1 ≤ known.now.client.session }
    requires few { place + 1 < 2 ^ 32 }
    requires once { place < most_asks placement.now known.now.client.level (key_asked line.now) }
    ensures { result ≡ worker_asked placement.now known.now.client line.now place }
{
    match line {
        Line::Get {
            worker: Some(worker),
            ..
        } => *worker,
        Line::Get { key, worker: None } if known.level() != Level::Causal => {
            placement.home(known.session(), *key)
        }
        Line::Get { key, .. } | Line::Await { key, .. } => {
            placement.asked(known.session(), *key, place + 1)
        }
        Line::Put { .. } | Line::Begin | Line::Commit | Line::Abort => unreachable!(),
    }
}

/// What was found of the reply that is awaited.
#[derive(Drop)]
pub(crate) enum Heard {
    /// No reply was there.
    Nothing,
    /// One was there that is another's.
    Other,
    /// It is there.
    Awaited(Reply),
}

/// The answer of a line by the reply to its last ask, after so many.
fn answer_by(level: Level, asks: u32, reply: Reply) -> Answer
    ensures { result ≡ answer_by level asks reply }
{
    let worker = reply.worker();
    match reply.into_answered() {
        Answered::Found(cell) => Answer::Got {
            worker,
            shown: Shown::of_cell(level, cell),
        },
        Answered::Again(clock) => Answer::Again {
            asks,
            worker,
            clock,
        },
    }
}

/// Works on the reply that is awaited: a cell answers the line, and so does the clock in place of one after
/// the last ask; else another ask is to be made. After `NoMemory` the reply is kept, and all else as before.
fn work(local: &mut Local, reply: Reply) -> Result<Progress, NoMemory>
    requires can { CanWork local.old reply }
    requires room { length local.old.answers.items + 1 ≤ vec_capacity local.old.answers }
    ensures works { Works result reply local.old local.new }
    ensures fits { IsAnswer reply.required reply.answered }
{
    let level = local.session.known().level();
    let key = reply.key();
    match reply.answered() {
        Answered::Found(cell) => {
            if local.session.note_reply(key, cell).is_err() {
                local.kept = Some(reply);
                return Err(NoMemory);
            }
        }
        Answered::Again(_) => {
            if local.out < most_asks(&local.placement, level, key) {
                local.waits = false;
                return Ok(Progress::Rest);
            }
        }
    }
    let answer = answer_by(level, local.out, reply);
    local.asks += u64::from(local.out);
    close(local, answer);
    Ok(Progress::Moved)
}

/// The next ask of the open line.
fn next_ask(local: &Local) -> Result<Request, NoMemory>
    requires asks { AreAsks local.now.begun }
    requires open { length local.now.answers.items < length local.now.lines }
    requires few { local.now.asks + local.now.out + 1 < 2 ^ 64 }
    ensures { IfOk result (λ request. OnOpen local.now (λ line. request
        ≡ requests.Get (local.now.asks + local.now.out + 1) (key_asked line)
        (clock_begun local.now.begun))) }
{
    let Begun::Asks(required) = &local.begun else {
        unreachable!()
    };
    let line = &local.lines.as_slice()[local.answers.len()];
    Ok(Request::Get {
        ask: local.asks + u64::from(local.out) + 1,
        key: key_asked(line),
        required: required.copy()?,
    })
}

/// The worker that the ask of the open line at a place, from 0, goes to.
fn asked_at(local: &Local, place: u32) -> u16
    requires open { length local.now.answers.items < length local.now.lines }
    requires line { OnOpen local.now (λ line. MayAskAt local.now line place) }
    requires session { 1 ≤ local.now.session.client.session }
    requires few { place + 1 < 2 ^ 32 }
    ensures { OnOpen local.now (λ line.
        result ≡ worker_asked local.now.placement local.now.session.client line place) }
{
    let line = &local.lines.as_slice()[local.answers.len()];
    worker_asked(&local.placement, local.session.known(), line, place)
}

/// Sends the next ask of the open line.
pub(crate) fn ask<T: Tx<Request>, R: Rx<Reply>>(
    local: &mut Local,
    ends: &mut SessionEndsOver<T, R>,
) -> Result<Progress, NoMemory>
    requires keeps { KeepsAt T.sent R.received local.old ends.old }
    requires asks { AreAsks local.old.begun }
    requires waits { local.old.waits ≡ false }
    requires open { length local.old.answers.items < length local.old.lines }
    ensures keeps { KeepsAt T.sent R.received local.new ends.new }
    ensures fixed { IsFixed (course_of local.old) (course_of local.new) }
    ensures replies { ends.new.replies ≡ ends.old.replies }
    ensures requests_keys { map T.key ends.new.requests.items ≡ map T.key ends.old.requests.items }
    ensures requests_numbers { map T.number ends.new.requests.items
        ≡ map T.number ends.old.requests.items }
    ensures polls { over.PollsAt T.Tx R.Rx result local.old ends.old local.new ends.new }
{
    let request = next_ask(local)?;
    let worker = asked_at(local, local.out);
    match post(&mut ends.requests, usize::from(worker) - 1, request) {
        Ok(()) => {
            local.out += 1;
            local.waits = true;
            Ok(Progress::Moved)
        }
        Err(Refused::Full(_)) => Ok(Progress::NotYet),
        Err(Refused::NoMemory(_)) => Err(NoMemory),
    }
}

/// Whether a reply is the one that is awaited: of the ask, the worker, the key and the required clock.
fn is_awaited(local: &Local, reply: &Reply) -> bool
    requires { CanHear local.now }
    ensures { OnOpen local.now (λ line.
        IsTrue result ↔ IsReplyTo (last_ask local.now line) reply.now) }
{
    let Begun::Asks(required) = &local.begun else {
        unreachable!()
    };
    let line = &local.lines.as_slice()[local.answers.len()];
    reply.ask() == local.asks + u64::from(local.out)
        && reply.worker() == asked_at(local, local.out - 1)
        && reply.key() == key_asked(line)
        && reply.required() == required
}

/// Takes a reply, out of the box or where it was kept.
fn take_reply<R: Rx<Reply>>(local: &mut Local, replies: &mut R) -> Result<Heard, NoMemory>
    requires { CanHear local.old }
    ensures key { R.key replies.new ≡ R.key replies.old }
    ensures room { vec_capacity local.new.answers ≡ vec_capacity local.old.answers }
    ensures takes { boxes.MayTake R.Rx replies.old replies.new }
    ensures hears { OnOpen local.old (λ line. Hears result local.old local.new
        (R.received replies.old) (R.received replies.new) (IsReplyTo (last_ask local.old line))) }
    ensures nothing { over.TellsNothing R.Rx result replies.old replies.new }
{
    if let Some(reply) = local.kept.take() {
        return Ok(Heard::Awaited(reply));
    }
    match take_one(replies)? {
        None => Ok(Heard::Nothing),
        Some((_, reply)) => {
            if is_awaited(local, &reply) {
                Ok(Heard::Awaited(reply))
            } else {
                Ok(Heard::Other)
            }
        }
    }
}

/// Takes the reply that is awaited, if it is there, and works on it; another reply is dropped.
pub(crate) fn hear<T: Tx<Request>, R: Rx<Reply>>(
    local: &mut Local,
    ends: &mut SessionEndsOver<T, R>,
) -> Result<Progress, NoMemory>
    requires keeps { KeepsAt T.sent R.received local.old ends.old }
    requires asks { AreAsks local.old.begun }
    requires waits { IsTrue local.old.waits }
    requires open { length local.old.answers.items < length local.old.lines }
    ensures keeps { KeepsAt T.sent R.received local.new ends.new }
    ensures fixed { IsFixed (course_of local.old) (course_of local.new) }
    ensures requests { ends.new.requests ≡ ends.old.requests }
    ensures replies_key { R.key ends.new.replies ≡ R.key ends.old.replies }
    ensures takes { boxes.MayTake R.Rx ends.old.replies ends.new.replies }
    ensures polls { over.PollsAt T.Tx R.Rx result local.old ends.old local.new ends.new }
{
    reserve_one(&mut local.answers)?;
    match take_reply(local, &mut ends.replies)? {
        Heard::Nothing => Ok(Progress::NotYet),
        Heard::Other => Ok(Progress::Moved),
        Heard::Awaited(reply) => work(local, reply),
    }
}
