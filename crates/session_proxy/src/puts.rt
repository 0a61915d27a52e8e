//! Sending a line's puts: that of a put, or those of a commit.
ghost use Rattle.std.specs.Prelude.{◌≡◌, ◌≤◌, ◌<◌, ◌+◌, ◌-◌, ◌*◌, ◌^◌, ℕ, length, map, slice_get, slice_index_or, is_some, IsTrue, IfOk, OnOk, Some, None, ⊤};
ghost use Rattle.std.specs.Vec.{vec_capacity};
ghost use Rattle.composed_value.specs.declared.payload.Payload.TheVariants as payloads;
ghost use Rattle.placement.specs.Asked.{home_at};
ghost use Rattle.placement.specs.Config.{IsOneOf};
ghost use Rattle.session_known.specs.Session.{own_count};
ghost use Rattle.session_known.specs.declared.script.Line.{Line};
ghost use Rattle.session_proxy.specs.Kept.{KeepsAt};
ghost use Rattle.session_proxy.specs.Local.{ArePuts, CanMake, Makes, Prepares, SendsPut, OnOpen, answer_sent, next_of, course_of, put_at, puts_begun};
ghost use Rattle.session_proxy.specs.OverProxies as over;
ghost use Rattle.session_proxy.specs.State.{IsFixed, open_line};

use crate::Progress;
use crate::answering::{close, reserve_one};
use crate::local::{Begun, Local, Puts};
use lattice_laws::NoMemory;
use mail_contract::{Refused, Rx, Tx, post};
use session_known::{Answer, Line, SessionState};
use store_msg::{Reply, Request, SessionEndsOver};

/// Makes the next of a line's puts, where it is not made yet. After `NoMemory` all is as before.
fn make(
    puts: &Puts,
    made: &mut Option<Request>,
    session: &mut SessionState,
    out: u32,
) -> Result<(), NoMemory>
    requires left { out < length puts.now.puts }
    requires few { made.old ≡ None
        → own_count session.old.state.knows (put_at puts.now out).0 + 1 < 2 ^ 64 }
    ensures { Makes result puts.now made.old made.new session.old session.new out }
{
    if made.is_some() {
        return Ok(());
    }
    let (key, payload) = &puts.puts.as_slice()[out as usize];
    let put = session.put(*key, payload, puts.lamport, out)?;
    *made = Some(Request::Put { key: *key, put });
    Ok(())
}

/// Makes the next of the open line's puts, where it is not made yet, and room for the line's answer. After
/// `NoMemory` nothing is made.
fn prepare(local: &mut Local) -> Result<(), NoMemory>
    requires { CanMake local.old.begun local.old.made local.old.session local.old.out }
    ensures makes { Prepares result local.old local.new }
    ensures room { OnOk result
        (length local.new.answers.items + 1 ≤ vec_capacity local.new.answers) }
{
    reserve_one(&mut local.answers)?;
    let Begun::Puts(puts) = &local.begun else {
        unreachable!()
    };
    make(puts, &mut local.made, &mut local.session, local.out)
}

/// The worker that the next of the open line's puts goes to: the session's home of its key.
fn next_home(local: &Local) -> u16
    requires left { local.now.out < length (puts_begun local.now.begun) }
    requires session { 1 ≤ local.now.session.client.session }
    requires key { IsOneOf (length local.now.placement) (next_of local.now).0 }
    ensures { result ≡ home_at local.now.placement local.now.session.client.session
        (next_of local.now).0 }
{
    let Begun::Puts(puts) = &local.begun else {
        unreachable!()
    };
    let key = puts.puts.as_slice()[local.out as usize].0;
    local.placement.home(local.session.known().session(), key)
}

/// Takes the put that is made, to send it.
fn take_made(made: &mut Option<Request>) -> Request
    requires { IsTrue (is_some made.old) }
    ensures request { made.old ≡ Some result }
    ensures taken { made.new ≡ None }
{
    let Some(request) = made.take() else {
        unreachable!()
    };
    request
}

/// The answer of a line whose puts are all sent.
fn answer_sent(line: &Line, session: &SessionState, puts: &Puts) -> Answer
    requires few { length puts.now.puts < 2 ^ 32 }
    ensures { result ≡ answer_sent line.now session.now puts.now }
{
    match line {
        Line::Put { key, .. } => Answer::Put {
            number: session.known().own(*key),
            lamport: puts.lamport,
        },
        Line::Get { .. } | Line::Await { .. } | Line::Begin | Line::Commit | Line::Abort => {
            Answer::Committed {
                puts: puts.puts.as_slice().len() as u32,
                lamport: puts.lamport,
            }
        }
    }
}

/// The next of the open line's puts was sent; with the last the line is answered.
fn sent_put(local: &mut Local)
    requires puts { ArePuts local.old.begun }
    requires none_made { local.old.made ≡ None }
    requires left { local.old.out < length (puts_begun local.old.begun) }
    requires few { length (puts_begun local.old.begun) < 2 ^ 32 }
    requires open { length local.old.answers.items < length local.old.lines }
    requires room { length local.old.answers.items + 1 ≤ vec_capacity local.old.answers }
    ensures { OnOpen local.old (λ line. SendsPut line local.old local.new) }
{
    local.out += 1;
    let Begun::Puts(puts) = &local.begun else {
        unreachable!()
    };
    if (local.out as usize) < puts.puts.as_slice().len() {
        return;
    }
    let line = &local.lines.as_slice()[local.answers.len()];
    let answer = answer_sent(line, &local.session, puts);
    close(local, answer);
}

/// Sends the next of the open line's puts. One that finds no place or no memory keeps its number, and goes
/// out at a later call.
pub(crate) fn put<T: Tx<Request>, R: Rx<Reply>>(
    local: &mut Local,
    ends: &mut SessionEndsOver<T, R>,
) -> Result<Progress, NoMemory>
    requires keeps { KeepsAt T.sent R.received local.old ends.old }
    requires puts { ArePuts local.old.begun }
    requires open { length local.old.answers.items < length local.old.lines }
    ensures keeps { KeepsAt T.sent R.received local.new ends.new }
    ensures fixed { IsFixed (course_of local.old) (course_of local.new) }
    ensures replies { ends.new.replies ≡ ends.old.replies }
    ensures requests_keys { map T.key ends.new.requests.items ≡ map T.key ends.old.requests.items }
    ensures requests_numbers { map T.number ends.new.requests.items
        ≡ map T.number ends.old.requests.items }
    ensures polls { over.PollsAt T.Tx R.Rx result local.old ends.old local.new ends.new }
{
    prepare(local)?;
    let home = next_home(local);
    let request = take_made(&mut local.made);
    match post(&mut ends.requests, usize::from(home) - 1, request) {
        Ok(()) => {
            sent_put(local);
            Ok(Progress::Moved)
        }
        Err(Refused::Full(back)) => {
            local.made = Some(back);
            Ok(Progress::NotYet)
        }
        Err(Refused::NoMemory(back)) => {
            local.made = Some(back);
            Err(NoMemory)
        }
    }
}
