//! One step of a proxy.
ghost use Rattle.std.specs.Prelude.{◌≡◌, ◌≢◌, ◌≤◌, ◌<◌, IsTrue, false, length, map};
ghost use Rattle.mail_contract.specs.OverBoxes as boxes;
ghost use Rattle.session_known.specs.Session.{held_puts};
ghost use Rattle.session_proxy.specs.Kept.{KeepsAt};
ghost use Rattle.session_proxy.specs.Local.{course_of};
ghost use Rattle.session_proxy.specs.OverProxies as over;
ghost use Rattle.session_proxy.specs.Polls.{EndsWhereAnswered};
ghost use Rattle.session_proxy.specs.State.{IsFixed};
ghost use Rattle.session_proxy.specs.Steps.{Nexts, Opens, goes_on};
ghost use Rattle.session_proxy.specs.declared.local.Begun.TheVariants as ways;

use crate::Progress;
use crate::answering::begin;
use crate::asks::{ask, hear};
use crate::local::{Begun, Local};
use crate::puts::put;
use lattice_laws::NoMemory;
use mail_contract::{Rx, Tx};
use store_msg::{Reply, Request, SessionEndsOver};

/// What a step has to do.
#[derive(Clone, Copy, Debug, PartialEq, Eq, Drop)]
pub(crate) enum Task {
    /// Nothing: every line is answered.
    Ended,
    /// Nothing: the open line was answered when it was begun.
    Answered,
    /// A put is to be sent.
    Put,
    /// An ask is to be sent.
    Ask,
    /// A reply is awaited.
    Hear,
}

/// Whether the open line is begun.
fn has_begun(local: &Local) -> bool
    ensures begun { result ≡ false → local.now.begun ≡ ways.Nothing }
    ensures not_begun { IsTrue result → local.now.begun ≢ ways.Nothing }
{
    match local.begun {
        Begun::Nothing => false,
        Begun::Puts(_) | Begun::Asks(_) => true,
    }
}

/// What is to do for a line that was begun.
fn goes_on(local: &Local) -> Task
    ensures { result ≡ goes_on local.now.begun local.now.waits }
{
    match local.begun {
        Begun::Nothing => Task::Answered,
        Begun::Puts(_) => Task::Put,
        Begun::Asks(_) => { if local.waits { Task::Hear } else { Task::Ask } }
    }
}

/// Begins the open line, and tells whether it is answered.
fn begin_open(local: &mut Local) -> Result<bool, NoMemory>
    requires open { length local.old.answers.items < length local.old.lines }
    requires nothing { local.old.begun ≡ ways.Nothing }
    requires few { length (held_puts local.old.session.state) ≤ 4096 }
    ensures { Opens result local.old local.new }
{
    let line = &local.lines.as_slice()[local.answers.len()];
    begin(
        local.alloc,
        line,
        &mut local.session,
        &mut local.answers,
        &mut local.begun,
    )
}

/// What is to do next; the open line is begun where it was not.
fn next_task(local: &mut Local) -> Result<Task, NoMemory>
    requires lines { length local.old.answers.items ≤ length local.old.lines }
    requires few { length (held_puts local.old.session.state) ≤ 4096 }
    ensures { Nexts result local.old local.new }
{
    if local.answers.len() == local.lines.as_slice().len() {
        return Ok(Task::Ended);
    }
    if has_begun(local) {
        return Ok(goes_on(local));
    }
    if begin_open(local)? {
        return Ok(Task::Answered);
    }
    Ok(goes_on(local))
}

/// One step.
pub(crate) fn step<T: Tx<Request>, R: Rx<Reply>>(
    local: &mut Local,
    ends: &mut SessionEndsOver<T, R>,
) -> Result<Progress, NoMemory>
    requires keeps { KeepsAt T.sent R.received local.old ends.old }
    ensures keeps { KeepsAt T.sent R.received local.new ends.new }
    ensures fixed { IsFixed (course_of local.old) (course_of local.new) }
    ensures requests_keys { map T.key ends.new.requests.items ≡ map T.key ends.old.requests.items }
    ensures requests_numbers { map T.number ends.new.requests.items
        ≡ map T.number ends.old.requests.items }
    ensures replies_key { R.key ends.new.replies ≡ R.key ends.old.replies }
    ensures takes { boxes.MayTake R.Rx ends.old.replies ends.new.replies }
    ensures polls { over.PollsAt T.Tx R.Rx result local.old ends.old local.new ends.new }
    ensures ended { EndsWhereAnswered result (course_of local.old) }
{
    match next_task(local)? {
        Task::Ended => Ok(Progress::Ended),
        Task::Answered => Ok(Progress::Moved),
        Task::Put => put(local, ends),
        Task::Ask => ask(local, ends),
        Task::Hear => hear(local, ends),
    }
}
