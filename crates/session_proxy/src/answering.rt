//! Beginning a line: it is answered at once, or its puts or its asks are to be made.
ghost use Rattle.std.specs.Prelude.{◌≡◌, ◌≤◌, ◌+◌, OnOk, Ok, length};
ghost use Rattle.std.specs.Vec.{vec_capacity};
ghost use Rattle.session_known.specs.Session.{held_puts};
ghost use Rattle.session_known.specs.declared.script.Line.TheVariants as lines;
ghost use Rattle.session_proxy.specs.Beginning.{Begins};
ghost use Rattle.session_proxy.specs.Local.{KeepsAs, answered_with, course_of};
ghost use Rattle.session_proxy.specs.declared.local.Begun.TheVariants as ways;

use crate::local::{Begun, Local, Puts};
use composed_value::Payload;
use lattice_laws::{Items, NoMemory};
use session_known::{Answer, Line, SessionState};
use std::alloc::Global;

/// Makes room for one more answer.
pub(crate) fn reserve_one(answers: &mut Vec<Answer>) -> Result<(), NoMemory>
    ensures items { answers.new.items ≡ answers.old.items }
    ensures room { OnOk result (length answers.new.items + 1 ≤ vec_capacity answers.new) }
{
    match answers.reserve(1) {
        Ok(()) => Ok(()),
        Err(_) => Err(NoMemory),
    }
}

/// The open line has its answer, and the next is open.
pub(crate) fn close(local: &mut Local, answer: Answer)
    requires { length local.old.answers.items + 1 ≤ vec_capacity local.old.answers }
    ensures { KeepsAs local.new (answered_with (course_of local.old) answer)
        local.old.session ways.Nothing local.old.made }
{
    local.answers.push_reserved(answer);
    local.begun = Begun::Nothing;
    local.out = 0;
    local.waits = false;
    local.kept = None;
}

/// Begins a line, and tells whether it is answered. After `NoMemory` all is as before.
pub(crate) fn begin(
    alloc: Global,
    line: &Line,
    session: &mut SessionState,
    answers: &mut Vec<Answer>,
    begun: &mut Begun,
) -> Result<bool, NoMemory>
    requires few { length (held_puts session.old.state) ≤ 4096 }
    ensures { Begins line.now result session.old session.new answers.old.items answers.new.items
        begun.old begun.new }
{
    reserve_one(answers)?;
    match line {
        Line::Put { key, payload } => begin_put(alloc, *key, payload, session, answers, begun),
        Line::Get { .. } | Line::Await { .. } => {
            *begun = Begun::Asks(session.known().required(line)?);
            Ok(false)
        }
        Line::Begin => {
            session.begin();
            answers.push_reserved(Answer::Begun);
            Ok(true)
        }
        Line::Commit => Ok(begin_commit(session, answers, begun)),
        Line::Abort => {
            let held = session.end();
            answers.push_reserved(Answer::Aborted {
                puts: held.as_slice().len() as u32,
            });
            Ok(true)
        }
    }
}

/// Begins a put: it is held where a transaction is begun, and else it is to be made.
fn begin_put(
    alloc: Global,
    key: u16,
    payload: &Payload,
    session: &mut SessionState,
    answers: &mut Vec<Answer>,
    begun: &mut Begun,
) -> Result<bool, NoMemory>
    requires { length answers.old.items + 1 ≤ vec_capacity answers.old }
    ensures { Begins (lines.Put key payload.now) result session.old session.new
        answers.old.items answers.new.items begun.old begun.new }
{
    if session.is_begun() {
        session.hold(key, payload)?;
        answers.push_reserved(Answer::Held);
        return Ok(true);
    }
    let Some(lamport) = session.known().next_number() else {
        answers.push_reserved(Answer::Worn);
        return Ok(true);
    };
    let mut puts = Items::new(Vec::new(alloc));
    puts.push((key, payload.copy()?))?;
    *begun = Begun::Puts(Puts { puts, lamport });
    Ok(false)
}

/// Begins a commit, and tells whether it is answered: where nothing was held, or no Lamport number is left.
fn begin_commit(session: &mut SessionState, answers: &mut Vec<Answer>, begun: &mut Begun) -> bool
    requires { length answers.old.items + 1 ≤ vec_capacity answers.old }
    ensures { Begins lines.Commit (Ok result) session.old session.new
        answers.old.items answers.new.items begun.old begun.new }
{
    let number = session.known().next_number();
    let puts = session.end();
    let Some(lamport) = number else {
        answers.push_reserved(Answer::Worn);
        return true;
    };
    if puts.as_slice().is_empty() {
        answers.push_reserved(Answer::Committed {
            puts: 0,
            lamport: 0,
        });
        return true;
    }
    *begun = Begun::Puts(Puts { puts, lamport });
    false
}
