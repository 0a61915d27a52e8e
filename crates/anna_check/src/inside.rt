//! The first answer that is not lawful inside its session, and the accepted puts where all are.
ghost use Rattle.std.specs.Prelude.{◌≡◌, ◌≤◌, [], length, map, IfOk, OnOk};
ghost use Rattle.session_known.specs.Accepted.{accepted_from, client_of, ends_from, origin_of};
ghost use Rattle.session_known.specs.Script.{IsValidScript};
ghost use Rattle.anna_check.specs.ByKey.{HasAddedAll, kinds_of};
ghost use Rattle.anna_check.specs.Judged.{CanBeJudged, AnswersFit, IsAfterAll, IsAtStart, MayBegin, made_by_all, FindsUnlawful, FindsUnlawfulFrom};

use crate::accepted::Accepted;
use crate::answered::take_in;
use crate::clocks_seen::ClocksSeen;
use crate::lawful::is_lawful;
use lattice_laws::{Items, NoMemory};
use placement::Placement;
use session_known::{Answer, Known, Line, Script, SessionPlan, SessionState};
use std::alloc::Global;

/// What a session knows at its start, where the sessions before it know this at their ends.
fn origin(
    alloc: Global,
    ends: &[Known],
    session: u16,
    plan: &SessionPlan,
) -> Result<Known, NoMemory>
    requires { MayBegin ends.now plan.now }
    ensures client { IfOk result (λ known. known.client ≡ client_of session plan.now) }
    ensures knows { IfOk result (λ known. known.knows
        ≡ origin_of (map (λ end. end.knows) ends.now) plan.now.after) }
{
    match plan.after {
        Some(after) => ends[usize::from(after) - 1].handed(session),
        None => Ok(Known::new(alloc, session, plan.level)),
    }
}

/// The first command of a session, counted from 1, whose answer is not lawful there; the session is judged from
/// its start on. Where all are, there is none, the puts that they accept are added to the accepted, and the session
/// is in the state after them.
pub(crate) fn first_unlawful(
    alloc: Global,
    placement: &Placement,
    workers: u16,
    judged: &mut SessionState,
    lines: &[Line],
    answers: &[Answer],
    accepted: &mut Accepted,
) -> Result<Option<u32>, NoMemory>
    requires session { 1 ≤ judged.old.client.session }
    requires starts { IsAtStart judged.old }
    requires placed { length placement.now ≡ length (kinds_of accepted.old) }
    requires judged { CanBeJudged (kinds_of accepted.old) workers lines.now answers.now }
    ensures lawful { FindsUnlawful placement.now judged.old lines.now answers.now result }
    ensures kinds { OnOk result (kinds_of accepted.new ≡ kinds_of accepted.old) }
    ensures puts { HasAddedAll result accepted.old
        (made_by_all judged.old lines.now answers.now) accepted.new }
    ensures client { OnOk result (judged.new.client ≡ judged.old.client) }
    ensures end { IsAfterAll judged.old lines.now answers.now judged.new result }
{
    let mut seen = ClocksSeen::new(alloc, workers)?;
    for (i, line) in lines.iter().enumerate() {
        let answer = &answers[i];
        if !is_lawful(placement, judged, &seen, line, answer) {
            return Ok(Some(i as u32 + 1));
        }
        take_in(accepted, judged, line, answer)?;
        seen.take_in(line, answer)?;
    }
    Ok(None)
}

/// The first command whose answer is not lawful inside its session: the session and the command, each
/// counted from 1. Where all are, there is none, and the puts that they accept are added to the accepted.
pub(crate) fn find_unlawful(
    alloc: Global,
    script: &Script,
    placement: &Placement,
    answers: &[Items<Answer>],
    accepted: &mut Accepted,
) -> Result<Option<(u16, u32)>, NoMemory>
    requires valid { IsValidScript script.now placement.now }
    requires form { AnswersFit script.now answers.now }
    requires kinds { kinds_of accepted.old ≡ script.now.kinds }
    ensures lawful { FindsUnlawfulFrom placement.now script.now.sessions answers.now result }
    ensures puts { HasAddedAll result accepted.old
        (accepted_from (ends_from [] 1 script.now.sessions answers.now) 1 script.now.sessions answers.now)
        accepted.new }
{
    let workers = script.config.workers;
    let mut ends: Vec<Known> = Vec::new(alloc);
    for (i, plan) in script.sessions.as_slice().iter().enumerate() {
        let session = i as u16 + 1;
        let lines = plan.lines.as_slice();
        let theirs = answers[i].as_slice();
        let known = origin(alloc, &ends, session, plan)?;
        let mut judged = SessionState::start(alloc, known);
        let found = first_unlawful(
            alloc,
            placement,
            workers,
            &mut judged,
            lines,
            theirs,
            accepted,
        )?;
        if let Some(command) = found {
            return Ok(Some((session, command)));
        }
        ends.push(judged.into_known())?;
    }
    Ok(None)
}
