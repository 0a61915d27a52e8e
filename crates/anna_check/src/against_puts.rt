//! The first answer that says something untrue of the accepted puts, and the first final cell that is
//! not lawful.
ghost use Rattle.std.specs.Prelude.{◌≤◌, length};
ghost use Rattle.placement.specs.Config.{IsOneOf};
ghost use Rattle.anna_check.specs.AgainstPuts.{CanHoldReply, CanHoldAnswer, CanHoldAnswers, CanHoldSessions, CanHoldFinal, CanHoldFinals, StandForTheSame, TellsSound, TellsCounted, TellsTrue, TellsFinal, FindsUntrue, FindsUntrueFrom, FindsUnlawfulFinal};
ghost use Rattle.anna_check.specs.ByKey.{kinds_of};

use crate::accepted::Accepted;
use crate::cells::counts_only;
use crate::computed_cells::ComputedCells;
use clock_lattice::Clock;
use lattice_laws::{Items, NoMemory};
use session_known::{Answer, FinalCell, Line, SessionPlan, Shown};
use std::alloc::Global;

/// Whether the cell of a key that a worker shows holds exactly the accepted puts that its clock counts.
fn is_sound_reply(
    alloc: Global,
    accepted: &Accepted,
    cells: &mut ComputedCells,
    key: u16,
    worker: u16,
    shown: &Shown,
) -> Result<bool, NoMemory>
    requires { CanHoldReply accepted.now cells.old key worker shown.now }
    ensures sound { TellsSound accepted.now cells.old key shown.now result }
    ensures stand { StandForTheSame accepted.now cells.old cells.new }
{
    let on = accepted.on(key);
    cells.is_sound_reply(alloc, on.kind(), on.puts(), key, worker, shown)
}

/// Whether the clock of a key counts no more puts of any session than were accepted.
fn counts_accepted(accepted: &Accepted, key: u16, clock: &Clock) -> bool
    requires { IsOneOf (length (kinds_of accepted.now)) key }
    ensures { TellsCounted accepted.now key clock.now result }
{
    counts_only(clock, accepted.on(key).puts())
}

/// Whether what the line's answer says of the accepted puts is true.
fn is_true_of(
    alloc: Global,
    accepted: &Accepted,
    cells: &mut ComputedCells,
    line: &Line,
    answer: &Answer,
) -> Result<bool, NoMemory>
    requires { CanHoldAnswer accepted.now cells.old line.now answer.now }
    ensures true_of { TellsTrue accepted.now cells.old line.now answer.now result }
    ensures stand { StandForTheSame accepted.now cells.old cells.new }
{
    match (line, answer) {
        (Line::Get { key, .. }, Answer::Got { worker, shown }) => {
            is_sound_reply(alloc, accepted, cells, *key, *worker, shown)
        }
        (Line::Await { key, .. }, Answer::Got { worker, shown }) => {
            is_sound_reply(alloc, accepted, cells, *key, *worker, shown)
        }
        (Line::Get { key, .. }, Answer::Again { clock, .. }) => {
            Ok(counts_accepted(accepted, *key, clock))
        }
        (Line::Await { key, .. }, Answer::Again { clock, .. }) => {
            Ok(counts_accepted(accepted, *key, clock))
        }
        _ => Ok(true),
    }
}

/// The first command of a session, counted from 1, of which something that its answer says of the
/// accepted puts is not true; none where all of it is.
fn first_untrue(
    alloc: Global,
    accepted: &Accepted,
    cells: &mut ComputedCells,
    lines: &[Line],
    answers: &[Answer],
) -> Result<Option<u32>, NoMemory>
    requires { CanHoldAnswers accepted.now cells.old lines.now answers.now }
    ensures true_of { FindsUntrue accepted.now cells.old lines.now answers.now result }
    ensures stand { StandForTheSame accepted.now cells.old cells.new }
{
    for (i, line) in lines.iter().enumerate() {
        if !is_true_of(alloc, accepted, cells, line, &answers[i])? {
            return Ok(Some(i as u32 + 1));
        }
    }
    Ok(None)
}

/// The first command of which something that its answer says of the accepted puts is not true: the
/// session and the command, each counted from 1; none where all of it is.
pub(crate) fn find_untrue(
    alloc: Global,
    accepted: &Accepted,
    cells: &mut ComputedCells,
    sessions: &[SessionPlan],
    answers: &[Items<Answer>],
) -> Result<Option<(u16, u32)>, NoMemory>
    requires few { length sessions.now ≤ 16 }
    requires held { CanHoldSessions accepted.now cells.old sessions.now answers.now }
    ensures true_of { FindsUntrueFrom accepted.now cells.old sessions.now answers.now result }
    ensures stand { StandForTheSame accepted.now cells.old cells.new }
{
    for (i, plan) in sessions.iter().enumerate() {
        let lines = plan.lines.as_slice();
        let found = first_untrue(alloc, accepted, cells, lines, answers[i].as_slice())?;
        if let Some(command) = found {
            return Ok(Some((i as u16 + 1, command)));
        }
    }
    Ok(None)
}

// ---- final cells

/// Whether a final cell is that of all accepted puts on its key.
fn is_lawful_final(
    alloc: Global,
    accepted: &Accepted,
    cells: &mut ComputedCells,
    last: &FinalCell,
) -> Result<bool, NoMemory>
    requires { CanHoldFinal accepted.now cells.old last.now }
    ensures lawful { TellsFinal accepted.now cells.old last.now result }
    ensures stand { StandForTheSame accepted.now cells.old cells.new }
{
    let on = accepted.on(last.key);
    cells.is_lawful_final(alloc, on.kind(), on.puts(), last)
}

/// The first final cell that is not lawful: its key and its worker; none where all are.
pub(crate) fn find_unlawful_final(
    alloc: Global,
    accepted: &Accepted,
    cells: &mut ComputedCells,
    finals: &[FinalCell],
) -> Result<Option<(u16, u16)>, NoMemory>
    requires { CanHoldFinals accepted.now cells.old finals.now }
    ensures { FindsUnlawfulFinal accepted.now cells.old finals.now result }
{
    for last in finals {
        if !is_lawful_final(alloc, accepted, cells, last)? {
            return Ok(Some((last.key, last.worker)));
        }
    }
    Ok(None)
}
