//! The judge.
ghost use Rattle.std.specs.Prelude.{◌≤◌, IfOk, length};
ghost use Rattle.session_known.specs.Accepted as made;
ghost use Rattle.session_known.specs.Form.{HasForm, HasFormSomewhere};
ghost use Rattle.session_known.specs.Script.{IsValidScript};
ghost use Rattle.anna_check.specs.ComputedCells.{AreAllNext};
ghost use Rattle.anna_check.specs.AgainstPuts.{CanHoldAllAnswers, CanHoldAllFinals};
ghost use Rattle.anna_check.specs.ByKey.{AreByKey};
ghost use Rattle.anna_check.specs.Unlawful.{IsVerdict, IsVerdictWherever, IsVerdictOfPuts};

use crate::accepted::Accepted;
use crate::against_puts::{find_unlawful_final, find_untrue};
use crate::computed_cells::ComputedCells;
use crate::inside::find_unlawful;
use lattice_laws::NoMemory;
use placement::Placement;
use session_known::{Report, Script};
use std::alloc::Global;

/// What a report is judged.
#[derive(Clone, Copy, Debug, PartialEq, Eq)]
pub enum Verdict {
    /// It is legal.
    Legal,
    /// The answer to this command of this session, each counted from 1, is the first that is not lawful.
    Command { session: u16, command: u32 },
    /// The final cell of this key at this worker is the first that is not lawful.
    Final { key: u16, worker: u16 },
}

/// Judges a report of the script's form: first what is decided inside the sessions, in script order; where
/// all of it is lawful, what the answers say of all accepted puts; where that is true, the final cells.
pub fn check(alloc: Global, script: &Script, report: &Report) -> Result<Verdict, NoMemory>
    requires form { HasFormSomewhere script.now report.now }
    ensures verdict { IfOk result (IsVerdictWherever script.now report.now) }
{
    let placement = Placement::build(alloc, &script.config)?;
    judge(alloc, script, &placement, report)
}

/// Judges a report of the script's form, where its keys live so.
fn judge(
    alloc: Global,
    script: &Script,
    placement: &Placement,
    report: &Report,
) -> Result<Verdict, NoMemory>
    requires valid { IsValidScript script.now placement.now }
    requires form { HasForm script.now placement.now report.now }
    ensures { IfOk result (IsVerdict placement.now script.now report.now) }
{
    let answers = report.answers.as_slice();
    let mut accepted = Accepted::new(alloc, script.kinds.as_slice())?;
    match find_unlawful(alloc, script, placement, answers, &mut accepted)? {
        Some((session, command)) => Ok(Verdict::Command { session, command }),
        None => hold_against(alloc, script, &accepted, report),
    }
}

/// Judges a report whose answers are all lawful inside their sessions by the puts that they accept.
fn hold_against(
    alloc: Global,
    script: &Script,
    accepted: &Accepted,
    report: &Report,
) -> Result<Verdict, NoMemory>
    requires few { length script.now.sessions ≤ 16 }
    requires answers { CanHoldAllAnswers script.now report.now }
    requires finals { CanHoldAllFinals script.now report.now }
    requires numbered { AreAllNext (made.accepted script.now report.now) }
    requires puts { AreByKey script.now.kinds (made.accepted script.now report.now) accepted.now }
    ensures { IfOk result (IsVerdictOfPuts script.now report.now) }
{
    let mut cells = ComputedCells::new(alloc, script.kinds.as_slice(), script.config.workers)?;
    let sessions = script.sessions.as_slice();
    let answers = report.answers.as_slice();
    if let Some((session, command)) = find_untrue(alloc, accepted, &mut cells, sessions, answers)? {
        return Ok(Verdict::Command { session, command });
    }
    let finals = report.finals.as_slice();
    if let Some((key, worker)) = find_unlawful_final(alloc, accepted, &mut cells, finals)? {
        return Ok(Verdict::Final { key, worker });
    }
    Ok(Verdict::Legal)
}
