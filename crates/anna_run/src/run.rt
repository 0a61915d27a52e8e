//! The call that does all that the program does.
ghost use Rattle.std.specs.Prelude.{◌≡◌, ◌≤◌, Some, IfOk};
ghost use Rattle.placement.specs.Config.{placed};
ghost use Rattle.session_known.specs.Form.{HasForm};
ghost use Rattle.session_known.specs.Script.{IsValidScript};
ghost use Rattle.anna_run.specs.Outcomes.{IsOwedByWork, IsOwedOf, IsReport, Judges, OnReport, OnReportOf, OnScript, OnScriptOf, Owes, TellsVerdict, WhereChecked};
ghost use Rattle.anna_run.specs.Run.{Made, IsBounded, IsComplete, IsEnd, IsExitOf, IsJudged, IsRunOf, IsWorkComplete, KeepsCounts, LeavesAlone, exit_number, ran_of, used, verdict_status, write_status, wrote};
ghost use Rattle.anna_run.specs.Words.{command_in};

use crate::texts::{line, refusal, report_refusal, verdict_line};
use crate::words::{Command, Gossip, WordsFault, read_words};
use anna_check::{Verdict, check};
use big_work::{big_script, write_summary};
use lattice_laws::NoMemory;
use mail_contract::{GossipRx, Rx, Scramble};
use mail_rings::RingRx;
use outside::{Failed, ReadFault, Sink, Source, finish, read_all};
use party_run::{Drained, Gate, RingPost, ScrambledPost, serve, serve_scrambled};
use report_text::{ReportFault, read_report, write_report};
use script_reader::{MOST_BYTES, ScriptFault, read_script, split_input};
use session_known::{Report, Script};
use std::alloc::Global;
use std::thread::Threads;
use store_msg::{Batch, Reply, Request};

/// The greatest length of an input that is checked, in bytes.
const MOST_CHECKED: usize = 16_777_216;

/// The code of an input that is too long.
const TOO_LONG: u8 = 12;

/// How a run ended.
#[derive(Clone, Copy, Debug, PartialEq, Eq)]
pub enum Status {
    /// The script was served, and the report was written; or the report that was checked is legal.
    Done,
    /// The words are of no accepted form.
    Usage,
    /// What was read is no script, or what stands after a script that is checked is no report.
    Refused,
    /// The report that was checked is not legal.
    Unlawful,
    /// The source failed.
    ReadFault,
    /// The sink failed.
    WriteFault,
    /// Memory ran out.
    NoMemory,
}

impl Status {
    /// The exit number: 0, or one from 2 to 7.
    pub fn number(self) -> u8
        ensures { result ≡ exit_number self }
    {
        match self {
            Status::Done => 0,
            Status::Usage => 2,
            Status::Refused => 3,
            Status::ReadFault => 4,
            Status::WriteFault => 5,
            Status::NoMemory => 6,
            Status::Unlawful => 7,
        }
    }
}

/// The run that was made, as it is once it is drained.
#[derive(Drop)]
pub enum PartsOver<D: Drop, C: Drop> {
    /// None was.
    Nothing,
    /// One over rings.
    Rings(D),
    /// One over rings with gossip in disorder.
    Scrambled(C),
}

/// A run over rings that is drained.
pub type Rings = Drained<RingPost>;

/// The same with gossip in disorder.
pub type ScrambledRings = Drained<ScrambledPost>;

/// A run that is drained, as contracts see it.
pub trait Ran {
    // Its report, what its parties have in hand, and which numbers their boxes of gossip were made with.
    ghost made: { Self → Made };
}

impl Ran for Rings {
    ghost use Rattle.anna_run.specs.Run.{made_of};

    ghost made = { made_of ⟦<RingRx<Request> as Rx<Request>>⟧.received
        ⟦<RingRx<Batch> as GossipRx<Batch>>⟧ ⟦<RingRx<Reply> as Rx<Reply>>⟧.received };
}

impl Ran for ScrambledRings {
    ghost use Rattle.anna_run.specs.Run.{made_of};

    ghost made = { made_of ⟦<RingRx<Request> as Rx<Request>>⟧.received
        ⟦<Scramble<Batch, RingRx<Batch>> as GossipRx<Batch>>⟧
        ⟦<RingRx<Reply> as Rx<Reply>>⟧.received };
}

/// The run that was made.
pub type Parts = PartsOver<Rings, ScrambledRings>;

/// What a run owes to whoever asked.
#[derive(Drop)]
enum OutcomeOver<D: Drop, C: Drop> {
    /// The report of a script that was run.
    Report(Script, D),
    /// The same of a run with gossip in disorder.
    ScrambledReport(Script, C),
    /// The summary of the large work of a number, which was run.
    Summary(u64, Script, D),
    /// A line of text, and the status that goes with it.
    Line(Status, Vec<u8>),
}

type Outcome = OutcomeOver<Rings, ScrambledRings>;

/// Reads a script and runs it.
fn run_script<S: Source, E: Gate + Sync, H: Threads + Sync>(
    rt: &H,
    alloc: Global,
    gossip: Gossip,
    src: &mut S,
    gate: &E,
) -> Result<Outcome, NoMemory>
    ensures owed { Owes ⟦<Rings as Ran>⟧.made ⟦<ScrambledRings as Ran>⟧.made
        (Some (Command.Run gossip)) (used S.Source src.old src.new) result }
    ensures bounded { IsBounded (Some (Command.Run gossip)) (used S.Source src.old src.new) }
    ensures count { S.faults src.old ≤ S.faults src.new }
    ensures complete { OnScript (used S.Source src.old src.new) (IfOk result IsReport) }
{
    let bytes = match read_all(alloc, src, MOST_BYTES + 1) {
        Ok(bytes) => bytes,
        Err(ReadFault::Failed) => {
            return Ok(Outcome::Line(Status::ReadFault, line(alloc, "read fault")?));
        }
        Err(ReadFault::NoMemory) => return Err(NoMemory),
    };
    match read_script(alloc, &bytes) {
        Ok(script) => match gossip {
            Gossip::InOrder => {
                let drained = serve(rt, gate, alloc, &script)?;
                Ok(Outcome::Report(script, drained))
            }
            Gossip::Scrambled(number) => {
                let drained = serve_scrambled(rt, gate, number, alloc, &script)?;
                Ok(Outcome::ScrambledReport(script, drained))
            }
        },
        Err(ScriptFault::Refused { line, code }) => {
            Ok(Outcome::Line(Status::Refused, refusal(alloc, line, code)?))
        }
        Err(ScriptFault::NoMemory) => Err(NoMemory),
    }
}

/// Runs the large work of a number.
fn run_work<E: Gate + Sync, H: Threads + Sync>(
    rt: &H,
    alloc: Global,
    number: u64,
    gate: &E,
) -> Result<Outcome, NoMemory>
    ensures { IfOk result (IsOwedByWork ⟦<Rings as Ran>⟧.made ⟦<ScrambledRings as Ran>⟧.made
        number) }
{
    let script = big_script(alloc, number)?;
    let drained = serve(rt, gate, alloc, &script)?;
    Ok(Outcome::Summary(number, script, drained))
}

/// Reads a script and the report after it, and judges the report.
fn check_input<S: Source>(alloc: Global, src: &mut S) -> Result<Outcome, NoMemory>
    ensures owed { Owes ⟦<Rings as Ran>⟧.made ⟦<ScrambledRings as Ran>⟧.made (Some Command.Check)
        (used S.Source src.old src.new) result }
    ensures bounded { IsBounded (Some Command.Check) (used S.Source src.old src.new) }
    ensures count { S.faults src.old ≤ S.faults src.new }
    ensures complete { OnReport (used S.Source src.old src.new) (Judges result) }
{
    let bytes = match read_all(alloc, src, MOST_CHECKED + 1) {
        Ok(bytes) => bytes,
        Err(ReadFault::Failed) => {
            return Ok(Outcome::Line(Status::ReadFault, line(alloc, "read fault")?));
        }
        Err(ReadFault::NoMemory) => return Err(NoMemory),
    };
    check_bytes(alloc, &bytes)
}

/// Judges the report that the bytes say after their script.
fn check_bytes(alloc: Global, bytes: &[u8]) -> Result<Outcome, NoMemory>
    ensures owed { IfOk result (IsOwedOf bytes.now) }
    ensures complete { WhereChecked bytes.now (Judges result) }
{
    if bytes.len() > MOST_CHECKED {
        return Ok(Outcome::Line(Status::Refused, refusal(alloc, 0, TOO_LONG)?));
    }
    let (front, after) = bytes.split_at(split_input(bytes));
    let script = match read_script(alloc, front) {
        Ok(script) => script,
        Err(ScriptFault::Refused { line, code }) => {
            return Ok(Outcome::Line(Status::Refused, refusal(alloc, line, code)?));
        }
        Err(ScriptFault::NoMemory) => return Err(NoMemory),
    };
    let report = match read_report(alloc, &script, after) {
        Ok(report) => report,
        Err(ReportFault::Form { line }) => {
            return Ok(Outcome::Line(Status::Refused, report_refusal(alloc, line)?));
        }
        Err(ReportFault::NoMemory) => return Err(NoMemory),
    };
    judged(alloc, &script, &report)
}

/// Judges a report of the script's form.
fn judged(alloc: Global, script: &Script, report: &Report) -> Result<Outcome, NoMemory>
    requires valid { IsValidScript script.now (placed script.now.config) }
    requires form { HasForm script.now (placed script.now.config) report.now }
    ensures { IfOk result (TellsVerdict script.now report.now) }
{
    let verdict = check(alloc, script, report)?;
    let text = verdict_line(alloc, script, verdict)?;
    Ok(Outcome::Line(status_of(verdict), text))
}

/// The status that goes with what a report is judged.
fn status_of(verdict: Verdict) -> Status
    ensures { result ≡ verdict_status verdict }
{
    match verdict {
        Verdict::Legal => Status::Done,
        Verdict::Command { .. } | Verdict::Final { .. } => Status::Unlawful,
    }
}

/// What is owed to these words and this source.
fn outcome_of<S: Source, E: Gate + Sync, H: Threads + Sync>(
    rt: &H,
    alloc: Global,
    words: &[String],
    src: &mut S,
    gate: &E,
) -> Result<Outcome, NoMemory>
    ensures owed { Owes ⟦<Rings as Ran>⟧.made ⟦<ScrambledRings as Ran>⟧.made
        (command_in words.now) (used S.Source src.old src.new) result }
    ensures bounded { IsBounded (command_in words.now) (used S.Source src.old src.new) }
    ensures untouched { LeavesAlone (command_in words.now) (used S.Source src.old src.new) }
    ensures count { S.faults src.old ≤ S.faults src.new }
    ensures complete { OnScriptOf (command_in words.now)
        (used S.Source src.old src.new) (IfOk result IsReport) }
    ensures judges { OnReportOf (command_in words.now)
        (used S.Source src.old src.new) (Judges result) }
{
    match read_words(words) {
        Some(Command::Run(gossip)) => run_script(rt, alloc, gossip, src, gate),
        Some(Command::Big(number)) => run_work(rt, alloc, number, gate),
        Some(Command::Check) => check_input(alloc, src),
        None => Ok(Outcome::Line(Status::Usage, line(alloc, "usage: anna COMMAND")?)),
    }
}

/// Does all that the program does: reads from the source what the words ask for, and writes to the sink.
///
/// The words are those after the program's name. `run` takes a script of at most 1,048,576 bytes, runs it
/// and writes its report; `run --scramble N` does so with gossip in disorder, told by a number of 1 to 20 digits.
/// `big N` runs the large work of such a number and writes its summary; it leaves the source alone. `check` takes a
/// script directly followed by a report, at most 16,777,216 bytes, and writes whether the report is legal, or its first
/// place that is not lawful. Where the words are of no accepted form the source is left alone, and where memory runs
/// out nothing is written.
///
/// A script and the large work are run in threads: every worker and every session takes its turns beside the others,
/// and the gate is called before each. Of what it says here nothing depends on the order in which they do.
///
/// Beside the status comes the run that was made: at status 0, and where the sink failed on its text.
pub fn run<S: Source, K: Sink, E: Gate + Sync, H: Threads + Sync>(
    rt: &H,
    alloc: Global,
    words: &[String],
    src: &mut S,
    sink: &mut K,
    gate: &E,
) -> (Status, Parts)
    // The status says what was owed, and that it was written.
    ensures ends { IsEnd (command_in words.now) (used S.Source src.old src.new)
        (wrote K.Sink sink.old sink.new)
        (ran_of ⟦<Rings as Ran>⟧.made ⟦<ScrambledRings as Ran>⟧.made result.1) result.0 }

    // No more than one byte more than the input may have is taken, and nothing where no input is asked for.
    ensures bounded { IsBounded (command_in words.now) (used S.Source src.old src.new) }
    ensures untouched { LeavesAlone (command_in words.now) (used S.Source src.old src.new) }

    // A script is run, unless an end failed or memory ran out, and so is the large work of a number.
    ensures complete { IsComplete (command_in words.now) (used S.Source src.old src.new)
        (wrote K.Sink sink.old sink.new) result.0 }
    ensures works { IsWorkComplete (command_in words.now)
        (wrote K.Sink sink.old sink.new) result.0 }

    // A report after its script is told to be legal, or not to be, unless an end failed or memory ran out.
    ensures judges { IsJudged (command_in words.now) (used S.Source src.old src.new)
        (wrote K.Sink sink.old sink.new) result.0 }

    // No count of faults falls.
    ensures counts { KeepsCounts (used S.Source src.old src.new) (wrote K.Sink sink.old sink.new) }
{
    match outcome_of(rt, alloc, words, src, gate) {
        Ok(Outcome::Report(script, drained)) => {
            let status = written(write_report(&script, &drained.report, sink));
            (status, Parts::Rings(drained))
        }
        Ok(Outcome::ScrambledReport(script, drained)) => {
            let status = written(write_report(&script, &drained.report, sink));
            (status, Parts::Scrambled(drained))
        }
        Ok(Outcome::Summary(number, script, drained)) => {
            let status = written(write_summary(number, &script, &drained.report, sink));
            (status, Parts::Rings(drained))
        }
        Ok(Outcome::Line(status, text)) => {
            (
                finish(sink, status, &text, Status::WriteFault),
                Parts::Nothing,
            )
        }
        Err(NoMemory) => (Status::NoMemory, Parts::Nothing),
    }
}

/// The status of a text that was written, or not.
fn written(wrote: Result<(), Failed>) -> Status
    ensures { result ≡ write_status wrote }
{
    match wrote {
        Ok(()) => Status::Done,
        Err(Failed) => Status::WriteFault,
    }
}

/// Runs the program on the words that it was given, where there are some. Words that are no text are of
/// no accepted form; where there was no room for them, nothing is read or written.
fn run_given<S: Source, K: Sink, E: Gate + Sync, H: Threads + Sync>(
    rt: &H,
    alloc: Global,
    words: Result<Vec<String>, WordsFault>,
    src: &mut S,
    sink: &mut K,
    gate: &E,
) -> (Status, Parts)
    ensures { IsRunOf words (used S.Source src.old src.new)
        (wrote K.Sink sink.old sink.new)
        (ran_of ⟦<Rings as Ran>⟧.made ⟦<ScrambledRings as Ran>⟧.made result.1) result.0 }
{
    match words {
        Ok(words) => run(rt, alloc, &words, src, sink, gate),
        Err(WordsFault::NotText) => run(rt, alloc, &[], src, sink, gate),
        Err(WordsFault::NoMemory) => (Status::NoMemory, Parts::Nothing),
    }
}

/// Runs the program on the words that it was given, and answers the number that it exits with.
pub fn exit_of<S: Source, K: Sink, E: Gate + Sync, H: Threads + Sync>(
    rt: &H,
    alloc: Global,
    words: Result<Vec<String>, WordsFault>,
    src: &mut S,
    sink: &mut K,
    gate: &E,
) -> u8
    ensures { IsExitOf words (used S.Source src.old src.new)
        (wrote K.Sink sink.old sink.new) result }
{
    let (status, _) = run_given(rt, alloc, words, src, sink, gate);
    status.number()
}

#[cfg(test)]
mod check_tests;
#[cfg(test)]
mod gate_tests;
#[cfg(test)]
mod limit_tests;
#[cfg(test)]
mod tests;
