//! The first commands of a work, and the summary of a small report.
ghost use Rattle.std.specs.Prelude.{◌≡◌, [], ◌∷◌, IfOk};
ghost use Rattle.big_work.specs.Small as small;

use super::*;
use basic_lattices::{MaxNum, Word};
use clock_lattice::Clock;
use composed_value::{Kind, Payload, Value};
use lattice_laws::{Items, Maybe};
use outside::{Failed, MemSink, Sink, SureSink};
use placement::{Config, KeyPlace, Name};
use session_known::{Answer, FinalCell, Level, Line, Report, Script, SessionPlan};
use std::alloc::Global;
use std::test::Fail;

/// A command of a script, by its session's and its own place from 0.
fn command_at(script: &Script, session: usize, command: usize) -> Option<&Line> {
    let plan = script.sessions.as_slice().get(session)?;
    plan.lines.as_slice().get(command)
}

/// The text of a word.
fn text_of(word: &Word) -> &str {
    std::str::from_utf8(word.as_bytes()).unwrap_or("?")
}

/// A command in words.
fn written(alloc: Global, line: &Line) -> Result<String, Fail> {
    Ok(match line {
        Line::Put { key, payload } => match payload {
            Payload::Max(number) => format!(in alloc; "put k{key} {number}")?,
            Payload::On => format!(in alloc; "put k{key} on")?,
            Payload::Add(word) => format!(in alloc; "put k{key} {}", text_of(word))?,
            Payload::Field(word, number) => {
                format!(in alloc; "put k{key} {} {number}", text_of(word))?
            }
            _ => format!(in alloc; "put k{key} of another kind")?,
        },
        Line::Get { key, worker: None } => format!(in alloc; "get k{key}")?,
        Line::Begin => format!(in alloc; "begin")?,
        Line::Commit => format!(in alloc; "commit")?,
        _ => format!(in alloc; "another")?,
    })
}

/// Commands of the work of number 1, each with its session's and its own place from 0.
const COMMANDS: [(usize, usize, &str); 20] = [
    (0, 0, "put k26 on"),
    (0, 1, "put k27 w45"),
    (0, 2, "put k23 w39"),
    (0, 3, "put k28 f2 80"),
    (0, 4, "put k1 87034"),
    (0, 5, "put k27 w45"),
    (0, 399, "get k11"),
    (1, 0, "begin"),
    (1, 1, "put k23 w29"),
    (1, 2, "put k9 247956"),
    (1, 399, "commit"),
    (2, 0, "get k18"),
    (2, 399, "put k29 418139"),
    (3, 0, "put k11 w49"),
    (4, 1, "get k12"),
    (5, 0, "put k17 194000"),
    (6, 1, "put k28 f8 915"),
    (7, 1, "put k17 527022"),
    (7, 398, "get k1"),
    (7, 399, "commit"),
];

#[test]
fn commands_are_drawn(rt: HostRuntime) -> Result<(), Fail> {
    let script = big_script(rt.alloc(), 1)?;
    for (session, command, want) in COMMANDS {
        let Some(line) = command_at(&script, session, command) else {
            panic!(rt; "no command {command} in session {session}");
        };
        assert_eq!(rt; written(rt.alloc(), line)?.as_str(), want);
    }
    Ok(())
}

#[test]
fn keys_and_sessions_take_turns(rt: HostRuntime) -> Result<(), Fail> {
    let script = big_script(rt.alloc(), u64::MAX)?;
    assert_eq!(rt; script.config.keys.as_slice().len(), 32);
    assert_eq!(rt; script.key_name(1), b"k1".as_slice());
    assert_eq!(rt; script.key_name(32), b"k32".as_slice());
    let kinds = [Kind::Max, Kind::Or, Kind::Set, Kind::Map, Kind::Max];
    for (kind, want) in script.kinds.as_slice().iter().zip(&kinds) {
        assert_eq!(rt; *kind, *want);
    }
    let levels = [
        Level::Eventual,
        Level::Committed,
        Level::Causal,
        Level::Eventual,
    ];
    for (plan, want) in script.sessions.as_slice().iter().zip(&levels) {
        assert_eq!(rt; plan.level, *want);
        assert_eq!(rt; plan.lines.as_slice().len(), 400);
    }
    assert_eq!(rt; script.sessions.as_slice().len(), 8);
    assert_eq!(rt; script.session_name(8), b"s8".as_slice());
    Ok(())
}

/// A list of one item.
fn one<T: Drop>(alloc: Global, item: T) -> Result<Items<T>, Fail>
    ensures { IfOk result (λ items. items ≡ item ∷ []) }
{
    let mut items = Vec::new(alloc);
    items.push(item)?;
    Ok(Items::new(items))
}

/// A script of one key with two replicas and one session, whose transaction puts once.
fn small_script(alloc: Global) -> Result<Script, Fail>
    ensures { IfOk result (λ script. script ≡ small.small_script) }
{
    let mut lines = one(alloc, Line::Begin)?;
    lines.push(Line::Put {
        key: 1,
        payload: Payload::Max(7),
    })?;
    lines.push(Line::Commit)?;
    let mut pins = one(alloc, 2)?;
    pins.push(1)?;
    let key = KeyPlace {
        name: Name::of(b"a")?,
        pins,
        factor: None,
    };
    let plan = SessionPlan {
        name: Name::of(b"s")?,
        level: Level::Committed,
        after: None,
        lines,
    };
    Ok(Script {
        version: 1,
        config: Config {
            workers: 2,
            factor: 1,
            keys: one(alloc, key)?,
        },
        round: 4,
        kinds: one(alloc, Kind::Max)?,
        sessions: one(alloc, plan)?,
    })
}

/// The cell of its key at a worker in the end.
fn small_cell(alloc: Global, worker: u16) -> Result<FinalCell, Fail>
    ensures { IfOk result (λ cell. cell ≡ small.small_cell worker) }
{
    let mut clock = Clock::new(alloc);
    clock.raise(1, 1)?;
    Ok(FinalCell {
        key: 1,
        worker,
        clock,
        top: 1,
        value: Value::Max(Maybe::Is(MaxNum(7))),
    })
}

/// A report of it.
fn small_report(alloc: Global) -> Result<Report, Fail>
    ensures { IfOk result (λ report. report ≡ small.small_report) }
{
    let mut answers = one(alloc, Answer::Begun)?;
    answers.push(Answer::Held)?;
    answers.push(Answer::Committed {
        puts: 1,
        lamport: 1,
    })?;
    let mut finals = one(alloc, small_cell(alloc, 1)?)?;
    finals.push(small_cell(alloc, 2)?)?;
    Ok(Report {
        answers: one(alloc, answers)?,
        finals,
    })
}

/// Writes the summary of the report to a sink.
fn sum_up<K: Sink>(alloc: Global, sink: &mut K) -> Result<Result<(), Failed>, Fail> {
    let script = small_script(alloc)?;
    let report = small_report(alloc)?;
    Ok(write_summary(12, &script, &report, sink))
}

#[test]
fn a_small_report_is_summed_up(rt: HostRuntime) -> Result<(), Fail> {
    let mut sink = SureSink::new(rt.alloc(), 256)?;
    assert_eq!(rt; sum_up(rt.alloc(), &mut sink)?, Ok(()));
    let want = b"anna big 12\ncommands 3\nputs 1\na clock s:1 value 7\nend\n";
    assert_eq!(rt; sink.written(), want.as_slice());
    Ok(())
}

#[test]
fn a_failed_write_ends_a_summary(rt: HostRuntime) -> Result<(), Fail> {
    let mut sink = MemSink::new(rt.alloc(), [2].to_vec(rt.alloc())?)?;
    assert_eq!(rt; sum_up(rt.alloc(), &mut sink)?, Err(Failed));
    let want = b"anna big 12\ncommands 3\nputs 1\n";
    assert_eq!(rt; sink.written(), want.as_slice());
    Ok(())
}
