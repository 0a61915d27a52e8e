//! Writes reports.
ghost use Rattle.std.specs.List.{All, AllZip, flat_map};
ghost use Rattle.session_known.specs.Form.{HasFewDots, HasFormSomewhere};
ghost use Rattle.outside.specs.Gathering.{Adds, Wrote};
ghost use Rattle.outside.specs.Outside.{HasCause};
ghost use Rattle.report_lines.specs.Text.{level_word, after_words, session_words, answers_lines, sessions_lines, text_of, line_text, final_words, short_words};
ghost use Rattle.report_text.specs.Writes.{MayAnswer, MayAnswerAll, AddsLine, AddsLines, AddsWords, session_text};

use crate::answers::write_answer;
use crate::cells::{write_cell, write_clock_words, write_value_words};
use crate::clocks::{write_key, write_name, write_spaced_session, write_spaced_worker};
use crate::keys::write_head;
use lattice_laws::Items;
use report_lines::level_text;
use script_reader::outside::{Failed, Out, Sink};
use session_known::{Answer, FinalCell, Level, Line, Report, Script, SessionPlan};

/// Writes the text of a report of the script's form. `Failed` comes only where the sink's count of
/// faults rose; then a front of the text was written. Takes no memory.
pub fn write_report<K: Sink>(script: &Script, report: &Report, sink: &mut K) -> Result<(), Failed>
    requires valid { HasFormSomewhere script.now report.now }
    ensures wrote { Wrote (K.written sink.old) (K.written sink.new)
        (text_of script.now report.now) result }
    ensures cause { HasCause (K.faults sink.old) (K.faults sink.new) result }
{
    let mut out = Out::new(sink);
    write_head(&mut out, script, report.finals.as_slice());
    write_sessions(&mut out, script, report.answers.as_slice());
    out.write(b"final\n");
    write_finals(&mut out, script, report.finals.as_slice());
    out.write(b"end\n");
    out.finish()
}

/// Writes the line of a final cell, `K @W CELL` and a line feed, with the names that the script gives
/// its keys and sessions, where a counter has at most 4,096 dots. `Failed` as for [`write_report`].
/// Takes no memory.
pub fn write_final<K: Sink>(script: &Script, cell: &FinalCell, sink: &mut K) -> Result<(), Failed>
    requires few { HasFewDots cell.now.value }
    ensures wrote { Wrote (K.written sink.old) (K.written sink.new)
        (line_text (final_words script.now cell.now)) result }
    ensures cause { HasCause (K.faults sink.old) (K.faults sink.new) result }
{
    let mut out = Out::new(sink);
    write_final_line(&mut out, script, cell);
    out.finish()
}

/// Writes the short line of a cell, `K clock CLOCK value VALUE` and a line feed, for a summary, with the
/// names that the script gives its keys and sessions, where a counter has at most 4,096 dots. `Failed` as
/// for [`write_report`]. Takes no memory.
pub fn write_short<K: Sink>(script: &Script, cell: &FinalCell, sink: &mut K) -> Result<(), Failed>
    requires few { HasFewDots cell.now.value }
    ensures wrote { Wrote (K.written sink.old) (K.written sink.new)
        (line_text (short_words script.now cell.now)) result }
    ensures cause { HasCause (K.faults sink.old) (K.faults sink.new) result }
{
    let mut out = Out::new(sink);
    write_short_line(&mut out, script, cell);
    out.finish()
}

// ---- sessions

/// Writes the word of a level.
fn write_level<K: Sink>(out: &mut Out<'_, K>, level: Level)
    ensures { Adds K.written K.faults out.old out.new (level_word level) }
{
    out.write(level_text(level));
}

/// Writes the session that a session comes after, where it comes after one.
fn write_after<K: Sink>(out: &mut Out<'_, K>, script: &Script, after: Option<u16>)
    ensures { AddsWords K.Sink out.old out.new (after_words script.now after) }
{
    match after {
        None => (),
        Some(session) => {
            out.write(b" ");
            out.write(b"after");
            write_spaced_session(out, script, session);
        }
    }
}

/// Writes the line that a session begins with.
fn write_session_line<K: Sink>(out: &mut Out<'_, K>, script: &Script, plan: &SessionPlan)
    ensures { AddsLine K.Sink out.old out.new (session_words script.now plan.now) }
{
    out.write(b"session");
    out.write(b" ");
    write_name(out, &plan.name);
    out.write(b" ");
    write_level(out, plan.level);
    write_after(out, script, plan.after);
    out.write(b"\n");
}

/// Writes the lines of a session's answers.
fn write_answers<K: Sink>(out: &mut Out<'_, K>, script: &Script, lines: &[Line], answers: &[Answer])
    requires { AllZip (MayAnswer script.now) lines.now answers.now }
    ensures { AddsLines K.Sink out.old out.new (answers_lines script.now lines.now answers.now) }
{
    for (line, answer) in lines.iter().zip(answers) {
        write_answer(out, script, line, answer);
    }
}

/// Writes the lines of a session.
fn write_session_part<K: Sink>(
    out: &mut Out<'_, K>,
    script: &Script,
    plan: &SessionPlan,
    answers: &[Answer],
)
    requires { MayAnswerAll script.now plan.now answers.now }
    ensures { Adds K.written K.faults out.old out.new
        (session_text script.now plan.now answers.now) }
{
    write_session_line(out, script, plan);
    write_answers(out, script, plan.lines.as_slice(), answers);
}

/// Writes the lines of the sessions.
fn write_sessions<K: Sink>(out: &mut Out<'_, K>, script: &Script, answers: &[Items<Answer>])
    requires { AllZip (MayAnswerAll script.now) script.now.sessions answers.now }
    ensures { AddsLines K.Sink out.old out.new
        (sessions_lines script.now script.now.sessions answers.now) }
{
    for (plan, answers) in script.sessions.as_slice().iter().zip(answers) {
        write_session_part(out, script, plan, answers.as_slice());
    }
}

// ---- final cells

/// Writes the line of a final cell.
fn write_final_line<K: Sink>(out: &mut Out<'_, K>, script: &Script, cell: &FinalCell)
    requires { HasFewDots cell.now.value }
    ensures { AddsLine K.Sink out.old out.new (final_words script.now cell.now) }
{
    write_key(out, script, cell.key);
    write_spaced_worker(out, cell.worker);
    write_cell(out, script, &cell.clock, cell.top, &cell.value);
    out.write(b"\n");
}

/// Writes the short line of a cell.
fn write_short_line<K: Sink>(out: &mut Out<'_, K>, script: &Script, cell: &FinalCell)
    requires { HasFewDots cell.now.value }
    ensures { AddsLine K.Sink out.old out.new (short_words script.now cell.now) }
{
    write_key(out, script, cell.key);
    write_clock_words(out, script, &cell.clock);
    write_value_words(out, script, &cell.value);
    out.write(b"\n");
}

/// Writes the lines of the final cells.
fn write_finals<K: Sink>(out: &mut Out<'_, K>, script: &Script, finals: &[FinalCell])
    requires { All (λ cell. HasFewDots cell.value) finals.now }
    ensures { Adds K.written K.faults out.old out.new
        (flat_map (λ cell. line_text (final_words script.now cell)) finals.now) }
{
    for cell in finals {
        write_final_line(out, script, cell);
    }
}
