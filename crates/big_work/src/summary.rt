//! Writes summaries.
ghost use Rattle.std.specs.Prelude.{◌≡◌, ◌<◌, ◌^◌, ◌++◌, ◌∷◌, [], codes, length, sum_by, None};
ghost use Rattle.std.specs.List.{All, flat_map};
ghost use Rattle.outside.specs.Gathering.{Adds, Wrote};
ghost use Rattle.outside.specs.Outside.{HasCause};
ghost use Rattle.report_lines.specs.Text.{line_text, short_words};
ghost use Rattle.session_known.specs.Form.{HasFewDots};
ghost use Rattle.session_known.specs.Legal.{IsLegal};
ghost use Rattle.big_work.specs.Big.{summary_text};
ghost use Rattle.big_work.specs.Parts.{first_cells, head_text, puts_of_all, puts_of_session, puts_told};

use itoa::{Buffer, Integer};
use lattice_laws::Items;
use outside::{Failed, Out, Sink};
use report_text::write_short;
use session_known::{Answer, FinalCell, Report, Script};

/// Writes the summary of a legal report of a script that a number made: the number, how many commands
/// the script has and how many puts were accepted, and of each key in order the clock and the value of
/// its final cell. `Failed` comes only where the sink's count of faults rose; then a front of the summary
/// was written. Takes no memory.
pub fn write_summary<K: Sink>(
    number: u64,
    script: &Script,
    report: &Report,
    sink: &mut K,
) -> Result<(), Failed>
    requires legal { IsLegal script.now report.now }
    ensures wrote { Wrote (K.written sink.old) (K.written sink.new)
        (summary_text number script.now report.now) result }
    ensures cause { HasCause (K.faults sink.old) (K.faults sink.new) result }
{
    let commands = count_commands(script);
    let puts = count_puts(report.answers.as_slice());
    write_head(number, commands, puts, sink)?;
    write_cells(script, report.finals.as_slice(), sink)?;
    write_end(sink)
}

// ---- counts

/// How many commands a script has. It fits 128 bits, whatever the script.
fn count_commands(script: &Script) -> u128
    ensures { result ≡ sum_by (λ plan. length plan.lines) script.now.sessions }
{
    let mut commands = 0;
    for plan in script.sessions.as_slice() {
        commands += plan.lines.as_slice().len() as u128;
    }
    commands
}

/// How many puts were accepted, as the answers tell.
fn count_puts(answers: &[Items<Answer>]) -> u128
    requires { puts_of_all answers.now < 2 ^ 128 }
    ensures { result ≡ puts_of_all answers.now }
{
    let mut puts = 0;
    for answers in answers {
        puts += count_session_puts(answers.as_slice());
    }
    puts
}

/// How many of a session.
fn count_session_puts(answers: &[Answer]) -> u128
    requires { puts_of_session answers.now < 2 ^ 128 }
    ensures { result ≡ puts_of_session answers.now }
{
    let mut puts = 0;
    for answer in answers {
        puts += u128::from(puts_told(answer));
    }
    puts
}

/// How many puts an answer says that it accepts.
fn puts_told(answer: &Answer) -> u32
    ensures { result ≡ puts_told answer.now }
{
    match answer {
        Answer::Put { .. } => 1,
        Answer::Committed { puts, .. } => *puts,
        _ => 0,
    }
}

// ---- lines

/// Writes the lines before the cells.
fn write_head<K: Sink>(number: u64, commands: u128, puts: u128, sink: &mut K) -> Result<(), Failed>
    ensures wrote { Wrote (K.written sink.old) (K.written sink.new)
        (head_text number commands puts) result }
    ensures cause { HasCause (K.faults sink.old) (K.faults sink.new) result }
{
    let mut out = Out::new(sink);
    write_numbered(&mut out, b"anna big ", number);
    write_numbered(&mut out, b"commands ", commands);
    write_numbered(&mut out, b"puts ", puts);
    out.finish()
}

/// Writes a line that ends with a number.
fn write_numbered<K: Sink, N: Integer>(out: &mut Out<'_, K>, words: &[u8], number: N)
    ensures { Adds K.written K.faults out.old out.new
        (words.now ++ (N.text number ++ codes "\n")) }
{
    let mut buffer = Buffer::new();
    out.write(words);
    out.write(buffer.format(number).as_bytes());
    out.write(b"\n");
}

/// Writes the short line of each cell whose key differs from that of the cell before. Where the cells
/// stand by key, and of each key by worker, it is that of the replica with the least number.
fn write_cells<K: Sink>(script: &Script, finals: &[FinalCell], sink: &mut K) -> Result<(), Failed>
    requires few { All (λ cell. HasFewDots cell.value) finals.now }
    ensures wrote { Wrote (K.written sink.old) (K.written sink.new)
        (flat_map (λ cell. line_text (short_words script.now cell)) (first_cells None finals.now))
        result }
    ensures cause { HasCause (K.faults sink.old) (K.faults sink.new) result }
{
    let mut last = None;
    for cell in finals {
        if last == Some(cell.key) {
            continue;
        }
        write_short(script, cell, sink)?;
        last = Some(cell.key);
    }
    Ok(())
}

/// Writes the last line.
fn write_end<K: Sink>(sink: &mut K) -> Result<(), Failed>
    ensures wrote { Wrote (K.written sink.old) (K.written sink.new) (codes "end\n") result }
    ensures cause { HasCause (K.faults sink.old) (K.faults sink.new) result }
{
    let mut out = Out::new(sink);
    out.write(b"end\n");
    out.finish()
}
