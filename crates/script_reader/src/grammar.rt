//! Reads scripts.
ghost use Rattle.std.specs.Prelude.{◌≡◌, ℕ, ◌≤◌, ◌^◌, ◌+◌, None, length, IfOk, IfErr, MatchOption};
ghost use Rattle.placement.specs.Config.{placed};
ghost use Rattle.session_known.specs.Script.{IsValidScript};
ghost use Rattle.session_known.specs.declared.script.Script.{Script};
ghost use Rattle.script_reader.specs.Codes.{number_of_code};
ghost use Rattle.script_reader.specs.Faults.{is_text_byte as text_byte};
ghost use Rattle.script_reader.specs.Grammar.{IsScript, IsScriptOf, IsRefused, IsWhyNoScript, IsReadAs, IsRefusedAs, sessions_named};
ghost use Rattle.script_reader.specs.LineReads.{ReadsLine, IsWhyNoLines, named_after, says_end, fault_at as fault_there};
ghost use Rattle.script_reader.specs.Lines.{statement_in, statement_of, Says};
ghost use Rattle.script_reader.specs.Reader.{IsKept};
ghost use Rattle.script_reader.specs.Words.{texts};

use crate::code::Code;
use crate::fault::ScriptFault;
use crate::keyword::Keyword;
use crate::lines::lines_of;
use crate::names::Names;
use crate::reader::{LineFault, Reader};
use crate::words::words_of;
use lattice_laws::NoMemory;
use session_known::Script;
use std::alloc::Global;

/// The most bytes that a script may have.
pub const MOST_BYTES: usize = 1_048_576;

/// What the words of a line say: its first word, and the words after it. Nothing, where there are
/// none or the line is a comment.
fn statement<'w, 'a>(words: &'w [&'a [u8]]) -> Option<(Keyword, &'w [&'a [u8]])>
    ensures { MatchOption result
        (statement_in (texts words.now) ≡ None)
        (λ found. Says (texts words.now) found.0 (texts found.1.now)) }
{
    let [first, rest @ ..] = words else {
        return None;
    };
    if first.first() == Some(&b'#') {
        return None;
    }
    Some((Keyword::of(first), rest))
}

/// Adds the name of a session line, and says whether the line is an end line.
fn add_session<'a>(alloc: Global, names: &mut Names<'a>, line: &'a [u8]) -> Result<bool, NoMemory>
    ensures { IfOk result (λ ended. (ended ≡ says_end (statement_of line.now))
        × (names.new ≡ named_after names.old (statement_of line.now))) }
{
    let words = words_of(alloc, line)?;
    let Some((keyword, rest)) = statement(&words) else {
        return Ok(false);
    };
    if keyword == Keyword::Session {
        let name = match rest {
            [name, ..] => name,
            [] => b"".as_slice(),
        };
        names.add(name)?;
    }
    Ok(keyword == Keyword::End)
}

/// The sessions that an await may name: those of all session lines before the first end line.
fn session_names<'a>(alloc: Global, lines: &[&'a [u8]]) -> Result<Names<'a>, NoMemory>
    ensures { IfOk result (λ names. names ≡ sessions_named (texts lines.now)) }
{
    let mut names = Names::new(alloc);
    for line in lines {
        if add_session(alloc, &mut names, line)? {
            return Ok(names);
        }
    }
    Ok(names)
}

/// Whether a byte may stand in a line with words: a tab, and 0x20 to 0x7E.
fn is_text_byte(byte: u8) -> bool
    ensures { result ≡ text_byte byte }
{
    byte == b'\t' || (b' '..=b'~').contains(&byte)
}

/// Reads a line after others, of which one is an end line where `ended` is true. Says the same with
/// this line.
fn read_line<'a>(
    alloc: Global,
    reader: &mut Reader<'a>,
    ended: bool,
    line: &'a [u8],
) -> Result<bool, LineFault>
    requires kept { IsKept reader.old }
    ensures { ReadsLine reader.old ended line.now result reader.new }
{
    let words = words_of(alloc, line)?;
    let Some((keyword, rest)) = statement(&words) else {
        return Ok(ended);
    };
    if ended {
        return Err(LineFault::Code(Code::AfterEnd));
    }
    if !line.iter().all(|byte| is_text_byte(*byte)) {
        return Err(LineFault::Code(Code::Byte));
    }
    match reader.take(alloc, keyword, rest) {
        Ok(()) => Ok(keyword == Keyword::End),
        Err(fault) => Err(fault),
    }
}

/// Reads the lines of a script, one after another.
fn read_lines(alloc: Global, lines: &[&[u8]]) -> Result<Script, ScriptFault>
    requires { length lines.now ≤ 2 ^ 20 + 1 }
    ensures script { IfOk result (IsScriptOf (sessions_named (texts lines.now)) (texts lines.now)) }
    ensures refused { IfErr result
        (IsWhyNoLines (sessions_named (texts lines.now)) (texts lines.now)) }
{
    let names = session_names(alloc, lines)?;
    let mut reader = Reader::new(alloc, names);
    let mut ended = false;
    for (i, line) in lines.iter().enumerate() {
        match read_line(alloc, &mut reader, ended, line) {
            Ok(now) => ended = now,
            Err(fault) => return Err(fault_at(i + 1, fault)),
        }
    }
    if !ended {
        return Err(refused(lines.len() + 1, Code::NoEnd));
    }
    Ok(reader.into_script(alloc)?)
}

/// A fault at a line, counted from 1.
fn fault_at(line: usize, fault: LineFault) -> ScriptFault
    requires { line ≤ 2 ^ 20 + 2 }
    ensures { result ≡ fault_there line fault }
{
    match fault {
        LineFault::Code(code) => refused(line, code),
        LineFault::NoMemory => ScriptFault::NoMemory,
    }
}

/// The refusal of a line, counted from 1, or 0 for the whole text.
fn refused(line: usize, code: Code) -> ScriptFault
    requires { line ≤ 2 ^ 20 + 2 }
    ensures { result ≡ ScriptFault.Refused line (number_of_code code) }
{
    ScriptFault::Refused {
        line: line as u32,
        code: code.number(),
    }
}

/// Reads a script.
///
/// Refused is exactly what is no script: more than 1,048,576 bytes (code 12 at line 0), else the first
/// line at fault with the least code whose condition holds, else a script with no end (code 10 after
/// its last line). Takes time linear in the bytes on average: names are found by their hashes.
pub fn read_script(alloc: Global, bytes: &[u8]) -> Result<Script, ScriptFault>
    ensures script { IfOk result (IsScript bytes.now) }
    ensures refused { IfErr result (IsWhyNoScript bytes.now) }

    // What is read is valid.
    ensures valid { IfOk result (λ script. IsValidScript script (placed script.config)) }

    // What is a script is read as that script, and what is refused is refused so.
    ensures accepts { (script : Script) → IsScript bytes.now script → IsReadAs script result }
    ensures refuses { (line code : ℕ)
        → IsRefused bytes.now line code → IsRefusedAs line code result }
{
    read_text(alloc, bytes)
}

/// Reads a text.
fn read_text(alloc: Global, bytes: &[u8]) -> Result<Script, ScriptFault>
    ensures script { IfOk result (IsScript bytes.now) }
    ensures refused { IfErr result (IsWhyNoScript bytes.now) }
{
    if bytes.len() > MOST_BYTES {
        return Err(refused(0, Code::TooLong));
    }
    let lines = lines_of(alloc, bytes)?;
    read_lines(alloc, &lines)
}
