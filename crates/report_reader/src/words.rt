//! Words of a report, read: numbers, names and workers, and texts cut at a byte.
ghost use Rattle.std.specs.Prelude.{◌≡◌, ◌↔◌, ◌<◌, ◌^◌, ◌==◌, length, codes, decimal, IfOk, IsTrue};
ghost use Rattle.std.specs.List.{slice_split};
ghost use Rattle.basic_lattices.specs.Word.{IsWord};
ghost use Rattle.placement.specs.Config.{IsOneOf};
ghost use Rattle.session_known.specs.Script.{IsValid, key_name, session_name};
ghost use Rattle.script_reader.specs.Words.{texts};
ghost use Rattle.report_reader.specs.Cuts.{CutsAt, FindsPart, with_braces, with_brace, with_parenthesis};
ghost use Rattle.report_reader.specs.Reads.{Reads};
ghost use Rattle.report_lines.specs.Text.{worker_word};

use basic_lattices::Word;
use itoa::{Buffer, Integer};
use lattice_laws::NoMemory;
use session_known::Script;
use std::alloc::Global;

// ---- texts in parts

/// A text cut at the first place of a byte, which is in neither part.
pub(crate) fn cut_at(text: &[u8], byte: u8) -> Option<(&[u8], &[u8])>
    ensures { CutsAt byte text.now result }
{
    let at = text.iter().position(|b| *b == byte)?;
    Some((&text[..at], &text[at + 1..]))
}

/// What stands between the places of a byte, an empty text too.
pub(crate) fn pieces_of(alloc: Global, text: &[u8], byte: u8) -> Result<Vec<&[u8]>, NoMemory>
    ensures { IfOk result (λ pieces. texts pieces.items ≡ slice_split (λ b. b == byte) text.now) }
{
    Ok(text.split(|b| *b == byte).collect(alloc)?)
}

/// Whether a text says that there is nothing.
pub(crate) fn is_none(text: &[u8]) -> bool
    ensures { IsTrue result ↔ (text.now ≡ codes "none") }
{
    text == b"none".as_slice()
}

/// What stands between the braces around it.
pub(crate) fn in_braces(text: &[u8]) -> Option<&[u8]>
    ensures { FindsPart with_braces text.now result }
{
    let [b'{', inner @ .., b'}'] = text else {
        return None;
    };
    Some(inner)
}

/// What stands before the parenthesis at the end.
pub(crate) fn before_parenthesis(text: &[u8]) -> Option<&[u8]>
    ensures { FindsPart with_parenthesis text.now result }
{
    let [inner @ .., b')'] = text else {
        return None;
    };
    Some(inner)
}

/// What stands before the brace at the end.
pub(crate) fn before_brace(text: &[u8]) -> Option<&[u8]>
    ensures { FindsPart with_brace text.now result }
{
    let [inner @ .., b'}'] = text else {
        return None;
    };
    Some(inner)
}

// ---- words

/// Reads a word.
pub(crate) fn read_word(text: &[u8]) -> Option<Word>
    ensures { Reads IsWord (λ word. word) text.now result }
{
    Word::of(text).ok()
}

// ---- numbers

/// Reads a number of 64 bits: decimal digits without leading zeros.
pub(crate) fn read_number(text: &[u8]) -> Option<u64>
    ensures { Reads (λ n. n < 2 ^ 64) decimal text.now result }
{
    let Ok(written) = str::from_utf8(text) else {
        return None;
    };
    let Ok(number) = written.parse() else {
        return None;
    };
    if !is_written(number, text) {
        return None;
    }
    Some(number)
}

/// Reads a number of 32 bits.
pub(crate) fn read_small_number(text: &[u8]) -> Option<u32>
    ensures { Reads (λ n. n < 2 ^ 32) decimal text.now result }
{
    let number = read_number(text)?;
    let Ok(small) = u32::try_from(number) else {
        return None;
    };
    Some(small)
}

/// Whether a number is written as the text.
pub(crate) fn is_written<N: Integer>(number: N, text: &[u8]) -> bool
    ensures { IsTrue result ↔ (text.now ≡ N.text number) }
{
    let mut buffer = Buffer::new();
    buffer.format(number).as_bytes() == text
}

// ---- names

/// Reads the name of a session.
pub(crate) fn read_session(script: &Script, text: &[u8]) -> Option<u16>
    requires { IsValid script.now }
    ensures { Reads (IsOneOf (length script.now.sessions))
        (session_name script.now) text.now result }
{
    let sessions = script.sessions.as_slice();
    let place = sessions
        .iter()
        .position(|plan| plan.name.as_bytes() == text)?;
    Some((place + 1) as u16)
}

/// Reads the name of a key.
pub(crate) fn read_key(script: &Script, text: &[u8]) -> Option<u16>
    requires { IsValid script.now }
    ensures { Reads (IsOneOf (length script.now.config.keys))
        (key_name script.now) text.now result }
{
    let keys = script.config.keys.as_slice();
    let place = keys.iter().position(|key| key.name.as_bytes() == text)?;
    Some((place + 1) as u16)
}

/// Reads a worker, `@` and its number.
pub(crate) fn read_worker(script: &Script, text: &[u8]) -> Option<u16>
    requires { IsValid script.now }
    ensures { Reads (IsOneOf script.now.config.workers) worker_word text.now result }
{
    let [b'@', digits @ ..] = text else {
        return None;
    };
    let number = read_number(digits)?;
    let Ok(number) = u16::try_from(number) else {
        return None;
    };
    if number < 1 || script.config.workers < number {
        return None;
    }
    Some(number)
}
