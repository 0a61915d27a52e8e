//! Values, read.
ghost use Rattle.std.specs.Prelude.{◌<◌, ◌^◌, ⊤, IfOk, map};
ghost use Rattle.std.specs.List.{join_with_byte};
ghost use Rattle.basic_lattices.specs.TextSet.{IsTextSet};
ghost use Rattle.composed_value.specs.Value.{IsFields, IsBottomOr};
ghost use Rattle.session_known.specs.Form.{IsValueIn};
ghost use Rattle.session_known.specs.Script.{IsValid};
ghost use Rattle.report_reader.specs.ReadRows.{IsRow};
ghost use Rattle.report_reader.specs.ReadValues.{greatest_word, flag_word, IsField, IsStampIn, stamp_text, IsStampedIn, last_word, IsVersionIn, AreVersionsIn};
ghost use Rattle.report_reader.specs.Reads.{Reads};
ghost use Rattle.report_lines.specs.Text.{braced, field_text, fields_text, stamped_text, version_text, each_version_text, versions_word, value_word};

use crate::clocks::read_clocked;
use crate::dots::{read_counter, read_or_set};
use crate::words::{
    before_parenthesis, cut_at, in_braces, is_none, pieces_of, read_number, read_session,
    read_small_number, read_word,
};
use basic_lattices::{FieldMax, Flag, MapOf, MaxNum, Stamped, TextSet, Word};
use composed_value::{Kind, Value};
use lattice_laws::{Lattice, Maybe, NoMemory};
use session_known::Script;
use std::alloc::Global;
use version_antichain::{Version, Versions};

/// Reads a value of a kind.
pub(crate) fn read_value(
    alloc: Global,
    script: &Script,
    kind: Kind,
    text: &[u8],
) -> Result<Option<Value>, NoMemory>
    requires { IsValid script.now }
    ensures { IfOk result (Reads (IsValueIn script.now kind) (value_word script.now) text.now) }
{
    match kind {
        Kind::Max => Ok(read_greatest(text).map(Value::Max)),
        Kind::Or => Ok(read_flag(text).map(Value::Or)),
        Kind::Set => Ok(read_set(alloc, text)?.map(Value::Set)),
        Kind::Map => Ok(read_map(alloc, text)?.map(Value::Map)),
        Kind::Last => Ok(read_last(alloc, script, text)?.map(Value::Last)),
        Kind::Versions => Ok(read_versions(alloc, script, text)?.map(Value::Versions)),
        Kind::Counter => Ok(read_counter(alloc, script, text)?.map(Value::Counter)),
        Kind::OrSet => Ok(read_or_set(alloc, script, text)?.map(Value::OrSet)),
    }
}

// ---- numbers and flags

/// Reads the greatest number that was put.
fn read_greatest(text: &[u8]) -> Option<Maybe<MaxNum>>
    ensures { Reads (IsBottomOr (λ number. number < 2 ^ 64)) greatest_word text.now result }
{
    if is_none(text) {
        return Some(Maybe::Bottom);
    }
    Some(Maybe::Is(MaxNum(read_number(text)?)))
}

/// Reads whether a flag is on.
fn read_flag(text: &[u8]) -> Option<Flag>
    ensures { Reads (λ _. ⊤) flag_word text.now result }
{
    match text {
        b"on" => Some(Flag(true)),
        b"none" => Some(Flag(false)),
        _ => None,
    }
}

// ---- sets

/// Reads a set of words.
fn read_set(alloc: Global, text: &[u8]) -> Result<Option<TextSet>, NoMemory>
    ensures { IfOk result (Reads IsTextSet braced text.now) }
{
    if is_none(text) {
        return Ok(Some(TextSet::new(alloc)));
    }
    match in_braces(text) {
        Some(words) => read_words(alloc, words),
        None => Ok(None),
    }
}

/// Reads the words of a set, of which there are some, between commas.
fn read_words(alloc: Global, text: &[u8]) -> Result<Option<TextSet>, NoMemory>
    ensures { IfOk result (Reads (IsRow IsTextSet) (join_with_byte 44) text.now) }
{
    let pieces = pieces_of(alloc, text, b',')?;
    let mut words = TextSet::new(alloc);
    for piece in &pieces {
        let Some(word) = read_word(piece) else {
            return Ok(None);
        };
        if !words.push(word)? {
            return Ok(None);
        }
    }
    words.attest();
    Ok(Some(words))
}

// ---- maps

/// Reads a map.
fn read_map(alloc: Global, text: &[u8]) -> Result<Option<FieldMax>, NoMemory>
    ensures { IfOk result (Reads IsFields (λ fields. braced (map field_text fields)) text.now) }
{
    if is_none(text) {
        return Ok(Some(MapOf::new(alloc)));
    }
    match in_braces(text) {
        Some(fields) => read_fields(alloc, fields),
        None => Ok(None),
    }
}

/// Reads the fields of a map, of which there are some, between commas.
fn read_fields(alloc: Global, text: &[u8]) -> Result<Option<FieldMax>, NoMemory>
    ensures { IfOk result (Reads (IsRow IsFields) fields_text text.now) }
{
    let pieces = pieces_of(alloc, text, b',')?;
    let mut fields = MapOf::new(alloc);
    for piece in &pieces {
        let Some((field, number)) = read_field(alloc, piece)? else {
            return Ok(None);
        };
        if !fields.push(field, number)? {
            return Ok(None);
        }
    }
    fields.attest();
    Ok(Some(fields))
}

/// Reads a field with its number, `FIELD=NUMBER`.
fn read_field(alloc: Global, text: &[u8]) -> Result<Option<(Word, MaxNum)>, NoMemory>
    ensures { IfOk result (Reads IsField field_text text.now) }
{
    let Some((field, number)) = cut_at(text, b'=') else {
        return Ok(None);
    };
    let Some(number) = read_number(number) else {
        return Ok(None);
    };
    let Some(field) = read_word(field) else {
        return Ok(None);
    };
    Ok(Some((field, MaxNum(number))))
}

// ---- stamped words

/// Reads the last word that was put.
fn read_last(
    alloc: Global,
    script: &Script,
    text: &[u8],
) -> Result<Option<Maybe<Stamped>>, NoMemory>
    requires { IsValid script.now }
    ensures { IfOk result (Reads (IsBottomOr (IsStampedIn script.now))
        (last_word script.now) text.now) }
{
    if is_none(text) {
        return Ok(Some(Maybe::Bottom));
    }
    Ok(read_stamped(alloc, script, text)?.map(Maybe::Is))
}

/// Reads a stamped word, `WORD/NUMBER/SESSION/PLACE`.
fn read_stamped(alloc: Global, script: &Script, text: &[u8]) -> Result<Option<Stamped>, NoMemory>
    requires { IsValid script.now }
    ensures { IfOk result (Reads (IsStampedIn script.now) (stamped_text script.now) text.now) }
{
    let Some((word, stamp)) = cut_at(text, b'/') else {
        return Ok(None);
    };
    let Some((number, session, place)) = read_stamp(script, stamp) else {
        return Ok(None);
    };
    let Some(word) = read_word(word) else {
        return Ok(None);
    };
    Ok(Some(Stamped {
        number,
        session,
        place,
        word,
    }))
}

/// Reads a stamp, `NUMBER/SESSION/PLACE`.
fn read_stamp(script: &Script, text: &[u8]) -> Option<(u64, u16, u32)>
    requires { IsValid script.now }
    ensures { Reads (IsStampIn script.now) (stamp_text script.now) text.now result }
{
    let (number, later) = cut_at(text, b'/')?;
    let (session, place) = cut_at(later, b'/')?;
    let number = read_number(number)?;
    let session = read_session(script, session)?;
    let place = read_small_number(place)?;
    Some((number, session, place))
}

// ---- versions

/// Reads the versions of a register.
fn read_versions(alloc: Global, script: &Script, text: &[u8]) -> Result<Option<Versions>, NoMemory>
    requires { IsValid script.now }
    ensures { IfOk result (Reads (AreVersionsIn script.now) (versions_word script.now) text.now) }
{
    if is_none(text) {
        return Ok(Some(Versions::new(alloc)));
    }
    read_each_version(alloc, script, text)
}

/// Reads versions, of which there are some, between vertical bars.
fn read_each_version(
    alloc: Global,
    script: &Script,
    text: &[u8],
) -> Result<Option<Versions>, NoMemory>
    requires { IsValid script.now }
    ensures { IfOk result (Reads (IsRow (AreVersionsIn script.now))
        (each_version_text script.now) text.now) }
{
    let pieces = pieces_of(alloc, text, b'|')?;
    let mut versions = Versions::new(alloc);
    for piece in &pieces {
        let Some(version) = read_version(alloc, script, piece)? else {
            return Ok(None);
        };
        if !versions.push(version.clock, version.word)? {
            return Ok(None);
        }
    }
    versions.attest();
    Ok(Some(versions))
}

/// Reads a version, `WORD(CLOCK)`.
fn read_version(alloc: Global, script: &Script, text: &[u8]) -> Result<Option<Version>, NoMemory>
    requires { IsValid script.now }
    ensures { IfOk result (Reads (IsVersionIn script.now) (version_text script.now) text.now) }
{
    let Some(opened) = before_parenthesis(text) else {
        return Ok(None);
    };
    let Some((word, clock)) = read_clocked(alloc, script, opened)? else {
        return Ok(None);
    };
    Ok(Some(Version { clock, word }))
}
