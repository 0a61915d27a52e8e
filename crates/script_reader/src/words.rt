//! What a word of a line can be.
ghost use Rattle.std.specs.Prelude.{◌≡◌, IfOk};
ghost use Rattle.script_reader.specs.Lines.{words_of as all_words};
ghost use Rattle.script_reader.specs.Words.{is_spelled, is_numeral as digits_alone, number_said, is_too_great as says_too_much, kind_said, says_later_kind, level_said, texts};

use composed_value::Kind;
use lattice_laws::{NoMemory, test_spelling};
use session_known::Level;
use std::alloc::Global;

/// The words of a line: what stands between runs of spaces and tabs.
pub(crate) fn words_of(alloc: Global, line: &[u8]) -> Result<Vec<&[u8]>, NoMemory>
    ensures { IfOk result (λ words. texts words.items ≡ all_words line.now) }
{
    let words = line
        .split(|byte| *byte == b' ' || *byte == b'\t')
        .filter(|word| !word.is_empty())
        .collect(alloc)?;
    Ok(words)
}

/// Whether a word spells a name or the word of a value, of at most `most` bytes.
pub(crate) fn is_spelling(word: &[u8], most: usize) -> bool
    ensures { result ≡ is_spelled most word.now }
{
    test_spelling(word, most).is_ok()
}

/// Whether a word is of digits alone.
fn is_numeral(word: &[u8]) -> bool
    ensures { result ≡ digits_alone word.now }
{
    !word.is_empty() && word.iter().all(|byte| byte.is_ascii_digit())
}

/// The number that a word writes, where it is one: decimal digits, leading zeros among them, that say at
/// most 18446744073709551615. Takes no memory.
pub fn number(word: &[u8]) -> Option<u64>
    ensures { result ≡ number_said word.now }
{
    if !is_numeral(word) {
        return None;
    }
    let text = str::from_utf8(word).ok()?;
    text.parse().ok()
}

/// Whether a word is of digits alone and says more than a number may.
pub(crate) fn is_too_great(word: &[u8]) -> bool
    ensures { result ≡ says_too_much word.now }
{
    is_numeral(word) && number(word).is_none()
}

/// The kind that a word names.
pub(crate) fn kind(word: &[u8]) -> Option<Kind>
    ensures { result ≡ kind_said word.now }
{
    match word {
        b"max" => Some(Kind::Max),
        b"or" => Some(Kind::Or),
        b"set" => Some(Kind::Set),
        b"map" => Some(Kind::Map),
        b"last" => Some(Kind::Last),
        b"versions" => Some(Kind::Versions),
        b"counter" => Some(Kind::Counter),
        b"orset" => Some(Kind::OrSet),
        _ => None,
    }
}

/// Whether a word names a kind that there is from version 2 on.
pub(crate) fn is_later_kind(word: &[u8]) -> bool
    ensures { result ≡ says_later_kind word.now }
{
    matches!(kind(word), Some(Kind::Counter | Kind::OrSet))
}

/// The level that a word names.
pub(crate) fn level(word: &[u8]) -> Option<Level>
    ensures { result ≡ level_said word.now }
{
    match word {
        b"eventual" => Some(Level::Eventual),
        b"committed" => Some(Level::Committed),
        b"causal" => Some(Level::Causal),
        _ => None,
    }
}
