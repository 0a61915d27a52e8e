//! Lines told apart by their first words.
ghost use Rattle.std.specs.Prelude.{◌≡◌, ◌≢◌, ◌∷◌, [], false, length, MatchOption};
ghost use Rattle.script_reader.specs.declared.entry.Entry.TheVariants as entries;
ghost use Rattle.script_reader.specs.Entries.{ArePlaced, TellsApart};
ghost use Rattle.script_reader.specs.Faults.{may_place};
ghost use Rattle.script_reader.specs.Words.{texts};

use crate::keyword::Keyword;
use crate::words::{kind, level};
use composed_value::Kind;
use session_known::Level;

/// A line of one word.
#[derive(Clone, Copy, Debug, PartialEq, Eq)]
pub(crate) enum Bare {
    Begin,
    Commit,
    Abort,
    End,
}

/// A line with as many words as its first word may have, of which those are read that are given: `'w`
/// are its words, and `'a` is the text.
#[derive(Clone, Copy)]
pub(crate) enum Entry<'w, 'a> {
    Header {
        version: &'a [u8],
    },
    Workers {
        number: &'a [u8],
    },
    Factor {
        number: &'a [u8],
    },
    Round {
        number: &'a [u8],
    },
    /// A key, with numbers where there are any: its pins, or its own replication factor.
    Key {
        name: &'a [u8],
        kind: Kind,
        by_factor: bool,
        numbers: &'w [&'a [u8]],
    },
    /// A session, and the name of the session that it comes after where one is named.
    Session {
        name: &'a [u8],
        level: Level,
        after: Option<&'a [u8]>,
    },
    Put {
        key: &'a [u8],
        payload: &'w [&'a [u8]],
    },
    Get {
        key: &'a [u8],
    },
    GetFrom {
        key: &'a [u8],
        worker: &'a [u8],
    },
    Await {
        key: &'a [u8],
        session: &'a [u8],
        count: &'a [u8],
    },
    Bare(Bare),
}

/// Tells a line apart, where its words are as many as may stand after its first word, and those that
/// are given are right.
pub(crate) fn tell_apart<'w, 'a>(keyword: Keyword, words: &'w [&'a [u8]]) -> Option<Entry<'w, 'a>>
    ensures { TellsApart keyword (texts words.now) result }
{
    match keyword {
        Keyword::Anna => one_word(words).map(|version| Entry::Header { version }),
        Keyword::Workers => one_word(words).map(|number| Entry::Workers { number }),
        Keyword::Factor => one_word(words).map(|number| Entry::Factor { number }),
        Keyword::Round => one_word(words).map(|number| Entry::Round { number }),
        Keyword::Key => key_entry(words),
        Keyword::Session => session_entry(words),
        Keyword::Put => put_entry(words),
        Keyword::Get => get_entry(words),
        Keyword::Await => await_entry(words),
        Keyword::Begin => bare_entry(words, Bare::Begin),
        Keyword::Commit => bare_entry(words, Bare::Commit),
        Keyword::Abort => bare_entry(words, Bare::Abort),
        Keyword::End => bare_entry(words, Bare::End),
        Keyword::Unknown => None,
    }
}

/// The line of one word, where no words stand after it.
fn bare_entry<'w, 'a>(words: &'w [&'a [u8]], bare: Bare) -> Option<Entry<'w, 'a>>
    ensures { MatchOption result (length words.now ≢ 0)
        (λ entry. (entry ≡ entries.Bare bare) × (words.now ≡ [])) }
{
    if words.is_empty() {
        Some(Entry::Bare(bare))
    } else {
        None
    }
}

/// The word, where there is one.
fn one_word<'w, 'a>(words: &'w [&'a [u8]]) -> Option<&'a [u8]>
    ensures { MatchOption result (length words.now ≢ 1) (λ word. texts words.now ≡ word.now ∷ []) }
{
    match words {
        [word] => Some(word),
        _ => None,
    }
}

/// A key and its kind, and pins or a replication factor where there are any.
fn key_entry<'w, 'a>(words: &'w [&'a [u8]]) -> Option<Entry<'w, 'a>>
    ensures { TellsApart Keyword.Key (texts words.now) result }
{
    let [name, word, placed @ ..] = words else {
        return None;
    };
    let (by_factor, numbers) = key_numbers(placed)?;
    Some(Entry::Key {
        name,
        kind: kind(word)?,
        by_factor,
        numbers,
    })
}

/// The numbers that say where a key is placed, and whether they are a replication factor: none, pins after `at`, or
/// one factor after `factor`.
fn key_numbers<'w, 'a>(placed: &'w [&'a [u8]]) -> Option<(bool, &'w [&'a [u8]])>
    ensures { MatchOption result (may_place (texts placed.now) ≡ false)
        (λ found. ArePlaced (texts placed.now) found.0 (texts found.1.now)) }
{
    let [by, numbers @ ..] = placed else {
        return Some((false, placed));
    };
    if *by == b"at".as_slice() && !numbers.is_empty() {
        return Some((false, numbers));
    }
    if *by == b"factor".as_slice() && numbers.len() == 1 {
        return Some((true, numbers));
    }
    None
}

/// A session and its level; and where it is causal, the session that it comes after, where one is named.
fn session_entry<'w, 'a>(words: &'w [&'a [u8]]) -> Option<Entry<'w, 'a>>
    ensures { TellsApart Keyword.Session (texts words.now) result }
{
    match words {
        [name, word] => Some(Entry::Session {
            name,
            level: level(word)?,
            after: None,
        }),
        [name, word, by, other]
            if *by == b"after".as_slice() && level(word) == Some(Level::Causal) => {
            Some(Entry::Session {
                name,
                level: Level::Causal,
                after: Some(other),
            })
        }
        _ => None,
    }
}

/// A key, and one or two words of a payload.
fn put_entry<'w, 'a>(words: &'w [&'a [u8]]) -> Option<Entry<'w, 'a>>
    ensures { TellsApart Keyword.Put (texts words.now) result }
{
    match words {
        [key, payload @ ..] if payload.len() == 1 || payload.len() == 2 => {
            Some(Entry::Put { key, payload })
        }
        _ => None,
    }
}

/// A key, and a worker where one is named.
fn get_entry<'w, 'a>(words: &'w [&'a [u8]]) -> Option<Entry<'w, 'a>>
    ensures { TellsApart Keyword.Get (texts words.now) result }
{
    match words {
        [key] => Some(Entry::Get { key }),
        [key, worker] => Some(Entry::GetFrom { key, worker }),
        _ => None,
    }
}

/// A key, a session, and a number of its puts.
fn await_entry<'w, 'a>(words: &'w [&'a [u8]]) -> Option<Entry<'w, 'a>>
    ensures { TellsApart Keyword.Await (texts words.now) result }
{
    match words {
        [key, session, count] => Some(Entry::Await {
            key,
            session,
            count,
        }),
        _ => None,
    }
}
