//! What the words after a put's key say.
ghost use Rattle.std.specs.Prelude.{◌≡◌, [], ◌∷◌};
ghost use Rattle.script_reader.specs.Words.{word_said, sign_said, change_said, payload_said, is_payload_too_great as says_too_much, is_amount_too_great as amount_too_great, texts};

use crate::words::{is_too_great, number};
use basic_lattices::Word;
use composed_value::{Kind, Payload};

/// The payload that the words say, where they fit the kind.
pub(crate) fn payload(kind: Kind, words: &[&[u8]]) -> Option<Payload>
    ensures { result ≡ payload_said kind (texts words.now) }
{
    match (kind, words) {
        (Kind::Max, [value]) => number(value).map(Payload::Max),
        (Kind::Or, [b"on"]) => Some(Payload::On),
        (Kind::Set, [value]) => value_word(value).map(Payload::Add),
        (Kind::Map, [field, value]) => field_payload(field, value),
        (Kind::Last, [value]) => value_word(value).map(Payload::Last),
        (Kind::Versions, [value]) => value_word(value).map(Payload::Version),
        (Kind::Counter, [sign, amount]) => change_by(sign, amount),
        (Kind::OrSet, [change, value]) => set_change(change, value),
        _ => None,
    }
}

/// A field and its number, where the words are these.
fn field_payload(field: &[u8], value: &[u8]) -> Option<Payload>
    ensures { result ≡ payload_said Kind.Map (field.now ∷ value.now ∷ []) }
{
    let number = number(value)?;
    value_word(field).map(|field| Payload::Field(field, number))
}

/// An amount that is added or taken, where the words are these.
fn change_by(sign: &[u8], amount: &[u8]) -> Option<Payload>
    ensures { result ≡ payload_said Kind.Counter (sign.now ∷ amount.now ∷ []) }
{
    let plus = plus(sign)?;
    let amount = number(amount)?;
    let amount = u32::try_from(amount).ok()?;
    Some(Payload::Amount { plus, amount })
}

/// Whether a word adds an amount or takes it, where it is one of the two.
fn plus(sign: &[u8]) -> Option<bool>
    ensures { result ≡ sign_said sign.now }
{
    match sign {
        b"add" => Some(true),
        b"sub" => Some(false),
        _ => None,
    }
}

/// An insert or a remove of a word, where the words are these.
fn set_change(change: &[u8], value: &[u8]) -> Option<Payload>
    ensures { result ≡ change_said change.now value.now }
{
    if change == b"insert".as_slice() {
        return value_word(value).map(Payload::Insert);
    }
    if change == b"remove".as_slice() {
        return value_word(value).map(Payload::Remove);
    }
    None
}

/// The word of a value, where the bytes spell one.
fn value_word(bytes: &[u8]) -> Option<Word>
    ensures { result ≡ word_said bytes.now }
{
    Word::of(bytes).ok()
}

/// Whether the number of the payload says more than a number may.
pub(crate) fn is_payload_too_great(kind: Kind, words: &[&[u8]]) -> bool
    ensures { result ≡ says_too_much kind (texts words.now) }
{
    match (kind, words) {
        (Kind::Max, [value]) | (Kind::Map, [_, value]) => is_too_great(value),
        (Kind::Counter, [sign, amount]) => plus(sign).is_some() && is_too_great(amount),
        _ => false,
    }
}

/// Whether the payload is an amount that is a number and says more than an amount may.
pub(crate) fn is_amount_too_great(kind: Kind, words: &[&[u8]]) -> bool
    ensures { result ≡ amount_too_great kind (texts words.now) }
{
    match (kind, words) {
        (Kind::Counter, [sign, amount]) => {
            plus(sign).is_some()
                && number(amount).is_some_and(|amount| amount > u64::from(u32::MAX))
        }
        _ => false,
    }
}
