//! What a put brings.
ghost use Rattle.std.specs.Prelude.{◌≡◌, IfOk};
ghost use Rattle.composed_value.specs.Kind.{kind_of};
ghost use Rattle.composed_value.specs.Put.{IsPayload};

use crate::Kind;
use basic_lattices::Word;
use lattice_laws::{MapKey, NoMemory};

/// What a put brings, by the kind of its key.
#[derive(Debug, Drop)]
pub enum Payload {
    /// A number of a key of kind max.
    Max(u64),
    /// The flag of a key of kind or.
    On,
    /// A word of a key of kind set.
    Add(Word),
    /// A field of a key of kind map, and its number.
    Field(Word, u64),
    /// A word of a key of kind last.
    Last(Word),
    /// A word of a key of kind versions.
    Version(Word),
    /// An amount that is added to a key of kind counter, or where `plus` is false taken from it.
    Amount { plus: bool, amount: u32 },
    /// A word that is put into a key of kind orset.
    Insert(Word),
    /// A word that is taken out of it, as far as the session has seen it put in.
    Remove(Word),
}

impl Payload {
    /// The kind of the keys that take this payload. Takes no memory.
    pub fn kind(&self) -> Kind
        ensures { result ≡ kind_of self.now }
    {
        match self {
            Payload::Max(_) => Kind::Max,
            Payload::On => Kind::Or,
            Payload::Add(_) => Kind::Set,
            Payload::Field(_, _) => Kind::Map,
            Payload::Last(_) => Kind::Last,
            Payload::Version(_) => Kind::Versions,
            Payload::Amount { .. } => Kind::Counter,
            Payload::Insert(_) | Payload::Remove(_) => Kind::OrSet,
        }
    }

    /// It is a payload that there can be. Code calls it to learn the fact; it does nothing.
    pub(crate) fn attest(&self)
        ensures { IsPayload self.now }
    {
        match self {
            Payload::Max(number) => {
                let _number = *number;
            }
            Payload::On => {}
            Payload::Add(word) => word.attest(),
            Payload::Field(field, number) => {
                field.attest();
                let _number = *number;
            }
            Payload::Last(word) => word.attest(),
            Payload::Version(word) => word.attest(),
            Payload::Amount { amount, .. } => {
                let _amount = *amount;
            }
            Payload::Insert(word) => word.attest(),
            Payload::Remove(word) => word.attest(),
        }
    }

    /// An equal payload.
    pub fn copy(&self) -> Result<Payload, NoMemory>
        ensures { IfOk result (λ copy. copy ≡ self.now) }
    {
        Ok(match self {
            Payload::Max(number) => Payload::Max(*number),
            Payload::On => Payload::On,
            Payload::Add(word) => Payload::Add(word.copy()?),
            Payload::Field(field, number) => Payload::Field(field.copy()?, *number),
            Payload::Last(word) => Payload::Last(word.copy()?),
            Payload::Version(word) => Payload::Version(word.copy()?),
            Payload::Amount { plus, amount } => Payload::Amount {
                plus: *plus,
                amount: *amount,
            },
            Payload::Insert(word) => Payload::Insert(word.copy()?),
            Payload::Remove(word) => Payload::Remove(word.copy()?),
        })
    }
}
