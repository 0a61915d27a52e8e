//! The value of a cell, by the kind of its key.
ghost use Rattle.std.specs.Prelude.{◌≡◌, ◌<◌, IfOk};
ghost use Rattle.composed_value.specs.Kind.{kind_of_value};
ghost use Rattle.composed_value.specs.Put.{value_of_put};
ghost use Rattle.composed_value.specs.Value.{empty_value};

use crate::{Kind, Payload, Put};
use basic_lattices::{FieldMax, Flag, MapOf, MaxNum, Stamped, TextSet};
use dot_lattices::{DotSet, DotSums};
use lattice_laws::{Lattice, MapKey, Maybe, NoMemory};
use std::alloc::Global;
use version_antichain::Versions;

/// The value of a cell, by the kind of its key. Values of one kind merge.
#[derive(Debug, Drop)]
pub enum Value {
    /// The greatest number put, if any.
    Max(Maybe<MaxNum>),
    /// Whether it was ever put on.
    Or(Flag),
    /// The words put.
    Set(TextSet),
    /// Of each field put the greatest number.
    Map(FieldMax),
    /// The last word put, by its stamp, if any.
    Last(Maybe<Stamped>),
    /// The words put that no other has seen.
    Versions(Versions),
    /// What was added and taken, put by put.
    Counter(DotSums),
    /// The words put in that no remove had seen, and what the removes had seen.
    OrSet(DotSet),
}

impl Value {
    /// The value of no put. Takes no memory.
    pub fn empty(alloc: Global, kind: Kind) -> Value
        ensures { result ≡ empty_value kind }
    {
        match kind {
            Kind::Max => Value::Max(Maybe::Bottom),
            Kind::Or => Value::Or(Flag(false)),
            Kind::Set => Value::Set(TextSet::new(alloc)),
            Kind::Map => Value::Map(MapOf::new(alloc)),
            Kind::Last => Value::Last(Maybe::Bottom),
            Kind::Versions => Value::Versions(Versions::new(alloc)),
            Kind::Counter => Value::Counter(DotSums::new(alloc)),
            Kind::OrSet => Value::OrSet(DotSet::new(alloc)),
        }
    }

    /// The value of one put.
    pub fn of_put(alloc: Global, put: &Put) -> Result<Value, NoMemory>
        requires { 0 < put.now.number }
        ensures { IfOk result (λ value. value ≡ value_of_put put.now) }
    {
        match &put.payload {
            Payload::Max(number) => Ok(Value::Max(Maybe::Is(MaxNum(*number)))),
            Payload::On => Ok(Value::Or(Flag(true))),
            Payload::Add(word) => {
                let mut words = TextSet::new(alloc);
                words.insert(word.copy()?)?;
                Ok(Value::Set(words))
            }
            Payload::Field(field, number) => {
                let mut fields = MapOf::new(alloc);
                fields.raise(field.copy()?, MaxNum(*number))?;
                Ok(Value::Map(fields))
            }
            Payload::Last(word) => Ok(Value::Last(Maybe::Is(put.stamped(word.copy()?)))),
            Payload::Version(word) => {
                let version = Versions::one(alloc, put.seen.copy()?, word.copy()?)?;
                Ok(Value::Versions(version))
            }
            Payload::Amount { plus, amount } => {
                let sums = DotSums::one(alloc, put.session, put.number, *plus, *amount)?;
                Ok(Value::Counter(sums))
            }
            Payload::Insert(word) => {
                let set = DotSet::insert(alloc, word.copy()?, put.session, put.number)?;
                Ok(Value::OrSet(set))
            }
            Payload::Remove(word) => {
                let set = DotSet::remove(alloc, word.copy()?, put.seen.copy()?)?;
                Ok(Value::OrSet(set))
            }
        }
    }

    /// The kind of the keys that have this value. Takes no memory.
    pub fn kind(&self) -> Kind
        ensures { result ≡ kind_of_value self.now }
    {
        match self {
            Value::Max(_) => Kind::Max,
            Value::Or(_) => Kind::Or,
            Value::Set(_) => Kind::Set,
            Value::Map(_) => Kind::Map,
            Value::Last(_) => Kind::Last,
            Value::Versions(_) => Kind::Versions,
            Value::Counter(_) => Kind::Counter,
            Value::OrSet(_) => Kind::OrSet,
        }
    }
}

impl Lattice for Value {
    ghost use Rattle.std.specs.Prelude.{◌≡◌};
    ghost use Rattle.composed_value.specs.declared.value.Value.{Value};
    ghost use Rattle.composed_value.specs.Kind.{kind_of_value};
    ghost use Rattle.composed_value.specs.Value.{IsValue, joined_values};
    ghost use Rattle.composed_value.specs.ValueLaws.{value_laws, value_associative};

    ghost Plain = { Value };

    ghost plain = { λ value. value };

    ghost is_value = { IsValue };

    ghost fits = { λ a b. kind_of_value a ≡ kind_of_value b };

    ghost joined = { joined_values };

    fn attest(&self) {
        match self {
            Value::Max(greatest) => greatest.attest(),
            Value::Or(on) => on.attest(),
            Value::Set(words) => words.attest(),
            Value::Map(fields) => fields.attest(),
            Value::Last(last) => last.attest(),
            Value::Versions(versions) => versions.attest(),
            Value::Counter(sums) => sums.attest(),
            Value::OrSet(set) => set.attest(),
        }
    }

    fn join(&mut self, other: &Value) -> Result<(), NoMemory> {
        match (self, other) {
            (Value::Max(mine), Value::Max(theirs)) => mine.join(theirs),
            (Value::Or(mine), Value::Or(theirs)) => mine.join(theirs),
            (Value::Set(mine), Value::Set(theirs)) => mine.join(theirs),
            (Value::Map(mine), Value::Map(theirs)) => mine.join(theirs),
            (Value::Last(mine), Value::Last(theirs)) => mine.join(theirs),
            (Value::Versions(mine), Value::Versions(theirs)) => mine.join(theirs),
            (Value::Counter(mine), Value::Counter(theirs)) => mine.join(theirs),
            (Value::OrSet(mine), Value::OrSet(theirs)) => mine.join(theirs),
            _ => unreachable!(),
        }
    }

    fn copy(&self) -> Result<Value, NoMemory> {
        match self {
            Value::Max(greatest) => Ok(Value::Max(greatest.copy()?)),
            Value::Or(on) => Ok(Value::Or(on.copy()?)),
            Value::Set(words) => Ok(Value::Set(words.copy()?)),
            Value::Map(fields) => Ok(Value::Map(fields.copy()?)),
            Value::Last(last) => Ok(Value::Last(last.copy()?)),
            Value::Versions(versions) => Ok(Value::Versions(versions.copy()?)),
            Value::Counter(sums) => Ok(Value::Counter(sums.copy()?)),
            Value::OrSet(set) => Ok(Value::OrSet(set.copy()?)),
        }
    }

    fn at_most(&self, other: &Value) -> bool {
        match (self, other) {
            (Value::Max(mine), Value::Max(theirs)) => mine.at_most(theirs),
            (Value::Or(mine), Value::Or(theirs)) => mine.at_most(theirs),
            (Value::Set(mine), Value::Set(theirs)) => mine.at_most(theirs),
            (Value::Map(mine), Value::Map(theirs)) => mine.at_most(theirs),
            (Value::Last(mine), Value::Last(theirs)) => mine.at_most(theirs),
            (Value::Versions(mine), Value::Versions(theirs)) => mine.at_most(theirs),
            (Value::Counter(mine), Value::Counter(theirs)) => mine.at_most(theirs),
            (Value::OrSet(mine), Value::OrSet(theirs)) => mine.at_most(theirs),
            _ => unreachable!(),
        }
    }

    ghost laws = { value_laws };

    ghost associative = { value_associative };
}
