//! The puts that a report's answers accept.
ghost use Rattle.std.specs.Prelude.{◌≡◌, [], ◌∷◌, ◌++◌, length, IfOk, OnOk, List, All};
ghost use Rattle.composed_value.specs.PlainValue.{IsPutOf};
ghost use Rattle.placement.specs.Config.{IsOneOf};
ghost use Rattle.composed_value.specs.Keyed.{kind_at};
ghost use Rattle.anna_check.specs.ByKey.{AreByKey, HasAdded, of_key, kinds_of};

use composed_value::{Kind, Put};
use lattice_laws::{Items, NoMemory};
use std::alloc::Global;
use std::marker::Model;

/// The accepted puts on a key, in the order of the sessions and their lines, each of the key's kind.
#[derive(Drop)]
pub(crate) struct PutsOn {
    kind: Kind,
    puts: Items<Put>,
}

impl Model for PutsOn {
    ghost use Rattle.std.specs.Prelude.{All};
    ghost use Rattle.composed_value.specs.PlainValue.{IsPutOf};
    ghost use Rattle.anna_check.specs.ByKey.{OfKey};

    ghost Value = { OfKey };

    ghost view = { λ on. record { kind = on.kind; puts = on.puts } };

    ghost invariant = { λ on. All (IsPutOf on.kind) on.puts };
}

impl PutsOn {
    fn new(alloc: Global, kind: Kind) -> PutsOn
        ensures { result ≡ record { kind = kind; puts = [] } }
    {
        PutsOn {
            kind,
            puts: Items::new(Vec::new(alloc)),
        }
    }

    fn add(&mut self, put: Put) -> Result<(), NoMemory>
        requires { IsPutOf self.old.kind put }
        ensures { OnOk result (self.new
            ≡ record { kind = self.old.kind; puts = self.old.puts ++ put ∷ [] }) }
    {
        self.puts.push(put)
    }

    /// The kind of the key. Takes no memory.
    pub(crate) fn kind(&self) -> Kind
        ensures { result ≡ self.now.kind }
    {
        self.kind
    }

    /// The puts. Takes no memory.
    pub(crate) fn puts(&self) -> &[Put]
        ensures puts { result.now ≡ self.now.puts }
        ensures of_kind { All (IsPutOf self.now.kind) self.now.puts }
    {
        self.puts.as_slice()
    }
}

/// The accepted puts, key by key. Contracts see those of each key, in the order of the keys.
#[derive(Drop)]
pub(crate) struct Accepted {
    by_key: Vec<PutsOn>,
}

impl Model for Accepted {
    ghost use Rattle.std.specs.Prelude.{List};
    ghost use Rattle.anna_check.specs.ByKey.{OfKey};

    ghost Value = { List OfKey };

    ghost view = { λ accepted. accepted.by_key.items };
}

impl Accepted {
    /// No puts on keys of these kinds.
    pub(crate) fn new(alloc: Global, kinds: &[Kind]) -> Result<Accepted, NoMemory>
        ensures { IfOk result (AreByKey kinds.now []) }
    {
        let mut by_key = Vec::new(alloc);
        for kind in kinds {
            by_key.push(PutsOn::new(alloc, *kind))?;
        }
        Ok(Accepted { by_key })
    }

    /// Adds a put on a key after the others.
    pub(crate) fn add(&mut self, key: u16, put: Put) -> Result<(), NoMemory>
        requires key { IsOneOf (length self.old) key }
        requires put { IsPutOf (kind_at (kinds_of self.old) key) put }
        ensures kinds { OnOk result (kinds_of self.new ≡ kinds_of self.old) }
        ensures puts { HasAdded result self.old ((key, put) ∷ []) self.new }
    {
        self.by_key[usize::from(key) - 1].add(put)?;
        Ok(())
    }

    /// The puts on a key. Takes no memory.
    pub(crate) fn on(&self, key: u16) -> &PutsOn
        requires { IsOneOf (length self.now) key }
        ensures { result.now ≡ of_key self.now key }
    {
        &self.by_key[usize::from(key) - 1]
    }
}
