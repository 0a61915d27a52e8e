//! Names in the order in which they were first seen.
ghost use Rattle.std.specs.Prelude.{◌≡◌, [], OnOk};
ghost use Rattle.script_reader.specs.Said.{place_of, with_name};

use indexmap::IndexSet;
use lattice_laws::NoMemory;
use std::alloc::Global;
use std::marker::Model;

/// Names in the order in which they were first seen, each once. A name is found in constant time on
/// average. Contracts see the list of names.
#[derive(Drop)]
pub(crate) struct Names<'a> {
    names: IndexSet<&'a [u8]>,
}

impl<'a> Model for Names<'a> {
    ghost use Rattle.std.specs.Prelude.{List, ℕ, map};

    ghost Value = { List (List ℕ) };

    ghost view = { λ names. map (λ name. name.now) names.names.keys };
}

impl<'a> Names<'a> {
    /// No names. Takes no memory.
    pub(crate) fn new(alloc: Global) -> Names<'a>
        ensures { result ≡ [] }
    {
        Names {
            names: IndexSet::new(alloc),
        }
    }

    /// The place of a name, counted from 0. Takes no memory.
    pub(crate) fn place_of(&self, name: &[u8]) -> Option<usize>
        ensures { result ≡ place_of self.now name.now }
    {
        self.names.get_index_of(name)
    }

    /// Adds a name, where it is new.
    pub(crate) fn add(&mut self, name: &'a [u8]) -> Result<(), NoMemory>
        ensures { OnOk result (self.new ≡ with_name self.old name.now) }
    {
        match self.names.insert(name) {
            Ok(_) => Ok(()),
            Err(_) => Err(NoMemory),
        }
    }
}
