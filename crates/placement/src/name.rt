//! Names of keys and sessions.
ghost use Rattle.std.specs.Prelude.{◌≡◌, MatchResult};
ghost use Rattle.placement.specs.Name.{IsName, IsWhyNoName, name_fault};

use lattice_laws::{Misspelled, Spelled};
use std::marker::Model;

/// A name: 1 to 32 bytes of `A-Z a-z 0-9 _ . -`. Contracts see its bytes.
///
/// A name is kept in place: to make or move one takes no memory.
#[derive(Debug, Drop)]
pub struct Name(Spelled<32>);

impl Model for Name {
    ghost use Rattle.std.specs.Prelude.{List, ℕ};

    ghost Value = { List ℕ };

    ghost view = { λ name. name.0 };
}

/// Why bytes are no name.
#[derive(Clone, Copy, Debug, PartialEq, Eq)]
pub enum NameFault {
    /// There is none, or there are more than 32.
    Length,
    /// The length fits, and a byte is not allowed.
    Byte,
    /// There was no room for the name. Never answered, since a name takes no memory.
    NoMemory,
}

impl From<Misspelled> for NameFault {
    ghost from_gives = { λ why fault. fault ≡ name_fault why };

    fn from(why: Misspelled) -> NameFault {
        match why {
            Misspelled::Length => NameFault::Length,
            Misspelled::Byte => NameFault::Byte,
        }
    }
}

impl Name {
    /// The name that the bytes spell. Takes no memory.
    pub fn of(bytes: &[u8]) -> Result<Name, NameFault>
        ensures { MatchResult result
            (λ name. (name ≡ bytes.now) × IsName bytes.now)
            (IsWhyNoName bytes.now) }
    {
        Ok(Name(Spelled::of(bytes)?))
    }

    /// The bytes of the name. Takes no memory.
    pub fn as_bytes(&self) -> &[u8]
        ensures bytes { result.now ≡ self.now }
        ensures name { IsName self.now }
    {
        self.0.as_bytes()
    }
}
