//! What is given: workers, a replication factor, and keys.
ghost use Rattle.std.specs.Prelude.{◌≡◌};
ghost use Rattle.placement.specs.Config.{factor_of};

use crate::Name;
use lattice_laws::Items;

/// A key, the workers that it is pinned to, in order, and its own replication factor, where it has one. No pins mean
/// placement by the ring.
#[derive(Debug, Drop)]
pub struct KeyPlace {
    pub name: Name,
    pub pins: Items<u16>,
    pub factor: Option<u16>,
}

/// The workers, numbered from 1, the replication factor of the keys that have none of their own, and the keys, numbered
/// from 1 in order.
#[derive(Debug, Drop)]
pub struct Config {
    pub workers: u16,
    pub factor: u16,
    pub keys: Items<KeyPlace>,
}

impl Config {
    /// At how many workers a key without pins lives: its own replication factor, where it has one, and else the one of
    /// the config. Takes no memory.
    pub fn factor_of(&self, key: &KeyPlace) -> u16
        ensures { result ≡ factor_of self.now key.now }
    {
        key.factor.unwrap_or(self.factor)
    }
}
