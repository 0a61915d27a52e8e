//! The events of the protocol.
ghost use Rattle.merge_world.specs.World.{IsEvent};

use composed_value::Put;
use lattice_laws::Items;

/// What can happen to workers that share keys. Workers and keys are numbered from 1, messages from 0
/// in the order in which they were sent.
#[derive(Debug, Drop)]
pub enum Event {
    /// A session's put comes to a worker.
    Put {
        worker: u16,
        key: u16,
        put: Put,
    },
    /// A worker is asked for a key.
    Get {
        worker: u16,
        key: u16,
    },
    /// A worker tells another its own cells of some keys.
    Send {
        worker: u16,
        mate: u16,
        keys: Items<u16>,
    },
    /// A message comes to a worker; it may come again.
    Deliver {
        worker: u16,
        message: u32,
    },
}

impl Event {
    /// Its put is one that there can be. Code calls it to learn the fact; it does nothing.
    pub(crate) fn attest(&self)
        ensures { IsEvent self.now }
    {
        if let Event::Put { put, .. } = self {
            put.attest();
        }
    }
}
