//! What a session asks of a worker.

use clock_lattice::Clock;
use composed_value::Put;
use lattice_laws::{Lattice, NoMemory};
use mail_contract::Message;

/// What a session asks of a worker. Keys are numbered from 1.
#[derive(Debug, Drop)]
pub enum Request {
    /// Merge this update into the cell of the key.
    Put { key: u16, put: Put },
    /// Reply with the cell of the key where its clock covers `required`, else with its clock. The session
    /// numbers its asks.
    Get { ask: u64, key: u16, required: Clock },
}

impl Message for Request {
    fn copy(&self) -> Result<Request, NoMemory> {
        match self {
            Request::Put { key, put } => Ok(Request::Put {
                key: *key,
                put: put.copy()?,
            }),
            Request::Get { ask, key, required } => Ok(Request::Get {
                ask: *ask,
                key: *key,
                required: required.copy()?,
            }),
        }
    }
}
