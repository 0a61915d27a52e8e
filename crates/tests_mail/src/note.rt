//! What the tests send, and how often.
use lattice_laws::NoMemory;
use mail_contract::Message;

/// A number, for a message.
#[derive(Clone, Copy, Debug, PartialEq, Eq, Drop)]
pub(crate) struct Note(pub(crate) u32);

impl Message for Note {
    fn copy(&self) -> Result<Note, NoMemory> {
        Ok(*self)
    }
}

/// How many messages a thread sends.
pub(crate) const MANY: u32 = 1_000;

/// For how many turns a thread waits at most.
pub(crate) const TURNS: u32 = 100_000_000;
