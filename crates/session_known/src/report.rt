//! What is answered: a line for each command, and the final cell of every replica.
ghost use Rattle.std.specs.Prelude.{◌≡◌};
ghost use Rattle.session_known.specs.Session.{shown_to};

use crate::Level;
use clock_lattice::{Clock, Needs};
use composed_value::{Cell, Value};
use lattice_laws::Items;

/// The cell that a reply shows. The needs are there exactly in causal sessions.
#[derive(Debug, Drop)]
pub struct Shown {
    pub clock: Clock,
    pub top: u64,
    pub value: Value,
    pub needs: Option<Needs>,
}

impl Shown {
    /// What a session of the level is shown of a cell. Takes no memory.
    pub fn of_cell(level: Level, cell: Cell) -> Shown
        ensures { result ≡ shown_to level cell }
    {
        let (clock, needs, top, value) = cell.into_parts();
        Shown {
            clock,
            top,
            value,
            needs: match level {
                Level::Causal => Some(needs),
                Level::Eventual | Level::Committed => None,
            },
        }
    }
}

/// The answer to a command line.
#[derive(Debug, Drop)]
pub enum Answer {
    /// The put was accepted, as the session's put of this number on the key, at this Lamport number.
    Put {
        number: u64,
        lamport: u64,
    },
    /// The session's Lamport numbers are used up: nothing was put.
    Worn,
    /// The put is held until the commit.
    Held,
    /// A transaction is begun.
    Begun,
    /// This many held puts were accepted, all at this Lamport number; 0 at 0 puts.
    Committed {
        puts: u32,
        lamport: u64,
    },
    /// This many held puts were dropped.
    Aborted {
        puts: u32,
    },
    /// This worker showed this cell.
    Got {
        worker: u16,
        shown: Shown,
    },
    /// This many asks, 8 of each replica, were each answered by a replica that lacked something of what
    /// was required then; the last showed this clock.
    Again {
        asks: u32,
        worker: u16,
        clock: Clock,
    },
}

/// The cell of a key at a worker when the run has ended.
#[derive(Debug, Drop)]
pub struct FinalCell {
    pub key: u16,
    pub worker: u16,
    pub clock: Clock,
    pub top: u64,
    pub value: Value,
}

/// What a run prints: the answers of each session in order, and the final cell of every replica.
#[derive(Debug, Drop)]
pub struct Report {
    pub answers: Items<Items<Answer>>,
    pub finals: Items<FinalCell>,
}
