//! What a proxy keeps itself.

use clock_lattice::Clock;
use composed_value::Payload;
use lattice_laws::Items;
use placement::Placement;
use session_known::{Answer, Known, Line, SessionState};
use std::alloc::Global;
use store_msg::{Reply, Request};

/// What a proxy keeps itself, beside its ends.
#[derive(Drop)]
pub(crate) struct Local {
    pub(crate) lines: Items<Line>,
    pub(crate) placement: Placement,
    /// What it knew at its start.
    pub(crate) origin: Known,
    /// The session after the puts that were made.
    pub(crate) session: SessionState,
    pub(crate) answers: Vec<Answer>,
    /// What was begun for the first line that is not answered.
    pub(crate) begun: Begun,
    /// The first of its puts that was not sent, where it is made: its number is drawn, and the session knows
    /// it.
    pub(crate) made: Option<Request>,
    /// How many asks the answered lines sent.
    pub(crate) asks: u64,
    /// How many requests of the open line were sent.
    pub(crate) out: u32,
    /// The last of them is an ask, and no reply to it was worked on.
    pub(crate) waits: bool,
    /// The reply to it that was taken and met want of memory.
    pub(crate) kept: Option<Reply>,
    pub(crate) alloc: Global,
}

/// What was begun for a line.
#[derive(Drop)]
pub(crate) enum Begun {
    Nothing,
    /// Its puts, in order, each with its key.
    Puts(Puts),
    /// It is asked for; this clock is required.
    Asks(Clock),
}

/// Puts at one Lamport number.
#[derive(Drop)]
pub(crate) struct Puts {
    pub(crate) puts: Items<(u16, Payload)>,
    pub(crate) lamport: u64,
}
