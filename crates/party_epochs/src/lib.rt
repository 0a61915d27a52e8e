//! Epochs of a run: in each, every party takes its turns in a thread of its own.
//!
//! [`run_epoch`] runs one, and a [`Gate`] is called before each turn. [`run_pieces`] runs many pieces beside
//! each other, by halves of halves, and what each became of what it was is what its own part promises, in
//! whatever order they took their turns. A worker is such a piece, and so is a session with what came of
//! polling it. Its [`Activity`] tells a party that found nothing to do how long to wait.
#![tactic(auto)]

mod activity;
mod epoch;
mod gate;
mod parts;
mod pieces;

pub use activity::Activity;
pub use epoch::run_epoch;
pub use gate::{FreeGate, Gate};
pub use parts::{PolledOver, TurnedOver};
pub use pieces::{Piece, run_both, run_pieces};
