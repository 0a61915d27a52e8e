//! What the parties of a run are, and the steps of its workers: they take turns, one at a time, and are held beside
//! each other.
//!
//! [`TurnsOut`] turns a worker until nothing is left to do, and [`Repeats`] is how that is repeated: by measure
//! ([`ByMeasure`]), and so with an end, or [`Waiting`] as long as it takes, over any ends. [`show_pair`] holds two
//! workers beside each other. A run that goes on stands on both, and so does its drain. [`Tells`] has what the ends of
//! one kind of mail tell contracts, in one value.
//!
//! The definitions: `specs/Ends.antt`, that value, and how far a worker and a session came by it;
//! `specs/Running.antt`, what the parties of a run of a script are while it goes on, and `specs/Steps.antt`, how far
//! steps bring them; `specs/Making.antt`, when the ends of a run are of one making and whose messages a box has, with
//! `specs/Rows.antt` for the rows that senders stand in; `specs/Mates.antt`, what the workers of a run are to each
//! other; `specs/Turning.antt`, what a worker keeps that is turned, and `specs/Stretch.antt`, what is left to it on
//! the way. That a run goes on by steps is shown in `proofs/StepsLemmas.antt`.
//!
//! The crate stands on `worker_core` and `session_proxy`, whose parties it speaks of, and on `run_measure` for how far
//! they came.
#![tactic(auto)]

mod ends;
mod pairing;
mod repeating;
mod turning;
mod waiting;

pub use ends::Tells;
pub use pairing::show_pair;
pub use repeating::{ByMeasure, Repeats, Waiting};
pub use turning::TurnsOut;
