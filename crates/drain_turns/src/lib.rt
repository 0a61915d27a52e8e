//! The workers of a run whose sessions have ended take their turns until nothing is left to do.
//!
//! Turned by measure ([`party_turns::ByMeasure`]), it returns: where no sender wants for a place, and
//! where a box hands out a missing message of each sender that was beside it before it finds nothing, and a
//! sender of which none is missing finds a place. Once no request is left no key becomes changed again, and
//! each pass in which not every worker was Idle leaves less to tell: keys, and batches that are missing at a
//! mate. `specs/Ready.antt` says what workers can be turned so, and how much is left to tell.
//!
//! The crate stands on `party_turns`, which turns one worker and holds two beside each other, and on `run_ledger`
//! for how many replies a session's requests ask for.
#![tactic(auto)]

mod passes;
mod waiting;

pub use passes::{TurnsAll, turn_all};
