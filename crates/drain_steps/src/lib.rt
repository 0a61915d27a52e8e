//! The steps by which a run is drained: what the sessions left is taken apart, senders that have ended
//! are taken in by the boxes that they belong to, workers are sealed, and sealed workers hear what the
//! others told them.
//!
//! Each step is one call over all workers or sessions, and its contract says of each of them what it
//! became. `specs/Settling.antt` says what it is to take in many senders, `specs/Hearing.antt` what a sealed
//! worker is once it has heard all.
//!
//! The crate stands on `worker_core`, whose workers it seals, and on `party_turns` for how a step is repeated and
//! for the rows that senders stand in.
#![tactic(auto)]

mod attesting;
mod hearing;
mod parting;
mod sealing;
mod settling;

pub use attesting::attest_all;
pub use hearing::{HearsOut, hear_all};
pub use parting::part_all;
pub use sealing::seal_all;
pub use settling::{TakesIn, settle_all};
