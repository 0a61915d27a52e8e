//! The parties of a run: its workers, and its sessions of whichever level; and the steps that they take one at a time.
//!
//! A proxy has the level of its session in its type. [`Session`] is a session of any of the three levels, so that a
//! driver can hold all sessions of a run in one vector, and [`Parties`] has them beside the workers. Each call of a
//! session passes on to the proxy of its level, and promises what the proxy's does, word by word; what that is, is
//! said once, in `session_proxy`.
//!
//! [`Run`] is a run to whoever takes its steps one at a time, and `Parties` is one over each kind of mail. All parties
//! are held beside each other, so that each end learns what the others had sent by then: each box shows then what its
//! senders have sent, each sender learns whether it finds a place, and where boxes are complete it is told that what
//! a session and a worker took of each other is a front of what the other sent. A worker is turned until it rests,
//! directly after it was held beside the others; a session is polled until it waits. [`turn_often`] turns a worker,
//! and [`poll_often`] polls a session, several times at a [`Pace`], whatever the others do meanwhile.
//!
//! The definitions: `proxy_of` in `specs/Session.antt`, what contracts see of a session; `specs/Beside.antt`, what a
//! worker and a session know of each other that were held beside each other, and `specs/Staying.antt` what stays then;
//! `specs/Turning.antt` and `specs/Polling.antt`, what a party keeps that takes steps; `specs/Progress.antt`, how far
//! polls bring a session; `specs/Sweeping.antt`, what is known of all sessions between steps; `specs/Pace.antt`, how
//! counts of steps rise. What the parties of a run are while it goes on is said by `party_turns`.
//!
//! The crate stands on `party_turns`, `session_plain` and `session_causal`, whose parties it has, and on
//! `run_measure` and `run_waiting` for how far they are and why no session waits in vain.
#![tactic(auto)]

mod beginning;
mod pace;
mod parties;
mod parting;
mod run;
mod session;
mod showing;
mod stepping;
mod steps;
mod waiting;

pub use pace::{Pace, UntilNothing};
pub use parties::Parties;
pub use run::Run;
pub use session::{Session, SessionOver};
pub use stepping::{Polled, poll_often, turn_often};
pub use steps::MOST_POLLS;
pub use waiting::{Waiting, WaitingOver};
