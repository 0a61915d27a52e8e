//! The drain: what the workers and the ended sessions of a run leave behind becomes a legal report.
//!
//! [`drain`] works over any ends of mail. The boxes take in the senders that have ended, the workers take
//! their turns until nothing is left to do and hear what was told, and the final cells are written down.
//! The report came from what is then in hand, so it is legal, and its puts are causal; this is proved from
//! what each end's own list tells and what settling a box tells of two, in no order of time.
//!
//! `specs/Handed.antt` says what is handed over, the workers and ended sessions of one run of a script,
//! `specs/Drained.antt` what comes of it, and `specs/Finals.antt` what the final cells are.
//!
//! The crate stands on `drain_steps` and `drain_turns` for its steps, and on `legal_runs` for the law
//! that drained parties have a ledger from which their report came, and that it is legal.
#![tactic(auto)]

mod draining;
mod finals;

pub use draining::{Drained, DrainedOver, drain};
