//! What the parties of a run have in hand at its end makes a legal report: a law about lists alone, in which
//! no party did anything before another.
//!
//! From how a report came to be (`Came` of `run_ledger`), and from gossip that has settled, follows that the
//! report is legal, and that what its puts depend on was accepted, bears smaller Lamport numbers and depends
//! on no more: [`ledgers_make_legal_reports`].
//!
//! The parties of a run that is drained leave such a ledger: [`drained_parties_make_ledgers`].
//!
//! `specs/Laws.antt` says the two laws.
//!
//! The crate stands on `run_ledger`, whose definitions the laws speak in, and on those below it.
#![tactic(auto)]

mod laws;

pub use laws::{drained_parties_make_ledgers, ledgers_make_legal_reports};
