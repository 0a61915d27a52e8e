//! A run of a script, until every line of every session is answered: an epoch, in which the parties take their turns
//! beside each other, and a sweep, in which they do so one after another, make a round.
//!
//! In each [`round`] every session moves that has a line not answered, so that [`run_rounds`] comes to an end, over
//! ends that find places. A [`sweep`] takes the steps of any [`Run`](parties::Run). [`serve_with`] makes the parties
//! of a script over some kind of mail, runs their rounds, and drains the run; [`serve`] does so over rings, and
//! [`serve_scrambled`] over rings with gossip in disorder.
//! [`serve_waiting`] serves a script over ends that keep no more than the contract of mail: it makes epochs without a
//! sweep for as long as it takes, and what it promises holds if it returns. A gate is called before each turn in an
//! epoch; the program lets everyone pass.
//!
//! The definitions: `specs/Ready.antt`, what is known of a run between the steps of a sweep. What a run is while it
//! goes on, how far it is, and what is known of its sessions is said by `parties`, what it is once it is drained by
//! `drain_ledger`, and which numbers its boxes of gossip were made with by `party_ends`. The crate passes on what
//! whoever serves a script has to name: kinds of mail, gates and waiting.
#![tactic(auto)]

mod driver;
mod finishing;
mod serving;
mod sweeping;
mod waiting;

pub use drain_ledger::Drained;
pub use driver::{round, run_rounds, serve_with};
pub use party_ends::{MakesGossip, MakesMail, MakesPost, QueuePost, RingPost, ScrambledPost};
pub use party_epochs::{FreeGate, Gate};
pub use party_turns::Waiting;
pub use serving::{serve, serve_scrambled};
pub use sweeping::sweep;
pub use waiting::serve_waiting;

#[cfg(test)]
mod late_tests;
#[cfg(test)]
mod tests;
