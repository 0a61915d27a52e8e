//! A large work: the script that a number makes, and the summary of its report.
//!
//! [`big_script`] makes the script. Its commands are drawn by the generator of a scramble of gossip, as
//! `mail_contract` has it, which here starts with the number. [`write_summary`] writes of a legal report
//! how many puts were accepted, and of each key the clock and the value on which its replicas agree; it
//! leaves out replies, Lamport numbers and whatever else a schedule may change. What both are, stands in
//! `specs/Big.antt`. The crate runs nothing: that is for who stands on it.
#![tactic(auto)]

mod script;
mod summary;

pub use script::big_script;
pub use summary::write_summary;

#[cfg(test)]
mod tests;
