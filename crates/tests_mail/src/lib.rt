//! Mail, worked as tests: plain mail and gossip in disorder over it, rings, queues, and gossip that comes late.
//!
//! Over rings and over queues two threads send while a third takes.
//!
//! No part of the product stands on this crate.
#![tactic(auto)]

#[cfg(test)]
mod late_tests;
#[cfg(test)]
mod note;
#[cfg(test)]
mod plain_tests;
#[cfg(test)]
mod queue_tests;
#[cfg(test)]
mod ring_tests;
