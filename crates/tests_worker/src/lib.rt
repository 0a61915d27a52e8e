//! The protocol alone, messages, and a worker's turns, worked as tests.
//!
//! In a world of two workers gossip comes late, again and in disorder, and both end in the same cells. A batch holds
//! sixteen entries, and a reply shows a cell exactly where it covers what is required.
//!
//! Over plain mail one of two workers is asked, and what it does in each turn is compared with what it is
//! to do, and so are its cells, its replies and the keys that it tells of. Over rings two workers go to
//! threads of their own and back, and a batch that finds no place in a ring goes out later; and a sealed worker
//! hears batches that come late and again.
//!
//! No part of the product stands on this crate.
#![tactic(auto)]

#[cfg(test)]
mod message_tests;
#[cfg(test)]
mod scrambled_tests;
#[cfg(test)]
mod tests;
#[cfg(test)]
mod thread_tests;
#[cfg(test)]
mod world_tests;
