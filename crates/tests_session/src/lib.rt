//! Sessions, worked step by step as tests: each plays the workers of one session over plain mail.
//!
//! What a session sends in each step, and what it answers, are compared with what it is to send and to
//! answer: a transaction that is aborted and one that is committed, a put that no get shows while it is
//! held, an end of asking after exactly 8 asks of each replica, a reply that is not the one that is awaited,
//! and Lamport numbers that are used up.
//!
//! No part of the product stands on this crate.
#![tactic(auto)]

#[cfg(test)]
mod tests;
