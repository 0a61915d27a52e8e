//! Lattices over dots: counters that are added to and taken from, and sets whose words can be removed.
//!
//! A [`Dot`] is a put: its session, and its number among the session's puts on the key. What a put
//! brings stands at its dot, so that a put which comes again is known again.
//!
//! [`DotSums`] is a counter: for each dot what was added and what was taken there (the PN-counter of
//! Shapiro, Preguiça, Baquero, Zawirski 2011, told by puts and not by replicas, since every put is made
//! once and a replica takes the puts of many sessions). [`DotSet`] is a set that observed removes take
//! from: the inserts that no remove of their word had seen, and for each removed word the clock of what
//! the removes had seen (the observed-remove set of the same, whose tombstones are clocks, as the causal
//! contexts of Almeida, Shoker, Baquero 2018 are; ours has one for each word, since a remove sees the
//! whole key and takes away one word).
//!
//! Contracts see a counter as its entries in the order of the dots, and a set as its inserts and its
//! removals in order. The crate offers the words of `specs/` to the layers above.
#![tactic(auto)]

mod amounts;
mod dot;
mod dot_set;
mod dot_sums;
mod insert;

pub use amounts::Amounts;
pub use dot::Dot;
pub use dot_set::DotSet;
pub use dot_sums::DotSums;
pub use insert::Insert;
