//! Gossip that comes late, for tests.
//!
//! The box of gossip here keeps less than rings do: once each sender that was held beside it had a message handed
//! out, it finds nothing, though more are in the rings; and it never tells what a sender that has not ended sent.
//! It does keep that of a shown sender with messages missing one comes before nothing is found, that so many come
//! at most, and that a sender of which none is missing finds a place. That is what a run has to have: the tests of
//! `party_run` serve a script over such boxes, and its report is legal.
//!
//! No part of the product makes such a box.
#![tactic(auto)]

mod late;

pub use late::Late;
