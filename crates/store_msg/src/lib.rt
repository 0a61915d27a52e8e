//! What the parties of a store say to each other, and the ends that carry it.
//!
//! A session sends a [`Request`] to a worker, a worker answers a get with a [`Reply`], and workers
//! gossip by [`Batch`]es of cells (Wu, Faleiro, Lin, Hellerstein 2018). The types cannot lie: a reply
//! that shows a cell covers what was required, one that shows a clock alone does not, and a batch has
//! at most 16 entries, for which it has the room.
#![tactic(auto)]

mod batch;
mod ends;
mod meets;
mod reply;
mod request;

pub use batch::Batch;
pub use ends::{Mail, PlainPost, SessionEnds, SessionEndsOver, WorkerEnds, WorkerEndsOver};
pub use meets::{Meets, meet_ends};
pub use reply::{Answered, Reply};
pub use request::Request;
