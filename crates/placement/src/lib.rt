//! Where a key lives, and which replica takes a session's puts.
//!
//! Keys are placed on workers by consistent hashing with a replication factor: each worker has
//! points on a ring of hashes, and a key lives at the workers met first from its own hash onwards.
//! A key may also be pinned to workers of one's choice. The answer is worked out once and is the
//! same for every worker and session.
#![tactic(auto)]

mod config;
mod hash;
mod laws;
mod name;
mod ring;
mod table;

pub use config::{Config, KeyPlace};
pub use hash::fnv1a64;
pub use laws::placements_are_single;
pub use name::{Name, NameFault};
pub use ring::{Point, walk};
pub use table::Placement;
