//! What a worker keeps itself.

use crate::Popped;
use composed_value::Kind;
use gossip_rounds::Changeset;
use lattice_laws::Items;
use merge_world::PrivateMap;
use placement::Placement;
use store_msg::Reply;

/// What a worker keeps itself, beside its ends.
#[derive(Drop)]
pub(crate) struct Local {
    pub(crate) me: u16,
    pub(crate) round: u32,
    pub(crate) placement: Placement,
    pub(crate) kinds: Items<Kind>,
    pub(crate) map: PrivateMap,
    pub(crate) changes: Changeset,
    /// For each mate how many requests were taken when a batch to it last came back.
    pub(crate) turned: Vec<u64>,
    /// How many requests were taken since the last round, counted up to `round`.
    pub(crate) since: u32,
    /// How many requests were taken, counted up to the greatest number of a `u64`.
    pub(crate) taken: u64,
    /// A message that was popped and met want of memory.
    pub(crate) kept: Option<Popped>,
    /// A reply that found no place, with its session.
    pub(crate) held: Option<(u16, Reply)>,
}
