//! Two workers are held beside each other.
ghost use Rattle.std.specs.Prelude.{◌≢◌, ◌<◌, length};
ghost use Rattle.party_turns.specs.OverWorkers as over;

use mail_contract::{GossipRx, Rx, Tx};
use store_msg::{Batch, Reply, Request};
use worker_core::WorkerOver;

/// Holds the workers at two places, from 0, beside each other, so that each box of gossip learns what the other
/// one's sender has. Nothing else changes of them, and nothing of the others. Takes no memory.
pub fn show_pair<T: Tx<Reply>, O: Tx<Batch>, Q: Rx<Request>, G: GossipRx<Batch, From = O>>(
    workers: &mut [WorkerOver<Q, T, O, G>],
    place: usize,
    other: usize,
)
    requires within { (place < length workers.old) × (other < length workers.old) }
    requires differ { other ≢ place }
    requires mates { over.AreMates O.Tx G.GossipRx workers.old }
    ensures shown { over.AreShown O.Tx G.GossipRx place other workers.old workers.new }
{
    let low = place.min(other);
    let high = place.max(other);
    let (front, back) = workers.split_at_mut(high);
    front[low].beside_mate(&mut back[0]);
}
