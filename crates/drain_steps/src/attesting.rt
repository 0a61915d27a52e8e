//! Workers tell what they keep.
ghost use Rattle.std.specs.Prelude.{All};
ghost use Rattle.party_turns.specs.Places.{AtEach};
ghost use Rattle.worker_core.specs.Kept.{IsRequest};
ghost use Rattle.worker_core.specs.OverWorkers as over;

use mail_contract::{GossipRx, Rx, Tx};
use store_msg::{Batch, Reply, Request};
use worker_core::WorkerOver;

/// Tells of each worker what it keeps from call to call: its share, and that each request that it received
/// is one that there can be. It does nothing, and takes no memory.
pub fn attest_all<T: Tx<Reply>, O: Tx<Batch>, Q: Rx<Request>, G: GossipRx<Batch, From = O>>(
    workers: &[WorkerOver<Q, T, O, G>],
)
    ensures share { AtEach workers.now (over.Share Q.Rx T.Tx O.Tx G.GossipRx) }
    ensures requests { AtEach workers.now (λ worker.
        All (λ message. IsRequest message.1) (Q.received worker.ends.requests)) }
{
    for i in 0..workers.len() {
        workers[i].attest();
    }
}
