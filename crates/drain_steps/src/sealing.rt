//! Workers are sealed.
ghost use Rattle.std.specs.Prelude.{◌≡◌, [], All, map, IfOk, None};
ghost use Rattle.worker_core.specs.Sealed.{sealed_of};
ghost use Rattle.worker_core.specs.State.{dirty, kept_request};

use lattice_laws::NoMemory;
use mail_contract::{GossipRx, Rx, Tx};
use std::alloc::Global;
use store_msg::{Batch, Reply, Request};
use worker_core::{SealedOver, WorkerOver};

/// The workers, sealed, and for each its senders of replies and those of gossip.
pub fn seal_all<T: Tx<Reply>, O: Tx<Batch>, Q: Rx<Request>, G: GossipRx<Batch, From = O>>(
    alloc: Global,
    workers: Vec<WorkerOver<Q, T, O, G>>,
) -> Result<(Vec<SealedOver<Q, G>>, Vec<Vec<T>>, Vec<Vec<O>>), NoMemory>
    requires clean { All (λ worker. dirty worker.state ≡ 0) workers.items }
    requires none_held { All (λ worker. worker.state.held ≡ None) workers.items }
    requires none_kept { All (λ worker. kept_request worker.state.kept ≡ []) workers.items }
    ensures sealed { IfOk result (λ all. all.0.items ≡ map sealed_of workers.items) }
    ensures replies { IfOk result (λ all. all.1.items
        ≡ map (λ its. its.ends.replies) workers.items) }
    ensures gossip { IfOk result (λ all. all.2.items
        ≡ map (λ its. its.ends.gossip_out) workers.items) }
{
    let mut workers = workers;
    let mut sealed = Vec::with_capacity(alloc, workers.len())?;
    let mut replies = Vec::with_capacity(alloc, workers.len())?;
    let mut gossip = Vec::with_capacity(alloc, workers.len())?;
    while let Some(worker) = workers.pop() {
        let (its_sealed, its_replies, its_gossip) = worker.seal();
        sealed.push(its_sealed)?;
        replies.push(its_replies)?;
        gossip.push(its_gossip)?;
    }
    sealed.reverse();
    replies.reverse();
    gossip.reverse();
    Ok((sealed, replies, gossip))
}
