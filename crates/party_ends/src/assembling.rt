//! The ends of each party are put together.
ghost use Rattle.std.specs.Prelude.{◌≡◌, IfOk};
ghost use Rattle.party_ends.specs.Dealt.{session_ends, worker_ends};

use lattice_laws::NoMemory;
use std::alloc::Global;
use store_msg::{SessionEndsOver, WorkerEndsOver};

/// The ends of the sessions, from the senders and the box of each.
pub(crate) fn session_ends<S: Drop, R: Drop>(
    alloc: Global,
    requests: Vec<Vec<S>>,
    replies: Vec<R>,
) -> Result<Vec<SessionEndsOver<S, R>>, NoMemory>
    ensures { IfOk result (λ ends. ends.items ≡ session_ends requests.items replies.items) }
{
    let ends = requests
        .into_iter()
        .zip(replies)
        .map(|(requests, replies)| SessionEndsOver { requests, replies })
        .collect(alloc)?;
    Ok(ends)
}

/// The ends of the workers, from the box of requests, the senders of replies, those of gossip and the box
/// of gossip of each.
pub(crate) fn worker_ends<Q: Drop, T: Drop, O: Drop, G: Drop>(
    alloc: Global,
    requests: Vec<Q>,
    replies: Vec<Vec<T>>,
    gossip_out: Vec<Vec<O>>,
    gossip_in: Vec<G>,
) -> Result<Vec<WorkerEndsOver<Q, T, O, G>>, NoMemory>
    ensures { IfOk result (λ ends. ends.items ≡ worker_ends
        requests.items replies.items gossip_out.items gossip_in.items) }
{
    let ends = requests
        .into_iter()
        .zip(replies)
        .zip(gossip_out.into_iter().zip(gossip_in))
        .map(|((requests, replies), (gossip_out, gossip_in))| WorkerEndsOver {
            requests,
            replies,
            gossip_out,
            gossip_in,
        })
        .collect(alloc)?;
    Ok(ends)
}
