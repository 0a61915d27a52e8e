//! Mail over rings: one lock-free ring of 64 places for each sender (`rtrb`).
//!
//! Ends may move to threads of their own, and every call returns. These ends keep all parts of the
//! contract of [`mail_contract`], but that a take makes room for the order in which it takes.
#![tactic(auto)]

ghost use Rattle.std.specs.Prelude.{◌≡◌, ◌≤◌, map, IfOk};
ghost use Rattle.mail_contract.specs.Fresh.{AllShow, AreNumbered, NeverAsked, NoneReceived, NoneSent};
ghost use Rattle.mail_rings.specs.Rings.{KnowsNothing};

mod lane;
mod tx;

pub use lane::RingLane;
use lattice_laws::NoMemory;
use mail_contract::{Gathered, Lane, Message, Rx, Tx};
use rtrb::RingBuffer;
use std::alloc::Global;
pub use tx::RingTx;

/// A box over rings: a ring for each sender. The senders take turns.
pub type RingRx<M> = Gathered<M, RingLane<M>>;

/// How many messages have a place in a ring.
const PLACES: usize = 64;

/// Rings for one box and so many senders, at least one, which are numbered from 1 in the order of the
/// vector.
pub fn rings<M: Message + Send>(
    alloc: Global,
    senders: u16,
) -> Result<(Vec<RingTx<M>>, RingRx<M>), NoMemory>
    requires { 1 ≤ senders }
    ensures numbers { IfOk result
        (λ ends. AreNumbered ⟦<RingTx<M> as Tx<M>>⟧ senders ends.0.items) }
    ensures sent { IfOk result (λ ends. NoneSent ⟦<RingTx<M> as Tx<M>>⟧ senders ends.0.items) }
    ensures fulls { IfOk result (λ ends. AllShow ⟦<RingTx<M> as Tx<M>>⟧.fulls 0 senders
        ends.0.items) }
    ensures unseen { IfOk result (λ ends. AllShow ⟦<RingTx<M> as Tx<M>>⟧.unseen 0 senders
        ends.0.items) }

    // Each sender and the box are of one making.
    ensures pairs { IfOk result (λ ends. map (⟦<RingTx<M> as Tx<M>>⟧.key) ends.0.items
        ≡ ⟦<RingRx<M> as Rx<M>>⟧.key ends.1) }
    ensures received { IfOk result (λ ends. NoneReceived ⟦<RingRx<M> as Rx<M>>⟧ ends.1) }
    ensures answers { IfOk result (λ ends. NeverAsked ⟦<RingRx<M> as Rx<M>>⟧ ends.1) }

    // Of no sender is anything known yet.
    ensures about { IfOk result (λ ends. KnowsNothing ⟦<RingRx<M> as Rx<M>>⟧ senders ends.1) }
{
    let mut txs = Vec::new(alloc);
    let mut lanes = Vec::new(alloc);
    for place in 0..senders {
        let (producer, consumer) = RingBuffer::new(alloc, PLACES)?;
        txs.push(RingTx::new(place + 1, producer))?;
        lanes.push(RingLane::new(consumer))?;
    }
    Ok((txs, Gathered::new(alloc, lanes)))
}
