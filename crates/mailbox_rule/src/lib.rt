//! Mail over one lock-free queue, the mailbox of many senders (`crossbeam_queue`).
//!
//! The queue is shared under a rule, which each step of every thread keeps: of each sender, what it
//! sent is what was received of it and then what the queue holds of it, in order. So the contract of
//! [`mail_contract`] holds in every schedule. Ends may move to threads of their own. Their calls may
//! wait for a thread that is in the midst of a step.
#![tactic(auto)]

ghost use Rattle.std.specs.Prelude.{◌≡◌, ◌≤◌, IfOk};
ghost use Rattle.mail_contract.specs.Fresh.{AllShow, AreNumbered, KnowsOfNone, NeverAsked, NoneReceived, NoneSent};

mod line;
mod rule;
mod rx;
mod tx;

use lattice_laws::NoMemory;
use mail_contract::{Message, Rx, Tx};
pub use rx::QueueRx;
use std::alloc::Global;
use std::sync::Wait;
pub use tx::QueueTx;

/// A queue for one box and so many senders, at least one, which are numbered from 1 in the order of
/// the vector. The ends wait with `rt`.
pub fn queue<M: Message + Send, R: Wait + Copy>(
    rt: R,
    alloc: Global,
    senders: u16,
) -> Result<(Vec<QueueTx<M, R>>, QueueRx<M, R>), NoMemory>
    requires { 1 ≤ senders }
    ensures numbers { IfOk result (λ ends.
        AreNumbered ⟦<QueueTx<M, R> as Tx<M>>⟧ senders ends.0.items) }
    ensures sent { IfOk result (λ ends. NoneSent ⟦<QueueTx<M, R> as Tx<M>>⟧ senders ends.0.items) }

    // Each sender and the box are of one making.
    ensures pairs { IfOk result (λ ends. AllShow ⟦<QueueTx<M, R> as Tx<M>>⟧.key
        (⟦<QueueRx<M, R> as Rx<M>>⟧.key ends.1).0 senders ends.0.items) }
    ensures senders { IfOk result (λ ends. (⟦<QueueRx<M, R> as Rx<M>>⟧.key ends.1).1 ≡ senders) }
    ensures received { IfOk result (λ ends. NoneReceived ⟦<QueueRx<M, R> as Rx<M>>⟧ ends.1) }
    ensures answers { IfOk result (λ ends. NeverAsked ⟦<QueueRx<M, R> as Rx<M>>⟧ ends.1) }

    // Of no sender is anything known yet.
    ensures about { IfOk result (λ ends. KnowsOfNone ⟦<QueueRx<M, R> as Rx<M>>⟧ ends.1) }
{
    let mut rx = QueueRx::new(rt, alloc)?;
    let mut txs = Vec::new(alloc);
    for _ in 0..senders {
        txs.push(rx.sender()?)?;
    }
    Ok((txs, rx))
}
