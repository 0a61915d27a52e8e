//! Mail over queues is made.
use crate::{MakesGossip, MakesMail, MakesPost};
use lattice_laws::NoMemory;
use mailbox_rule::{QueueRx, QueueTx, queue};
use std::alloc::Global;
use std::sync::Wait;
use store_msg::{Batch, Mail, Reply, Request};

/// Mail over one queue for each box, for threads; its calls may wait.
#[derive(Drop)]
pub struct QueuePost<W: Wait + Copy> {
    /// What the ends wait with.
    pub rt: W,
}

impl<W: Wait + Copy> Mail for QueuePost<W> {
    type ReqTx = QueueTx<Request, W>;

    type ReqRx = QueueRx<Request, W>;

    type RepTx = QueueTx<Reply, W>;

    type RepRx = QueueRx<Reply, W>;

    type GosTx = QueueTx<Batch, W>;

    type GosRx = QueueRx<Batch, W>;
}

impl<W: Wait + Copy> MakesMail<Request> for QueuePost<W> {
    type Mailbox = QueueRx<Request, W>;

    fn make(
        &self,
        alloc: Global,
        senders: u16,
    ) -> Result<(Vec<QueueTx<Request, W>>, QueueRx<Request, W>), NoMemory> {
        queue(self.rt, alloc, senders)
    }
}

impl<W: Wait + Copy> MakesMail<Reply> for QueuePost<W> {
    type Mailbox = QueueRx<Reply, W>;

    fn make(
        &self,
        alloc: Global,
        senders: u16,
    ) -> Result<(Vec<QueueTx<Reply, W>>, QueueRx<Reply, W>), NoMemory> {
        queue(self.rt, alloc, senders)
    }
}

impl<W: Wait + Copy> MakesGossip<Batch> for QueuePost<W> {
    ghost use Rattle.party_ends.specs.Numbers.{in_order};

    type Mailbox = QueueRx<Batch, W>;

    ghost numbers = { λ _. in_order };

    fn make_weak(
        &self,
        alloc: Global,
        _owner: u16,
        senders: u16,
    ) -> Result<(Vec<QueueTx<Batch, W>>, QueueRx<Batch, W>), NoMemory> {
        queue(self.rt, alloc, senders)
    }
}

impl<W: Wait + Copy> MakesPost for QueuePost<W> {}
