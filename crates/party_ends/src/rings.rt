//! Mail over rings is made.
use crate::{MakesGossip, MakesMail, MakesPost};
use lattice_laws::NoMemory;
use mail_rings::{RingRx, RingTx, rings};
use std::alloc::Global;
use store_msg::{Batch, Mail, Reply, Request};

/// Mail over rings, for threads.
pub struct RingPost;

impl Mail for RingPost {
    type ReqTx = RingTx<Request>;

    type ReqRx = RingRx<Request>;

    type RepTx = RingTx<Reply>;

    type RepRx = RingRx<Reply>;

    type GosTx = RingTx<Batch>;

    type GosRx = RingRx<Batch>;
}

impl MakesMail<Request> for RingPost {
    type Mailbox = RingRx<Request>;

    fn make(
        &self,
        alloc: Global,
        senders: u16,
    ) -> Result<(Vec<RingTx<Request>>, RingRx<Request>), NoMemory> {
        rings(alloc, senders)
    }
}

impl MakesMail<Reply> for RingPost {
    type Mailbox = RingRx<Reply>;

    fn make(
        &self,
        alloc: Global,
        senders: u16,
    ) -> Result<(Vec<RingTx<Reply>>, RingRx<Reply>), NoMemory> {
        rings(alloc, senders)
    }
}

impl MakesGossip<Batch> for RingPost {
    ghost use Rattle.party_ends.specs.Numbers.{in_order};

    type Mailbox = RingRx<Batch>;

    ghost numbers = { λ _. in_order };

    fn make_weak(
        &self,
        alloc: Global,
        _owner: u16,
        senders: u16,
    ) -> Result<(Vec<RingTx<Batch>>, RingRx<Batch>), NoMemory> {
        rings(alloc, senders)
    }
}

impl MakesPost for RingPost {}
