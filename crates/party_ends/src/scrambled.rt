//! Mail over rings is made whose gossip comes in disorder.
use crate::{MakesGossip, MakesMail, MakesPost, RingPost};
use lattice_laws::NoMemory;
use mail_contract::Scramble;
use mail_rings::{RingRx, RingTx, rings};
use std::alloc::Global;
use store_msg::{Batch, Mail, Reply, Request};

/// Mail over rings, for threads, whose batches of gossip are overtaken by others and come once or twice.
#[derive(Drop)]
pub struct ScrambledPost {
    /// The number of the disorder, of 64 bits: the draws of the box of worker `w` begin with it plus `w`, modulo 2^64.
    pub number: u64,
}

impl Mail for ScrambledPost {
    type ReqTx = RingTx<Request>;

    type ReqRx = RingRx<Request>;

    type RepTx = RingTx<Reply>;

    type RepRx = RingRx<Reply>;

    type GosTx = RingTx<Batch>;

    type GosRx = Scramble<Batch, RingRx<Batch>>;
}

impl MakesMail<Request> for ScrambledPost {
    type Mailbox = RingRx<Request>;

    fn make(
        &self,
        alloc: Global,
        senders: u16,
    ) -> Result<(Vec<RingTx<Request>>, RingRx<Request>), NoMemory> {
        <RingPost as MakesMail<Request>>::make(&RingPost, alloc, senders)
    }
}

impl MakesMail<Reply> for ScrambledPost {
    type Mailbox = RingRx<Reply>;

    fn make(
        &self,
        alloc: Global,
        senders: u16,
    ) -> Result<(Vec<RingTx<Reply>>, RingRx<Reply>), NoMemory> {
        <RingPost as MakesMail<Reply>>::make(&RingPost, alloc, senders)
    }
}

impl MakesGossip<Batch> for ScrambledPost {
    ghost use Rattle.party_ends.specs.Numbers.{scrambled_by};

    type Mailbox = Scramble<Batch, RingRx<Batch>>;

    ghost numbers = { λ post owner. scrambled_by post.number owner };

    fn make_weak(
        &self,
        alloc: Global,
        owner: u16,
        senders: u16,
    ) -> Result<(Vec<RingTx<Batch>>, Scramble<Batch, RingRx<Batch>>), NoMemory> {
        let (txs, inner) = rings(alloc, senders)?;
        let mailbox = Scramble::new(alloc, inner, self.number.wrapping_add(u64::from(owner)))?;
        Ok((txs, mailbox))
    }
}

impl MakesPost for ScrambledPost {}
