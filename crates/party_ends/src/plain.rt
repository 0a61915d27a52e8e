//! Plain mail is made.
use crate::{MakesGossip, MakesMail, MakesPost};
use lattice_laws::NoMemory;
use mail_contract::{PlainRx, PlainTx, plain};
use std::alloc::Global;
use store_msg::{Batch, PlainPost, Reply, Request};

impl MakesMail<Request> for PlainPost {
    type Mailbox = PlainRx<Request>;

    fn make(
        &self,
        alloc: Global,
        senders: u16,
    ) -> Result<(Vec<PlainTx<Request>>, PlainRx<Request>), NoMemory> {
        plain(alloc, senders)
    }
}

impl MakesMail<Reply> for PlainPost {
    type Mailbox = PlainRx<Reply>;

    fn make(
        &self,
        alloc: Global,
        senders: u16,
    ) -> Result<(Vec<PlainTx<Reply>>, PlainRx<Reply>), NoMemory> {
        plain(alloc, senders)
    }
}

impl MakesGossip<Batch> for PlainPost {
    ghost use Rattle.party_ends.specs.Numbers.{in_order};

    type Mailbox = PlainRx<Batch>;

    ghost numbers = { λ _. in_order };

    fn make_weak(
        &self,
        alloc: Global,
        _owner: u16,
        senders: u16,
    ) -> Result<(Vec<PlainTx<Batch>>, PlainRx<Batch>), NoMemory> {
        plain(alloc, senders)
    }
}

impl MakesPost for PlainPost {}
