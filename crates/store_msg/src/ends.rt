//! The ends that carry a store's mail.

use crate::{Batch, Reply, Request};
use mail_contract::{GossipRx, PlainRx, PlainTx, Rx, Tx};

/// The ends of one kind of mail for the three ways of a store: requests from sessions to workers,
/// replies from workers to sessions, gossip between workers.
pub trait Mail {
    type ReqTx: Tx<Request>;

    type ReqRx: Rx<Request, From = Self::ReqTx>;

    type RepTx: Tx<Reply>;

    type RepRx: Rx<Reply, From = Self::RepTx>;

    type GosTx: Tx<Batch>;

    type GosRx: GossipRx<Batch, From = Self::GosTx>;
}

/// Plain mail, for one thread.
pub struct PlainPost;

impl Mail for PlainPost {
    type ReqTx = PlainTx<Request>;

    type ReqRx = PlainRx<Request>;

    type RepTx = PlainTx<Reply>;

    type RepRx = PlainRx<Reply>;

    type GosTx = PlainTx<Batch>;

    type GosRx = PlainRx<Batch>;
}

/// The ends of a worker, each of a type of its own so that they can move to another thread: the box of
/// its requests, a sender of replies for each session and one of gossip for each other worker, both in
/// ascending order, and the box of its gossip.
#[derive(Drop)]
pub struct WorkerEndsOver<Q: Drop, T: Drop, O: Drop, G: Drop> {
    pub requests: Q,
    pub replies: Vec<T>,
    pub gossip_out: Vec<O>,
    pub gossip_in: G,
}

/// The ends of a worker over one kind of mail.
pub type WorkerEnds<P> = WorkerEndsOver<
    <P as Mail>::ReqRx,
    <P as Mail>::RepTx,
    <P as Mail>::GosTx,
    <P as Mail>::GosRx,
>;

/// The ends of a session: a sender of requests for each worker, in ascending order, and the box of its
/// replies.
#[derive(Drop)]
pub struct SessionEndsOver<T: Drop, R: Drop> {
    pub requests: Vec<T>,
    pub replies: R,
}

/// The ends of a session over one kind of mail.
pub type SessionEnds<P> = SessionEndsOver<<P as Mail>::ReqTx, <P as Mail>::RepRx>;
