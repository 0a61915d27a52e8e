//! Senders that have ended are taken in by those that they are for.
ghost use Rattle.std.specs.Prelude.{◌≡◌, ◌&&◌, ◌==◌, ℕ, ◌+◌, ◌^◌, ◌<◌, ◌≤◌, All, if◌then◌else◌, length, map, slice_get, false, Some};
ghost use Rattle.party_turns.specs.Places.{BothAtPlaces};
ghost use Rattle.party_turns.specs.Rows.{MayTakeAll, TakesAll, column, for_place, index_in, rows_in};

use mail_contract::{GossipRx, Rx, Tx, settle_one};
use store_msg::{Batch, Reply, Request};
use worker_core::{SealedOver, WorkerOver};

/// A party that takes in senders of messages of one kind.
pub trait TakesIn<M>: Drop {
    /// The end of its senders.
    type From: Tx<M>;

    // It may take in a sender.
    ghost may: { Self → Self.From → Type 0 };

    // What it becomes when it takes in a sender.
    ghost takes: { Self.From → Self → Self → Type 0 };

    /// Takes in a sender that has ended. Takes no memory.
    fn take_in(&mut self, ended: Self::From)
        requires { may self.old ended }
        ensures { takes ended self.old self.new };
}

impl<Q: Rx<Request>, T: Tx<Reply>, O: Tx<Batch>, G: GossipRx<Batch, From = O>> TakesIn<Request>
    for WorkerOver<Q, T, O, G> {
    ghost use Rattle.party_turns.specs.Rows.{MayTakeIn};
    ghost use Rattle.drain_steps.specs.Settling.{TakesInRequests};
    ghost use Rattle.mail_contract.specs.Boxes.{box_of};

    type From = Q::From;

    ghost may = { λ worker sender. MayTakeIn Q.pairs (Q.key worker.ends.requests)
        (Q.about worker.ends.requests) (Q.From.key sender) (Q.From.number sender) };

    ghost takes = { λ sender before now. TakesInRequests Q.key Q.keeps
        (box_of Q.received Q.answers Q.about) (Q.From.number sender) (Q.From.sent sender) before now };

    fn take_in(&mut self, ended: Q::From) {
        self.settle(ended);
    }
}

impl<Q: Rx<Request>, G: GossipRx<Batch>> TakesIn<Batch> for SealedOver<Q, G> {
    ghost use Rattle.party_turns.specs.Rows.{MayTakeIn};
    ghost use Rattle.drain_steps.specs.Settling.{TakesInGossip};
    ghost use Rattle.mail_contract.specs.Boxes.{weak_box_of};

    type From = G::From;

    ghost may = { λ worker sender. MayTakeIn G.pairs (G.key worker.gossip_in)
        (G.about worker.gossip_in) (G.From.key sender) (G.From.number sender) };

    ghost takes = { λ sender before now. TakesInGossip G.key G.senders G.keeps
        (weak_box_of G.got G.answers G.about G.due G.most)
        (G.From.number sender) (G.From.sent sender) before now };

    fn take_in(&mut self, ended: G::From) {
        self.settle(ended);
    }
}

impl<R: Rx<Reply>> TakesIn<Reply> for R {
    ghost use Rattle.party_turns.specs.Rows.{MayTakeIn};
    ghost use Rattle.drain_steps.specs.Settling.{TakesInReplies};
    ghost use Rattle.mail_contract.specs.Boxes.{box_of};

    type From = R::From;

    ghost may = { λ its sender. MayTakeIn R.pairs (R.key its)
        (R.about its) (R.From.key sender) (R.From.number sender) };

    ghost takes = { λ sender before now. TakesInReplies R.key R.keeps
        (box_of R.received R.answers R.about) (R.From.number sender) (R.From.sent sender) before now };

    fn take_in(&mut self, ended: R::From) {
        settle_one(self, ended);
    }
}

/// Each party takes in its senders of all rows. In each row there is one for each party, in order; where
/// rows skip, for each but the one of the row's own number.
pub fn settle_all<M, P: TakesIn<M>>(parties: &mut Vec<P>, rows: Vec<Vec<P::From>>, skips: bool)
    requires many { All (λ senders. length senders.items + (if skips then 1 else 0)
        ≡ length parties.old.items) rows.items }
    requires may { (place : ℕ) (party : P) → slice_get parties.old.items place ≡ Some party
        → MayTakeAll P.may P.takes
        (column skips 0 (rows_in rows.items) place) party }
    ensures long { length parties.new.items ≡ length parties.old.items }
    ensures takes { BothAtPlaces parties.old.items parties.new.items (λ place. TakesAll P.takes
        (column skips 0 (rows_in rows.items) place)) }
{
    let mut rows = rows;
    while let Some(senders) = rows.pop() {
        let row = rows.len();
        settle_row(parties, senders, skips, row);
    }
}

/// The parties take in the senders of a row, each its own.
fn settle_row<M, P: TakesIn<M>>(
    parties: &mut Vec<P>,
    senders: Vec<P::From>,
    skips: bool,
    row: usize,
)
    requires many { length senders.items + (if skips then 1 else 0) ≡ length parties.old.items }
    requires may { (place : ℕ) (party : P) → slice_get parties.old.items place ≡ Some party
        → MayTakeAll P.may P.takes (for_place skips row senders.items place) party }
    ensures long { length parties.new.items ≡ length parties.old.items }
    ensures takes { BothAtPlaces parties.old.items parties.new.items (λ place. TakesAll P.takes
        (for_place skips row senders.items place)) }
{
    let mut senders = senders;
    while let Some(sender) = senders.pop() {
        let index = senders.len();
        let place = place_of(index, skips, row);
        parties[place].take_in(sender);
    }
}

/// The place of the party that a sender of a row is for, by the sender's index.
fn place_of(index: usize, skips: bool, row: usize) -> usize
    requires fits { index + 1 < 2 ^ 64 }
    ensures index { index_in skips row result ≡ index }
    ensures kept { (skips && row == result) ≡ false }
    ensures within { result ≤ index + (if skips then 1 else 0) }
{
    if skips && index >= row {
        index + 1
    } else {
        index
    }
}
