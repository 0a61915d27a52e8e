//! A worker over plain mail, for one thread: a driver carries its parcels.
ghost use Rattle.std.specs.Prelude.{◌≡◌, ◌-◌, ◌<◌, ◌≤◌, length};
ghost use Rattle.mail_contract.specs.OverPlain.{Delivers, DeliversWeak, GivesUp};
ghost use Rattle.worker_core.specs.OverWorkers as over;
ghost use Rattle.worker_core.specs.State.{place_at};

use crate::WorkerOver;
use crate::mates::place_of;
use mail_contract::{GossipRx, Parcel, ParcelFault, PlainRx, PlainTx, Rx, Tx, deliver, parcel_of};
use store_msg::{Batch, Reply, Request};

impl WorkerOver<PlainRx<Request>, PlainTx<Reply>, PlainTx<Batch>, PlainRx<Batch>> {
    /// Takes in a parcel of a session's requests. A refusal hands it back, and nothing has changed.
    pub fn deliver_requests(&mut self, parcel: Parcel<Request>) -> Result<(), ParcelFault<Request>>
        ensures share { over.Share
            ⟦<PlainRx<Request> as Rx<Request>>⟧ ⟦<PlainTx<Reply> as Tx<Reply>>⟧
            ⟦<PlainTx<Batch> as Tx<Batch>>⟧ ⟦<PlainRx<Batch> as GossipRx<Batch>>⟧ self.new }
        ensures lags { over.Lags ⟦<PlainRx<Request> as Rx<Request>>⟧ ⟦<PlainTx<Reply> as Tx<Reply>>⟧
            ⟦<PlainTx<Batch> as Tx<Batch>>⟧ ⟦<PlainRx<Batch> as GossipRx<Batch>>⟧ self.new }
        ensures delivers { Delivers ⟦<PlainRx<Request> as Rx<Request>>⟧ parcel result
            self.old.ends.requests self.new.ends.requests }
        ensures rest { self.new ≡ record self.old {
          ends = record self.old.ends { requests = self.new.ends.requests };
        } }
    {
        let delivered = deliver(&mut self.ends.requests, parcel);
        self.attest();
        delivered
    }

    /// Takes in a parcel of a mate's gossip. A refusal hands it back, and nothing has changed.
    pub fn deliver_gossip(&mut self, parcel: Parcel<Batch>) -> Result<(), ParcelFault<Batch>>
        ensures share { over.Share
            ⟦<PlainRx<Request> as Rx<Request>>⟧ ⟦<PlainTx<Reply> as Tx<Reply>>⟧
            ⟦<PlainTx<Batch> as Tx<Batch>>⟧ ⟦<PlainRx<Batch> as GossipRx<Batch>>⟧ self.new }
        ensures lags { over.Lags ⟦<PlainRx<Request> as Rx<Request>>⟧ ⟦<PlainTx<Reply> as Tx<Reply>>⟧
            ⟦<PlainTx<Batch> as Tx<Batch>>⟧ ⟦<PlainRx<Batch> as GossipRx<Batch>>⟧ self.new }
        ensures delivers { DeliversWeak ⟦<PlainRx<Batch> as GossipRx<Batch>>⟧ parcel result
            self.old.ends.gossip_in self.new.ends.gossip_in }
        ensures rest { self.new ≡ record self.old {
          ends = record self.old.ends { gossip_in = self.new.ends.gossip_in };
        } }
    {
        let delivered = deliver(&mut self.ends.gossip_in, parcel);
        self.attest();
        delivered
    }

    /// Gives up the replies that were sent to a session since its last parcel. The session is there. Takes no
    /// memory.
    pub fn reply_parcel(&mut self, session: u16) -> Parcel<Reply>
        requires { (1 ≤ session) × (session ≤ length self.old.ends.replies.items) }
        ensures share { over.Share
            ⟦<PlainRx<Request> as Rx<Request>>⟧ ⟦<PlainTx<Reply> as Tx<Reply>>⟧
            ⟦<PlainTx<Batch> as Tx<Batch>>⟧ ⟦<PlainRx<Batch> as GossipRx<Batch>>⟧ self.new }
        ensures lags { over.Lags ⟦<PlainRx<Request> as Rx<Request>>⟧ ⟦<PlainTx<Reply> as Tx<Reply>>⟧
            ⟦<PlainTx<Batch> as Tx<Batch>>⟧ ⟦<PlainRx<Batch> as GossipRx<Batch>>⟧ self.new }
        ensures parcel { GivesUp ⟦<PlainTx<Reply> as Tx<Reply>>⟧
            (session - 1) result self.old.ends.replies.items self.new.ends.replies.items }
        ensures rest { self.new ≡ record self.old {
          ends = record self.old.ends { replies = self.new.ends.replies };
        } }
    {
        let parcel = parcel_of(&mut self.ends.replies, usize::from(session) - 1);
        self.attest();
        parcel
    }

    /// Gives up the gossip that was sent to a mate, by its number, since its last parcel. The mate is there.
    /// Takes no memory.
    pub fn gossip_parcel(&mut self, mate: u16) -> Parcel<Batch>
        requires differs { (mate ≡ self.old.state.me) → ⊥ }
        requires from_one { 1 ≤ mate }
        requires place { place_at self.old.state.me mate < length self.old.ends.gossip_out.items }
        ensures share { over.Share
            ⟦<PlainRx<Request> as Rx<Request>>⟧ ⟦<PlainTx<Reply> as Tx<Reply>>⟧
            ⟦<PlainTx<Batch> as Tx<Batch>>⟧ ⟦<PlainRx<Batch> as GossipRx<Batch>>⟧ self.new }
        ensures lags { over.Lags ⟦<PlainRx<Request> as Rx<Request>>⟧ ⟦<PlainTx<Reply> as Tx<Reply>>⟧
            ⟦<PlainTx<Batch> as Tx<Batch>>⟧ ⟦<PlainRx<Batch> as GossipRx<Batch>>⟧ self.new }
        ensures parcel { GivesUp ⟦<PlainTx<Batch> as Tx<Batch>>⟧
            (place_at self.old.state.me mate) result
            self.old.ends.gossip_out.items self.new.ends.gossip_out.items }
        ensures rest { self.new ≡ record self.old {
          ends = record self.old.ends { gossip_out = self.new.ends.gossip_out };
        } }
    {
        let place = place_of(self.local.me, mate);
        let parcel = parcel_of(&mut self.ends.gossip_out, place);
        self.attest();
        parcel
    }
}
