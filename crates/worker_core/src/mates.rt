//! Two workers beside each other.
ghost use Rattle.std.specs.Prelude.{◌≡◌, ◌≢◌, ℕ, ◌<◌, length, map, slice_get, Some};
ghost use Rattle.mail_contract.specs.OverSenders.{number_at, sent_at};
ghost use Rattle.mail_contract.specs.OverWeakBoxes as weak;
ghost use Rattle.worker_core.specs.OverWorkers as over;
ghost use Rattle.worker_core.specs.Room.{LearnsRoomAt};
ghost use Rattle.worker_core.specs.State.{place_at};

use crate::WorkerOver;
use mail_contract::{GossipRx, Rx, Tx};
use store_msg::{Batch, Reply, Request};

/// The place of a mate, from 0, among a worker's mates, by the numbers of both. Takes no memory.
pub(crate) fn place_of(me: u16, mate: u16) -> usize
    ensures { result ≡ place_at me mate }
{
    let before = if mate < me { 1 } else { 2 };
    usize::from(mate.saturating_sub(before))
}

/// Holds the sender of gossip at a place, from 0, beside a box of gossip. Takes no memory.
fn show<O: Tx<Batch>, G: GossipRx<Batch, From = O>>(
    gossip: &mut G,
    senders: &mut Vec<O>,
    place: usize,
)
    requires place { place < length senders.old.items }
    requires pair { (sender : O) → slice_get senders.old.items place ≡ Some sender
        → G.pairs (G.key gossip.old) (O.key sender) (O.number sender) }
    ensures key { G.key gossip.new ≡ G.key gossip.old }
    ensures shows { weak.Shows G.GossipRx
        (number_at O.Tx senders.old.items place) (sent_at O.Tx senders.old.items place)
        gossip.old gossip.new }
    ensures keys { map O.key senders.new.items ≡ map O.key senders.old.items }
    ensures numbers { map O.number senders.new.items ≡ map O.number senders.old.items }
    ensures sent { map O.sent senders.new.items ≡ map O.sent senders.old.items }
    ensures fulls { map O.fulls senders.new.items ≡ map O.fulls senders.old.items }
    ensures room { LearnsRoomAt O.clear O.unseen senders.new.items place G.keeps
        (G.got gossip.old (number_at O.Tx senders.old.items place))
        (sent_at O.Tx senders.old.items place) }
    ensures others { (other : ℕ) → other ≢ place
        → slice_get senders.new.items other ≡ slice_get senders.old.items other }
{
    let sender = &mut senders[place];
    gossip.beside(sender);
}

impl<Q: Rx<Request>, T: Tx<Reply>, O: Tx<Batch>, G: GossipRx<Batch, From = O>> WorkerOver<
    Q,
    T,
    O,
    G,
> {
    /// Holds another worker beside this one, so that each box of gossip learns what the other's sender has,
    /// and each sender what was handed out. The ends are of one making, and the workers differ. Takes no
    /// memory.
    pub fn beside_mate(&mut self, mate: &mut WorkerOver<Q, T, O, G>)
        requires differ { (self.old.state.me ≡ mate.old.state.me) → ⊥ }
        requires place { over.place_to self.old mate.old < length self.old.ends.gossip_out.items }
        requires mate_place { over.place_to mate.old self.old
            < length mate.old.ends.gossip_out.items }
        requires pair { over.IsPaired O.Tx G.GossipRx self.old mate.old }
        requires mate_pair { over.IsPaired O.Tx G.GossipRx mate.old self.old }
        ensures learns { over.Learns Q.Rx T.Tx O.Tx G.GossipRx self.old self.new mate.old }
        ensures mate_learns { over.Learns Q.Rx T.Tx O.Tx G.GossipRx mate.old mate.new self.old }
    {
        let me = self.local.me;
        let number = mate.local.me;
        let its_place = place_of(number, me);
        show(
            &mut self.ends.gossip_in,
            &mut mate.ends.gossip_out,
            its_place,
        );
        let place = place_of(me, number);
        show(&mut mate.ends.gossip_in, &mut self.ends.gossip_out, place);
        self.attest();
        mate.attest();
    }
}
