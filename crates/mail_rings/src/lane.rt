//! The box of one sender over a ring.
ghost use Rattle.std.specs.Prelude.{◌≡◌, ◌++◌, IfSome};
ghost use Rattle.std.proofs.Props.{props};
ghost use Rattle.rtrb.specs.Ring.{sent, received, known_items, consumer_capacity, IsPair};

use crate::RingTx;
use lattice_laws::NoMemory;
use mail_contract::Lane;
use rtrb::Consumer;
use std::alloc::Global;

/// The box of one sender over a ring of 64 places.
#[derive(Drop)]
pub struct RingLane<M> {
    ring: Consumer<M>,
    shown: bool,
    ended: Option<RingTx<M>>,
    ghost places: { consumer_capacity ring ≡ 64 },
    // The sender that has ended is kept beside the ring, so all that it sent is known.
    ghost beside: { IfSome ended (λ tx. IsPair tx.ring ring
        × (received ring ++ known_items ring ≡ sent tx.ring)) } by { Prim.hlevel props },
}

impl<M: Drop> Lane<M> for RingLane<M> {
    ghost use Rattle.std.specs.Prelude.{◌≡◌};
    ghost use Rattle.mail_rings.specs.Rings.{lane_of, ring_parts, rx_ring};

    type From = RingTx<M>;

    type Key = (*mut u64, *mut u64, (u64, (u64, u64)), Global);

    ghost key = { λ lane. rx_ring lane.ring };

    ghost pairs = { λ ring tx. tx ≡ ring };

    ghost lane = { λ lane. lane_of lane.ended lane.shown lane.ring };

    ghost keeps = { ring_parts };

    fn draw(&mut self) -> Result<Option<M>, NoMemory> {
        if self.ended.is_none() && !self.shown {
            return Ok(self.ring.pop().ok());
        }
        if self.ring.cached_slots() == 0 {
            return Ok(None);
        }
        Ok(Some(self.ring.pop_known()))
    }

    fn end(&mut self, ended: RingTx<M>) {
        let mut ended = ended;
        self.ring.slots_beside(&mut ended.ring);
        self.ended = Some(ended);
    }

    fn show(&mut self, tx: &mut RingTx<M>) {
        // Each end learns what the other has, the sender first.
        tx.ring.slots_beside(&mut self.ring);
        tx.unseen = self.ring.slots_beside(&mut tx.ring);
        self.ended = None;
        self.shown = true;
    }

    fn part(&mut self) {
        self.shown = false;
    }
}

impl<M: Drop> RingLane<M> {
    ghost use Rattle.std.specs.Prelude.{◌≡◌, []};
    ghost use Rattle.rtrb.specs.Ring.{received, consumer_capacity};
    ghost use Rattle.mail_rings.specs.Rings.{new_lane, rx_ring};

    /// The end of an unused ring.
    pub(crate) fn new(ring: Consumer<M>) -> RingLane<M>
        requires places { consumer_capacity ring ≡ 64 }
        requires unused { received ring ≡ [] }
        ensures key { ⟦<RingLane<M> as Lane<M>>⟧.key result ≡ rx_ring ring }
        ensures lane { ⟦<RingLane<M> as Lane<M>>⟧.lane result ≡ new_lane }
    {
        RingLane {
            ring,
            shown: false,
            ended: None,
        }
    }
}
