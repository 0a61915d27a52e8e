//! The end of a sender over a ring.
ghost use Rattle.std.specs.Prelude.{◌≡◌, ℕ, ◌+◌, ◌<◌, ◌≤◌};
ghost use Rattle.rtrb.specs.Ring.{known_free, producer_capacity};

use mail_contract::{Refused, Tx};
use rtrb::{Producer, PushError};
use std::alloc::Global;

/// The end of a sender over a ring of 64 places.
#[derive(Drop)]
pub struct RingTx<M> {
    number: u16,
    pub(crate) ring: Producer<M>,
    pub(crate) unseen: usize,
    fulls: u64,
    ghost places: { producer_capacity ring ≡ 64 },
    ghost few: { unseen ≤ 64 },
    // A place is free, or known to be taken up.
    ghost counted: { 64 ≤ known_free ring + unseen },
}

impl<M: Drop> Tx<M> for RingTx<M> {
    ghost use Rattle.std.specs.Prelude.{◌<◌, true};
    ghost use Rattle.rtrb.specs.Ring.{sent};
    ghost use Rattle.mail_rings.specs.Rings.{tx_ring};

    type Key = (*mut u64, *mut u64, (u64, (u64, u64)), Global);

    ghost key = { λ tx. tx_ring tx.ring };

    ghost number = { λ tx. tx.number };

    ghost sent = { λ tx. sent tx.ring };

    ghost fulls = { λ tx. tx.fulls };

    ghost roomy = { true };

    ghost unseen = { λ tx. tx.unseen };

    ghost clear = { λ tx. tx.unseen < 64 };

    fn sender(&self) -> u16 {
        self.number
    }

    fn send(&mut self, message: M) -> Result<(), Refused<M>> {
        match self.ring.push(message) {
            Ok(()) => {
                self.unseen = (self.unseen + 1).min(64);
                Ok(())
            }
            Err(PushError::Full(back)) => {
                self.fulls = self.fulls.saturating_add(1);
                Err(Refused::Full(back))
            }
        }
    }
}

impl<M: Drop> RingTx<M> {
    ghost use Rattle.std.specs.Prelude.{◌≡◌, ◌≤◌, []};
    ghost use Rattle.rtrb.specs.Ring.{sent, known_free, producer_capacity};
    ghost use Rattle.mail_rings.specs.Rings.{tx_ring};

    /// The end of an unused ring.
    pub(crate) fn new(number: u16, ring: Producer<M>) -> RingTx<M>
        requires places { producer_capacity ring ≡ 64 }
        requires free { 64 ≤ known_free ring }
        ensures number { ⟦<RingTx<M> as Tx<M>>⟧.number result ≡ number }
        ensures sent { ⟦<RingTx<M> as Tx<M>>⟧.sent result ≡ sent ring }
        ensures key { ⟦<RingTx<M> as Tx<M>>⟧.key result ≡ tx_ring ring }
        ensures fulls { ⟦<RingTx<M> as Tx<M>>⟧.fulls result ≡ 0 }
        ensures unseen { ⟦<RingTx<M> as Tx<M>>⟧.unseen result ≡ 0 }
    {
        RingTx {
            number,
            ring,
            unseen: 0,
            fulls: 0,
        }
    }
}
