//! Sealed workers hear what the others told them.
ghost use Rattle.std.specs.Prelude.{◌≡◌, length, IsFalse, IsTrue, OnOk};
ghost use Rattle.drain_steps.specs.OverSealed as over;
ghost use Rattle.party_turns.specs.Places.{AtEach, BothAtEach};

use lattice_laws::NoMemory;
use mail_contract::{GossipRx, Rx};
use party_turns::{ByMeasure, Repeats, Waiting};
use std::sync::Wait;
use store_msg::{Batch, Request};
use worker_core::SealedOver;

/// Makes sealed workers hear.
pub trait HearsOut<Q: Rx<Request>, G: GossipRx<Batch>>: Repeats {
    /// A worker hears until no gossip is found.
    fn hear_out(&self, worker: &mut SealedOver<Q, G>) -> Result<(), NoMemory>
        requires finite { IsFalse Self.waits → IsTrue G.keeps.finite }
        requires met { over.AreMet G.GossipRx worker.old }
        ensures heard { OnOk result (over.HasHeard Q.Rx G.GossipRx worker.old worker.new) };
}

impl<Q: Rx<Request>, G: GossipRx<Batch>> HearsOut<Q, G> for ByMeasure {
    fn hear_out(&self, worker: &mut SealedOver<Q, G>) -> Result<(), NoMemory> {
        while worker.hear()? {}
        Ok(())
    }
}

impl<'a, Q: Rx<Request>, G: GossipRx<Batch>, R: Wait> HearsOut<Q, G> for Waiting<'a, R> {
    fn hear_out(&self, worker: &mut SealedOver<Q, G>) -> Result<(), NoMemory> {
        for _ in self.0.forever() {
            if !worker.hear()? {
                return Ok(());
            }
        }
        unreachable!()
    }
}

/// Each worker hears until no gossip is found.
pub fn hear_all<Q: Rx<Request>, G: GossipRx<Batch>, P: HearsOut<Q, G>>(
    by: &P,
    workers: &mut Vec<SealedOver<Q, G>>,
) -> Result<(), NoMemory>
    requires finite { IsFalse P.waits → IsTrue G.keeps.finite }
    requires met { AtEach workers.old.items (over.AreMet G.GossipRx) }
    ensures long { length workers.new.items ≡ length workers.old.items }
    ensures heard { OnOk result (BothAtEach workers.old.items workers.new.items
        (over.HasHeard Q.Rx G.GossipRx)) }
{
    for place in 0..workers.len() {
        by.hear_out(&mut workers[place])?;
    }
    Ok(())
}
