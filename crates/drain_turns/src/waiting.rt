//! Workers are turned for as long as it takes, over any ends.
use crate::TurnsAll;
use crate::passes::pass;
use lattice_laws::NoMemory;
use mail_contract::{GossipRx, Rx, Tx};
use party_turns::Waiting;
use std::sync::Wait;
use store_msg::{Batch, Reply, Request};
use worker_core::WorkerOver;

impl<
    'a,
    T: Tx<Reply>,
    O: Tx<Batch>,
    Q: Rx<Request>,
    G: GossipRx<Batch, From = O>,
    R: Wait,
> TurnsAll<T, O, Q, G> for Waiting<'a, R> {
    fn turn_passes(&self, workers: &mut [WorkerOver<Q, T, O, G>]) -> Result<(), NoMemory> {
        for _ in self.0.forever() {
            if pass(self, workers)? {
                return Ok(());
            }
        }
        unreachable!()
    }
}
