//! A worker is turned for as long as it takes, over any ends.
use crate::turning::turn_once;
use crate::{TurnsOut, Waiting};
use lattice_laws::NoMemory;
use mail_contract::{GossipRx, Rx, Tx};
use std::sync::Wait;
use store_msg::{Batch, Reply, Request};
use worker_core::{Did, WorkerOver};

impl<
    'a,
    T: Tx<Reply>,
    O: Tx<Batch>,
    Q: Rx<Request>,
    G: GossipRx<Batch, From = O>,
    R: Wait,
> TurnsOut<T, O, Q, G> for Waiting<'a, R> {
    fn turn_out(&self, worker: &mut WorkerOver<Q, T, O, G>) -> Result<bool, NoMemory> {
        for _ in self.0.forever() {
            match turn_once(worker)? {
                Did::Idle => return Ok(true),
                Did::Blocked => return Ok(false),
                _ => {}
            }
        }
        unreachable!()
    }
}
