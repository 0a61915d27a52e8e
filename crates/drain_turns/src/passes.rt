//! The workers take their turns, one after another, until nothing is left to do.
ghost use Rattle.std.specs.Prelude.{◌≡◌, ◌≢◌, ◌⊎◌, ◌<◌, false, length, IfOk, IsFalse, IsTrue, OnOk};
ghost use Rattle.drain_turns.specs.OverWorkers as over;
ghost use Rattle.drain_turns.specs.Ready.{FreesPlaces};
ghost use Rattle.party_turns.specs.OverWorkers as turned;
ghost use Rattle.party_turns.specs.Places.{AtEach, AtPlace, OthersSame};

use lattice_laws::NoMemory;
use mail_contract::{GossipRx, Rx, Tx};
use party_turns::{ByMeasure, TurnsOut, show_pair};
use store_msg::{Batch, Reply, Request};
use worker_core::WorkerOver;

/// Turns the workers in passes until each was Idle in one. In each pass every worker, ascending, is held
/// beside each of its mates and then turned until it answers Idle or Blocked.
pub fn turn_all<
    T: Tx<Reply>,
    O: Tx<Batch>,
    Q: Rx<Request>,
    G: GossipRx<Batch, From = O>,
    P: TurnsAll<T, O, Q, G>,
>(by: &P, workers: &mut Vec<WorkerOver<Q, T, O, G>>) -> Result<(), NoMemory>
    requires finite { IsFalse P.waits → IsTrue G.keeps.finite }
    requires ready { over.AreReady Q.Rx O.Tx G.GossipRx workers.old.items }
    requires room { IsFalse P.waits → over.NeverFull T.Tx O.Tx
        ⊎ over.FindPlaces Q.Rx T.Tx G.GossipRx workers.old.items }
    ensures gone_on { over.HaveGoneOn Q.Rx T.Tx O.Tx G.GossipRx
        workers.old.items workers.new.items }
    ensures done { OnOk result (AtEach workers.new.items (over.IsDone Q.Rx)) }
{
    by.turn_passes(workers)
}

/// Turns all workers.
pub trait TurnsAll<
    T: Tx<Reply>,
    O: Tx<Batch>,
    Q: Rx<Request>,
    G: GossipRx<Batch, From = O>,
>: TurnsOut<T, O, Q, G> {
    /// Turns the workers in passes until each was Idle in one.
    fn turn_passes(&self, workers: &mut [WorkerOver<Q, T, O, G>]) -> Result<(), NoMemory>
        requires finite { IsFalse Self.waits → IsTrue G.keeps.finite }
        requires ready { over.AreReady Q.Rx O.Tx G.GossipRx workers.old }
        requires room { IsFalse Self.waits → over.NeverFull T.Tx O.Tx
            ⊎ over.FindPlaces Q.Rx T.Tx G.GossipRx workers.old }
        ensures gone_on { over.HaveGoneOn Q.Rx T.Tx O.Tx G.GossipRx workers.old workers.new }
        ensures done { OnOk result (AtEach workers.new (over.IsDone Q.Rx)) };
}

impl<T: Tx<Reply>, O: Tx<Batch>, Q: Rx<Request>, G: GossipRx<Batch, From = O>> TurnsAll<T, O, Q, G>
    for ByMeasure {
    fn turn_passes(&self, workers: &mut [WorkerOver<Q, T, O, G>]) -> Result<(), NoMemory> {
        let mut idle = pass(self, workers)?;
        while !idle {
            idle = pass(self, workers)?;
        }
        Ok(())
    }
}

/// Holds each worker, ascending, beside its mates and turns it. Tells whether each was Idle.
pub(crate) fn pass<
    T: Tx<Reply>,
    O: Tx<Batch>,
    Q: Rx<Request>,
    G: GossipRx<Batch, From = O>,
    P: TurnsOut<T, O, Q, G>,
>(by: &P, workers: &mut [WorkerOver<Q, T, O, G>]) -> Result<bool, NoMemory>
    requires finite { IsFalse P.waits → IsTrue G.keeps.finite }
    requires ready { over.AreReady Q.Rx O.Tx G.GossipRx workers.old }
    ensures gone_on { over.HaveGoneOn Q.Rx T.Tx O.Tx G.GossipRx workers.old workers.new }
    ensures done { IfOk result (λ idle. IsTrue idle → AtEach workers.new (over.IsDone Q.Rx)) }
    ensures rests { over.FindPlaces Q.Rx T.Tx G.GossipRx workers.old
        → OnOk result (over.HaveNoneLeft Q.Rx O.Tx G.GossipRx workers.new) }
    ensures fell { over.FindPlaces Q.Rx T.Tx G.GossipRx workers.old
        → over.HaveNoneLeft Q.Rx O.Tx G.GossipRx workers.old
        → over.LeavesLess O.Tx G.GossipRx result workers.old workers.new }
    ensures never_full { over.NeverFull T.Tx O.Tx → IfOk result IsTrue }
{
    let mut idle = true;
    for place in 0..workers.len() {
        let its_idle = turn_at(by, workers, place)?;
        idle = idle && its_idle;
    }
    Ok(idle)
}

/// Holds the worker at a place beside each of its mates and turns it until it answers Idle or Blocked. Tells
/// whether it was Idle.
fn turn_at<
    T: Tx<Reply>,
    O: Tx<Batch>,
    Q: Rx<Request>,
    G: GossipRx<Batch, From = O>,
    P: TurnsOut<T, O, Q, G>,
>(by: &P, workers: &mut [WorkerOver<Q, T, O, G>], place: usize) -> Result<bool, NoMemory>
    requires finite { IsFalse P.waits → IsTrue G.keeps.finite }
    requires within { place < length workers.old }
    requires ready { over.AreReady Q.Rx O.Tx G.GossipRx workers.old }
    ensures gone_on { over.HaveGoneOn Q.Rx T.Tx O.Tx G.GossipRx workers.old workers.new }
    ensures others { OthersSame place
        (turned.steadies O.Tx G.GossipRx workers.old) (turned.steadies O.Tx G.GossipRx workers.new) }
    ensures owes { over.OwesAt Q.Rx O.Tx G.GossipRx place workers.old workers.new }
    ensures idle { IfOk result
        (λ idle. IsTrue idle → AtPlace workers.new place (over.IsDone Q.Rx)) }
    ensures rests { over.FindPlaces Q.Rx T.Tx G.GossipRx workers.old
        → OnOk result (over.HasNoneLeftAt Q.Rx O.Tx G.GossipRx place workers.new) }
    ensures hears { FreesPlaces G.keeps
        → OnOk result (over.HearsEach O.Tx G.GossipRx place workers.old workers.new) }
    ensures busy { over.FindPlaces Q.Rx T.Tx G.GossipRx workers.old
        → IfOk result (λ idle. idle ≡ false → over.IsBusyAt Q.Rx O.Tx G.GossipRx place workers.old workers.new) }
    ensures never_full { over.NeverFull T.Tx O.Tx → IfOk result IsTrue }
{
    show_to_all(workers, place);
    let worker = &mut workers[place];
    let idle = by.turn_out(worker)?;
    worker.attest();
    Ok(idle)
}

/// Holds the worker at a place beside each of its mates.
fn show_to_all<T: Tx<Reply>, O: Tx<Batch>, Q: Rx<Request>, G: GossipRx<Batch, From = O>>(
    workers: &mut [WorkerOver<Q, T, O, G>],
    place: usize,
)
    requires within { place < length workers.old }
    requires ready { over.AreReady Q.Rx O.Tx G.GossipRx workers.old }
    ensures gone_on { over.HaveGoneOn Q.Rx T.Tx O.Tx G.GossipRx workers.old workers.new }
    ensures steady { over.StaySteady O.Tx G.GossipRx workers.old workers.new }
    ensures knows { over.KnowsEach O.Tx G.GossipRx place workers.new }
{
    for other in 0..workers.len() {
        if other != place {
            show_pair(workers, place, other);
        }
    }
}
