//! A worker is turned until nothing is left to do.
ghost use Rattle.std.specs.Prelude.{◌≡◌, ◌+◌, ◌≤◌, false, IfOk, IsFalse, IsTrue, None, OnOk};
ghost use Rattle.party_turns.specs.OverWorkers as over;
ghost use Rattle.party_turns.specs.Stretch.{OnBatch, OnBlocked, OnIdle, OnRequest};
ghost use Rattle.mail_contract.specs.OverWeakBoxes as weak;
ghost use Rattle.worker_core.specs.OverWorkers as workers;
ghost use Rattle.worker_core.specs.State.{dirty};
ghost use Rattle.worker_core.specs.Turns.{OnNothing};

use crate::{ByMeasure, Repeats};
use lattice_laws::NoMemory;
use mail_contract::{GossipRx, Rx, Tx};
use store_msg::{Batch, Reply, Request};
use worker_core::{Did, WorkerOver};

/// Turns workers.
pub trait TurnsOut<
    T: Tx<Reply>,
    O: Tx<Batch>,
    Q: Rx<Request>,
    G: GossipRx<Batch, From = O>,
>: Repeats {
    /// Turns a worker until it answers Idle or Blocked, and tells whether it was Idle.
    fn turn_out(&self, worker: &mut WorkerOver<Q, T, O, G>) -> Result<bool, NoMemory>
        requires finite { IsFalse Self.waits → IsTrue G.keeps.finite }
        requires known { over.AreKnown Q.Rx worker.old }
        requires met { over.AreMet G.GossipRx worker.old }
        ensures gone_on { over.HasGoneOn Q.Rx T.Tx O.Tx G.GossipRx worker.old worker.new }
        ensures gossip_stand { over.AllStand G.GossipRx worker.old worker.new }
        ensures served { worker.old.state.kept ≡ None
            → OnOk result (over.HasServed Q.Rx T.Tx O.Tx G.GossipRx worker.old worker.new) }

        // What is left to do becomes no more; where no request is left no key becomes changed, and each batch that
        // goes out leaves one less.
        ensures left { over.requests_left Q.Rx worker.new ≤ over.requests_left Q.Rx worker.old }
        ensures owes { over.requests_left Q.Rx worker.old ≡ 0
            → over.Owes O.Tx worker.old worker.new }

        // What is known where it rests; and that it heard a batch of each mate that was due, where one was missing.
        ensures none_kept { OnOk result (worker.new.state.kept ≡ None) }
        ensures no_request { OnOk result (over.NoRequest Q.Rx worker.new) }
        ensures no_gossip { OnOk result (weak.FindsNothing G.GossipRx worker.new.ends.gossip_in) }
        ensures hears { IsTrue G.keeps.advances
            → OnOk result (over.HearsDue G.GossipRx worker.old worker.new) }
        ensures idle { IfOk result (λ idle. IsTrue idle
            → (dirty worker.new.state ≡ 0) × (worker.new.state.held ≡ None)) }
        ensures wants_place { OnOk result (over.HasSentSince T.Tx worker.old worker.new) }

        // Where it was Blocked: a reply is held, or a batch went out, or to some mate the first came back. And so it
        // is only where a sender wanted for a place.
        ensures blocked { IfOk result (λ idle. idle ≡ false
            → over.requests_left Q.Rx worker.old ≡ 0
            → over.LacksRoom O.Tx worker.old worker.new) }
        ensures never_full { over.NeverFull T.Tx → over.NeverFull O.Tx → IfOk result IsTrue };
}

impl<T: Tx<Reply>, O: Tx<Batch>, Q: Rx<Request>, G: GossipRx<Batch, From = O>> TurnsOut<T, O, Q, G>
    for ByMeasure {
    fn turn_out(&self, worker: &mut WorkerOver<Q, T, O, G>) -> Result<bool, NoMemory> {
        loop {
            match turn_on(worker)? {
                Did::Idle => return Ok(true),
                Did::Blocked => return Ok(false),
                _ => {}
            }
        }
    }
}

/// Turns a worker until it works on a request or rests.
fn turn_on<T: Tx<Reply>, O: Tx<Batch>, Q: Rx<Request>, G: GossipRx<Batch, From = O>>(
    worker: &mut WorkerOver<Q, T, O, G>,
) -> Result<Did, NoMemory>
    requires finite { IsTrue G.keeps.finite }
    requires known { over.AreKnown Q.Rx worker.old }
    requires met { over.AreMet G.GossipRx worker.old }
    ensures goes_on { over.GoesOn Q.Rx T.Tx O.Tx G.GossipRx worker.old worker.new }
    ensures served { worker.old.state.kept ≡ None
        → OnOk result (over.HasServed Q.Rx T.Tx O.Tx G.GossipRx worker.old worker.new) }
    ensures stay_clear { OnOk result (workers.StayClear T.Tx worker.old worker.new) }
    ensures fewer_requests { OnRequest result
        (over.left_to_serve Q.Rx worker.new + 1
        ≤ over.left_to_serve Q.Rx worker.old) }
    ensures no_batch { OnBatch result ⊥ }
    ensures room { over.requests_left Q.Rx worker.old ≡ 0
        → over.RoomAfter O.Tx result worker.old worker.new }
    ensures none_kept { OnNothing result (worker.new.state.kept ≡ None) }
    ensures no_request { OnNothing result (over.NoRequest Q.Rx worker.new) }
    ensures no_gossip { OnNothing result (weak.FindsNothing G.GossipRx worker.new.ends.gossip_in) }
    ensures idle { OnIdle result ((dirty worker.new.state ≡ 0) × (worker.new.state.held ≡ None)) }
    ensures wants_place { OnNothing result (over.HasSentSince T.Tx worker.old worker.new) }
    ensures never_full { over.NeverFull T.Tx → over.NeverFull O.Tx → OnBlocked result ⊥ }
{
    loop {
        match turn_once(worker)? {
            Did::Gossip | Did::Round => {}
            did => return Ok(did),
        }
    }
}

/// Turns a worker once.
pub(crate) fn turn_once<T: Tx<Reply>, O: Tx<Batch>, Q: Rx<Request>, G: GossipRx<Batch, From = O>>(
    worker: &mut WorkerOver<Q, T, O, G>,
) -> Result<Did, NoMemory>
    requires known { over.AreKnown Q.Rx worker.old }
    requires met { over.AreMet G.GossipRx worker.old }
    ensures goes_on { over.GoesOn Q.Rx T.Tx O.Tx G.GossipRx worker.old worker.new }
    ensures served { worker.old.state.kept ≡ None
        → OnOk result (over.HasServed Q.Rx T.Tx O.Tx G.GossipRx worker.old worker.new) }
    ensures stay_clear { OnOk result (workers.StayClear T.Tx worker.old worker.new) }
    ensures fewer_requests { OnRequest result
        (over.left_to_serve Q.Rx worker.new + 1
        ≤ over.left_to_serve Q.Rx worker.old) }
    ensures fewer_batches { IsTrue G.keeps.finite → OnBatch result
        (over.batches_left G.GossipRx worker.new + 1
        ≤ over.batches_left G.GossipRx worker.old) }
    ensures room { over.requests_left Q.Rx worker.old ≡ 0
        → over.RoomAfter O.Tx result worker.old worker.new }
    ensures none_kept { OnNothing result (worker.new.state.kept ≡ None) }
    ensures no_request { OnNothing result (over.NoRequest Q.Rx worker.new) }
    ensures no_gossip { OnNothing result (weak.FindsNothing G.GossipRx worker.new.ends.gossip_in) }
    ensures idle { OnIdle result ((dirty worker.new.state ≡ 0) × (worker.new.state.held ≡ None)) }
    ensures wants_place { OnNothing result (workers.WantsPlace T.Tx worker.old worker.new) }
    ensures never_full { over.NeverFull T.Tx → over.NeverFull O.Tx → OnBlocked result ⊥ }
{
    worker.attest();
    let did = worker.turn();
    worker.attest();
    did
}
