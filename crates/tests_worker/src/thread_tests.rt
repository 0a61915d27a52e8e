//! Two workers over rings, on threads of their own and on one.
ghost use Rattle.std.specs.Prelude.{◌≡◌, ◌≤◌, ◌∷◌, [], map, IfOk};
ghost use Rattle.tests_worker.specs.Mates.{AreMates};
ghost use Rattle.worker_core.specs.State.{IsFixed, KeysStay};

use crate::tests::{put, shared_keys, turns};
use composed_value::{Kind, Payload, Value};
use lattice_laws::{Items, Maybe};
use mail_contract::{GossipRx, Rx, Tx};
use mail_rings::{RingRx, RingTx, rings};
use std::alloc::Global;
use std::test::Fail;
use std::thread::{Threads, join_mut};
use store_msg::{Batch, Reply, Request, WorkerEndsOver};
use worker_core::{Did, WorkerOver};

/// A worker over rings.
type Ringed = WorkerOver<RingRx<Request>, RingTx<Reply>, RingTx<Batch>, RingRx<Batch>>;

/// A session puts the number `max` on a key, by its put of that `number`.
pub(crate) fn ask(
    alloc: Global,
    asks: &mut Vec<RingTx<Request>>,
    key: u16,
    session: u16,
    number: u64,
    max: u64,
) -> Result<(), Fail> {
    let Some(tx) = asks.get_mut(0) else {
        return Err(Fail::new("no sender"));
    };
    let put = put(alloc, session, number, Payload::Max(max));
    if tx.send(Request::Put { key, put }).is_err() {
        return Err(Fail::new("not sent"));
    }
    Ok(())
}

/// A box with one request in it: the first put of a session.
fn asked(alloc: Global, session: u16, max: u64) -> Result<RingRx<Request>, Fail>
    ensures { IfOk result (λ rx. ⟦<RingRx<Request> as Rx<Request>>⟧.received rx ≡ []) }
{
    let (mut asks, requests) = rings(alloc, 1)?;
    ask(alloc, &mut asks, 1, session, 1, max)?;
    Ok(requests)
}

/// Worker `me` of two, with so many keys of kind max. It makes a round after each request.
pub(crate) fn new_ringed(
    alloc: Global,
    me: u16,
    keys: u16,
    requests: RingRx<Request>,
    gossip_out: Vec<RingTx<Batch>>,
    gossip_in: RingRx<Batch>,
) -> Result<Ringed, Fail>
    requires me { (1 ≤ me) × (me ≤ 2) }
    requires keys { keys ≤ 128 }
    requires received { ⟦<RingRx<Request> as Rx<Request>>⟧.received requests ≡ [] }
    requires number { map (⟦<RingTx<Batch> as Tx<Batch>>⟧.number) gossip_out.items ≡ 1 ∷ [] }
    requires told { map (⟦<RingTx<Batch> as Tx<Batch>>⟧.sent) gossip_out.items ≡ [] ∷ [] }
    requires got { ⟦<RingRx<Batch> as Rx<Batch>>⟧.received gossip_in ≡ [] }
    ensures me { IfOk result (λ worker. worker.state.me ≡ me) }
    ensures gossip_out { IfOk result (λ worker. worker.ends.gossip_out ≡ gossip_out) }
    ensures gossip_in { IfOk result (λ worker. worker.ends.gossip_in ≡ gossip_in) }
{
    let placement = shared_keys(alloc, keys)?;
    let kinds = Items::new(vec![in alloc; Kind::Max; keys as usize]?);
    let ends = WorkerEndsOver {
        requests,
        replies: Vec::new(alloc),
        gossip_out,
        gossip_in,
    };
    Ok(WorkerOver::new(me, 1, placement, kinds, ends)?)
}

/// Workers 1 and 2, each with its box of requests, and each the only mate of the other.
fn two_ringed(
    alloc: Global,
    first_requests: RingRx<Request>,
    second_requests: RingRx<Request>,
) -> Result<(Ringed, Ringed), Fail>
    requires first { ⟦<RingRx<Request> as Rx<Request>>⟧.received first_requests ≡ [] }
    requires second { ⟦<RingRx<Request> as Rx<Request>>⟧.received second_requests ≡ [] }
    ensures { IfOk result (λ workers. AreMates
        (⟦<RingTx<Batch> as Tx<Batch>>⟧.key) (⟦<RingTx<Batch> as Tx<Batch>>⟧.number)
        (⟦<RingRx<Batch> as GossipRx<Batch>>⟧.key) workers.0 workers.1) }
{
    let (to_second, of_second) = rings(alloc, 1)?;
    let (to_first, of_first) = rings(alloc, 1)?;
    let first = new_ringed(alloc, 1, 1, first_requests, to_second, of_first)?;
    let second = new_ringed(alloc, 2, 1, second_requests, to_first, of_second)?;
    Ok((first, second))
}

/// Turns a worker until it finds nothing more to do, and tells whether nothing is left to tell.
fn rest<Q: Rx<Request>, T: Tx<Reply>, O: Tx<Batch>, G: GossipRx<Batch, From = O>>(
    worker: &mut WorkerOver<Q, T, O, G>,
) -> bool
    ensures fixed { IsFixed worker.old.state worker.new.state }
    ensures keys { KeysStay Q.key T.key T.number O.key O.number G.key worker.old worker.new }
{
    for _ in 0..16 {
        match worker.turn() {
            Ok(Did::Idle) => return worker.dirty() == 0,
            Ok(Did::Blocked) => return false,
            Ok(_) => {}
            Err(_) => return false,
        }
    }
    false
}

/// Turns each of two mates on a thread of its own. They stay mates.
fn side_by_side<R: Threads + Sync>(rt: &R, first: &mut Ringed, second: &mut Ringed) -> (bool, bool)
    requires { AreMates
        (⟦<RingTx<Batch> as Tx<Batch>>⟧.key) (⟦<RingTx<Batch> as Tx<Batch>>⟧.number)
        (⟦<RingRx<Batch> as GossipRx<Batch>>⟧.key) first.old second.old }
    ensures { AreMates
        (⟦<RingTx<Batch> as Tx<Batch>>⟧.key) (⟦<RingTx<Batch> as Tx<Batch>>⟧.number)
        (⟦<RingRx<Batch> as GossipRx<Batch>>⟧.key) first.new second.new }
{
    let mut rested = (false, false);
    join_mut(
        rt,
        &mut || rested.0 = rest(first),
        &mut || rested.1 = rest(second),
    );
    rested
}

/// Holds two mates beside each other. They stay mates.
fn meet(first: &mut Ringed, second: &mut Ringed)
    requires { AreMates
        (⟦<RingTx<Batch> as Tx<Batch>>⟧.key) (⟦<RingTx<Batch> as Tx<Batch>>⟧.number)
        (⟦<RingRx<Batch> as GossipRx<Batch>>⟧.key) first.old second.old }
    ensures { AreMates
        (⟦<RingTx<Batch> as Tx<Batch>>⟧.key) (⟦<RingTx<Batch> as Tx<Batch>>⟧.number)
        (⟦<RingRx<Batch> as GossipRx<Batch>>⟧.key) first.new second.new }
{
    first.beside_mate(second);
}

/// Holds two mates beside each other, and then turns each, on this thread.
fn beside(first: &mut Ringed, second: &mut Ringed) -> (bool, bool)
    requires { AreMates
        (⟦<RingTx<Batch> as Tx<Batch>>⟧.key) (⟦<RingTx<Batch> as Tx<Batch>>⟧.number)
        (⟦<RingRx<Batch> as GossipRx<Batch>>⟧.key) first.old second.old }
{
    meet(first, second);
    (rest(first), rest(second))
}

/// How many puts of a session a worker counts on key 1.
fn counted(worker: &Ringed, session: u16) -> Option<u64> {
    Some(worker.cell(1)?.clock().count(session))
}

/// How many puts of sessions 1 and 2 a worker counts on key 1, and the greatest number put.
fn shown(worker: &Ringed) -> Option<(u64, u64, Option<u64>)> {
    let max = match worker.cell(1)?.value() {
        Value::Max(Maybe::Is(max)) => Some(max.0),
        _ => None,
    };
    Some((counted(worker, 1)?, counted(worker, 2)?, max))
}

#[test]
fn workers_move_to_other_threads_and_back(rt: HostRuntime) -> Result<(), Fail> {
    let alloc = rt.alloc();
    let mut mates = [two_ringed(alloc, asked(alloc, 1, 5)?, asked(alloc, 2, 7)?)?];
    let (first, second) = &mut mates[0];
    let rested = side_by_side(&rt, first, second);
    assert_eq!(rt; rested, (true, true));
    let own = (counted(first, 1), counted(second, 2));
    assert_eq!(rt; own, (Some(1), Some(1)));
    let rested = beside(first, second);
    assert_eq!(rt; rested, (true, true));
    let both = Some((1, 1, Some(7)));
    assert_eq!(rt; (shown(first), shown(second)), (both, both));
    Ok(())
}

#[test]
fn a_batch_that_finds_no_place_goes_out_later(rt: HostRuntime) -> Result<(), Fail> {
    let alloc = rt.alloc();
    let (mut asks, requests) = rings(alloc, 1)?;
    let (_, no_requests) = rings(alloc, 1)?;
    let mut mates = [two_ringed(alloc, requests, no_requests)?];
    let (first, second) = &mut mates[0];

    // Each of 64 batches finds a place in the ring.
    let want = [(Did::Request, 1), (Did::Round, 0), (Did::Idle, 0)];
    for number in 1..65 {
        ask(alloc, &mut asks, 1, 1, number, number)?;
        let did = turns(alloc, first)?;
        assert_eq!(rt; did.as_slice(), want.as_slice(), "at {number}");
    }

    // The next one comes back, again and again, and holds no request up.
    ask(alloc, &mut asks, 1, 1, 65, 65)?;
    ask(alloc, &mut asks, 1, 1, 66, 66)?;
    let did = turns(alloc, first)?;
    let want = [(Did::Request, 1), (Did::Request, 1), (Did::Blocked, 1)];
    assert_eq!(rt; did.as_slice(), want.as_slice());
    assert_eq!(rt;
        turns(alloc, first)?.as_slice(),
        [(Did::Blocked, 1)].as_slice()
    );
    assert_eq!(rt; shown(first), Some((66, 0, Some(66))));

    // The mate hears the 64 that went out, and then there is a place.
    let heard = turns(alloc, second)?;
    assert_eq!(rt; (heard.len(), heard.last()), (65, Some(&(Did::Idle, 0))));
    assert_eq!(rt; shown(second), Some((64, 0, Some(64))));
    meet(first, second);
    let did = turns(alloc, first)?;
    assert_eq!(rt;
        did.as_slice(),
        [(Did::Round, 0), (Did::Idle, 0)].as_slice()
    );

    // Held beside each other again, the mate hears what went out since.
    meet(first, second);
    let did = turns(alloc, second)?;
    assert_eq!(rt;
        did.as_slice(),
        [(Did::Gossip, 0), (Did::Idle, 0)].as_slice()
    );
    assert_eq!(rt; shown(second), Some((66, 0, Some(66))));
    Ok(())
}
