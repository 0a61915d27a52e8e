//! What a worker does, turn by turn.
ghost use Rattle.std.specs.Prelude.{◌≡◌, ◌≤◌, length, IfOk, OnOk};
ghost use Rattle.tests_worker.specs.Desks.{IsAtRest, Stays};
ghost use Rattle.worker_core.specs.State.{IsFixed, KeysStay};

use clock_lattice::{Clock, Needs};
use composed_value::{Kind, Payload, Put, Value};
use lattice_laws::{Items, Maybe};
use mail_contract::{GossipRx, Parcel, PlainRx, PlainTx, Rx, Tx, plain};
use placement::{Config, KeyPlace, Name, Placement};
use std::alloc::Global;
use std::test::Fail;
use store_msg::{Answered, Batch, PlainPost, Reply, Request, WorkerEndsOver};
use worker_core::{Did, Worker, WorkerOver};

/// One of two workers, over plain mail. The other ends: those of the sessions, and the box of its mate.
///
/// A test holds its desks in arrays of one: to drop an array is one step of a proof, and to drop a worker a case for
/// each message that it may keep.
#[derive(Drop)]
struct Desk {
    worker: Worker<PlainPost>,
    asks: Vec<PlainTx<Request>>,
    heard: PlainRx<Reply>,
    told: PlainRx<Batch>,
}

/// So many keys, which all live at workers 1 and 2.
pub(crate) fn shared_keys(alloc: Global, keys: u16) -> Result<Placement, Fail>
    requires { keys ≤ 128 }
    ensures { IfOk result (λ placement. length placement ≡ keys) }
{
    let mut places = Vec::new(alloc);
    for _ in 0..keys {
        let name = Name::of(b"k")?;
        let pins = Items::new(vec![in alloc; 1, 2]?);
        places.push(KeyPlace {
            name,
            pins,
            factor: None,
        })?;
    }
    let config = Config {
        workers: 2,
        factor: 1,
        keys: Items::new(places),
    };
    Ok(Placement::build(alloc, &config)?)
}

/// Worker `me` of two, with so many keys of kind max and so many sessions, of which the first `answered` have
/// a sender of replies.
fn new_desk(
    alloc: Global,
    me: u16,
    round: u32,
    keys: u16,
    sessions: u16,
    answered: u16,
) -> Result<Desk, Fail>
    requires me { (1 ≤ me) × (me ≤ 2) }
    requires round { (1 ≤ round) × (round ≤ 64) }
    requires keys { keys ≤ 128 }
    ensures me { IfOk result (λ desk. desk.worker.state.me ≡ me) }
    ensures mates { IfOk result (λ desk. length desk.worker.ends.gossip_out.items ≡ 1) }
    ensures sessions { IfOk result (λ desk. length desk.worker.ends.replies.items ≡ answered) }
    ensures rests { IfOk result (λ desk. IsAtRest desk.worker.state) }
{
    let placement = shared_keys(alloc, keys)?;
    let kinds = Items::new(vec![in alloc; Kind::Max; keys as usize]?);
    let (asks, requests) = plain(alloc, sessions)?;
    let (replies, heard) = plain(alloc, answered)?;
    let (gossip_out, told) = plain(alloc, 1)?;
    let (_, gossip_in) = plain(alloc, 1)?;
    let ends = WorkerEndsOver {
        requests,
        replies,
        gossip_out,
        gossip_in,
    };
    let worker = WorkerOver::new(me, round, placement, kinds, ends)?;
    Ok(Desk {
        worker,
        asks,
        heard,
        told,
    })
}

/// A session's put.
pub(crate) fn put(alloc: Global, session: u16, number: u64, payload: Payload) -> Put {
    Put {
        session,
        number,
        lamport: number,
        place: 0,
        seen: Clock::new(alloc),
        needs: Needs::new(alloc),
        payload,
    }
}

/// A session puts a number on a key.
fn put_max(alloc: Global, key: u16, number: u64, max: u64) -> Request {
    Request::Put {
        key,
        put: put(alloc, 1, number, Payload::Max(max)),
    }
}

/// A session switches a key on.
fn put_on(alloc: Global, key: u16, number: u64) -> Request {
    Request::Put {
        key,
        put: put(alloc, 1, number, Payload::On),
    }
}

/// A session asks for a key, and requires nothing.
fn get(alloc: Global, key: u16) -> Request {
    Request::Get {
        ask: 1,
        key,
        required: Clock::new(alloc),
    }
}

/// A session sends a request, which is carried to the worker.
fn ask(desk: &mut Desk, session: usize, request: Request) -> Result<(), Fail>
    ensures { Stays desk.old.worker desk.new.worker }
{
    let Some(tx) = desk.asks.get_mut(session.saturating_sub(1)) else {
        return Err(Fail::new("no such session"));
    };
    if tx.send(request).is_err() {
        return Err(Fail::new("not sent"));
    }
    let parcel = tx.parcel();
    if desk.worker.deliver_requests(parcel).is_err() {
        return Err(Fail::new("not delivered"));
    }
    Ok(())
}

/// What a worker does in each turn until it finds nothing more to do, and how much is left to tell after
/// each.
pub(crate) fn turns<Q: Rx<Request>, T: Tx<Reply>, O: Tx<Batch>, G: GossipRx<Batch, From = O>>(
    alloc: Global,
    worker: &mut WorkerOver<Q, T, O, G>,
) -> Result<Vec<(Did, usize)>, Fail>
    ensures stays { Stays worker.old worker.new }
    ensures fixed { IsFixed worker.old.state worker.new.state }
    ensures keys { KeysStay Q.key T.key T.number O.key O.number G.key worker.old worker.new }
{
    let mut all = Vec::new(alloc);
    for _ in 0..128 {
        let did = worker.turn()?;
        all.push((did, worker.dirty()))?;
        if matches!(did, Did::Idle | Did::Blocked) {
            break;
        }
    }
    Ok(all)
}

/// How many puts of session 1 a worker counts on a key, and the greatest number put.
fn shown(worker: &Worker<PlainPost>, key: u16) -> Option<(u64, Option<u64>)> {
    let cell = worker.cell(key)?;
    match cell.value() {
        Value::Max(Maybe::Is(max)) => Some((cell.clock().count(1), Some(max.0))),
        _ => Some((cell.clock().count(1), None)),
    }
}

/// What worker 1 told worker 2 since it was last asked.
fn told(worker: &mut Worker<PlainPost>) -> Parcel<Batch>
    requires me { worker.old.state.me ≡ 1 }
    requires mates { length worker.old.ends.gossip_out.items ≡ 1 }
{
    worker.gossip_parcel(2)
}

/// Worker 1 takes a put, and its gossip comes to worker 2: what worker 1 did.
fn tell(alloc: Global, first: &mut Desk, second: &mut Desk) -> Result<Vec<(Did, usize)>, Fail>
    requires me { first.old.worker.state.me ≡ 1 }
    requires mates { length first.old.worker.ends.gossip_out.items ≡ 1 }
    ensures { second.new.worker.state ≡ second.old.worker.state }
{
    ask(first, 1, put_max(alloc, 1, 1, 5))?;
    let did = turns(alloc, &mut first.worker)?;
    let parcel = told(&mut first.worker);
    if second.worker.deliver_gossip(parcel).is_err() {
        return Err(Fail::new("not delivered"));
    }
    Ok(did)
}

/// What worker 1 did with a put, and then worker 2 with the gossip of it.
fn first_tells(
    alloc: Global,
    first: &mut Desk,
    second: &mut Desk,
) -> Result<(Vec<(Did, usize)>, Vec<(Did, usize)>), Fail>
    requires me { first.old.worker.state.me ≡ 1 }
    requires mates { length first.old.worker.ends.gossip_out.items ≡ 1 }
{
    let did = tell(alloc, first, second)?;
    Ok((did, turns(alloc, &mut second.worker)?))
}

#[test]
fn a_turn_works_on_one_thing(rt: HostRuntime) -> Result<(), Fail> {
    let alloc = rt.alloc();
    let mut first = [new_desk(alloc, 1, 4, 1, 1, 1)?];
    let mut second = [new_desk(alloc, 2, 4, 1, 1, 1)?];
    let (did, heard) = first_tells(alloc, &mut first[0], &mut second[0])?;
    let want = [(Did::Request, 1), (Did::Round, 0), (Did::Idle, 0)];
    assert_eq!(rt; did.as_slice(), want.as_slice());
    let want = [(Did::Gossip, 0), (Did::Idle, 0)];
    assert_eq!(rt; heard.as_slice(), want.as_slice());
    assert_eq!(rt; shown(&second[0].worker, 1), Some((1, Some(5))));
    Ok(())
}

/// A turn, taken again where memory was wanting.
fn turn_at_last(worker: &mut Worker<PlainPost>) -> Result<Did, Fail> {
    for _ in 0..8 {
        if let Ok(did) = worker.turn() {
            return Ok(did);
        }
    }
    Err(Fail::new("no memory"))
}

#[test]
fn a_put_that_met_want_of_memory_counts_once(rt: HostRuntime) -> Result<(), Fail> {
    let alloc = rt.alloc();
    let mut first = [new_desk(alloc, 1, 4, 1, 1, 1)?];
    ask(&mut first[0], 1, put_max(alloc, 1, 1, 5))?;
    assert_eq!(rt; turn_at_last(&mut first[0].worker)?, Did::Request);
    assert_eq!(rt; shown(&first[0].worker, 1), Some((1, Some(5))));
    Ok(())
}

/// What a worker hears once it is sealed, twice, and how many puts of session 1 it counts on key 1 then.
fn seal_and_hear(desk: Desk) -> Result<(bool, bool, Option<u64>), Fail>
    requires { IsAtRest desk.worker.state }
{
    let mut sealed = [desk.worker.seal().0];
    let first = sealed[0].hear()?;
    let second = sealed[0].hear()?;
    Ok((
        first,
        second,
        sealed[0].cell(1).map(|cell| cell.clock().count(1)),
    ))
}

#[test]
fn a_sealed_worker_hears_what_it_was_told(rt: HostRuntime) -> Result<(), Fail> {
    let alloc = rt.alloc();
    let mut first = [new_desk(alloc, 1, 4, 1, 1, 1)?];
    let mut second = new_desk(alloc, 2, 4, 1, 1, 1)?;
    tell(alloc, &mut first[0], &mut second)?;
    assert_eq!(rt; seal_and_hear(second)?, (true, false, Some(1)));
    Ok(())
}

/// The keys of the batches that were told, each with the place of its batch.
fn told_keys(alloc: Global, desk: &mut Desk) -> Result<Vec<(usize, u16)>, Fail>
    requires me { desk.old.worker.state.me ≡ 1 }
    requires mates { length desk.old.worker.ends.gossip_out.items ≡ 1 }
{
    let parcel = told(&mut desk.worker);
    if desk.told.deliver(parcel).is_err() {
        return Err(Fail::new("not delivered"));
    }
    let mut keys = Vec::new(alloc);
    for place in 0..16 {
        match Rx::take(&mut desk.told)? {
            Some((_, batch)) => {
                for entry in batch.as_slice() {
                    keys.push((place, entry.0))?;
                }
            }
            None => break,
        }
    }
    Ok(keys)
}

/// Three puts and a get, and what the worker did.
fn four_asks(alloc: Global, first: &mut Desk) -> Result<Vec<(Did, usize)>, Fail>
    ensures { OnOk result (Stays first.old.worker first.new.worker) }
{
    ask(first, 1, put_max(alloc, 1, 1, 5))?;
    ask(first, 1, put_max(alloc, 2, 1, 6))?;
    ask(first, 1, put_max(alloc, 1, 2, 7))?;
    ask(first, 1, get(alloc, 1))?;
    turns(alloc, &mut first.worker)
}

#[test]
fn a_round_tells_the_changed_keys_alone(rt: HostRuntime) -> Result<(), Fail> {
    let alloc = rt.alloc();
    let mut first = [new_desk(alloc, 1, 2, 2, 1, 1)?];
    let did = four_asks(alloc, &mut first[0])?;
    let want = [
        (Did::Request, 1),
        (Did::Request, 2),
        (Did::Round, 0),
        (Did::Request, 1),
        (Did::Request, 1),
        (Did::Round, 0),
        (Did::Idle, 0),
    ];
    assert_eq!(rt; did.as_slice(), want.as_slice());
    let keys = told_keys(alloc, &mut first[0])?;
    assert_eq!(rt; keys.as_slice(), [(0, 1), (0, 2), (1, 1)].as_slice());
    Ok(())
}

/// How many entries the clock of the cell has that each reply to session 1 shows.
fn answers(alloc: Global, desk: &mut Desk) -> Result<Vec<usize>, Fail>
    requires { 1 ≤ length desk.old.worker.ends.replies.items }
{
    let parcel = desk.worker.reply_parcel(1);
    if desk.heard.deliver(parcel).is_err() {
        return Err(Fail::new("not delivered"));
    }
    let mut all = Vec::new(alloc);
    for _ in 0..16 {
        match Rx::take(&mut desk.heard)? {
            Some((_, reply)) => match reply.into_answered() {
                Answered::Found(cell) => all.push(cell.clock().len())?,
                Answered::Again(_) => return Err(Fail::new("nothing was required")),
            },
            None => break,
        }
    }
    Ok(all)
}

/// Puts without a number, on a key that is not held and of another kind.
fn three_idle_puts(alloc: Global, first: &mut Desk) -> Result<(), Fail>
    ensures { OnOk result (Stays first.old.worker first.new.worker) }
{
    ask(first, 1, put_max(alloc, 1, 0, 5))?;
    ask(first, 1, put_max(alloc, 2, 1, 5))?;
    ask(first, 1, put_on(alloc, 1, 1))
}

/// These puts, and a get by a session that has no sender of replies; and what the worker did.
fn four_idle_asks(alloc: Global, first: &mut Desk) -> Result<Vec<(Did, usize)>, Fail>
    ensures { OnOk result (Stays first.old.worker first.new.worker) }
{
    three_idle_puts(alloc, first)?;
    ask(first, 2, get(alloc, 1))?;
    turns(alloc, &mut first.worker)
}

/// A get of a key that is not held: what the worker did, and what it replied to session 1 so far.
fn ask_for_none(alloc: Global, first: &mut Desk) -> Result<(Vec<(Did, usize)>, Vec<usize>), Fail>
    requires { 1 ≤ length first.old.worker.ends.replies.items }
{
    ask(first, 1, get(alloc, 2))?;
    let did = turns(alloc, &mut first.worker)?;
    Ok((did, answers(alloc, first)?))
}

#[test]
fn what_no_session_asks_changes_nothing(rt: HostRuntime) -> Result<(), Fail> {
    let alloc = rt.alloc();
    let mut first = [new_desk(alloc, 1, 2, 1, 2, 1)?];
    let did = four_idle_asks(alloc, &mut first[0])?;
    let want = [
        (Did::Request, 0),
        (Did::Request, 0),
        (Did::Request, 0),
        (Did::Request, 0),
        (Did::Idle, 0),
    ];
    assert_eq!(rt; did.as_slice(), want.as_slice());
    assert_eq!(rt; shown(&first[0].worker, 1), Some((0, None)));
    assert_eq!(rt; shown(&first[0].worker, 2), None);
    let (did, replied) = ask_for_none(alloc, &mut first[0])?;
    let want = [(Did::Request, 0), (Did::Idle, 0)];
    assert_eq!(rt; did.as_slice(), want.as_slice());
    assert_eq!(rt; replied.as_slice(), [0].as_slice());
    Ok(())
}

/// Each of 16 sessions puts 100 numbers on 128 keys in turn.
fn ask_many(alloc: Global, desk: &mut Desk, from: u64) -> Result<(), Fail>
    requires { from ≤ 2000 }
{
    for session in 1..17 {
        for i in from..from + 100 {
            let key = (i % 128) as u16 + 1;
            let put = put(alloc, session, i / 128 + 1, Payload::Max(i % 17));
            ask(desk, session as usize, Request::Put { key, put })?;
        }
    }
    Ok(())
}

/// How many turns, of so many at most, work on a request until the worker is idle.
fn count_requests(worker: &mut Worker<PlainPost>, most: u32) -> Result<u32, Fail> {
    let mut requests: u32 = 0;
    for _ in 0..most {
        match worker.turn()? {
            Did::Request => requests = requests.saturating_add(1),
            Did::Idle => break,
            _ => {}
        }
    }
    Ok(requests)
}

/// How many turns work on a request where 16 sessions put 2,000 numbers each.
fn fill(alloc: Global, desk: &mut Desk) -> Result<u32, Fail> {
    let mut requests: u32 = 0;
    for portion in 0..20 {
        ask_many(alloc, desk, portion * 100)?;
        let more = count_requests(&mut desk.worker, 2_000)?;
        requests = requests.saturating_add(more);
    }
    Ok(requests)
}

#[test]
fn turns_do_not_slow_as_a_worker_fills(rt: HostRuntime) -> Result<(), Fail> {
    let alloc = rt.alloc();
    let mut first = [new_desk(alloc, 1, 64, 128, 16, 16)?];
    let requests = fill(alloc, &mut first[0])?;
    assert_eq!(rt; requests, 32_000);
    Ok(())
}
