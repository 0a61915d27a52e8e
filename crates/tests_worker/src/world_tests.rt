//! Runs of the protocol, and what they end in.
ghost use Rattle.std.specs.Prelude.{◌≡◌, ◌+◌, ◌<◌, ◌≤◌, ◌^◌, [], length, IfOk, OnOk};

use crate::tests::shared_keys;
use clock_lattice::{Clock, Needs};
use composed_value::{Cell, Kind, Payload, Put, Value};
use lattice_laws::{Items, Maybe};
use merge_world::{Event, Took, World, run_world};
use std::alloc::Global;
use std::test::Fail;

/// Workers 1 and 2, which share 17 keys of kind max.
fn seventeen_keys(alloc: Global) -> Result<World, Fail>
    ensures { IfOk result (λ world. world.pool ≡ []) }
{
    let kinds = Items::new(vec![in alloc; Kind::Max; 17]?);
    Ok(World::new(alloc, shared_keys(alloc, 17)?, kinds)?)
}

/// And one key.
fn one_key(alloc: Global) -> Result<World, Fail>
    ensures { IfOk result (λ world. world.pool ≡ []) }
{
    let kinds = Items::new(vec![in alloc; Kind::Max]?);
    Ok(World::new(alloc, shared_keys(alloc, 1)?, kinds)?)
}

/// A session's put of a number on key 1.
fn put(alloc: Global, worker: u16, session: u16, number: u64, max: u64) -> Event {
    Event::Put {
        worker,
        key: 1,
        put: Put {
            session,
            number,
            lamport: number,
            place: 0,
            seen: Clock::new(alloc),
            needs: Needs::new(alloc),
            payload: Payload::Max(max),
        },
    }
}

/// Gossip of key 1.
fn send(alloc: Global, worker: u16, mate: u16) -> Result<Event, Fail> {
    let keys = Items::new(vec![in alloc; 1]?);
    Ok(Event::Send { worker, mate, keys })
}

/// A message comes to worker 2.
fn heard(message: u32) -> Event {
    Event::Deliver { worker: 2, message }
}

/// What happens to key 1, which worker 2 hears of.
#[derive(Clone, Copy)]
enum Happening {
    /// Session 1 puts a number at worker 1: its put of this number.
    Put(u64, u64),
    /// Worker 1 tells worker 2.
    Tell,
    /// A message comes to worker 2.
    Hear(u32),
}

/// The event of what happens.
fn event_of(alloc: Global, what: Happening) -> Result<Event, Fail> {
    match what {
        Happening::Put(number, max) => Ok(put(alloc, 1, 1, number, max)),
        Happening::Tell => send(alloc, 1, 2),
        Happening::Hear(message) => Ok(heard(message)),
    }
}

/// An event of a world with few messages.
fn happens(world: &mut World, event: Event) -> Result<Took, Fail>
    requires { length world.old.pool < 2 ^ 32 }
    ensures { OnOk result (length world.new.pool ≤ length world.old.pool + 1) }
{
    Ok(world.step(&event)?)
}

/// What becomes of gossip of these keys.
fn told(
    alloc: Global,
    world: &mut World,
    worker: u16,
    mate: u16,
    keys: &[u16],
) -> Result<Took, Fail>
    requires { length world.old.pool < 2 ^ 32 }
    ensures { OnOk result (length world.new.pool ≤ length world.old.pool + 1) }
{
    let keys = Items::new(keys.to_vec(alloc)?);
    happens(world, Event::Send { worker, mate, keys })
}

/// How many puts of a session a replica of key 1 counts, and the greatest number put.
fn shown(world: &World, worker: u16, session: u16) -> Option<(u64, u64)> {
    let cell = world.replica(worker, 1)?;
    match cell.value() {
        Value::Max(Maybe::Is(max)) => Some((cell.clock().count(session), max.0)),
        _ => None,
    }
}

#[test]
fn gossip_comes_late_and_again(rt: HostRuntime) -> Result<(), Fail> {
    let alloc = rt.alloc();
    let mut world = one_key(alloc)?;
    assert!(rt; world.settled());
    // What happens, what it comes to, what worker 2 shows then, and whether all is heard.
    for (what, took, seen, settled) in [
        (Happening::Put(1, 5), Took::Done, None, false),
        (Happening::Tell, Took::Done, None, false),
        (Happening::Put(2, 3), Took::Done, None, false),
        (Happening::Hear(0), Took::Done, Some((1, 5)), false),
        (Happening::Hear(0), Took::Done, Some((1, 5)), false),
        (Happening::Tell, Took::Done, Some((1, 5)), false),
        (Happening::Hear(1), Took::Done, Some((2, 5)), true),
        (Happening::Hear(0), Took::Done, Some((2, 5)), true),
        (Happening::Hear(7), Took::Strange, Some((2, 5)), true),
    ] {
        assert_eq!(rt; happens(&mut world, event_of(alloc, what)?)?, took);
        assert_eq!(rt; shown(&world, 2, 1), seen);
        assert_eq!(rt; world.settled(), settled);
    }
    Ok(())
}

#[test]
fn a_message_tells_of_one_to_sixteen_ascending_keys(rt: HostRuntime) -> Result<(), Fail> {
    let alloc = rt.alloc();
    let mut world = seventeen_keys(alloc)?;
    let keys = [1, 2, 3, 4, 5, 6, 7, 8, 9, 10, 11, 12, 13, 14, 15, 16, 17];
    assert_eq!(rt; happens(&mut world, put(alloc, 1, 1, 1, 5))?, Took::Done);
    // The worker, the mate and the keys of gossip that is none: no message is sent, and worker 2 hears nothing.
    let strange: [(u16, u16, &[u16]); 7] = [
        (1, 2, &keys),
        (1, 2, &[]),
        (1, 2, &[2, 1]),
        (1, 2, &[1, 1]),
        (1, 2, &[1, 18]),
        (1, 1, &[1]),
        (1, 3, &[1]),
    ];
    for (worker, mate, keys) in strange {
        assert_eq!(rt; told(alloc, &mut world, worker, mate, keys)?, Took::Strange);
    }
    assert_eq!(rt; happens(&mut world, heard(0))?, Took::Strange);
    assert_eq!(rt; shown(&world, 2, 1), None);
    assert_eq!(rt; told(alloc, &mut world, 1, 2, &keys[..16])?, Took::Done);
    assert_eq!(rt; happens(&mut world, heard(0))?, Took::Done);
    assert_eq!(rt; shown(&world, 2, 1), Some((1, 5)));
    Ok(())
}

// Sessions 1 to 4 put in turn, each at its home: the odd ones at worker 1. Each round both workers tell
// each other, and each third message comes only at the end, when all come once more, the last first.
fn rounds(alloc: Global) -> Result<Items<Event>, Fail> {
    let mut events = Vec::new(alloc);
    let mut messages = 0;
    for round in 1..=50 {
        for session in 1..=4 {
            let worker = 2 - session % 2;
            let max = round * u64::from(session) % 17;
            events.push(put(alloc, worker, session, round, max))?;
        }
        for worker in 1..=2 {
            events.push(send(alloc, worker, 3 - worker)?)?;
            if messages % 3 > 0 {
                let message = messages;
                let worker = 3 - worker;
                events.push(Event::Deliver { worker, message })?;
            }
            messages = messages.saturating_add(1);
        }
    }
    for i in 0..messages {
        let message = messages - 1 - i;
        let worker = 2 - (message % 2) as u16;
        events.push(Event::Deliver { worker, message })?;
    }
    Ok(Items::new(events))
}

fn are_like(a: &Cell, b: &Cell) -> bool {
    a.clock() == b.clock() && a.top() == b.top()
}

#[test]
fn replicas_are_equal_once_all_is_heard(rt: HostRuntime) -> Result<(), Fail> {
    let alloc = rt.alloc();
    let kinds = Items::new(vec![in alloc; Kind::Max]?);
    let events = rounds(alloc)?;
    assert!(rt; events.as_slice().len() < 1000);
    let world = run_world(alloc, shared_keys(alloc, 1)?, kinds, events.as_slice())?;
    assert!(rt; world.settled());
    let (Some(first), Some(second)) = (world.replica(1, 1), world.replica(2, 1)) else {
        return Err(Fail::new("no replica"));
    };
    assert!(rt; are_like(first, second));
    assert_eq!(rt; first.top(), 50);
    for session in 1..=4 {
        assert_eq!(rt; shown(&world, 1, session), Some((50, 16)));
        assert_eq!(rt; shown(&world, 2, session), Some((50, 16)));
    }
    Ok(())
}
