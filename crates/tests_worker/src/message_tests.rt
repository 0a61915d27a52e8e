//! Messages, how the ends of two parties meet, and which keys a worker has to tell its mates of.
ghost use Rattle.std.specs.Prelude.{◌<◌};

use clock_lattice::{Clock, Needs};
use composed_value::{Cell, Kind, Payload, Put};
use gossip_rounds::Changeset;
use lattice_laws::NoMemory;
use mail_contract::{Message, Tx, plain};
use std::alloc::Global;
use std::test::Fail;
use store_msg::{Answered, Batch, Meets, Reply, Request, SessionEndsOver};

fn clock_of(alloc: Global, session: u16, count: u64) -> Result<Clock, NoMemory> {
    let mut clock = Clock::new(alloc);
    clock.raise(session, count)?;
    Ok(clock)
}

/// The first put of session 1.
fn first_put(alloc: Global) -> Put
    ensures { 0 < result.number }
{
    Put {
        session: 1,
        number: 1,
        lamport: 1,
        place: 0,
        seen: Clock::new(alloc),
        needs: Needs::new(alloc),
        payload: Payload::Max(5),
    }
}

/// The kind of a cell that comes back.
fn kind_back(answer: Result<(), Cell>) -> Option<Kind> {
    match answer {
        Ok(()) => None,
        Err(cell) => Some(cell.kind()),
    }
}

#[test]
fn a_batch_takes_sixteen_entries(rt: HostRuntime) -> Result<(), Fail> {
    let mut batch = Batch::new(rt.alloc())?;
    for key in 1..17 {
        assert!(rt; batch.add(key, Cell::empty(rt.alloc(), Kind::Max)).is_ok());
    }
    let back = kind_back(batch.add(17, Cell::empty(rt.alloc(), Kind::Or)));
    assert_eq!(rt; back, Some(Kind::Or));
    let copy = batch.copy()?;
    assert_eq!(rt; copy.len(), 16);
    assert!(rt; matches!(copy.at(15), Some((16, _))));
    assert!(rt; copy.at(16).is_none());
    Ok(())
}

/// The cell of the first put of session 1, in an array of one: to drop that is one step of a proof, and to drop a cell
/// a case for each kind.
fn first_cell(alloc: Global) -> Result<[Cell; 1], Fail> {
    Ok([Cell::of_put(alloc, &first_put(alloc))?])
}

/// What an ask for a cell of the first put of session 1 is answered: how many of its puts the cell that is
/// found counts, or else those that the clock counts.
fn answered(reply: Reply) -> Result<u64, u64> {
    match reply.into_answered() {
        Answered::Found(cell) => Ok(cell.clock().count(1)),
        Answered::Again(clock) => Err(clock.count(1)),
    }
}

#[test]
fn a_cell_that_does_not_cover_is_asked_for_again(rt: HostRuntime) -> Result<(), Fail> {
    let cell = first_cell(rt.alloc())?;
    let two = clock_of(rt.alloc(), 1, 2)?;
    let reply = [Reply::answer(7, 2, 3, &two, &cell[0])?];
    let again = [reply[0].copy()?];
    assert_eq!(rt;
        (again[0].ask(), again[0].worker(), again[0].key()),
        (7, 2, 3)
    );
    assert_eq!(rt; again[0].required().count(1), 2);
    assert_eq!(rt; answered(again[0].copy()?), Err(1));
    Ok(())
}

#[test]
fn a_cell_that_covers_is_found(rt: HostRuntime) -> Result<(), Fail> {
    let cell = first_cell(rt.alloc())?;
    let one = clock_of(rt.alloc(), 1, 1)?;
    let reply = [Reply::answer(1, 1, 1, &one, &cell[0])?];
    assert_eq!(rt; answered(reply[0].copy()?), Ok(1));
    Ok(())
}

/// What a request says: its key, the number of its put or ask, and how many puts of session 2 it requires.
fn said(request: &Request) -> (u16, u64, Option<u64>) {
    match request {
        Request::Put { key, put } => (*key, put.number, None),
        Request::Get { ask, key, required } => (*key, *ask, Some(required.count(2))),
    }
}

#[test]
fn requests_are_copied(rt: HostRuntime) -> Result<(), Fail> {
    let put = first_put(rt.alloc());
    let put = [Request::Put { key: 4, put }];
    let copy = [put[0].copy()?];
    assert_eq!(rt; said(&copy[0]), (4, 1, None));
    let required = clock_of(rt.alloc(), 2, 3)?;
    let get = [Request::Get {
        ask: 9,
        key: 4,
        required,
    }];
    let copy = [get[0].copy()?];
    assert_eq!(rt; said(&copy[0]), (4, 9, Some(3)));
    Ok(())
}

#[test]
fn a_session_and_a_worker_meet(rt: HostRuntime) -> Result<(), Fail> {
    let (requests, mut asked) = plain(rt.alloc(), 1)?;
    let (mut senders, replies) = plain(rt.alloc(), 1)?;
    let mut ends = SessionEndsOver { requests, replies };
    if let Some(mut sender) = senders.pop() {
        ends.meet(1, &mut asked, &mut sender);
        assert_eq!(rt; sender.sender(), 1);
    }
    assert_eq!(rt; ends.requests.len(), 1);
    Ok(())
}

#[test]
fn a_changeset_keeps_pairs_once_and_in_order(rt: HostRuntime) -> Result<(), Fail> {
    let mut changes = Changeset::new(rt.alloc(), 9, 2)?;
    changes.mark(1, 7);
    changes.mark(1, 3);
    changes.mark(1, 7);
    changes.mark(0, 5);
    assert_eq!(rt; changes.keys(0), [5].as_slice());
    assert_eq!(rt; changes.keys(1), [3, 7].as_slice());
    assert_eq!(rt; changes.len(), 3);
    changes.clear(1, 0, 1);
    assert_eq!(rt; changes.keys(1), [7].as_slice());
    assert_eq!(rt; changes.len(), 2);
    Ok(())
}
