//! What a session does, step by step.
ghost use Rattle.std.specs.Prelude.{◌≡◌, ◌≤◌, All, IfOk, List, [], ℕ, false, length};
ghost use Rattle.session_known.specs.Script.{AreEnded};
ghost use Rattle.session_proxy.specs.Lines.{AreReplicas, MayRun};

use clock_lattice::{Clock, Needs};
use composed_value::{Cell, Kind, Payload, Put};
use lattice_laws::Items;
use mail_contract::{PlainRx, PlainTx, Rx, Tx, plain};
use placement::{Config, KeyPlace, Name, Placement};
use session_causal::CausalLevel;
use session_known::{Answer, Line};
use session_plain::{CommittedLevel, EventualLevel};
use session_proxy::{Consistency, Progress, ProxyOver};
use std::alloc::Global;
use std::marker::Model;
use std::test::Fail;
use store_msg::{Reply, Request, SessionEndsOver};

/// A get of a key.
macro_rules! get {
    ($key:literal) => {
        Line::Get {
            key: $key,
            worker: None,
        }
    };
}

/// The number 5 is put to a key.
macro_rules! put_five {
    ($key:literal) => {
        Line::Put {
            key: $key,
            payload: Payload::Max(5),
        }
    };
}

/// Session 1, of a level, and the ends of its two workers.
///
/// A test holds its desk in an array of one: to drop an array is one step of a proof, and to drop a session a case for
/// each message that it may keep.
#[derive(Drop)]
struct Desk<C: Consistency> {
    proxy: ProxyOver<C, PlainTx<Request>, PlainRx<Reply>>,
    requests: Vec<PlainRx<Request>>,
    replies: Vec<PlainTx<Reply>>,
}

impl<C: Consistency> Model for Desk<C> {
    ghost use Rattle.std.specs.Prelude.{◌≡◌, length, ⊤};

    ghost Value = { ⊤ };

    ghost view = { λ desk. tt };

    ghost invariant = { λ desk. length desk.proxy.ends.requests.items ≡ 2 };
}

/// Key 1, which lives at workers 1 and 2, and key 2, which lives at worker 1.
fn two_keys(alloc: Global) -> Result<Placement, Fail>
    ensures keys { IfOk result (λ placement. length placement ≡ 2) }
    ensures replicas { IfOk result (All (AreReplicas 2)) }
{
    let both = KeyPlace {
        name: Name::of(b"a")?,
        pins: Items::new(vec![in alloc; 1, 2]?),
        factor: None,
    };
    let one = KeyPlace {
        name: Name::of(b"b")?,
        pins: Items::new(vec![in alloc; 1]?),
        factor: None,
    };
    let config = Config {
        workers: 2,
        factor: 1,
        keys: Items::new(vec![in alloc; both, one]?),
    };
    Ok(Placement::build(alloc, &config)?)
}

/// A sender of requests to each of two workers, and their boxes.
fn two_workers(alloc: Global) -> Result<(Vec<PlainTx<Request>>, Vec<PlainRx<Request>>), Fail>
    ensures two { IfOk result (λ ends. length ends.0.items ≡ 2) }
    ensures unused { IfOk result (λ ends. All (λ sender. sender.history.items ≡ []) ends.0.items) }
{
    let (mut senders, first) = plain(alloc, 1)?;
    let (mut more, second) = plain(alloc, 1)?;
    senders.append(&mut more)?;
    Ok((senders, vec![in alloc; first, second]?))
}

/// The session with these lines.
fn new_desk<C: Consistency>(alloc: Global, lines: Items<Line>) -> Result<Desk<C>, Fail>
    requires few { length lines ≤ 4096 }
    requires lines { (table : List (List ℕ)) → length table ≡ 2 → All (MayRun table C.level) lines }
    requires ended { AreEnded false lines }
{
    let placement = two_keys(alloc)?;
    let (senders, requests) = two_workers(alloc)?;
    let (replies, heard) = plain(alloc, 2)?;
    let ends = SessionEndsOver {
        requests: senders,
        replies: heard,
    };
    let proxy = ProxyOver::new(1, lines, placement, ends)?;
    Ok(Desk {
        proxy,
        requests,
        replies,
    })
}

/// A causal session that gets key 2, and then key 1.
fn two_gets(alloc: Global) -> Result<Desk<CausalLevel>, Fail> {
    new_desk(alloc, Items::new(vec![in alloc; get!(2), get!(1)]?))
}

/// A causal session that awaits the third put of session 2 on key 2.
fn third_awaited(alloc: Global) -> Result<Desk<CausalLevel>, Fail> {
    let third = Line::Await {
        key: 2,
        session: 2,
        count: 3,
    };
    new_desk(alloc, Items::new(vec![in alloc; third]?))
}

/// A committed session that puts to keys 1 and 2 in a transaction that it aborts.
fn aborted(alloc: Global) -> Result<Desk<CommittedLevel>, Fail> {
    let lines = vec![in alloc; Line::Begin, put_five!(1), put_five!(2), Line::Abort]?;
    new_desk(alloc, Items::new(lines))
}

/// And one that it commits.
fn committed(alloc: Global) -> Result<Desk<CommittedLevel>, Fail> {
    let lines = vec![in alloc; Line::Begin, put_five!(1), put_five!(2), Line::Commit]?;
    new_desk(alloc, Items::new(lines))
}

/// A committed session that puts to key 2 in a transaction, and gets it within and after it.
fn got_within_and_after(alloc: Global) -> Result<Desk<CommittedLevel>, Fail> {
    let lines = vec![in alloc; Line::Begin, put_five!(2), get!(2), Line::Commit, get!(2)]?;
    new_desk(alloc, Items::new(lines))
}

/// An eventual session that gets key 2, and then puts to key 1.
fn get_and_put(alloc: Global) -> Result<Desk<EventualLevel>, Fail> {
    new_desk(alloc, Items::new(vec![in alloc; get!(2), put_five!(1)]?))
}

/// An eventual session that gets key 1.
fn one_get(alloc: Global) -> Result<Desk<EventualLevel>, Fail> {
    new_desk(alloc, Items::new(vec![in alloc; get!(1)]?))
}

/// One step, which tells this.
fn steps<C: Consistency>(desk: &mut Desk<C>, told: Progress) -> Result<(), Fail> {
    if desk.proxy.poll()? != told {
        return Err(Fail::new("another step"));
    }
    Ok(())
}

/// So many steps, each of which moves.
fn moves<C: Consistency>(desk: &mut Desk<C>, count: u32) -> Result<(), Fail> {
    for _ in 0..count {
        steps(desk, Progress::Moved)?;
    }
    Ok(())
}

/// What a worker is asked next.
fn asked<C: Consistency>(desk: &mut Desk<C>, worker: u16) -> Result<Option<Request>, Fail>
    requires { (1 ≤ worker) × (worker ≤ 2) }
{
    let parcel = desk.proxy.request_parcel(worker);
    let Some(requests) = desk.requests.get_mut(usize::from(worker) - 1) else {
        return Err(Fail::new("no such worker"));
    };
    if requests.deliver(parcel).is_err() {
        return Err(Fail::new("not delivered"));
    }
    Ok(Rx::take(requests)?.map(|(_, request)| request))
}

/// A worker replies.
fn reply<C: Consistency>(desk: &mut Desk<C>, worker: u16, reply: Reply) -> Result<(), Fail>
    requires { 1 ≤ worker }
{
    let Some(sender) = desk.replies.get_mut(usize::from(worker) - 1) else {
        return Err(Fail::new("no such worker"));
    };
    if sender.send(reply).is_err() {
        return Err(Fail::new("not sent"));
    }
    let parcel = sender.parcel();
    if desk.proxy.deliver(parcel).is_err() {
        return Err(Fail::new("not delivered"));
    }
    Ok(())
}

/// The session asks a worker, which replies by this cell of the key; the step that hears it tells this.
fn asks<C: Consistency>(
    desk: &mut Desk<C>,
    worker: u16,
    cell: &Cell,
    told: Progress,
) -> Result<(), Fail>
    requires { (1 ≤ worker) × (worker ≤ 2) }
{
    steps(desk, Progress::Moved)?;
    let Some(Request::Get { ask, key, required }) = asked(desk, worker)? else {
        return Err(Fail::new("no get"));
    };
    reply(
        desk,
        worker,
        Reply::answer(ask, worker, key, &required, cell)?,
    )?;
    steps(desk, told)
}

/// The cell of the first put of a session on some key, of this Lamport number, which needs the first put of
/// session 2 on key 1.
fn cell_of(alloc: Global, session: u16, lamport: u64) -> Result<Cell, Fail> {
    let mut one = Clock::new(alloc);
    one.raise(2, 1)?;
    let mut needs = Needs::new(alloc);
    needs.raise(1, &one)?;
    let put = Put {
        session,
        number: 1,
        lamport,
        place: 0,
        seen: one,
        needs,
        payload: Payload::Max(7),
    };
    Ok(Cell::of_put(alloc, &put)?)
}

/// The session asks so many workers in turn, each of which shows it this cell, and may ask on.
fn asks_on<C: Consistency>(desk: &mut Desk<C>, workers: u16, cell: &Cell) -> Result<(), Fail>
    requires { workers ≤ 2 }
{
    for worker in 1..=workers {
        asks(desk, worker, cell, Progress::Rest)?;
    }
    Ok(())
}

/// It does so seven times.
fn asks_on_seven_times<C: Consistency>(
    desk: &mut Desk<C>,
    workers: u16,
    cell: &Cell,
) -> Result<(), Fail>
    requires { workers ≤ 2 }
{
    for _ in 0..7 {
        asks_on(desk, workers, cell)?;
    }
    Ok(())
}

/// The key, the number, the Lamport number and the place of the put that a worker is asked next.
fn put_asked<C: Consistency>(
    desk: &mut Desk<C>,
    worker: u16,
) -> Result<Option<(u16, u64, u64, u32)>, Fail>
    requires { (1 ≤ worker) × (worker ≤ 2) }
{
    let Some(Request::Put { key, put }) = asked(desk, worker)? else {
        return Ok(None);
    };
    Ok(Some((key, put.number, put.lamport, put.place)))
}

/// The answer to a line, from 0, if it is answered.
fn answer<C: Consistency>(desk: &Desk<C>, line: usize) -> Option<&Answer> {
    desk.proxy.answers().get(line)
}

/// Of the answer to a line, from 0, that is an end of asking: the asks, the last worker, and what of session 2
/// the clock counts.
fn gave_up<C: Consistency>(desk: &Desk<C>, line: usize) -> Option<(u32, u16, u64)> {
    match answer(desk, line) {
        Some(
            Answer::Again {
                asks,
                worker,
                clock,
            },
        ) => Some((*asks, *worker, clock.count(2))),
        _ => None,
    }
}

/// Of the answer to a line, from 0, that shows a cell: the worker, what of session 1 the clock counts, and the
/// greatest Lamport number.
fn got<C: Consistency>(desk: &Desk<C>, line: usize) -> Option<(u16, u64, u64)> {
    match answer(desk, line) {
        Some(Answer::Got { worker, shown }) => Some((*worker, shown.clock.count(1), shown.top)),
        _ => None,
    }
}

/// The session is shown the first put of session 2 on key 2; and neither worker has anything of key 1.
fn asks_both_in_vain(alloc: Global, desk: &mut Desk<CausalLevel>) -> Result<(), Fail> {
    let empty = Cell::empty(alloc, Kind::Max);
    asks(desk, 1, &cell_of(alloc, 2, 1)?, Progress::Moved)?;
    asks_on_seven_times(desk, 2, &empty)?;
    asks_on(desk, 1, &empty)?;
    asks(desk, 2, &empty, Progress::Moved)?;
    steps(desk, Progress::Ended)
}

#[test]
fn a_causal_get_gives_up_after_eight_asks_of_each_replica(rt: HostRuntime) -> Result<(), Fail> {
    let mut desk = [two_gets(rt.alloc())?];
    asks_both_in_vain(rt.alloc(), &mut desk[0])?;
    assert_eq!(rt; gave_up(&desk[0], 1), Some((16, 2, 0)));
    Ok(())
}

/// The session is shown the first put of session 2 on key 2, and no other.
fn asks_one_in_vain(alloc: Global, desk: &mut Desk<CausalLevel>) -> Result<(), Fail> {
    let first = cell_of(alloc, 2, 1)?;
    asks_on_seven_times(desk, 1, &first)?;
    asks(desk, 1, &first, Progress::Moved)?;
    steps(desk, Progress::Ended)
}

#[test]
fn an_await_gives_up_after_eight_asks_of_one_replica(rt: HostRuntime) -> Result<(), Fail> {
    let mut desk = [third_awaited(rt.alloc())?];
    asks_one_in_vain(rt.alloc(), &mut desk[0])?;
    assert_eq!(rt; gave_up(&desk[0], 0), Some((8, 1, 1)));
    Ok(())
}

/// So many steps move, after which worker 1 is asked nothing; and how many lines are answered.
fn moves_unasked<C: Consistency>(desk: &mut Desk<C>, count: u32) -> Result<usize, Fail> {
    moves(desk, count)?;
    if asked(desk, 1)?.is_some() {
        return Err(Fail::new("a request"));
    }
    Ok(desk.proxy.answers().len())
}

#[test]
fn a_transaction_that_is_aborted_puts_nothing(rt: HostRuntime) -> Result<(), Fail> {
    let mut desk = [aborted(rt.alloc())?];
    assert_eq!(rt; moves_unasked(&mut desk[0], 4)?, 4);
    let last = matches!(answer(&desk[0], 3), Some(Answer::Aborted { puts: 2 }));
    assert!(rt; last);
    Ok(())
}

/// The key, the number, the Lamport number and the place of the two puts of a commit.
fn commits(desk: &mut Desk<CommittedLevel>) -> Result<[Option<(u16, u64, u64, u32)>; 2], Fail> {
    moves_unasked(desk, 3)?;
    moves(desk, 1)?;
    let first = put_asked(desk, 1)?;
    moves(desk, 1)?;
    Ok([first, put_asked(desk, 1)?])
}

#[test]
fn a_commit_puts_what_was_held_at_one_lamport_number(rt: HostRuntime) -> Result<(), Fail> {
    let mut desk = [committed(rt.alloc())?];
    assert_eq!(rt;
        commits(&mut desk[0])?,
        [Some((1, 1, 1, 0)), Some((2, 1, 1, 1))]
    );
    let last = matches!(
        answer(&desk[0], 3),
        Some(Answer::Committed {
            puts: 2,
            lamport: 1
        })
    );
    assert!(rt; last);
    Ok(())
}

/// The session gets key 2 of worker 1, which has nothing of it, and then the session's put alone.
fn gets_twice(alloc: Global, desk: &mut Desk<CommittedLevel>) -> Result<(), Fail> {
    moves(desk, 2)?;
    asks(desk, 1, &Cell::empty(alloc, Kind::Max), Progress::Moved)?;
    moves(desk, 1)?;
    if put_asked(desk, 1)? != Some((2, 1, 1, 0)) {
        return Err(Fail::new("no put"));
    }
    asks(desk, 1, &cell_of(alloc, 1, 1)?, Progress::Moved)
}

#[test]
fn a_get_shows_what_was_held_once_it_is_committed(rt: HostRuntime) -> Result<(), Fail> {
    let mut desk = [got_within_and_after(rt.alloc())?];
    gets_twice(rt.alloc(), &mut desk[0])?;
    assert_eq!(rt;
        [got(&desk[0], 2), got(&desk[0], 4)],
        [Some((1, 0, 0)), Some((1, 1, 1))]
    );
    Ok(())
}

/// The session is shown the greatest Lamport number.
fn is_shown_the_last(alloc: Global, desk: &mut Desk<EventualLevel>) -> Result<(), Fail> {
    let last = cell_of(alloc, 2, 18_446_744_073_709_551_615)?;
    asks(desk, 1, &last, Progress::Moved)
}

#[test]
fn a_put_is_worn_where_the_lamport_numbers_are_used_up(rt: HostRuntime) -> Result<(), Fail> {
    let mut desk = [get_and_put(rt.alloc())?];
    is_shown_the_last(rt.alloc(), &mut desk[0])?;
    assert_eq!(rt; moves_unasked(&mut desk[0], 1)?, 2);
    assert!(rt; matches!(answer(&desk[0], 1), Some(Answer::Worn)));
    Ok(())
}

/// Worker 1 replies to an ask of this number for key 1, of which it has nothing; and how many lines are
/// answered once the session has heard it.
fn hears_of<C: Consistency>(alloc: Global, desk: &mut Desk<C>, ask: u64) -> Result<usize, Fail> {
    let empty = Cell::empty(alloc, Kind::Max);
    reply(
        desk,
        1,
        Reply::answer(ask, 1, 1, &Clock::new(alloc), &empty)?,
    )?;
    moves(desk, 1)?;
    Ok(desk.proxy.answers().len())
}

/// The session asks worker 1, and hears of its ninth ask and of its first.
fn hears_of_two(alloc: Global, desk: &mut Desk<EventualLevel>) -> Result<(usize, usize), Fail> {
    moves(desk, 1)?;
    steps(desk, Progress::NotYet)?;
    let stale = hears_of(alloc, desk, 9)?;
    Ok((stale, hears_of(alloc, desk, 1)?))
}

#[test]
fn a_reply_to_another_ask_is_dropped(rt: HostRuntime) -> Result<(), Fail> {
    let mut desk = [one_get(rt.alloc())?];
    assert_eq!(rt; hears_of_two(rt.alloc(), &mut desk[0])?, (0, 1));
    assert_eq!(rt; got(&desk[0], 0), Some((1, 0, 0)));
    Ok(())
}
