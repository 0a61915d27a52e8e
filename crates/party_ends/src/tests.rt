//! All ends, and all parties, over plain mail; and mail for threads.
ghost use Rattle.std.specs.Prelude.{◌≡◌, All, None, length, IfOk};
ghost use Rattle.placement.specs.Config.{IsValidConfig, placed};
ghost use Rattle.placement.specs.Name.{IsName};
ghost use Rattle.session_known.specs.Script.{IsValidScript};

use super::*;
use clock_lattice::Clock;
use composed_value::{Cell, Kind};
use lattice_laws::{Items, NoMemory};
use mail_contract::{GossipRx, Message, Rx, Tx};
use parties::{Parties, SessionOver};
use placement::{Config, KeyPlace, Name};
use session_known::{Level, Line, Script, SessionPlan};
use session_proxy::Progress;
use std::alloc::Global;
use std::test::Fail;
use store_msg::{Batch, PlainPost, Reply, Request};
use worker_core::Did;

/// What was made goes where it belongs: each party's senders have its number, and there is one to each box
/// that it sends to.
#[test]
fn three_workers_and_two_sessions(rt: HostRuntime) -> Result<(), Fail> {
    let (workers, sessions) = all_ends(&PlainPost, rt.alloc(), 3, 2)?;
    assert_eq!(rt; workers.len(), 3);
    assert_eq!(rt; sessions.len(), 2);
    for (place, worker) in workers.iter().enumerate() {
        assert_eq!(rt; worker.replies.len(), 2);
        assert_eq!(rt; worker.gossip_out.len(), 2);
        for sender in worker.replies.iter() {
            assert_eq!(rt; sender.sender() as usize, place + 1);
        }
        for sender in worker.gossip_out.iter() {
            assert_eq!(rt; sender.sender() as usize, place + 1);
        }
    }
    for (place, session) in sessions.iter().enumerate() {
        assert_eq!(rt; session.requests.len(), 3);
        for sender in session.requests.iter() {
            assert_eq!(rt; sender.sender() as usize, place + 1);
        }
    }
    Ok(())
}

/// Without sessions the boxes of requests are there, and find nothing.
#[test]
fn no_session(rt: HostRuntime) -> Result<(), Fail> {
    let (workers, sessions) = all_ends(&PlainPost, rt.alloc(), 1, 0)?;
    assert!(rt; sessions.is_empty());
    let mut workers = workers;
    let worker = &mut workers[0];
    assert!(rt; worker.replies.is_empty());
    assert!(rt; worker.gossip_out.is_empty());
    assert!(rt; Rx::take(&mut worker.requests)?.is_none());
    assert!(rt; GossipRx::take(&mut worker.gossip_in)?.is_none());
    Ok(())
}

/// The first of two senders sends a message, and then the second. Whether both were taken in.
fn both_send<M: Drop, S: Tx<M>>(senders: Vec<S>, first: M, second: M) -> bool {
    let mut senders = senders;
    match (senders.pop(), senders.pop()) {
        (Some(mut two), Some(mut one)) => one.send(first).is_ok() && two.send(second).is_ok(),
        _ => false,
    }
}

/// Whose messages a box with two senders hands out, one after another, once both have sent.
fn taken_from<M: Drop, P: MakesMail<M>>(
    maker: &P,
    alloc: Global,
    first: M,
    second: M,
) -> Result<[Option<u16>; 3], NoMemory> {
    let (senders, mut mailbox) = maker.make(alloc, 2)?;
    let mut taken = [None; 3];
    if both_send(senders, first, second) {
        for place in 0..3 {
            taken[place] = mailbox.take()?.map(|(sender, _)| sender);
        }
    }
    Ok(taken)
}

/// And whose a weak box does.
fn taken_from_weak<M: Drop, P: MakesGossip<M>>(
    maker: &P,
    alloc: Global,
    first: M,
    second: M,
) -> Result<[Option<u16>; 3], NoMemory> {
    let (senders, mut mailbox) = maker.make_weak(alloc, 1, 2)?;
    let mut taken = [None; 3];
    if both_send(senders, first, second) {
        for place in 0..3 {
            taken[place] = mailbox.take()?.map(|(sender, _)| sender);
        }
    }
    Ok(taken)
}

/// Whose messages a box hands out once its two senders have sent: the first one's first, and no more.
const BOTH: [Option<u16>; 3] = [Some(1), Some(2), None];

/// Whether a box of requests hands out what was sent.
fn requests_are_handed_out<P: MakesMail<Request>>(
    maker: &P,
    alloc: Global,
) -> Result<bool, NoMemory> {
    let ask = Request::Get {
        ask: 1,
        key: 1,
        required: Clock::new(alloc),
    };
    let again = ask.copy()?;
    Ok(taken_from(maker, alloc, ask, again)? == BOTH)
}

/// Whether a box of replies does.
fn replies_are_handed_out<P: MakesMail<Reply>>(maker: &P, alloc: Global) -> Result<bool, NoMemory> {
    let reply = Reply::answer(1, 1, 1, &Clock::new(alloc), &Cell::empty(alloc, Kind::Max))?;
    let also = reply.copy()?;
    Ok(taken_from(maker, alloc, reply, also)? == BOTH)
}

/// Whether a weak box of batches does.
fn batches_are_handed_out<P: MakesGossip<Batch>>(
    maker: &P,
    alloc: Global,
) -> Result<bool, NoMemory> {
    let tell = Batch::new(alloc)?;
    let again = Batch::new(alloc)?;
    Ok(taken_from_weak(maker, alloc, tell, again)? == BOTH)
}

/// Whether a box of each kind of message hands out what its two senders sent, the first one's first, and no
/// more.
fn all_hand_out<P: MakesMail<Request> + MakesMail<Reply> + MakesGossip<Batch>>(
    maker: &P,
    alloc: Global,
) -> Result<bool, NoMemory> {
    let requests = requests_are_handed_out(maker, alloc)?;
    let replies = replies_are_handed_out(maker, alloc)?;
    let batches = batches_are_handed_out(maker, alloc)?;
    Ok(requests && replies && batches)
}

/// Boxes over rings hand out what their senders sent, in turn.
#[test]
fn rings_hand_out_what_was_sent(rt: HostRuntime) -> Result<(), Fail> {
    assert!(rt; all_hand_out(&RingPost, rt.alloc())?);
    Ok(())
}

/// Boxes over queues hand out what their senders sent, in the order in which they sent it.
#[test]
fn queues_hand_out_what_was_sent(rt: HostRuntime) -> Result<(), Fail> {
    assert!(rt; all_hand_out(&QueuePost { rt }, rt.alloc())?);
    Ok(())
}

/// Two workers, and a key that lives at both.
fn one_key(alloc: Global) -> Result<Config, Fail>
    ensures valid { IfOk result IsValidConfig }
    ensures one { IfOk result (λ config. length config.keys ≡ 1) }
    ensures named { IfOk result (λ config. All (λ key. IsName key.name) config.keys) }
{
    let key = KeyPlace {
        name: Name::of(b"k")?,
        pins: Items::new(vec![in alloc; 1, 2]?),
        factor: None,
    };
    Ok(Config {
        workers: 2,
        factor: 1,
        keys: Items::new(vec![in alloc; key]?),
    })
}

/// A session of this name, and its lines.
fn plan(name: &[u8], level: Level, lines: Vec<Line>) -> Result<SessionPlan, Fail>
    ensures name { IfOk result (λ plan. plan.name ≡ name.now) }
    ensures named { IfOk result (λ plan. IsName plan.name) }
    ensures level { IfOk result (λ plan. plan.level ≡ level) }
    ensures after { IfOk result (λ plan. plan.after ≡ None) }
    ensures lines { IfOk result (λ plan. plan.lines ≡ lines.items) }
{
    Ok(SessionPlan {
        name: Name::of(name)?,
        level,
        after: None,
        lines: Items::new(lines),
    })
}

/// A session of each level: one gets the key, one begins a transaction and ends it, and one awaits a put.
fn small_script(alloc: Global) -> Result<Script, Fail>
    ensures { IfOk result (λ script. IsValidScript script (placed script.config)) }
{
    let get = Line::Get {
        key: 1,
        worker: None,
    };
    let awaited = Line::Await {
        key: 1,
        session: 1,
        count: 1,
    };
    let eventual = plan(b"e", Level::Eventual, vec![in alloc; get]?)?;
    let committed = plan(
        b"c",
        Level::Committed,
        vec![in alloc; Line::Begin, Line::Commit]?,
    )?;
    let causal = plan(b"a", Level::Causal, vec![in alloc; awaited]?)?;
    Ok(Script {
        version: 1,
        config: one_key(alloc)?,
        round: 4,
        kinds: Items::new(vec![in alloc; Kind::Max]?),
        sessions: Items::new(vec![in alloc; eventual, committed, causal]?),
    })
}

/// The parties of a script with two workers and a session of each level: no line is answered, each session
/// has its own first step to make, and no worker has anything to do.
#[test]
fn parties_of_two_workers_and_three_levels(rt: HostRuntime) -> Result<(), Fail> {
    let script = small_script(rt.alloc())?;
    let Parties { workers, sessions } = new_parties(&PlainPost, rt.alloc(), &script)?;
    let mut workers = workers;
    let mut sessions = sessions;
    assert_eq!(rt; workers.len(), 2);
    assert_eq!(rt; sessions.len(), 3);
    assert!(rt; matches!(&sessions[0], SessionOver::Eventual(_)));
    assert!(rt; matches!(&sessions[1], SessionOver::Committed(_)));
    assert!(rt; matches!(&sessions[2], SessionOver::Causal(_)));
    for session in sessions.iter_mut() {
        assert!(rt; session.answers().is_empty());
        assert!(rt; session.has_begun());
        assert_eq!(rt; session.poll()?, Progress::Moved);
    }
    assert_eq!(rt; sessions[0].answers().len(), 0);
    assert_eq!(rt; sessions[1].answers().len(), 1);
    for worker in workers.iter_mut() {
        assert_eq!(rt; worker.turn()?, Did::Idle);
    }
    Ok(())
}
