//! A sealed worker over a box that repeats and reverses.
ghost use Rattle.std.specs.Prelude.{◌≡◌, [], IfOk};
ghost use Rattle.tests_worker.specs.Desks.{IsAtRest};

use crate::tests::{shared_keys, turns};
use crate::thread_tests::{ask, new_ringed};
use composed_value::Kind;
use lattice_laws::Items;
use mail_contract::{GossipRx, Rx, Scramble};
use mail_rings::{RingRx, RingTx, rings};
use std::alloc::Global;
use std::test::Fail;
use store_msg::{Batch, Reply, Request, WorkerEndsOver};
use worker_core::{SealedOver, WorkerOver};

/// A worker over rings, whose box of gossip is scrambled.
type Scrambled = WorkerOver<
    RingRx<Request>,
    RingTx<Reply>,
    RingTx<Batch>,
    Scramble<Batch, RingRx<Batch>>,
>;

/// How many keys there are.
const KEYS: u16 = 4;

/// The box of worker 2, once worker 1 has told of twelve puts, three on each key in turn, each in a batch of its own.
fn told_twelve(alloc: Global) -> Result<RingRx<Batch>, Fail>
    ensures { IfOk result (λ rx. ⟦<RingRx<Batch> as Rx<Batch>>⟧.received rx ≡ []) }
{
    let (mut asks, requests) = rings(alloc, 1)?;
    let (to_second, of_second) = rings(alloc, 1)?;
    let (_, of_first) = rings(alloc, 1)?;
    let mut first = [new_ringed(alloc, 1, KEYS, requests, to_second, of_first)?];
    for number in 1..4 {
        for key in 1..KEYS + 1 {
            ask(alloc, &mut asks, key, 1, number, number)?;
            turns(alloc, &mut first[0])?;
        }
    }
    Ok(of_second)
}

/// How many puts a sealed worker counts on all keys together.
fn counted<Q: Rx<Request>, G: GossipRx<Batch>>(sealed: &SealedOver<Q, G>) -> u64 {
    let mut count: u64 = 0;
    for key in 1..KEYS + 1 {
        if let Some(cell) = sealed.cell(key) {
            count = count.saturating_add(cell.clock().count(1));
        }
    }
    count
}

/// And so after each batch that it hears, to the last.
fn counts_heard<Q: Rx<Request>, G: GossipRx<Batch>>(
    alloc: Global,
    sealed: &mut SealedOver<Q, G>,
) -> Result<Vec<u64>, Fail> {
    let mut counts = Vec::new(alloc);
    for _ in 0..64 {
        if !sealed.hear()? {
            return Ok(counts);
        }
        counts.push(counted(sealed))?;
    }
    Err(Fail::new("more than was told"))
}

/// Worker 2, whose box a number scrambles.
fn new_scrambled(alloc: Global, inner: RingRx<Batch>, number: u64) -> Result<Scrambled, Fail>
    requires { ⟦<RingRx<Batch> as Rx<Batch>>⟧.received inner ≡ [] }
    ensures { IfOk result (λ worker. IsAtRest worker.state) }
{
    let placement = shared_keys(alloc, KEYS)?;
    let kinds = Items::new(vec![in alloc; Kind::Max; KEYS as usize]?);
    let (_, requests) = rings(alloc, 1)?;
    let (gossip_out, _) = rings(alloc, 1)?;
    let gossip_in = Scramble::new(alloc, inner, number)?;
    let ends = WorkerEndsOver {
        requests,
        replies: Vec::new(alloc),
        gossip_out,
        gossip_in,
    };
    Ok(WorkerOver::new(2, 1, placement, kinds, ends)?)
}

/// What worker 2 counts after each batch, where its box is scrambled by a number, once it is sealed.
fn heard_by(alloc: Global, number: u64) -> Result<Vec<u64>, Fail> {
    let worker = new_scrambled(alloc, told_twelve(alloc)?, number)?;
    let mut sealed = [worker.seal().0];
    counts_heard(alloc, &mut sealed[0])
}

#[test]
fn a_sealed_worker_hears_what_comes_late_and_again(rt: HostRuntime) -> Result<(), Fail> {
    // The batches come in the order 4, 5, 5, 3, 7, 6, 12, 10, 2, 9, 11, 1, 3, 8, 9, 12, 2.
    let want = [1, 3, 3, 4, 5, 7, 9, 10, 10, 11, 12, 12, 12, 12, 12, 12, 12];
    assert_eq!(rt; heard_by(rt.alloc(), 3)?.as_slice(), want.as_slice());
    for number in 0..3 {
        let counts = heard_by(rt.alloc(), number)?;
        // Some of the twelve come twice.
        assert!(rt; 12 < counts.len() && counts.len() <= 24, "{number}");
        assert_eq!(rt; counts.last(), Some(&12), "{number}");
    }
    Ok(())
}
