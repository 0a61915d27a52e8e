//! Rings on one thread, and on several.
ghost use Rattle.mail_contract.specs.OverBoxes.{StandingStays};
ghost use Rattle.mail_contract.specs.Seen.{Stays};

use crate::note::{MANY, Note, TURNS};
use lattice_laws::NoMemory;
use mail_contract::{Refused, Rx, Tx};
use mail_rings::{RingRx, RingTx, rings};
use std::test::Fail;
use std::thread::{Threads, join_mut, yield_now};

#[test]
fn a_full_ring(rt: HostRuntime) -> Result<(), Fail> {
    let (mut txs, mut rx) = rings(rt.alloc(), 1)?;
    for number in 0..64 {
        assert!(rt; txs[0].send(Note(number)).is_ok());
    }
    let back = match txs[0].send(Note(64)) {
        Err(Refused::Full(back)) => Some(back),
        _ => None,
    };
    assert_eq!(rt; back, Some(Note(64)));
    assert_eq!(rt; Rx::take(&mut rx)?, Some((1, Note(0))));
    assert!(rt; txs[0].send(Note(65)).is_ok());
    Ok(())
}

/// Sends the numbers from 0, and says how many were sent.
fn send_all(tx: &mut RingTx<Note>) -> u32
    ensures key { Stays ⟦<RingTx<Note> as Tx<Note>>⟧.key tx.old tx.new }
    ensures number { Stays ⟦<RingTx<Note> as Tx<Note>>⟧.number tx.old tx.new }
{
    let mut next = 0;
    for _ in 0..TURNS {
        if next >= MANY {
            break;
        }
        match tx.send(Note(next)) {
            Ok(()) => next += 1,
            Err(_) => yield_now(),
        }
    }
    next
}

/// Takes from two senders, and says of each whether its numbers came in order, from 0, and how many did.
fn take_all(rx: &mut RingRx<Note>, counts: &mut [u32; 3], most: u32) -> bool
    ensures key { Stays ⟦<RingRx<Note> as Rx<Note>>⟧.key rx.old rx.new }
    ensures standing { StandingStays ⟦<RingRx<Note> as Rx<Note>>⟧ rx.old rx.new }
{
    for _ in 0..TURNS {
        if counts[1].saturating_add(counts[2]) >= most {
            return true;
        }
        match Rx::take(rx) {
            Ok(Some((sender, Note(number)))) => {
                if sender > 2 || counts[sender as usize] != number {
                    return false;
                }
                counts[sender as usize] = number.saturating_add(1);
            }
            Ok(None) => yield_now(),
            Err(NoMemory) => return false,
        }
    }
    true
}

/// Two threads send, and a third takes: how many each sent, and whether what was taken came in order.
fn side_by_side<R: Threads + Sync>(
    rt: &R,
    rx: &mut RingRx<Note>,
    first: &mut RingTx<Note>,
    second: &mut RingTx<Note>,
    counts: &mut [u32; 3],
) -> (u32, u32, bool)
    ensures key { Stays ⟦<RingRx<Note> as Rx<Note>>⟧.key rx.old rx.new }
    ensures standing { StandingStays ⟦<RingRx<Note> as Rx<Note>>⟧ rx.old rx.new }
    ensures first_key { Stays ⟦<RingTx<Note> as Tx<Note>>⟧.key first.old first.new }
    ensures first_number { Stays ⟦<RingTx<Note> as Tx<Note>>⟧.number first.old first.new }
    ensures second_key { Stays ⟦<RingTx<Note> as Tx<Note>>⟧.key second.old second.new }
    ensures second_number { Stays ⟦<RingTx<Note> as Tx<Note>>⟧.number second.old second.new }
{
    let mut sent = (0, 0);
    let mut in_order = true;
    join_mut(
        rt,
        &mut || {
            join_mut(
                rt,
                &mut || sent.0 = send_all(first),
                &mut || { sent.1 = send_all(second) },
            );
        },
        &mut || in_order = take_all(rx, counts, 1_990),
    );
    (sent.0, sent.1, in_order)
}

#[test]
fn two_threads_send_and_a_third_takes(rt: HostRuntime) -> Result<(), Fail> {
    let (mut txs, mut rx) = rings(rt.alloc(), 2)?;
    let mut counts = [0; 3];
    let mut ran = (0, 0, false);
    if let (Some(mut second), Some(mut first)) = (txs.pop(), txs.pop()) {
        ran = side_by_side(&rt, &mut rx, &mut first, &mut second, &mut counts);
        Rx::settle(&mut rx, first);
        Rx::settle(&mut rx, second);
        ran.2 = ran.2 && take_all(&mut rx, &mut counts, 2_000);
    }
    assert_eq!(rt; ran, (MANY, MANY, true));
    assert_eq!(rt; counts, [0, MANY, MANY]);
    assert_eq!(rt; Rx::take(&mut rx)?, None);
    Ok(())
}
