//! A mailbox on one thread, and on several.
ghost use Rattle.mail_contract.specs.OverBoxes.{StandingStays};
ghost use Rattle.mail_contract.specs.Seen.{Stays};

use crate::note::{MANY, Note, TURNS};
use mail_contract::{Rx, Tx};
use mailbox_rule::{QueueRx, QueueTx, queue};
use std::sync::Wait;
use std::test::Fail;
use std::thread::{Threads, join, yield_now};

#[test]
fn messages_come_in_the_order_in_which_they_were_sent(rt: HostRuntime) -> Result<(), Fail> {
    let (mut txs, mut rx) = queue(rt, rt.alloc(), 2)?;
    if let (Some(mut second), Some(mut first)) = (txs.pop(), txs.pop()) {
        assert!(rt; first.send(Note(1)).is_ok());
        assert!(rt; second.send(Note(2)).is_ok());
        assert!(rt; first.send(Note(3)).is_ok());
        assert_eq!(rt; Rx::take(&mut rx)?, Some((1, Note(1))));
        assert_eq!(rt; Rx::take(&mut rx)?, Some((2, Note(2))));
        assert_eq!(rt; Rx::take(&mut rx)?, Some((1, Note(3))));
        assert_eq!(rt; Rx::take(&mut rx)?, None);
        assert_eq!(rt; (first.sender(), second.sender()), (1, 2));
        Rx::settle(&mut rx, first);
        Rx::settle(&mut rx, second);
    }
    assert_eq!(rt; Rx::take(&mut rx)?, None);
    Ok(())
}

/// Sends the numbers from 0, and says how many were sent.
fn send_all<R: Wait + Copy>(mut tx: QueueTx<Note, R>) -> (QueueTx<Note, R>, u32)
    ensures key { Stays ⟦<QueueTx<Note, R> as Tx<Note>>⟧.key tx result.0 }
    ensures number { Stays ⟦<QueueTx<Note, R> as Tx<Note>>⟧.number tx result.0 }
{
    for number in 0..MANY {
        if tx.send(Note(number)).is_err() {
            return (tx, number);
        }
    }
    (tx, MANY)
}

/// Two threads send.
fn send_both<R: Threads + Wait + Copy + Send + Sync>(
    rt: &R,
    first: QueueTx<Note, R>,
    second: QueueTx<Note, R>,
) -> ((QueueTx<Note, R>, u32), (QueueTx<Note, R>, u32))
    ensures first_key { Stays ⟦<QueueTx<Note, R> as Tx<Note>>⟧.key first result.0.0 }
    ensures first_number { Stays ⟦<QueueTx<Note, R> as Tx<Note>>⟧.number first result.0.0 }
    ensures second_key { Stays ⟦<QueueTx<Note, R> as Tx<Note>>⟧.key second result.1.0 }
    ensures second_number { Stays ⟦<QueueTx<Note, R> as Tx<Note>>⟧.number second result.1.0 }
{
    join(rt, move || send_all(first), move || send_all(second))
}

/// Of two senders, how many messages were taken; those of each came in order, from 0.
#[derive(Clone, Copy, Debug, PartialEq, Eq, Drop)]
struct Counts {
    of: [u32; 3],
    in_order: bool,
}

/// Takes from two senders until so many messages were taken in all.
fn take_all<R: Wait + Copy>(
    mut rx: QueueRx<Note, R>,
    mut counts: Counts,
    most: u32,
) -> (QueueRx<Note, R>, Counts)
    ensures key { Stays ⟦<QueueRx<Note, R> as Rx<Note>>⟧.key rx result.0 }
    ensures standing { StandingStays ⟦<QueueRx<Note, R> as Rx<Note>>⟧ rx result.0 }
{
    for _ in 0..TURNS {
        if counts.of[1].saturating_add(counts.of[2]) >= most {
            break;
        }
        match Rx::take(&mut rx) {
            Ok(Some((sender, Note(number)))) => counts.note(sender, number),
            _ => yield_now(),
        }
    }
    (rx, counts)
}

impl Counts {
    fn note(&mut self, sender: u16, number: u32) {
        match self.of.get_mut(sender as usize) {
            Some(count) if *count == number => *count = number.saturating_add(1),
            _ => self.in_order = false,
        }
    }
}

#[test]
fn two_threads_send_and_a_third_takes(rt: HostRuntime) -> Result<(), Fail> {
    let (mut txs, rx) = queue(rt, rt.alloc(), 2)?;
    let counts = Counts {
        of: [0; 3],
        in_order: true,
    };
    let (Some(second), Some(first)) = (txs.pop(), txs.pop()) else {
        return Err(Fail::new("no senders"));
    };
    let (sent, taken) = join(
        &rt,
        || send_both(&rt, first, second),
        move || take_all(rx, counts, 1_990),
    );
    let ((first, first_sent), (second, second_sent)) = sent;
    let (mut rx, counts) = taken;
    Rx::settle(&mut rx, first);
    Rx::settle(&mut rx, second);
    let (mut rx, counts) = take_all(rx, counts, 2_000);
    assert_eq!(rt; (first_sent, second_sent), (MANY, MANY));
    assert_eq!(rt; (counts.of, counts.in_order), ([0, MANY, MANY], true));
    assert_eq!(rt; Rx::take(&mut rx)?, None);
    Ok(())
}
