//! Plain mail and the scramble over it.
ghost use Rattle.mail_contract.specs.Seen.{Stays};

use crate::note::Note;
use lattice_laws::NoMemory;
use mail_contract::{
    GossipRx, Parcel, ParcelFault, PlainRx, PlainTx, Rx, Scramble, Tx, next_of, plain,
};
use std::alloc::Global;
use std::test::Fail;

/// What a box hands out until it finds nothing.
fn taken<R: Rx<Note>>(
    alloc: Global,
    rx: &mut R,
    most: usize,
) -> Result<Vec<(u16, Note)>, NoMemory> {
    let mut all = Vec::new(alloc);
    for _ in 0..most {
        match rx.take()? {
            Some(message) => all.push(message)?,
            None => return Ok(all),
        }
    }
    Ok(all)
}

/// Sends a message and carries it.
fn carry(tx: &mut PlainTx<Note>, rx: &mut PlainRx<Note>, note: u32) -> Result<(), NoMemory>
    ensures { Stays ⟦<PlainRx<Note> as Rx<Note>>⟧.received rx.old rx.new }
{
    if tx.send(Note(note)).is_err() {
        return Err(NoMemory);
    }
    match rx.deliver(tx.parcel()) {
        Ok(()) => Ok(()),
        Err(_) => Err(NoMemory),
    }
}

/// The parcel that comes back as strange.
fn strange(answer: Result<(), ParcelFault<Note>>) -> Option<Parcel<Note>> {
    match answer {
        Err(ParcelFault::Strange(back)) => Some(back),
        _ => None,
    }
}

#[test]
fn a_parcel_follows_the_one_before_it(rt: HostRuntime) -> Result<(), Fail> {
    let (mut txs, mut rx) = plain(rt.alloc(), 1)?;
    assert!(rt; txs[0].send(Note(7)).is_ok());
    let first = txs[0].parcel();
    assert!(rt; txs[0].send(Note(9)).is_ok());
    let second = txs[0].parcel();
    let back = strange(rx.deliver(second));
    assert!(rt; back.is_some());
    assert!(rt; rx.deliver(first).is_ok());
    if let Some(back) = back {
        assert!(rt; rx.deliver(back).is_ok());
    }
    assert_eq!(rt; Rx::take(&mut rx)?, Some((1, Note(7))));
    assert_eq!(rt; Rx::take(&mut rx)?, Some((1, Note(9))));
    assert_eq!(rt; Rx::take(&mut rx)?, None);
    Ok(())
}

#[test]
fn senders_take_turns(rt: HostRuntime) -> Result<(), Fail> {
    let (mut txs, mut rx) = plain(rt.alloc(), 3)?;
    carry(&mut txs[0], &mut rx, 1)?;
    carry(&mut txs[0], &mut rx, 2)?;
    carry(&mut txs[2], &mut rx, 3)?;
    carry(&mut txs[2], &mut rx, 4)?;
    let all = taken(rt.alloc(), &mut rx, 9)?;
    let want = [(1, Note(1)), (3, Note(3)), (1, Note(2)), (3, Note(4))];
    assert_eq!(rt; all.as_slice(), want.as_slice());
    Ok(())
}

#[test]
fn what_a_settled_sender_sent_is_taken(rt: HostRuntime) -> Result<(), Fail> {
    let (mut txs, mut rx) = plain(rt.alloc(), 1)?;
    if let Some(mut tx) = txs.pop() {
        assert!(rt; tx.send(Note(2)).is_ok());
        assert_eq!(rt; tx.sender(), 1);
        Rx::settle(&mut rx, tx);
    }
    let all = taken(rt.alloc(), &mut rx, 9)?;
    assert_eq!(rt; all.as_slice(), [(1, Note(2))].as_slice());
    Ok(())
}

#[test]
fn a_scramble_hands_out_each_message_once_or_twice(rt: HostRuntime) -> Result<(), Fail> {
    let (mut txs, mut rx) = plain(rt.alloc(), 1)?;
    carry(&mut txs[0], &mut rx, 1)?;
    carry(&mut txs[0], &mut rx, 2)?;
    carry(&mut txs[0], &mut rx, 3)?;
    let mut scramble = Scramble::new(rt.alloc(), rx, 7)?;
    let mut all = Vec::new(rt.alloc());
    for _ in 0..9 {
        if let Some(message) = GossipRx::take(&mut scramble)? {
            all.push(message)?;
        }
    }
    let want = [(1, Note(3)), (1, Note(3)), (1, Note(2)), (1, Note(1))];
    assert_eq!(rt; all.as_slice(), want.as_slice());
    Ok(())
}

/// The first draws from the number 7.
#[test]
fn three_draws(rt: HostRuntime) -> Result<(), Fail> {
    let mut state = 7;
    for want in [1_059_165_278, 2_052_263_231, 1_946_856_753] {
        state = next_of(state);
        assert_eq!(rt; state >> 33, want);
    }
    Ok(())
}
