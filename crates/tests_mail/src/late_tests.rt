//! A box that hands out late, over rings.
ghost use Rattle.std.specs.Prelude.{◌≡◌, IfOk, IsTrue};
ghost use Rattle.mail_contract.specs.Standing.{AllStand, IsSettled};

use crate::note::Note;
use late_gossip::Late;
use lattice_laws::NoMemory;
use mail_contract::{GossipRx, Tx};
use mail_rings::{RingRx, RingTx, rings};
use std::alloc::Global;
use std::test::Fail;

type LateNotes = Late<Note, RingRx<Note>>;

/// What two takes hand out.
type Two = [Option<(u16, Note)>; 2];

fn two_taken<G: GossipRx<Note>>(mailbox: &mut G) -> Result<Two, NoMemory>
    ensures key { G.key mailbox.new ≡ G.key mailbox.old }
    ensures standing { AllStand (G.about mailbox.old) (G.about mailbox.new) }
{
    Ok([mailbox.take()?, mailbox.take()?])
}

/// And so once the sender, that was apart, is held beside a box that shows its senders.
fn two_taken_beside<G: GossipRx<Note>>(mailbox: &mut G, tx: &mut G::From) -> Result<Two, NoMemory>
    requires shows { IsTrue G.keeps.shows }
    requires pair { G.pairs (G.key mailbox.old) (G.From.key tx.old) (G.From.number tx.old) }
    ensures key { G.key mailbox.new ≡ G.key mailbox.old }
    ensures tx_key { G.From.key tx.new ≡ G.From.key tx.old }
    ensures tx_number { G.From.number tx.new ≡ G.From.number tx.old }
    ensures shown { IsSettled (G.about mailbox.new (G.From.number tx.new)).standing → ⊥ }
{
    mailbox.apart();
    mailbox.beside(tx);
    two_taken(mailbox)
}

/// A box over one ring, and its sender.
fn new_pair(alloc: Global) -> Result<(RingTx<Note>, LateNotes), Fail>
    ensures { IfOk result (λ ends. ⟦<LateNotes as GossipRx<Note>>⟧.pairs
        (⟦<LateNotes as GossipRx<Note>>⟧.key ends.1)
        (⟦<RingTx<Note> as Tx<Note>>⟧.key ends.0) (⟦<RingTx<Note> as Tx<Note>>⟧.number ends.0)) }
{
    let (mut txs, inner) = rings(alloc, 1)?;
    let late = Late::new(alloc, inner)?;
    match txs.pop() {
        Some(tx) => Ok((tx, late)),
        None => Err(Fail::new("no sender")),
    }
}

/// Whether three messages were sent.
fn three_sent<T: Tx<Note>>(tx: &mut T) -> bool
    ensures key { T.key tx.new ≡ T.key tx.old }
    ensures number { T.number tx.new ≡ T.number tx.old }
{
    tx.send(Note(1)).is_ok() && tx.send(Note(2)).is_ok() && tx.send(Note(3)).is_ok()
}

/// One message comes each time that the sender was held beside the box, and the rest of what it sent once it has
/// ended.
#[test]
fn one_message_comes_for_each_time_beside(rt: HostRuntime) -> Result<(), Fail> {
    let (mut tx, mut late) = new_pair(rt.alloc())?;
    assert!(rt; three_sent(&mut tx));
    assert_eq!(rt; two_taken(&mut late)?, [None, None]);
    let first = two_taken_beside(&mut late, &mut tx)?;
    assert_eq!(rt; first, [Some((1, Note(1))), None]);
    let second = two_taken_beside(&mut late, &mut tx)?;
    assert_eq!(rt; second, [Some((1, Note(2))), None]);
    late.settle(tx);
    assert_eq!(rt; two_taken(&mut late)?, [Some((1, Note(3))), None]);
    Ok(())
}
