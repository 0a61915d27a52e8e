//! Gossip that comes late.
ghost use Rattle.std.specs.Prelude.{◌≡◌, ℕ, IsFalse, IsTrue, [], None, length, IfOk};
ghost use Rattle.std.proofs.Props.{props};
ghost use Rattle.late_gossip.specs.Debts.{any_is_owed};
ghost use Rattle.mail_contract.specs.Standing.{IsSettled};

use lattice_laws::NoMemory;
use mail_contract::{GossipRx, Rx, Tx};
use std::alloc::Global;
use std::marker::PhantomData;

/// How many numbers a sender may have.
const NUMBERS: usize = 65_536;

/// Whether some sender is owed a message.
fn any_owed(debts: &[bool]) -> bool
    ensures { result ≡ any_is_owed debts.now }
{
    debts.iter().any(|owed| *owed)
}

/// A box of gossip that hands out late, over a box in order: for tests of what stands on gossip.
///
/// A sender that is held beside the box is owed one message. While nobody is owed any, the box finds nothing,
/// whatever has been sent. Once a sender has ended and is taken in, the box holds nothing back any longer.
#[derive(Drop)]
pub struct Late<M, R: Rx<M>> {
    inner: R,
    // By a sender's number, whether it is owed a message.
    debts: Vec<bool>,
    // A sender was taken in.
    ended: bool,
    nones: u64,
    somes: u64,
    marker: PhantomData<M>,
    ghost complete: { IsTrue R.keeps.complete },
    ghost bounded: { IsTrue R.keeps.bounded },
    ghost places: { length debts.items ≡ 65_536 },
    ghost taken_in: { (sender : ℕ) → IsSettled (R.about inner sender).standing
        → IsTrue ended } by { Prim.hlevel props },
}

impl<M: Drop, R: Rx<M>> GossipRx<M> for Late<M, R> {
    ghost use Rattle.std.specs.Prelude.{◌≡◌, IsFalse, [], false, None, Ok};
    ghost use Rattle.late_gossip.specs.Debts.{any_is_owed, is_owed};
    ghost use Rattle.mail_contract.specs.Got.{got_of};
    ghost use Rattle.mail_contract.specs.Standing.{left_of_all};

    type From = R::From;

    type Key = R::Key;

    ghost key = { λ late. R.key late.inner };

    ghost pairs = { R.pairs };

    ghost senders = { R.senders };

    ghost made_with = { λ _. [] };

    ghost got = { λ late. got_of (R.received late.inner) };

    ghost answers = { λ late. record { nones = late.nones; somes = late.somes } };

    ghost about = { λ late. R.about late.inner };

    // A sender is due as long as it is owed a message.
    ghost due = { λ late. is_owed late.debts.items };

    // Nothing is found where nobody is owed a message and no sender was taken in.
    ghost besides = { λ result before _. IsFalse before.ended
        → any_is_owed before.debts.items ≡ false → result ≡ Ok None };

    ghost most = { λ late. left_of_all (R.senders (R.key late.inner)) (R.about late.inner) };

    ghost keeps = { record R.keeps {
      turns = false;
      complete = false;
      exact = false;
      advances = R.keeps.complete;
    } };

    fn take(&mut self) -> Result<Option<(u16, M)>, NoMemory> {
        if !self.ended && !any_owed(&self.debts) {
            self.nones = self.nones.saturating_add(1);
            return Ok(None);
        }
        match self.inner.take()? {
            Some((sender, message)) => {
                self.debts[sender as usize] = false;
                self.somes = self.somes.saturating_add(1);
                Ok(Some((sender, message)))
            }
            None => {
                self.nones = self.nones.saturating_add(1);
                Ok(None)
            }
        }
    }

    fn settle(&mut self, ended: R::From) {
        self.inner.settle(ended);
        self.ended = true;
    }

    fn beside(&mut self, tx: &mut R::From) {
        self.inner.beside(tx);
        self.debts[tx.sender() as usize] = true;
    }

    fn apart(&mut self) {
        self.inner.apart();
    }
}

impl<M: Drop, R: Rx<M>> Late<M, R> {
    /// Over a box that has handed out nothing yet, and that has taken in no sender.
    pub fn new(alloc: Global, inner: R) -> Result<Late<M, R>, NoMemory>
        requires complete { IsTrue R.keeps.complete }
        requires bounded { IsTrue R.keeps.bounded }
        requires received { R.received inner ≡ [] }
        requires none_taken_in { (sender : ℕ) → IsSettled (R.about inner sender).standing → ⊥ }
        ensures key { IfOk result (λ late.
            ⟦<Late<M, R> as GossipRx<M>>⟧.key late ≡ R.key inner) }
        ensures got { IfOk result (λ late. (sender place : ℕ)
            → ⟦<Late<M, R> as GossipRx<M>>⟧.got late sender place ≡ None) }
        ensures answers { IfOk result (λ late.
            ⟦<Late<M, R> as GossipRx<M>>⟧.answers late ≡ record { nones = 0; somes = 0 }) }
        ensures about { IfOk result (λ late.
            ⟦<Late<M, R> as GossipRx<M>>⟧.about late ≡ R.about inner) }
        ensures none_due { IfOk result (λ late. (sender : ℕ)
            → IsFalse (⟦<Late<M, R> as GossipRx<M>>⟧.due late sender)) }
    {
        Ok(Late {
            inner,
            debts: vec![in alloc; false; NUMBERS]?,
            ended: false,
            nones: 0,
            somes: 0,
            marker: PhantomData,
        })
    }
}
