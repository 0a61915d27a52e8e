//! The end of a receiver.
ghost use Rattle.std.specs.Prelude.{◌≡◌, ℕ, ◌≤◌, IsOk, IsTrue, List};
ghost use Rattle.mail_contract.specs.Beside.{FindsPlace, IsFrontOf, IsLearned, IsTakenIn, LearnsUnseen, Leaves};
ghost use Rattle.mail_contract.specs.Parts.{Parts};
ghost use Rattle.mail_contract.specs.Standing.{About, IsSettled, AllPart, AllStand, OthersStay};
ghost use Rattle.mail_contract.specs.Takes.{Answers, OnSome, OnNone, Took, Counted, LeftFalls, FrontsStay, AreAllOfSent, IsNothingLeft, TakesInTurn, TakesShown};

use crate::Tx;
use lattice_laws::NoMemory;

/// The end of a receiver: a box that any number of senders send to.
pub trait Rx<M>: Drop {
    /// The end of its senders.
    type From: Tx<M>;

    /// What no call changes. No value of it is made.
    type Key;

    // It tells which senders belong to the box.
    ghost key: { Self → Self.Key };

    // The box and a sender of this number are of one making.
    ghost pairs: { Self.Key → Self.From.Key → ℕ → Type 0 };

    // How many senders there are: their numbers go from 1 up to it.
    ghost senders: { Self.Key → ℕ };

    // All that was taken, each message with its sender's number.
    ghost received: { Self → List (ℕ × M) };

    ghost answers: { Self → Answers };

    ghost about: { Self → ℕ → About M };

    ghost keeps: { Parts };

    /// Takes a message, with its sender's number: of each sender the next in the order in which it
    /// sent them, none left out, none twice. `NoMemory` takes nothing and changes nothing.
    fn take(&mut self) -> Result<Option<(u16, M)>, NoMemory>
        ensures key { key self.new ≡ key self.old }
        ensures sender { OnSome result (λ sender _.
            (1 ≤ sender) × (sender ≤ senders (key self.old))) }
        ensures received { Took result (received self.old) (received self.new) }
        ensures answers { Counted result (answers self.old) (answers self.new) }
        ensures standing { AllStand (about self.old) (about self.new) }
        ensures told { FrontsStay keeps.complete received about self.old self.new }
        ensures none { OnNone result
            (AreAllOfSent keeps.complete (received self.new) (about self.new)) }
        ensures bounded { IsTrue keeps.bounded
            → TakesShown result (received self.new) (about self.new) }
        ensures left { IsTrue keeps.finite → LeftFalls result (about self.old) (about self.new) }
        ensures exact { IsTrue keeps.exact → OnNone result (IsNothingLeft (about self.new)) }
        ensures turns { IsTrue keeps.turns
            → TakesInTurn result (senders (key self.old)) (received self.old) (about self.new) }
        ensures sure { IsTrue keeps.sure → IsOk result };

    /// Takes in a sender that has ended. It tells that what was received of it is the front of what
    /// it sent. Takes no memory.
    fn settle(&mut self, ended: Self::From)
        requires pair { pairs (key self.old) (Self.From.key ended) (Self.From.number ended) }
        requires once { IsSettled (about self.old (Self.From.number ended)).standing → ⊥ }
        ensures key { key self.new ≡ key self.old }
        ensures received { received self.new ≡ received self.old }
        ensures answers { answers self.new ≡ answers self.old }
        ensures others { OthersStay (Self.From.number ended) (about self.old) (about self.new) }
        ensures settled { IsTakenIn Self.From.Tx ended (about self.new) }
        ensures met { IsTrue (about self.new (Self.From.number ended)).met }
        ensures told { IsFrontOf Self.From.Tx ended (received self.old) }
        ensures left { IsTrue keeps.finite
            → Leaves Self.From.Tx ended (received self.old) (about self.new) };

    /// Holds a sender beside the box, so that each learns what the other has: the sender what was
    /// taken, the box what was sent. Takes no memory.
    fn beside(&mut self, tx: &mut Self::From)
        requires { pairs (key self.old) (Self.From.key tx.old) (Self.From.number tx.old) }
        ensures key { key self.new ≡ key self.old }
        ensures received { received self.new ≡ received self.old }
        ensures answers { answers self.new ≡ answers self.old }
        ensures learned { IsLearned Self.From.Tx keeps tx.old (about self.old) (about self.new) }
        ensures tx_key { Self.From.key tx.new ≡ Self.From.key tx.old }
        ensures tx_number { Self.From.number tx.new ≡ Self.From.number tx.old }
        ensures tx_sent { Self.From.sent tx.new ≡ Self.From.sent tx.old }
        ensures tx_fulls { Self.From.fulls tx.new ≡ Self.From.fulls tx.old }
        ensures told { IsTrue keeps.complete → IsFrontOf Self.From.Tx tx.old (received self.old) }
        ensures roomy { IsTrue keeps.roomy
            → LearnsUnseen Self.From.Tx (received self.old) tx.old tx.new }
        ensures freed { IsTrue keeps.freed
            → FindsPlace Self.From.Tx (received self.old) tx.old tx.new };

    /// Nobody is beside the box any longer: no sender is shown. Takes no memory.
    fn apart(&mut self)
        ensures key { key self.new ≡ key self.old }
        ensures received { received self.new ≡ received self.old }
        ensures answers { answers self.new ≡ answers self.old }
        ensures about { AllPart (about self.old) (about self.new) };
}
