//! The weak end of a receiver.
ghost use Rattle.std.specs.Prelude.{◌≡◌, ℕ, ◌+◌, ◌≤◌, Bool, IsOk, IsTrue, List, Option, Result};
ghost use Rattle.lattice_laws.specs.declared.lattice.NoMemory.{NoMemory};
ghost use Rattle.mail_contract.specs.Beside.{FindsPlaceWeak, HasSent, IsLearned, IsTakenIn, LearnsUnseenWeak, LeavesWeak};
ghost use Rattle.mail_contract.specs.Got.{HandedOut, HandsOutShown, StayOfSent, AreAllOfSent, StayDue, AreDueHandedOut};
ghost use Rattle.mail_contract.specs.Parts.{Parts};
ghost use Rattle.mail_contract.specs.Standing.{About, IsSettled, AllPart, AllStand, AreMet, NoMoreLeft, OthersStay, StillAll, most_of_left};
ghost use Rattle.mail_contract.specs.Takes.{Answers, OnSome, OnNone, Counted, IsNothingLeft, LeftFalls};

use crate::Tx;
use lattice_laws::NoMemory;

/// The weak end of a receiver: messages come in any order, and may come again.
pub trait GossipRx<M>: Drop {
    /// The end of its senders.
    type From: Tx<M>;

    /// What no call changes. No value of it is made.
    type Key;

    // It tells which senders belong to the box.
    ghost key: { Self → Self.Key };

    // The box and a sender of this number are of one making.
    ghost pairs: { Self.Key → Self.From.Key → ℕ → Type 0 };

    // How many senders there are: their numbers go from 1 up to it.
    ghost senders: { Self.Key → ℕ };

    // The numbers that the box was made with.
    ghost made_with: { Self.Key → List ℕ };

    // At a sender's number and a place in what it sent, the message that was handed out.
    ghost got: { Self → ℕ → ℕ → Option M };

    ghost answers: { Self → Answers };

    ghost about: { Self → ℕ → About M };

    // Of a sender: nothing is found only where all came that it had sent when it was last beside the
    // box. So it is from then on, until such a message comes that was missing.
    ghost due: { Self → ℕ → Bool };

    // How often a message is handed out at most before nothing is found, where every sender is met.
    ghost most: { Self → ℕ };

    ghost keeps: { Parts };

    // What a take of this kind of box tells besides.
    ghost besides: { Result (Option (ℕ × M)) NoMemory → Self → Self → Type 0 };

    /// Hands out a message, with its sender's number. It may have been handed out before.
    /// `NoMemory` hands out nothing.
    fn take(&mut self) -> Result<Option<(u16, M)>, NoMemory>
        ensures key { key self.new ≡ key self.old }
        ensures sender { OnSome result (λ sender _.
            (1 ≤ sender) × (sender ≤ senders (key self.old))) }
        ensures got { HandedOut result (got self.old) (got self.new) }
        ensures answers { Counted result (answers self.old) (answers self.new) }
        ensures standing { AllStand (about self.old) (about self.new) }
        ensures told { StayOfSent keeps.complete got about self.old self.new }
        ensures none { OnNone result
            (AreAllOfSent keeps.complete (got self.new) (about self.new)) }
        ensures bounded { IsTrue keeps.bounded
            → HandsOutShown result (got self.new) (about self.new) }
        ensures at_most_left { IsTrue keeps.bounded → IsTrue keeps.finite
            → LeftFalls result (about self.old) (about self.new) }
        ensures left { IsTrue keeps.finite → NoMoreLeft (about self.old) (about self.new) }
        ensures most { IsTrue keeps.finite → AreMet (senders (key self.old)) (about self.old)
            → most self.new ≤ most self.old }
        ensures falls { IsTrue keeps.finite → AreMet (senders (key self.old)) (about self.old)
            → OnSome result (λ _ _. most self.new + 1 ≤ most self.old) }
        ensures exact { IsTrue keeps.exact → OnNone result (IsNothingLeft (about self.new)) }
        ensures due { StayDue (got self.old) (got self.new) (about self.old)
            (due self.old) (due self.new) }
        ensures advances { IsTrue keeps.advances
            → OnNone result (AreDueHandedOut (got self.new) (about self.new) (due self.new)) }
        ensures sure { IsTrue keeps.sure → IsOk result }
        ensures besides { besides result self.old self.new };

    /// Takes in a sender that has ended. It tells that each message of it that was handed out was
    /// sent by it. Takes no memory.
    fn settle(&mut self, ended: Self::From)
        requires pair { pairs (key self.old) (Self.From.key ended) (Self.From.number ended) }
        requires once { IsSettled (about self.old (Self.From.number ended)).standing → ⊥ }
        ensures key { key self.new ≡ key self.old }
        ensures got { got self.new ≡ got self.old }
        ensures answers { answers self.new ≡ answers self.old }
        ensures others { OthersStay (Self.From.number ended) (about self.old) (about self.new) }
        ensures settled { IsTakenIn Self.From.Tx ended (about self.new) }
        ensures met { IsTrue (about self.new (Self.From.number ended)).met }
        ensures told { HasSent Self.From.Tx ended (got self.old) }
        ensures left { IsTrue keeps.finite
            → LeavesWeak Self.From.Tx ended (got self.old) (about self.new) }
        ensures most { IsTrue keeps.finite
            → most self.new ≤ most_of_left (senders (key self.old)) (about self.new) }
        ensures still_due { StillAll (due self.old) (due self.new) };

    /// Holds a sender beside the box, so that each learns what the other has. Takes no memory.
    fn beside(&mut self, tx: &mut Self::From)
        requires { pairs (key self.old) (Self.From.key tx.old) (Self.From.number tx.old) }
        ensures key { key self.new ≡ key self.old }
        ensures got { got self.new ≡ got self.old }
        ensures answers { answers self.new ≡ answers self.old }
        ensures learned { IsLearned Self.From.Tx keeps tx.old (about self.old) (about self.new) }
        ensures tx_key { Self.From.key tx.new ≡ Self.From.key tx.old }
        ensures tx_number { Self.From.number tx.new ≡ Self.From.number tx.old }
        ensures tx_sent { Self.From.sent tx.new ≡ Self.From.sent tx.old }
        ensures tx_fulls { Self.From.fulls tx.new ≡ Self.From.fulls tx.old }
        ensures most { IsTrue keeps.finite
            → most self.new ≤ most_of_left (senders (key self.old)) (about self.new) }
        ensures due { IsTrue (due self.new (Self.From.number tx.old)) }
        ensures still_due { StillAll (due self.old) (due self.new) }
        ensures told { IsTrue keeps.complete → HasSent Self.From.Tx tx.old (got self.old) }
        ensures roomy { IsTrue keeps.roomy
            → LearnsUnseenWeak Self.From.Tx (got self.old) tx.old tx.new }
        ensures freed { IsTrue keeps.freed
            → FindsPlaceWeak Self.From.Tx (got self.old) tx.old tx.new };

    /// Nobody is beside the box any longer: no sender is shown. Takes no memory.
    fn apart(&mut self)
        ensures key { key self.new ≡ key self.old }
        ensures got { got self.new ≡ got self.old }
        ensures answers { answers self.new ≡ answers self.old }
        ensures about { AllPart (about self.old) (about self.new) };
}
