//! The box of one sender, of which boxes of several are made.
ghost use Rattle.std.specs.Prelude.{◌≡◌, ℕ, ◌≤◌, IsFalse, IsTrue};
ghost use Rattle.mail_contract.specs.Beside.{FindsPlaceBy, LearnsUnseenBy};
ghost use Rattle.mail_contract.specs.Lanes.{Lane as Taken, Drew, IsDry, IsGiven, OnDrawn, OnDry, lane_apart, with_sender};
ghost use Rattle.mail_contract.specs.Parts.{Parts};
ghost use Rattle.mail_contract.specs.Standing.{Shown, IsSettled};
ghost use Rattle.mail_contract.specs.Takes.{IsFront};

use crate::Tx;
use lattice_laws::NoMemory;

/// The box of one sender.
///
/// Its parts mean what those of an [`Rx`](crate::Rx) mean. Whether a box of lanes advances, and whether its
/// lanes take turns, goes by whether they are complete and exact.
pub trait Lane<M>: Drop {
    /// The end of its sender.
    type From: Tx<M>;

    /// What no call changes. No value of it is made.
    type Key;

    // It tells which sender belongs to the box.
    ghost key: { Self → Self.Key };

    ghost pairs: { Self.Key → Self.From.Key → Type 0 };

    ghost lane: { Self → Taken M };

    ghost keeps: { Parts };

    /// Takes the sender's next message. `NoMemory` takes nothing.
    fn draw(&mut self) -> Result<Option<M>, NoMemory>
        ensures key { key self.new ≡ key self.old }
        ensures lane { Drew result (lane self.old) (lane self.new) }
        ensures given { OnDrawn result (IsGiven keeps (lane self.old) (lane self.new)) }
        ensures dry { OnDry result (IsDry keeps (lane self.new)) };

    /// Takes in its sender, which has ended. Takes no memory.
    fn end(&mut self, ended: Self::From)
        requires pair { pairs (key self.old) (Self.From.key ended) }
        requires once { IsSettled (lane self.old).standing → ⊥ }
        ensures key { key self.new ≡ key self.old }
        ensures lane { lane self.new ≡ with_sender (Self.From.sent ended) (lane self.old) }
        ensures told { IsFront (lane self.old).taken (Self.From.sent ended) };

    /// Holds its sender beside it. Takes no memory.
    fn show(&mut self, tx: &mut Self::From)
        requires { pairs (key self.old) (Self.From.key tx.old) }
        ensures key { key self.new ≡ key self.old }
        ensures taken { (lane self.new).taken ≡ (lane self.old).taken }
        ensures still { IsFalse keeps.shows → lane self.new ≡ lane self.old }
        ensures tx_key { Self.From.key tx.new ≡ Self.From.key tx.old }
        ensures tx_number { Self.From.number tx.new ≡ Self.From.number tx.old }
        ensures tx_sent { Self.From.sent tx.new ≡ Self.From.sent tx.old }
        ensures tx_fulls { Self.From.fulls tx.new ≡ Self.From.fulls tx.old }
        ensures shown { IsTrue keeps.shows
            → (lane self.new).standing ≡ Shown (Self.From.sent tx.old) }
        ensures left { IsTrue keeps.shows → (lane self.new).left ≤ 64 }
        ensures met { IsTrue (lane self.new).met }
        ensures told { IsTrue keeps.complete
            → IsFront (lane self.old).taken (Self.From.sent tx.old) }
        ensures roomy { IsTrue keeps.roomy
            → LearnsUnseenBy Self.From.Tx (lane self.old).taken tx.old tx.new }
        ensures freed { IsTrue keeps.freed
            → FindsPlaceBy Self.From.Tx (lane self.old).taken tx.old tx.new };

    /// Its sender is no longer beside it. Takes no memory.
    fn part(&mut self)
        ensures key { key self.new ≡ key self.old }
        ensures lane { lane self.new ≡ lane_apart (lane self.old) };
}
