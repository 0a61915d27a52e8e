//! The end of a sender.
ghost use Rattle.std.specs.Prelude.{◌≡◌, ℕ, ◌+◌, ◌≤◌, Bool, IsTrue, List, min};
ghost use Rattle.lattice_laws.specs.Counts.{one_more};
ghost use Rattle.mail_contract.specs.Sends.{Sent, OnSent, OnRefused, OnFull, NotFull};

use crate::Refused;

/// The end of a sender.
pub trait Tx<M>: Drop {
    /// What no call changes. No value of it is made.
    type Key;

    // It tells which box the sender belongs to.
    ghost key: { Self → Self.Key };

    // The sender's number at its box, from 1.
    ghost number: { Self → ℕ };

    // All that was sent, in order.
    ghost sent: { Self → List M };

    // How often a send was refused for want of a place, counted up to the greatest number of a u64.
    ghost fulls: { Self → ℕ };

    // Whether a place is wanting only where 64 messages or more may take one up.
    ghost roomy: { Bool };

    // How many may, at most 64.
    ghost unseen: { Self → ℕ };

    // The next message finds a place.
    ghost clear: { Self → Type 0 };

    /// The sender's number at its box, from 1. Takes no memory.
    fn sender(&self) -> u16
        ensures { result ≡ number self.now };

    /// Sends a message. A refusal hands it back, and nothing was sent.
    fn send(&mut self, message: M) -> Result<(), Refused<M>>
        ensures key { key self.new ≡ key self.old }
        ensures number { number self.new ≡ number self.old }
        ensures sent { Sent result message (sent self.old) (sent self.new) }
        ensures fulls { OnFull result ((fulls self.old ≤ fulls self.new)
            × (fulls self.new ≡ one_more (fulls self.old))) }
        ensures not_full { NotFull result (fulls self.new ≡ fulls self.old) }
        ensures not_clear { OnFull result (clear self.old → ⊥) }
        ensures no_room { IsTrue roomy → OnFull result (64 ≤ unseen self.old) }
        ensures unseen { IsTrue roomy
            → OnSent result (unseen self.new ≡ min 64 (unseen self.old + 1)) }
        ensures still_unseen { OnRefused result (unseen self.new ≡ unseen self.old) }
        ensures still_clear { OnRefused result (clear self.old → clear self.new) };
}
