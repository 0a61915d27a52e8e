//! How a box and its senders are made.
ghost use Rattle.std.specs.Prelude.{◌≡◌, ℕ, ◌≤◌, List, IfOk};
ghost use Rattle.party_ends.specs.OverBoxes as over;

use lattice_laws::NoMemory;
use mail_contract::{GossipRx, Rx};
use std::alloc::Global;
use store_msg::{Batch, Mail, Reply, Request};

/// Makes boxes of one kind of mail.
pub trait MakesMail<M> {
    /// The end of a receiver.
    type Mailbox: Rx<M>;

    /// A box and so many senders, at least one, which are numbered from 1 in the order of the vector.
    fn make(
        &self,
        alloc: Global,
        senders: u16,
    ) -> Result<(Vec<<Self::Mailbox as Rx<M>>::From>, Self::Mailbox), NoMemory>
        requires { 1 ≤ senders }
        ensures { IfOk result (λ ends. over.IsFresh Self.Mailbox.From.Tx Self.Mailbox.Rx
            senders ends.0.items ends.1) };
}

/// Makes weak boxes of one kind of mail.
pub trait MakesGossip<M> {
    /// The weak end of a receiver.
    type Mailbox: GossipRx<M>;

    // The numbers that the box of an owner, from 1, is made with.
    ghost numbers: { Self → ℕ → List ℕ };

    /// A weak box of the party of this number, from 1, and so many senders, at least one, which are numbered
    /// from 1 in the order of the vector.
    fn make_weak(
        &self,
        alloc: Global,
        owner: u16,
        senders: u16,
    ) -> Result<(Vec<<Self::Mailbox as GossipRx<M>>::From>, Self::Mailbox), NoMemory>
        requires { 1 ≤ senders }
        ensures fresh { IfOk result (λ ends. over.IsFreshWeak
            Self.Mailbox.From.Tx Self.Mailbox.GossipRx senders ends.0.items ends.1) }
        ensures made_with { IfOk result (λ ends.
            Self.Mailbox.made_with (Self.Mailbox.key ends.1) ≡ numbers self.now owner) };
}

/// A kind of mail whose boxes can be made, for each of the three ways of a store.
pub trait MakesPost: Mail
    + MakesMail<Request, Mailbox = <Self as Mail>::ReqRx>
    + MakesMail<Reply, Mailbox = <Self as Mail>::RepRx>
    + MakesGossip<Batch, Mailbox = <Self as Mail>::GosRx> {}
