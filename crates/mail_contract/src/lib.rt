//! Mail between the parties of a store: one contract for the ends of all of them.
//!
//! A party sends through a [`Tx`], and receives from any number of senders through an [`Rx`], or
//! through a [`GossipRx`] where neither order nor repetition matters (gossip: Demers et al. 1987; in
//! Anna, Wu, Faleiro, Lin, Hellerstein 2018). What an end has sent, received or handed out are lists
//! that contracts see and that only grow, so that a layer above can be proved over lists alone, over
//! whatever carries the messages.
#![tactic(auto)]

mod boxes;
mod gathered;
mod gossip;
mod lane;
mod laws;
mod parcels;
mod posts;
mod rx;
mod scramble;
mod tx;

ghost use Rattle.std.specs.Prelude.{◌≡◌, IfOk};

pub use boxes::{deliver, settle_one, settle_weak, take_one, take_weak};
pub use gathered::Gathered;
pub use gossip::GossipRx;
pub use lane::Lane;
use lattice_laws::NoMemory;
pub use laws::{answers_are_counted, scrambles_fill, senders_stay_due, senders_take_turns};
pub use parcels::{Parcel, ParcelFault, PlainLane, PlainRx, PlainTx, plain};
pub use posts::{parcel_of, post};
pub use rx::Rx;
pub use scramble::{Draws, Scramble, next_of};
pub use tx::Tx;

/// What is sent. A message is its own plain value.
pub trait Message: Sized + Drop {
    /// An equal message.
    fn copy(&self) -> Result<Self, NoMemory>
        ensures { IfOk result (λ message. message ≡ self.now) };
}

/// Why a message was not sent. It comes back.
#[derive(Debug, Drop)]
pub enum Refused<M> {
    /// There was no memory for it.
    NoMemory(M),
    /// There was no place for it.
    Full(M),
}
