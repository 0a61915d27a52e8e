//! Gossip of a worker (Demers et al. 1987; Wu, Faleiro, Lin, Hellerstein 2018): which keys changed for which
//! mate, and the batches of a round.
//!
//! A [`Changeset`] has, for each mate of a worker, the keys that changed since the mate was last told of them.
//! [`gossip`] makes a round: it tells each mate of its changed keys, up to 16 of them a batch, with the present
//! own cells of the worker's private map. A key stays changed where its batch found no place.
//!
//! `specs/Batches.antt` says what the batches of a round hold, which keys went out and which are left over, and
//! what the senders' room says of it; `specs/Telling.antt` what a round does by its answer.
//!
//! The crate names no worker. It stands on `merge_world` for the private map, and on `mail_contract` and
//! `store_msg` for senders and batches.
#![tactic(auto)]

mod changeset;
mod rounds;

pub use changeset::Changeset;
pub use rounds::gossip;
