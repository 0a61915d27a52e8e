//! All parties of a run before their first step, over ends of one making.
//!
//! [`all_ends`] makes the boxes of a run's workers and sessions and hands their senders out: to each
//! session a sender to each worker, to each worker one to each session and one of gossip to each other
//! worker. It works over any kind of mail that can be made, a [`MakesPost`]: a [`MakesMail`] says how one box
//! and its senders are made, a [`MakesGossip`] the same of a weak box, and with which numbers it makes that of
//! each owner. Plain mail is such a kind, for one thread. For threads [`RingPost`] has boxes over rings, a ring
//! for each sender, [`ScrambledPost`] the same with gossip in disorder, and [`QueuePost`] boxes over one queue each,
//! whose calls may wait.
//!
//! [`new_parties`] makes the parties of a valid script: it works out where the keys live, makes all ends,
//! and over them a worker for each of the script's workers and a session for each of its plans. That the
//! run they begin may go on is said in the words of a [`Run`](parties::Run).
//!
//! `specs/Fresh.antt` says what a box and its senders are when they are made, `specs/AllEnds.antt` what all
//! ends are and which numbers weak boxes were made with, `specs/Numbers.antt` which those are for each kind of mail,
//! `specs/Parties.antt` what a worker and a session
//! over them are. `specs/Dealt.antt` has the steps between: the senders of each box are dealt to rows, in
//! which those of one number stand in the order of their boxes.
//!
//! The crate stands on `parties`, which it makes, on `party_turns`, whose words for ends of one making it uses,
//! and on the mail below: `mail_contract` has plain mail, `mail_rings` rings, `mailbox_rule` queues.
#![tactic(auto)]

mod all_parties;
mod assembling;
mod beginning;
mod makes;
mod making;
mod plain;
mod queues;
mod rings;
mod scrambled;
mod settling;

pub use all_parties::all_ends;
pub use beginning::new_parties;
pub use makes::{MakesGossip, MakesMail, MakesPost};
pub use queues::QueuePost;
pub use rings::RingPost;
pub use scrambled::ScrambledPost;

#[cfg(test)]
mod tests;
