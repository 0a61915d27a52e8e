//! A session's proxy: the client of the store, which keeps its own consistency.
//!
//! A proxy goes through the lines of one session. It numbers its puts and sends each to the session's home
//! of the key, holds a transaction's puts back until the commit, and asks for what a get or an await
//! wants: in a causal session the replicas in turn, until a reply covers what the session knows, at most 8
//! times each; else one worker, once. A call of [`ProxyOver::poll`] makes one step and waits for nobody,
//! so that a driver can run any number of sessions and workers beside each other. Workers do not
//! coordinate for a level of consistency; it is chosen here (Wu, Faleiro, Lin, Hellerstein 2018).
//!
//! The definitions in `specs/`: `specs/Lines.antt` what a line asks of the workers, `specs/Run.antt` how the
//! replies to its asks make its answer, `specs/Share.antt` what holds after every call, from the session's
//! own ends alone, and `specs/Polls.antt` what a call does and why it answers what it answers. What a
//! session knows, and how a put is made of it, stand in `session_known`.
//!
//! The crate stands on `session_known` and `store_msg`. The levels have their names in `session_plain` and
//! `session_causal`.
#![tactic(auto)]

mod answering;
mod asks;
mod consistency;
mod laws;
mod local;
mod plain;
mod progress;
mod proxy;
mod puts;
mod steps;

pub use consistency::Consistency;
pub use laws::requests_are_few;
pub use progress::Progress;
pub use proxy::ProxyOver;
