//! Sessions that see all that what they saw depends on: causal ones.
//!
//! A put of a causal session carries all that the session knows, and a reply to it must cover all that it
//! knows of the key: it asks the session's home and then the other replicas, round and round, at most 8
//! times each. What the proxy does and promises is said in `session_proxy`.
#![tactic(auto)]

ghost use Rattle.session_known.specs.declared.script.Level.TheVariants as levels;

use session_known::Level;
use session_proxy::{Consistency, ProxyOver};
use store_msg::Mail;

/// The level of causal sessions.
#[derive(Drop)]
pub struct CausalLevel;

impl Consistency for CausalLevel {
    ghost level = { levels.Causal };

    fn level() -> Level {
        Level::Causal
    }
}

/// The proxy of a causal session over one kind of mail.
pub type Causal<P> = ProxyOver<CausalLevel, <P as Mail>::ReqTx, <P as Mail>::RepRx>;
