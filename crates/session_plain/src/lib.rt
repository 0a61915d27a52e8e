//! Sessions that keep nothing back but a transaction's puts: eventual ones, and committed ones.
//!
//! An eventual session sends each put at once, and asks one replica for what it gets. A committed one does
//! the same outside a transaction; between `begin` and `commit` its puts are held, and go out at the
//! commit, at one Lamport number. What the proxies do and promise is said once, in `session_proxy`.
#![tactic(auto)]

ghost use Rattle.session_known.specs.declared.script.Level.TheVariants as levels;

use session_known::Level;
pub use session_proxy::Progress;
use session_proxy::{Consistency, ProxyOver};
use store_msg::Mail;

/// The level of eventual sessions.
#[derive(Drop)]
pub struct EventualLevel;

impl Consistency for EventualLevel {
    ghost level = { levels.Eventual };

    fn level() -> Level {
        Level::Eventual
    }
}

/// The level of committed sessions.
#[derive(Drop)]
pub struct CommittedLevel;

impl Consistency for CommittedLevel {
    ghost level = { levels.Committed };

    fn level() -> Level {
        Level::Committed
    }
}

/// The proxy of an eventual session over one kind of mail.
pub type Eventual<P> = ProxyOver<EventualLevel, <P as Mail>::ReqTx, <P as Mail>::RepRx>;

/// The proxy of a committed session over one kind of mail.
pub type Committed<P> = ProxyOver<CommittedLevel, <P as Mail>::ReqTx, <P as Mail>::RepRx>;
