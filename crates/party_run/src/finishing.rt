//! The sessions of a run whose lines are all answered hand over what they have.
ghost use Rattle.std.specs.Prelude.{◌≡◌, All, IfOk, map};
ghost use Rattle.drain_ledger.specs.Handed.{AreHandedOver};
ghost use Rattle.parties.specs.Polling.{IsAllAnswered, left_by};
ghost use Rattle.parties.specs.Session.{proxy_of};
ghost use Rattle.parties.specs.Sweeping.{AreAnswered};

use lattice_laws::{Items, NoMemory};
use mail_contract::{Rx, Tx};
use parties::{Parties, Run, SessionOver};
use party_turns::Tells;
use session_known::{Answer, Script};
use std::alloc::Global;
use store_msg::{Mail, Reply, Request, SessionEnds, SessionEndsOver};
use worker_core::Worker;

/// The workers of a run of a script whose sessions have ended, and of each session its answers and its ends,
/// as a drain takes them over.
pub(crate) fn finish_run<P: Mail>(
    script: &Script,
    parties: Parties<P>,
) -> Result<(Vec<Worker<P>>, Vec<(Items<Answer>, SessionEnds<P>)>), NoMemory>
    requires running { ⟦<Parties<P> as Run>⟧.are_running script.now parties }
    requires ended { AreAnswered (⟦<Parties<P> as Run>⟧.session_lists parties) }
    ensures workers { IfOk result (λ handed. handed.0 ≡ parties.workers) }
    ensures left { IfOk result (λ handed. handed.1.items
        ≡ map left_by (map proxy_of parties.sessions.items)) }
    ensures run { IfOk result (λ handed. AreHandedOver ⟦<P as Tells>⟧.mail
        script.now handed.0.items handed.1.items) }
{
    let alloc = *parties.sessions.allocator();
    let left = finish_all(alloc, parties.sessions)?;
    Ok((parties.workers, left))
}

/// The answers and the ends of each session.
fn finish_all<S: Tx<Request>, R: Rx<Reply>>(
    alloc: Global,
    sessions: Vec<SessionOver<S, R>>,
) -> Result<Vec<(Items<Answer>, SessionEndsOver<S, R>)>, NoMemory>
    requires { All IsAllAnswered (map proxy_of sessions.items) }
    ensures { IfOk result (λ left. left.items ≡ map left_by (map proxy_of sessions.items)) }
{
    let mut left = Vec::new(alloc);
    for session in sessions {
        left.push(session.finish())?;
    }
    Ok(left)
}
