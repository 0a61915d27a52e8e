//! A script is served for as long as it takes, over any ends.
ghost use Rattle.std.specs.Prelude.{IfOk, OnOk};
ghost use Rattle.drain_ledger.specs.OverBoxes as boxes;
ghost use Rattle.parties.specs.Sweeping.{AreAnswered};
ghost use Rattle.party_ends.specs.OverBoxes as made;
ghost use Rattle.placement.specs.Config.{placed};
ghost use Rattle.session_known.specs.Script.{IsValidScript};

use crate::finishing::finish_run;
use crate::sweeping::{begin_sessions, poll_sessions};
use drain_ledger::{Drained, drain};
use lattice_laws::NoMemory;
use parties::{Parties, Run};
use party_ends::{MakesPost, new_parties};
use party_epochs::{Gate, run_epoch};
use party_turns::Waiting;
use session_known::Script;
use std::alloc::Global;
use std::sync::Wait;
use std::thread::Threads;
use store_msg::Mail;

/// Serves a script over any kind of mail, and drains the run. It may wait, and what it promises holds if it returns.
/// After `NoMemory` all is dropped.
pub fn serve_waiting<P: MakesPost, E: Gate + Sync, H: Threads + Sync, W: Wait>(
    rt: &H,
    by: &Waiting<W>,
    gate: &E,
    post: &P,
    alloc: Global,
    script: &Script,
) -> Result<Drained<P>, NoMemory>
where
    P::ReqTx: Send,
    P::ReqRx: Send,
    P::RepTx: Send,
    P::RepRx: Send,
    P::GosTx: Send,
    P::GosRx: Send,
    requires valid { IsValidScript script.now (placed script.now.config) }
    ensures drained { IfOk result (λ drained. boxes.IsDrained P.ReqRx.Rx P.GosRx.GossipRx P.RepRx.Rx
        script.now drained.report drained.workers.items drained.replies.items) }
    ensures made_with { IfOk result (λ drained. made.AreNumbered P.GosRx.GossipRx
        (P.numbers post.now) (λ its. its.gossip_in) drained.workers.items) }
{
    let mut parties = new_parties(post, alloc, script)?;
    run_epochs(rt, by, gate, alloc, &mut parties)?;
    let (workers, left) = finish_run(script, parties)?;
    drain(by, script, workers, left)
}

/// Makes epochs, and polls all sessions that have begun after each, until every line of every session is answered. It
/// may wait.
fn run_epochs<P: Mail, E: Gate + Sync, H: Threads + Sync, W: Wait>(
    rt: &H,
    by: &Waiting<W>,
    gate: &E,
    alloc: Global,
    parties: &mut Parties<P>,
) -> Result<(), NoMemory>
where
    P::ReqTx: Send,
    P::ReqRx: Send,
    P::RepTx: Send,
    P::RepRx: Send,
    P::GosTx: Send,
    P::GosRx: Send,
    ensures steps { OnOk result (⟦<Parties<P> as Run>⟧.step_on parties.old parties.new) }
    ensures ended { OnOk result (AreAnswered (⟦<Parties<P> as Run>⟧.session_lists parties.new)) }
{
    let mut turns = Vec::new(alloc);
    for _ in by.0.forever() {
        run_epoch(rt, gate, &mut turns, parties)?;
        if poll_sessions(&[], parties)? {
            return Ok(());
        }
        begin_sessions(parties)?;
    }
    unreachable!()
}
