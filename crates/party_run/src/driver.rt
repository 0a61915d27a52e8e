//! The rounds of a run: an epoch, and a sweep over all parties after it.
ghost use Rattle.std.specs.Prelude.{◌≡◌, ◌+◌, ◌≤◌, ℕ, false, sum_by, IfOk, IsTrue, OnOk};
ghost use Rattle.drain_ledger.specs.OverBoxes as boxes;
ghost use Rattle.drain_ledger.specs.Ready.{FreesPlaces};
ghost use Rattle.parties.specs.Sweeping.{AllAwait, AllToAsks, AreAnswered, EachMoves, FreeBoth, HasBegun, WaitsForOther};
ghost use Rattle.party_ends.specs.OverBoxes as made;
ghost use Rattle.placement.specs.Config.{placed};
ghost use Rattle.run_measure.specs.Steps.{done};
ghost use Rattle.parties.specs.Told.{AreAllTold};
ghost use Rattle.session_known.specs.Script.{IsValidScript};

use crate::finishing::finish_run;
use crate::sweeping::sweep;
use drain_ledger::{Drained, drain};
use lattice_laws::NoMemory;
use parties::{Parties, Run};
use party_ends::{MakesPost, new_parties};
use party_epochs::{Gate, run_epoch};
use party_turns::ByMeasure;
use session_known::Script;
use std::alloc::Global;
use std::thread::Threads;
use store_msg::Mail;

/// Serves a script over some kind of mail, and drains the run. After `NoMemory` all is dropped.
pub fn serve_with<P: MakesPost, E: Gate + Sync, H: Threads + Sync>(
    rt: &H,
    gate: &E,
    post: &P,
    alloc: Global,
    script: &Script,
) -> Result<Drained<P>, NoMemory>
where
    P::ReqTx: Send,
    P::ReqRx: Send,
    P::RepTx: Send,
    P::RepRx: Send,
    P::GosTx: Send,
    P::GosRx: Send,
    requires free { FreeBoth P.ReqRx.keeps P.RepRx.keeps }
    requires finite { IsTrue P.GosRx.keeps.finite }
    requires room { FreesPlaces P.GosRx.keeps }
    requires valid { IsValidScript script.now (placed script.now.config) }
    ensures drained { IfOk result (λ drained. boxes.IsDrained P.ReqRx.Rx P.GosRx.GossipRx P.RepRx.Rx
        script.now drained.report drained.workers.items drained.replies.items) }
    ensures made_with { IfOk result (λ drained. made.AreNumbered P.GosRx.GossipRx
        (P.numbers post.now) (λ its. its.gossip_in) drained.workers.items) }
{
    let mut parties = new_parties(post, alloc, script)?;
    run_rounds(rt, gate, alloc, &mut parties)?;
    let (workers, left) = finish_run(script, parties)?;
    drain(&ByMeasure, script, workers, left)
}

/// Makes rounds until every line of every session is answered.
///
/// In each round every session moves that has begun and has a line not answered, and where all of these have ended
/// one begins, if any waits: so what is left to do falls in each, and the rounds end.
pub fn run_rounds<P: Mail, E: Gate + Sync, H: Threads + Sync>(
    rt: &H,
    gate: &E,
    alloc: Global,
    parties: &mut Parties<P>,
) -> Result<(), NoMemory>
where
    P::ReqTx: Send,
    P::ReqRx: Send,
    P::RepTx: Send,
    P::RepRx: Send,
    P::GosTx: Send,
    P::GosRx: Send,
    requires free { FreeBoth P.ReqRx.keeps P.RepRx.keeps }
    requires finite { IsTrue P.GosRx.keeps.finite }
    requires running { ⟦<Parties<P> as Run>⟧.is_running parties.old }
    requires none_kept { ⟦<Parties<P> as Run>⟧.none_kept parties.old }
    requires await_theirs { AllAwait (⟦<Parties<P> as Run>⟧.session_lists parties.old) }
    ensures steps { OnOk result (⟦<Parties<P> as Run>⟧.step_on parties.old parties.new) }
    ensures ended { OnOk result (AreAnswered (⟦<Parties<P> as Run>⟧.session_lists parties.new)) }
    ensures told { OnOk result (AreAllTold (⟦<Parties<P> as Run>⟧.worker_lists parties.new)
        (⟦<Parties<P> as Run>⟧.session_lists parties.new)) }
{
    let mut turns = Vec::new(alloc);
    parties.show_all();
    while !round(rt, gate, &mut turns, parties)? {}
    Ok(())
}

/// Makes one round: an epoch, and a sweep after it. Tells whether every session has ended.
///
/// Each session that has begun answers a line, sends a request or takes a reply in it, or every line of it is answered.
/// And each that waits after it does so for one that has not ended.
pub fn round<P: Mail, E: Gate + Sync, H: Threads + Sync>(
    rt: &H,
    gate: &E,
    turns: &mut Vec<u64>,
    parties: &mut Parties<P>,
) -> Result<bool, NoMemory>
where
    P::ReqTx: Send,
    P::ReqRx: Send,
    P::RepTx: Send,
    P::RepRx: Send,
    P::GosTx: Send,
    P::GosRx: Send,
    requires free { FreeBoth P.ReqRx.keeps P.RepRx.keeps }
    requires finite { IsTrue P.GosRx.keeps.finite }
    requires running { ⟦<Parties<P> as Run>⟧.is_running parties.old }
    requires none_kept { ⟦<Parties<P> as Run>⟧.none_kept parties.old }
    requires await_theirs { AllAwait (⟦<Parties<P> as Run>⟧.session_lists parties.old) }
    requires to_asks { AllToAsks (⟦<Parties<P> as Run>⟧.session_lists parties.old) }
    ensures steps { OnOk result (⟦<Parties<P> as Run>⟧.step_on parties.old parties.new) }
    ensures moved { OnOk result (EachMoves (HasBegun (⟦<Parties<P> as Run>⟧.session_lists parties.old))
        (⟦<Parties<P> as Run>⟧.session_lists parties.old)
        (⟦<Parties<P> as Run>⟧.session_lists parties.new)) }
    ensures waits { OnOk result ((at : ℕ)
        → WaitsForOther (⟦<Parties<P> as Run>⟧.session_lists parties.new) at) }
    ensures done { IfOk result (λ ended. ended ≡ false
        → sum_by done (⟦<Parties<P> as Run>⟧.session_lists parties.old) + 1
        ≤ sum_by done (⟦<Parties<P> as Run>⟧.session_lists parties.new)) }
    ensures ended { IfOk result (λ ended. IsTrue ended
        → AreAnswered (⟦<Parties<P> as Run>⟧.session_lists parties.new)) }
    ensures told { OnOk result (AreAllTold (⟦<Parties<P> as Run>⟧.worker_lists parties.new)
        (⟦<Parties<P> as Run>⟧.session_lists parties.new)) }
    ensures await_theirs { OnOk result
        (AllAwait (⟦<Parties<P> as Run>⟧.session_lists parties.new)) }
    ensures to_asks { OnOk result (AllToAsks (⟦<Parties<P> as Run>⟧.session_lists parties.new)) }
{
    parties.part_all();
    let came = run_epoch(rt, gate, turns, parties)?;
    sweep(&came, parties)
}
