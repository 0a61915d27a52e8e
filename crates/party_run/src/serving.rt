//! A script is served over rings.
ghost use Rattle.std.specs.Prelude.{IfOk};
ghost use Rattle.drain_ledger.specs.OverBoxes as boxes;
ghost use Rattle.party_ends.specs.Numbers.{in_order, scrambled_by};
ghost use Rattle.party_ends.specs.OverBoxes as made;
ghost use Rattle.placement.specs.Config.{placed};
ghost use Rattle.session_known.specs.Script.{IsValidScript};

use crate::driver::serve_with;
use drain_ledger::Drained;
use lattice_laws::NoMemory;
use mail_contract::{GossipRx, Rx, Scramble};
use mail_rings::RingRx;
use party_ends::{RingPost, ScrambledPost};
use party_epochs::Gate;
use session_known::Script;
use std::alloc::Global;
use std::thread::Threads;
use store_msg::{Batch, Reply, Request};

/// Serves a script in threads, and drains the run. The gate is called before each turn of each party in an epoch.
/// After `NoMemory` all is dropped.
pub fn serve<E: Gate + Sync, H: Threads + Sync>(
    rt: &H,
    gate: &E,
    alloc: Global,
    script: &Script,
) -> Result<Drained<RingPost>, NoMemory>
    requires { IsValidScript script.now (placed script.now.config) }
    ensures drained { IfOk result (λ drained. boxes.IsDrained ⟦<RingRx<Request> as Rx<Request>>⟧
        ⟦<RingRx<Batch> as GossipRx<Batch>>⟧ ⟦<RingRx<Reply> as Rx<Reply>>⟧
        script.now drained.report drained.workers.items drained.replies.items) }
    ensures made_with { IfOk result (λ drained. made.AreNumbered
        ⟦<RingRx<Batch> as GossipRx<Batch>>⟧ in_order (λ its. its.gossip_in)
        drained.workers.items) }
{
    serve_with(rt, gate, &RingPost, alloc, script)
}

/// The same with gossip in disorder, by a number: the draws of the box of worker `w` begin with it plus `w`, modulo
/// 2^64.
pub fn serve_scrambled<E: Gate + Sync, H: Threads + Sync>(
    rt: &H,
    gate: &E,
    number: u64,
    alloc: Global,
    script: &Script,
) -> Result<Drained<ScrambledPost>, NoMemory>
    requires { IsValidScript script.now (placed script.now.config) }
    ensures drained { IfOk result (λ drained. boxes.IsDrained ⟦<RingRx<Request> as Rx<Request>>⟧
        ⟦<Scramble<Batch, RingRx<Batch>> as GossipRx<Batch>>⟧ ⟦<RingRx<Reply> as Rx<Reply>>⟧
        script.now drained.report drained.workers.items drained.replies.items) }
    ensures made_with { IfOk result (λ drained. made.AreNumbered
        ⟦<Scramble<Batch, RingRx<Batch>> as GossipRx<Batch>>⟧ (scrambled_by number)
        (λ its. its.gossip_in) drained.workers.items) }
{
    serve_with(rt, gate, &ScrambledPost { number }, alloc, script)
}
