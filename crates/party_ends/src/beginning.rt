//! All parties of a run, before their first step.
ghost use Rattle.std.specs.Prelude.{◌≡◌, ◌<◌, false, All, length, map, IfOk};
ghost use Rattle.party_ends.specs.OverBoxes as over;
ghost use Rattle.party_ends.specs.Parties.{AreMadeOf, AreUnusedOfSession, IsNewSession, IsNewWorker, IsUnused};
ghost use Rattle.parties.specs.Session.{proxy_of};
ghost use Rattle.placement.specs.Config.{placed};
ghost use Rattle.session_known.specs.Script.{IsValidScript};

use crate::{MakesPost, all_ends};
use lattice_laws::{Items, NoMemory};
use mail_contract::{GossipRx, Rx, Tx};
use parties::{Parties, Run, SessionOver};
use placement::Placement;
use session_known::{Line, Script};
use std::alloc::Global;
use store_msg::{Batch, Reply, Request, SessionEndsOver, WorkerEndsOver};
use worker_core::WorkerOver;

/// The worker of a script at a place, from 0, over its ends.
fn new_worker<Q: Rx<Request>, T: Tx<Reply>, O: Tx<Batch>, G: GossipRx<Batch, From = O>>(
    alloc: Global,
    script: &Script,
    placement: &Placement,
    place: usize,
    ends: WorkerEndsOver<Q, T, O, G>,
) -> Result<WorkerOver<Q, T, O, G>, NoMemory>
    requires valid { IsValidScript script.now placement.now }
    requires within { place < script.now.config.workers }
    requires unused { IsUnused Q.Rx T.Tx O.Tx G.GossipRx script.now.config.workers ends }
    ensures { IfOk result (IsNewWorker script.now placement.now place ends) }
{
    let kinds = Items::new(script.kinds.as_slice().to_vec(alloc)?);
    WorkerOver::new(
        place as u16 + 1,
        script.round,
        placement.copy()?,
        kinds,
        ends,
    )
}

/// The workers of a script, each over the ends at its place.
fn new_workers<Q: Rx<Request>, T: Tx<Reply>, O: Tx<Batch>, G: GossipRx<Batch, From = O>>(
    alloc: Global,
    script: &Script,
    placement: &Placement,
    ends: Vec<WorkerEndsOver<Q, T, O, G>>,
) -> Result<Vec<WorkerOver<Q, T, O, G>>, NoMemory>
    requires valid { IsValidScript script.now placement.now }
    requires many { length ends.items ≡ script.now.config.workers }
    requires unused { All (IsUnused Q.Rx T.Tx O.Tx G.GossipRx script.now.config.workers)
        ends.items }
    ensures { IfOk result (λ workers. AreMadeOf (IsNewWorker script.now placement.now)
        ends.items workers.items) }
{
    let mut workers = Vec::new(alloc);
    for its in ends {
        let place = workers.len();
        workers.push(new_worker(alloc, script, placement, place, its)?)?;
    }
    Ok(workers)
}

/// Equal lines, in the same order.
fn copy_lines(alloc: Global, lines: &[Line]) -> Result<Items<Line>, NoMemory>
    ensures { IfOk result (λ copies. copies ≡ lines.now) }
{
    let mut copies = Items::new(Vec::new(alloc));
    for line in lines {
        copies.push(line.copy()?)?;
    }
    Ok(copies)
}

/// The session of a script at a place, from 0, over its ends.
fn new_session<S: Tx<Request>, R: Rx<Reply>>(
    alloc: Global,
    script: &Script,
    placement: &Placement,
    place: usize,
    ends: SessionEndsOver<S, R>,
) -> Result<SessionOver<S, R>, NoMemory>
    requires valid { IsValidScript script.now placement.now }
    requires within { place < length script.now.sessions }
    requires unused { AreUnusedOfSession S.sent R.received script.now.config.workers ends }
    ensures { IfOk result (λ session. IsNewSession S.sent R.received
        script.now placement.now place ends (proxy_of session)) }
{
    let plan = &script.sessions.as_slice()[place];
    let lines = copy_lines(alloc, plan.lines.as_slice())?;
    let copy = placement.copy()?;
    SessionOver::new(place as u16 + 1, plan.level, plan.after, lines, copy, ends)
}

/// The sessions of a script, each over the ends at its place.
fn new_sessions<S: Tx<Request>, R: Rx<Reply>>(
    alloc: Global,
    script: &Script,
    placement: &Placement,
    ends: Vec<SessionEndsOver<S, R>>,
) -> Result<Vec<SessionOver<S, R>>, NoMemory>
    requires valid { IsValidScript script.now placement.now }
    requires many { length ends.items ≡ length script.now.sessions }
    requires unused { All (AreUnusedOfSession S.sent R.received script.now.config.workers)
        ends.items }
    ensures { IfOk result (λ sessions. AreMadeOf
        (IsNewSession S.sent R.received script.now placement.now)
        ends.items (map proxy_of sessions.items)) }
{
    let mut sessions = Vec::new(alloc);
    for its in ends {
        let place = sessions.len();
        sessions.push(new_session(alloc, script, placement, place, its)?)?;
    }
    Ok(sessions)
}

/// The parties of a run of a script, before their first step. After `NoMemory` all is dropped.
pub fn new_parties<P: MakesPost>(
    post: &P,
    alloc: Global,
    script: &Script,
) -> Result<Parties<P>, NoMemory>
    requires { IsValidScript script.now (placed script.now.config) }
    ensures running { IfOk result (⟦<Parties<P> as Run>⟧.are_running script.now) }
    ensures none_kept { IfOk result ⟦<Parties<P> as Run>⟧.none_kept }
    ensures none_waits { IfOk result (λ parties. All (λ proxy. proxy.course.waits ≡ false)
        (map proxy_of parties.sessions.items)) }
    ensures made_with { IfOk result (λ parties. over.AreNumbered P.GosRx.GossipRx
        (P.numbers post.now) (λ worker. worker.ends.gossip_in) parties.workers.items) }
{
    let placement = Placement::build(alloc, &script.config)?;
    let many = script.sessions.as_slice().len() as u16;
    let (workers, sessions) = all_ends(post, alloc, script.config.workers, many)?;
    let workers = new_workers(alloc, script, &placement, workers)?;
    let sessions = new_sessions(alloc, script, &placement, sessions)?;
    Ok(Parties { workers, sessions })
}
