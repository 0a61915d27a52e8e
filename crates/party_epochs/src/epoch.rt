//! One epoch of a run.
ghost use Rattle.std.specs.Prelude.{◌≡◌, ◌+◌, ◌++◌, ℕ, length, map, slice_get, IfOk, OnOk, Some};
ghost use Rattle.party_epochs.specs.Pieces.{Pairwise};
ghost use Rattle.party_epochs.specs.Turns.{AreCounted, TakesAtMost, turns_of};
ghost use Rattle.parties.specs.Progress.{HasMovedOn};
ghost use Rattle.party_turns.specs.Places.{EachBecomes};

use crate::parts::{PolledPart, Turned};
use crate::{Activity, Gate, Piece, PolledOver, TurnedOver, run_both};
use lattice_laws::NoMemory;
use mail_contract::{GossipRx, Rx, Tx};
use parties::{Parties, Polled, Run, SessionOver};
use std::alloc::Global;
use std::mem::replace;
use std::thread::Threads;
use store_msg::{Batch, Mail, Reply, Request};
use worker_core::WorkerOver;

/// How many turns the party at a place after the first ones has taken in the epochs before.
fn turns_of(turns: &[u64], first: usize, place: usize) -> u64
    ensures { result ≡ turns_of turns.now (first + place) }
{
    let all = turns.len();
    if all <= first || all - first <= place {
        return 0;
    }
    turns[first + place]
}

/// The number of the party at a place after the first ones.
fn number_of(first: usize, place: usize) -> u16 {
    u16::try_from(first.saturating_add(place)).unwrap_or(u16::MAX)
}

/// The parts of the workers, from party 0 on.
fn parts_of_workers<Q: Rx<Request>, T: Tx<Reply>, O: Tx<Batch>, G: GossipRx<Batch, From = O>>(
    turns: &[u64],
    workers: Vec<WorkerOver<Q, T, O, G>>,
) -> Result<Vec<TurnedOver<Q, T, O, G>>, NoMemory>
    ensures workers { IfOk result (λ parts. map (λ part. part.worker) parts.items ≡ workers.items) }
    ensures counted { IfOk result
        (λ all. AreCounted turns.now 0 (map (λ part. part.turns) all.items)) }
{
    let mut parts = Vec::with_capacity(*workers.allocator(), workers.len())?;
    for worker in workers {
        let place = parts.len();
        parts.push(TurnedOver {
            worker,
            party: number_of(0, place),
            turns: turns_of(turns, 0, place),
        })?;
    }
    Ok(parts)
}

/// The parts of the sessions, after so many workers.
fn parts_of_sessions<S: Tx<Request>, R: Rx<Reply>>(
    turns: &[u64],
    workers: usize,
    sessions: Vec<SessionOver<S, R>>,
) -> Result<Vec<PolledOver<S, R>>, NoMemory>
    ensures sessions { IfOk result (λ parts. map (λ part. part.session) parts.items
        ≡ sessions.items) }
    ensures counted { IfOk result (λ parts. AreCounted turns.now workers
        (map (λ part. part.turns) parts.items)) }
{
    let mut parts = Vec::with_capacity(*sessions.allocator(), sessions.len())?;
    for session in sessions {
        let place = parts.len();
        parts.push(PolledOver {
            session,
            party: number_of(workers, place),
            turns: turns_of(turns, workers, place),
            polled: Polled {
                ended: false,
                moved: false,
                rested: false,
            },
        })?;
    }
    Ok(parts)
}

/// How many turns each worker has taken.
fn counts_of_workers<Q: Rx<Request>, T: Tx<Reply>, O: Tx<Batch>, G: GossipRx<Batch, From = O>>(
    alloc: Global,
    parts: &[TurnedOver<Q, T, O, G>],
) -> Result<Vec<u64>, NoMemory>
    ensures { IfOk result (λ counts. counts.items ≡ map (λ part. part.turns) parts.now) }
{
    let counts = parts.iter().map(|part| part.turns).collect(alloc)?;
    Ok(counts)
}

/// How many turns each session has taken.
fn counts_of_sessions<S: Tx<Request>, R: Rx<Reply>>(
    alloc: Global,
    parts: &[PolledOver<S, R>],
) -> Result<Vec<u64>, NoMemory>
    ensures { IfOk result (λ counts. counts.items ≡ map (λ part. part.turns) parts.now) }
{
    let counts = parts.iter().map(|part| part.turns).collect(alloc)?;
    Ok(counts)
}

/// How many turns each party has taken.
fn counts_of<P: Mail>(
    alloc: Global,
    turned: &[Turned<P>],
    polled: &[PolledPart<P>],
) -> Result<Vec<u64>, NoMemory>
    ensures { IfOk result (λ counts. counts.items
        ≡ map (λ part. part.turns) turned.now ++ map (λ part. part.turns) polled.now) }
{
    let mut counts = counts_of_workers(alloc, turned)?;
    let of_sessions = counts_of_sessions(alloc, polled)?;
    counts.extend_from_slice(&of_sessions)?;
    Ok(counts)
}

/// The workers of parts.
fn workers_of<Q: Rx<Request>, T: Tx<Reply>, O: Tx<Batch>, G: GossipRx<Batch, From = O>>(
    alloc: Global,
    parts: Vec<TurnedOver<Q, T, O, G>>,
) -> Result<Vec<WorkerOver<Q, T, O, G>>, NoMemory>
    ensures { IfOk result (λ workers. workers.items ≡ map (λ part. part.worker) parts.items) }
{
    let workers = parts.into_iter().map(|part| part.worker).collect(alloc)?;
    Ok(workers)
}

/// The sessions of parts.
fn sessions_of<S: Tx<Request>, R: Rx<Reply>>(
    alloc: Global,
    parts: Vec<PolledOver<S, R>>,
) -> Result<Vec<SessionOver<S, R>>, NoMemory>
    ensures { IfOk result (λ sessions. sessions.items ≡ map (λ part. part.session) parts.items) }
{
    let sessions = parts.into_iter().map(|part| part.session).collect(alloc)?;
    Ok(sessions)
}

/// What came of the parts of sessions.
fn polled_of<S: Tx<Request>, R: Rx<Reply>>(
    alloc: Global,
    parts: &[PolledOver<S, R>],
) -> Result<Vec<Polled>, NoMemory>
    ensures { IfOk result (λ polled. polled.items ≡ map (λ part. part.polled) parts.now) }
{
    let polled = parts.iter().map(|part| part.polled).collect(alloc)?;
    Ok(polled)
}

/// Runs the parts of workers and sessions beside each other. After `NoMemory` they are of no use.
fn run_parts<P: Mail, E: Gate + Sync, H: Threads + Sync>(
    rt: &H,
    gate: &E,
    turned: &mut Vec<Turned<P>>,
    polled: &mut Vec<PolledPart<P>>,
) -> Result<(), NoMemory>
where
    P::ReqTx: Send,
    P::ReqRx: Send,
    P::RepTx: Send,
    P::RepRx: Send,
    P::GosTx: Send,
    P::GosRx: Send,
    ensures turned { OnOk result (Pairwise ⟦<Turned<P> as Piece>⟧.becomes
        turned.old.items turned.new.items) }
    ensures polled { OnOk result (Pairwise ⟦<PolledPart<P> as Piece>⟧.becomes
        polled.old.items polled.new.items) }
{
    let activity = Activity::new(turned.len() as u64 + polled.len() as u64);
    run_both(rt, gate, &activity, turned, polled)
}

/// Runs an epoch: every party takes its turns beside the others, at most 128, and how each session moved on is
/// told. `turns` counts the turns of each party over the epochs, and is empty before the first.
///
/// After `NoMemory` the parties are of no use.
pub fn run_epoch<P: Mail, E: Gate + Sync, H: Threads + Sync>(
    rt: &H,
    gate: &E,
    turns: &mut Vec<u64>,
    parties: &mut Parties<P>,
) -> Result<Vec<Polled>, NoMemory>
where
    P::ReqTx: Send,
    P::ReqRx: Send,
    P::RepTx: Send,
    P::RepRx: Send,
    P::GosTx: Send,
    P::GosRx: Send,
    ensures steps { OnOk result (⟦<Parties<P> as Run>⟧.step_on parties.old parties.new) }
    ensures turns { OnOk result (TakesAtMost 128 turns.old.items turns.new.items) }
    ensures counts { OnOk result (length turns.new.items
        ≡ length (⟦<Parties<P> as Run>⟧.worker_lists parties.old)
        + length (⟦<Parties<P> as Run>⟧.session_lists parties.old)) }
    ensures each { IfOk result (λ came. length came.items
        ≡ length (⟦<Parties<P> as Run>⟧.session_lists parties.old)) }
    ensures moved { ⟦<Parties<P> as Run>⟧.is_running parties.old
        → IfOk result (λ came. EachBecomes came.items
        (⟦<Parties<P> as Run>⟧.session_lists parties.old)
        (⟦<Parties<P> as Run>⟧.session_lists parties.new) HasMovedOn) }
{
    let alloc = *parties.sessions.allocator();
    let workers = replace(&mut parties.workers, Vec::new(alloc));
    let sessions = replace(&mut parties.sessions, Vec::new(alloc));
    let many = workers.len();
    let mut turned = parts_of_workers(turns, workers)?;
    let mut polled = parts_of_sessions(turns, many, sessions)?;
    run_parts::<P, E, H>(rt, gate, &mut turned, &mut polled)?;
    *turns = counts_of::<P>(alloc, &turned, &polled)?;
    let came = polled_of(alloc, &polled)?;
    parties.workers = workers_of(alloc, turned)?;
    parties.sessions = sessions_of(alloc, polled)?;
    Ok(came)
}
