//! All ends of a run's parties, of one making.
ghost use Rattle.std.specs.Prelude.{◌≤◌, All, IfOk};
ghost use Rattle.party_ends.specs.AllEnds.{AreAllEnds};
ghost use Rattle.party_ends.specs.OverBoxes as over;
ghost use Rattle.placement.specs.Config.{IsOneOf};

use crate::assembling::{session_ends, worker_ends};
use crate::making::{make_all, make_all_weak};
use crate::settling::{settle_owns, spare_boxes};
use crate::{MakesGossip, MakesMail, MakesPost};
use lattice_laws::NoMemory;
use mail_contract::{GossipRx, Rx, Tx};
use party_turns::Tells;
use std::alloc::Global;
use store_msg::{Batch, Reply, Request, SessionEnds, WorkerEnds};

/// So many boxes, and so many rows of their senders, maybe none.
fn make_rows<M, S: Tx<M>, Q: Rx<M, From = S>, P: MakesMail<M, Mailbox = Q>>(
    post: &P,
    alloc: Global,
    boxes: u16,
    rows: u16,
) -> Result<(Vec<Vec<S>>, Vec<Q>), NoMemory>
    ensures new { IfOk result (λ made. over.AreNew S.Tx Q.Rx rows boxes made.0.items made.1.items) }
    ensures empty { IfOk result
        (λ made. All (over.IsEmptyOf S.Tx Q.Rx (IsOneOf rows)) made.1.items) }
{
    if rows == 0 {
        let spare = spare_boxes(post, alloc, boxes)?;
        return Ok((Vec::new(alloc), spare));
    }
    make_all(post, alloc, boxes, rows)
}

/// So many weak boxes, each with a row of senders to the others.
fn make_mates<M, O: Tx<M>, G: GossipRx<M, From = O>, P: MakesGossip<M, Mailbox = G>>(
    post: &P,
    alloc: Global,
    mates: u16,
) -> Result<(Vec<Vec<O>>, Vec<G>), NoMemory>
    requires { 1 ≤ mates }
    ensures new { IfOk result (λ made. over.AreFresh O.Tx G.GossipRx
        mates made.0.items made.1.items) }
    ensures empty { IfOk result (λ made. over.AreEmptyOfMates O.Tx G.GossipRx mates made.1.items) }
    ensures made_with { IfOk result (λ made. over.AreNumbered G.GossipRx
        (P.numbers post.now) (λ its. its) made.1.items) }
{
    let (rows, boxes) = make_all_weak(post, alloc, mates, mates)?;
    let mut rows = rows;
    let mut boxes = boxes;
    settle_owns(&mut rows, &mut boxes);
    Ok((rows, boxes))
}

/// The ends of so many workers, and those of so many sessions, both ascending.
///
/// A worker has a box of requests with a sender for each session, and a box of gossip with a sender for each
/// other worker, a session a box of replies with a sender for each worker. The senders of a party are
/// ascending by whom they send to, and at each box they have the party's number, from 1. A sender that is
/// for nobody is taken in by its box at once.
pub fn all_ends<P: MakesPost>(
    post: &P,
    alloc: Global,
    workers: u16,
    sessions: u16,
) -> Result<(Vec<WorkerEnds<P>>, Vec<SessionEnds<P>>), NoMemory>
    requires { 1 ≤ workers }
    ensures ends { IfOk result (λ ends. AreAllEnds ⟦<P as Tells>⟧.mail
        workers sessions ends.0.items ends.1.items) }
    ensures made_with { IfOk result (λ ends. over.AreNumbered P.GosRx.GossipRx
        (P.numbers post.now) (λ its. its.gossip_in) ends.0.items) }
{
    let (asks, requests) = make_rows::<Request, P::ReqTx, P::ReqRx, P>(
        post, alloc, workers, sessions,
    )?;
    let (answers, replies) = make_all::<Reply, P::RepTx, P::RepRx, P>(
        post, alloc, sessions, workers,
    )?;
    let (tells, gossip) = make_mates::<Batch, P::GosTx, P::GosRx, P>(post, alloc, workers)?;
    let its_workers = worker_ends(alloc, requests, answers, tells, gossip)?;
    let its_sessions = session_ends(alloc, asks, replies)?;
    Ok((its_workers, its_sessions))
}
