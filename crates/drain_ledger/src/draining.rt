//! The drain, step by step.
ghost use Rattle.std.specs.Prelude.{◌≡◌, ◌⊎◌, map, IfOk, IsFalse, IsTrue};
ghost use Rattle.drain_ledger.specs.Handed.{AreFrontsOfSent, AreHandedOver};
ghost use Rattle.drain_ledger.specs.OverBoxes as over;
ghost use Rattle.drain_turns.specs.OverWorkers as turned;
ghost use Rattle.drain_turns.specs.Ready.{FreesPlaces};
ghost use Rattle.party_turns.specs.Ends.{mail_of};
ghost use Rattle.party_turns.specs.Places.{AtEach};

use crate::finals::final_cells;
use drain_steps::{HearsOut, attest_all, hear_all, part_all, seal_all, settle_all};
use drain_turns::{TurnsAll, turn_all};
use lattice_laws::{Items, NoMemory};
use mail_contract::{GossipRx, Rx, Tx};
use session_known::{Answer, Report, Script};
use store_msg::{Batch, Mail, Reply, Request, SessionEndsOver};
use worker_core::{SealedOver, WorkerOver};

/// A run that is drained: its report, its workers, sealed, and the boxes of its sessions' replies, both
/// ascending.
#[derive(Drop)]
pub struct DrainedOver<Q: Rx<Request>, G: GossipRx<Batch>, R: Rx<Reply>> {
    pub report: Report,
    pub workers: Vec<SealedOver<Q, G>>,
    pub replies: Vec<R>,
}

/// A run that is drained, over one kind of mail.
pub type Drained<P> = DrainedOver<<P as Mail>::ReqRx, <P as Mail>::GosRx, <P as Mail>::RepRx>;

/// Drains a run: the workers take what the ended sessions sent them and tell one another of it, until
/// nothing is left; then the final cells are written down. After `NoMemory` all is dropped.
///
/// It returns where steps are repeated by measure ([`ByMeasure`](party_turns::ByMeasure)), which needs mail that tells
/// how much may still come and in which senders find places. Over other mail it may wait
/// ([`Waiting`](party_turns::Waiting)), and what it promises holds if it returns.
pub fn drain<
    S: Tx<Request>,
    T: Tx<Reply>,
    O: Tx<Batch>,
    Q: Rx<Request, From = S>,
    G: GossipRx<Batch, From = O>,
    R: Rx<Reply, From = T>,
    P: TurnsAll<T, O, Q, G> + HearsOut<Q, G>,
>(
    by: &P,
    script: &Script,
    workers: Vec<WorkerOver<Q, T, O, G>>,
    sessions: Vec<(Items<Answer>, SessionEndsOver<S, R>)>,
) -> Result<DrainedOver<Q, G, R>, NoMemory>
    requires finite { IsFalse P.waits → IsTrue G.keeps.finite }
    requires room { IsFalse P.waits → turned.NeverFull T.Tx O.Tx
        ⊎ (FreesPlaces G.keeps × AreFrontsOfSent T.sent R.received workers.items sessions.items) }
    requires run { AreHandedOver (mail_of S.Tx T.Tx O.Tx Q.Rx G.GossipRx R.Rx)
        script.now workers.items sessions.items }
    ensures drained { IfOk result (λ run. over.IsDrained Q.Rx G.GossipRx R.Rx
        script.now run.report run.workers.items run.replies.items) }
    ensures answers { IfOk result (λ run. run.report.answers ≡ map (λ its. its.0) sessions.items) }
    ensures goes_on { IfOk result
        (λ run. over.GoOn Q.Rx G.GossipRx workers.items run.workers.items) }

    // What a worker had while the run went on, from what it had received and heard by then, was sound.
    ensures sound { IfOk result (λ run.
        AtEach workers.items (over.AreFrontsSound Q.Rx G.GossipRx script.now run.report)) }
{
    let alloc = *workers.allocator();
    attest_all(&workers);
    let mut workers = workers;
    let (answers, requests, mut boxes) = part_all(alloc, sessions)?;
    settle_all::<Request, WorkerOver<Q, T, O, G>>(&mut workers, requests, false);
    turn_all(by, &mut workers)?;
    attest_all(&workers);
    let (mut sealed, replies, gossip) = seal_all(alloc, workers)?;
    settle_all::<Batch, SealedOver<Q, G>>(&mut sealed, gossip, true);
    hear_all(by, &mut sealed)?;
    settle_all::<Reply, R>(&mut boxes, replies, false);
    let keys = script.config.keys.as_slice().len() as u16;
    let finals = final_cells(alloc, keys, &sealed)?;
    Ok(DrainedOver {
        report: Report {
            answers: Items::new(answers),
            finals: Items::new(finals),
        },
        workers: sealed,
        replies: boxes,
    })
}
