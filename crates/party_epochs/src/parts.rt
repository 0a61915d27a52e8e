//! The parts that workers and sessions take in an epoch.
use crate::gate::EpochPace;
use crate::{Activity, Gate, Piece};
use lattice_laws::NoMemory;
use mail_contract::{GossipRx, Rx, Tx};
use parties::{Polled, SessionOver, poll_often, turn_often};
use store_msg::{Batch, Mail, Reply, Request};
use worker_core::WorkerOver;

/// How many turns a party takes in an epoch, at most.
const MOST_TURNS: u32 = 128;

/// A worker, as it takes its part in an epoch.
#[derive(Drop)]
pub struct TurnedOver<Q: Rx<Request>, T: Tx<Reply>, O: Tx<Batch>, G: GossipRx<Batch, From = O>> {
    pub worker: WorkerOver<Q, T, O, G>,
    /// Its number among the parties, from 0.
    pub party: u16,
    /// How many turns it has taken.
    pub turns: u64,
}

impl<Q: Rx<Request>, T: Tx<Reply>, O: Tx<Batch>, G: GossipRx<Batch, From = O>> Piece
    for TurnedOver<Q, T, O, G> {
    ghost use Rattle.std.specs.Prelude.{◌≡◌, None};
    ghost use Rattle.parties.specs.Steps.{HasServed};
    ghost use Rattle.parties.specs.Pace.{RoseAtMost};
    ghost use Rattle.parties.specs.Turning.{HasTurned};
    ghost use Rattle.worker_core.specs.State as workers;

    ghost becomes = { λ before now.
        HasTurned Q.Rx T.Tx O.Tx G.GossipRx before.worker now.worker
        × (before.worker.state.kept ≡ None → HasServed
        (workers.lists_of Q.received T.sent O.sent G.got before.worker)
        (workers.lists_of Q.received T.sent O.sent G.got now.worker))
        × RoseAtMost 128 before.turns now.turns };

    fn part<E: Gate>(&mut self, gate: &E, activity: &Activity) -> Result<(), NoMemory> {
        let mut pace = EpochPace::new(gate, activity, self.party, self.turns);
        let turned = turn_often(&mut pace, &mut self.worker, MOST_TURNS);
        self.turns = pace.leave();
        turned
    }
}

/// A session, as it takes its part in an epoch. One that waits for the end of another takes no turn.
#[derive(Drop)]
pub struct PolledOver<S: Tx<Request>, R: Rx<Reply>> {
    pub session: SessionOver<S, R>,
    /// Its number among the parties: sessions come after the workers.
    pub party: u16,
    /// How many turns it has taken.
    pub turns: u64,
    /// What came of its part.
    pub polled: Polled,
}

impl<S: Tx<Request>, R: Rx<Reply>> Piece for PolledOver<S, R> {
    ghost use Rattle.std.specs.Prelude.{IsTrue};
    ghost use Rattle.parties.specs.Session.{proxy_of};
    ghost use Rattle.parties.specs.Pace.{RoseAtMost};
    ghost use Rattle.parties.specs.Polling.{HasPolled, IsAllAnswered};
    ghost use Rattle.parties.specs.Progress.{HasMovedOn};
    ghost use Rattle.parties.specs.Laws.{IsPlaced};
    ghost use Rattle.session_proxy.specs.Share.{Share};
    ghost use Rattle.session_proxy.specs.State as sessions;

    ghost becomes = { λ before now.
        HasPolled S.Tx R.Rx (proxy_of before.session) (proxy_of now.session)
        × (IsTrue now.polled.ended → IsAllAnswered (proxy_of now.session))
        × (IsPlaced (sessions.lists_of S.sent R.received (proxy_of before.session))
        → Share (sessions.lists_of S.sent R.received (proxy_of before.session))
        → HasMovedOn now.polled
        (sessions.lists_of S.sent R.received (proxy_of before.session))
        (sessions.lists_of S.sent R.received (proxy_of now.session)))
        × RoseAtMost 128 before.turns now.turns };

    fn part<E: Gate>(&mut self, gate: &E, activity: &Activity) -> Result<(), NoMemory> {
        if !self.session.has_begun() {
            activity.leave();
            self.polled = Polled {
                ended: false,
                moved: false,
                rested: false,
            };
            return Ok(());
        }
        let mut pace = EpochPace::new(gate, activity, self.party, self.turns);
        let polled = poll_often(&mut pace, &mut self.session, MOST_TURNS);
        self.turns = pace.leave();
        self.polled = polled?;
        Ok(())
    }
}

/// A worker's part over one kind of mail.
pub(crate) type Turned<P> = TurnedOver<
    <P as Mail>::ReqRx,
    <P as Mail>::RepTx,
    <P as Mail>::GosTx,
    <P as Mail>::GosRx,
>;

/// A session's part over one kind of mail.
pub(crate) type PolledPart<P> = PolledOver<<P as Mail>::ReqTx, <P as Mail>::RepRx>;
