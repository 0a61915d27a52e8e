//! One party takes several steps.
ghost use Rattle.std.specs.Prelude.{◌≡◌, IfOk, IsTrue, None, OnOk};
ghost use Rattle.parties.specs.Pace.{RoseAtMost};
ghost use Rattle.parties.specs.Polling.{HasPolled, IsAllAnswered};
ghost use Rattle.parties.specs.Progress.{MovesOn, WaitsUnmoved};
ghost use Rattle.parties.specs.Session.{proxy_of};
ghost use Rattle.parties.specs.Turning.{HasTurned};
ghost use Rattle.party_turns.specs.OverWorkers as turned;
ghost use Rattle.session_proxy.specs.State.{has_begun};

use crate::{Pace, SessionOver};
use lattice_laws::NoMemory;
use mail_contract::{GossipRx, Rx, Tx};
use session_proxy::Progress;
use store_msg::{Batch, Reply, Request};
use worker_core::{Did, WorkerOver};

/// Turns a worker at a pace, at most so many times: until it answers Idle or Blocked and is not to try again.
pub fn turn_often<
    T: Tx<Reply>,
    O: Tx<Batch>,
    Q: Rx<Request>,
    G: GossipRx<Batch, From = O>,
    A: Pace,
>(pace: &mut A, worker: &mut WorkerOver<Q, T, O, G>, most: u32) -> Result<(), NoMemory>
    ensures counted { RoseAtMost most (A.steps pace.old) (A.steps pace.new) }
    ensures turned { HasTurned Q.Rx T.Tx O.Tx G.GossipRx worker.old worker.new }
    ensures served { worker.old.state.kept ≡ None → OnOk result (turned.HasServed Q.Rx T.Tx O.Tx
        G.GossipRx worker.old worker.new) }
{
    worker.attest();
    for _ in 0..most {
        pace.begin();
        let did = worker.turn()?;
        if (did == Did::Idle || did == Did::Blocked) && !pace.tries_again() {
            return Ok(());
        }
    }
    Ok(())
}

/// What came of polling a session.
#[derive(Clone, Copy, Debug, PartialEq, Eq, Drop)]
pub struct Polled {
    /// Every line is answered.
    pub ended: bool,
    /// A line was answered, a request sent, or a reply taken.
    pub moved: bool,
    /// An ask of it came to nothing: it was answered that something is lacking there.
    pub rested: bool,
}

/// Polls a session that has begun at a pace, at most so many times: until it answers Rest or Ended, or NotYet and is not
/// to try again, or a reply was dropped.
///
/// A reply is dropped that is not the awaited one. None comes so, since each answers an ask that was sent; but as
/// long as others run no party is told what they have sent. So the session takes no step more then, and what it
/// waits for is told to be missing once it is held beside the workers.
pub fn poll_often<S: Tx<Request>, R: Rx<Reply>, A: Pace>(
    pace: &mut A,
    session: &mut SessionOver<S, R>,
    most: u32,
) -> Result<Polled, NoMemory>
    requires { IsTrue (has_begun (proxy_of session.old).course) }
    ensures counted { RoseAtMost most (A.steps pace.old) (A.steps pace.new) }
    ensures polled { HasPolled S.Tx R.Rx (proxy_of session.old) (proxy_of session.new) }
    ensures ended { IfOk result (λ polled. IsTrue polled.ended
        → IsAllAnswered (proxy_of session.new)) }
    ensures moved { MovesOn S.Tx R.Rx result (proxy_of session.old) (proxy_of session.new) }
    ensures waited { WaitsUnmoved S.Tx R.Rx result most (proxy_of session.old) }
{
    let mut moved = false;
    for _ in 0..most {
        pace.begin();
        let waited = session.waits();
        match session.poll()? {
            Progress::Moved => {
                moved = true;
                if waited && session.waits() {
                    break;
                }
            }
            Progress::NotYet => {
                if !pace.tries_again() {
                    break;
                }
            }
            Progress::Rest => return Ok(Polled {
                ended: false,
                moved: true,
                rested: true,
            }),
            Progress::Ended => return Ok(Polled {
                ended: true,
                moved,
                rested: false,
            }),
        }
    }
    Ok(Polled {
        ended: false,
        moved,
        rested: false,
    })
}
