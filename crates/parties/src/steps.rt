//! One of the parties of a run takes several steps.
ghost use Rattle.std.specs.Prelude.{◌≡◌, ◌<◌, IfOk, IsTrue, length, map, OnOk};
ghost use Rattle.parties.specs.Polling.{IsAllAnswered};
ghost use Rattle.parties.specs.Progress.{MovesOn, WaitsUnmoved};
ghost use Rattle.parties.specs.Session.{proxy_of};
ghost use Rattle.parties.specs.Turning.{HasRested};
ghost use Rattle.party_turns.specs.OverWorkers as turned;
ghost use Rattle.party_turns.specs.Places.{AtPlace, BothAt, OthersSame};
ghost use Rattle.session_proxy.specs.State.{has_begun};

use crate::parties::{Parties, Words};
use crate::{Polled, Run, UntilNothing, poll_often};
use lattice_laws::NoMemory;
use party_turns::{ByMeasure, Tells, TurnsOut};
use store_msg::Mail;

/// Turns the worker at a place until it answers Idle or Blocked. It is known what each session has sent to it, and
/// how many batches each mate.
pub(crate) fn turn_worker<P: Mail>(parties: &mut Parties<P>, place: usize) -> Result<(), NoMemory>
    requires within { place < length parties.old.workers.items }
    requires finite { IsTrue P.GosRx.keeps.finite }
    requires known { AtPlace parties.old.workers.items place (turned.AreKnown P.ReqRx.Rx) }
    requires met { AtPlace parties.old.workers.items place (turned.AreMet P.GosRx.GossipRx) }
    ensures sessions { parties.new.sessions ≡ parties.old.sessions }
    ensures others { OthersSame place parties.old.workers.items parties.new.workers.items }
    ensures goes_on { ⟦<Parties<P> as Words>⟧.go_on parties.old parties.new }
    ensures steps { OnOk result (⟦<Parties<P> as Run>⟧.step_on parties.old parties.new) }
    ensures rested { OnOk result
        (BothAt parties.old.workers.items parties.new.workers.items
        place (HasRested ⟦<P as Tells>⟧.mail)) }
{
    ByMeasure.turn_out(&mut parties.workers[place])?;
    Ok(())
}

/// Polls the session at a place, which has begun, until it answers NotYet, Rest or Ended, or drops a reply, at most so
/// many times. Tells whether it has ended, whether it did anything, and where not, what its ends told.
pub(crate) fn poll_session<P: Mail>(
    parties: &mut Parties<P>,
    place: usize,
    most: u32,
) -> Result<Polled, NoMemory>
    requires within { place < length parties.old.sessions.items }
    requires begun { AtPlace (map proxy_of parties.old.sessions.items) place
        (λ proxy. IsTrue (has_begun proxy.course)) }
    ensures workers { parties.new.workers ≡ parties.old.workers }
    ensures others { OthersSame place
        (map proxy_of parties.old.sessions.items) (map proxy_of parties.new.sessions.items) }
    ensures ended { IfOk result (λ polled. IsTrue polled.ended
        → AtPlace (map proxy_of parties.new.sessions.items) place IsAllAnswered) }
    ensures moved { BothAt (map proxy_of parties.old.sessions.items) (map proxy_of
        parties.new.sessions.items)
        place (MovesOn P.ReqTx.Tx P.RepRx.Rx result) }
    ensures waited { AtPlace (map proxy_of parties.old.sessions.items) place
        (WaitsUnmoved P.ReqTx.Tx P.RepRx.Rx result most) }
    ensures steps { OnOk result (⟦<Parties<P> as Run>⟧.step_on parties.old parties.new) }
{
    poll_often(&mut UntilNothing, &mut parties.sessions[place], most)
}

/// How often a session is polled in one step of a run, at most, where it is to be polled until it waits: more often
/// than there is a line to answer or a request to send.
pub const MOST_POLLS: u32 = 16_384;
