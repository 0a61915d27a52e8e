//! One sweep.
ghost use Rattle.std.specs.Prelude.{◌≡◌, ◌<◌, ℕ, All, false, length, IfOk, IsTrue, OnOk};
ghost use Rattle.parties.specs.Sweeping.{AllAwait, AllServed, AllToAsks, AreAnswered, EachStays, FreeBoth, HasBegun, WaitsForOther, rested_at};
ghost use Rattle.party_run.specs.Ready.{IsPassed, IsPolled, IsReady, IsServed, RestedStay, WasSwept, WerePolled};
ghost use Rattle.parties.specs.Told.{AreAllTold};
ghost use Rattle.parties.specs.Waiting.{AreSigned};

use lattice_laws::NoMemory;
use parties::{MOST_POLLS, Polled, Run};

/// Makes one sweep, after an epoch of which it is told what came of each session's turns: all workers take turns,
/// twice, and then the sessions are polled that have begun and of which no ask came to nothing in the epoch; and those
/// begin that wait for one that has ended. Tells whether every session has ended.
///
/// Each session that is polled moves, or has ended, and each that waits after it does so for one that has not ended.
/// Those of which an ask came to nothing stay as they were. What a session waits for was not taken before; and no more
/// was taken than was sent, once all parties were held beside each other again.
pub fn sweep<R: Run>(came: &[Polled], run: &mut R) -> Result<bool, NoMemory>
    requires ready { IsReady R.Run run.old }
    ensures steps { OnOk result (R.step_on run.old run.new) }
    ensures ended { IfOk result (λ ended. IsTrue ended → AreAnswered (R.session_lists run.new)) }
    ensures told { OnOk result (AreAllTold (R.worker_lists run.new) (R.session_lists run.new)) }
    ensures to_asks { OnOk result (AllToAsks (R.session_lists run.new)) }
    ensures rested { OnOk result (RestedStay R.Run came.now run.old run.new) }
    ensures swept { IfOk result (λ ended. WasSwept R.Run came.now ended run.old run.new) }
{
    run.show_all();
    turn_workers(run)?;
    turn_workers(run)?;
    run.show_all();
    let ended = poll_sessions(came, run)?;
    begin_sessions(run)?;
    run.show_all();
    Ok(ended)
}

/// Turns each worker, ascending, until it rests, directly after it was held beside the others. Then each has taken
/// all that the sessions had sent to it, and holds no reply.
fn turn_workers<R: Run>(run: &mut R) -> Result<(), NoMemory>
    requires free { FreeBoth R.keeps_requests R.keeps_replies }
    requires finite { IsTrue R.keeps_gossip.finite }
    requires running { R.is_running run.old }
    requires none_kept { R.none_kept run.old }
    requires signed { All AreSigned (R.session_lists run.old) }
    ensures sessions { R.session_lists run.new ≡ R.session_lists run.old }
    ensures steps { OnOk result (R.step_on run.old run.new) }
    ensures served { OnOk result (AllServed (R.worker_lists run.new) (R.session_lists run.new)) }
{
    for place in 0..run.workers() {
        run.turn_worker(place)?;
    }
    Ok(())
}

/// Whether an ask of the session at a place came to nothing in the epoch.
fn rested_at(came: &[Polled], place: usize) -> bool
    ensures { result ≡ rested_at came.now place }
{
    match came.get(place) {
        Some(its) => its.rested,
        None => false,
    }
}

/// Whether a sweep polls the session at a place: it has begun, and no ask of it came to nothing in the epoch.
fn is_polled<R: Run>(came: &[Polled], run: &R, place: usize) -> bool
    requires { place < length (R.session_lists run.now) }
    ensures polled { IsTrue result → IsPolled came.now (R.session_lists run.now) place }
    ensures passed { result ≡ false → IsPassed came.now (R.session_lists run.now) place }
{
    if rested_at(came, place) {
        return false;
    }
    run.has_begun(place)
}

/// Polls each session, ascending, that has begun and of which no ask came to nothing, until it waits. Tells whether
/// every session has ended. Where all are held beside all workers, and these have served all of them, each session that
/// is polled moves, or has ended.
pub(crate) fn poll_sessions<R: Run>(came: &[Polled], run: &mut R) -> Result<bool, NoMemory>
    ensures steps { OnOk result (R.step_on run.old run.new) }
    ensures ended { IfOk result (λ ended. IsTrue ended → AreAnswered (R.session_lists run.new)) }
    ensures rested { OnOk result (RestedStay R.Run came.now run.old run.new) }
    ensures swept { IsServed R.Run run.old → IfOk result (λ ended. WerePolled R.Run came.now ended
        run.old run.new) }
{
    let mut all_ended = true;
    for place in 0..run.sessions() {
        if is_polled(came, run, place) {
            let its = run.poll_session(place, MOST_POLLS)?;
            all_ended = all_ended & its.ended;
        } else {
            all_ended = false;
        }
    }
    Ok(all_ended)
}

/// Begins each session, ascending, that waits for one that has ended. Those that have begun stay as they are.
///
/// A session that has no lines has ended once it has begun.
pub(crate) fn begin_sessions<R: Run>(run: &mut R) -> Result<(), NoMemory>
    ensures workers { R.worker_lists run.new ≡ R.worker_lists run.old }
    ensures steps { OnOk result (R.step_on run.old run.new) }
    ensures begun { OnOk result (EachStays (HasBegun (R.session_lists run.old))
        (R.session_lists run.old) (R.session_lists run.new)) }
    ensures await_theirs { AllAwait (R.session_lists run.old)
        → OnOk result (AllAwait (R.session_lists run.new)) }
    ensures waits { R.is_running run.old → R.none_kept run.old
        → OnOk result ((at : ℕ) → WaitsForOther (R.session_lists run.new) at) }
{
    for place in 0..run.sessions() {
        run.begin_session(place)?;
    }
    Ok(())
}
