//! A run, to whoever takes its steps one at a time.
ghost use Rattle.std.specs.Prelude.{◌≡◌, ◌≢◌, ◌<◌, ◌≤◌, ℕ, All, IfOk, IsTrue, List, length, OnOk};
ghost use Rattle.mail_contract.specs.Parts.{Parts};
ghost use Rattle.parties.specs.Progress.{HasMovedOn, CameAlong};
ghost use Rattle.parties.specs.Sweeping.{AllAwait, AllToAsks, FreeBoth, HasBegun, HasEnded, HasServedEach, IfServedBeside, WaitsForEarlier, WaitsForOther};
ghost use Rattle.party_turns.specs.Places.{AtPlace, BothAt, OthersSame};
ghost use Rattle.run_measure.specs.Steps.{HaveAllGoneOn};
ghost use Rattle.run_waiting.specs.Told.{AreAllTold};
ghost use Rattle.run_waiting.specs.Waiting.{AreSigned};
ghost use Rattle.session_known.specs.declared.script.Script.{Script};
ghost use Rattle.session_proxy.specs.State as sessions;
ghost use Rattle.worker_core.specs.State as workers;

use crate::Polled;
use lattice_laws::NoMemory;

/// The workers and the sessions of a run, whose steps are taken one at a time. Workers and sessions are named by
/// their places, from 0.
///
/// What contracts know of them is each party's lists: how far it came, and what went through its ends.
pub trait Run {
    // Which parts of the contract of mail its boxes keep: those of requests, of replies and of gossip.
    ghost keeps_requests: { Parts };

    ghost keeps_replies: { Parts };

    ghost keeps_gossip: { Parts };

    // How far each worker and each session came, and what went through its ends.
    ghost worker_lists: { Self → List workers.Lists };

    ghost session_lists: { Self → List sessions.Lists };

    // They are the workers and the sessions of one run of a script,
    ghost are_running: { Script → Self → Type 0 };

    // of some script.
    ghost is_running: { Self → Type 0 };

    // No worker keeps a message that met want of memory.
    ghost none_kept: { Self → Type 0 };

    // They took steps from the first to the second.
    ghost step_on: { Self → Self → Type 0 };

    // The worker at a place and the session at another were held beside each other, and neither has sent or taken
    // anything since.
    ghost are_beside: { ℕ → ℕ → Self → Type 0 };

    // Nobody is beside any box.
    ghost are_apart: { Self → Type 0 };

    /// How many workers there are. Takes no memory.
    fn workers(&self) -> usize
        ensures { result ≡ length (worker_lists self.now) };

    /// How many sessions there are. Takes no memory.
    fn sessions(&self) -> usize
        ensures { result ≡ length (session_lists self.now) };

    /// Holds all beside each other, so that each end learns what the others had sent by then: what was taken is
    /// told to be a front of what was sent, and each reply that a session took is known to be to an ask of it. Takes
    /// no memory.
    fn show_all(&mut self)
        requires free { FreeBoth keeps_requests keeps_replies }
        requires running { is_running self.old }
        requires none_kept { none_kept self.old }
        ensures workers { worker_lists self.new ≡ worker_lists self.old }
        ensures sessions { session_lists self.new ≡ session_lists self.old }
        ensures steps { step_on self.old self.new }
        ensures beside { (place at : ℕ) → are_beside place at self.new }
        ensures told { AreAllTold (worker_lists self.new) (session_lists self.new) }
        ensures to_asks { AllToAsks (session_lists self.new) };

    /// Nobody is beside any box any longer. Takes no memory.
    fn part_all(&mut self)
        ensures workers { worker_lists self.new ≡ worker_lists self.old }
        ensures sessions { session_lists self.new ≡ session_lists self.old }
        ensures steps { step_on self.old self.new }
        ensures apart { are_apart self.new };

    /// Holds the worker at a place beside all others, and turns it until it rests. Then it has taken all that the
    /// sessions had sent to it, and holds no reply.
    fn turn_worker(&mut self, place: usize) -> Result<(), NoMemory>
        requires within { place < length (worker_lists self.old) }
        requires free { FreeBoth keeps_requests keeps_replies }
        requires finite { IsTrue keeps_gossip.finite }
        requires running { is_running self.old }
        requires none_kept { none_kept self.old }
        requires signed { All AreSigned (session_lists self.old) }
        ensures sessions { session_lists self.new ≡ session_lists self.old }
        ensures others { OthersSame place (worker_lists self.old) (worker_lists self.new) }
        ensures steps { OnOk result (step_on self.old self.new) }
        ensures served { OnOk result
            (HasServedEach place (worker_lists self.new) (session_lists self.new)) };

    /// Whether the session at a place has begun. Takes no memory.
    fn has_begun(&self, place: usize) -> bool
        requires { place < length (session_lists self.now) }
        ensures { AtPlace (session_lists self.now) place
            (λ its. result ≡ sessions.has_begun its.course) };

    /// Polls the session at a place, which has begun, at most so many times: until it answers NotYet, Rest or Ended, or
    /// drops a reply. Tells what came of it. Where all workers have served it and are beside it still, it moves or has
    /// ended.
    fn poll_session(&mut self, place: usize, most: u32) -> Result<Polled, NoMemory>
        requires within { place < length (session_lists self.old) }
        requires begun { HasBegun (session_lists self.old) place }
        ensures workers { worker_lists self.new ≡ worker_lists self.old }
        ensures others { OthersSame place (session_lists self.old) (session_lists self.new) }
        ensures beside { (worker other : ℕ) → other ≢ place
            → are_beside worker other self.old → are_beside worker other self.new }
        ensures steps { OnOk result (step_on self.old self.new) }
        ensures ended { IfOk result (λ came. IsTrue came.ended
            → HasEnded (session_lists self.new) place) }
        ensures moved { is_running self.old → IfOk result (λ came.
            BothAt (session_lists self.old) (session_lists self.new) place (HasMovedOn came)) }
        ensures served { is_running self.old → none_kept self.old → 1 ≤ most
            → IfServedBeside keeps_requests keeps_replies (λ worker. are_beside worker place self.old)
            place (worker_lists self.old) (session_lists self.old) (CameAlong result) };

    /// The session at a place begins where it waits for another that has ended: it knows then what that one handed
    /// over. Else nothing is done.
    fn begin_session(&mut self, place: usize) -> Result<(), NoMemory>
        requires { place < length (session_lists self.old) }
        ensures workers { worker_lists self.new ≡ worker_lists self.old }
        ensures others { OnOk result
            (OthersSame place (session_lists self.old) (session_lists self.new)) }
        ensures steps { OnOk result (step_on self.old self.new) }
        ensures begun { HasBegun (session_lists self.old) place
            → OnOk result (session_lists self.new ≡ session_lists self.old) }
        ensures waits { OnOk result (WaitsForOther (session_lists self.new) place) }
        ensures await_theirs { AllAwait (session_lists self.old)
            → OnOk result (AllAwait (session_lists self.new)) };

    // Steps may be none, or some and then others.
    ghost no_steps: { (run : Self) → step_on run run };

    ghost more_steps: { (before mid now : Self) → step_on before mid → step_on mid now → step_on before now };

    // As many parties are there after steps as before.
    ghost as_many: { (before now : Self) → step_on before now
        → (length (worker_lists now) ≡ length (worker_lists before))
        × (length (session_lists now) ≡ length (session_lists before)) };

    // In a run each session that waits does so for an earlier one.
    ghost in_order: { (run : Self) → is_running run → (at : ℕ) → WaitsForEarlier (session_lists run) at };

    // A run of which no worker keeps a message is one after steps, too, and all parties have gone on.
    ghost goes_on: { (before now : Self) → step_on before now → is_running before → none_kept before
        → is_running now × none_kept now
        × HaveAllGoneOn (worker_lists before) (worker_lists now) (session_lists before) (session_lists now) };
}
