//! The clocks that a session had from the workers.
ghost use Rattle.std.specs.Prelude.{◌≡◌, [], ℕ, IfOk, IfSome, MatchOption, length};
ghost use Rattle.clock_lattice.specs.Clock.{covers};
ghost use Rattle.placement.specs.Config.{IsOneOf};
ghost use Rattle.anna_check.specs.ClocksSeen.{AreJoined, HasNoClock, IsClockOf, HasNoted, HasTakenIn, clock_from};
ghost use Rattle.anna_check.specs.Judged.{NamesWorker};

use clock_lattice::{Clock, Needs};
use lattice_laws::{Lattice, NoMemory};
use session_known::{Answer, Line};
use std::alloc::Global;
use std::marker::Model;

/// For each worker and key the join of the clocks that a session had from it. Contracts see for each
/// worker the clocks by key.
#[derive(Drop)]
pub(crate) struct ClocksSeen {
    by_worker: Vec<Needs>,
}

impl Model for ClocksSeen {
    ghost use Rattle.std.specs.Prelude.{List, ℕ};

    ghost Value = { List (List (ℕ × List (ℕ × ℕ))) };

    ghost view = { λ seen. seen.by_worker.items };
}

impl ClocksSeen {
    /// No clocks from so many workers.
    pub(crate) fn new(alloc: Global, workers: u16) -> Result<ClocksSeen, NoMemory>
        ensures { IfOk result (AreJoined workers []) }
    {
        let mut by_worker = Vec::new(alloc);
        for _worker in 0..workers {
            by_worker.push(Needs::new(alloc))?;
        }
        Ok(ClocksSeen { by_worker })
    }

    /// Whether the clock covers those that the session had of the key from the worker. Takes no memory.
    pub(crate) fn are_covered(&self, key: u16, worker: u16, clock: &Clock) -> bool
        requires { IsOneOf (length self.now) worker }
        ensures { result ≡ covers clock.now (clock_from self.now key worker) }
    {
        match self.by_worker[usize::from(worker) - 1].of(key) {
            Some(had) => clock.covers(had),
            None => true,
        }
    }

    /// Takes in a clock of the key from the worker.
    pub(crate) fn note(&mut self, key: u16, worker: u16, clock: &Clock) -> Result<(), NoMemory>
        requires { IsOneOf (length self.old) worker }
        ensures { HasNoted result self.old key worker clock.now self.new }
    {
        clock.attest();
        let had = &mut self.by_worker[usize::from(worker) - 1];
        had.attest();
        had.raise(key, clock)?;
        Ok(())
    }

    /// Takes in the clock that the line's answer had, if it had one.
    pub(crate) fn take_in(&mut self, line: &Line, answer: &Answer) -> Result<(), NoMemory>
        requires { NamesWorker (length self.old) answer.now }
        ensures { HasTakenIn result self.old line.now answer.now self.new }
    {
        match clock_had(line, answer) {
            Some((key, worker, clock)) => self.note(key, worker, clock),
            None => Ok(()),
        }
    }
}

/// The key, the worker and the clock that the line's answer had, if it had one.
fn clock_had<'a>(line: &Line, answer: &'a Answer) -> Option<(u16, u16, &'a Clock)>
    ensures had { MatchOption result (HasNoClock line.now answer.now)
        (λ had. IsClockOf line.now answer.now had.0 had.1 had.2.now) }
    ensures worker { (workers : ℕ) → NamesWorker workers answer.now
        → IfSome result (λ had. IsOneOf workers had.1) }
{
    match (line, answer) {
        (Line::Get { key, .. } | Line::Await { key, .. }, Answer::Got { worker, shown }) => {
            Some((*key, *worker, &shown.clock))
        }
        (Line::Get { key, .. } | Line::Await { key, .. }, Answer::Again { worker, clock, .. }) => {
            Some((*key, *worker, clock))
        }
        _ => None,
    }
}
