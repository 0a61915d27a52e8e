//! The parties of a run over one kind of mail.
ghost use Rattle.std.specs.Prelude.{ℕ};

use crate::beginning::begin_session;
use crate::parting::part_all;
use crate::showing::{show_all, show_worker};
use crate::steps::{poll_session, turn_worker};
use crate::{Polled, Run, Session};
use lattice_laws::NoMemory;
use party_turns::Tells;
use store_msg::Mail;
use worker_core::Worker;

/// The parties of a run over one kind of mail: its workers and its sessions, both in ascending order.
#[derive(Drop)]
pub struct Parties<P: Mail> {
    pub workers: Vec<Worker<P>>,
    pub sessions: Vec<Session<P>>,
}

/// What contracts say of the ends of all parties, each in one word.
pub(crate) trait Words {
    // The ends are of one making, and each box has messages of the parties alone.
    ghost have_ends: { Self → Type 0 };

    // The run goes on from the first to the second.
    ghost go_on: { Self → Self → Type 0 };

    // Nothing that the parties sent, took or answered changes from the first to the second, and the run goes on.
    ghost stay: { Self → Self → Type 0 };

    // The worker at a place knows how many batches are left of the worker at another.
    ghost has_met: { ℕ → ℕ → Self → Type 0 };
}

impl<P: Mail> Words for Parties<P> {
    ghost use Rattle.std.specs.Prelude.{map};
    ghost use Rattle.parties.specs.Beside.{HasMet};
    ghost use Rattle.party_turns.specs.Running.{GoesOn, HaveEnds};
    ghost use Rattle.parties.specs.Session.{proxy_of};
    ghost use Rattle.parties.specs.Staying.{AllStay};

    ghost have_ends = { λ parties. HaveEnds ⟦<P as Tells>⟧.mail
        parties.workers.items (map proxy_of parties.sessions.items) };

    ghost go_on = { λ before now. GoesOn ⟦<P as Tells>⟧.mail
        before.workers.items now.workers.items
        (map proxy_of before.sessions.items) (map proxy_of now.sessions.items) };

    ghost stay = { λ before now. AllStay ⟦<P as Tells>⟧.mail
        before.workers.items now.workers.items
        (map proxy_of before.sessions.items) (map proxy_of now.sessions.items) };

    ghost has_met = { λ place other parties.
        HasMet ⟦<P as Tells>⟧.mail place other parties.workers.items };
}

impl<P: Mail> Run for Parties<P> {
    ghost use Rattle.std.specs.Prelude.{All, map};
    ghost use Rattle.parties.specs.Beside.{AreBeside, IsApart};
    ghost use Rattle.party_turns.specs.Steps.{NoneKept, StepsOn};
    ghost use Rattle.party_turns.specs.Running.{AreRunning};
    ghost use Rattle.parties.specs.Session.{proxy_of};
    ghost use Rattle.party_turns.proofs.OrderLemmas.{wait_for_earlier};
    ghost use Rattle.party_turns.proofs.StepsLemmas.{steps_go_on, steps_long, steps_still, steps_through};
    ghost use Rattle.party_turns.specs.Ends.{session_lists, worker_lists};
    ghost use Rattle.session_known.specs.declared.script.Script.{Script};

    ghost keeps_requests = { P.ReqRx.keeps };

    ghost keeps_replies = { P.RepRx.keeps };

    ghost keeps_gossip = { P.GosRx.keeps };

    ghost worker_lists = { λ parties.
        map (worker_lists ⟦<P as Tells>⟧.mail) parties.workers.items };

    ghost session_lists = { λ parties.
        map (session_lists ⟦<P as Tells>⟧.mail) (map proxy_of parties.sessions.items) };

    ghost are_running = { λ script parties. AreRunning ⟦<P as Tells>⟧.mail
        script parties.workers.items (map proxy_of parties.sessions.items) };

    ghost is_running = { λ parties. (script : Script) × AreRunning ⟦<P as Tells>⟧.mail
        script parties.workers.items (map proxy_of parties.sessions.items) };

    ghost none_kept = { λ parties. NoneKept parties.workers.items };

    ghost step_on = { λ before now. StepsOn ⟦<P as Tells>⟧.mail
        before.workers.items now.workers.items
        (map proxy_of before.sessions.items) (map proxy_of now.sessions.items) };

    ghost are_beside = { λ place at parties. AreBeside ⟦<P as Tells>⟧.mail place at
        parties.workers.items (map proxy_of parties.sessions.items) };

    ghost are_apart = { λ parties.
        All (λ worker. IsApart (P.ReqRx.about worker.ends.requests)
        × IsApart (P.GosRx.about worker.ends.gossip_in)) parties.workers.items
        × All (λ proxy. IsApart (P.RepRx.about proxy.ends.replies))
        (map proxy_of parties.sessions.items) };

    fn workers(&self) -> usize {
        self.workers.len()
    }

    fn sessions(&self) -> usize {
        self.sessions.len()
    }

    fn show_all(&mut self) {
        show_all(self);
    }

    fn part_all(&mut self) {
        part_all(self);
    }

    fn turn_worker(&mut self, place: usize) -> Result<(), NoMemory> {
        show_worker(self, place);
        turn_worker(self, place)?;
        self.workers[place].attest();
        Ok(())
    }

    fn has_begun(&self, place: usize) -> bool {
        self.sessions[place].has_begun()
    }

    fn poll_session(&mut self, place: usize, most: u32) -> Result<Polled, NoMemory> {
        poll_session(self, place, most)
    }

    fn begin_session(&mut self, place: usize) -> Result<(), NoMemory> {
        begin_session(&mut self.sessions, place)
    }

    ghost no_steps = { λ run. steps_still run.workers.items (map proxy_of run.sessions.items) };

    ghost more_steps = { λ before mid now. steps_through
        before.workers.items mid.workers.items now.workers.items
        (map proxy_of before.sessions.items) (map proxy_of mid.sessions.items)
        (map proxy_of now.sessions.items) };

    ghost as_many = { λ before now. steps_long
        before.workers.items now.workers.items
        (map proxy_of before.sessions.items) (map proxy_of now.sessions.items) };

    ghost in_order = { λ run. wait_for_earlier run.workers.items (map proxy_of run.sessions.items) };

    ghost goes_on = { λ before now. steps_go_on
        before.workers.items now.workers.items
        (map proxy_of before.sessions.items) (map proxy_of now.sessions.items) };
}
