//! Workers are held beside sessions and beside each other.
ghost use Rattle.std.specs.Prelude.{◌≡◌, ◌≢◌, ◌+◌, ◌<◌, ◌^◌, ℕ, IsTrue, length};
ghost use Rattle.run_waiting.specs.Told.{AreAllTold};

use crate::Run;
use crate::parties::{Parties, Words};
use party_turns::show_pair;
use store_msg::Mail;

/// Holds every worker, ascending, beside every session and every other worker. Takes no memory.
pub(crate) fn show_all<P: Mail>(parties: &mut Parties<P>)
    requires few { (length parties.old.workers.items + 1 < 2 ^ 16)
        × (length parties.old.sessions.items + 1 < 2 ^ 16) }
    requires ends { ⟦<Parties<P> as Words>⟧.have_ends parties.old }
    ensures stay { ⟦<Parties<P> as Words>⟧.stay parties.old parties.new }
    ensures beside { (place at : ℕ) → ⟦<Parties<P> as Run>⟧.are_beside place at parties.new }
    ensures told { IsTrue P.ReqRx.keeps.complete → IsTrue P.RepRx.keeps.complete
        → AreAllTold (⟦<Parties<P> as Run>⟧.worker_lists parties.new)
        (⟦<Parties<P> as Run>⟧.session_lists parties.new) }
{
    for place in 0..parties.workers.len() {
        show_worker(parties, place);
    }
}

/// Holds the worker at a place, from 0, beside every session, ascending, and every other worker. Takes no memory.
pub(crate) fn show_worker<P: Mail>(parties: &mut Parties<P>, place: usize)
    requires within { place < length parties.old.workers.items }
    requires few { (length parties.old.workers.items + 1 < 2 ^ 16)
        × (length parties.old.sessions.items + 1 < 2 ^ 16) }
    requires ends { ⟦<Parties<P> as Words>⟧.have_ends parties.old }
    ensures stay { ⟦<Parties<P> as Words>⟧.stay parties.old parties.new }
    ensures beside { (at : ℕ) → ⟦<Parties<P> as Run>⟧.are_beside place at parties.new }
    ensures others { (other at : ℕ) → other ≢ place
        → ⟦<Parties<P> as Run>⟧.are_beside other at parties.old
        → ⟦<Parties<P> as Run>⟧.are_beside other at parties.new }
    ensures met { (other : ℕ) → other ≢ place → other < length parties.old.workers.items
        → ⟦<Parties<P> as Words>⟧.has_met place other parties.new }
{
    show_to_sessions(parties, place);
    show_to_mates(parties, place);
}

/// Holds the worker at a place beside every session, ascending.
fn show_to_sessions<P: Mail>(parties: &mut Parties<P>, place: usize)
    requires within { place < length parties.old.workers.items }
    requires few { length parties.old.sessions.items + 1 < 2 ^ 16 }
    requires ends { ⟦<Parties<P> as Words>⟧.have_ends parties.old }
    ensures stay { ⟦<Parties<P> as Words>⟧.stay parties.old parties.new }
    ensures beside { (at : ℕ) → ⟦<Parties<P> as Run>⟧.are_beside place at parties.new }
    ensures others { (other at : ℕ) → other ≢ place
        → ⟦<Parties<P> as Run>⟧.are_beside other at parties.old
        → ⟦<Parties<P> as Run>⟧.are_beside other at parties.new }
{
    for at in 0..parties.sessions.len() {
        show_session(parties, place, at);
    }
}

/// Holds the worker at a place beside the session at another.
fn show_session<P: Mail>(parties: &mut Parties<P>, place: usize, at: usize)
    requires within { (place < length parties.old.workers.items)
        × (at < length parties.old.sessions.items) }
    requires few { length parties.old.sessions.items + 1 < 2 ^ 16 }
    requires ends { ⟦<Parties<P> as Words>⟧.have_ends parties.old }
    ensures stay { ⟦<Parties<P> as Words>⟧.stay parties.old parties.new }
    ensures beside { ⟦<Parties<P> as Run>⟧.are_beside place at parties.new }
    ensures others { (other other_at : ℕ) → (other ≡ place → other_at ≡ at → ⊥)
        → ⟦<Parties<P> as Run>⟧.are_beside other other_at parties.old
        → ⟦<Parties<P> as Run>⟧.are_beside other other_at parties.new }
{
    let worker = &mut parties.workers[place];
    let session = &mut parties.sessions[at];
    worker.beside_session(at as u16 + 1, session);
}

/// Holds the worker at a place beside every other worker, ascending.
fn show_to_mates<P: Mail>(parties: &mut Parties<P>, place: usize)
    requires within { place < length parties.old.workers.items }
    requires few { length parties.old.workers.items + 1 < 2 ^ 16 }
    requires ends { ⟦<Parties<P> as Words>⟧.have_ends parties.old }
    ensures stay { ⟦<Parties<P> as Words>⟧.stay parties.old parties.new }
    ensures still_beside { (other at : ℕ)
        → ⟦<Parties<P> as Run>⟧.are_beside other at parties.old
        → ⟦<Parties<P> as Run>⟧.are_beside other at parties.new }
    ensures met { (other : ℕ) → other ≢ place → other < length parties.old.workers.items
        → ⟦<Parties<P> as Words>⟧.has_met place other parties.new }
{
    for other in 0..parties.workers.len() {
        if other != place {
            show_mate(parties, place, other);
        }
    }
}

/// Holds the workers at two places beside each other.
fn show_mate<P: Mail>(parties: &mut Parties<P>, place: usize, other: usize)
    requires within { (place < length parties.old.workers.items)
        × (other < length parties.old.workers.items) }
    requires differ { other ≢ place }
    requires few { length parties.old.workers.items + 1 < 2 ^ 16 }
    requires ends { ⟦<Parties<P> as Words>⟧.have_ends parties.old }
    ensures stay { ⟦<Parties<P> as Words>⟧.stay parties.old parties.new }
    ensures still_beside { (place_of_it at : ℕ)
        → ⟦<Parties<P> as Run>⟧.are_beside place_of_it at parties.old
        → ⟦<Parties<P> as Run>⟧.are_beside place_of_it at parties.new }
    ensures met { ⟦<Parties<P> as Words>⟧.has_met place other parties.new }
    ensures still_met { (place_of_it mate : ℕ)
        → ⟦<Parties<P> as Words>⟧.has_met place_of_it mate parties.old
        → ⟦<Parties<P> as Words>⟧.has_met place_of_it mate parties.new }
{
    show_pair(&mut parties.workers, place, other);
}
