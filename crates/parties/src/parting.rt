//! Parties are no longer held beside each other.
ghost use Rattle.std.specs.Prelude.{◌≡◌, All, map};
ghost use Rattle.parties.specs.Beside.{IsApart};
ghost use Rattle.parties.specs.Session.{proxy_of};

use crate::Run;
use crate::parties::{Parties, Words};
use store_msg::Mail;

/// Nobody is beside any box of the parties any longer. Takes no memory.
pub(crate) fn part_all<P: Mail>(parties: &mut Parties<P>)
    ensures stay { ⟦<Parties<P> as Words>⟧.stay parties.old parties.new }
    ensures apart { ⟦<Parties<P> as Run>⟧.are_apart parties.new }
{
    part_workers(parties);
    part_sessions(parties);
}

/// Nobody is beside any box of the workers any longer.
fn part_workers<P: Mail>(parties: &mut Parties<P>)
    ensures stay { ⟦<Parties<P> as Words>⟧.stay parties.old parties.new }
    ensures apart { All (λ worker. IsApart (P.ReqRx.about worker.ends.requests)
        × IsApart (P.GosRx.about worker.ends.gossip_in)) parties.new.workers.items }
{
    for worker in parties.workers.iter_mut() {
        worker.apart();
    }
}

/// Nobody is beside any box of the sessions any longer.
fn part_sessions<P: Mail>(parties: &mut Parties<P>)
    ensures stay { ⟦<Parties<P> as Words>⟧.stay parties.old parties.new }
    ensures apart { All (λ proxy. IsApart (P.RepRx.about proxy.ends.replies))
        (map proxy_of parties.new.sessions.items) }
    ensures workers { parties.new.workers ≡ parties.old.workers }
{
    for session in parties.sessions.iter_mut() {
        session.apart();
    }
}
