//! A worker whose sessions have ended, and which receives gossip alone.
ghost use Rattle.std.specs.Prelude.{◌≡◌, is_some, option_map, IfOk, IsTrue, None, Some};
ghost use Rattle.mail_contract.specs.OverWeakBoxes as weak;
ghost use Rattle.mail_contract.specs.Standing.{IsSettled};
ghost use Rattle.merge_world.specs.Effects.{cells_at};
ghost use Rattle.worker_core.specs.OverSealed as over;
ghost use Rattle.worker_core.specs.Sealed.{HoldsSealed, JoinsKept, batch_of, heard_in};

use crate::Popped;
use crate::serve::attest_entries;
use composed_value::{Cell, Kind};
use lattice_laws::{Items, NoMemory};
use mail_contract::{GossipRx, Rx, Tx, settle_weak, take_weak};
use merge_world::PrivateMap;
use std::marker::Model;
use store_msg::{Batch, Mail, Request};

/// A worker whose sessions have ended: it makes no replies and tells nothing, and receives what the others
/// told it.
#[derive(Drop)]
pub struct SealedOver<Q: Rx<Request>, G: GossipRx<Batch>> {
    pub(crate) me: u16,
    pub(crate) kinds: Items<Kind>,
    pub(crate) map: PrivateMap,
    pub(crate) kept: Option<(u16, Batch)>,
    pub(crate) requests: Q,
    pub(crate) gossip_in: G,
}

/// A sealed worker over one kind of mail.
pub type Sealed<P> = SealedOver<<P as Mail>::ReqRx, <P as Mail>::GosRx>;

impl<Q: Rx<Request>, G: GossipRx<Batch>> Model for SealedOver<Q, G> {
    ghost use Rattle.worker_core.specs.Sealed.{KeepsSealed, PlainSealed};

    ghost Value = { PlainSealed Q G };

    ghost view = { λ worker. record {
      me = worker.me;
      kinds = worker.kinds;
      cells = worker.map;
      kept = worker.kept;
      requests = worker.requests;
      gossip_in = worker.gossip_in;
    } };

    ghost invariant = { λ worker. KeepsSealed worker.kinds worker.map
        (Q.received worker.requests) (G.got worker.gossip_in) worker.kept };
}

impl<Q: Rx<Request>, G: GossipRx<Batch>> SealedOver<Q, G> {
    /// Joins one batch of gossip, and tells whether there was one. After `NoMemory` the cells are as before,
    /// and a batch that was taken is kept and comes first.
    ///
    /// Where its box is finite and it is known of every sender how many messages are left, each batch that was
    /// joined is one fewer that may still come, and no call makes more.
    pub fn hear(&mut self) -> Result<bool, NoMemory>
        ensures holds { HoldsSealed Q.received G.got self.new }
        ensures fixed { self.new ≡ record self.old {
          cells = self.new.cells;
          kept = self.new.kept;
          gossip_in = self.new.gossip_in;
        } }
        ensures key { G.key self.new.gossip_in ≡ G.key self.old.gossip_in }
        ensures gossip { weak.MayHandOut G.GossipRx self.old.gossip_in self.new.gossip_in }
        ensures hears { over.HearsOne G.GossipRx result self.old self.new }
        ensures fewer { over.FewerMayCome G.GossipRx (heard_in result) self.old self.new }
    {
        let heard = self.hear_next();
        self.attest();
        heard
    }

    fn hear_next(&mut self) -> Result<bool, NoMemory>
        ensures fixed { self.new ≡ record self.old {
          cells = self.new.cells;
          kept = self.new.kept;
          gossip_in = self.new.gossip_in;
        } }
        ensures key { G.key self.new.gossip_in ≡ G.key self.old.gossip_in }
        ensures gossip { weak.MayHandOut G.GossipRx self.old.gossip_in self.new.gossip_in }
        ensures hears { over.HearsOne G.GossipRx result self.old self.new }
        ensures fewer { over.FewerMayCome G.GossipRx (heard_in result) self.old self.new }
    {
        if self.has_kept() {
            return self.join();
        }
        if self.take()? {
            return self.join();
        }
        Ok(false)
    }

    fn has_kept(&self) -> bool
        ensures { result ≡ is_some self.now.kept }
    {
        self.kept.is_some()
    }

    /// Takes a batch out of its box, which is kept then, and tells whether there was one.
    fn take(&mut self) -> Result<bool, NoMemory>
        requires { self.old.kept ≡ None }
        ensures fixed { self.new ≡ record self.old {
          kept = self.new.kept;
          gossip_in = self.new.gossip_in;
        } }
        ensures key { G.key self.new.gossip_in ≡ G.key self.old.gossip_in }
        ensures gossip { weak.MayHandOut G.GossipRx self.old.gossip_in self.new.gossip_in }
        ensures takes { over.TakesBatch G.GossipRx result self.old self.new }
        ensures fewer { over.FewerMayCome G.GossipRx 0 self.old self.new }
    {
        match take_weak(&mut self.gossip_in)? {
            Some((sender, batch)) => {
                attest_entries(batch.as_slice());
                keep_batch(&mut self.kept, sender, batch);
                Ok(true)
            }
            None => Ok(false),
        }
    }

    /// Joins the batch that is kept, and answers true. After `NoMemory` all is as before.
    fn join(&mut self) -> Result<bool, NoMemory>
        requires { IsTrue (is_some self.old.kept) }
        ensures fixed { self.new ≡ record self.old {
          cells = self.new.cells;
          kept = self.new.kept;
        } }
        ensures did { IfOk result IsTrue }
        ensures joins { JoinsKept result self.old.cells self.new.cells self.old.kept self.new.kept }
    {
        join_kept(&mut self.map, &mut self.kept)
    }

    /// Its cells are the join of what was received. It does nothing.
    pub(crate) fn attest(&self)
        ensures { HoldsSealed Q.received G.got self.now }
    {
        let _ = &self.map;
    }

    /// The join of the puts on a key that the worker took itself and of all that it heard of it, and nothing
    /// where it does not hold the key. Takes no memory.
    pub fn cell(&self, key: u16) -> Option<&Cell>
        ensures { option_map (λ cell. cell.now) result
            ≡ option_map (λ cells. cells.whole) (cells_at self.now.cells key) }
    {
        self.map.whole(key)
    }

    /// Takes in a mate's sender that has ended. Takes no memory.
    pub fn settle(&mut self, ended: G::From)
        requires pair { G.pairs (G.key self.old.gossip_in)
            (G.From.key ended) (G.From.number ended) }
        requires once { IsSettled (G.about self.old.gossip_in (G.From.number ended)).standing → ⊥ }
        ensures holds { HoldsSealed Q.received G.got self.new }
        ensures key { G.key self.new.gossip_in ≡ G.key self.old.gossip_in }
        ensures settles { weak.Settles G.GossipRx G.From.Tx ended self.old.gossip_in
            self.new.gossip_in }
        ensures rest { self.new ≡ record self.old { gossip_in = self.new.gossip_in } }
    {
        settle_weak(&mut self.gossip_in, ended);
        self.attest();
    }
}

/// The batch that a worker kept, and nothing where it kept a request. Takes no memory.
pub(crate) fn batch_of(kept: Option<Popped>) -> Option<(u16, Batch)>
    ensures { result ≡ batch_of kept }
{
    match kept {
        Some(Popped::Batch(sender, batch)) => Some((sender, batch)),
        Some(Popped::Request(..)) => None,
        None => None,
    }
}

/// A batch that was popped is kept. Takes no memory.
fn keep_batch(kept: &mut Option<(u16, Batch)>, sender: u16, batch: Batch)
    ensures { kept.new ≡ Some (sender, batch) }
{
    *kept = Some((sender, batch));
}

/// Joins the batch that is kept, and answers true. After `NoMemory` all is as before.
fn join_kept(map: &mut PrivateMap, kept: &mut Option<(u16, Batch)>) -> Result<bool, NoMemory>
    requires { IsTrue (is_some kept.old) }
    ensures did { IfOk result IsTrue }
    ensures joins { JoinsKept result map.old map.new kept.old kept.new }
{
    if let Some((_, batch)) = kept {
        map.hear(batch.as_slice())?;
    }
    *kept = None;
    Ok(true)
}
