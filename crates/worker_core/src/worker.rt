//! A worker.
ghost use Rattle.std.specs.Prelude.{◌≡◌, ◌≢◌, ◌⊎◌, ℕ, ◌<◌, ◌≤◌, ◌+◌, ◌-◌, ◌^◌, All, Bool, true, false, List, [], is_some, length, map, option_map, min, replicate, slice_get, slice_index_or, None, Some, Ok, IsTrue, IfOk, OnOk, OnErr, MatchResult};
ghost use Rattle.lattice_laws.specs.Counts.{Rose};
ghost use Rattle.mail_contract.specs.OverBoxes as boxes;
ghost use Rattle.mail_contract.specs.OverSenders.{number_at, sent_at};
ghost use Rattle.mail_contract.specs.OverWeakBoxes as weak;
ghost use Rattle.mail_contract.specs.Standing.{AllPart, IsSettled, Learned};
ghost use Rattle.mail_contract.specs.Takes.{IsFront, from_sender};
ghost use Rattle.merge_world.specs.Effects.{cells_at};
ghost use Rattle.worker_core.specs.Kept.{IsRequest};
ghost use Rattle.worker_core.specs.Order.{IsDue};
ghost use Rattle.worker_core.specs.OverWorkers as over;
ghost use Rattle.worker_core.specs.Room.{LearnsRoomOf};
ghost use Rattle.worker_core.specs.Sealed.{HoldsSealed, sealed_of};
ghost use Rattle.worker_core.specs.Serving.{rests_as};
ghost use Rattle.worker_core.specs.State.{IsFixed, changed_of, dirty, kept_request, lists_of, opening_state};
ghost use Rattle.worker_core.specs.Turns.{MayAsk, OnNoneSent, OnNothing, joined_in};

use crate::boxes::meet;
use crate::local::Local;
use crate::sealed::batch_of;
use crate::serve::{
    attest_entries, attest_request, count_again, count_request, keep, resend, serve,
};
use crate::{Did, Popped, SealedOver};
use composed_value::{Cell, Kind};
use gossip_rounds::{Changeset, gossip};
use lattice_laws::{Items, NoMemory};
use mail_contract::{GossipRx, Rx, Tx, settle_one, take_one, take_weak};
use merge_world::PrivateMap;
use placement::Placement;
use std::marker::Model;
use store_msg::{Batch, Mail, Meets, Reply, Request, WorkerEndsOver};

/// A worker over the ends that it holds.
#[derive(Drop)]
pub struct WorkerOver<Q: Rx<Request>, T: Tx<Reply>, O: Tx<Batch>, G: GossipRx<Batch, From = O>> {
    pub(crate) local: Local,
    pub(crate) ends: WorkerEndsOver<Q, T, O, G>,
}

/// A worker over one kind of mail.
pub type Worker<P> = WorkerOver<
    <P as Mail>::ReqRx,
    <P as Mail>::RepTx,
    <P as Mail>::GosTx,
    <P as Mail>::GosRx,
>;

impl<Q: Rx<Request>, T: Tx<Reply>, O: Tx<Batch>, G: GossipRx<Batch, From = O>> Model
    for WorkerOver<Q, T, O, G> {
    ghost use Rattle.worker_core.specs.Kept.{IsLawful};
    ghost use Rattle.worker_core.specs.Local.{state_of};
    ghost use Rattle.worker_core.specs.State.{PlainWorker, lists_of};

    ghost Value = { PlainWorker Q T O G };

    ghost view = { λ worker. record { state = state_of worker.local; ends = worker.ends } };

    ghost invariant = { λ worker. IsLawful
        (lists_of Q.received T.sent O.sent G.got (record { state = state_of worker.local; ends = worker.ends }))
        worker.local.taken worker.local.changes.most };
}

impl<Q: Rx<Request>, T: Tx<Reply>, O: Tx<Batch>, G: GossipRx<Batch, From = O>> WorkerOver<
    Q,
    T,
    O,
    G,
> {
    /// A worker that holds its keys with empty cells, with nothing received and nothing told. It makes a round
    /// of gossip after `round` requests, 1 to 64. Each key has a kind. The ends are unused; there is one
    /// sender of gossip for each other worker, and `me` is one of the workers' numbers, from 1.
    pub fn new(
        me: u16,
        round: u32,
        placement: Placement,
        kinds: Items<Kind>,
        ends: WorkerEndsOver<Q, T, O, G>,
    ) -> Result<WorkerOver<Q, T, O, G>, NoMemory>
        requires me { (1 ≤ me) × (me ≤ length ends.gossip_out.items + 1) }
        requires mates { length ends.gossip_out.items + 1 < 2 ^ 16 }
        requires round { (1 ≤ round) × (round ≤ 64) }
        requires kinds { length kinds ≡ length placement }
        requires received { Q.received ends.requests ≡ [] }
        requires got { (sender place : ℕ) → G.got ends.gossip_in sender place ≡ None }
        requires replied { All (λ sender. T.sent sender ≡ []) ends.replies.items }
        requires told { All (λ sender. O.sent sender ≡ []) ends.gossip_out.items }
        ensures worker { IfOk result (λ worker. worker ≡ record {
          state = opening_state me round placement kinds (length ends.gossip_out.items);
          ends = ends;
        }) }
        ensures share { IfOk result (over.Share Q.Rx T.Tx O.Tx G.GossipRx) }
        ensures lags { IfOk result (over.Lags Q.Rx T.Tx O.Tx G.GossipRx) }
    {
        let alloc = *ends.gossip_out.allocator();
        let mates = ends.gossip_out.len();
        let map = PrivateMap::new(alloc, me, &placement, kinds.as_slice())?;
        let changes = Changeset::new(alloc, placement.keys(), mates)?;
        let turned = vec![in alloc; 0; mates]?;
        let local = Local {
            me,
            round,
            placement,
            kinds,
            map,
            changes,
            turned,
            since: 0,
            taken: 0,
            kept: None,
            held: None,
        };
        let worker = WorkerOver { local, ends };
        worker.attest();
        Ok(worker)
    }

    /// Does the first of these that there is to do, and tells which. It works on the message that an earlier
    /// call kept; sends the reply that is held again; makes a round of gossip, where keys are left to tell and
    /// `round` requests were taken since the last one; takes a batch of gossip and joins it; takes a request,
    /// where no reply is held, and works on it; makes a round of gossip where keys are left to tell.
    ///
    /// A reply that finds no place is held, and none that was sent is taken back. A sender of replies that found
    /// a place for the next one still does, or has sent one since; and where there is nothing to do while a reply
    /// is held, its sender found no place. With `NoMemory` the cells are as before, and a message that was taken
    /// is kept: a later call works on it.
    ///
    /// Where its box of gossip is finite and it is known of every sender how many messages are left, each batch
    /// that was joined is one fewer that may still come, and no call makes more. Where a request was worked on,
    /// a batch was joined or there is nothing to do, the senders of gossip are as before, or a round was tried
    /// first: keys were left to tell, and to each mate that was left to tell the first batch came back.
    /// What came before what it did is told by `in_order`. Whatever it answers, what was told to each mate goes on from
    /// what was, no less is shown of any key, and each reply since counts at least what was shown of its key.
    pub fn turn(&mut self) -> Result<Did, NoMemory>
        ensures share { over.Share Q.Rx T.Tx O.Tx G.GossipRx self.new }
        ensures lags { over.Lags Q.Rx T.Tx O.Tx G.GossipRx self.new }
        ensures fixed { IsFixed self.old.state self.new.state }
        ensures keys { over.KeysStay Q.Rx T.Tx O.Tx G.GossipRx self.old self.new }
        ensures replied { over.NoneTakenBack T.Tx self.old self.new }
        ensures did { over.Turns Q.Rx T.Tx O.Tx G.GossipRx result self.old self.new }
        ensures turned { over.TurnsOnlyWhereFull Q.Rx T.Tx O.Tx G.GossipRx self.old self.new }
        ensures requests { boxes.MayTake Q.Rx self.old.ends.requests self.new.ends.requests }
        ensures gossip { weak.MayHandOut G.GossipRx self.old.ends.gossip_in
            self.new.ends.gossip_in }
        ensures no_request { OnNothing result (IsTrue (is_some self.new.state.held)
            ⊎ boxes.FindsNothing Q.Rx self.new.ends.requests) }
        ensures no_gossip { OnNothing result
            (weak.FindsNothing G.GossipRx self.new.ends.gossip_in) }
        ensures fewer { over.FewerMayCome G.GossipRx (joined_in result) self.old self.new }
        ensures senders { OnNoneSent result
            (over.StayOrCameBack Q.Rx T.Tx O.Tx G.GossipRx self.old self.new) }
        ensures stay_clear { OnOk result (over.StayClear T.Tx self.old self.new) }
        ensures wants_place { OnNothing result (over.WantsPlace T.Tx self.old self.new) }
        ensures no_room { OnNothing result (over.HasNoRoom T.Tx self.old self.new) }
        ensures in_order { over.InOrder Q.Rx T.Tx O.Tx G.GossipRx result self.old self.new }
        ensures shows_more { over.ShowsMore Q.Rx T.Tx O.Tx G.GossipRx self.old self.new }
    {
        self.attest_kept();
        let did = self.step();
        self.attest();
        self.attest_kept();
        did
    }

    /// Tells what the worker keeps from call to call: its share, how far gossip lags, that each request that
    /// it received is one that there can be, and that it counts changed keys for each mate, for none of them
    /// more than there are keys. It does nothing, and takes no memory.
    pub fn attest(&self)
        ensures share { over.Share Q.Rx T.Tx O.Tx G.GossipRx self.now }
        ensures lags { over.Lags Q.Rx T.Tx O.Tx G.GossipRx self.now }
        ensures requests { All (λ message. IsRequest message.1)
            (Q.received self.now.ends.requests) }
        ensures mates { length self.now.state.changed ≡ length self.now.ends.gossip_out.items }
        ensures few_changed { (place : ℕ)
            → length (changed_of self.now.state place) ≤ length self.now.state.placement }
    {
        let _ = &self.local;
    }

    /// Tells all that the worker keeps from call to call.
    fn attest_kept(&self)
        ensures { over.IsKept Q.Rx T.Tx O.Tx G.GossipRx self.now }
    {
        let _ = &self.local;
    }

    fn step(&mut self) -> Result<Did, NoMemory>
        ensures fixed { IsFixed self.old.state self.new.state }
        ensures keys { over.KeysStay Q.Rx T.Tx O.Tx G.GossipRx self.old self.new }
        ensures replied { over.NoneTakenBack T.Tx self.old self.new }
        ensures did { over.Turns Q.Rx T.Tx O.Tx G.GossipRx result self.old self.new }
        ensures turned { over.TurnsOnlyWhereFull Q.Rx T.Tx O.Tx G.GossipRx self.old self.new }
        ensures requests { boxes.MayTake Q.Rx self.old.ends.requests self.new.ends.requests }
        ensures gossip { weak.MayHandOut G.GossipRx self.old.ends.gossip_in
            self.new.ends.gossip_in }
        ensures no_request { OnNothing result (IsTrue (is_some self.new.state.held)
            ⊎ boxes.FindsNothing Q.Rx self.new.ends.requests) }
        ensures no_gossip { OnNothing result
            (weak.FindsNothing G.GossipRx self.new.ends.gossip_in) }
        ensures fewer { over.FewerMayCome G.GossipRx (joined_in result) self.old self.new }
        ensures senders { OnNoneSent result
            (over.StayOrCameBack Q.Rx T.Tx O.Tx G.GossipRx self.old self.new) }
        ensures stay_clear { OnOk result (over.StayClear T.Tx self.old self.new) }
        ensures wants_place { OnNothing result (over.WantsPlace T.Tx self.old self.new) }
        ensures no_room { OnNothing result (over.HasNoRoom T.Tx self.old self.new) }
        ensures in_order { over.InOrder Q.Rx T.Tx O.Tx G.GossipRx result self.old self.new }
    {
        if self.has_kept() {
            return self.work();
        }
        if self.resend()? {
            return Ok(Did::Request);
        }
        let due = self.is_due();
        if self.tell_if(due)? > 0 {
            return Ok(Did::Round);
        }
        if self.take_gossip()? {
            return self.work();
        }
        if self.take_request()? {
            return self.work();
        }
        let left = self.is_left(due);
        if self.tell_if(left)? > 0 {
            return Ok(Did::Round);
        }
        Ok(self.rests())
    }

    /// Whether a message is kept.
    fn has_kept(&self) -> bool
        ensures kept { result ≡ is_some self.now.state.kept }
        ensures mates { length self.now.state.changed ≡ length self.now.ends.gossip_out.items }
    {
        self.local.kept.is_some()
    }

    /// Whether a round is to be made before the next request is taken.
    fn is_due(&self) -> bool
        ensures due { IsTrue result → IsDue self.now.state }
        ensures not_due { result ≡ false → MayAsk self.now.state }
    {
        self.local.since >= self.local.round && self.local.changes.len() > 0
    }

    /// Whether a round is to be made since nothing else was to do, and none was tried.
    fn is_left(&self, tried: bool) -> bool
        ensures left { IsTrue result → (tried ≡ false) × (1 ≤ dirty self.now.state) }
        ensures none { result ≡ false → tried ≡ false → dirty self.now.state ≡ 0 }
    {
        !tried && self.local.changes.len() > 0
    }

    /// What a turn did that found nothing to do.
    fn rests(&self) -> Did
        ensures { result ≡ rests_as self.now.state }
    {
        if self.local.changes.len() > 0 || self.local.held.is_some() {
            Did::Blocked
        } else {
            Did::Idle
        }
    }

    /// Works on the message that is kept. After `NoMemory` all is as before.
    fn work(&mut self) -> Result<Did, NoMemory>
        requires { IsTrue (is_some self.old.state.kept) }
        ensures fixed { IsFixed self.old.state self.new.state }
        ensures keys { over.KeysStay Q.Rx T.Tx O.Tx G.GossipRx self.old self.new }
        ensures replied { over.NoneTakenBack T.Tx self.old self.new }
        ensures requests { self.new.ends.requests ≡ self.old.ends.requests }
        ensures gossip_in { self.new.ends.gossip_in ≡ self.old.ends.gossip_in }
        ensures gossip_out { self.new.ends.gossip_out ≡ self.old.ends.gossip_out }
        ensures works { over.WorksOn Q.Rx T.Tx O.Tx G.GossipRx result self.old self.new }
        ensures turned { self.new.state.turned ≡ self.old.state.turned }
        ensures held_back { OnOk result (over.HoldsBack T.Tx self.old self.new) }
        ensures stay_clear { OnOk result (over.StayClear T.Tx self.old self.new) }
    {
        serve(&mut self.local, &mut self.ends.replies)
    }

    /// Sends the reply that is held again, and tells whether it went out.
    fn resend(&mut self) -> Result<bool, NoMemory>
        ensures keys { over.KeysStay Q.Rx T.Tx O.Tx G.GossipRx self.old self.new }
        ensures replied { over.NoneTakenBack T.Tx self.old self.new }
        ensures requests { self.new.ends.requests ≡ self.old.ends.requests }
        ensures gossip_in { self.new.ends.gossip_in ≡ self.old.ends.gossip_in }
        ensures gossip_out { self.new.ends.gossip_out ≡ self.old.ends.gossip_out }
        ensures state { self.new.state ≡ record self.old.state { held = self.new.state.held } }
        ensures resent { over.Resent T.Tx result self.old self.new }
        ensures stay_clear { OnOk result (over.StayClear T.Tx self.old self.new) }
        ensures wants_place { OnOk result (over.WantsPlace T.Tx self.old self.new) }
        ensures no_room { OnOk result (over.HasNoRoom T.Tx self.old self.new) }
        ensures none_held { self.old.state.held ≡ None
            → self.new.ends.replies ≡ self.old.ends.replies }
    {
        resend(&mut self.local.held, &mut self.ends.replies)
    }

    /// Takes a batch of gossip out of its box, which is kept then, and tells whether there was one.
    fn take_gossip(&mut self) -> Result<bool, NoMemory>
        requires { self.old.state.kept ≡ None }
        ensures keys { over.KeysStay Q.Rx T.Tx O.Tx G.GossipRx self.old self.new }
        ensures requests { self.new.ends.requests ≡ self.old.ends.requests }
        ensures replies { self.new.ends.replies ≡ self.old.ends.replies }
        ensures gossip_out { self.new.ends.gossip_out ≡ self.old.ends.gossip_out }
        ensures hands_out { weak.MayHandOut G.GossipRx self.old.ends.gossip_in
            self.new.ends.gossip_in }
        ensures kept { over.TakesGossip Q.Rx T.Tx O.Tx G.GossipRx result self.old self.new }
        ensures fewer { over.FewerMayCome G.GossipRx 0 self.old self.new }
    {
        match take_weak(&mut self.ends.gossip_in)? {
            Some((sender, batch)) => {
                attest_entries(batch.as_slice());
                keep(&mut self.local.kept, Popped::Batch(sender, batch));
                Ok(true)
            }
            None => Ok(false),
        }
    }

    /// Takes a request out of its box where no reply is held; it is kept then. Tells whether there was one.
    fn take_request(&mut self) -> Result<bool, NoMemory>
        requires kept { self.old.state.kept ≡ None }
        requires asks { MayAsk self.old.state }
        ensures keys { over.KeysStay Q.Rx T.Tx O.Tx G.GossipRx self.old self.new }
        ensures gossip_in { self.new.ends.gossip_in ≡ self.old.ends.gossip_in }
        ensures replies { self.new.ends.replies ≡ self.old.ends.replies }
        ensures gossip_out { self.new.ends.gossip_out ≡ self.old.ends.gossip_out }
        ensures takes { boxes.MayTake Q.Rx self.old.ends.requests self.new.ends.requests }
        ensures kept { over.TakesRequest Q.Rx T.Tx O.Tx G.GossipRx result self.old self.new }
        ensures none_held { IfOk result (λ taken. IsTrue taken → self.old.state.held ≡ None) }
    {
        if self.local.held.is_some() {
            return Ok(false);
        }
        match take_one(&mut self.ends.requests)? {
            Some((session, request)) => {
                attest_request(&request);
                keep(&mut self.local.kept, Popped::Request(session, request));
                count_request(&mut self.local);
                Ok(true)
            }
            None => Ok(false),
        }
    }

    /// Makes a round of gossip: tells each mate of the keys that changed since it was last told of them, in
    /// batches of at most 16 keys in ascending order, each with its present own cell. Answers the number of
    /// batches that went out. Keys whose batch found no place stay changed.
    ///
    /// With `NoMemory` some keys were told, and all others stay changed.
    pub fn round(&mut self) -> Result<u32, NoMemory>
        ensures share { over.Share Q.Rx T.Tx O.Tx G.GossipRx self.new }
        ensures lags { over.Lags Q.Rx T.Tx O.Tx G.GossipRx self.new }
        ensures fixed { IsFixed self.old.state self.new.state }
        ensures keys { over.KeysStay Q.Rx T.Tx O.Tx G.GossipRx self.old self.new }
        ensures requests { self.new.ends.requests ≡ self.old.ends.requests }
        ensures replies { self.new.ends.replies ≡ self.old.ends.replies }
        ensures gossip_in { self.new.ends.gossip_in ≡ self.old.ends.gossip_in }
        ensures rounds { over.Rounds Q.Rx T.Tx O.Tx G.GossipRx result self.old self.new }
    {
        let sent = self.tell();
        self.attest();
        sent
    }

    /// Makes a round of gossip, or none, and gives the number of batches that went out.
    fn tell_if(&mut self, made: bool) -> Result<u32, NoMemory>
        ensures fixed { IsFixed self.old.state self.new.state }
        ensures keys { over.KeysStay Q.Rx T.Tx O.Tx G.GossipRx self.old self.new }
        ensures requests { self.new.ends.requests ≡ self.old.ends.requests }
        ensures replies { self.new.ends.replies ≡ self.old.ends.replies }
        ensures gossip_in { self.new.ends.gossip_in ≡ self.old.ends.gossip_in }
        ensures gossip_out { made ≡ false → self.new.ends.gossip_out ≡ self.old.ends.gossip_out }
        ensures asks { OnOk result (IsTrue made → MayAsk self.new.state) }
        ensures mates { length self.new.state.changed ≡ length self.new.ends.gossip_out.items }
        ensures rounds { over.RoundsIf Q.Rx T.Tx O.Tx G.GossipRx made result self.old self.new }
    {
        let _ = &self.local;
        if made { self.tell() } else { Ok(0) }
    }

    /// Tells each mate what changed.
    fn tell(&mut self) -> Result<u32, NoMemory>
        ensures fixed { IsFixed self.old.state self.new.state }
        ensures keys { over.KeysStay Q.Rx T.Tx O.Tx G.GossipRx self.old self.new }
        ensures requests { self.new.ends.requests ≡ self.old.ends.requests }
        ensures replies { self.new.ends.replies ≡ self.old.ends.replies }
        ensures gossip_in { self.new.ends.gossip_in ≡ self.old.ends.gossip_in }
        ensures asks { OnOk result (MayAsk self.new.state) }
        ensures mates { length self.new.state.changed ≡ length self.new.ends.gossip_out.items }
        ensures rounds { over.Rounds Q.Rx T.Tx O.Tx G.GossipRx result self.old self.new }
    {
        let alloc = *self.local.turned.allocator();
        let told = gossip(
            alloc,
            &self.local.map,
            &mut self.local.changes,
            self.local.taken,
            &mut self.local.turned,
            &mut self.ends.gossip_out,
        );
        count_again(&mut self.local.since, &told);
        told
    }

    /// The join of the puts on a key that the worker took itself and of all that it heard of it, and nothing
    /// where it does not hold the key. Takes no memory.
    pub fn cell(&self, key: u16) -> Option<&Cell>
        ensures { option_map (λ cell. cell.now) result
            ≡ option_map (λ cells. cells.whole) (cells_at self.now.state.cells key) }
    {
        self.local.map.whole(key)
    }

    /// The number of pairs of a key and a mate in the changeset. Takes no memory.
    pub fn dirty(&self) -> usize
        ensures { result ≡ dirty self.now.state }
    {
        self.local.changes.len()
    }

    /// Takes in a session's sender that has ended. Takes no memory.
    pub fn settle(&mut self, ended: Q::From)
        requires pair { Q.pairs (Q.key self.old.ends.requests)
            (Q.From.key ended) (Q.From.number ended) }
        requires once { IsSettled (Q.about self.old.ends.requests (Q.From.number ended)).standing →
            ⊥ }
        ensures share { over.Share Q.Rx T.Tx O.Tx G.GossipRx self.new }
        ensures lags { over.Lags Q.Rx T.Tx O.Tx G.GossipRx self.new }
        ensures key { Q.key self.new.ends.requests ≡ Q.key self.old.ends.requests }
        ensures settles { boxes.Settles Q.Rx Q.From.Tx ended
            self.old.ends.requests self.new.ends.requests }
        ensures rest { self.new ≡ record self.old {
          ends = record self.old.ends { requests = self.new.ends.requests };
        } }
    {
        settle_one(&mut self.ends.requests, ended);
        self.attest();
    }

    /// Holds a session beside the worker, by its number, from 1: the box of requests beside the session's
    /// sender, and the sender of replies beside the session's box. The ends are of one making. Takes no
    /// memory.
    pub fn beside_session<S: Meets<Q, T>>(&mut self, session: u16, side: &mut S)
        requires session { (1 ≤ session) × (session ≤ length self.old.ends.replies.items) }
        requires pairs { (sender : T) → over.IsReplier self.old session sender
            → S.pairs (S.key side.old) self.old.state.me (Q.key self.old.ends.requests)
            (S.number side.old self.old.state.me) (T.key sender) (T.number sender) }
        ensures share { over.Share Q.Rx T.Tx O.Tx G.GossipRx self.new }
        ensures lags { over.Lags Q.Rx T.Tx O.Tx G.GossipRx self.new }
        ensures state { self.new.state ≡ self.old.state }
        ensures gossip_in { self.new.ends.gossip_in ≡ self.old.ends.gossip_in }
        ensures gossip_out { self.new.ends.gossip_out ≡ self.old.ends.gossip_out }
        ensures requests_key { Q.key self.new.ends.requests ≡ Q.key self.old.ends.requests }
        ensures requests { boxes.Shows Q.Rx
            (S.number side.old self.old.state.me) (S.asked side.old self.old.state.me)
            self.old.ends.requests self.new.ends.requests }
        ensures replies_keys { map T.key self.new.ends.replies.items
            ≡ map T.key self.old.ends.replies.items }
        ensures replies_numbers { map T.number self.new.ends.replies.items
            ≡ map T.number self.old.ends.replies.items }
        ensures replies_sent { map T.sent self.new.ends.replies.items
            ≡ map T.sent self.old.ends.replies.items }
        ensures replies_fulls { map T.fulls self.new.ends.replies.items
            ≡ map T.fulls self.old.ends.replies.items }
        ensures key { S.key side.new ≡ S.key side.old }
        ensures number { S.number side.new ≡ S.number side.old }
        ensures asked { S.asked side.new ≡ S.asked side.old }
        ensures heard { S.heard side.new ≡ S.heard side.old }
        ensures rest { S.rest side.new ≡ S.rest side.old }
        ensures roomy { IsTrue Q.keeps.roomy → S.unseen side.new self.old.state.me
            ≡ min 64 (length (S.asked side.old self.old.state.me)
            - length (from_sender (S.number side.old self.old.state.me)
            (Q.received self.old.ends.requests))) }
        ensures freed { IsTrue Q.keeps.freed → length (S.asked side.old self.old.state.me)
            ≤ length (from_sender (S.number side.old self.old.state.me)
            (Q.received self.old.ends.requests)) → S.clear side.new self.old.state.me }
        ensures learned { Learned S.keeps
            (number_at T.Tx self.old.ends.replies.items (session - 1))
            (sent_at T.Tx self.old.ends.replies.items (session - 1))
            (S.about side.old) (S.about side.new) }
        ensures told { IsTrue S.keeps.complete → IsFront (S.heard side.old self.old.state.me)
            (sent_at T.Tx self.old.ends.replies.items (session - 1)) }
        ensures room { LearnsRoomOf T.clear T.unseen self.new.ends.replies.items (session - 1)
            S.keeps
            (S.heard side.old self.old.state.me)
            (sent_at T.Tx self.old.ends.replies.items (session - 1)) }
        ensures other_sessions { (place : ℕ) → place ≢ session - 1
            → slice_get self.new.ends.replies.items place
            ≡ slice_get self.old.ends.replies.items place }
        ensures other_workers { (other : ℕ) → 1 ≤ other → other ≢ self.old.state.me
            → S.clear side.old other → S.clear side.new other }
    {
        let me = self.local.me;
        meet(
            side,
            me,
            &mut self.ends.requests,
            &mut self.ends.replies,
            session,
        );
        self.attest();
    }

    /// Nobody is beside the worker's boxes any longer. Takes no memory.
    pub fn apart(&mut self)
        ensures share { over.Share Q.Rx T.Tx O.Tx G.GossipRx self.new }
        ensures lags { over.Lags Q.Rx T.Tx O.Tx G.GossipRx self.new }
        ensures state { self.new.state ≡ self.old.state }
        ensures replies { self.new.ends.replies ≡ self.old.ends.replies }
        ensures gossip_out { self.new.ends.gossip_out ≡ self.old.ends.gossip_out }
        ensures requests_key { Q.key self.new.ends.requests ≡ Q.key self.old.ends.requests }
        ensures requests_received { Q.received self.new.ends.requests
            ≡ Q.received self.old.ends.requests }
        ensures requests_answers { Q.answers self.new.ends.requests
            ≡ Q.answers self.old.ends.requests }
        ensures requests_about { AllPart (Q.about self.old.ends.requests)
            (Q.about self.new.ends.requests) }
        ensures gossip_key { G.key self.new.ends.gossip_in ≡ G.key self.old.ends.gossip_in }
        ensures gossip_got { G.got self.new.ends.gossip_in ≡ G.got self.old.ends.gossip_in }
        ensures gossip_answers { G.answers self.new.ends.gossip_in
            ≡ G.answers self.old.ends.gossip_in }
        ensures gossip_about { AllPart (G.about self.old.ends.gossip_in)
            (G.about self.new.ends.gossip_in) }
    {
        self.ends.requests.apart();
        self.ends.gossip_in.apart();
        self.attest();
    }

    /// The worker, sealed, with its senders of replies and of gossip: it is asked nothing more, and tells
    /// nothing. Nothing is left to tell or to send, and no request is kept. Takes no memory.
    pub fn seal(self) -> (SealedOver<Q, G>, Vec<T>, Vec<O>)
        requires clean { dirty self.state ≡ 0 }
        requires none_held { self.state.held ≡ None }
        requires none_kept { kept_request self.state.kept ≡ [] }
        ensures sealed { result.0 ≡ sealed_of self }
        ensures holds { HoldsSealed Q.received G.got result.0 }
        ensures replies { result.1 ≡ self.ends.replies }
        ensures gossip_out { result.2 ≡ self.ends.gossip_out }
    {
        let WorkerOver { local, ends } = self;
        let sealed = SealedOver {
            me: local.me,
            kinds: local.kinds,
            map: local.map,
            kept: batch_of(local.kept),
            requests: ends.requests,
            gossip_in: ends.gossip_in,
        };
        sealed.attest();
        (sealed, ends.replies, ends.gossip_out)
    }
}
