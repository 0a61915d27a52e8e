//! Working on what was received.
ghost use Rattle.std.specs.Prelude.{◌≡◌, ◌≢◌, ◌&&◌, ℕ, ◌<◌, ◌≤◌, ◌+◌, ◌^◌, [], ◌∷◌, if◌then◌else◌, is_some, leb, length, map, slice_get, slice_index_or, min, IsTrue, None, Some, IfOk, OnOk, OnErr};
ghost use Rattle.lattice_laws.specs.Counts.{one_more};
ghost use Rattle.mail_contract.specs.Sends.{FullsAfter, OnFull, OnSent, Posted};
ghost use Rattle.merge_world.specs.Effects.{cells_at, takes};
ghost use Rattle.store_msg.specs.declared.request.Request.TheVariants as requests;
ghost use Rattle.worker_core.specs.Kept.{AreEntries, IsFree, IsRequest};
ghost use Rattle.worker_core.specs.Local.{state_of};
ghost use Rattle.worker_core.specs.Room.{HasNoRoom, StayClear, WantsPlace};
ghost use Rattle.worker_core.specs.Serving.{AddsReplies, HoldsBack, HoldsItsKeys, NoneTakenBack, Resent, Served, Worked, did_of, since_after};
ghost use Rattle.worker_core.specs.Share.{IsHeldFor};
ghost use Rattle.worker_core.specs.State.{lives_at, mate_at};
ghost use Rattle.worker_core.specs.Turns.{AreMarked, IsHeldBack, is_of, marked_for, reply_from};

use crate::local::Local;
use crate::{Did, Popped};
use clock_lattice::Clock;
use composed_value::{Cell, Kind, Put};
use gossip_rounds::Changeset;
use lattice_laws::{Lattice, NoMemory};
use mail_contract::{Refused, Tx, post};
use merge_world::PrivateMap;
use placement::Placement;
use std::alloc::Global;
use store_msg::{Reply, Request};

/// The number of a mate, by its place from 0 among a worker's mates. Takes no memory.
pub(crate) fn mate_at(me: u16, place: usize) -> u16
    requires { place + 2 < 2 ^ 16 }
    ensures { result ≡ mate_at me place }
{
    let number = place as u16 + 1;
    if number < me { number } else { number + 1 }
}

/// Whether a worker is one of a key's replicas. Takes no memory.
fn lives_at(placement: &Placement, worker: u16, key: u16) -> bool
    requires { (1 ≤ key) × (key ≤ length placement.now) }
    ensures { result ≡ lives_at placement.now worker key }
{
    placement.replicas(key).contains(&worker)
}

/// Whether a put changes the cells of its key: it has a number, and the key is held and of its kind. Takes
/// no memory.
fn is_changed(map: &PrivateMap, key: u16, put: &Put) -> bool
    ensures { result ≡ (leb 1 put.now.number && is_of put.now (cells_at map.now key)) }
{
    match map.own(key) {
        Some(own) => put.number >= 1 && put.payload.kind() == own.kind(),
        None => false,
    }
}

/// The key changed, for each mate that holds it. Takes no memory.
fn mark(changes: &mut Changeset, placement: &Placement, me: u16, key: u16)
    requires mates { length changes.old.of_mates + 1 < 2 ^ 16 }
    requires keys { changes.old.most ≡ length placement.now }
    requires key { (1 ≤ key) × (key ≤ length placement.now) }
    ensures most { changes.new.most ≡ changes.old.most }
    ensures mates { length changes.new.of_mates ≡ length changes.old.of_mates }
    ensures keys { (place : ℕ) → place < length changes.old.of_mates
        → slice_index_or changes.new.of_mates place []
        ≡ marked_for placement.now me key changes.old.of_mates place }
{
    for place in 0..changes.mates() {
        if lives_at(placement, mate_at(me, place), key) {
            changes.mark(place, key);
        }
    }
}

/// Works on a put: it is joined into the own and the whole cell of its key, and each mate that holds the
/// key is to be told. After `NoMemory` all is as before.
pub(crate) fn take_put(
    map: &mut PrivateMap,
    changes: &mut Changeset,
    placement: &Placement,
    me: u16,
    key: u16,
    put: &Put,
) -> Result<(), NoMemory>
    requires mates { length changes.old.of_mates + 1 < 2 ^ 16 }
    requires keys { changes.old.most ≡ length placement.now }
    requires holds { is_some (cells_at map.old key) ≡ lives_at placement.now me key }
    ensures most { changes.new.most ≡ changes.old.most }
    ensures mates { length changes.new.of_mates ≡ length changes.old.of_mates }
    ensures cells { OnOk result (map.new ≡ takes key put.now map.old) }
    ensures changed { OnOk result (AreMarked placement.now me map.old (requests.Put key put.now)
        changes.old.of_mates changes.new.of_mates) }
    ensures err { OnErr result ((map.new ≡ map.old) × (changes.new ≡ changes.old)) }
{
    let changed = is_changed(map, key, put);
    map.take(key, put)?;
    if changed {
        mark(changes, placement, me, key);
    }
    Ok(())
}

/// The reply to a get, by the present whole cell of the key, and by the empty cell of kind max where the key
/// is not held.
pub(crate) fn answer(
    alloc: Global,
    map: &PrivateMap,
    me: u16,
    ask: u64,
    key: u16,
    required: &Clock,
) -> Result<Reply, NoMemory>
    ensures { IfOk result (λ reply. reply ∷ []
        ≡ reply_from me map.now (requests.Get ask key required.now)) }
{
    match map.whole(key) {
        Some(whole) => Reply::answer(ask, me, key, required, whole),
        None => Reply::answer(ask, me, key, required, &Cell::empty(alloc, Kind::Max)),
    }
}

/// A request is one that there can be. Code calls it to learn the fact; it does nothing.
pub(crate) fn attest_request(request: &Request)
    ensures { IsRequest request.now }
{
    match request {
        Request::Put { put, .. } => put.attest(),
        Request::Get { .. } => {}
    }
}

/// Entries are some that there can be. Code calls it to learn the fact; it changes nothing.
pub(crate) fn attest_entries(entries: &[(u16, Cell)])
    ensures { AreEntries entries.now }
{
    for entry in entries {
        entry.1.attest();
    }
}

/// A message that was popped is kept. Takes no memory.
pub(crate) fn keep(kept: &mut Option<Popped>, message: Popped)
    ensures { kept.new ≡ Some message }
{
    *kept = Some(message);
}

/// Counts a request that was taken. Takes no memory.
pub(crate) fn count_request(local: &mut Local)
    requires { local.old.since ≤ local.old.round }
    ensures taken { local.new.taken ≡ one_more local.old.taken }
    ensures rest { local.new ≡ record local.old {
      since = min (local.old.since + 1) local.old.round;
      taken = local.new.taken;
    } }
{
    if local.since < local.round {
        local.since += 1;
    }
    local.taken = local.taken.saturating_add(1);
}

/// Counts the requests since the last round from 0 again, where one was made. Takes no memory.
pub(crate) fn count_again(since: &mut u32, told: &Result<u32, NoMemory>)
    ensures { since.new ≡ since_after since.old told.now }
{
    if told.is_ok() {
        *since = 0;
    }
}

/// Sends a reply to a session, or holds it where there is no place.
fn give<T: Tx<Reply>>(
    held: &mut Option<(u16, Reply)>,
    replies: &mut Vec<T>,
    session: u16,
    reply: Reply,
) -> Result<(), NoMemory>
    requires session { (1 ≤ session) × (session ≤ length replies.old.items) }
    requires none_held { held.old ≡ None }
    ensures keys { map T.key replies.new.items ≡ map T.key replies.old.items }
    ensures numbers { map T.number replies.new.items ≡ map T.number replies.old.items }
    ensures sent { NoneTakenBack (map T.sent replies.old.items) (map T.sent replies.new.items) }
    ensures replies { OnOk result (AddsReplies session (reply ∷ [])
        (map T.sent replies.old.items) held.old (map T.sent replies.new.items) held.new) }
    ensures held { IsHeldFor (length replies.old.items) held.new }
    ensures err { OnErr result ((held.new ≡ held.old)
        × (map T.sent replies.new.items ≡ map T.sent replies.old.items)) }
    ensures held_back { OnOk result (IsHeldBack held.new
        (map T.fulls replies.old.items) (map T.fulls replies.new.items)) }
    ensures stay_clear { OnOk result
        (StayClear T.clear T.sent replies.old.items replies.new.items) }
{
    match post(replies, usize::from(session) - 1, reply) {
        Ok(()) => Ok(()),
        Err(Refused::Full(reply)) => {
            *held = Some((session, reply));
            Ok(())
        }
        Err(Refused::NoMemory(_)) => Err(NoMemory),
    }
}

/// Sends the reply that is held again, and tells whether it went out.
pub(crate) fn resend<T: Tx<Reply>>(
    held: &mut Option<(u16, Reply)>,
    replies: &mut Vec<T>,
) -> Result<bool, NoMemory>
    requires { IsHeldFor (length replies.old.items) held.old }
    ensures keys { map T.key replies.new.items ≡ map T.key replies.old.items }
    ensures numbers { map T.number replies.new.items ≡ map T.number replies.old.items }
    ensures sent { NoneTakenBack (map T.sent replies.old.items) (map T.sent replies.new.items) }
    ensures resent { Resent result held.old held.new
        (map T.sent replies.old.items) (map T.sent replies.new.items)
        (map T.fulls replies.old.items) (map T.fulls replies.new.items) }
    ensures stay_clear { OnOk result
        (StayClear T.clear T.sent replies.old.items replies.new.items) }
    ensures wants_place { OnOk result (WantsPlace T.clear replies.old.items held.new) }
    ensures no_room { OnOk result (HasNoRoom T.roomy T.unseen replies.old.items held.new) }
    ensures none_held { held.old ≡ None → replies.new ≡ replies.old }
{
    let Some((session, reply)) = held.take() else {
        return Ok(false);
    };
    match post(replies, usize::from(session) - 1, reply) {
        Ok(()) => Ok(true),
        Err(Refused::Full(reply)) => {
            *held = Some((session, reply));
            Ok(false)
        }
        Err(Refused::NoMemory(reply)) => {
            *held = Some((session, reply));
            Err(NoMemory)
        }
    }
}

/// Works on a request. After `NoMemory` all is as before.
fn serve_request<T: Tx<Reply>>(
    local: &mut Local,
    replies: &mut Vec<T>,
    session: u16,
    request: &Request,
) -> Result<(), NoMemory>
    requires mates { length local.old.changes.of_mates + 1 < 2 ^ 16 }
    requires most { local.old.changes.most ≡ length local.old.placement }
    requires holds { HoldsItsKeys (state_of local.old) }
    requires none_kept { local.old.kept ≡ None }
    requires none_held { local.old.held ≡ None }
    ensures keys { map T.key replies.new.items ≡ map T.key replies.old.items }
    ensures numbers { map T.number replies.new.items ≡ map T.number replies.old.items }
    ensures sent { NoneTakenBack (map T.sent replies.old.items) (map T.sent replies.new.items) }
    ensures taken { local.new.taken ≡ local.old.taken }
    ensures most { local.new.changes.most ≡ local.old.changes.most }
    ensures ok { OnOk result (Worked session request.now (state_of local.old) (state_of local.new)
        (map T.sent replies.old.items) (map T.sent replies.new.items)) }
    ensures held_back { OnOk result (IsHeldBack local.new.held
        (map T.fulls replies.old.items) (map T.fulls replies.new.items)) }
    ensures err { OnErr result ((state_of local.new ≡ state_of local.old)
        × (map T.sent replies.new.items ≡ map T.sent replies.old.items)) }
    ensures stay_clear { OnOk result
        (StayClear T.clear T.sent replies.old.items replies.new.items) }
{
    match request {
        Request::Put { key, put } => take_put(
            &mut local.map,
            &mut local.changes,
            &local.placement,
            local.me,
            *key,
            put,
        ),
        Request::Get { ask, key, required } => {
            if session == 0 || usize::from(session) > replies.len() {
                return Ok(());
            }
            let alloc = *replies.allocator();
            let reply = answer(alloc, &local.map, local.me, *ask, *key, required)?;
            give(&mut local.held, replies, session, reply)
        }
    }
}

/// Works on the message that is kept. After `NoMemory` all is as before.
pub(crate) fn serve<T: Tx<Reply>>(local: &mut Local, replies: &mut Vec<T>) -> Result<Did, NoMemory>
    requires mates { length local.old.changes.of_mates + 1 < 2 ^ 16 }
    requires most { local.old.changes.most ≡ length local.old.placement }
    requires holds { HoldsItsKeys (state_of local.old) }
    requires kept { IsTrue (is_some local.old.kept) }
    requires free { IsFree local.old.kept local.old.held }
    ensures keys { map T.key replies.new.items ≡ map T.key replies.old.items }
    ensures numbers { map T.number replies.new.items ≡ map T.number replies.old.items }
    ensures sent { NoneTakenBack (map T.sent replies.old.items) (map T.sent replies.new.items) }
    ensures taken { local.new.taken ≡ local.old.taken }
    ensures most { local.new.changes.most ≡ local.old.changes.most }
    ensures did { IfOk result (λ did. did ≡ did_of local.old.kept) }
    ensures ok { OnOk result (Served local.old.kept (state_of local.old) (state_of local.new)
        (map T.sent replies.old.items) (map T.sent replies.new.items)) }
    ensures held_back { OnOk result (HoldsBack local.old.kept local.new.held
        (map T.fulls replies.old.items) (map T.fulls replies.new.items)) }
    ensures err { OnErr result ((state_of local.new ≡ state_of local.old)
        × (map T.sent replies.new.items ≡ map T.sent replies.old.items)) }
    ensures stay_clear { OnOk result
        (StayClear T.clear T.sent replies.old.items replies.new.items) }
{
    match local.kept.take() {
        Some(Popped::Request(session, request)) => {
            let Ok(()) = serve_request(local, replies, session, &request) else {
                local.kept = Some(Popped::Request(session, request));
                return Err(NoMemory);
            };
            Ok(Did::Request)
        }
        Some(Popped::Batch(sender, batch)) => {
            let Ok(()) = local.map.hear(batch.as_slice()) else {
                local.kept = Some(Popped::Batch(sender, batch));
                return Err(NoMemory);
            };
            Ok(Did::Gossip)
        }
        None => Ok(Did::Idle),
    }
}
