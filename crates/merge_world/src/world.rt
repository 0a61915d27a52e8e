//! Workers, and the messages between them.
ghost use Rattle.std.specs.Prelude.{◌≡◌, ◌↔◌, ◌<◌, ◌^◌, ℕ, Contains, fold, length, max, option_map, IsTrue, IfOk, OnOk, OnErr};
ghost use Rattle.std.specs.List.{list_all};
ghost use Rattle.composed_value.specs.Cell.{AreOfOneKind};
ghost use Rattle.merge_world.specs.declared.event.Event.TheVariants as events;
ghost use Rattle.merge_world.specs.Effects.{changed_at, hears, tells};
ghost use Rattle.merge_world.specs.Heard.{AreHeardBy, HasHeard, IsHeardBy, IsKeyHeard, IsWorkerHeard};
ghost use Rattle.merge_world.specs.Maps.{AreLong};
ghost use Rattle.merge_world.specs.World.{IsHeard, IsSettled, after, can_be, cells_of, is_ascending, is_next_of, is_shared, map_of, opening, stepped, took_of, workers_of};

use crate::private_map::place_of;
use crate::{Event, PrivateMap};
use composed_value::{Cell, Kind, Put};
use lattice_laws::{Items, Lattice, NoMemory};
use placement::Placement;
use std::alloc::Global;
use std::marker::Model;

/// How many keys a message tells of at most.
const MOST_KEYS: usize = 16;

/// What became of an event.
#[derive(Clone, Copy, Debug, PartialEq, Eq, Drop)]
pub enum Took {
    /// It happened.
    Done,
    /// It cannot be, and nothing changed.
    Strange,
}

/// What a worker told another of some keys.
#[derive(Debug, Drop)]
pub struct Message {
    worker: u16,
    mate: u16,
    entries: Items<(u16, Cell)>,
    delivered: bool,
}

/// Workers that share keys, and all messages that they sent: the protocol of the store alone, without
/// threads and mailboxes. Contracts see the replicas of each key, its kind, the private map of each
/// worker, and the messages in the order in which they were sent.
#[derive(Debug, Drop)]
pub struct World {
    placement: Placement,
    kinds: Items<Kind>,
    maps: Vec<PrivateMap>,
    pool: Vec<Message>,
}

impl Model for World {
    ghost use Rattle.std.specs.Prelude.{length};
    ghost use Rattle.merge_world.specs.Maps.{AreLong};
    ghost use Rattle.merge_world.specs.World.{PlainWorld};

    ghost Value = { PlainWorld };

    ghost view = { λ world. record {
      placement = world.placement;
      kinds = world.kinds;
      maps = world.maps.items;
      pool = world.pool.items;
    } };

    ghost invariant = { λ world. AreLong (length world.placement) world.maps.items };
}

impl World {
    /// Workers that hold keys as the placement says: all cells are empty, and no message was sent. Each key
    /// has a kind. The workers are numbered up to the greatest that holds a key.
    pub fn new(alloc: Global, placement: Placement, kinds: Items<Kind>) -> Result<World, NoMemory>
        requires { length kinds ≡ length placement }
        ensures { IfOk result (λ world. world ≡ opening placement kinds) }
    {
        let mut maps = Vec::new(alloc);
        for worker in 0..workers(&placement) {
            maps.push(PrivateMap::new(alloc, worker + 1, &placement, kinds.as_slice())?)?;
        }
        Ok(World {
            placement,
            kinds,
            maps,
            pool: Vec::new(alloc),
        })
    }

    /// Makes an event happen, where it can be. After `NoMemory` nothing has changed. There are fewer
    /// than 2^32 messages.
    pub fn step(&mut self, event: &Event) -> Result<Took, NoMemory>
        requires { length self.old.pool < 2 ^ 32 }
        ensures took { IfOk result (λ took. took ≡ took_of (can_be self.old event.now)) }
        ensures world { OnOk result (self.new ≡ stepped self.old event.now) }
        ensures err { OnErr result (self.new ≡ self.old) }
    {
        if !self.can_be(event) {
            return Ok(Took::Strange);
        }
        match event {
            Event::Put { worker, key, put } => self.put(*worker, *key, put)?,
            Event::Get { .. } => {}
            Event::Send { worker, mate, keys } => self.send(*worker, *mate, keys.as_slice())?,
            Event::Deliver { worker, message } => self.deliver(*worker, *message as usize)?,
        }
        Ok(Took::Done)
    }

    fn put(&mut self, worker: u16, key: u16, put: &Put) -> Result<(), NoMemory>
        ensures ok { OnOk result (self.new ≡ after self.old (events.Put worker key put.now)) }
        ensures err { OnErr result (self.new ≡ self.old) }
    {
        match place_of(worker, self.maps.len()) {
            Some(place) => self.maps[place].take(key, put),
            None => Ok(()),
        }
    }

    fn send(&mut self, worker: u16, mate: u16, keys: &[u16]) -> Result<(), NoMemory>
        ensures ok { OnOk result (self.new ≡ after self.old (events.Send worker mate keys.now)) }
        ensures err { OnErr result (self.new ≡ self.old) }
    {
        let entries = self.told(worker, keys)?;
        let message = Message {
            worker,
            mate,
            entries,
            delivered: false,
        };
        self.pool.push(message)?;
        Ok(())
    }

    /// What a worker tells of some keys.
    fn told(&self, worker: u16, keys: &[u16]) -> Result<Items<(u16, Cell)>, NoMemory>
        ensures { IfOk result (λ entries. entries ≡ tells keys.now (map_of self.now worker)) }
    {
        match place_of(worker, self.maps.len()) {
            Some(place) => self.maps[place].tell(keys),
            None => Ok(Items::new(Vec::new(*self.maps.allocator()))),
        }
    }

    fn deliver(&mut self, worker: u16, message: usize) -> Result<(), NoMemory>
        requires { message < length self.old.pool }
        ensures ok { OnOk result (self.new ≡ after self.old (events.Deliver worker message)) }
        ensures err { OnErr result (self.new ≡ self.old) }
    {
        hear_at(
            &mut self.maps,
            worker,
            self.pool[message].entries.as_slice(),
        )?;
        let message = &mut self.pool[message];
        message.delivered = true;
        Ok(())
    }

    /// Whether an event can be. Takes no memory.
    fn can_be(&self, event: &Event) -> bool
        ensures { result ≡ can_be self.now event.now }
    {
        match event {
            Event::Put { worker, key, put } => self.can_put(*worker, *key, put),
            Event::Get { worker, key } => self.can_get(*worker, *key),
            Event::Send { worker, mate, keys } => self.can_send(*worker, *mate, keys.as_slice()),
            Event::Deliver { worker, message } => self.can_deliver(*worker, *message),
        }
    }

    fn can_put(&self, worker: u16, key: u16, put: &Put) -> bool
        ensures { result ≡ can_be self.now (events.Put worker key put.now) }
    {
        match self.own(worker, key) {
            Some(own) => {
                put.session > 0
                    && self.placement.home(put.session, key) == worker
                    && is_next(put, own)
            }
            None => false,
        }
    }

    fn can_get(&self, worker: u16, key: u16) -> bool
        ensures { result ≡ can_be self.now (events.Get worker key) }
    {
        worker >= 1
            && usize::from(worker) <= self.maps.len()
            && key >= 1
            && key <= self.placement.keys()
    }

    fn can_send(&self, worker: u16, mate: u16, keys: &[u16]) -> bool
        ensures { result ≡ can_be self.now (events.Send worker mate keys.now) }
    {
        worker != mate
            && !keys.is_empty()
            && keys.len() <= MOST_KEYS
            && is_ascending(keys)
            && self.are_shared(worker, mate, keys)
    }

    fn are_shared(&self, worker: u16, mate: u16, keys: &[u16]) -> bool
        ensures { result ≡ list_all (is_shared self.now worker mate) keys.now }
    {
        for key in keys {
            if self.own(worker, *key).is_none() || self.own(mate, *key).is_none() {
                return false;
            }
        }
        true
    }

    fn can_deliver(&self, worker: u16, message: u32) -> bool
        ensures { result ≡ can_be self.now (events.Deliver worker message) }
    {
        match self.pool.get(message as usize) {
            Some(message) => message.mate == worker,
            None => false,
        }
    }

    /// A worker's own cell of a key, the join of the puts that it took itself, and nothing where the worker
    /// does not hold the key. Takes no memory.
    pub fn own(&self, worker: u16, key: u16) -> Option<&Cell>
        ensures { option_map (λ cell. cell.now) result
            ≡ option_map (λ cells. cells.own) (cells_of self.now worker key) }
    {
        self.maps.get(usize::from(worker).checked_sub(1)?)?.own(key)
    }

    /// A worker's replica of a key, the join of the puts that it took itself and of all that it heard, and
    /// nothing where the worker does not hold the key. Takes no memory.
    pub fn replica(&self, worker: u16, key: u16) -> Option<&Cell>
        ensures { option_map (λ cell. cell.now) result
            ≡ option_map (λ cells. cells.whole) (cells_of self.now worker key) }
    {
        self.maps
            .get(usize::from(worker).checked_sub(1)?)?
            .whole(key)
    }
    /// Whether what each worker took itself of a key, as it is now, was heard by each other that holds the
    /// key. Takes no memory.
    pub fn settled(&self) -> bool
        ensures { IsTrue result ↔ IsSettled self.now }
    {
        for worker in 0..self.maps.len() as u16 {
            if !self.are_keys_heard(worker + 1) {
                return false;
            }
        }
        true
    }

    /// Whether each other worker heard what this one took itself of each key. Takes no memory.
    fn are_keys_heard(&self, worker: u16) -> bool
        ensures { IsTrue result ↔ IsWorkerHeard self.now worker }
    {
        for key in 0..self.placement.keys() {
            if !self.is_heard(worker, key + 1) {
                return false;
            }
        }
        true
    }

    /// Whether each other worker heard what this one took itself of the key. Takes no memory.
    fn is_heard(&self, worker: u16, key: u16) -> bool
        ensures { IsTrue result ↔ IsKeyHeard self.now worker key }
    {
        match self.own(worker, key) {
            Some(own) => own.clock().is_empty() || self.others_heard(worker, key, own),
            None => true,
        }
    }

    /// Whether each other worker that holds the key heard this cell of it. Takes no memory.
    fn others_heard(&self, worker: u16, key: u16, own: &Cell) -> bool
        ensures { IsTrue result ↔ AreHeardBy self.now worker key own.now }
    {
        for other in 0..self.maps.len() as u16 {
            if other + 1 != worker && !self.has_heard(other + 1, key, own) {
                return false;
            }
        }
        true
    }

    /// Whether a worker heard this cell of the key, if it holds the key. Takes no memory.
    fn has_heard(&self, worker: u16, key: u16, own: &Cell) -> bool
        ensures { IsTrue result ↔ IsHeardBy self.now key own.now worker }
    {
        match self.own(worker, key) {
            Some(_) => was_heard(self.pool.as_slice(), worker, key, own),
            None => true,
        }
    }
}

/// Whether the worker heard a message that tells this cell of the key.
fn was_heard(pool: &[Message], worker: u16, key: u16, own: &Cell) -> bool
    ensures { IsTrue result ↔ HasHeard pool.now worker key own.now }
{
    for message in pool {
        if is_of(message, worker, key, own) {
            return true;
        }
    }
    false
}

/// Whether this worker heard the message, and it tells this cell of the key.
fn is_of(message: &Message, worker: u16, key: u16, own: &Cell) -> bool
    ensures { IsTrue result ↔ IsHeard worker key own.now message.now }
{
    message.mate == worker && message.delivered && is_told(message.entries.as_slice(), key, own)
}

/// Whether entries tell this cell of the key.
fn is_told(entries: &[(u16, Cell)], key: u16, own: &Cell) -> bool
    ensures { IsTrue result ↔ Contains entries.now (key, own.now) }
{
    for (of_key, cell) in entries {
        if *of_key == key && are_same(cell, own) {
            return true;
        }
    }
    false
}

/// Whether two cells are the same.
fn are_same(a: &Cell, b: &Cell) -> bool
    ensures { IsTrue result ↔ (a.now ≡ b.now) }
{
    a.kind() == b.kind() && are_alike(a, b)
}

/// Whether two cells of one kind are the same.
fn are_alike(a: &Cell, b: &Cell) -> bool
    requires { AreOfOneKind a.now b.now }
    ensures { IsTrue result ↔ (a.now ≡ b.now) }
{
    a.attest();
    b.attest();
    a.at_most(b) && b.at_most(a)
}

/// A worker hears what another told. After `NoMemory` the maps are as before.
fn hear_at(maps: &mut Vec<PrivateMap>, worker: u16, entries: &[(u16, Cell)]) -> Result<(), NoMemory>
    ensures ok { OnOk result (maps.new.items
        ≡ changed_at worker (hears entries.now) maps.old.items) }
    ensures err { OnErr result (maps.new.items ≡ maps.old.items) }
    ensures long { (keys : ℕ) → AreLong keys maps.old.items → AreLong keys maps.new.items }
{
    match place_of(worker, maps.len()) {
        Some(place) => {
            let map = &mut maps[place];
            map.hear(entries)
        }
        None => Ok(()),
    }
}

/// Whether a put is the next of its session on a key with this own cell, and of its kind.
fn is_next(put: &Put, own: &Cell) -> bool
    ensures { result ≡ is_next_of put.now own.now }
{
    put.payload.kind() == own.kind()
        && put.number.checked_sub(1) == Some(own.clock().count(put.session))
}

/// The greatest number of a worker that holds a key.
fn workers(placement: &Placement) -> u16
    ensures { result ≡ workers_of placement.now }
{
    let mut most = 0;
    for key in 0..placement.keys() {
        most = most.max(greatest(placement.replicas(key + 1)));
    }
    most
}

/// The greatest of some numbers, 0 for none.
fn greatest(numbers: &[u16]) -> u16
    ensures { result ≡ fold max 0 numbers.now }
{
    let mut most = 0;
    for number in numbers {
        most = most.max(*number);
    }
    most
}

/// Whether each key is below the next.
fn is_ascending(keys: &[u16]) -> bool
    ensures { result ≡ is_ascending keys.now }
{
    for i in 1..keys.len() {
        if keys[i - 1] >= keys[i] {
            return false;
        }
    }
    true
}
