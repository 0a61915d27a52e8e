//! Gossip: a worker tells its mates what changed.
ghost use Rattle.std.specs.Prelude.{◌≡◌, ◌≢◌, ℕ, ◌<◌, ◌≤◌, ◌+◌, ◌*◌, ◌^◌, [], length, map, slice_get, ◌++◌, ◌∷◌, IfOk, OnOk, OnErr};
ghost use Rattle.merge_world.specs.Effects.{tells};
ghost use Rattle.gossip_rounds.specs.Telling.{DifferAt, TellsAt, TellsMates};

use crate::changeset::Changeset;
use lattice_laws::{Lattice, NoMemory};
use mail_contract::{Refused, Tx, post};
use merge_world::{Cell, PrivateMap};
use std::alloc::Global;
use store_msg::Batch;

/// How many keys a batch tells of at most.
const MOST_KEYS: usize = 16;

/// Adds a copy of a cell.
fn add_copy(batch: &mut Batch, key: u16, cell: &Cell) -> Result<(), NoMemory>
    requires { length batch.old < 16 }
    ensures { OnOk result (batch.new ≡ batch.old ++ (key, cell.now) ∷ []) }
{
    match batch.add(key, cell.copy()?) {
        Ok(()) => Ok(()),
        Err(_) => Err(NoMemory),
    }
}

/// A batch of the present own cells of some keys. A key that is not held is left out.
fn batch_of(alloc: Global, map: &PrivateMap, keys: &[u16]) -> Result<Batch, NoMemory>
    requires { length keys.now ≤ 16 }
    ensures { IfOk result (λ batch. batch ≡ tells keys.now map.now) }
{
    let mut batch = Batch::new(alloc)?;
    for key in keys {
        if let Some(own) = map.own(*key) {
            add_copy(&mut batch, *key, own)?;
        }
    }
    Ok(batch)
}

/// Tells a mate of its changed keys, and gives the number of batches that went out. A key stays changed
/// where its batch came back, or was not made for want of memory.
fn tell_mate<O: Tx<Batch>>(
    alloc: Global,
    cells: &PrivateMap,
    changes: &mut Changeset,
    taken: u64,
    turned: &mut Vec<u64>,
    senders: &mut Vec<O>,
    mate: usize,
) -> Result<u32, NoMemory>
    requires mate { mate < length senders.old.items }
    requires changed { mate < length changes.old.of_mates }
    requires turned { mate < length turned.old.items }
    ensures keys { map O.key senders.new.items ≡ map O.key senders.old.items }
    ensures numbers { map O.number senders.new.items ≡ map O.number senders.old.items }
    ensures most { changes.new.most ≡ changes.old.most }
    ensures changed_others { DifferAt [] mate changes.old.of_mates changes.new.of_mates }
    ensures told_others { DifferAt [] mate
        (map O.sent senders.old.items) (map O.sent senders.new.items) }
    ensures turned_others { DifferAt 0 mate turned.old.items turned.new.items }
    ensures fulls_others { DifferAt 0 mate
        (map O.fulls senders.old.items) (map O.fulls senders.new.items) }
    ensures senders_others { (other : ℕ) → other ≢ mate
        → slice_get senders.new.items other ≡ slice_get senders.old.items other }
    ensures tells { TellsAt O.Tx mate result cells.now taken
        changes.old.of_mates changes.new.of_mates
        turned.old.items turned.new.items senders.old.items senders.new.items }
    ensures small { IfOk result (λ sent. sent < 2 ^ 16) }
{
    let mut from = 0;
    let mut sent = 0;
    while from < changes.keys(mate).len() {
        let keys = changes.keys(mate);
        let to = keys.len().min(from + MOST_KEYS);
        let batch = batch_of(alloc, cells, &keys[from..to])?;
        match post(senders, mate, batch) {
            Ok(()) => {
                changes.clear(mate, from, to);
                sent += 1;
            }
            Err(Refused::Full(_)) => {
                turned[mate] = taken;
                from = to;
            }
            Err(Refused::NoMemory(_)) => return Err(NoMemory),
        }
    }
    Ok(sent)
}

/// Tells each mate of its changed keys, and gives the number of batches that went out. A key stays changed
/// for a mate where its batch came back, or was not made for want of memory.
pub fn gossip<O: Tx<Batch>>(
    alloc: Global,
    cells: &PrivateMap,
    changes: &mut Changeset,
    taken: u64,
    turned: &mut Vec<u64>,
    senders: &mut Vec<O>,
) -> Result<u32, NoMemory>
    requires changed { length changes.old.of_mates ≡ length senders.old.items }
    requires turned { length turned.old.items ≡ length senders.old.items }
    requires mates { length senders.old.items + 1 < 2 ^ 16 }
    ensures keys { map O.key senders.new.items ≡ map O.key senders.old.items }
    ensures numbers { map O.number senders.new.items ≡ map O.number senders.old.items }
    ensures most { changes.new.most ≡ changes.old.most }
    ensures tells { TellsMates O.Tx result cells.now taken
        changes.old.of_mates changes.new.of_mates
        turned.old.items turned.new.items senders.old.items senders.new.items }
{
    let mut sent = 0;
    for mate in 0..senders.len() {
        sent += tell_mate(alloc, cells, changes, taken, turned, senders, mate)?;
    }
    Ok(sent)
}
