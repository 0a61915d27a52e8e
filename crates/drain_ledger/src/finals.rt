//! The final cells.
ghost use Rattle.std.specs.Prelude.{◌≡◌, ◌<◌, ◌+◌, ◌^◌, ◌++◌, length, IfOk, OnOk};
ghost use Rattle.drain_ledger.specs.Finals.{final_at, finals_for, finals_of, maps_of, written_down};

use composed_value::Cell;
use lattice_laws::{Lattice, NoMemory};
use mail_contract::{GossipRx, Rx};
use session_known::FinalCell;
use std::alloc::Global;
use store_msg::{Batch, Request};
use worker_core::SealedOver;

/// The final cell of a key at a worker.
fn final_cell(key: u16, worker: u16, cell: &Cell) -> Result<FinalCell, NoMemory>
    ensures { IfOk result (λ last. last ≡ written_down key worker cell.now) }
{
    Ok(FinalCell {
        key,
        worker,
        clock: cell.clock().copy()?,
        top: cell.top(),
        value: cell.value().copy()?,
    })
}

/// Adds the final cell of a key at the worker at a place, where it holds the key.
fn add_final<Q: Rx<Request>, G: GossipRx<Batch>>(
    finals: &mut Vec<FinalCell>,
    key: u16,
    workers: &[SealedOver<Q, G>],
    place: u16,
) -> Result<(), NoMemory>
    requires within { place < length workers.now }
    requires few { place + 1 < 2 ^ 16 }
    ensures { OnOk result (finals.new.items ≡ finals.old.items ++ final_at key workers.now place) }
{
    if let Some(cell) = workers[place as usize].cell(key) {
        finals.push(final_cell(key, place + 1, cell)?)?;
    }
    Ok(())
}

/// Adds the final cells of a key at the workers that hold it, ascending.
fn add_finals<Q: Rx<Request>, G: GossipRx<Batch>>(
    finals: &mut Vec<FinalCell>,
    key: u16,
    workers: &[SealedOver<Q, G>],
) -> Result<(), NoMemory>
    requires { length workers.now < 2 ^ 16 }
    ensures { OnOk result (finals.new.items ≡ finals.old.items ++ finals_for key workers.now) }
{
    for place in 0..workers.len() as u16 {
        add_final(finals, key, workers, place)?;
    }
    Ok(())
}

/// The final cells of so many keys, in order, at the workers that hold them, ascending.
pub(crate) fn final_cells<Q: Rx<Request>, G: GossipRx<Batch>>(
    alloc: Global,
    keys: u16,
    workers: &[SealedOver<Q, G>],
) -> Result<Vec<FinalCell>, NoMemory>
    requires keys { keys + 1 < 2 ^ 16 }
    requires workers { length workers.now < 2 ^ 16 }
    ensures { IfOk result (λ finals. finals.items ≡ finals_of keys (maps_of workers.now)) }
{
    let mut finals = Vec::new(alloc);
    for i in 0..keys {
        add_finals(&mut finals, i + 1, workers)?;
    }
    Ok(finals)
}
