//! The cells that a report shows, each held against the puts that its clock counts.
ghost use Rattle.std.specs.Prelude.{◌≡◌, ◌<◌, List, All, IfOk, OnOk, OnErr, IfSome, length, map, replicate};
ghost use Rattle.clock_lattice.specs.Clock.{IsClock};
ghost use Rattle.clock_lattice.specs.Needs.{IsNeeds};
ghost use Rattle.composed_value.specs.Cell.{empty_cell};
ghost use Rattle.composed_value.specs.PlainValue.{IsPutOf};
ghost use Rattle.composed_value.specs.Kind.{kind_of_value};
ghost use Rattle.placement.specs.Config.{IsOneOf};
ghost use Rattle.anna_check.specs.ComputedCells.{HasCellAt, no_cells, with_counted, StartOfTheirPuts, StayOfTheirPuts, TellsReplySound, TellsFinalLawful};
ghost use Rattle.anna_check.specs.Counted.{IsOfItsPuts, cell_at};

use crate::cells::{count, counts_all, is_cell_final, is_cell_shown};
use clock_lattice::Clock;
use composed_value::{Cell, Kind, Put};
use lattice_laws::NoMemory;
use session_known::{FinalCell, Shown};
use std::alloc::Global;
use std::marker::Model;

/// For each key and worker the cell that was computed last, from which the next goes on: in a lawful
/// session the clocks that a worker shows of a key only grow. Where they do so in the whole report, each
/// put is joined once for each key and worker. The cells stay those of the puts that their clocks count,
/// whatever is answered, and after `NoMemory` too. Contracts see the cells of each key, by worker.
#[derive(Drop)]
pub(crate) struct ComputedCells {
    by_key: Vec<Vec<Cell>>,
}

impl Model for ComputedCells {
    ghost use Rattle.std.specs.Prelude.{List, map};
    ghost use Rattle.composed_value.specs.Cell.{PlainCell};

    ghost Value = { List (List PlainCell) };

    ghost view = { λ cells. map (λ cells. cells.items) cells.by_key.items };
}

impl ComputedCells {
    /// The empty cells of keys of these kinds, each at so many workers.
    pub(crate) fn new(
        alloc: Global,
        kinds: &[Kind],
        workers: u16,
    ) -> Result<ComputedCells, NoMemory>
        ensures empty { IfOk result (λ cells. cells ≡ no_cells workers kinds.now) }
        ensures of_their_puts { StartOfTheirPuts kinds.now workers result }
    {
        let mut by_key = Vec::new(alloc);
        for kind in kinds {
            by_key.push(empty_cells(alloc, *kind, workers)?)?;
        }
        Ok(ComputedCells { by_key })
    }

    /// The cell of the key at the worker. Takes no memory.
    fn cell(&self, key: u16, worker: u16) -> &Cell
        requires key { IsOneOf (length self.now) key }
        requires worker { HasCellAt self.now key worker }
        ensures { result.now ≡ cell_at self.now key worker }
    {
        &self.by_key[usize::from(key) - 1][usize::from(worker) - 1]
    }

    /// Brings the cell of the key at the worker to those of the puts that a clock counts. After `NoMemory`
    /// it is as before.
    fn count(
        &mut self,
        alloc: Global,
        kind: Kind,
        puts: &[Put],
        key: u16,
        worker: u16,
        clock: &Clock,
    ) -> Result<(), NoMemory>
        requires key { IsOneOf (length self.old) key }
        requires worker { HasCellAt self.old key worker }
        requires puts { All (IsPutOf kind) puts.now }
        requires cell { IsOfItsPuts kind puts.now (cell_at self.old key worker) }
        ensures ok { OnOk result (self.new
            ≡ with_counted self.old key worker kind puts.now clock.now) }
        ensures err { OnErr result (self.new ≡ self.old) }
    {
        let cell = &mut self.by_key[usize::from(key) - 1][usize::from(worker) - 1];
        count(alloc, kind, puts, clock, cell)
    }

    /// Whether a reply on a key from a worker holds exactly those of the puts on the key that its clock
    /// counts: whether its clock counts only puts that there are, and its top, its value and its needs
    /// are those of the cell that they have together.
    pub(crate) fn is_sound_reply(
        &mut self,
        alloc: Global,
        kind: Kind,
        puts: &[Put],
        key: u16,
        worker: u16,
        shown: &Shown,
    ) -> Result<bool, NoMemory>
        requires key { IsOneOf (length self.old) key }
        requires worker { HasCellAt self.old key worker }
        requires puts { All (IsPutOf kind) puts.now }
        requires cell { IsOfItsPuts kind puts.now (cell_at self.old key worker) }
        requires value { kind_of_value shown.now.value ≡ kind }
        requires clock { IsClock shown.now.clock }
        requires needs { IfSome shown.now.needs IsNeeds }
        ensures sound { TellsReplySound kind puts.now key shown.now result }
        ensures cells { StayOfTheirPuts kind puts.now key self.old self.new }
    {
        self.count(alloc, kind, puts, key, worker, &shown.clock)?;
        Ok(is_cell_shown(self.cell(key, worker), shown))
    }

    /// Whether a final cell is that of all of the puts on its key.
    pub(crate) fn is_lawful_final(
        &mut self,
        alloc: Global,
        kind: Kind,
        puts: &[Put],
        last: &FinalCell,
    ) -> Result<bool, NoMemory>
        requires key { IsOneOf (length self.old) last.now.key }
        requires worker { HasCellAt self.old last.now.key last.now.worker }
        requires puts { All (IsPutOf kind) puts.now }
        requires cell { IsOfItsPuts kind puts.now (cell_at self.old last.now.key last.now.worker) }
        requires value { kind_of_value last.now.value ≡ kind }
        requires clock { IsClock last.now.clock }
        ensures lawful { TellsFinalLawful kind puts.now last.now result }
        ensures cells { StayOfTheirPuts kind puts.now last.now.key self.old self.new }
    {
        if !counts_all(&last.clock, puts) {
            return Ok(false);
        }
        self.count(alloc, kind, puts, last.key, last.worker, &last.clock)?;
        Ok(is_cell_final(self.cell(last.key, last.worker), last))
    }
}

/// The empty cell of a kind, once for each worker.
fn empty_cells(alloc: Global, kind: Kind, workers: u16) -> Result<Vec<Cell>, NoMemory>
    ensures { IfOk result (λ cells. cells.items ≡ replicate workers (empty_cell kind)) }
{
    let mut cells = Vec::new(alloc);
    for _worker in 0..workers {
        cells.push(Cell::empty(alloc, kind))?;
    }
    Ok(cells)
}
