//! The private map of a worker.
ghost use Rattle.std.specs.Prelude.{◌≡◌, ◌⊎◌, ◌+◌, ◌<◌, length, option_map, slice_index_or, Some, IfSome, IfNone, IfOk, OnOk, OnErr};
ghost use Rattle.merge_world.specs.Effects.{cells_at, changed_at, empty_cells, hears, merged, opened, opening_map, takes, tells, told_of, with_heard, with_put};
ghost use Rattle.composed_value.specs.declared.kind.Kind.TheVariants.{Max};
ghost use Rattle.merge_world.specs.Back.{with_all_back, with_back, with_whole};

use composed_value::{Cell, Kind, Put};
use lattice_laws::{Items, Lattice, NoMemory};
use placement::Placement;
use std::alloc::Global;
use std::marker::Model;
use std::mem;

/// What a worker has of a key that it holds: the cell of the puts that it took itself, and the join of
/// that cell and of all that it heard.
#[derive(Debug, Drop)]
pub struct KeyCells {
    pub own: Cell,
    pub whole: Cell,
}

impl KeyCells {
    /// The cells of no puts. Takes no memory.
    fn empty(alloc: Global, kind: Kind) -> KeyCells
        ensures { result ≡ empty_cells kind }
    {
        KeyCells {
            own: Cell::empty(alloc, kind),
            whole: Cell::empty(alloc, kind),
        }
    }

    /// After `NoMemory` both are as before.
    fn take(&mut self, alloc: Global, put: &Put) -> Result<(), NoMemory>
        ensures ok { OnOk result (self.new ≡ with_put put.now self.old) }
        ensures err { OnErr result (self.new ≡ self.old) }
    {
        if put.number == 0 {
            return Ok(());
        }
        let one = Cell::of_put(alloc, put)?;
        let mut whole = self.whole.copy()?;
        merge(&mut whole, &one)?;
        merge(&mut self.own, &one)?;
        self.whole = whole;
        Ok(())
    }

    /// Gives back the whole cell that was there. After `NoMemory` both are as before.
    fn hear(&mut self, cell: &Cell) -> Result<Cell, NoMemory>
        ensures ok { IfOk result (λ before. before ≡ self.old.whole) }
        ensures heard { OnOk result (self.new ≡ with_heard cell.now self.old) }
        ensures err { OnErr result (self.new ≡ self.old) }
    {
        let mut whole = self.whole.copy()?;
        merge(&mut whole, cell)?;
        Ok(mem::replace(&mut self.whole, whole))
    }
}

/// Joins a cell of the same kind in; another changes nothing. After `NoMemory` the cell is as before.
fn merge(into: &mut Cell, cell: &Cell) -> Result<(), NoMemory>
    ensures ok { OnOk result (into.new ≡ merged into.old cell.now) }
    ensures err { OnErr result (into.new ≡ into.old) }
{
    if cell.kind() == into.kind() {
        into.join(cell)?;
    }
    Ok(())
}

/// What a worker has before any put of a key that lives at these replicas.
fn opened(alloc: Global, worker: u16, replicas: &[u16], kind: Kind) -> Option<KeyCells>
    ensures { result ≡ opened worker replicas.now kind }
{
    if replicas.contains(&worker) {
        Some(KeyCells::empty(alloc, kind))
    } else {
        None
    }
}

fn kind_of_place(kinds: &[Kind], place: u16) -> Kind
    requires { place < length kinds.now }
    ensures { result ≡ slice_index_or kinds.now place Max }
{
    kinds[usize::from(place)]
}

/// The place of a key or worker, from 0, and nothing where there are not so many.
pub(crate) fn place_of(number: u16, count: usize) -> Option<usize>
    ensures some { IfSome result (λ place. (number ≡ place + 1) × (place < count)) }
    ensures none { IfNone result ((number ≡ 0) ⊎ (count < number)) }
{
    let place = usize::from(number).checked_sub(1)?;
    if place < count { Some(place) } else { None }
}

/// A put on a key, where it is held. After `NoMemory` the cells are as before.
fn take_put(held: &mut Option<KeyCells>, alloc: Global, put: &Put) -> Result<(), NoMemory>
    ensures ok { OnOk result (held.new ≡ option_map (with_put put.now) held.old) }
    ensures err { OnErr result (held.new ≡ held.old) }
{
    match held {
        Some(cells) => cells.take(alloc, put),
        None => Ok(()),
    }
}

/// A cell that was heard of a key, where it is held: gives the whole cell that was there. After `NoMemory`
/// the cells are as before.
fn hear_cell(held: &mut Option<KeyCells>, cell: &Cell) -> Result<Option<Cell>, NoMemory>
    ensures ok { OnOk result (held.new ≡ option_map (with_heard cell.now) held.old) }
    ensures err { OnErr result (held.new ≡ held.old) }
    ensures before { IfOk result (λ before. before ≡ option_map (λ cells. cells.whole) held.old) }
{
    match held {
        Some(cells) => Ok(Some(cells.hear(cell)?)),
        None => Ok(None),
    }
}

/// The whole cell of a key, where it is held, is another.
fn put_cell_back(held: &mut Option<KeyCells>, whole: Cell)
    ensures { held.new ≡ option_map (with_whole whole) held.old }
{
    if let Some(cells) = held {
        cells.whole = whole;
    }
}

/// A worker's private map: the cells of each key that it holds (Wu, Faleiro, Lin, Hellerstein 2018). Keys
/// are numbered from 1. Contracts see the cells in the order of the keys, and nothing at a key that
/// the worker does not hold.
#[derive(Debug, Drop)]
pub struct PrivateMap {
    cells: Vec<Option<KeyCells>>,
}

impl Model for PrivateMap {
    ghost use Rattle.std.specs.Prelude.{List, Option};
    ghost use Rattle.merge_world.specs.declared.private_map.KeyCells.{KeyCells};

    ghost Value = { List (Option KeyCells) };

    ghost view = { λ map. map.cells.items };
}

impl PrivateMap {
    /// The map of a worker before any put: empty cells of each key that it holds. Each key has a kind.
    pub fn new(
        alloc: Global,
        worker: u16,
        placement: &Placement,
        kinds: &[Kind],
    ) -> Result<PrivateMap, NoMemory>
        requires { length kinds.now ≡ length placement.now }
        ensures { IfOk result (λ map. map ≡ opening_map placement.now kinds.now worker) }
    {
        let mut cells = Vec::new(alloc);
        for i in 0..placement.keys() {
            let kind = kind_of_place(kinds, i);
            cells.push(opened(alloc, worker, placement.replicas(i + 1), kind))?;
        }
        Ok(PrivateMap { cells })
    }

    fn at(&self, key: u16) -> Option<&KeyCells>
        ensures { option_map (λ cells. cells.now) result ≡ cells_at self.now key }
    {
        self.cells.get(usize::from(key).checked_sub(1)?)?.as_ref()
    }

    /// The join of the puts on the key that the worker took itself, and nothing where it does not hold
    /// the key. Takes no memory.
    pub fn own(&self, key: u16) -> Option<&Cell>
        ensures { option_map (λ cell. cell.now) result
            ≡ option_map (λ cells. cells.own) (cells_at self.now key) }
    {
        Some(&self.at(key)?.own)
    }

    /// The join of the puts on the key that the worker took itself and of all that it heard, and nothing
    /// where it does not hold the key. Takes no memory.
    pub fn whole(&self, key: u16) -> Option<&Cell>
        ensures { option_map (λ cell. cell.now) result
            ≡ option_map (λ cells. cells.whole) (cells_at self.now key) }
    {
        Some(&self.at(key)?.whole)
    }

    /// Takes a put on a key: joins it into both cells. A key that is not held, a put of another kind and one
    /// without a number change nothing. After `NoMemory` the map is as before.
    pub fn take(&mut self, key: u16, put: &Put) -> Result<(), NoMemory>
        ensures ok { OnOk result (self.new ≡ takes key put.now self.old) }
        ensures err { OnErr result (self.new ≡ self.old) }
    {
        let alloc = *self.cells.allocator();
        match place_of(key, self.cells.len()) {
            Some(place) => take_put(&mut self.cells[place], alloc, put),
            None => Ok(()),
        }
    }

    /// Hears what another worker told of some keys: joins each cell into the whole cell of its key. A key that
    /// is not held and a cell of another kind change nothing. After `NoMemory` the map is as before.
    pub fn hear(&mut self, entries: &[(u16, Cell)]) -> Result<(), NoMemory>
        ensures ok { OnOk result (self.new ≡ hears entries.now self.old) }
        ensures err { OnErr result (self.new ≡ self.old) }
    {
        let mut before = Vec::with_capacity(*self.cells.allocator(), entries.len())?;
        for (key, cell) in entries {
            let Ok(whole) = self.hear_one(*key, cell) else {
                self.put_back(before);
                return Err(NoMemory);
            };
            if let Some(whole) = whole {
                before.push_reserved((*key, whole));
            }
        }
        Ok(())
    }

    /// Hears what another worker told of a key, and gives the whole cell that was there, and nothing where the
    /// key is not held.
    fn hear_one(&mut self, key: u16, cell: &Cell) -> Result<Option<Cell>, NoMemory>
        ensures ok { OnOk result (self.new
            ≡ changed_at key (option_map (with_heard cell.now)) self.old) }
        ensures err { OnErr result (self.new ≡ self.old) }
        ensures before { IfOk result (λ before. with_back key before self.new ≡ self.old) }
    {
        match place_of(key, self.cells.len()) {
            Some(place) => hear_cell(&mut self.cells[place], cell),
            None => Ok(None),
        }
    }

    /// Puts whole cells back, the last one first.
    fn put_back(&mut self, before: Vec<(u16, Cell)>)
        ensures { self.new ≡ with_all_back before.items self.old }
    {
        let mut before = before;
        while let Some((key, whole)) = before.pop() {
            self.put_one_back(key, whole);
        }
    }

    fn put_one_back(&mut self, key: u16, whole: Cell)
        ensures { self.new ≡ with_back key (Some whole) self.old }
    {
        match place_of(key, self.cells.len()) {
            Some(place) => put_cell_back(&mut self.cells[place], whole),
            None => {}
        }
    }

    fn told(&self, key: u16) -> Result<Option<(u16, Cell)>, NoMemory>
        ensures { IfOk result (λ entry. entry ≡ told_of self.now key) }
    {
        match self.own(key) {
            Some(own) => Ok(Some((key, own.copy()?))),
            None => Ok(None),
        }
    }

    /// What the worker tells of some keys: copies of its own cells. A key that is not held is left out.
    pub fn tell(&self, keys: &[u16]) -> Result<Items<(u16, Cell)>, NoMemory>
        ensures { IfOk result (λ entries. entries ≡ tells keys.now self.now) }
    {
        let mut entries = Vec::new(*self.cells.allocator());
        for key in keys {
            if let Some(entry) = self.told(*key)? {
                entries.push(entry)?;
            }
        }
        Ok(Items::new(entries))
    }
}
