//! The cell of a key: what is counted, what it depends on, and the value.
ghost use Rattle.std.specs.Prelude.{◌≡◌, ◌<◌, IfOk};
ghost use Rattle.composed_value.specs.Kind.{kind_of, kind_of_value};
ghost use Rattle.composed_value.specs.Cell.{PlainCell, empty_cell, one_put_cell};

use crate::{Kind, Put, Value};
use clock_lattice::{Clock, Needs};
use lattice_laws::{Lattice, NoMemory};
use std::alloc::Global;
use std::marker::Model;

/// The cell of a key, a product of four lattices: which puts are counted, their causal dependencies
/// (what a causal session that is shown the cell must be shown of other keys from then on), the
/// greatest Lamport number, and the value. Cells of one kind merge, part by part.
/// Contracts see the four parts.
#[derive(Debug, Drop)]
pub struct Cell {
    clock: Clock,
    needs: Needs,
    top: u64,
    value: Value,
}

impl Model for Cell {
    ghost use Rattle.composed_value.specs.Cell.{PlainCell};

    ghost Value = { PlainCell };

    ghost view = { λ cell. record { clock = cell.clock; needs = cell.needs; top = cell.top; value = cell.value } };
}

impl Cell {
    /// The cell of no puts. Takes no memory.
    pub fn empty(alloc: Global, kind: Kind) -> Cell
        ensures cell { result ≡ empty_cell kind }
        ensures kind { kind_of_value result.value ≡ kind }
    {
        Cell {
            clock: Clock::new(alloc),
            needs: Needs::new(alloc),
            top: 0,
            value: Value::empty(alloc, kind),
        }
    }

    /// The cell of one put, which counts as many puts of its session as its number says.
    pub fn of_put(alloc: Global, put: &Put) -> Result<Cell, NoMemory>
        requires { 0 < put.now.number }
        ensures cell { IfOk result (λ cell. cell ≡ one_put_cell put.now) }
        ensures kind { IfOk result (λ cell. kind_of_value cell.value ≡ kind_of put.now.payload) }
    {
        let mut clock = Clock::new(alloc);
        clock.raise(put.session, put.number)?;
        Ok(Cell {
            clock,
            needs: put.needs.copy()?,
            top: put.lamport,
            value: Value::of_put(alloc, put)?,
        })
    }

    /// The kind of the keys that have this cell. Takes no memory.
    pub fn kind(&self) -> Kind
        ensures { result ≡ kind_of_value self.now.value }
    {
        self.value.kind()
    }

    /// How many puts of each session are counted. Takes no memory.
    pub fn clock(&self) -> &Clock
        ensures { result.now ≡ self.now.clock }
    {
        &self.clock
    }

    /// The causal dependencies of the puts that are counted. Takes no memory.
    pub fn needs(&self) -> &Needs
        ensures { result.now ≡ self.now.needs }
    {
        &self.needs
    }

    /// The greatest Lamport number of the puts that are counted, 0 for none. Takes no memory.
    pub fn top(&self) -> u64
        ensures { result ≡ self.now.top }
    {
        self.top
    }

    /// The value of the puts that are counted. Takes no memory.
    pub fn value(&self) -> &Value
        ensures { result.now ≡ self.now.value }
    {
        &self.value
    }

    /// The four parts: clock, causal dependencies, greatest Lamport number, value. Takes no memory.
    pub fn into_parts(self) -> (Clock, Needs, u64, Value)
        ensures { result ≡ (self.clock, self.needs, self.top, self.value) }
    {
        (self.clock, self.needs, self.top, self.value)
    }
}

impl Lattice for Cell {
    ghost use Rattle.composed_value.specs.Cell.{PlainCell, IsCell, AreOfOneKind, joined_cells};
    ghost use Rattle.composed_value.specs.CellLaws.{cell_laws, cell_associative};

    ghost Plain = { PlainCell };

    ghost plain = { λ cell. cell };

    ghost is_value = { IsCell };

    ghost fits = { AreOfOneKind };

    ghost joined = { joined_cells };

    fn attest(&self) {
        self.clock.attest();
        self.needs.attest();
        let _top = self.top;
        self.value.attest();
    }

    fn join(&mut self, other: &Cell) -> Result<(), NoMemory> {
        let clock = self.clock.joined(&other.clock)?;
        let needs = self.needs.joined(&other.needs)?;
        self.value.join(&other.value)?;
        self.clock = clock;
        self.needs = needs;
        self.top = self.top.max(other.top);
        Ok(())
    }

    fn copy(&self) -> Result<Cell, NoMemory> {
        Ok(Cell {
            clock: self.clock.copy()?,
            needs: self.needs.copy()?,
            top: self.top,
            value: self.value.copy()?,
        })
    }

    fn at_most(&self, other: &Cell) -> bool {
        self.clock.at_most(&other.clock)
            && self.needs.at_most(&other.needs)
            && self.top <= other.top
            && self.value.at_most(&other.value)
    }

    ghost laws = { cell_laws };

    ghost associative = { cell_associative };
}
