//! The cells that puts on a key have together.
ghost use Rattle.std.specs.Prelude.{◌≡◌, ◌↔◌, ℕ, ◌≤◌, All, IsTrue, IfOk, OnOk, OnErr, filter, length};
ghost use Rattle.std.specs.List.{list_all};
ghost use Rattle.clock_lattice.specs.Clock.{count_of};
ghost use Rattle.composed_value.specs.Cell.{cell_of};
ghost use Rattle.composed_value.specs.PlainValue.{IsPutOf, puts_of_session};
ghost use Rattle.composed_value.specs.Kind.{kind_of_value};
ghost use Rattle.composed_value.specs.Sound.{is_counted, counted};
ghost use Rattle.anna_check.specs.Counted.{is_newly_counted, IsOfItsPuts, AreNeedsShown, IsCellShown, IsCellFinal};

use clock_lattice::{Clock, Needs};
use composed_value::{Cell, Kind, Put};
use lattice_laws::{Lattice, NoMemory};
use session_known::{FinalCell, Shown};
use std::alloc::Global;

/// Brings a cell of the puts that its clock counts to those that another clock counts. Where that clock
/// covers the cell's own, the puts that it counts newly are joined with the cell; else the cell is
/// computed from no puts. After `NoMemory` it is as before.
pub(crate) fn count(
    alloc: Global,
    kind: Kind,
    puts: &[Put],
    clock: &Clock,
    cell: &mut Cell,
) -> Result<(), NoMemory>
    requires puts { All (IsPutOf kind) puts.now }
    requires cell { IsOfItsPuts kind puts.now cell.old }
    ensures ok { OnOk result (cell.new ≡ cell_of kind (counted puts.now clock.now)) }
    ensures err { OnErr result (cell.new ≡ cell.old) }
{
    if are_same(cell.clock(), clock) {
        return Ok(());
    }
    if clock.covers(cell.clock()) {
        let added = newly_counted_cell(alloc, kind, puts, cell.clock(), clock)?;
        cell.join(&added)
    } else {
        *cell = newly_counted_cell(alloc, kind, puts, &Clock::new(alloc), clock)?;
        Ok(())
    }
}

/// The cell of those of the puts of a kind that a clock counts, and one before does not.
fn newly_counted_cell(
    alloc: Global,
    kind: Kind,
    puts: &[Put],
    before: &Clock,
    clock: &Clock,
) -> Result<Cell, NoMemory>
    requires { All (IsPutOf kind) puts.now }
    ensures { IfOk result (λ cell. cell ≡ cell_of kind
        (filter (is_newly_counted before.now clock.now) puts.now)) }
{
    let mut cell = Cell::empty(alloc, kind);
    for put in puts {
        if is_newly_counted(before, clock, put) {
            cell.join(&Cell::of_put(alloc, put)?)?;
        }
    }
    Ok(cell)
}

/// Whether the put is counted by the clock, and not by the one before.
fn is_newly_counted(before: &Clock, clock: &Clock, put: &Put) -> bool
    ensures { result ≡ is_newly_counted before.now clock.now put.now }
{
    before.count(put.session) < put.number && put.number <= clock.count(put.session)
}

// ---- equal parts

/// Whether two elements are the same: each is at most the other. Takes no memory.
fn are_same<L: Lattice>(one: &L, other: &L) -> bool
    requires { L.fits (L.plain one.now) (L.plain other.now) }
    ensures { IsTrue result ↔ (L.plain one.now ≡ L.plain other.now) }
{
    one.attest();
    other.attest();
    one.at_most(other) && other.at_most(one)
}

// ---- replies

/// Whether the needs are those that are shown, where any are.
fn are_needs_shown(needs: &Needs, shown: &Option<Needs>) -> bool
    ensures { IsTrue result ↔ AreNeedsShown needs.now shown.now }
{
    match shown {
        None => true,
        Some(shown) => are_same(needs, shown),
    }
}

/// Whether what is shown is the clock, the top and the value of the cell, and its needs where any are
/// shown.
pub(crate) fn is_cell_shown(cell: &Cell, shown: &Shown) -> bool
    requires { kind_of_value cell.now.value ≡ kind_of_value shown.now.value }
    ensures { IsTrue result ↔ IsCellShown cell.now shown.now }
{
    are_same(cell.clock(), &shown.clock)
        && cell.top() == shown.top
        && are_same(cell.value(), &shown.value)
        && are_needs_shown(cell.needs(), &shown.needs)
}

/// Whether a clock counts no more puts of any session than there are among these.
pub(crate) fn counts_only(clock: &Clock, puts: &[Put]) -> bool
    ensures { IsTrue result ↔ ((session : ℕ)
        → count_of session clock.now ≤ length (puts_of_session session puts.now)) }
{
    clock.attest();
    for i in 0..clock.len() {
        let Some((session, count)) = clock.at(i) else {
            unreachable!();
        };
        if puts_made(session, puts) < count {
            return false;
        }
    }
    true
}

/// How many of the puts are of the session.
fn puts_made(session: u16, puts: &[Put]) -> u64
    ensures { result ≡ length (puts_of_session session puts.now) }
{
    puts.iter().filter(|put| put.session == session).count() as u64
}

// ---- final cells

/// Whether a clock counts all of the puts.
pub(crate) fn counts_all(clock: &Clock, puts: &[Put]) -> bool
    ensures { result ≡ list_all (is_counted clock.now) puts.now }
{
    puts.iter()
        .all(|put| put.number <= clock.count(put.session))
}

/// Whether the final cell has the clock, the top and the value of the cell.
pub(crate) fn is_cell_final(cell: &Cell, last: &FinalCell) -> bool
    requires { kind_of_value cell.now.value ≡ kind_of_value last.now.value }
    ensures { IsTrue result ↔ IsCellFinal cell.now last.now }
{
    are_same(cell.clock(), &last.clock)
        && cell.top() == last.top
        && are_same(cell.value(), &last.value)
}
