//! Cells of puts, and their joins.
ghost use Rattle.std.specs.Prelude.{◌≡◌, ◌<◌, IfOk};
ghost use Rattle.composed_value.specs.Kind.{kind_of};

use crate::clock_tests::clock_of;
use basic_lattices::Word;
use clock_lattice::Needs;
use composed_value::{Cell, Kind, Payload, Put, Value};
use lattice_laws::{Lattice, MapKey, Maybe};
use std::alloc::Global;
use std::test::Fail;

// A put at Lamport number 10 and its own number; its version's clock counts the put alone, and
// it needs that many puts of session 9 on key 7.
fn put_of(alloc: Global, session: u16, number: u64, payload: Payload) -> Result<Put, Fail>
    requires small { number < 10 }
    ensures number { IfOk result (λ put. put.number ≡ number) }
    ensures payload { IfOk result (λ put. put.payload ≡ payload) }
{
    let mut needs = Needs::new(alloc);
    needs.raise(7, &clock_of(alloc, &[(9, number)])?)?;
    Ok(Put {
        session,
        number,
        lamport: 10 + number,
        place: 0,
        seen: clock_of(alloc, &[(session, number)])?,
        needs,
        payload,
    })
}

// The join of the cells of two puts, the second of them copied before.
//
// Here and below puts and cells are held in arrays of one: to drop an array is one step of a proof, and to drop a
// put or a cell a case for each kind.
fn joined(alloc: Global, first: &Put, second: &Put) -> Result<Cell, Fail>
    requires first { 0 < first.now.number }
    requires second { 0 < second.now.number }
    requires kinds { kind_of first.now.payload ≡ kind_of second.now.payload }
{
    let mut cell = [Cell::of_put(alloc, first)?];
    let second = [second.copy()?];
    let other = [Cell::of_put(alloc, &second[0])?];
    cell[0].join(&other[0])?;
    Ok(cell[0].copy()?)
}

#[test]
fn numbers_join_to_the_greater(rt: HostRuntime) -> Result<(), Fail> {
    let first = [put_of(rt.alloc(), 1, 1, Payload::Max(5))?];
    let second = [put_of(rt.alloc(), 1, 2, Payload::Max(3))?];
    let cell = [joined(rt.alloc(), &first[0], &second[0])?];
    assert!(rt; matches!(cell[0].value(), Value::Max(Maybe::Is(number)) if number.0 == 5));
    assert_eq!(rt; cell[0].clock().count(1), 2);
    assert_eq!(rt; cell[0].clock().len(), 1);
    assert_eq!(rt; cell[0].top(), 12);
    Ok(())
}

#[test]
fn needs_are_joined(rt: HostRuntime) -> Result<(), Fail> {
    let first = [put_of(rt.alloc(), 1, 3, Payload::On)?];
    let second = [put_of(rt.alloc(), 2, 1, Payload::On)?];
    let cell = [joined(rt.alloc(), &first[0], &second[0])?];
    assert!(rt; matches!(cell[0].needs().of(7), Some(clock) if clock.count(9) == 3));
    assert_eq!(rt; cell[0].needs().len(), 1);
    assert!(rt; matches!(cell[0].value(), Value::Or(on) if on.0));
    Ok(())
}

#[test]
fn a_cell_is_at_most_what_it_is_joined_into(rt: HostRuntime) -> Result<(), Fail> {
    let put = [put_of(rt.alloc(), 1, 1, Payload::Add(Word::of(b"x")?))?];
    let one = [Cell::of_put(rt.alloc(), &put[0])?];
    let empty = [Cell::empty(rt.alloc(), Kind::Set)];
    assert!(rt; empty[0].at_most(&one[0]));
    assert!(rt; !one[0].at_most(&empty[0]));
    assert_eq!(rt; one[0].kind(), Kind::Set);
    assert_eq!(rt; empty[0].kind(), Kind::Set);
    Ok(())
}

#[test]
fn a_set_keeps_each_word_once(rt: HostRuntime) -> Result<(), Fail> {
    let first = [put_of(rt.alloc(), 1, 1, Payload::Add(Word::of(b"x")?))?];
    let second = [put_of(rt.alloc(), 2, 1, Payload::Add(Word::of(b"x")?))?];
    let cell = [joined(rt.alloc(), &first[0], &second[0])?];
    assert!(rt; matches!(cell[0].value(), Value::Set(words) if words.len() == 1));
    Ok(())
}

#[test]
fn a_map_keeps_the_greatest_of_each_field(rt: HostRuntime) -> Result<(), Fail> {
    let field = Word::of(b"home")?;
    let first = [put_of(rt.alloc(), 1, 1, Payload::Field(field.copy()?, 3))?];
    let second = [put_of(rt.alloc(), 2, 1, Payload::Field(field.copy()?, 5))?];
    let cell = [joined(rt.alloc(), &first[0], &second[0])?];
    let Value::Map(fields) = cell[0].value() else {
        return Err(Fail::new("no map"));
    };
    assert!(rt; matches!(fields.get(&field), Some(number) if number.0 == 5));
    Ok(())
}

#[test]
fn the_last_word_is_that_of_the_greater_lamport_number(rt: HostRuntime) -> Result<(), Fail> {
    let first = [put_of(rt.alloc(), 1, 2, Payload::Last(Word::of(b"late")?))?];
    let second = [put_of(rt.alloc(), 2, 1, Payload::Last(Word::of(b"soon")?))?];
    let cell = [joined(rt.alloc(), &first[0], &second[0])?];
    let Value::Last(Maybe::Is(last)) = cell[0].value() else {
        return Err(Fail::new("no word"));
    };
    assert_eq!(rt; last.word.as_bytes(), b"late".as_slice());
    assert_eq!(rt; last.number, 12);
    Ok(())
}

#[test]
fn versions_stay_side_by_side(rt: HostRuntime) -> Result<(), Fail> {
    let first = [put_of(rt.alloc(), 1, 1, Payload::Version(Word::of(b"x")?))?];
    let second = [put_of(rt.alloc(), 2, 1, Payload::Version(Word::of(b"y")?))?];
    let cell = [joined(rt.alloc(), &first[0], &second[0])?];
    assert!(rt; matches!(cell[0].value(), Value::Versions(versions) if versions.len() == 2));
    Ok(())
}
