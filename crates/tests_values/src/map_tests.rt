//! Maps.

use basic_lattices::{FieldMax, MapOf, MaxNum, Word};
use lattice_laws::Lattice;
use std::alloc::Global;
use std::test::Fail;

fn map_of(alloc: Global, raises: &[(u16, u64)]) -> Result<MapOf<u16, MaxNum>, Fail> {
    let mut map = MapOf::new(alloc);
    for (key, value) in raises {
        map.raise(*key, MaxNum(*value))?;
    }
    Ok(map)
}

fn shows(map: &MapOf<u16, MaxNum>, entries: &[(u16, u64)]) -> bool {
    map.len() == entries.len()
        && (0..map.len()).all(|i| {
            matches!(map.at(i), Some((key, value)) if (*key, value.0) == entries[i])
        })
        && map.at(map.len()).is_none()
        && map.iter().count() == entries.len()
        && map
            .iter()
            .zip(entries)
            .all(|((key, value), entry)| (*key, value.0) == *entry)
        && map.is_empty() == entries.is_empty()
}

#[test]
fn a_raise_merges_at_its_key(rt: HostRuntime) -> Result<(), Fail> {
    let map = map_of(rt.alloc(), &[(7, 1), (2, 5), (7, 9), (4, 4), (2, 3)])?;
    assert!(rt; shows(&map, &[(2, 5), (4, 4), (7, 9)]));
    assert!(rt; matches!(map.get(&7), Some(value) if value.0 == 9));
    for key in [0, 3, 5, 8] {
        assert!(rt; map.get(&key).is_none());
    }
    Ok(())
}

#[test]
fn pushes_keys_that_come_after_the_others(rt: HostRuntime) -> Result<(), Fail> {
    let mut map = map_of(rt.alloc(), &[(2, 5)])?;
    for (key, value, is_pushed) in [(4, 4, true), (3, 6, false), (4, 9, false), (7, 1, true)] {
        assert_eq!(rt; map.push(key, MaxNum(value))?, is_pushed);
    }
    assert!(rt; shows(&map, &[(2, 5), (4, 4), (7, 1)]));
    Ok(())
}

#[test]
fn maps_join_key_by_key(rt: HostRuntime) -> Result<(), Fail> {
    let mine = map_of(rt.alloc(), &[(2, 5), (4, 4), (7, 9)])?;
    let theirs = map_of(rt.alloc(), &[(1, 1), (4, 6), (7, 8), (9, 3)])?;
    let mut joined = mine.copy()?;
    assert!(rt; shows(&joined, &[(2, 5), (4, 4), (7, 9)]));
    joined.join(&theirs)?;
    assert!(rt; shows(&joined, &[(1, 1), (2, 5), (4, 6), (7, 9), (9, 3)]));
    assert!(rt; mine.at_most(&joined) && theirs.at_most(&joined));
    assert!(rt; !mine.at_most(&theirs) && !theirs.at_most(&mine));
    assert!(rt; !joined.at_most(&mine) && !joined.at_most(&theirs));
    joined.join(&mine)?;
    assert!(rt; shows(&joined, &[(1, 1), (2, 5), (4, 6), (7, 9), (9, 3)]));
    Ok(())
}

#[test]
fn fields_are_words(rt: HostRuntime) -> Result<(), Fail> {
    let mut fields: FieldMax = MapOf::new(rt.alloc());
    for (field, value) in [(b"y".as_slice(), 1), (b"x", 2), (b"y", 3)] {
        fields.raise(Word::of(field)?, MaxNum(value))?;
    }
    assert_eq!(rt; fields.len(), 2);
    let field = Word::of(b"y")?;
    assert!(rt; matches!(fields.get(&field), Some(value) if value.0 == 3));
    Ok(())
}
