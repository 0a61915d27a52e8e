//! Stamped words.

use basic_lattices::{Stamped, Word};
use lattice_laws::Lattice;
use std::test::Fail;

fn stamped(number: u64, session: u16, place: u32, word: &[u8]) -> Result<Stamped, Fail> {
    Ok(Stamped {
        number,
        session,
        place,
        word: Word::of(word)?,
    })
}

#[test]
fn the_place_decides_before_the_word(rt: HostRuntime) -> Result<(), Fail> {
    let mut kept = stamped(3, 1, 0, b"red")?;
    kept.join(&stamped(3, 1, 1, b"blue")?)?;
    assert_eq!(rt; kept, stamped(3, 1, 1, b"blue")?);
    kept.join(&stamped(3, 1, 1, b"red")?)?;
    assert_eq!(rt; kept, stamped(3, 1, 1, b"red")?);
    kept.join(&stamped(3, 1, 1, b"blue")?)?;
    assert_eq!(rt; kept, stamped(3, 1, 1, b"red")?);
    Ok(())
}

#[test]
fn each_field_decides_before_the_next(rt: HostRuntime) -> Result<(), Fail> {
    let ascending = [
        stamped(1, 9, 9, b"z")?,
        stamped(2, 1, 9, b"z")?,
        stamped(2, 2, 1, b"z")?,
        stamped(2, 2, 2, b"a")?,
        stamped(2, 2, 2, b"b")?,
    ];
    for i in 1..ascending.len() {
        let (lesser, greater) = (&ascending[i - 1], &ascending[i]);
        assert!(rt; lesser.at_most(greater));
        assert!(rt; !greater.at_most(lesser));
        let mut joined = lesser.copy()?;
        joined.join(greater)?;
        assert_eq!(rt; &joined, greater);
        joined.join(lesser)?;
        assert_eq!(rt; &joined, greater);
    }
    Ok(())
}
