//! Versions side by side.

use crate::clock_tests::clock_of;
use basic_lattices::Word;
use lattice_laws::Lattice;
use std::alloc::Global;
use std::test::Fail;
use version_antichain::Versions;

fn one(alloc: Global, counts: &[(u16, u64)], word: &[u8]) -> Result<Versions, Fail> {
    Ok(Versions::one(alloc, clock_of(alloc, counts)?, Word::of(word)?)?)
}

// The join of the one-version registers, in the order given.
fn joined(alloc: Global, versions: &[(&[(u16, u64)], &[u8])]) -> Result<Versions, Fail> {
    let mut all = Versions::new(alloc);
    for (counts, word) in versions {
        all.join(&one(alloc, counts, word)?)?;
    }
    Ok(all)
}

fn shows(
    alloc: Global,
    versions: &Versions,
    expected: &[(&[(u16, u64)], &[u8])],
) -> Result<bool, Fail> {
    for i in 0..expected.len() {
        let (counts, word) = expected[i];
        let clock = clock_of(alloc, counts)?;
        let Some(shown) = versions.at(i) else {
            return Ok(false);
        };
        if *shown.0 != clock || shown.1.as_bytes() != word {
            return Ok(false);
        }
    }
    for ((_, shown), (_, word)) in versions.iter().zip(expected) {
        if shown.as_bytes() != *word {
            return Ok(false);
        }
    }
    Ok(
        versions.iter().count() == expected.len()
            && versions.len() == expected.len()
            && versions.at(expected.len()).is_none(),
    )
}

// A has written x and then z, having seen only its own x; B has written y and seen nothing.
#[test]
fn the_order_of_joins_does_not_matter(rt: HostRuntime) -> Result<(), Fail> {
    let x: (&[(u16, u64)], &[u8]) = (&[(1, 1)], b"x");
    let y: (&[(u16, u64)], &[u8]) = (&[(2, 1)], b"y");
    let z: (&[(u16, u64)], &[u8]) = (&[(1, 2)], b"z");
    for order in [[x, y, z], [x, z, y], [z, y, x], [y, z, x]] {
        let all = joined(rt.alloc(), &order)?;
        assert!(rt; shows(rt.alloc(), &all, &[z, y])?);
    }
    Ok(())
}

#[test]
fn equal_clocks_stand_side_by_side(rt: HostRuntime) -> Result<(), Fail> {
    let red: (&[(u16, u64)], &[u8]) = (&[(1, 1)], b"red");
    let blue: (&[(u16, u64)], &[u8]) = (&[(1, 1)], b"blue");
    let later: (&[(u16, u64)], &[u8]) = (&[(1, 1), (2, 1)], b"green");
    let both = joined(rt.alloc(), &[red, blue, red])?;
    assert!(rt; shows(rt.alloc(), &both, &[blue, red])?);
    let mut all = both.copy()?;
    assert!(rt; shows(rt.alloc(), &all, &[blue, red])?);
    all.join(&joined(rt.alloc(), &[later])?)?;
    assert!(rt; shows(rt.alloc(), &all, &[later])?);
    Ok(())
}

#[test]
fn pushes_what_comes_after_the_others_and_is_not_ordered_with_them(
    rt: HostRuntime,
) -> Result<(), Fail> {
    let pushes: [(&[(u16, u64)], &[u8], bool); 7] = [
        (&[(1, 1), (2, 2)], b"blue", true),
        (&[(1, 1), (2, 2)], b"red", true),
        (&[(1, 1), (2, 2)], b"green", false),
        (&[(1, 1), (2, 2)], b"red", false),
        (&[(1, 1), (2, 3)], b"later", false),
        (&[(2, 1)], b"earlier", false),
        (&[(2, 3)], b"other", true),
    ];
    let mut all = Versions::new(rt.alloc());
    for (counts, word, is_pushed) in pushes {
        let clock = clock_of(rt.alloc(), counts)?;
        assert_eq!(rt; all.push(clock, Word::of(word)?)?, is_pushed);
    }
    let kept: [(&[(u16, u64)], &[u8]); 3] = [
        (&[(1, 1), (2, 2)], b"blue"),
        (&[(1, 1), (2, 2)], b"red"),
        (&[(2, 3)], b"other"),
    ];
    assert!(rt; shows(rt.alloc(), &all, &kept)?);
    Ok(())
}

#[test]
fn is_at_most_what_holds_or_overtook_it(rt: HostRuntime) -> Result<(), Fail> {
    let x = one(rt.alloc(), &[(1, 1)], b"x")?;
    let y = one(rt.alloc(), &[(2, 1)], b"y")?;
    let z = one(rt.alloc(), &[(1, 2)], b"z")?;
    let mut both = x.copy()?;
    both.join(&y)?;
    assert!(rt; x.at_most(&x) && x.at_most(&z) && x.at_most(&both) && y.at_most(&both));
    assert!(rt; !z.at_most(&x) && !x.at_most(&y) && !both.at_most(&x) && !both.at_most(&z));
    assert!(rt; Versions::new(rt.alloc()).at_most(&x));
    assert!(rt; !x.at_most(&Versions::new(rt.alloc())));
    Ok(())
}
