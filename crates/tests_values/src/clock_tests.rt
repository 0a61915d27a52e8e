//! Clocks.

use clock_lattice::Clock;
use lattice_laws::Lattice;
use std::alloc::Global;
use std::test::Fail;

/// The clock that raises of its sessions make.
pub(crate) fn clock_of(alloc: Global, raises: &[(u16, u64)]) -> Result<Clock, Fail> {
    let mut clock = Clock::new(alloc);
    for (session, n) in raises {
        clock.raise(*session, *n)?;
    }
    Ok(clock)
}

fn shows(clock: &Clock, entries: &[(u16, u64)]) -> bool {
    clock.len() == entries.len()
        && (0..clock.len()).all(|i| matches!(clock.at(i), Some(entry) if entry == entries[i]))
        && clock.at(clock.len()).is_none()
        && clock.iter().count() == entries.len()
        && clock
            .iter()
            .zip(entries)
            .all(|(shown, entry)| shown == *entry)
        && clock.is_empty() == entries.is_empty()
}

#[test]
fn keeps_the_greatest_count_of_each_session(rt: HostRuntime) -> Result<(), Fail> {
    let clock = clock_of(
        rt.alloc(),
        &[(7, 1), (2, 5), (7, 9), (3, 0), (2, 3), (2, 0)],
    )?;
    assert!(rt; shows(&clock, &[(2, 5), (7, 9)]));
    for (session, count) in [(2, 5), (7, 9), (3, 0), (0, 0), (u16::MAX, 0)] {
        assert_eq!(rt; clock.count(session), count);
    }
    assert!(rt; shows(&clock_of(rt.alloc(), &[(1, 0)])?, &[]));
    assert!(rt;
        shows(
            &clock_of(rt.alloc(), &[(u16::MAX, u64::MAX)])?,
            &[(u16::MAX, u64::MAX)]
        )
    );
    Ok(())
}

#[test]
fn pushes_sessions_that_come_after_the_others(rt: HostRuntime) -> Result<(), Fail> {
    let mut clock = Clock::new(rt.alloc());
    let pushes = [
        (2, 0, false),
        (2, 5, true),
        (7, 1, true),
        (3, 4, false),
        (7, 9, false),
        (9, 0, false),
        (u16::MAX, u64::MAX, true),
    ];
    for (session, n, is_pushed) in pushes {
        assert_eq!(rt; clock.push(session, n)?, is_pushed);
    }
    assert!(rt; shows(&clock, &[(2, 5), (7, 1), (u16::MAX, u64::MAX)]));
    Ok(())
}

#[test]
fn covers_what_counts_no_more(rt: HostRuntime) -> Result<(), Fail> {
    let cases: [(&[(u16, u64)], &[(u16, u64)], bool, bool); 6] = [
        (&[], &[], true, true),
        (&[(1, 1)], &[], true, false),
        (&[(1, 2), (2, 1)], &[(1, 2)], true, false),
        (&[(1, 2)], &[(1, 1)], true, false),
        (&[(1, 1)], &[(2, 1)], false, false),
        (&[(1, 2), (3, 1)], &[(1, 1), (2, 1)], false, false),
    ];
    for (mine, theirs, covers, is_covered) in cases {
        let mine = clock_of(rt.alloc(), mine)?;
        let theirs = clock_of(rt.alloc(), theirs)?;
        assert_eq!(rt; mine.covers(&theirs), covers);
        assert_eq!(rt; theirs.at_most(&mine), covers);
        assert_eq!(rt; theirs.covers(&mine), is_covered);
    }
    Ok(())
}

#[test]
fn a_join_counts_what_either_does(rt: HostRuntime) -> Result<(), Fail> {
    let mine = clock_of(rt.alloc(), &[(1, 2), (3, 1)])?;
    let theirs = clock_of(rt.alloc(), &[(1, 1), (2, 4)])?;
    let mut joined = mine.copy()?;
    joined.join(&theirs)?;
    assert!(rt; shows(&joined, &[(1, 2), (2, 4), (3, 1)]));
    assert!(rt; joined.covers(&mine) && joined.covers(&theirs));
    assert!(rt; mine == mine.copy()? && mine != theirs);
    Ok(())
}

#[test]
fn clocks_are_listed_by_their_entries(rt: HostRuntime) -> Result<(), Fail> {
    let ascending: [&[(u16, u64)]; 5] = [&[], &[(1, 1)], &[(1, 1), (2, 1)], &[(1, 2)], &[(2, 1)]];
    for i in 1..ascending.len() {
        let lesser = clock_of(rt.alloc(), ascending[i - 1])?;
        let greater = clock_of(rt.alloc(), ascending[i])?;
        assert!(rt; lesser < greater);
    }
    Ok(())
}
