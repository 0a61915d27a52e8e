//! Needs.

use clock_lattice::{Clock, Needs};
use lattice_laws::Lattice;
use std::alloc::Global;
use std::test::Fail;

fn needs_of(alloc: Global, raises: &[(u16, u16, u64)]) -> Result<Needs, Fail> {
    let mut needs = Needs::new(alloc);
    for (key, session, n) in raises {
        let mut clock = Clock::new(alloc);
        clock.raise(*session, *n)?;
        needs.raise(*key, &clock)?;
    }
    Ok(needs)
}

// Entries (key, session, count) in order, as the needs have them.
fn shows(needs: &Needs, keys: &[u16], entries: &[(u16, u16, u64)]) -> bool {
    needs.len() == keys.len()
        && (0..keys.len()).all(|i| matches!(needs.at(i), Some((key, _)) if key == keys[i]))
        && needs.at(keys.len()).is_none()
        && needs.iter().count() == keys.len()
        && needs
            .iter()
            .zip(keys)
            .all(|((shown, _), key)| shown == *key)
        && needs.is_empty() == keys.is_empty()
        && entries.iter().all(|(key, session, n)| {
            matches!(needs.of(*key), Some(clock) if clock.count(*session) == *n)
        })
}

#[test]
fn joins_the_clocks_of_each_key(rt: HostRuntime) -> Result<(), Fail> {
    let raises = [(4, 1, 2), (2, 1, 1), (4, 2, 1), (4, 1, 1), (3, 1, 0)];
    let needs = needs_of(rt.alloc(), &raises)?;
    assert!(rt;
        shows(
            &needs,
            &[2, 4],
            &[(2, 1, 1), (2, 2, 0), (4, 1, 2), (4, 2, 1)]
        )
    );
    for key in [0, 1, 3, 5] {
        assert!(rt; needs.of(key).is_none());
    }
    Ok(())
}

#[test]
fn pushes_keys_that_come_after_the_others(rt: HostRuntime) -> Result<(), Fail> {
    let mut needs = Needs::new(rt.alloc());
    let pushes = [
        (2, 1, 0, false),
        (2, 1, 5, true),
        (4, 3, 1, true),
        (3, 1, 1, false),
        (4, 1, 1, false),
        (6, 2, 2, true),
    ];
    for (key, session, n, is_pushed) in pushes {
        let mut clock = Clock::new(rt.alloc());
        clock.raise(session, n)?;
        assert_eq!(rt; needs.push(key, clock)?, is_pushed);
    }
    assert!(rt;
        shows(
            &needs,
            &[2, 4, 6],
            &[(2, 1, 5), (4, 3, 1), (4, 1, 0), (6, 2, 2)]
        )
    );
    Ok(())
}

#[test]
fn covers_key_by_key(rt: HostRuntime) -> Result<(), Fail> {
    let mine = needs_of(rt.alloc(), &[(1, 1, 2), (3, 1, 1)])?;
    let theirs = needs_of(rt.alloc(), &[(1, 1, 1), (2, 1, 1)])?;
    assert!(rt; !mine.covers(&theirs) && !theirs.covers(&mine));
    assert!(rt; mine.covers(&Needs::new(rt.alloc())));
    assert!(rt; mine.covers(&needs_of(rt.alloc(), &[(1, 1, 1)])?));
    assert!(rt; !mine.covers(&needs_of(rt.alloc(), &[(1, 2, 1)])?));
    let mut joined = mine.copy()?;
    joined.join(&theirs)?;
    assert!(rt; shows(&joined, &[1, 2, 3], &[(1, 1, 2), (2, 1, 1), (3, 1, 1)]));
    assert!(rt; joined.covers(&mine) && joined.covers(&theirs));
    assert!(rt; mine.at_most(&joined) && !joined.at_most(&mine));
    Ok(())
}
