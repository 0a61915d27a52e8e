//! Counters.

use dot_lattices::{Amounts, Dot, DotSums};
use lattice_laws::Lattice;
use std::alloc::Global;
use std::test::Fail;

/// The counter of some puts: session, number, whether it adds, and the amount.
fn counter(alloc: Global, puts: &[(u16, u64, bool, u32)]) -> Result<DotSums, Fail> {
    let mut sums = DotSums::new(alloc);
    for (session, number, plus, amount) in puts {
        sums.join(&DotSums::one(alloc, *session, *number, *plus, *amount)?)?;
    }
    Ok(sums)
}

/// The total of a counter of at most 4,096 dots.
fn total_of(sums: &DotSums) -> Option<i64> {
    if sums.len() > 4096 {
        return None;
    }
    Some(sums.total())
}

/// What a counter shows: the entries in order.
fn shows(sums: &DotSums, entries: &[(u16, u64, u32, u32)]) -> bool {
    sums.len() == entries.len()
        && (0..sums.len()).all(|i| matches!(sums.at(i), Some(entry) if entry == entries[i]))
        && sums.at(sums.len()).is_none()
        && sums.is_empty() == entries.is_empty()
}

#[test]
fn counts_each_put_once(rt: HostRuntime) -> Result<(), Fail> {
    let puts = [
        (2, 1, true, 5),
        (1, 2, false, 3),
        (2, 1, true, 5),
        (1, 1, true, u32::MAX),
        (1, 2, false, 3),
    ];
    let sums = counter(rt.alloc(), &puts)?;
    assert!(rt; shows(&sums, &[(1, 1, u32::MAX, 0), (1, 2, 0, 3), (2, 1, 5, 0)]));
    assert_eq!(rt; total_of(&sums), Some(4_294_967_297));
    let again = sums.merged(&sums)?;
    assert_eq!(rt; total_of(&again), Some(4_294_967_297));
    assert!(rt; sums.at_most(&again) && again.at_most(&sums));
    Ok(())
}

#[test]
fn a_total_may_be_below_zero(rt: HostRuntime) -> Result<(), Fail> {
    let cases: [(&[(u16, u64, bool, u32)], i64); 4] = [
        (&[], 0),
        (&[(1, 1, true, 5), (1, 2, false, 3)], 2),
        (&[(1, 1, true, 5), (1, 2, false, 7)], -2),
        (&[(3, 1, false, 4), (2, 1, false, 4)], -8),
    ];
    for (puts, total) in cases {
        assert_eq!(rt; total_of(&counter(rt.alloc(), puts)?), Some(total));
    }
    Ok(())
}

#[test]
fn pushes_dots_that_come_after_the_others(rt: HostRuntime) -> Result<(), Fail> {
    let mut sums = DotSums::new(rt.alloc());
    for (session, number, is_pushed) in [(1, 2, true), (1, 1, false), (1, 2, false), (2, 1, true)] {
        let amounts = Amounts { added: 1, taken: 2 };
        assert_eq!(rt; sums.push(Dot { session, number }, amounts)?, is_pushed);
    }
    assert!(rt; shows(&sums, &[(1, 2, 1, 2), (2, 1, 1, 2)]));
    Ok(())
}
