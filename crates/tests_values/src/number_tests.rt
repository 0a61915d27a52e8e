//! Greatest numbers.

use basic_lattices::MaxNum;
use lattice_laws::{Lattice, Maybe, join_all};
use std::test::Fail;

#[test]
fn keeps_the_greater(rt: HostRuntime) -> Result<(), Fail> {
    for (mine, theirs, greater) in [(5, 3, 5), (3, 5, 5), (4, 4, 4), (0, u64::MAX, u64::MAX)] {
        let mut number = MaxNum(mine);
        number.join(&MaxNum(theirs))?;
        assert_eq!(rt; number.copy()?, MaxNum(greater));
        assert_eq!(rt; MaxNum(mine).at_most(&MaxNum(theirs)), mine <= theirs);
    }
    Ok(())
}

#[test]
fn a_bottom_is_below_every_number(rt: HostRuntime) -> Result<(), Fail> {
    let mut cell = Maybe::Bottom;
    assert!(rt; cell.at_most(&Maybe::Is(MaxNum(0))));
    assert!(rt; !Maybe::Is(MaxNum(0)).at_most(&cell));
    cell.join(&Maybe::Bottom)?;
    assert!(rt; matches!(&cell, Maybe::Bottom));
    for (put, greatest) in [(5, 5), (3, 5), (7, 7)] {
        cell.join(&Maybe::Is(MaxNum(put)))?;
        cell.join(&Maybe::Bottom)?;
        let shown = cell.copy()?;
        assert!(rt; matches!(&shown, Maybe::Is(number) if number.0 == greatest));
    }
    Ok(())
}

#[test]
fn joins_a_list(rt: HostRuntime) -> Result<(), Fail> {
    let rest = [MaxNum(9), MaxNum(2), MaxNum(9)];
    assert_eq!(rt; join_all(&MaxNum(4), &rest)?, MaxNum(9));
    assert_eq!(rt; join_all(&MaxNum(4), &[])?, MaxNum(4));
    Ok(())
}
