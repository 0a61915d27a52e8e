//! Flags.

use basic_lattices::Flag;
use lattice_laws::Lattice;
use std::test::Fail;

#[test]
fn stays_on(rt: HostRuntime) -> Result<(), Fail> {
    for (mine, theirs) in [(false, false), (false, true), (true, false), (true, true)] {
        let mut flag = Flag(mine);
        flag.join(&Flag(theirs))?;
        assert_eq!(rt; flag.copy()?, Flag(mine || theirs));
        assert_eq!(rt; Flag(mine).at_most(&Flag(theirs)), !mine || theirs);
    }
    Ok(())
}
