//! What want of memory is called.

use lattice_laws::NoMemory;
use std::test::Fail;

#[test]
fn says_that_memory_ran_out(rt: HostRuntime) -> Result<(), Fail> {
    assert_eq!(rt;
        format!(in rt.alloc(); "{NoMemory}")?.as_str(),
        "out of memory"
    );
    Ok(())
}
