//! Entries by key, alone and shared.

use lattice_laws::entries::{join_shared, push_entry, push_shared, raise_shared};
use lattice_laws::{Member, Shared};
use std::test::Fail;

#[test]
fn pushes_keys_that_come_after_the_others(rt: HostRuntime) -> Result<(), Fail> {
    let mut entries = Vec::new(rt.alloc());
    assert!(rt; push_entry(&mut entries, 3_u16, Member)?);
    assert!(rt; push_entry(&mut entries, 7, Member)?);
    assert!(rt; !push_entry(&mut entries, 5, Member)?);
    assert!(rt; !push_entry(&mut entries, 7, Member)?);
    assert!(rt; push_entry(&mut entries, 8, Member)?);
    assert_eq!(rt; entries.len(), 3);
    for (entry, key) in entries.iter().zip([3_u16, 7, 8]) {
        assert_eq!(rt; entry.0, key);
    }
    Ok(())
}

#[test]
fn a_map_that_is_shared_is_copied_before_it_changes(rt: HostRuntime) -> Result<(), Fail> {
    let mut mine = Shared::new(rt.alloc());
    assert!(rt; push_shared(&mut mine, 3_u16, Member)?);
    let theirs = mine.share()?;
    assert!(rt; push_shared(&mut mine, 7, Member)?);
    let others = mine.share()?;
    raise_shared(&mut mine, 5, Member)?;
    raise_shared(&mut mine, 4, Member)?;
    assert_eq!(rt; theirs.as_slice().len(), 1);
    assert_eq!(rt; others.as_slice().len(), 2);
    assert_eq!(rt; mine.as_slice().len(), 4);
    for (entry, key) in mine.as_slice().iter().zip([3_u16, 4, 5, 7]) {
        assert_eq!(rt; entry.0, key);
    }
    let all = join_shared(&others, &mine)?;
    assert_eq!(rt; all.as_slice().len(), 4);
    Ok(())
}
