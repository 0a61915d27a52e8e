//! Items in order.

use lattice_laws::Items;
use std::test::Fail;

#[test]
fn keeps_items_in_order(rt: HostRuntime) -> Result<(), Fail> {
    let mut items = Items::new(Vec::new(rt.alloc()));
    items.push(3)?;
    items.push(1)?;
    assert_eq!(rt; items.as_slice(), [3, 1].as_slice());
    assert_eq!(rt; items.into_vec().len(), 2);
    Ok(())
}
