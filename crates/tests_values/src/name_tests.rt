//! Names.

use placement::{Name, NameFault};
use std::test::Fail;

#[test]
fn tells_why_bytes_are_no_name(rt: HostRuntime) -> Result<(), Fail> {
    let longest = [b'a'; 32];
    let name = Name::of(&longest)?;
    assert_eq!(rt; name.as_bytes(), longest.as_slice());
    let cases = [
        (b"".as_slice(), NameFault::Length),
        (&[b'a'; 33], NameFault::Length),
        (b"a+", NameFault::Byte),
    ];
    for (bytes, want) in cases {
        assert_eq!(rt; Name::of(bytes).err(), Some(want));
    }
    Ok(())
}
