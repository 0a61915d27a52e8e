//! Names and words are spelled, and ordered by their bytes.

use lattice_laws::{Misspelled, Spelled, test_spelling};
use std::test::Fail;

#[test]
fn tells_why_bytes_spell_nothing(rt: HostRuntime) {
    let cases = [
        (b"a".as_slice(), Ok(())),
        (b"Zz09_.-", Ok(())),
        (b"12345678", Ok(())),
        (b"", Err(Misspelled::Length)),
        (b"123456789", Err(Misspelled::Length)),
        (b"+23456789", Err(Misspelled::Length)),
        (b"a+", Err(Misspelled::Byte)),
        (b"a b", Err(Misspelled::Byte)),
        (b"\x80", Err(Misspelled::Byte)),
    ];
    for (bytes, want) in cases {
        assert_eq!(rt; test_spelling(bytes, 8), want);
        let spelled: Result<Spelled<8>, Misspelled> = Spelled::of(bytes);
        assert_eq!(rt; spelled.is_ok(), want.is_ok());
    }
}

#[test]
fn is_ordered_by_bytes(rt: HostRuntime) -> Result<(), Fail> {
    let ascending = [
        b"-".as_slice(),
        b".",
        b"0",
        b"Z",
        b"_",
        b"a",
        b"a-",
        b"aa",
        b"b",
        b"bbbb",
    ];
    for i in 1..ascending.len() {
        let lesser: Spelled<4> = Spelled::of(ascending[i - 1])?;
        let greater: Spelled<4> = Spelled::of(ascending[i])?;
        assert!(rt; lesser < greater);
        assert!(rt; lesser != greater);
        assert_eq!(rt; greater.copy(), greater);
        assert_eq!(rt; greater.as_bytes(), ascending[i]);
    }
    Ok(())
}
