//! Words.

use basic_lattices::{Word, WordFault};
use lattice_laws::MapKey;
use std::test::Fail;

#[test]
fn is_1_to_64_of_the_allowed_bytes(rt: HostRuntime) -> Result<(), Fail> {
    let longest = [b'w'; 64];
    for bytes in [b"a".as_slice(), b"AZaz09_.-", &longest] {
        let word = Word::of(bytes)?;
        assert_eq!(rt; word.as_bytes(), bytes);
        assert_eq!(rt; MapKey::copy(&word)?, word);
    }
    let too_long = [b'+'; 65];
    let refused = [
        (b"".as_slice(), WordFault::Length),
        (&too_long, WordFault::Length),
        (b"a+b", WordFault::Byte),
        (b"a b", WordFault::Byte),
        (b"\xc3\xa4", WordFault::Byte),
    ];
    for (bytes, fault) in refused {
        assert!(rt; matches!(Word::of(bytes), Err(why) if why == fault));
    }
    Ok(())
}

#[test]
fn is_ordered_by_bytes(rt: HostRuntime) -> Result<(), Fail> {
    let ascending = [
        b"-".as_slice(),
        b".",
        b"0",
        b"Z",
        b"_",
        b"a",
        b"a-",
        b"aa",
        b"b",
    ];
    for i in 1..ascending.len() {
        let lesser = Word::of(ascending[i - 1])?;
        let greater = Word::of(ascending[i])?;
        assert!(rt; lesser < greater);
        assert!(rt; lesser != greater);
    }
    Ok(())
}
