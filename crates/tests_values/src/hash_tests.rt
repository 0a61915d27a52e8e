//! The hash.

use placement::fnv1a64;

#[test]
fn hashes_the_published_vectors(rt: HostRuntime) {
    let cases = [
        (b"".as_slice(), 0xcbf2_9ce4_8422_2325),
        (b"a", 0xaf63_dc4c_8601_ec8c),
        (b"foobar", 0x8594_4171_f739_67e8),
    ];
    for (bytes, want) in cases {
        assert_eq!(rt; fnv1a64(bytes), want);
    }
}
