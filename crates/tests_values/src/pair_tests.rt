//! The pair that is no lattice.

use basic_lattices::paper_pair::parts_from_order;
use std::test::Fail;

#[test]
fn one_replica_loses_a_word(rt: HostRuntime) -> Result<(), Fail> {
    let (one, other) = parts_from_order(rt.alloc())?;
    for part in [&one, &other] {
        assert_eq!(rt; part.clock.len(), 2);
        assert!(rt; matches!(part.clock.at(0), Some((1, count)) if count.0 == 2));
        assert!(rt; matches!(part.clock.at(1), Some((2, count)) if count.0 == 1));
    }
    let words: [&[u8]; 3] = [b"x", b"y", b"z"];
    assert_eq!(rt; one.words.len(), 3);
    for (i, word) in words.iter().enumerate() {
        assert!(rt; matches!(one.words.at(i), Some(found) if found.as_bytes() == *word));
    }
    assert_eq!(rt; other.words.len(), 2);
    for (i, word) in words[1..].iter().enumerate() {
        assert!(rt; matches!(other.words.at(i), Some(found) if found.as_bytes() == *word));
    }
    Ok(())
}
