//! Scripts.

use composed_value::Kind;
use lattice_laws::Items;
use placement::{Config, KeyPlace, Name};
use session_known::{Level, Script, SessionPlan};
use std::test::Fail;

#[test]
fn names_and_kinds_are_found_by_number(rt: HostRuntime) -> Result<(), Fail> {
    let alloc = rt.alloc();
    let mut keys = Vec::new(alloc);
    for name in [b"a", b"b"] {
        keys.push(KeyPlace {
            name: Name::of(name.as_slice())?,
            pins: Items::new(Vec::new(alloc)),
            factor: None,
        })?;
    }
    let mut sessions = Vec::new(alloc);
    sessions.push(SessionPlan {
        name: Name::of(b"s")?,
        level: Level::Causal,
        after: None,
        lines: Items::new(Vec::new(alloc)),
    })?;
    let script = Script {
        version: 1,
        config: Config {
            workers: 1,
            factor: 1,
            keys: Items::new(keys),
        },
        round: 4,
        kinds: Items::new([Kind::Max, Kind::Set].to_vec(alloc)?),
        sessions: Items::new(sessions),
    };
    assert_eq!(rt; script.key_name(2), b"b".as_slice());
    assert_eq!(rt; script.key_name(3), b"".as_slice());
    assert_eq!(rt; script.kind_of(2), Kind::Set);
    assert_eq!(rt; script.session_name(1), b"s".as_slice());
    assert_eq!(rt; script.session_name(2), b"".as_slice());
    Ok(())
}
