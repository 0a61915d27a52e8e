//! Where keys live, and which replicas a session asks.
ghost use Rattle.std.specs.Prelude.{◌≡◌, [], IfOk};
ghost use Rattle.placement.specs.Config.{IsValidConfig};

use lattice_laws::Items;
use placement::{Config, KeyPlace, Name, Placement};
use std::alloc::Global;
use std::test::Fail;

/// Two workers, and one key with pins.
fn pinned(alloc: Global) -> Result<Config, Fail>
    ensures { IfOk result IsValidConfig }
{
    let key = KeyPlace {
        name: Name::of(b"a")?,
        pins: Items::new(vec![in alloc; 2, 1]?),
        factor: None,
    };
    Ok(Config {
        workers: 2,
        factor: 1,
        keys: Items::new(vec![in alloc; key]?),
    })
}

/// A key without pins.
fn unpinned(alloc: Global, spelling: &[u8], factor: Option<u16>) -> Result<KeyPlace, Fail>
    ensures pins { IfOk result (λ key. key.pins ≡ []) }
    ensures factor { IfOk result (λ key. key.factor ≡ factor) }
{
    Ok(KeyPlace {
        name: Name::of(spelling)?,
        pins: Items::new(Vec::new(alloc)),
        factor,
    })
}

/// Four workers, and three keys without pins, of which the last lives at two workers.
fn all_unpinned(alloc: Global) -> Result<Config, Fail>
    ensures { IfOk result IsValidConfig }
{
    let first = unpinned(alloc, b"cart", None)?;
    let second = unpinned(alloc, b"hits", None)?;
    let third = unpinned(alloc, b"sale", Some(2))?;
    Ok(Config {
        workers: 4,
        factor: 3,
        keys: Items::new(vec![in alloc; first, second, third]?),
    })
}

#[test]
fn places_a_key_at_its_pins(rt: HostRuntime) -> Result<(), Fail> {
    let placement = Placement::build(rt.alloc(), &pinned(rt.alloc())?)?.copy()?;
    assert_eq!(rt; placement.keys(), 1);
    assert_eq!(rt; placement.replicas(1), [2, 1].as_slice());
    for (session, want) in [(1, 2), (2, 1), (3, 2)] {
        assert_eq!(rt; placement.home(session, 1), want);
    }
    for (ask, want) in [(1, 1), (2, 2), (3, 1)] {
        assert_eq!(rt; placement.asked(2, 1, ask), want);
    }
    assert_eq!(rt; placement.last_asked(2, 1), 2);
    Ok(())
}

// The replicas were worked out apart from this code, from the published hash.
#[test]
fn places_keys_without_pins_by_the_ring(rt: HostRuntime) -> Result<(), Fail> {
    let placement = Placement::build(rt.alloc(), &all_unpinned(rt.alloc())?)?;
    assert_eq!(rt; placement.keys(), 3);
    let all: [(u16, &[u16]); 3] = [(1, &[4, 1, 2]), (2, &[3, 4, 1]), (3, &[3, 4])];
    for (key, want) in all {
        assert_eq!(rt; placement.replicas(key), want);
    }
    Ok(())
}
