//! What a session knows.

use clock_lattice::{Clock, Needs};
use composed_value::{Cell, Payload, Put};
use lattice_laws::Lattice;
use session_known::{Known, Level, Shown};
use std::alloc::Global;
use std::test::Fail;

// The cell of the third put of session 2 on a key, at the Lamport number; it needs one put of
// session 3 on key 7. It is in an array of one: to drop that is one step of a proof, and to drop a cell a case
// for each kind.
fn shown(alloc: Global, lamport: u64) -> Result<[Cell; 1], Fail> {
    let mut one = Clock::new(alloc);
    one.raise(3, 1)?;
    let mut needs = Needs::new(alloc);
    needs.raise(7, &one)?;
    let put = Put {
        session: 2,
        number: 3,
        lamport,
        place: 0,
        seen: Clock::new(alloc),
        needs,
        payload: Payload::On,
    };
    Ok([Cell::of_put(alloc, &put)?])
}

fn counts(known: &Known, key: u16, session: u16) -> u64 {
    known.clock_for(key).map_or(0, |clock| clock.count(session))
}

#[test]
fn a_causal_session_learns_needs(rt: HostRuntime) -> Result<(), Fail> {
    let cell = shown(rt.alloc(), 9)?;
    for (level, learned) in [
        (Level::Causal, 1),
        (Level::Committed, 0),
        (Level::Eventual, 0),
    ] {
        let mut known = Known::new(rt.alloc(), 1, level);
        assert_eq!(rt; (known.session(), known.level()), (1, level));
        assert_eq!(rt; known.next_number(), Some(1));
        known.note_reply(5, &cell[0])?;
        assert_eq!(rt; counts(&known, 5, 2), 3);
        assert_eq!(rt; counts(&known, 7, 3), learned);
        assert_eq!(rt; known.own(5), 0);
        assert_eq!(rt; known.next_number(), Some(10));
    }
    Ok(())
}

#[test]
fn learns_from_what_a_reply_has_shown(rt: HostRuntime) -> Result<(), Fail> {
    let cell = shown(rt.alloc(), 9)?;
    let shown = [Shown {
        clock: cell[0].clock().copy()?,
        top: cell[0].top(),
        needs: Some(cell[0].needs().copy()?),
        value: cell[0].value().copy()?,
    }];
    let mut known = Known::new(rt.alloc(), 1, Level::Causal);
    known.note_shown(5, &shown[0])?;
    assert_eq!(rt; counts(&known, 5, 2), 3);
    assert_eq!(rt; counts(&known, 7, 3), 1);
    assert_eq!(rt; known.next_number(), Some(10));
    Ok(())
}

#[test]
fn a_session_knows_its_puts(rt: HostRuntime) -> Result<(), Fail> {
    let mut known = Known::new(rt.alloc(), 4, Level::Eventual);
    known.note_put(5, 6)?;
    known.note_put(5, 2)?;
    assert_eq!(rt; known.own(5), 2);
    assert_eq!(rt; known.own(6), 0);
    assert_eq!(rt; counts(&known, 5, 4), 2);
    assert!(rt; known.clock_for(6).is_none());
    assert_eq!(rt; known.needs().len(), 1);
    assert_eq!(rt; known.next_number(), Some(7));
    Ok(())
}

#[test]
fn what_is_known_is_handed_over(rt: HostRuntime) -> Result<(), Fail> {
    let mut known = Known::new(rt.alloc(), 4, Level::Causal);
    known.note_put(5, 6)?;
    known.note_reply(6, &shown(rt.alloc(), 9)?[0])?;
    for (is_copy, next) in [(true, known.copy()?), (false, known.handed(7)?)] {
        assert_eq!(rt;
            (next.session(), next.own(5)),
            if is_copy { (4, 1) } else { (7, 0) }
        );
        assert_eq!(rt;
            (
                counts(&next, 5, 4),
                counts(&next, 6, 2),
                counts(&next, 7, 3)
            ),
            (1, 3, 1)
        );
        assert_eq!(rt; next.next_number(), Some(10));
    }
    Ok(())
}

#[test]
fn no_number_is_left_after_the_greatest(rt: HostRuntime) -> Result<(), Fail> {
    let mut known = Known::new(rt.alloc(), 1, Level::Eventual);
    known.note_reply(1, &shown(rt.alloc(), 18_446_744_073_709_551_614)?[0])?;
    assert_eq!(rt; known.next_number(), Some(18_446_744_073_709_551_615));
    known.note_reply(1, &shown(rt.alloc(), 18_446_744_073_709_551_615)?[0])?;
    assert_eq!(rt; known.next_number(), None);
    Ok(())
}
