//! What a session holds and puts.

use composed_value::{Payload, Put};
use session_known::{Level, SessionState};
use std::test::Fail;

// The number of a put, and its place in its commit.
fn numbers(put: &Put) -> (u64, u32) {
    (put.number, put.place)
}

#[test]
fn what_a_transaction_holds_is_put_at_its_end(rt: HostRuntime) -> Result<(), Fail> {
    let mut session = SessionState::new(rt.alloc(), 2, Level::Committed);
    assert!(rt; !session.is_begun() && !session.is_worn());
    session.begin();
    session.hold(5, &Payload::Max(7))?;
    session.hold(5, &Payload::Max(8))?;
    assert_eq!(rt; session.held().len(), 2);
    assert!(rt; session.is_lawful_commit(2, 1) && !session.is_lawful_put(5, 1, 1));
    assert_eq!(rt; session.end().as_slice().len(), 2);
    assert!(rt; !session.is_begun());
    let first = [session.put(5, &Payload::Max(7), 1, 0)?];
    let second = [session.put(5, &Payload::Max(8), 1, 1)?];
    assert_eq!(rt; numbers(&first[0]), (1, 0));
    assert_eq!(rt; numbers(&second[0]), (2, 1));
    assert!(rt; session.is_lawful_put(5, 3, 2));
    Ok(())
}
