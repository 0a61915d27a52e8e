//! Why no session of a run waits in vain, from what the parties sent and took alone.
//!
//! A session that waits has sent an ask. A worker that took all its requests has replied to that ask, or holds the
//! reply; a worker holds one only where its sender finds no place, and it does find one, since the session took all
//! that was replied before; and a session that took all that was replied took the reply to its ask. What is left is
//! that it did not take this reply before it waited for it, and drop it: a reply that was taken is to an ask that was
//! sent, whenever the two parties are held beside each other.
//!
//! The laws, each a function that does nothing and carries its law, speak of lists: of what each party sent and took.
//! So they serve a run on one thread and one on several, over any ends. `specs/Waiting.antt` says what a session
//! waits for, `specs/Told.antt` what is told of parties that are held beside each other.
#![tactic(auto)]

mod laws;

pub use laws::{
    held_replies_find_places, no_session_waits_in_vain, polls_take_what_is_awaited,
    told_replies_are_to_asks,
};
