//! How much the sessions of a run still have to do, a measure that no step raises.
//!
//! The measure of a session counts its lines that are not answered, the requests that it may still send, those
//! that no worker took, and the replies that it did not take. It speaks of lists alone: of what each party sent
//! and took. So it serves a run on one thread and one on several, over any ends.
//!
//! The laws, each a function that does nothing and carries its law: where a worker takes turns, no session's
//! measure rises, and that of a session falls whose request it took; where a session is polled, its measure
//! falls by what it has done; and where all parties have gone on, in no order of steps, the measure of all
//! sessions has fallen by what they have done.
//!
//! `specs/Measure.antt` says what the measure is, `specs/Steps.antt` what a step is to it, and `specs/Pace.antt`
//! how often a session asks in vain.
#![tactic(auto)]

mod laws;

pub use laws::{
    parties_lower_the_measure, polls_are_paced, polls_lower_the_measure, replies_follow_requests,
    sessions_go_on, turns_lower_the_measure,
};
