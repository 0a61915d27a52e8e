//! The product's promise: what a script asks for, what a report answers, and which reports are legal.
//!
//! A [`Script`] has keys and sessions; a [`Report`] has an answer for each command line and the final
//! cell of every replica. The definitions in `specs/`, one topic a file, say what a store with these
//! consistency levels owes whoever runs the script, and mention no worker's state, no mailbox and no proxy:
//! `specs/Session.antt` what a session knows between its lines, `specs/Accepted.antt` which puts a
//! report accepts, `specs/Form.antt` when a report has a script's form, `specs/Lawful.antt` which answers
//! are lawful, `specs/Legal.antt` which reports are legal, and `specs/Requests.antt` what a session sends.
//! `specs/Later.antt` says what follows of a reply for the later lines of its session.
//!
//! What holds of every legal report is carried by functions that do nothing:
//! [`accepted_puts_are_numbered`], [`final_cells_agree`], [`lamport_numbers_are_dense`] and
//! [`replies_count_accepted_puts`]. What holds
//! of each session that is answered lawfully: [`causal_replies_cover_earlier_ones`],
//! [`shown_needs_are_covered_later`] and [`puts_overtake_what_was_shown`]. Examples, legal and not, are
//! those of the crate `worked_reports`.
//!
//! [`Known`] is what a running session knows between its lines, and [`SessionState`] that with the puts
//! that it holds: they follow `specs/Session.antt` step by step, so that whoever runs a session with them,
//! or judges one, can say what was known at each line.
//!
//! The crate stands on `composed_value` and `placement` and those below them.
#![tactic(auto)]

mod known;
mod laws;
mod report;
mod script;
mod state;

pub use known::Known;
pub use laws::{
    accepted_puts_are_numbered, causal_replies_cover_earlier_ones, final_cells_agree,
    lamport_numbers_are_dense, puts_overtake_what_was_shown, replies_count_accepted_puts,
    shown_needs_are_covered_later,
};
pub use report::{Answer, FinalCell, Report, Shown};
pub use script::{Level, Line, Script, SessionPlan};
pub use state::SessionState;
