//! Worked reports: what the definition of a legal report means, by examples.
//!
//! `specs/Worked.antt` has seven scripts, each with a report that is legal: [`worked_reports_are_legal`]
//! carries it. `specs/Changed.antt` has reports that differ from those in one thing each, and are not
//! legal: [`changed_reports_are_refused`] carries that, and [`changed_script_is_refused`] that a script is
//! not valid. What no small report reaches is said of every state by
//! [`worn_commits_close_their_transaction`]. So whoever reads the definitions of `session_known`
//! sees what each condition allows and what it refuses, and a change of a definition that lets a wrong
//! report through, or refuses a right one, is refused here.
//!
//! The crate stands on `session_known` and those below it. No part of the product stands on it.
#![tactic(auto)]

mod changed;
mod worked;
mod worn;

pub use changed::{changed_reports_are_refused, changed_script_is_refused};
pub use worked::worked_reports_are_legal;
pub use worn::worn_commits_close_their_transaction;
