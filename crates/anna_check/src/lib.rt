//! A judge of finished reports: whether a report is legal for a script, and if not, the first place that
//! is not.
//!
//! [`check`] answers legal exactly where the report is, as `session_known` defines it, and else the place
//! that `specs/Unlawful.antt` names; a report has one verdict ([`reports_have_one_verdict`]). It goes
//! through the report twice: first session by session, with what is decided inside each, and where all of
//! that is lawful once more, with the puts that were accepted on the way. The other files of `specs/` say
//! what stands for what in between.
#![tactic(auto)]

mod accepted;
mod against_puts;
mod answered;
mod cells;
mod clocks_seen;
mod computed_cells;
mod inside;
mod judge;
mod lawful;
mod laws;

pub use judge::{Verdict, check};
pub use laws::reports_have_one_verdict;
