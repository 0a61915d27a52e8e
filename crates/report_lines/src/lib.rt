//! What the text of a report is.
//!
//! `specs/Text.antt` defines it: a report is a list of lines, each a list of words, and the bytes are one
//! rendering of these. No two reports of a script's form have one text ([`texts_tell_reports_apart`]).
//! Those who write reports and who read them stand on this crate, and none of them on the other.
#![tactic(auto)]

mod kinds;
mod laws;
mod levels;

pub use kinds::kind_text;
pub use laws::texts_tell_reports_apart;
pub use levels::level_text;
