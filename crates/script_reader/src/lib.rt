//! What comes in and goes out: the bytes of a script and of a report, and the script that they say.
//!
//! [`read_script`] reads the whole grammar. Which texts are a script, and why another is none, is said in
//! `specs/Grammar.antt`: it speaks of the lines of a text as lists of words, has a condition for each
//! code of refusal in `specs/Faults.antt`, and reads the script off the lines in `specs/Said.antt`. What
//! is read is valid, as `session_known` says. Where a report follows a script in one input,
//! [`split_input`] tells the place between them.
//!
//! The ends through which a program meets the world, and what their contracts speak of, are passed
//! on from [`outside`], so that a crate above need not name it.
#![tactic(auto)]

mod code;
mod entry;
mod fault;
mod grammar;
mod keyword;
mod lines;
mod names;
mod payload;
mod pins;
mod reader;
mod split;
mod words;

pub use fault::ScriptFault;
pub use grammar::{MOST_BYTES, read_script};
pub use outside;
pub use session_known::{Answer, FinalCell, Level, Line, Report, Script, SessionPlan, Shown};
pub use split::{scripts_are_split_off, split_input};
pub use words::number;
