//! Scripts and reports as texts, read and written, and reports judged beside their scripts.
//!
//! The tests go the way of a check between its ends: the script is read, the report is read as one of its
//! form, and the judge says whether it is legal. Worked reports are, also with another line that is lawful
//! too; with a line that is not lawful, the judge names its place. What was read of a report is written as it was.
//!
//! Texts that are no scripts are refused at their first line at fault, with its code, and texts that are no reports
//! of a script's form at their first line out of form.
//!
//! The ends that texts come and go through are tried over memory, and over readers and writers that fail.
//!
//! No part of the product stands on this crate.
#![tactic(auto)]

#[cfg(test)]
mod ends_tests;
#[cfg(test)]
mod grammar_tests;
#[cfg(test)]
mod reading_tests;
#[cfg(test)]
mod refused_tests;
#[cfg(test)]
mod tests;
#[cfg(test)]
mod writing_tests;
