//! The text of a report, written and read.
//!
//! What the text is, stands in `report_lines`. [`write_report`] writes it into a sink, and [`write_final`]
//! and [`write_short`] the line of one final cell; they take no memory. [`read_report`] reads it back, and
//! names the first line that is not in form: it is passed on from `report_reader`.
#![tactic(auto)]

mod answers;
mod cells;
mod clocks;
mod keys;
mod pieces;
mod report;
mod values;

pub use report::{write_final, write_report, write_short};
pub use report_lines::texts_tell_reports_apart;
pub use report_reader::{ReportFault, read_report};
