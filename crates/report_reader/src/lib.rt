//! Reads reports back.
//!
//! Reading is the inverse of writing: [`read_report`] gives the one report whose text the bytes are,
//! and where there is none, the first line that is not in form. The parts are read by those who read
//! what they are made of: values and clocks, cells, answers, and then line after line.
#![tactic(auto)]

ghost use Rattle.std.specs.Prelude.{◌≡◌, List, ℕ};
ghost use Rattle.session_known.specs.Form.{HasForm};
ghost use Rattle.session_known.specs.Script.{IsValid, IsValidScript};
ghost use Rattle.session_known.specs.declared.report.Report.{Report};
ghost use Rattle.report_reader.specs.Reads.{IsReading, IsReadAs};
ghost use Rattle.report_lines.specs.Text.{text_of};

mod answers;
mod asked;
mod cells;
mod clocks;
mod dots;
mod lines;
mod values;
mod words;

use crate::lines::read_text;
use lattice_laws::NoMemory;
use placement::Placement;
use session_known::{Report, Script};
use std::alloc::Global;

/// Why bytes were not read as a report.
#[derive(Clone, Copy, Debug, PartialEq, Eq)]
pub enum ReportFault {
    /// They are the text of no report of the script's form: the first line, counted from 1, that is not
    /// in form. A last line without a line feed is not in form; where every line is in form and the text
    /// ends too early, it is the line after the last.
    Form { line: u32 },
    /// There was no room for the report.
    NoMemory,
}

impl From<NoMemory> for ReportFault {
    ghost use Rattle.report_reader.specs.declared.ReportFault.TheVariants as faults;

    ghost from_gives = { λ _ fault. fault ≡ faults.NoMemory };

    fn from(_error: NoMemory) -> ReportFault {
        ReportFault::NoMemory
    }
}

/// Reads the text of a report of the script's form.
///
/// Form is exactly what is the text of no such report. Takes time linear in the bytes up to a
/// logarithm, where the versions of a value are few: each is compared with each.
pub fn read_report(alloc: Global, script: &Script, bytes: &[u8]) -> Result<Report, ReportFault>
    requires valid { IsValid script.now }
    ensures reading { (table : List (List ℕ)) → IsValidScript script.now table
        → IsReading script.now table bytes.now result }

    // What was written is read as the report that was written.
    ensures accepts { (table : List (List ℕ)) (report : Report) → IsValidScript script.now table
        → HasForm script.now table report → bytes.now ≡ text_of script.now report
        → IsReadAs report result }
{
    let placement = Placement::build(alloc, &script.config)?;
    read_text(alloc, script, &placement, bytes)
}
