//! The lines of text that the program writes beside reports.
ghost use Rattle.std.specs.Prelude.{◌≡◌, ◌∷◌, [], ◌++◌, IfOk};
ghost use Rattle.report_lines.specs.Text as text_of;
ghost use Rattle.anna_run.specs.Run.{refusal_text, report_refusal_text, verdict_text};

use anna_check::Verdict;
use lattice_laws::NoMemory;
use session_known::Script;
use std::alloc::Global;

/// A line of text.
pub(crate) fn line(alloc: Global, text: &str) -> Result<Vec<u8>, NoMemory>
    ensures { IfOk result (λ line. line.items ≡ text.now ++ 10 ∷ []) }
{
    let mut line = Vec::from_slice(alloc, text.as_bytes())?;
    line.push(b'\n')?;
    Ok(line)
}

/// The line that says at which line a script is refused, and why.
pub(crate) fn refusal(alloc: Global, number: u32, code: u8) -> Result<Vec<u8>, NoMemory>
    ensures { IfOk result (λ line. line.items ≡ refusal_text number code) }
{
    let text = format!(in alloc; "refused line {number}: code {code}")?;
    line(alloc, &text)
}

/// The line that says at which line what stands after a script is no report.
pub(crate) fn report_refusal(alloc: Global, number: u32) -> Result<Vec<u8>, NoMemory>
    ensures { IfOk result (λ line. line.items ≡ report_refusal_text number) }
{
    let text = format!(in alloc; "refused report line {number}")?;
    line(alloc, &text)
}

/// The line that says what a report is judged.
pub(crate) fn verdict_line(
    alloc: Global,
    script: &Script,
    verdict: Verdict,
) -> Result<Vec<u8>, NoMemory>
    ensures { IfOk result (λ line. line.items ≡ verdict_text script.now verdict) }
{
    match verdict {
        Verdict::Legal => line(alloc, "legal"),
        Verdict::Command { session, command } => {
            let after = format!(in alloc; " command {command}")?;
            named_line(
                alloc,
                "unlawful session ",
                script.session_name(session),
                &after,
            )
        }
        Verdict::Final { key, worker } => {
            let after = format!(in alloc; " @{worker}")?;
            named_line(alloc, "unlawful final ", script.key_name(key), &after)
        }
    }
}

/// The line with a name between two texts.
fn named_line(alloc: Global, before: &str, name: &[u8], after: &str) -> Result<Vec<u8>, NoMemory>
    ensures { IfOk result (λ line. line.items ≡ before.now
        ++ (name.now ++ (after.now ++ 10 ∷ []))) }
{
    let mut line = Vec::from_slice(alloc, before.as_bytes())?;
    line.extend_from_slice(name)?;
    line.extend_from_slice(after.as_bytes())?;
    line.push(b'\n')?;
    Ok(line)
}
