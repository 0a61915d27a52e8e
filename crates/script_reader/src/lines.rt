//! The lines of a script.
ghost use Rattle.std.specs.Prelude.{◌≡◌, ◌+◌, ◌≤◌, map, length, IfOk};
ghost use Rattle.std.specs.Str.Lines.{strip_carriage_return};
ghost use Rattle.script_reader.specs.Lines.{cut_at_feeds, script_lines, without_empty_last};
ghost use Rattle.script_reader.specs.Words.{texts};

use lattice_laws::NoMemory;
use std::alloc::Global;

/// The lines of a text, without their ends.
pub(crate) fn lines_of(alloc: Global, text: &[u8]) -> Result<Vec<&[u8]>, NoMemory>
    ensures lines { IfOk result (λ lines. texts lines.items ≡ script_lines text.now) }
    ensures few { IfOk result (λ lines. length lines.items ≤ length text.now + 1) }
{
    let mut lines = pieces_of(alloc, text)?;
    drop_empty_last(&mut lines);
    Ok(lines)
}

/// What stands between the line feeds of a text, without carriage returns at the ends.
fn pieces_of(alloc: Global, text: &[u8]) -> Result<Vec<&[u8]>, NoMemory>
    ensures pieces { IfOk result (λ pieces. texts pieces.items
        ≡ map strip_carriage_return (cut_at_feeds text.now)) }
    ensures few { IfOk result (λ pieces. length pieces.items ≤ length text.now + 1) }
{
    Ok(
        text.split(|byte| *byte == b'\n')
            .map(|piece| without_return(piece))
            .collect(alloc)?,
    )
}

/// Drops the last line, where it is empty.
fn drop_empty_last(lines: &mut Vec<&[u8]>)
    ensures lines { texts lines.new.items ≡ without_empty_last (texts lines.old.items) }
    ensures fewer { length lines.new.items ≤ length lines.old.items }
{
    let Some(last) = lines.last() else {
        return;
    };
    if last.is_empty() {
        lines.pop();
    }
}

/// A line without the carriage return at its end.
pub(crate) fn without_return(line: &[u8]) -> &[u8]
    ensures { result.now ≡ strip_carriage_return line.now }
{
    match line {
        [front @ .., b'\r'] => front,
        _ => line,
    }
}
