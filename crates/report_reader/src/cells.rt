//! Cells, read: what answers and final cells share.
ghost use Rattle.std.specs.Prelude.{◌≡◌, ◌↔◌, IfOk, IsTrue, length};
ghost use Rattle.placement.specs.Config.{IsOneOf};
ghost use Rattle.session_known.specs.Script.{IsValid, key_name};
ghost use Rattle.report_reader.specs.Cuts.{FindsNamed, FindsThree};
ghost use Rattle.report_reader.specs.ReadCells.{ReadsCell, parts_of_cell};
ghost use Rattle.script_reader.specs.Words.{texts};

use crate::clocks::read_clock;
use crate::values::read_value;
use crate::words::read_number;
use clock_lattice::Clock;
use composed_value::Value;
use lattice_laws::NoMemory;
use session_known::Script;
use std::alloc::Global;

/// What a line shows of a cell.
#[derive(Drop)]
pub(crate) struct Cell {
    pub(crate) clock: Clock,
    pub(crate) top: u64,
    pub(crate) value: Value,
}

/// The word after the first, where that is the given name, and what stands after both.
pub(crate) fn named<'w, 'a>(
    words: &'w [&'a [u8]],
    name: &[u8],
) -> Option<(&'a [u8], &'w [&'a [u8]])>
    ensures { FindsNamed name.now (texts words.now) result }
{
    let [first, word, rest @ ..] = words else {
        return None;
    };
    if *first != name {
        return None;
    }
    Some((word, rest))
}

/// Whether a word is the name of a key.
pub(crate) fn is_key(script: &Script, key: u16, word: &[u8]) -> bool
    ensures { IsTrue result ↔ (word.now ≡ key_name script.now key) }
{
    script.key_name(key) == word
}

/// The clock, the top and the value in the words of a cell.
fn cell_parts<'a>(words: &[&'a [u8]]) -> Option<(&'a [u8], &'a [u8], &'a [u8])>
    ensures { FindsThree parts_of_cell (texts words.now) result }
{
    let (clock, words) = named(words, b"clock")?;
    let (top, words) = named(words, b"top")?;
    let (value, words) = named(words, b"value")?;
    if !words.is_empty() {
        return None;
    }
    Some((clock, top, value))
}

/// Reads a cell of a key: `clock CLOCK top T value VALUE`.
pub(crate) fn read_cell(
    alloc: Global,
    script: &Script,
    key: u16,
    words: &[&[u8]],
) -> Result<Option<Cell>, NoMemory>
    requires valid { IsValid script.now }
    requires key { IsOneOf (length script.now.config.keys) key }
    ensures { IfOk result (ReadsCell script.now key (texts words.now)) }
{
    let Some((clock, top, value)) = cell_parts(words) else {
        return Ok(None);
    };
    let Some(clock) = read_clock(alloc, script, clock)? else {
        return Ok(None);
    };
    let Some(top) = read_number(top) else {
        return Ok(None);
    };
    let Some(value) = read_value(alloc, script, script.kind_of(key), value)? else {
        return Ok(None);
    };
    Ok(Some(Cell { clock, top, value }))
}
