//! Words of cells, written to a text.
ghost use Rattle.std.specs.Prelude.{[], ◌∷◌, codes};
ghost use Rattle.report_lines.specs.Text.{clock_word, value_word, cell_words};
ghost use Rattle.report_text.specs.Writes.{AddsWords};
ghost use Rattle.session_known.specs.Form.{HasFewDots};

use crate::clocks::write_clock;
use crate::pieces::{write_spaced, write_spaced_number};
use crate::values::write_value;
use clock_lattice::Clock;
use composed_value::Value;
use script_reader::outside::{Out, Sink};
use session_known::Script;

/// Writes a clock as the words of a line, ` clock CLOCK`.
#[tactic(auto, using(crate::proofs::WritesLemmas::words))]
pub(crate) fn write_clock_words<K: Sink>(out: &mut Out<'_, K>, script: &Script, clock: &Clock)
    ensures { AddsWords K.Sink out.old out.new
        (codes "clock" ∷ clock_word script.now clock.now ∷ []) }
{
    write_spaced(out, b"clock");
    out.write(b" ");
    write_clock(out, script, clock);
}

/// Writes a value as the words of a line, ` value VALUE`.
#[tactic(auto, using(crate::proofs::WritesLemmas::words))]
pub(crate) fn write_value_words<K: Sink>(out: &mut Out<'_, K>, script: &Script, value: &Value)
    requires { HasFewDots value.now }
    ensures { AddsWords K.Sink out.old out.new
        (codes "value" ∷ value_word script.now value.now ∷ []) }
{
    write_spaced(out, b"value");
    out.write(b" ");
    write_value(out, script, value);
}

/// Writes the words of a cell, ` clock CLOCK top T value VALUE`.
#[tactic(auto, using(crate::proofs::WritesLemmas::words))]
pub(crate) fn write_cell<K: Sink>(
    out: &mut Out<'_, K>,
    script: &Script,
    clock: &Clock,
    top: u64,
    value: &Value,
)
    requires { HasFewDots value.now }
    ensures { AddsWords K.Sink out.old out.new (cell_words script.now clock.now top value.now []) }
{
    write_clock_words(out, script, clock);
    write_spaced(out, b"top");
    write_spaced_number(out, top);
    write_value_words(out, script, value);
}
