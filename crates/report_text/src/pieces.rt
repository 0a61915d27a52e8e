//! Pieces of text, words and separators, written to a text on its way to a sink.
ghost use Rattle.std.specs.Prelude.{[], ◌∷◌};
ghost use Rattle.outside.specs.Gathering.{Adds};
ghost use Rattle.report_text.specs.Writes.{between, AddsWords};

use itoa::{Buffer, Integer};
use script_reader::outside::{Out, Sink};

/// Writes a number in decimal digits.
pub(crate) fn write_number<K: Sink, N: Integer>(out: &mut Out<'_, K>, number: N)
    ensures { Adds K.written K.faults out.old out.new (N.text number) }
{
    let mut buffer = Buffer::new();
    out.write(buffer.format(number).as_bytes());
}

/// Writes a word after a space.
#[tactic(auto, using(crate::proofs::WritesLemmas::words))]
pub(crate) fn write_spaced<K: Sink>(out: &mut Out<'_, K>, word: &[u8])
    ensures { AddsWords K.Sink out.old out.new (word.now ∷ []) }
{
    out.write(b" ");
    out.write(word);
}

/// Writes a number after a space.
#[tactic(auto, using(crate::proofs::WritesLemmas::words))]
pub(crate) fn write_spaced_number<K: Sink, N: Integer>(out: &mut Out<'_, K>, number: N)
    ensures { AddsWords K.Sink out.old out.new (N.text number ∷ []) }
{
    out.write(b" ");
    write_number(out, number);
}

/// Writes what stands before the item at a place of a list, counted from 0: the separator, but
/// nothing before the first.
pub(crate) fn write_separator<K: Sink>(out: &mut Out<'_, K>, place: usize, separator: u8)
    ensures { Adds K.written K.faults out.old out.new (between separator place) }
{
    if place > 0 {
        out.write(&[separator]);
    }
}
