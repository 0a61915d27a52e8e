//! Writes the lines of keys.
ghost use Rattle.std.specs.Prelude.{map, length, decimal};
ghost use Rattle.std.specs.List.{range_with_len};
ghost use Rattle.placement.specs.Config.{IsOneOf};
ghost use Rattle.report_lines.specs.Text.{head_lines, key_words, placed_words};
ghost use Rattle.session_known.specs.Script.{IsValid};
ghost use Rattle.report_text.specs.Writes.{AddsLine, AddsLines, AddsWords, AreAtPlaces};

use crate::clocks::write_spaced_key;
use crate::pieces::{write_spaced, write_spaced_number};
use report_lines::kind_text;
use script_reader::outside::{Out, Sink};
use session_known::{FinalCell, Script};

/// Writes the workers of final cells, each after a space.
fn write_workers<K: Sink>(out: &mut Out<'_, K>, cells: &[FinalCell])
    ensures { AddsWords K.Sink out.old out.new
        (map decimal (map (λ cell. cell.worker) cells.now)) }
{
    for cell in cells {
        write_spaced_number(out, cell.worker);
    }
}

/// Writes the line of a key that lives where these final cells do.
fn write_key_line<K: Sink>(out: &mut Out<'_, K>, script: &Script, key: u16, cells: &[FinalCell])
    requires { IsOneOf (length script.now.kinds) key }
    ensures { AddsLine K.Sink out.old out.new
        (key_words script.now key (map (λ cell. cell.worker) cells.now)) }
{
    out.write(b"key");
    write_spaced_key(out, script, key);
    write_spaced(out, kind_text(script.kind_of(key)));
    write_spaced(out, b"on");
    write_workers(out, cells);
    out.write(b"\n");
}

/// Writes the lines of the keys: each lives where its final cells do, and these stand key by key.
fn write_keys<K: Sink>(out: &mut Out<'_, K>, script: &Script, finals: &[FinalCell])
    requires valid { IsValid script.now }
    requires places { AreAtPlaces script.now finals.now }
    ensures { AddsLines K.Sink out.old out.new
        (map (placed_words script.now) (range_with_len 1 (length script.now.config.keys))) }
{
    let mut rest = finals;
    let keys = script.config.keys.as_slice().len() as u16;
    for i in 0..keys {
        let key = i + 1;
        let (cells, later) = rest.split_at(rest.partition_point(|cell| cell.key == key));
        write_key_line(out, script, key, cells);
        rest = later;
    }
}

/// Writes the lines before those of the sessions.
pub(crate) fn write_head<K: Sink>(out: &mut Out<'_, K>, script: &Script, finals: &[FinalCell])
    requires valid { IsValid script.now }
    requires places { AreAtPlaces script.now finals.now }
    ensures { AddsLines K.Sink out.old out.new (head_lines script.now) }
{
    out.write(b"anna");
    write_spaced(out, b"report");
    write_spaced_number(out, script.version);
    out.write(b"\n");
    if script.version >= 2 {
        write_keys(out, script, finals);
    }
}
