//! The words of kinds.
ghost use Rattle.std.specs.Prelude.{◌≡◌};
ghost use Rattle.report_lines.specs.Text.{kind_word};

use composed_value::Kind;

/// The word of a kind, as in the line that declares a key.
pub fn kind_text(kind: Kind) -> &'static [u8]
    ensures { result.now ≡ kind_word kind }
{
    match kind {
        Kind::Max => b"max",
        Kind::Or => b"or",
        Kind::Set => b"set",
        Kind::Map => b"map",
        Kind::Last => b"last",
        Kind::Versions => b"versions",
        Kind::Counter => b"counter",
        Kind::OrSet => b"orset",
    }
}
