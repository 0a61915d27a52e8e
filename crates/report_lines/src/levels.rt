//! The words of levels.
ghost use Rattle.std.specs.Prelude.{◌≡◌};
ghost use Rattle.report_lines.specs.Text.{level_word};

use session_known::Level;

/// The word of a level, as in the line that a session begins with.
pub fn level_text(level: Level) -> &'static [u8]
    ensures { result.now ≡ level_word level }
{
    match level {
        Level::Eventual => b"eventual",
        Level::Committed => b"committed",
        Level::Causal => b"causal",
    }
}
