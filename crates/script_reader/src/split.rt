//! Where the script of an input ends.
ghost use Rattle.std.specs.Prelude.{◌≡◌, ℕ, ◌+◌, ◌≤◌, List, [], ◌∷◌, ◌++◌, length, MatchOption};
ghost use Rattle.session_known.specs.declared.script.Script.{Script};
ghost use Rattle.script_reader.specs.Grammar.{IsScript};
ghost use Rattle.script_reader.specs.Lines.{cut_at_feeds};
ghost use Rattle.script_reader.specs.Split.{is_end_alone as says_end_alone, split_place, script_part, with_feed, EndsAlone, IsFirstLine};

use crate::lines::without_return;
use std::iter::once;

/// Whether the only word of a line is `end`.
fn is_end_alone(line: &[u8]) -> bool
    ensures { result ≡ says_end_alone line.now }
{
    without_return(line)
        .split(|byte| *byte == b' ' || *byte == b'\t')
        .filter(|word| !word.is_empty())
        .eq(once(b"end".as_slice()))
}

/// The first line of a text that ends with a line feed, and what stands after that.
fn first_line(text: &[u8]) -> Option<(&[u8], &[u8])>
    ensures { MatchOption result
        (cut_at_feeds text.now ≡ text.now ∷ [])
        (λ parts. IsFirstLine text.now parts.0.now parts.1.now) }
{
    let end = text.iter().position(|byte| *byte == b'\n')?;
    Some((&text[..end], &text[end + 1..]))
}

/// The place in an input after the line end of the first line whose only word is `end`: there its
/// script ends and what follows begins. It is the input's length where there is no such line. Takes
/// no memory.
pub fn split_input(bytes: &[u8]) -> usize
    ensures place { result ≡ split_place bytes.now }
    ensures within { result ≤ length bytes.now }
{
    let mut rest = bytes;
    while let Some((line, after)) = first_line(rest) {
        rest = after;
        if is_end_alone(line) {
            return bytes.len() - rest.len();
        }
    }
    bytes.len()
}

/// A script that ends with a line feed is split off an input that begins with it, whatever follows.
/// Blank lines and comments that it has after its end line stay with what follows.
pub fn scripts_are_split_off()
    // What stands before the place is that script.
    ensures script { (text more : List ℕ) (script : Script)
        → IsScript (with_feed text) script → IsScript (script_part (text ++ 10 ∷ more)) script }

    // The place is the one in the script by itself.
    ensures same { (text more : List ℕ) (script : Script)
        → IsScript (with_feed text) script
        → split_place (text ++ 10 ∷ more) ≡ split_place (with_feed text) }

    // It is after the whole script, where the script's last line is its end line.
    ensures whole { (text more : List ℕ) (script : Script)
        → IsScript (with_feed text) script → EndsAlone text
        → split_place (text ++ 10 ∷ more) ≡ length text + 1 }
{}
