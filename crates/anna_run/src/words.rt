//! What is asked for by the words after the program's name.
ghost use Rattle.std.specs.Prelude.{◌≡◌};
ghost use Rattle.anna_run.specs.Words.{command_in, number_in};

use script_reader::number;

/// How a run's batches of gossip come.
#[derive(Clone, Copy, Debug, PartialEq, Eq)]
pub enum Gossip {
    /// In the order in which each sender sent them.
    InOrder,
    /// In a disorder that is told by a number: overtaken by others, and once or twice.
    Scrambled(u64),
}

/// What the program can be asked for.
#[derive(Clone, Copy, Debug, PartialEq, Eq)]
pub enum Command {
    /// Run the script that comes in.
    Run(Gossip),
    /// Run the large work of a number.
    Big(u64),
    /// Judge the report that comes in after its script.
    Check,
}

/// Why there are no words.
#[derive(Clone, Copy, Debug, PartialEq, Eq)]
pub enum WordsFault {
    /// One of them is no text.
    NotText,
    /// There was no room for them.
    NoMemory,
}

/// The command that the words name, where they are of an accepted form: `run`, `check`, or `run --scramble` or `big`
/// and a number of 1 to 20 decimal digits, at most 18,446,744,073,709,551,615.
pub fn read_words(words: &[String]) -> Option<Command>
    ensures { result ≡ command_in words.now }
{
    match words {
        [word] if word.as_str() == "run" => Some(Command::Run(Gossip::InOrder)),
        [word] if word.as_str() == "check" => Some(Command::Check),
        [word, number] if word.as_str() == "big" => Some(Command::Big(number_of(number)?)),
        [word, how, number] if word.as_str() == "run" && how.as_str() == "--scramble" => {
            Some(Command::Run(Gossip::Scrambled(number_of(number)?)))
        }
        _ => None,
    }
}

/// The number that a word of at most 20 digits writes.
fn number_of(word: &str) -> Option<u64>
    ensures { result ≡ number_in word.now }
{
    if word.len() > 20 {
        return None;
    }
    number(word.as_bytes())
}
