//! What gets and awaits are answered, read: what a worker showed, or where asking ended.
ghost use Rattle.std.specs.Prelude.{◌≡◌, ◌↔◌, ◌∷◌, IfOk, IsTrue, decimal};
ghost use Rattle.session_known.specs.Script.{IsValid, key_name, session_name};
ghost use Rattle.session_known.specs.declared.script.Level.TheVariants as levels;
ghost use Rattle.session_known.specs.declared.script.Line.TheVariants as lines;
ghost use Rattle.report_reader.specs.Cuts.{FindsThree};
ghost use Rattle.report_reader.specs.ReadAnswers.{CanBeAsked, ReadsAnswer, ReadsGet, ReadsAwaitEnd, ReadsGot, ReadsShownCell, ReadsNeeds, ReadsEnded, again_of};
ghost use Rattle.script_reader.specs.Words.{texts};

use crate::cells::{is_key, named, read_cell};
use crate::clocks::{read_clock, read_needs};
use crate::words::{read_number, read_small_number, read_worker};
use clock_lattice::Needs;
use lattice_laws::NoMemory;
use session_known::{Answer, Level, Script, Shown};
use std::alloc::Global;

/// A get or an await whose answer is read: its key, in a session of the level of the script. What is
/// read takes its memory from `alloc`.
#[derive(Clone, Copy)]
pub(crate) struct Asked<'s> {
    pub(crate) alloc: Global,
    pub(crate) script: &'s Script,
    pub(crate) level: Level,
    pub(crate) key: u16,
}

impl<'s> Asked<'s> {
    /// Reads the answer to a get.
    pub(crate) fn read_get(&self, words: &[&[u8]]) -> Result<Option<Answer>, NoMemory>
        requires { CanBeAsked self.now }
        ensures { IfOk result (ReadsGet self.now.script.now self.now.level self.now.key
            (texts words.now)) }
    {
        let [first, name, said @ ..] = words else {
            return Ok(None);
        };
        if !is_key(self.script, self.key, name) {
            return Ok(None);
        }
        self.read_get_end(first, said)
    }

    /// Reads what stands after the key in the answer to a get, whose first word is given.
    fn read_get_end(&self, first: &[u8], words: &[&[u8]]) -> Result<Option<Answer>, NoMemory>
        requires { CanBeAsked self.now }
        ensures { IfOk result (ReadsGet self.now.script.now self.now.level self.now.key
            (first.now ∷ key_name self.now.script.now self.now.key ∷ texts words.now)) }
    {
        match first {
            b"get" => self.read_shown(words),
            b"again" => self.read_again(words),
            _ => Ok(None),
        }
    }

    /// Reads the answer to an await.
    pub(crate) fn read_await(
        &self,
        session: u16,
        count: u64,
        words: &[&[u8]],
    ) -> Result<Option<Answer>, NoMemory>
        requires { CanBeAsked self.now }
        ensures { IfOk result (ReadsAnswer self.now.script.now self.now.level
            (lines.Await self.now.key session count) (texts words.now)) }
    {
        let Some((name, words)) = named(words, b"await") else {
            return Ok(None);
        };
        let [session_name, number, said @ ..] = words else {
            return Ok(None);
        };
        if !is_key(self.script, self.key, name) {
            return Ok(None);
        }
        if !is_session(self.script, session, session_name) {
            return Ok(None);
        }
        if !is_number(count, number) {
            return Ok(None);
        }
        self.read_await_end(said)
    }

    /// Reads what stands after the number in the answer to an await.
    fn read_await_end(&self, words: &[&[u8]]) -> Result<Option<Answer>, NoMemory>
        requires { CanBeAsked self.now }
        ensures { IfOk result (ReadsAwaitEnd self.now.script.now self.now.level self.now.key
            (texts words.now)) }
    {
        let Some((up, ended)) = named(words, b"gave") else {
            return self.read_shown(words);
        };
        if up != b"up".as_slice() {
            return Ok(None);
        }
        self.read_again(ended)
    }

    /// Reads what a worker showed of a key: `@W CELL`, and `needs NEEDS` in a causal session.
    fn read_shown(&self, words: &[&[u8]]) -> Result<Option<Answer>, NoMemory>
        requires { CanBeAsked self.now }
        ensures { IfOk result (ReadsGot self.now.script.now self.now.level self.now.key
            (texts words.now)) }
    {
        let [worker, said @ ..] = words else {
            return Ok(None);
        };
        let Some(worker) = read_worker(self.script, worker) else {
            return Ok(None);
        };
        let Some(shown) = self.read_shown_cell(said)? else {
            return Ok(None);
        };
        Ok(Some(Answer::Got { worker, shown }))
    }

    /// Reads the cell that a worker showed, and its needs in a causal session.
    fn read_shown_cell(&self, words: &[&[u8]]) -> Result<Option<Shown>, NoMemory>
        requires { CanBeAsked self.now }
        ensures { IfOk result (ReadsShownCell self.now.script.now self.now.level self.now.key
            (texts words.now)) }
    {
        let Some((cell, later)) = words.split_at_checked(6) else {
            return Ok(None);
        };
        let Some(cell) = read_cell(self.alloc, self.script, self.key, cell)? else {
            return Ok(None);
        };
        let Some(needs) = self.read_shown_needs(later)? else {
            return Ok(None);
        };
        Ok(Some(Shown {
            clock: cell.clock,
            top: cell.top,
            value: cell.value,
            needs,
        }))
    }

    /// Reads the needs after a cell, which are there exactly in a causal session.
    fn read_shown_needs(&self, words: &[&[u8]]) -> Result<Option<Option<Needs>>, NoMemory>
        requires { IsValid self.now.script.now }
        ensures { IfOk result (ReadsNeeds self.now.script.now self.now.level (texts words.now)) }
    {
        match (self.level, words) {
            (Level::Causal, words) => read_causal_needs(self.alloc, self.script, words),
            (Level::Eventual, []) | (Level::Committed, []) => Ok(Some(None)),
            _ => Ok(None),
        }
    }

    /// Reads where asking ended: `after ASKS @W clock CLOCK`, in a causal session.
    fn read_again(&self, words: &[&[u8]]) -> Result<Option<Answer>, NoMemory>
        requires { IsValid self.now.script.now }
        ensures { IfOk result (ReadsEnded self.now.script.now self.now.level (texts words.now)) }
    {
        let Some((asks, worker, clock)) = again_parts(words) else {
            return Ok(None);
        };
        if self.level != Level::Causal {
            return Ok(None);
        }
        let Some(asks) = read_small_number(asks) else {
            return Ok(None);
        };
        let Some(worker) = read_worker(self.script, worker) else {
            return Ok(None);
        };
        let Some(clock) = read_clock(self.alloc, self.script, clock)? else {
            return Ok(None);
        };
        Ok(Some(Answer::Again {
            asks,
            worker,
            clock,
        }))
    }
}

/// Whether a word is the name of a session.
fn is_session(script: &Script, session: u16, word: &[u8]) -> bool
    ensures { IsTrue result ↔ (word.now ≡ session_name script.now session) }
{
    script.session_name(session) == word
}

/// Whether a word is a number.
fn is_number(number: u64, word: &[u8]) -> bool
    ensures { IsTrue result ↔ (word.now ≡ decimal number) }
{
    read_number(word) == Some(number)
}

/// Reads the needs after a cell in a causal session.
fn read_causal_needs(
    alloc: Global,
    script: &Script,
    words: &[&[u8]],
) -> Result<Option<Option<Needs>>, NoMemory>
    requires { IsValid script.now }
    ensures { IfOk result (ReadsNeeds script.now levels.Causal (texts words.now)) }
{
    let Some((needs, [])) = named(words, b"needs") else {
        return Ok(None);
    };
    let Some(needs) = read_needs(alloc, script, needs)? else {
        return Ok(None);
    };
    Ok(Some(Some(needs)))
}

/// The number of asks, the worker and the clock in the words of an end of asking.
fn again_parts<'a>(words: &[&'a [u8]]) -> Option<(&'a [u8], &'a [u8], &'a [u8])>
    ensures { FindsThree again_of (texts words.now) result }
{
    let (asks, words) = named(words, b"after")?;
    match words {
        [worker, first, clock] if *first == b"clock".as_slice() => Some((asks, worker, clock)),
        _ => None,
    }
}
