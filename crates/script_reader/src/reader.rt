//! What the lines of a script say that were read so far.

mod commands;
mod declared;

ghost use Rattle.std.specs.Prelude.{◌≡◌, [], IfOk};
ghost use Rattle.script_reader.specs.Faults.{context_of, may_follow, level_of, is_header as header_is, is_in_version as in_version, suits as level_suits};
ghost use Rattle.script_reader.specs.Reader.{so_far, plans_of, IsKept, TellsWhatSuits, Reads};
ghost use Rattle.script_reader.specs.Words.{texts};

use crate::code::Code;
use crate::entry::{Bare, Entry, tell_apart};
use crate::keyword::Keyword;
use crate::names::Names;
use crate::words::is_later_kind;
use composed_value::Kind;
use lattice_laws::{Items, NoMemory};
use placement::{Config, Placement};
use session_known::{Level, Script, SessionPlan};
use std::alloc::{AllocError, AllocFailed, Global};

/// Why a line was not read.
#[derive(Clone, Copy, Debug, PartialEq, Eq)]
pub(crate) enum LineFault {
    Code(Code),
    NoMemory,
}

impl From<Code> for LineFault {
    ghost use Rattle.script_reader.specs.declared.reader.LineFault.TheVariants as faults;

    ghost from_gives = { λ code fault. fault ≡ faults.Code code };

    fn from(code: Code) -> LineFault {
        LineFault::Code(code)
    }
}

impl From<NoMemory> for LineFault {
    ghost use Rattle.script_reader.specs.declared.reader.LineFault.TheVariants as faults;

    ghost from_gives = { λ _ fault. fault ≡ faults.NoMemory };

    fn from(_error: NoMemory) -> LineFault {
        LineFault::NoMemory
    }
}

impl From<AllocError> for LineFault {
    ghost use Rattle.script_reader.specs.declared.reader.LineFault.TheVariants as faults;

    ghost from_gives = { λ _ fault. fault ≡ faults.NoMemory };

    fn from(_error: AllocError) -> LineFault {
        LineFault::NoMemory
    }
}

impl<T: Drop> From<AllocFailed<T>> for LineFault {
    ghost use Rattle.script_reader.specs.declared.reader.LineFault.TheVariants as faults;

    ghost from_gives = { λ _ fault. fault ≡ faults.NoMemory };

    fn from(_error: AllocFailed<T>) -> LineFault {
        LineFault::NoMemory
    }
}

/// The sessions of a script so far, at least one, and where its keys live.
#[derive(Drop)]
pub(crate) struct Sessions {
    pub(crate) placement: Placement,
    /// The sessions before the last.
    pub(crate) done: Vec<SessionPlan>,
    pub(crate) last: SessionPlan,
    /// The number of lines of all sessions.
    pub(crate) commands: usize,
    pub(crate) begun: bool,
}

/// What the lines of a script say that were read so far.
#[derive(Drop)]
pub(crate) struct Reader<'a> {
    /// The sessions that an await may name.
    pub(crate) named: Names<'a>,
    pub(crate) has_header: bool,
    /// 1 until the header is read.
    pub(crate) version: u16,
    pub(crate) has_workers: bool,
    pub(crate) has_factor: bool,
    pub(crate) has_round: bool,
    pub(crate) config: Config,
    pub(crate) round: u32,
    /// The names of the keys.
    pub(crate) keys: Names<'a>,
    pub(crate) kinds: Vec<Kind>,
    pub(crate) sessions: Option<Sessions>,
}

impl<'a> Reader<'a> {
    /// Whether a line that begins with the keyword may stand next.
    fn may_follow(&self, keyword: Keyword) -> bool
        ensures { result ≡ may_follow (so_far self.now) keyword }
    {
        let has_keys = !self.config.keys.as_slice().is_empty();
        let has_sessions = self.sessions.is_some();
        match keyword {
            Keyword::Anna => !self.has_header,
            Keyword::Workers => self.has_header && !self.has_workers,
            Keyword::Factor | Keyword::Round => self.has_workers && !has_keys && !has_sessions,
            Keyword::Key => self.has_workers && !has_sessions,
            Keyword::Session | Keyword::End => self.has_workers,
            Keyword::Unknown => false,
            _ => self.has_workers && has_sessions,
        }
    }

    /// The level of the last session, or eventual where there is none.
    pub(crate) fn level(&self) -> Level
        ensures { result ≡ level_of (so_far self.now) }
    {
        match &self.sessions {
            Some(sessions) => sessions.last.level,
            None => Level::Eventual,
        }
    }

    /// Tells a line apart, where it may stand here with its words.
    fn check<'w>(&self, keyword: Keyword, words: &'w [&'a [u8]]) -> Result<Entry<'w, 'a>, LineFault>
        ensures { TellsWhatSuits (so_far self.now) keyword (texts words.now) result }
    {
        if !self.has_header && !is_header(keyword, words) {
            return Err(LineFault::Code(Code::Header));
        }
        if !self.may_follow(keyword) {
            return Err(LineFault::Code(Code::Word));
        }
        let Some(entry) = tell_apart(keyword, words) else {
            return Err(LineFault::Code(Code::Word));
        };
        if !suits(self.level(), keyword, words) || !is_in_version(self.version, keyword, words) {
            return Err(LineFault::Code(Code::Word));
        }
        Ok(entry)
    }

    /// Reads a line: its first word, and the words after it. After a fault the reader is not to be
    /// used again.
    pub(crate) fn take(
        &mut self,
        alloc: Global,
        keyword: Keyword,
        words: &[&'a [u8]],
    ) -> Result<(), LineFault>
        requires kept { IsKept self.old }
        ensures { Reads self.old result self.new keyword (texts words.now) }
    {
        match self.check(keyword, words)? {
            Entry::Header { version } => self.take_header(version),
            Entry::Workers { number } => self.take_workers(number),
            Entry::Factor { number } => self.take_factor(number),
            Entry::Round { number } => self.take_round(number),
            Entry::Key {
                name,
                kind,
                by_factor,
                numbers,
            } => self.take_key(alloc, name, kind, by_factor, numbers),
            Entry::Session { name, level, after } => self.take_session(alloc, name, level, after),
            Entry::Put { key, payload } => self.take_put(key, payload),
            Entry::Get { key } => self.take_get(key),
            Entry::GetFrom { key, worker } => self.take_get_from(key, worker),
            Entry::Await {
                key,
                session,
                count,
            } => self.take_await(key, session, count),
            Entry::Bare(Bare::Begin) => self.take_begin(),
            Entry::Bare(Bare::Commit) => self.take_commit(),
            Entry::Bare(Bare::Abort) => self.take_abort(),
            Entry::Bare(Bare::End) => self.take_end(),
        }
    }

    /// A reader that has read no line. Takes no memory.
    pub(crate) fn new(alloc: Global, named: Names<'a>) -> Reader<'a>
        ensures kept { IsKept result }
        ensures nothing { so_far result ≡ context_of named.entry [] }
    {
        Reader {
            named,
            has_header: false,
            version: 1,
            has_workers: false,
            has_factor: false,
            has_round: false,
            config: Config {
                workers: 0,
                factor: 1,
                keys: Items::new(Vec::new(alloc)),
            },
            round: 4,
            keys: Names::new(alloc),
            kinds: Vec::new(alloc),
            sessions: None,
        }
    }

    /// The script that was read.
    pub(crate) fn into_script(self, alloc: Global) -> Result<Script, NoMemory>
        ensures { IfOk result (λ script. script ≡ (so_far self.entry).script) }
    {
        let Reader {
            named: _,
            has_header: _,
            version,
            has_workers: _,
            has_factor: _,
            has_round: _,
            config,
            round,
            keys: _,
            kinds,
            sessions,
        } = self;
        Ok(Script {
            version,
            config,
            round,
            kinds: Items::new(kinds),
            sessions: plans(alloc, sessions)?,
        })
    }
}

/// The plans of all sessions.
fn plans(alloc: Global, sessions: Option<Sessions>) -> Result<Items<SessionPlan>, NoMemory>
    ensures { IfOk result (λ plans. plans ≡ plans_of sessions) }
{
    let Some(sessions) = sessions else {
        return Ok(Items::new(Vec::new(alloc)));
    };
    let mut plans = Items::new(sessions.done);
    plans.push(sessions.last)?;
    Ok(plans)
}

/// Whether a line is the header.
fn is_header(keyword: Keyword, words: &[&[u8]]) -> bool
    ensures { result ≡ header_is keyword (texts words.now) }
{
    match (keyword, words) {
        (Keyword::Anna, [version]) => *version == b"1".as_slice() || *version == b"2".as_slice(),
        _ => false,
    }
}

/// Whether scripts of the version have such lines.
fn is_in_version(version: u16, keyword: Keyword, words: &[&[u8]]) -> bool
    ensures { result ≡ in_version version keyword (texts words.now) }
{
    match (keyword, words) {
        (Keyword::Key, [_, kind, by, ..]) => {
            version >= 2 || !is_later_kind(kind) && *by != b"factor".as_slice()
        }
        (Keyword::Key, [_, kind]) => version >= 2 || !is_later_kind(kind),
        (Keyword::Session, [_, _, _, _, ..]) => version >= 2,
        _ => true,
    }
}

/// Whether a session of the level may have the line.
fn suits(level: Level, keyword: Keyword, words: &[&[u8]]) -> bool
    ensures { result ≡ level_suits level keyword (texts words.now) }
{
    match keyword {
        Keyword::Await => level == Level::Causal,
        Keyword::Get => words.len() < 2 || level != Level::Causal,
        _ => true,
    }
}
