//! Reads the lines that declare: workers, options, keys, sessions, and the end.
ghost use Rattle.std.specs.Prelude.{◌≡◌, ◌<◌, List, ℕ, ◌∷◌, [], true, false, ◌&&◌, not, length, MatchResult};
ghost use Rattle.std.specs.List.{list_any};
ghost use Rattle.std.specs.Option.{option_map, option_map_or};
ghost use Rattle.std.specs.Str.{bytes_eq};
ghost use Rattle.script_reader.specs.Entries.{AreKeyWords, AreSessionWords};
ghost use Rattle.script_reader.specs.Faults.{is_causal, has_causal, is_version, sessions_of};
ghost use Rattle.script_reader.specs.Reader.{so_far, begun_of, IsKept, SuitsPlace, Reads, IsNameFault, HasOpened};
ghost use Rattle.script_reader.specs.Said.{session_number};
ghost use Rattle.script_reader.specs.Words.{is_name, number_of, lent, texts};
ghost use Rattle.script_reader.specs.declared.keyword.Keyword.TheVariants as keywords;

use crate::code::Code;
use crate::pins::{are_workers, has_repeat, is_factor, is_within, numbers, pins, pins_or_factor};
use crate::reader::{LineFault, Reader, Sessions};
use crate::words::{is_spelling, number};
use composed_value::Kind;
use lattice_laws::Items;
use placement::{KeyPlace, Name, Placement};
use session_known::{Level, SessionPlan};
use std::alloc::Global;
use std::mem;

/// The name that a word spells.
fn read_name(word: &[u8]) -> Result<Name, LineFault>
    ensures { MatchResult result
        (λ name. (name ≡ word.now) × (is_name word.now ≡ true))
        (IsNameFault word.now) }
{
    match Name::of(word) {
        Ok(name) => Ok(name),
        Err(_) => Err(LineFault::Code(Code::Name)),
    }
}

/// Whether a word spells a name, where there is one.
fn is_name_if_any(word: Option<&[u8]>) -> bool
    ensures { result ≡ option_map_or is_name (lent word.entry) true }
{
    match word {
        Some(word) => is_spelling(word, 32),
        None => true,
    }
}

/// Whether a session has the name and is causal.
fn is_causal_of_name(plan: &SessionPlan, name: &[u8]) -> bool
    ensures { result ≡ (bytes_eq name.now plan.now.name && is_causal plan.now.level) }
{
    name == plan.name.as_bytes() && plan.level == Level::Causal
}

/// The version that a header says.
fn version_of(word: &[u8]) -> u16
    ensures { is_version word.now ≡ true → result ≡ number_of word.now }
{
    if word == b"2".as_slice() { 2 } else { 1 }
}

impl<'a> Reader<'a> {
    /// Reads the version.
    pub(crate) fn take_header(&mut self, version: &[u8]) -> Result<(), LineFault>
        requires kept { IsKept self.old }
        requires stands { SuitsPlace (so_far self.old) keywords.Anna (version.now ∷ []) }
        ensures { Reads self.old result self.new keywords.Anna (version.now ∷ []) }
    {
        self.version = version_of(version);
        self.has_header = true;
        Ok(())
    }

    /// Reads the number of workers.
    pub(crate) fn take_workers(&mut self, word: &[u8]) -> Result<(), LineFault>
        requires kept { IsKept self.old }
        requires stands { SuitsPlace (so_far self.old) keywords.Workers (word.now ∷ []) }
        ensures { Reads self.old result self.new keywords.Workers (word.now ∷ []) }
    {
        let Some(workers) = number(word) else {
            return Err(LineFault::Code(Code::Number));
        };
        if !is_within(1, 8, workers) {
            return Err(LineFault::Code(Code::Limit));
        }
        self.config.workers = workers as u16;
        self.has_workers = true;
        Ok(())
    }

    /// Reads the replication factor.
    pub(crate) fn take_factor(&mut self, word: &[u8]) -> Result<(), LineFault>
        requires kept { IsKept self.old }
        requires stands { SuitsPlace (so_far self.old) keywords.Factor (word.now ∷ []) }
        ensures { Reads self.old result self.new keywords.Factor (word.now ∷ []) }
    {
        let Some(factor) = number(word) else {
            return Err(LineFault::Code(Code::Number));
        };
        if self.has_factor {
            return Err(LineFault::Code(Code::Twice));
        }
        if !is_within(1, u64::from(self.config.workers), factor) {
            return Err(LineFault::Code(Code::Limit));
        }
        self.config.factor = factor as u16;
        self.has_factor = true;
        Ok(())
    }

    /// Reads the number of requests between rounds of gossip.
    pub(crate) fn take_round(&mut self, word: &[u8]) -> Result<(), LineFault>
        requires kept { IsKept self.old }
        requires stands { SuitsPlace (so_far self.old) keywords.Round (word.now ∷ []) }
        ensures { Reads self.old result self.new keywords.Round (word.now ∷ []) }
    {
        let Some(round) = number(word) else {
            return Err(LineFault::Code(Code::Number));
        };
        if self.has_round {
            return Err(LineFault::Code(Code::Twice));
        }
        if !is_within(1, 64, round) {
            return Err(LineFault::Code(Code::Limit));
        }
        self.round = round as u32;
        self.has_round = true;
        Ok(())
    }

    /// Reads a key.
    pub(crate) fn take_key(
        &mut self,
        alloc: Global,
        name: &'a [u8],
        kind: Kind,
        by_factor: bool,
        number_words: &[&[u8]],
    ) -> Result<(), LineFault>
        requires kept { IsKept self.old }
        ensures { (words : List (List ℕ))
            → AreKeyWords words name.now kind by_factor (texts number_words.now)
            → SuitsPlace (so_far self.old) keywords.Key words
            → Reads self.old result self.new keywords.Key words }
    {
        let Some(numbers) = numbers(alloc, number_words)? else {
            return Err(LineFault::Code(Code::Number));
        };
        let key_name = read_name(name)?;
        let (pinned, factor) = pins_or_factor(by_factor, &numbers);
        if self.keys.place_of(name).is_some() || has_repeat(alloc, pinned)? {
            return Err(LineFault::Code(Code::Twice));
        }
        if !are_workers(self.config.workers, pinned) {
            return Err(LineFault::Code(Code::Unknown));
        }
        if self.config.keys.as_slice().len() >= 128 || !is_factor(self.config.workers, factor) {
            return Err(LineFault::Code(Code::Limit));
        }
        let pins = Items::new(pins(alloc, pinned)?);
        self.keys.add(name)?;
        self.kinds.push(kind)?;
        self.config.keys.push(KeyPlace {
            name: key_name,
            pins,
            factor: factor.map(|factor| factor as u16),
        })?;
        Ok(())
    }

    /// Whether a session has the name.
    fn has_session(&self, name: &[u8]) -> bool
        ensures { result ≡ list_any (bytes_eq name.now) (sessions_of (so_far self.now)) }
    {
        let Some(sessions) = &self.sessions else {
            return false;
        };
        sessions
            .done
            .iter()
            .any(|plan| name == plan.name.as_bytes())
            || name == sessions.last.name.as_bytes()
    }

    /// Whether a session has the name and is causal.
    fn has_causal(&self, name: &[u8]) -> bool
        ensures { result ≡ has_causal (so_far self.now).script.sessions name.now }
    {
        let Some(sessions) = &self.sessions else {
            return false;
        };
        sessions
            .done
            .iter()
            .any(|plan| is_causal_of_name(plan, name))
            || is_causal_of_name(&sessions.last, name)
    }

    /// Whether a session that is named to come before is no causal one so far.
    fn lacks_predecessor(&self, after: Option<&[u8]>) -> bool
        ensures { result ≡ option_map_or
            (λ other. not (has_causal (so_far self.now).script.sessions other)) (lent after.entry) false }
    {
        match after {
            Some(name) => !self.has_causal(name),
            None => false,
        }
    }

    /// The number of the session that is named to come before.
    fn number_after(&self, after: Option<&[u8]>) -> Option<u16>
        ensures { result ≡ option_map (session_number self.now.named) (lent after.entry) }
    {
        let place = self.named.place_of(after?).unwrap_or(0);
        Some(place.min(65534) as u16 + 1)
    }

    /// The number of sessions.
    fn sessions_len(&self) -> usize
        requires kept { IsKept self.now }
        ensures { result ≡ length (so_far self.now).script.sessions }
    {
        match &self.sessions {
            Some(sessions) => sessions.done.len() + 1,
            None => 0,
        }
    }

    /// Whether a transaction is begun.
    pub(crate) fn is_begun(&self) -> bool
        ensures { result ≡ begun_of self.now.sessions }
    {
        match &self.sessions {
            Some(sessions) => sessions.begun,
            None => false,
        }
    }

    /// Reads the beginning of a session.
    pub(crate) fn take_session(
        &mut self,
        alloc: Global,
        name: &[u8],
        level: Level,
        after: Option<&[u8]>,
    ) -> Result<(), LineFault>
        requires kept { IsKept self.old }
        requires workers { self.old.has_workers ≡ true }
        ensures { (words : List (List ℕ)) → AreSessionWords words name.now level (lent after.entry)
            → SuitsPlace (so_far self.old) keywords.Session words
            → Reads self.old result self.new keywords.Session words }
    {
        let session_name = read_name(name)?;
        if !is_name_if_any(after) {
            return Err(LineFault::Code(Code::Name));
        }
        if self.has_session(name) {
            return Err(LineFault::Code(Code::Twice));
        }
        if self.lacks_predecessor(after) {
            return Err(LineFault::Code(Code::Unknown));
        }
        if self.sessions_len() >= 16 {
            return Err(LineFault::Code(Code::Limit));
        }
        if self.is_begun() {
            return Err(LineFault::Code(Code::Transaction));
        }
        let plan = SessionPlan {
            name: session_name,
            level,
            after: self.number_after(after),
            lines: Items::new(Vec::new(alloc)),
        };
        self.open(alloc, plan)
    }

    /// Begins a session.
    fn open(&mut self, alloc: Global, plan: SessionPlan) -> Result<(), LineFault>
        requires kept { IsKept self.old }
        requires workers { self.old.has_workers ≡ true }
        requires room { length (so_far self.old).script.sessions < 16 }
        requires empty { plan.lines ≡ [] }
        requires ended { (so_far self.old).begun ≡ false }
        ensures { MatchResult result (λ _. HasOpened self.old self.new plan)
            (λ fault. fault ≡ LineFault.NoMemory) }
    {
        match &mut self.sessions {
            Some(sessions) => {
                let before = mem::replace(&mut sessions.last, plan);
                sessions.done.push(before)?;
            }
            None => {
                self.sessions = Some(Sessions {
                    placement: Placement::build(alloc, &self.config)?,
                    done: Vec::new(alloc),
                    last: plan,
                    commands: 0,
                    begun: false,
                });
            }
        }
        Ok(())
    }
}
