//! Reads the commands of sessions.
ghost use Rattle.std.specs.Prelude.{◌≡◌, ◌≤◌, ◌<◌, ◌==◌, ◌∷◌, [], if◌then◌else◌, None, false, not, nat_le, length, slice_index_or, MatchOption, MatchResult, OnOk};
ghost use Rattle.std.specs.List.{list_any};
ghost use Rattle.std.specs.Option.{option_map_or};
ghost use Rattle.placement.specs.Config.{placed};
ghost use Rattle.script_reader.specs.Faults.{keys_of, commands_of};
ghost use Rattle.script_reader.specs.Reader.{so_far, with_added, IsKept, IsKeyAt, SuitsPlace, Reads, HasRoom, HasAdded, MayBound, IsBoundFault};
ghost use Rattle.script_reader.specs.Said.{place_of};
ghost use Rattle.script_reader.specs.Words.{is_payload_too_great as is_too_much, is_amount_too_great as is_great_amount, texts};
ghost use Rattle.script_reader.specs.declared.code.Code.TheVariants as codes_of;
ghost use Rattle.script_reader.specs.declared.keyword.Keyword.TheVariants as keywords;

use crate::code::Code;
use crate::payload::{is_amount_too_great, is_payload_too_great, payload};
use crate::reader::{LineFault, Reader, Sessions};
use crate::words::{is_spelling, number};
use composed_value::Kind;
use lattice_laws::NoMemory;
use session_known::{Level, Line};

/// The most command lines that the sessions of a script may have.
const MOST_COMMANDS: usize = 4096;

impl Sessions {
    /// Adds a command to the last session.
    fn add(&mut self, line: Line) -> Result<(), NoMemory>
        requires room { self.old.commands < 4096 }
        ensures { OnOk result (self.new ≡ with_added self.old line) }
    {
        let begun = match line {
            Line::Begin => true,
            Line::Commit | Line::Abort => false,
            _ => self.begun,
        };
        self.last.lines.push(line)?;
        self.commands += 1;
        self.begun = begun;
        Ok(())
    }
}

impl<'a> Reader<'a> {
    /// The place of a key, counted from 0, and its kind.
    fn find_key(&self, key: &[u8]) -> Option<(usize, Kind)>
        requires kept { IsKept self.now }
        ensures { MatchOption result (place_of (keys_of (so_far self.now)) key.now ≡ None)
            (λ found. IsKeyAt (so_far self.now) key.now found.0 found.1) }
    {
        let place = self.keys.place_of(key)?;
        Some((place, self.kinds[place]))
    }

    /// Whether a worker is a replica of the key at a place.
    fn is_replica(&self, place: usize, worker: u64) -> bool
        requires kept { IsKept self.now }
        requires some { 1 ≤ length (so_far self.now).script.sessions }
        requires within { place < length (so_far self.now).script.config.keys }
        ensures { result ≡ list_any (λ replica. replica == worker)
            (slice_index_or (placed (so_far self.now).script.config) place []) }
    {
        let Some(sessions) = &self.sessions else {
            unreachable!()
        };
        let replicas = sessions.placement.replicas(place as u16 + 1);
        replicas.iter().any(|replica| u64::from(*replica) == worker)
    }

    /// Whether there may be one more command.
    fn has_room(&self) -> bool
        requires kept { IsKept self.now }
        ensures { result ≡ not (nat_le 4096 (commands_of (so_far self.now))) }
    {
        match &self.sessions {
            Some(sessions) => sessions.commands < MOST_COMMANDS,
            None => true,
        }
    }

    /// Adds a command to the last session.
    fn add(&mut self, line: Line) -> Result<(), LineFault>
        requires kept { IsKept self.old }
        requires room { HasRoom (so_far self.old) }
        ensures { MatchResult result (λ _. HasAdded self.old self.new line)
            (λ fault. fault ≡ LineFault.NoMemory) }
    {
        let Some(sessions) = &mut self.sessions else {
            unreachable!()
        };
        sessions.add(line)?;
        Ok(())
    }

    /// Reads a put.
    pub(crate) fn take_put(&mut self, key: &[u8], words: &[&[u8]]) -> Result<(), LineFault>
        requires kept { IsKept self.old }
        requires stands { SuitsPlace (so_far self.old) keywords.Put (key.now ∷ texts words.now) }
        ensures { Reads self.old result self.new keywords.Put (key.now ∷ texts words.now) }
    {
        let found = self.find_key(key);
        if says_too_much(found, words) {
            return Err(LineFault::Code(Code::Number));
        }
        if !is_spelling(key, 32) {
            return Err(LineFault::Code(Code::Name));
        }
        let Some((place, kind)) = found else {
            return Err(LineFault::Code(Code::Unknown));
        };
        let Some(payload) = payload(kind, words) else {
            return Err(LineFault::Code(why_no_payload(kind, words)));
        };
        if !self.has_room() {
            return Err(LineFault::Code(Code::Limit));
        }
        self.add(Line::Put {
            key: place as u16 + 1,
            payload,
        })
    }

    /// Reads a get.
    pub(crate) fn take_get(&mut self, key: &[u8]) -> Result<(), LineFault>
        requires kept { IsKept self.old }
        requires stands { SuitsPlace (so_far self.old) keywords.Get (key.now ∷ []) }
        ensures { Reads self.old result self.new keywords.Get (key.now ∷ []) }
    {
        if !is_spelling(key, 32) {
            return Err(LineFault::Code(Code::Name));
        }
        let Some((place, _)) = self.find_key(key) else {
            return Err(LineFault::Code(Code::Unknown));
        };
        if !self.has_room() {
            return Err(LineFault::Code(Code::Limit));
        }
        self.add(Line::Get {
            key: place as u16 + 1,
            worker: None,
        })
    }

    /// Reads a get from a named worker.
    pub(crate) fn take_get_from(&mut self, key: &[u8], worker: &[u8]) -> Result<(), LineFault>
        requires kept { IsKept self.old }
        requires stands { SuitsPlace (so_far self.old) keywords.Get (key.now ∷ worker.now ∷ []) }
        ensures { Reads self.old result self.new keywords.Get (key.now ∷ worker.now ∷ []) }
    {
        let Some(worker) = number(worker) else {
            return Err(LineFault::Code(Code::Number));
        };
        if !is_spelling(key, 32) {
            return Err(LineFault::Code(Code::Name));
        }
        let Some((place, _)) = self.find_key(key) else {
            return Err(LineFault::Code(Code::Unknown));
        };
        if !self.is_replica(place, worker) {
            return Err(LineFault::Code(Code::Unknown));
        }
        if !self.has_room() {
            return Err(LineFault::Code(Code::Limit));
        }
        self.add(Line::Get {
            key: place as u16 + 1,
            worker: Some(worker as u16),
        })
    }

    /// Reads an await.
    pub(crate) fn take_await(
        &mut self,
        key: &[u8],
        session: &[u8],
        count: &[u8],
    ) -> Result<(), LineFault>
        requires kept { IsKept self.old }
        requires stands { SuitsPlace (so_far self.old) keywords.Await
            (key.now ∷ session.now ∷ count.now ∷ []) }
        ensures { Reads self.old result self.new keywords.Await
            (key.now ∷ session.now ∷ count.now ∷ []) }
    {
        let Some(count) = number(count) else {
            return Err(LineFault::Code(Code::Number));
        };
        if !is_spelling(key, 32) || !is_spelling(session, 32) {
            return Err(LineFault::Code(Code::Name));
        }
        let Some((place, _)) = self.find_key(key) else {
            return Err(LineFault::Code(Code::Unknown));
        };
        let Some(session) = self.named.place_of(session) else {
            return Err(LineFault::Code(Code::Unknown));
        };
        if !self.has_room() {
            return Err(LineFault::Code(Code::Limit));
        }
        self.add(Line::Await {
            key: place as u16 + 1,
            session: session.min(65534) as u16 + 1,
            count,
        })
    }

    /// Tests that a transaction may be begun here, or ended where one is begun.
    fn check_boundary(&self, begun: bool) -> Result<(), LineFault>
        requires kept { IsKept self.now }
        ensures { MatchResult result (λ _. MayBound (so_far self.now) begun)
            (IsBoundFault (so_far self.now) begun) }
    {
        if !self.has_room() {
            return Err(LineFault::Code(Code::Limit));
        }
        if self.level() != Level::Committed || self.is_begun() != begun {
            return Err(LineFault::Code(Code::Transaction));
        }
        Ok(())
    }

    /// Reads the beginning of a transaction.
    pub(crate) fn take_begin(&mut self) -> Result<(), LineFault>
        requires kept { IsKept self.old }
        requires stands { SuitsPlace (so_far self.old) keywords.Begin [] }
        ensures { Reads self.old result self.new keywords.Begin [] }
    {
        self.check_boundary(false)?;
        self.add(Line::Begin)
    }

    /// Reads a commit.
    pub(crate) fn take_commit(&mut self) -> Result<(), LineFault>
        requires kept { IsKept self.old }
        requires stands { SuitsPlace (so_far self.old) keywords.Commit [] }
        ensures { Reads self.old result self.new keywords.Commit [] }
    {
        self.check_boundary(true)?;
        self.add(Line::Commit)
    }

    /// Reads an abort.
    pub(crate) fn take_abort(&mut self) -> Result<(), LineFault>
        requires kept { IsKept self.old }
        requires stands { SuitsPlace (so_far self.old) keywords.Abort [] }
        ensures { Reads self.old result self.new keywords.Abort [] }
    {
        self.check_boundary(true)?;
        self.add(Line::Abort)
    }

    /// Reads the end.
    pub(crate) fn take_end(&self) -> Result<(), LineFault>
        requires kept { IsKept self.now }
        requires stands { SuitsPlace (so_far self.now) keywords.End [] }
        ensures { Reads self.now result self.now keywords.End [] }
    {
        if self.is_begun() {
            return Err(LineFault::Code(Code::Transaction));
        }
        Ok(())
    }
}

/// Whether the number of a payload says more than a number may, where there is a key of a kind.
fn says_too_much(found: Option<(usize, Kind)>, words: &[&[u8]]) -> bool
    ensures { result ≡ option_map_or (λ found. is_too_much found.1 (texts words.now)) found false }
{
    match found {
        Some((_, kind)) => is_payload_too_great(kind, words),
        None => false,
    }
}

/// Why words say no payload for a kind: the amount is too great, or else they do not fit.
fn why_no_payload(kind: Kind, words: &[&[u8]]) -> Code
    ensures { result ≡ (if is_great_amount kind (texts words.now)
        then codes_of.Limit else codes_of.Kind) }
{
    if is_amount_too_great(kind, words) {
        Code::Limit
    } else {
        Code::Kind
    }
}
