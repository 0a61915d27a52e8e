//! The bytes of names and words.
ghost use Rattle.std.specs.Prelude.{◌≡◌, MatchResult, refl};
ghost use Rattle.std.specs.Cmp.Lexicographic.{texts_ties};
ghost use Rattle.lattice_laws.specs.Spelling.{IsSpelled, IsWhyMisspelled, is_spelling_byte as spelling_byte, spelled_eq, spelled_cmp, spelled_partial_cmp};
ghost use Rattle.lattice_laws.specs.SpellingLaws.{spelled_equivalence, spelled_partial_equivalence, spelled_total, spelled_partial_order};

use std::cmp::Ordering;
use std::marker::Model;

/// Why bytes spell nothing.
#[derive(Clone, Copy, Debug, PartialEq, Eq)]
pub enum Misspelled {
    /// There is none, or there are too many.
    Length,
    /// The length fits, and a byte is not allowed.
    Byte,
}

/// 1 to `MOST` of the bytes `A-Z a-z 0-9 _ . -`, ordered by these bytes. Contracts see the bytes.
///
/// The bytes are kept in place, so that to make, copy or move a value takes no memory.
#[derive(Debug, Drop)]
pub struct Spelled<const MOST: usize> {
    // The bytes, then zeros.
    room: [u8; MOST],
    len: usize,
}

impl<const MOST: usize> Model for Spelled<MOST> {
    ghost use Rattle.std.specs.Prelude.{List, ℕ, ◌≤◌, take};
    ghost use Rattle.lattice_laws.specs.Spelling.{IsSpelled};

    ghost Value = { List ℕ };

    ghost view = { λ spelled. take spelled.len spelled.room };

    ghost invariant = { λ spelled.
        (spelled.len ≤ MOST) × IsSpelled MOST (take spelled.len spelled.room) };
}

impl<const MOST: usize> Spelled<MOST> {
    /// What the bytes spell. Takes no memory.
    pub fn of(bytes: &[u8]) -> Result<Spelled<MOST>, Misspelled>
        ensures { MatchResult result
            (λ spelled. (spelled ≡ bytes.now) × IsSpelled MOST bytes.now)
            (IsWhyMisspelled MOST bytes.now) }
    {
        test_spelling(bytes, MOST)?;
        let mut room = [0; MOST];
        room[..bytes.len()].copy_from_slice(bytes);
        Ok(Spelled {
            room,
            len: bytes.len(),
        })
    }

    /// The bytes. Takes no memory.
    pub fn as_bytes(&self) -> &[u8]
        ensures bytes { result.now ≡ self.now }
        ensures spelled { IsSpelled MOST self.now }
    {
        &self.room[..self.len]
    }

    /// An equal value. Takes no memory.
    pub fn copy(&self) -> Spelled<MOST>
        ensures { result ≡ self.now }
    {
        Spelled {
            room: self.room,
            len: self.len,
        }
    }
}

impl<const MOST: usize> PartialEq for Spelled<MOST> {
    ghost eq = { spelled_eq };

    ghost laws = { spelled_partial_equivalence };

    fn eq(&self, other: &Spelled<MOST>) -> bool {
        self.as_bytes() == other.as_bytes()
    }
}

impl<const MOST: usize> Eq for Spelled<MOST> {
    ghost laws = { spelled_equivalence };
}

impl<const MOST: usize> PartialOrd for Spelled<MOST> {
    ghost partial_cmp = { spelled_partial_cmp };

    ghost laws = { spelled_partial_order };

    fn partial_cmp(&self, other: &Spelled<MOST>) -> Option<Ordering> {
        Some(self.cmp(other))
    }
}

impl<const MOST: usize> Ord for Spelled<MOST> {
    ghost cmp = { spelled_cmp };

    ghost total = { spelled_total };

    ghost matches_partial_cmp = { λ a b. refl };

    ghost matches_eq = { texts_ties };

    fn cmp(&self, other: &Spelled<MOST>) -> Ordering {
        self.as_bytes().cmp(other.as_bytes())
    }
}

/// Whether a byte may stand in a name or a word: one of `A-Z a-z 0-9 _ . -`.
fn is_spelling_byte(byte: u8) -> bool
    ensures { result ≡ spelling_byte byte }
{
    byte.is_ascii_alphanumeric() || byte == b'_' || byte == b'.' || byte == b'-'
}

/// Tests that the bytes spell a name or a word of at most `most` bytes. Takes no memory.
pub fn test_spelling(bytes: &[u8], most: usize) -> Result<(), Misspelled>
    ensures { MatchResult result (λ _. IsSpelled most bytes.now) (IsWhyMisspelled most bytes.now) }
{
    if bytes.is_empty() || bytes.len() > most {
        return Err(Misspelled::Length);
    }
    if bytes.iter().all(|byte| is_spelling_byte(*byte)) {
        Ok(())
    } else {
        Err(Misspelled::Byte)
    }
}
