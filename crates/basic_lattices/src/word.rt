//! Words: the values of sets, fields and registers.
ghost use Rattle.std.specs.Prelude.{◌≡◌, refl, MatchResult};
ghost use Rattle.std.specs.Cmp.Lexicographic.{texts_ties};
ghost use Rattle.lattice_laws.specs.SpellingLaws.{spelled_equivalence, spelled_partial_equivalence, spelled_total, spelled_partial_order, spelled_exact};
ghost use Rattle.basic_lattices.specs.Word.{IsWord, IsWhyNoWord, word_fault, word_eq, word_cmp, word_partial_cmp};

use lattice_laws::{MapKey, Misspelled, NoMemory, Spelled};
use std::cmp::Ordering;
use std::marker::Model;

/// A word: 1 to 64 bytes of `A-Z a-z 0-9 _ . -`, ordered by its bytes. Contracts see the bytes.
///
/// A word is kept in place: to make, copy or move one takes no memory.
#[derive(Debug, Drop)]
pub struct Word(Spelled<64>);

impl Model for Word {
    ghost use Rattle.std.specs.Prelude.{List, ℕ};

    ghost Value = { List ℕ };

    ghost view = { λ word. word.0 };
}

/// Why bytes are no word.
#[derive(Clone, Copy, Debug, PartialEq, Eq)]
pub enum WordFault {
    /// There is none, or there are more than 64.
    Length,
    /// The length fits, and a byte is not allowed.
    Byte,
    /// There was no room for the word. Never answered, since a word takes no memory.
    NoMemory,
}

impl From<Misspelled> for WordFault {
    ghost from_gives = { λ why fault. fault ≡ word_fault why };

    fn from(why: Misspelled) -> WordFault {
        match why {
            Misspelled::Length => WordFault::Length,
            Misspelled::Byte => WordFault::Byte,
        }
    }
}

impl Word {
    /// The word that the bytes spell. Takes no memory.
    pub fn of(bytes: &[u8]) -> Result<Word, WordFault>
        ensures { MatchResult result
            (λ word. (word ≡ bytes.now) × IsWord bytes.now)
            (IsWhyNoWord bytes.now) }
    {
        Ok(Word(Spelled::of(bytes)?))
    }

    /// The bytes of the word. Takes no memory.
    pub fn as_bytes(&self) -> &[u8]
        ensures bytes { result.now ≡ self.now }
        ensures word { IsWord self.now }
    {
        self.0.as_bytes()
    }
}

impl PartialEq for Word {
    ghost eq = { word_eq };

    ghost laws = { spelled_partial_equivalence };

    fn eq(&self, other: &Word) -> bool {
        self.0 == other.0
    }
}

impl Eq for Word {
    ghost laws = { spelled_equivalence };
}

impl PartialOrd for Word {
    ghost partial_cmp = { word_partial_cmp };

    ghost laws = { spelled_partial_order };

    fn partial_cmp(&self, other: &Word) -> Option<Ordering> {
        Some(self.cmp(other))
    }
}

impl Ord for Word {
    ghost cmp = { word_cmp };

    ghost total = { spelled_total };

    ghost matches_partial_cmp = { λ a b. refl };

    ghost matches_eq = { texts_ties };

    fn cmp(&self, other: &Word) -> Ordering {
        self.0.cmp(&other.0)
    }
}

impl MapKey for Word {
    ghost is_key = { IsWord };

    fn attest(&self) {
        let _bytes = self.as_bytes();
    }

    fn copy(&self) -> Result<Word, NoMemory>
        ensures { MatchResult result (λ copy. copy ≡ self.now) (λ _. ⊥) }
    {
        Ok(Word(self.0.copy()))
    }

    ghost exact = { spelled_exact };
}
