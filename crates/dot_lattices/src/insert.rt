//! Inserts.
ghost use Rattle.std.specs.Prelude.{◌≡◌, MatchResult};
ghost use Rattle.dot_lattices.specs.Insert.{IsInsert};
ghost use Rattle.dot_lattices.specs.InsertLaws.{insert_exact};

use crate::Dot;
use basic_lattices::Word;
use lattice_laws::{MapKey, NoMemory};

/// A word that was put into a set, with the dot of the put. Ordered by the word, then by the dot.
#[derive(Debug, Drop, PartialEq, Eq, PartialOrd, Ord)]
pub struct Insert {
    pub word: Word,
    pub dot: Dot,
}

impl MapKey for Insert {
    ghost is_key = { IsInsert };

    fn attest(&self) {
        let _bytes = self.word.as_bytes();
        let (_session, _number) = (self.dot.session, self.dot.number);
    }

    fn copy(&self) -> Result<Insert, NoMemory>
        ensures { MatchResult result (λ copy. copy ≡ self.now) (λ _. ⊥) }
    {
        Ok(Insert {
            word: self.word.copy()?,
            dot: self.dot,
        })
    }

    ghost exact = { insert_exact };
}
