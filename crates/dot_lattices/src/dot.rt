//! Dots.
ghost use Rattle.std.specs.Prelude.{◌≡◌, MatchResult};
ghost use Rattle.dot_lattices.specs.Dot.{IsDot};
ghost use Rattle.dot_lattices.specs.DotLaws.{dot_exact};

use lattice_laws::{MapKey, NoMemory};

/// A put of a key: its session, and its number among the session's puts on the key. Ordered by the
/// session, then by the number.
#[derive(Clone, Copy, Debug, PartialEq, Eq, PartialOrd, Ord)]
pub struct Dot {
    pub session: u16,
    pub number: u64,
}

impl MapKey for Dot {
    ghost is_key = { IsDot };

    fn attest(&self) {
        let (_session, _number) = (self.session, self.number);
    }

    fn copy(&self) -> Result<Dot, NoMemory>
        ensures { MatchResult result (λ copy. copy ≡ self.now) (λ _. ⊥) }
    {
        Ok(*self)
    }

    ghost exact = { dot_exact };
}
