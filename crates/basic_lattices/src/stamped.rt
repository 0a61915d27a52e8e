//! The last word written, where "last" is decided by a stamp.
ghost use Rattle.std.specs.Prelude.{⊤};
ghost use Rattle.std.specs.Ordering.{ord_max};

use crate::Word;
use lattice_laws::{AllFit, Lattice, MapKey, NoMemory};

/// A word with a stamp: the Lamport number of the write, the session that made it, and its place
/// among those that share the number (Lamport 1978). A merge keeps the greater in this order of
/// fields, the word last.
#[derive(Debug, Drop, PartialEq, Eq, PartialOrd, Ord)]
pub struct Stamped {
    pub number: u64,
    pub session: u16,
    pub place: u32,
    pub word: Word,
}

impl Lattice for Stamped {
    ghost use Rattle.basic_lattices.specs.declared.stamped.Stamped.{Stamped};
    ghost use Rattle.basic_lattices.specs.Stamped.{stamp_cmp, IsStamped};
    ghost use Rattle.basic_lattices.specs.StampedLaws.{stamp_laws, stamp_associative};

    ghost Plain = { Stamped };

    ghost plain = { λ stamped. stamped };

    ghost is_value = { IsStamped };

    ghost fits = { λ _ _. ⊤ };

    ghost joined = { ord_max stamp_cmp };

    fn attest(&self) {
        let (_number, _session, _place) = (self.number, self.session, self.place);
        let _bytes = self.word.as_bytes();
    }

    fn join(&mut self, other: &Stamped) -> Result<(), NoMemory> {
        if (*self).cmp(other).is_lt() {
            *self = Lattice::copy(other)?;
        }
        Ok(())
    }

    fn copy(&self) -> Result<Stamped, NoMemory> {
        Ok(Stamped {
            number: self.number,
            session: self.session,
            place: self.place,
            word: self.word.copy()?,
        })
    }

    fn at_most(&self, other: &Stamped) -> bool {
        self.cmp(other).is_le()
    }

    ghost laws = { stamp_laws };

    ghost associative = { stamp_associative };
}

impl AllFit for Stamped {
    ghost all_fit = { λ _ _. tt };
}
