//! The lattice with one point.
ghost use Rattle.std.specs.Prelude.{⊤};
ghost use Rattle.lattice_laws.specs.MemberLaws.{point_laws, point_associative};

use crate::{AllFit, Lattice, NoMemory};

/// That a key is there. A map to this lattice is a set of its keys, and its join is their union.
#[derive(Clone, Copy, Debug)]
pub struct Member;

impl Lattice for Member {
    ghost Plain = { Unit {0} };

    ghost plain = { λ _. tt };

    ghost is_value = { λ _. ⊤ };

    ghost fits = { λ _ _. ⊤ };

    ghost joined = { λ _ _. tt };

    fn attest(&self) {}

    fn join(&mut self, _other: &Member) -> Result<(), NoMemory> {
        Ok(())
    }

    fn copy(&self) -> Result<Member, NoMemory> {
        Ok(*self)
    }

    fn at_most(&self, _other: &Member) -> bool {
        true
    }

    ghost laws = { point_laws };

    ghost associative = { point_associative };
}

impl AllFit for Member {
    ghost all_fit = { λ _ _. tt };
}
