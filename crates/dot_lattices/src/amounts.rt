//! What was added and taken.
ghost use Rattle.std.specs.Prelude.{◌≡◌, MatchResult, ⊤};
ghost use Rattle.dot_lattices.specs.Amounts.{AreAmounts, joined_amounts};
ghost use Rattle.dot_lattices.specs.AmountsLaws.{amounts_laws, amounts_associative};
ghost use Rattle.dot_lattices.specs.declared.amounts.Amounts.{Amounts};

use lattice_laws::{AllFit, Lattice, NoMemory};

/// What was added and what was taken at one dot, each from 0 to 4,294,967,295. A merge keeps the
/// greater of each, and takes no memory.
#[derive(Clone, Copy, Debug, PartialEq, Eq)]
pub struct Amounts {
    pub added: u32,
    pub taken: u32,
}

impl Lattice for Amounts {
    ghost Plain = { Amounts };

    ghost plain = { λ amounts. amounts };

    ghost is_value = { AreAmounts };

    ghost fits = { λ _ _. ⊤ };

    ghost joined = { joined_amounts };

    fn attest(&self) {
        let (_added, _taken) = (self.added, self.taken);
    }

    fn join(&mut self, other: &Amounts) -> Result<(), NoMemory> {
        self.added = self.added.max(other.added);
        self.taken = self.taken.max(other.taken);
        Ok(())
    }

    fn copy(&self) -> Result<Amounts, NoMemory>
        ensures { MatchResult result (λ copy. copy ≡ self.now) (λ _. ⊥) }
    {
        Ok(*self)
    }

    fn at_most(&self, other: &Amounts) -> bool {
        self.added <= other.added && self.taken <= other.taken
    }

    ghost laws = { amounts_laws };

    ghost associative = { amounts_associative };
}

impl AllFit for Amounts {
    ghost all_fit = { λ _ _. tt };
}
