//! A flag that stays on.
ghost use Rattle.std.specs.Prelude.{◌≡◌, Bool, ◌||◌, MatchResult, OnOk, OnErr, ⊤};
ghost use Rattle.basic_lattices.specs.FlagLaws.{or_laws, or_associative};

use lattice_laws::{AllFit, Lattice, NoMemory};
use std::marker::Model;

/// Whether it was ever put on. A merge is on where either is, and takes no memory.
#[derive(Clone, Copy, Debug, PartialEq, Eq)]
pub struct Flag(pub bool);

impl Model for Flag {
    ghost Value = { Bool };

    ghost view = { λ flag. flag.0 };

    ghost inverse = { λ b. record { 0 = b } };
}

impl Lattice for Flag {
    ghost Plain = { Bool };

    ghost plain = { λ flag. flag };

    ghost is_value = { λ _. ⊤ };

    ghost fits = { λ _ _. ⊤ };

    ghost joined = { ◌||◌ };

    fn attest(&self) {}

    fn join(&mut self, other: &Flag) -> Result<(), NoMemory>
        ensures ok { OnOk result (self.new ≡ (self.old || other.now)) }
        ensures err { OnErr result ⊥ }
    {
        self.0 = self.0 || other.0;
        Ok(())
    }

    fn copy(&self) -> Result<Flag, NoMemory>
        ensures { MatchResult result (λ copy. copy ≡ self.now) (λ _. ⊥) }
    {
        Ok(*self)
    }

    fn at_most(&self, other: &Flag) -> bool {
        !self.0 || other.0
    }

    ghost laws = { or_laws };

    ghost associative = { or_associative };
}

impl AllFit for Flag {
    ghost all_fit = { λ _ _. tt };
}
