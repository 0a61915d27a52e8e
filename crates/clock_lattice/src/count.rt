//! A count that is not zero.
ghost use Rattle.std.specs.Prelude.{◌≡◌, ◌<◌, ℕ, max, ⊤};
ghost use Rattle.lattice_laws.specs.GreatestLaws.{max_laws, max_associative};
ghost use Rattle.clock_lattice.specs.Clock.{IsCount};

use lattice_laws::{AllFit, Lattice, NoMemory};
use std::marker::Model;

/// How many puts of a session are counted, at least one. A merge keeps the greater of two.
#[derive(Clone, Copy, Debug, PartialEq, Eq, PartialOrd, Ord)]
pub(crate) struct Count {
    number: u64,
}

impl Model for Count {
    ghost use Rattle.std.specs.Prelude.{ℕ, ◌<◌};

    ghost Value = { ℕ };

    ghost view = { λ count. count.number };

    ghost invariant = { λ count. 0 < count.number };

    ghost inverse = { λ n. record { number = n } };
}

impl Count {
    pub(crate) fn of(number: u64) -> Count
        requires { 0 < number }
        ensures { result ≡ number }
    {
        Count { number }
    }

    pub(crate) fn number(self) -> u64
        ensures { result ≡ self }
    {
        self.number
    }
}

impl Lattice for Count {
    ghost Plain = { ℕ };

    ghost plain = { λ count. count };

    ghost is_value = { IsCount };

    ghost fits = { λ _ _. ⊤ };

    ghost joined = { max };

    fn attest(&self) {
        let _number = self.number;
    }

    fn join(&mut self, other: &Count) -> Result<(), NoMemory> {
        self.number = self.number.max(other.number);
        Ok(())
    }

    fn copy(&self) -> Result<Count, NoMemory> {
        Ok(*self)
    }

    fn at_most(&self, other: &Count) -> bool {
        self.number <= other.number
    }

    ghost laws = { max_laws IsCount };

    ghost associative = { max_associative IsCount };
}

impl AllFit for Count {
    ghost all_fit = { λ _ _. tt };
}
