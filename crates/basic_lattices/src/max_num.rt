//! The greatest number seen.
ghost use Rattle.std.specs.Prelude.{◌≡◌, ◌<◌, ◌^◌, ℕ, max, MatchResult, OnOk, OnErr, ⊤};
ghost use Rattle.lattice_laws.specs.GreatestLaws.{max_laws, max_associative};

use lattice_laws::{AllFit, Lattice, NoMemory};
use std::marker::Model;

/// The greatest number that was put, from 0 to 18,446,744,073,709,551,615. A merge keeps the
/// greater of two, and takes no memory. Contracts see the number.
#[derive(Clone, Copy, Debug, PartialEq, Eq)]
pub struct MaxNum(pub u64);

impl Model for MaxNum {
    ghost Value = { ℕ };

    ghost view = { λ number. number.0 };

    ghost inverse = { λ n. record { 0 = n } };
}

impl Lattice for MaxNum {
    ghost Plain = { ℕ };

    ghost plain = { λ number. number };

    ghost is_value = { λ n. n < 2 ^ 64 };

    ghost fits = { λ _ _. ⊤ };

    ghost joined = { max };

    fn attest(&self) {
        let _value = self.0;
    }

    fn join(&mut self, other: &MaxNum) -> Result<(), NoMemory>
        ensures ok { OnOk result (self.new ≡ max self.old other.now) }
        ensures err { OnErr result ⊥ }
    {
        self.0 = self.0.max(other.0);
        Ok(())
    }

    fn copy(&self) -> Result<MaxNum, NoMemory>
        ensures { MatchResult result (λ copy. copy ≡ self.now) (λ _. ⊥) }
    {
        Ok(*self)
    }

    fn at_most(&self, other: &MaxNum) -> bool {
        self.0 <= other.0
    }

    ghost laws = { max_laws (λ n. n < 2 ^ 64) };

    ghost associative = { max_associative (λ n. n < 2 ^ 64) };
}

impl AllFit for MaxNum {
    ghost all_fit = { λ _ _. tt };
}
