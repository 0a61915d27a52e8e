//! What may be the key of a map.
ghost use Rattle.std.specs.Prelude.{◌≡◌, ◌<◌, ◌^◌, IfOk, MatchResult};
ghost use Rattle.std.specs.declared.cmp.Ordering.TheVariants.{Equal};
ghost use Rattle.std.specs.FinMap.{nat_cmp-IsAntisymmetric};

use crate::NoMemory;

/// What may be the key of a map: values in a total order in which only equal keys tie.
pub trait MapKey: Ord + Sized + Drop {
    /// Which values a key of the type can have (a `u16` is a number below 2^16).
    ghost is_key: { Self → Type 0 };

    /// Attests that the key is one that there can be. Does nothing when it runs.
    fn attest(&self)
        ensures { is_key self.now };

    /// An equal key.
    fn copy(&self) -> Result<Self, NoMemory>
        ensures { IfOk result (λ copy. copy ≡ self.now) };

    /// Keys that tie are equal.
    ghost exact: { (x y : Self) → Self.cmp x y ≡ Equal → x ≡ y };
}

impl MapKey for u16 {
    ghost is_key = { λ n. n < 2 ^ 16 };

    fn attest(&self) {
        let _value = *self;
    }

    fn copy(&self) -> Result<u16, NoMemory>
        ensures { MatchResult result (λ copy. copy ≡ self.now) (λ _. ⊥) }
    {
        Ok(*self)
    }

    ghost exact = { nat_cmp-IsAntisymmetric };
}
