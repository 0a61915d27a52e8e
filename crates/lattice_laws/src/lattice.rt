//! What a lattice is, and the one way in which a merge can fail.
ghost use Rattle.std.specs.Prelude.{◌≡◌, ◌↔◌, IsTrue, OnOk, OnErr, IfOk};
ghost use Rattle.lattice_laws.specs.Lattice.{LatticeLaws, Associative};

use std::alloc::{AllocError, AllocFailed};
use std::fmt;

/// Memory ran out. It is the one answer that no call can rule out: no contract says that there is
/// memory. The call that answers it has changed nothing that it says nothing of.
#[derive(Clone, Copy, Debug, PartialEq, Eq)]
pub struct NoMemory;

impl fmt::Display for NoMemory {
    fn fmt<W: fmt::Write>(&self, f: &mut fmt::Formatter<W>) -> fmt::Result {
        write!(f, "out of memory")
    }
}

impl std::error::Error for NoMemory {}

impl From<AllocError> for NoMemory {
    fn from(_error: AllocError) -> NoMemory {
        NoMemory
    }
}

impl<T: Drop> From<AllocFailed<T>> for NoMemory {
    fn from(_error: AllocFailed<T>) -> NoMemory {
        NoMemory
    }
}

/// An element of a join semilattice.
///
/// Contracts see an element as its plain value, `plain`: data without allocators, capacities and
/// pointers, and one for each meaning, so that two elements mean the same exactly where their plain
/// values are equal. `joined` is the join of two plain values; `fits` says which of them merge with
/// one another, and `is_value` which plain values an element of the type can have (a `u64` is a
/// number below 2^64).
pub trait Lattice: Sized + Drop {
    ghost Plain: { Type 0 };

    ghost plain: { Self → Plain };

    ghost is_value: { Plain → Type 0 };

    ghost fits: { Plain → Plain → Type 0 };

    ghost joined: { Plain → Plain → Plain };

    /// Attests that the element's plain value is a value of the type, which the laws have as their
    /// premise. Does nothing when it runs.
    fn attest(&self)
        ensures { is_value (plain self.now) };

    /// Merges the other element into this one. After `NoMemory` this one is as before.
    fn join(&mut self, other: &Self) -> Result<(), NoMemory>
        requires { fits (plain self.old) (plain other.now) }
        ensures ok { OnOk result (plain self.new ≡ joined (plain self.old) (plain other.now)) }
        ensures err { OnErr result (plain self.new ≡ plain self.old) };

    /// The join of the two elements, as a new one.
    fn merged(&self, other: &Self) -> Result<Self, NoMemory>
        requires { fits (plain self.now) (plain other.now) }
        ensures { IfOk result (λ both. plain both
            ≡ joined (plain self.now) (plain other.now)) }
    {
        let mut both = self.copy()?;
        both.join(other)?;
        Ok(both)
    }

    /// An equal element.
    fn copy(&self) -> Result<Self, NoMemory>
        ensures { IfOk result (λ copy. plain copy ≡ plain self.now) };

    /// Whether the other element holds all that this one holds: merging this one into it would
    /// change nothing. Takes no memory.
    fn at_most(&self, other: &Self) -> bool
        requires { fits (plain self.now) (plain other.now) }
        ensures { IsTrue result ↔ (joined (plain self.now) (plain other.now) ≡ plain other.now) };

    /// `fits` is an equivalence among the values, the join of two values that fit is a value that
    /// fits both, and the join is commutative and idempotent.
    ghost laws: { LatticeLaws is_value fits joined };

    /// How merges are grouped does not matter: a with b and then with c is a with what b and c
    /// merge to.
    ghost associative: { Associative is_value fits joined };
}

/// A lattice whose elements all merge with one another.
pub trait AllFit: Lattice {
    ghost all_fit: { (a b : Self.Plain) → Self.fits a b };
}
