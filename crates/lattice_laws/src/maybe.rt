//! A lattice with a bottom added.
ghost use Rattle.std.specs.Prelude.{Option, ⊤};
ghost use Rattle.lattice_laws.specs.Maybe.{plain_of, IsValue, joined_by};
ghost use Rattle.lattice_laws.specs.MaybeLaws.{maybe_laws, maybe_associative};

use crate::{AllFit, Lattice, NoMemory};

/// Nothing yet, or an element of the lattice `L`. `Bottom` merged with x is x.
#[derive(Debug, Drop)]
pub enum Maybe<L> {
    /// Below every element.
    Bottom,
    /// This element.
    Is(L),
}

impl<L: AllFit> Lattice for Maybe<L> {
    ghost Plain = { Option L.Plain };

    ghost plain = { plain_of L.plain };

    ghost is_value = { IsValue L.is_value };

    ghost fits = { λ _ _. ⊤ };

    ghost joined = { joined_by L.joined };

    fn attest(&self) {
        match self {
            Maybe::Bottom => {}
            Maybe::Is(value) => value.attest(),
        }
    }

    fn join(&mut self, other: &Self) -> Result<(), NoMemory> {
        let Maybe::Is(theirs) = other else {
            return Ok(());
        };
        match self {
            Maybe::Is(mine) => mine.join(theirs),
            Maybe::Bottom => {
                *self = Maybe::Is(theirs.copy()?);
                Ok(())
            }
        }
    }

    fn copy(&self) -> Result<Self, NoMemory> {
        match self {
            Maybe::Bottom => Ok(Maybe::Bottom),
            Maybe::Is(value) => Ok(Maybe::Is(value.copy()?)),
        }
    }

    fn at_most(&self, other: &Self) -> bool {
        match (self, other) {
            (Maybe::Bottom, _) => true,
            (Maybe::Is(mine), Maybe::Is(theirs)) => mine.at_most(theirs),
            (Maybe::Is(_), Maybe::Bottom) => false,
        }
    }

    ghost laws = { maybe_laws L.laws L.all_fit };

    ghost associative = { maybe_associative L.joined L.associative L.all_fit };
}

impl<L: AllFit> AllFit for Maybe<L> {
    ghost all_fit = { λ _ _. tt };
}
