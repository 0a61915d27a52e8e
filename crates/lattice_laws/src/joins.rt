//! The join of a list of elements, and what it depends on.
ghost use Rattle.std.specs.Prelude.{◌≡◌, ◌∷◌, map, All, IfOk, OnOk};
ghost use Rattle.lattice_laws.specs.Joins.{joined_all, ByMembersAlone};

use crate::{Lattice, NoMemory};

/// The join of an element and others, from the left. All must fit.
pub fn join_all<L: Lattice>(first: &L, rest: &[L]) -> Result<L, NoMemory>
    requires { All (λ each. L.fits (L.plain first.now) (L.plain each)) rest.now }
    ensures joined { IfOk result
        (λ all. L.plain all ≡ joined_all L.joined (L.plain first.now) (map L.plain rest.now)) }
    ensures values { OnOk result (All L.is_value (L.plain first.now ∷ map L.plain rest.now)) }
{
    first.attest();
    let mut all = first.copy()?;
    for each in rest {
        each.attest();
        all.join(each)?;
    }
    Ok(all)
}

/// A join of a list depends on its members alone: on which elements it merges, and neither on their
/// order nor on how often each comes. Of how they are grouped the law `associative` speaks.
pub fn joins_by_members_alone<L: Lattice>()
    ensures { ByMembersAlone L.is_value L.fits L.joined }
{}
