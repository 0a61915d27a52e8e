//! What holds of antichains in any order.
ghost use Rattle.std.specs.Prelude.{Bool, ⊤};
ghost use Rattle.std.specs.Cmp.{IsTotalOrder};
ghost use Rattle.std.specs.FinMap.{IsAntisymmetric};
ghost use Rattle.std.specs.declared.cmp.Ordering.{Ordering};
ghost use Rattle.version_antichain.specs.Antichain.{IsStrictOrder, MaximalOfMaximal};

/// In any strict partial order: the maximal members of the maximal members of one set and of another
/// set are those of both sets, whatever the members are, and whichever total order lists them.
pub fn maximal_of_maximal_in_any_order<E>()
    ensures { (cmp : E → E → Ordering) (below : E → E → Bool)
        → IsTotalOrder cmp → IsAntisymmetric cmp → IsStrictOrder below
        → MaximalOfMaximal cmp (λ _. ⊤) below }
{}
