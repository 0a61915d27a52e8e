//! Accepted puts, and what they depend on.
ghost use Rattle.run_ledger.specs.Causality.{AreCausal};
ghost use Rattle.worked_laws.specs.Puts as puts;
ghost use Rattle.worked_laws.specs.Puts.{AreNotCausal};

/// In the worked puts of `specs/Puts.antt` what each put depends on was accepted, bears a smaller Lamport
/// number, and depends on no more.
pub fn worked_puts_are_causal()
    ensures { AreCausal puts.worked_puts }
{}

/// In the changed puts of `specs/Puts.antt` that is not so; each clause is named for what was changed.
pub fn changed_puts_are_not_causal()
    ensures need_of_a_put_not_there { AreNotCausal puts.need_of_a_put_not_there }
    ensures need_on_another_key { AreNotCausal puts.need_on_another_key }
    ensures need_at_the_same_lamport { AreNotCausal puts.need_at_the_same_lamport }
    ensures need_at_a_greater_lamport { AreNotCausal puts.need_at_a_greater_lamport }
    ensures needs_of_each_other { AreNotCausal puts.needs_of_each_other }
    ensures need_not_covered { AreNotCausal puts.need_not_covered }
{}
