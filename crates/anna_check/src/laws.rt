//! That a report has one verdict, as a law: the function does nothing and carries it.
ghost use Rattle.anna_check.specs.Unlawful.{VerdictsAreSingle};

/// A report has one verdict: where it is legal no place is named, and else one.
pub fn reports_have_one_verdict()
    ensures { VerdictsAreSingle }
{}
