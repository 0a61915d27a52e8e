//! How a party that takes several steps in a row goes about it.
ghost use Rattle.std.specs.Prelude.{◌≡◌, ℕ};
ghost use Rattle.parties.specs.Pace.{RoseAtMost};

/// A way to take several steps in a row. Contracts see how many steps it counts, and no more.
pub trait Pace {
    // How many steps it counts.
    ghost steps: { Self → ℕ };

    /// Is called before each step, and counts it.
    fn begin(&mut self)
        ensures { RoseAtMost 1 (steps self.old) (steps self.new) };

    /// Is called where a step found nothing to do, and answers whether the party is to try again.
    fn tries_again(&mut self) -> bool
        ensures { steps self.new ≡ steps self.old };
}

/// Steps are taken until one finds nothing to do. None is counted.
#[derive(Drop)]
pub struct UntilNothing;

impl Pace for UntilNothing {
    ghost steps = { λ _. 0 };

    fn begin(&mut self) {}

    fn tries_again(&mut self) -> bool {
        false
    }
}
