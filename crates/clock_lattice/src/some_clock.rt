//! A clock that counts something.
ghost use Rattle.std.specs.Prelude.{◌≡◌, ◌<◌, List, ℕ, length, ⊤};
ghost use Rattle.clock_lattice.specs.Clock.{joined_clocks};
ghost use Rattle.clock_lattice.specs.Needs.{IsSomeClock};
ghost use Rattle.clock_lattice.specs.NeedsLaws.{some_clock_laws, some_clock_associative};

use crate::Clock;
use lattice_laws::{AllFit, Lattice, NoMemory};
use std::marker::Model;

/// A clock that counts something: what a map of clocks has at a key, where one that counts nothing is not kept.
/// Contracts see the clock.
#[derive(Debug, Drop)]
pub struct SomeClock {
    clock: Clock,
}

impl Model for SomeClock {
    ghost use Rattle.std.specs.Prelude.{List, ℕ};
    ghost use Rattle.clock_lattice.specs.Needs.{IsSomeClock};

    ghost Value = { List (ℕ × ℕ) };

    ghost view = { λ some. some.clock };

    ghost invariant = { λ some. IsSomeClock some.clock };
}

impl SomeClock {
    /// The clock, which counts something.
    pub fn of(clock: Clock) -> SomeClock
        requires { 0 < length clock }
        ensures value { result ≡ clock }
        ensures some { IsSomeClock result }
    {
        clock.attest();
        SomeClock { clock }
    }

    /// The clock. Takes no memory.
    pub fn clock(&self) -> &Clock
        ensures value { result.now ≡ self.now }
        ensures some { IsSomeClock result.now }
    {
        &self.clock
    }
}

impl Lattice for SomeClock {
    ghost Plain = { List (ℕ × ℕ) };

    ghost plain = { λ clock. clock };

    ghost is_value = { IsSomeClock };

    ghost fits = { λ _ _. ⊤ };

    ghost joined = { joined_clocks };

    fn attest(&self) {
        let _clock = &self.clock;
    }

    fn join(&mut self, other: &SomeClock) -> Result<(), NoMemory> {
        self.clock.join(&other.clock)
    }

    fn merged(&self, other: &SomeClock) -> Result<SomeClock, NoMemory> {
        Ok(SomeClock {
            clock: self.clock.joined(&other.clock)?,
        })
    }

    fn copy(&self) -> Result<SomeClock, NoMemory> {
        Ok(SomeClock {
            clock: self.clock.copy()?,
        })
    }

    fn at_most(&self, other: &SomeClock) -> bool {
        self.clock.at_most(&other.clock)
    }

    ghost laws = { some_clock_laws };

    ghost associative = { some_clock_associative };
}

impl AllFit for SomeClock {
    ghost all_fit = { λ _ _. tt };
}
