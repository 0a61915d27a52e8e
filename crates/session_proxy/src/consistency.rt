//! The level of consistency of a proxy, as a type.
ghost use Rattle.std.specs.Prelude.{◌≡◌};
ghost use Rattle.session_known.specs.declared.script.Level.{Level as Levels};

use session_known::Level;

/// What the sessions of a proxy are promised.
pub trait Consistency: Drop {
    ghost level: { Levels };

    /// The level. Takes no memory.
    fn level() -> Level
        ensures { result ≡ level };
}
