//! A word with the clock under which it was written.
ghost use Rattle.std.specs.Prelude.{◌≡◌, IfOk};

use basic_lattices::Word;
use clock_lattice::Clock;
use lattice_laws::{Lattice, MapKey, NoMemory};

/// A word with the clock under which it was written: what its writer had seen of the key, the write
/// itself included. Ordered by the clock's list of (session, count), then by the word.
#[derive(Debug, Drop, PartialEq, Eq, PartialOrd, Ord)]
pub struct Version {
    pub clock: Clock,
    pub word: Word,
}

impl MapKey for Version {
    ghost use Rattle.version_antichain.specs.Version.{IsVersion};
    ghost use Rattle.version_antichain.specs.VersionLaws.{version_exact};

    ghost is_key = { IsVersion };

    fn attest(&self) {
        self.clock.attest();
        self.word.attest();
    }

    fn copy(&self) -> Result<Version, NoMemory>
        ensures { IfOk result (λ copy. copy ≡ self.now) }
    {
        Ok(Version {
            clock: self.clock.copy()?,
            word: self.word.copy()?,
        })
    }

    ghost exact = { version_exact };
}
