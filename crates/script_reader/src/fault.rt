//! Why a text was not read.
ghost use Rattle.std.specs.Prelude.{◌≡◌};

use lattice_laws::NoMemory;

/// Why a text was not read as a script.
#[derive(Clone, Copy, Debug, PartialEq, Eq)]
pub enum ScriptFault {
    /// It is none: the first line at fault, counted from 1, or 0 for the whole text, and why.
    Refused { line: u32, code: u8 },
    /// There was no room for the script.
    NoMemory,
}

impl From<NoMemory> for ScriptFault {
    ghost use Rattle.script_reader.specs.declared.fault.ScriptFault.TheVariants as faults;

    ghost from_gives = { λ _ fault. fault ≡ faults.NoMemory };

    fn from(_error: NoMemory) -> ScriptFault {
        ScriptFault::NoMemory
    }
}
