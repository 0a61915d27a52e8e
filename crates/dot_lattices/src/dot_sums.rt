//! Counters.
ghost use Rattle.std.specs.Prelude.{◌≡◌, ◌↔◌, ◌≤◌, [], length, slice_get, IfOk, IsTrue, OnErr, List, ⊤};
ghost use Rattle.std.specs.Option.{option_map};
ghost use Rattle.lattice_laws.specs.Entries.{IsPushed};
ghost use Rattle.dot_lattices.specs.DotSums.{IsDotSums, joined_sums, one_sum, sum_told, total_of};
ghost use Rattle.dot_lattices.specs.DotSumsLaws.{sums_laws, sums_associative};
ghost use Rattle.dot_lattices.specs.declared.amounts.Amounts.{Amounts};
ghost use Rattle.dot_lattices.specs.declared.dot.Dot.{Dot};

use crate::{Amounts, Dot};
use basic_lattices::MapOf;
use lattice_laws::{AllFit, Lattice, NoMemory};
use std::alloc::Global;
use std::marker::Model;

/// A counter: for each dot what was added and what was taken there. A merge keeps at each dot the
/// greater of each. Contracts see the entries in the order of the dots.
#[derive(Debug, Drop)]
pub struct DotSums {
    sums: MapOf<Dot, Amounts>,
}

impl Model for DotSums {
    ghost use Rattle.std.specs.Prelude.{List};
    ghost use Rattle.lattice_laws.specs.Entries.{plain_entries};
    ghost use Rattle.dot_lattices.specs.declared.amounts.Amounts.{Amounts};
    ghost use Rattle.dot_lattices.specs.declared.dot.Dot.{Dot};

    ghost Value = { List (Dot × Amounts) };

    ghost view = { λ sums. plain_entries (λ amounts. amounts) sums.sums };
}

impl DotSums {
    /// The counter of no put. Takes no memory.
    pub fn new(alloc: Global) -> DotSums
        ensures { result ≡ [] }
    {
        DotSums {
            sums: MapOf::new(alloc),
        }
    }

    /// The counter of one put, which adds the amount, or where `plus` is false takes it.
    pub fn one(
        alloc: Global,
        session: u16,
        number: u64,
        plus: bool,
        amount: u32,
    ) -> Result<DotSums, NoMemory>
        ensures { IfOk result (λ sums. sums
            ≡ one_sum (record { session = session; number = number }) plus amount) }
    {
        let amounts = if plus {
            Amounts {
                added: amount,
                taken: 0,
            }
        } else {
            Amounts {
                added: 0,
                taken: amount,
            }
        };
        let mut sums = DotSums::new(alloc);
        sums.sums.raise(Dot { session, number }, amounts)?;
        Ok(sums)
    }

    /// Adds a dot with its amounts after the others, and answers whether it comes after them; else the
    /// counter is left as before, and after `NoMemory` too. Takes constant time on average.
    pub fn push(&mut self, dot: Dot, amounts: Amounts) -> Result<bool, NoMemory>
        ensures pushed { IfOk result (IsPushed IsDotSums self.old (dot, amounts) self.new) }
        ensures err { OnErr result (self.new ≡ self.old) }
    {
        self.sums.push(dot, amounts)
    }

    /// How many dots there are. Takes no memory.
    pub fn len(&self) -> usize
        ensures { result ≡ length self.now }
    {
        self.sums.len()
    }

    /// Whether there is no dot. Takes no memory.
    pub fn is_empty(&self) -> bool
        ensures { IsTrue result ↔ (self.now ≡ []) }
    {
        self.sums.is_empty()
    }

    /// The session, the number, and what was added and taken at place `i`, counted from 0 in the order
    /// of the dots, and nothing past the last. Takes no memory.
    pub fn at(&self, i: usize) -> Option<(u16, u64, u32, u32)>
        ensures { result ≡ option_map sum_told (slice_get self.now i) }
    {
        let (dot, amounts) = self.sums.at(i)?;
        Some((dot.session, dot.number, amounts.added, amounts.taken))
    }

    /// All that was added less all that was taken. Takes no memory.
    pub fn total(&self) -> i64
        requires { length self.now ≤ 4096 }
        ensures { result ≡ total_of self.now }
    {
        self.attest();
        let mut added = 0;
        let mut taken = 0;
        for i in 0..self.len() {
            let Some((_, _, more, less)) = self.at(i) else {
                unreachable!()
            };
            added += u64::from(more);
            taken += u64::from(less);
        }
        added as i64 - taken as i64
    }
}

impl Lattice for DotSums {
    ghost Plain = { List (Dot × Amounts) };

    ghost plain = { λ sums. sums };

    ghost is_value = { IsDotSums };

    ghost fits = { λ _ _. ⊤ };

    ghost joined = { joined_sums };

    fn attest(&self) {
        self.sums.attest();
    }

    fn join(&mut self, other: &DotSums) -> Result<(), NoMemory> {
        self.sums.join(&other.sums)
    }

    fn copy(&self) -> Result<DotSums, NoMemory> {
        Ok(DotSums {
            sums: self.sums.copy()?,
        })
    }

    fn at_most(&self, other: &DotSums) -> bool {
        self.sums.at_most(&other.sums)
    }

    ghost laws = { sums_laws };

    ghost associative = { sums_associative };
}

impl AllFit for DotSums {
    ghost all_fit = { λ _ _. tt };
}
