//! A causal pair that looks like a lattice and is none.
ghost use Rattle.std.specs.Prelude.{◌≡◌, ◌↔◌, [], ◌∷◌, IfOk};
ghost use Rattle.basic_lattices.specs.Word.{IsWord};
ghost use Rattle.basic_lattices.specs.PaperPair.{PlainPair, IsPair, IsBelow, IsPaperJoin, PartFromOrder, both_joined};
ghost use Rattle.basic_lattices.specs.SeenPair.{seen};

use crate::{MapOf, MaxNum, TextSet, Word};
use lattice_laws::{Lattice, NoMemory};
use std::alloc::Global;

/// A causal pair in this project's own wording (no statement about Anna): a vector clock and a set
/// of words. It is no lattice: its join is commutative and idempotent, and not associative, so
/// replicas may part although every merge has both laws.
#[derive(Debug, Drop)]
pub struct PaperPair {
    /// How many writes of each session it has seen.
    pub clock: MapOf<u16, MaxNum>,
    /// The words that were written.
    pub words: TextSet,
}

impl PaperPair {
    // The pair of one write: the count of its session, and its word.
    fn of_write(
        alloc: Global,
        session: u16,
        count: u64,
        bytes: &[u8],
    ) -> Result<PaperPair, NoMemory>
        requires { IsWord bytes.now }
        ensures { IfOk result (λ pair. seen pair
            ≡ record { clock = (session, count) ∷ []; words = bytes.now ∷ [] }) }
    {
        let Ok(word) = Word::of(bytes) else {
            unreachable!()
        };
        let mut clock = MapOf::new(alloc);
        clock.raise(session, MaxNum(count))?;
        let mut words = TextSet::new(alloc);
        words.insert(word)?;
        Ok(PaperPair { clock, words })
    }

    // An equal pair.
    fn copy(&self) -> Result<PaperPair, NoMemory>
        ensures { IfOk result (λ copy. seen copy ≡ seen self.now) }
    {
        Ok(PaperPair {
            clock: self.clock.copy()?,
            words: self.words.copy()?,
        })
    }

    // The pair with both halves joined.
    fn join_halves(&self, other: &PaperPair) -> Result<PaperPair, NoMemory>
        ensures { IfOk result (λ both. seen both ≡ both_joined (seen self.now) (seen other.now)) }
    {
        let mut both = self.copy()?;
        both.clock.join(&other.clock)?;
        both.words.join(&other.words)?;
        Ok(both)
    }
}

/// The join of two pairs: the one with the strictly greater clock wins, and where neither clock is
/// the greater both halves are joined.
pub fn paper_join(a: &PaperPair, b: &PaperPair) -> Result<PaperPair, NoMemory>
    ensures join { IfOk result (λ c. IsPaperJoin (seen a.now) (seen b.now) (seen c)) }
    ensures second { IfOk result
        (λ c. IsBelow (seen a.now).clock (seen b.now).clock → seen c ≡ seen b.now) }
    ensures first { IfOk result
        (λ c. IsBelow (seen b.now).clock (seen a.now).clock → seen c ≡ seen a.now) }
    ensures both { IfOk result (λ c.
        (IsBelow (seen a.now).clock (seen b.now).clock → ⊥)
        → (IsBelow (seen b.now).clock (seen a.now).clock → ⊥)
        → seen c ≡ both_joined (seen a.now) (seen b.now)) }
{
    a.clock.attest();
    b.clock.attest();
    join_by_clocks(a, b)
}

// The join of two pairs, by cases on which clock is at most which.
fn join_by_clocks(a: &PaperPair, b: &PaperPair) -> Result<PaperPair, NoMemory>
    ensures { IfOk result (λ c. IsPaperJoin (seen a.now) (seen b.now) (seen c)) }
{
    a.clock.attest();
    b.clock.attest();
    let a_is_at_most = a.clock.at_most(&b.clock);
    let b_is_at_most = b.clock.at_most(&a.clock);
    if a_is_at_most == b_is_at_most {
        a.join_halves(b)
    } else if a_is_at_most {
        b.copy()
    } else {
        a.copy()
    }
}

/// Three pairs joined in two orders, to pairs that differ: one replica keeps a word that the other
/// has lost.
pub fn parts_from_order(alloc: Global) -> Result<(PaperPair, PaperPair), NoMemory>
    ensures { IfOk result (λ parts. PartFromOrder (seen parts.0) (seen parts.1)) }
{
    let first = PaperPair::of_write(alloc, 1, 1, b"x")?;
    let second = PaperPair::of_write(alloc, 2, 1, b"y")?;
    let third = PaperPair::of_write(alloc, 1, 2, b"z")?;
    let first_second = paper_join(&first, &second)?;
    let first_third = paper_join(&first, &third)?;
    Ok((
        paper_join(&first_second, &third)?,
        paper_join(&first_third, &second)?,
    ))
}

/// The join of two pairs is one pair, and which of the two comes first does not matter.
pub fn paper_join_commutes()
    ensures turned { (a b c : PlainPair) → IsPair a → IsPair b
        → IsPaperJoin a b c → IsPaperJoin b a c }
    ensures single { (a b c d : PlainPair) → IsPair a → IsPair b
        → IsPaperJoin a b c → IsPaperJoin a b d → c ≡ d }
{}

/// A pair joined with itself is the pair.
pub fn paper_join_is_idempotent()
    ensures { (a c : PlainPair) → IsPair a → IsPaperJoin a a c ↔ (c ≡ a) }
{}
