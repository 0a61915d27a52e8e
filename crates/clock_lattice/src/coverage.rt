//! What covering keeps to.
ghost use Rattle.std.specs.Prelude.{◌≡◌, ◌↔◌, ◌≤◌, ℕ, max, List, IsTrue};
ghost use Rattle.clock_lattice.specs.Clock.{IsClock, count_of, joined_clocks, covers};
ghost use Rattle.clock_lattice.specs.Needs.{IsNeeds, clock_at, joined_needs, covers_needs};
ghost use Rattle.clock_lattice.specs.Coverage.{CoverageLaws};

/// Clocks are told by their counts: a join has of each session the greater count, and one clock
/// covers another exactly where each of its counts is at least the other's. So covering is the order
/// of the lattice turned round.
pub fn clocks_cover()
    ensures join { (session : ℕ) (a b : List (ℕ × ℕ)) → IsClock a → IsClock b
        → count_of session (joined_clocks a b) ≡ max (count_of session a) (count_of session b) }
    ensures each { (a b : List (ℕ × ℕ)) → IsClock b
        → IsTrue (covers a b) ↔ ((session : ℕ) → count_of session b ≤ count_of session a) }
    ensures laws { CoverageLaws IsClock joined_clocks covers }
{}

/// Needs are told by their clocks: a join has at each key the join of the two clocks, and one covers
/// another exactly where it does at each key. So covering is the order of the lattice turned round.
pub fn needs_cover()
    ensures join { (key : ℕ) (a b : List (ℕ × List (ℕ × ℕ))) → IsNeeds a → IsNeeds b
        → clock_at key (joined_needs a b) ≡ joined_clocks (clock_at key a) (clock_at key b) }
    ensures each { (a b : List (ℕ × List (ℕ × ℕ))) → IsNeeds b
        → IsTrue (covers_needs a b)
        ↔ ((key : ℕ) → IsTrue (covers (clock_at key a) (clock_at key b))) }
    ensures laws { CoverageLaws IsNeeds joined_needs covers_needs }
{}
