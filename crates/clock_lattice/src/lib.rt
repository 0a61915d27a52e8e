//! Vector clocks and causal dependencies.
//!
//! All that a session may claim to have seen is a [`Clock`] for each key: how many puts of each
//! session are counted (Mattern 1989; Fidge 1988; in Anna each is a map lattice whose values are
//! maxima, Wu, Faleiro, Lin, Hellerstein 2018). [`Needs`] has such a clock for each key on which
//! something depends.
//! Both are [`lattice_laws::AllFit`]: a merge keeps the greater count. Causality is their order turned
//! round: `covers` says that one has seen all that the other has.
//!
//! Contracts see a clock as its entries (session, count) in the order of the sessions, and needs as
//! their entries (key, clock) in the order of the keys; a count of zero and an empty clock are never
//! kept, so that equal meanings are equal values. The crate stands on `lattice_laws` alone. It offers
//! the words of `specs/Clock.antt` and `specs/Needs.antt` to the layers above, with the laws that
//! `specs/ClockLaws.antt` and `specs/NeedsLaws.antt` prove of them, and lemmas on both in `proofs/`;
//! what covering keeps to is said in `specs/Coverage.antt` and carried by [`clocks_cover`] and
//! [`needs_cover`].
#![tactic(auto)]

mod clock;
mod count;
mod coverage;
mod needs;
mod some_clock;

pub use clock::{Clock, ClockIter};
pub use coverage::{clocks_cover, needs_cover};
pub use needs::{Needs, NeedsIter};
pub use some_clock::SomeClock;
