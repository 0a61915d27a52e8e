//! Registers that concurrent sessions write: every version that no other has seen, and no other.
//!
//! A [`Version`] is a word with the clock under which it was written. One whose clock is strictly
//! below another's was seen by whoever wrote that one, and is overtaken; versions of which neither
//! had seen the other stay side by side (a multi-value register: DeCandia et al. 2007; Shapiro,
//! Preguiça, Baquero, Zawirski 2011). [`Versions`] is the antichain of those that were not overtaken,
//! and its merge keeps the maximal versions of both. It is the cure for the pair of a clock and a
//! value whose merges part from their order (`basic_lattices::paper_pair`).
//!
//! The laws hold for antichains in any strict partial order (`specs/AntichainLaws.antt`): the maximal
//! members of the maximal members of one set and of another set are those of both sets, which
//! [`maximal_of_maximal_in_any_order`] carries, and [`maximal_of_maximal`] for versions. Contracts see
//! versions as a list in order; the crate offers the words of `specs/Version.antt` and
//! `specs/Versions.antt` to the layers above.
#![tactic(auto)]

mod antichain;
mod version;
mod versions;

pub use antichain::maximal_of_maximal_in_any_order;
pub use version::Version;
pub use versions::{Versions, VersionsIter, maximal_of_maximal};
