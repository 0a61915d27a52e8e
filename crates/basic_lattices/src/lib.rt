//! The plain lattices from which values are composed, one file each.
//!
//! Each is a [`lattice_laws::Lattice`] whose plain value says all that it means: [`MaxNum`] is seen
//! as its number, [`Flag`] as its truth value, [`SetOf`] as its members and [`MapOf`] as its
//! entries in order, [`Stamped`] as its fields. All are [`lattice_laws::AllFit`]. A [`Word`] is what sets,
//! fields and registers hold; it is no lattice, and a [`MapKey`]. The module [`paper_pair`] has what
//! goes wrong where a join is commutative and idempotent, and not associative.
#![tactic(auto)]

mod flag;
mod map_of;
mod max_num;
pub mod paper_pair;
mod set_of;
mod stamped;
mod word;

pub use flag::Flag;
pub use lattice_laws::MapKey;
pub use map_of::{FieldMax, MapIter, MapOf, maps_join_per_key};
pub use max_num::MaxNum;
pub use set_of::{SetIter, SetOf, TextSet, union_is_pointwise};
pub use stamped::Stamped;
pub use word::{Word, WordFault};
