//! The one idea that everything above rests on: values that merge.
//!
//! A value of the store is an element of a join semilattice. Replicas merge the values that they
//! have, and because a merge is commutative, idempotent and associative, which replica begins, how
//! updates are grouped and how often the same one comes do not matter (Shapiro, Preguiça, Baquero,
//! Zawirski 2011; Wu, Faleiro, Lin, Hellerstein 2018).
//!
//! [`Lattice`] says what a merge is and which laws it keeps. [`AllFit`] marks the lattices whose
//! values all merge with one another, and [`Maybe`] adds a bottom to such a lattice. [`join_all`]
//! joins a list, and [`joins_by_members_alone`] says that neither order nor repetition changes what
//! comes out. [`entries`] has maps from a [`MapKey`] to such values, joined key by key in one pass; a
//! map to [`Member`] is a set. [`Items`] is the list type of all fields that contracts see as lists,
//! [`Shared`] a list that copies share, in which maps and clocks keep their entries, and [`Spelled`]
//! what names and words have in common.
//!
//! This crate stands on no other; it offers the words of `specs/` to the layers above: what a lattice
//! is (`Lattice.antt`), joins of lists (`Joins.antt`), maps (`Entries.antt`), sets (`Sets.antt`), the
//! greatest of a list (`Greatest.antt`) and what bytes spell (`Spelling.antt`). The laws of each stand
//! beside it (`EntriesLaws.antt` and so on), and lemmas that layers above cite too in `proofs/`: on
//! entries, sets, joins of lists, the greatest of lists, and membership.
#![tactic(auto)]

pub mod entries;
mod items;
mod joins;
mod lattice;
mod map_key;
mod maybe;
mod member;
mod shared;
mod spelling;

pub use items::Items;
pub use joins::{join_all, joins_by_members_alone};
pub use lattice::{AllFit, Lattice, NoMemory};
pub use map_key::MapKey;
pub use maybe::Maybe;
pub use member::Member;
pub use shared::Shared;
pub use spelling::{Misspelled, Spelled, test_spelling};
