//! What a cell's value is: kinds, puts, and the cell that is the product of four lattices.
//!
//! A session makes a [`Put`]; its [`Payload`] is of the [`Kind`] of its key. The [`Cell`] of a key has
//! four parts, each a lattice of its own: which puts it counts, their causal dependencies, the greatest
//! Lamport number, and the [`Value`]. [`Cell::of_put`] is the cell of one put; cells merge
//! part by part, and so do the updates that replicas exchange (values composed from small lattices,
//! Wu, Faleiro, Lin, Hellerstein 2018).
//!
//! What a cell means is said of the whole list of puts that its clock counts, never of one put after
//! another: `specs/PlainValue.antt` has the plain value of a list of puts, kind by kind, and
//! `specs/Sound.antt` when a cell is sound for the puts that were accepted. [`cells_hold_their_puts`],
//! [`cells_are_single`] and [`sound_cells_stay_sound`] carry the laws that the layers above stand on;
//! [`counters_and_sets_say_their_puts`] says of two kinds what a user can count on;
//! `specs/Cell.antt` has the one word, `cell_of`, for the join of the one-put cells of a list.
#![tactic(auto)]

mod cell;
mod kind;
mod laws;
mod payload;
mod put;
mod value;

pub use cell::Cell;
pub use kind::Kind;
pub use laws::{
    cells_are_single, cells_hold_their_puts, counters_and_sets_say_their_puts,
    sound_cells_stay_sound,
};
pub use payload::Payload;
pub use put::Put;
pub use value::Value;
