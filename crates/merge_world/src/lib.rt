//! The protocol of the store alone: workers that share keys, each with a private map, and gossip that
//! comes in any order, late, or again (Wu, Faleiro, Lin, Hellerstein 2018).
//!
//! One replica of a key takes a put, its home; workers tell each other what they took themselves, and
//! what a worker hears is joined into its replica. [`run_world`] carries the promise: after every list
//! of events each cell is sound for the puts that were taken, and once the world is settled all
//! replicas of each key are equal. `specs/Effects.antt` has what a put, a message told and a message
//! heard do to a private map; `specs/World.antt` has the events, and what it is to be settled.
#![tactic(auto)]

mod event;
mod private_map;
mod run;
mod world;

pub use composed_value::Cell;
pub use event::Event;
pub use private_map::{KeyCells, PrivateMap};
pub use run::run_world;
pub use world::{Took, World};
