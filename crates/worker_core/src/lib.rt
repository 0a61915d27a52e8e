//! A worker of the store.
#![tactic(auto)]

mod boxes;
mod did;
mod local;
mod mates;
mod plain;
mod popped;
mod sealed;
mod serve;
mod worker;

pub use did::Did;
pub use popped::Popped;
pub use sealed::{Sealed, SealedOver};
pub use worker::{Worker, WorkerOver};
