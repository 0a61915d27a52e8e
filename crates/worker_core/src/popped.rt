//! A message that was popped.

use store_msg::{Batch, Request};

/// A message that was popped and is to be worked on, with the number of its sender.
#[derive(Debug, Drop)]
pub enum Popped {
    Request(u16, Request),
    Batch(u16, Batch),
}
