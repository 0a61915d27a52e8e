//! The queue that both ends share.

use crate::rule::{Mailbox, View};
use crossbeam_queue::RuledSegQueue;

/// The queue that both ends share.
pub struct Line<M: Drop> {
    pub(crate) queue: RuledSegQueue<(u16, M), View<M>, Mailbox>,
}

impl<M: Drop> Drop for Line<M> {
    fn drop(self) {
        let Line { queue } = self;
        queue.destroy();
    }
}
