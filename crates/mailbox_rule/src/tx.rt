//! The end of a sender over the queue.
ghost use Rattle.std.specs.Prelude.{◌≡◌, ℕ, ◌≤◌};
ghost use Rattle.std.proofs.Props.{props};
ghost use Rattle.crossbeam_queue.specs.SegTies.{IsSegPassOf};
ghost use Rattle.mailbox_rule.specs.Rule.{number_in};

use crate::line::Line;
use crate::rule::{Push, View};
use crossbeam_queue::SegPass;
use mail_contract::{Refused, Tx};
use std::alloc::Global;
use std::sync::{Arc, Wait};

/// The end of a sender over a queue that its box shares with all senders.
#[derive(Drop)]
pub struct QueueTx<M: Drop, R: Wait + Copy> {
    pub(crate) rt: R,
    pub(crate) line: Arc<Line<M>, Global>,
    pub(crate) number: u16,
    pub(crate) pass: SegPass<(u16, M), View<M>>,
    ghost of_line: { IsSegPassOf line.value.queue pass } by { Prim.hlevel props },
    ghost numbered: { (number_in pass.me.view.client ≡ number) × (1 ≤ number) },
}

impl<M: Drop, R: Wait + Copy> Tx<M> for QueueTx<M, R> {
    ghost use Rattle.std.specs.Prelude.{false, ⊤};
    ghost use Rattle.mailbox_rule.specs.Ends.{key_of};
    ghost use Rattle.mailbox_rule.specs.Rule.{sent_in};

    type Key = ((u64, u64), Global);

    ghost key = { λ tx. key_of tx.line.value.queue };

    ghost number = { λ tx. tx.number };

    ghost sent = { λ tx. sent_in tx.pass.me.view.client };

    ghost fulls = { λ _. 0 };

    ghost roomy = { false };

    ghost unseen = { λ _. 0 };

    ghost clear = { λ _. ⊤ };

    fn sender(&self) -> u16 {
        self.number
    }

    fn send(&mut self, message: M) -> Result<(), Refused<M>> {
        let numbered = (self.number, message);
        match self
            .line
            .queue
            .push_as::<Push, R>(&self.rt, &mut self.pass, numbered)
        {
            Ok(()) => Ok(()),
            Err((_, back)) => Err(Refused::NoMemory(back)),
        }
    }
}
