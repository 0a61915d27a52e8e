//! The end of the receiver over the queue.
ghost use Rattle.std.specs.Prelude.{◌≡◌, ℕ, ◌+◌};
ghost use Rattle.std.proofs.Props.{props};
ghost use Rattle.crossbeam_queue.specs.SegTies.{IsSegPassOf};
ghost use Rattle.mailbox_rule.specs.Rule.{made_in};

use crate::QueueTx;
use crate::line::Line;
use crate::rule::{Ending, Look, Making, Pop, View};
use crossbeam_queue::{RuledSegQueue, SegPass};
use lattice_laws::NoMemory;
use mail_contract::{GossipRx, Rx};
use std::alloc::Global;
use std::sync::{Arc, Wait};

/// The end of the receiver: one queue for the messages of all senders.
#[derive(Drop)]
pub struct QueueRx<M: Drop, R: Wait + Copy> {
    rt: R,
    line: Arc<Line<M>, Global>,
    senders: u16,
    pass: SegPass<(u16, M), View<M>>,
    nones: u64,
    somes: u64,
    ghost of_line: { IsSegPassOf line.value.queue pass } by { Prim.hlevel props },
    ghost made: { made_in pass.me.view.client ≡ senders + 1 },
}

impl<M: Drop, R: Wait + Copy> Rx<M> for QueueRx<M, R> {
    ghost use Rattle.std.specs.Prelude.{◌≡◌};
    ghost use Rattle.mailbox_rule.specs.Ends.{about_in, key_of, queue_parts};
    ghost use Rattle.mailbox_rule.specs.Rule.{received_in};

    type From = QueueTx<M, R>;

    type Key = (((u64, u64), Global), u16);

    ghost key = { λ rx. (key_of rx.line.value.queue, rx.senders) };

    ghost pairs = { λ rx tx _. tx ≡ rx.0 };

    ghost senders = { λ rx. rx.1 };

    ghost received = { λ rx. received_in rx.pass.me.view.client };

    ghost answers = { λ rx. record { nones = rx.nones; somes = rx.somes } };

    ghost about = { λ rx. about_in rx.pass.me.view.client };

    ghost keeps = { queue_parts };

    fn take(&mut self) -> Result<Option<(u16, M)>, NoMemory> {
        match self.line.queue.pop_as::<Pop, R>(&self.rt, &mut self.pass) {
            Some(message) => {
                self.somes = self.somes.saturating_add(1);
                Ok(Some(message))
            }
            None => {
                self.nones = self.nones.saturating_add(1);
                Ok(None)
            }
        }
    }

    fn settle(&mut self, ended: QueueTx<M, R>) {
        let QueueTx { pass, .. } = ended;
        self.line.queue.absorb::<Ending>(&mut self.pass, pass);
        self.line.queue.len_as::<Look, R>(&self.rt, &mut self.pass);
    }

    fn beside(&mut self, _tx: &mut QueueTx<M, R>) {}

    fn apart(&mut self) {}
}

impl<M: Drop, R: Wait + Copy> GossipRx<M> for QueueRx<M, R> {
    ghost use Rattle.std.specs.Prelude.{◌≡◌, true, ⊤, []};
    ghost use Rattle.mail_contract.specs.Got.{got_of};
    ghost use Rattle.mailbox_rule.specs.Ends.{about_in, key_of, queue_parts};
    ghost use Rattle.mailbox_rule.specs.Rule.{received_in};

    type From = QueueTx<M, R>;

    type Key = (((u64, u64), Global), u16);

    ghost key = { λ rx. (key_of rx.line.value.queue, rx.senders) };

    ghost pairs = { λ rx tx _. tx ≡ rx.0 };

    ghost senders = { λ rx. rx.1 };

    ghost made_with = { λ _. [] };

    ghost got = { λ rx. got_of (received_in rx.pass.me.view.client) };

    ghost answers = { λ rx. record { nones = rx.nones; somes = rx.somes } };

    ghost about = { λ rx. about_in rx.pass.me.view.client };

    ghost due = { λ _ _. true };

    ghost most = { λ _. 0 };

    ghost keeps = { queue_parts };

    ghost besides = { λ _ _ _. ⊤ };

    fn take(&mut self) -> Result<Option<(u16, M)>, NoMemory> {
        Rx::take(self)
    }

    fn settle(&mut self, ended: QueueTx<M, R>) {
        Rx::settle(self, ended)
    }

    fn beside(&mut self, tx: &mut QueueTx<M, R>) {
        Rx::beside(self, tx)
    }

    fn apart(&mut self) {
        Rx::apart(self)
    }
}

impl<M: Drop, R: Wait + Copy> QueueRx<M, R> {
    ghost use Rattle.std.specs.Prelude.{◌≡◌, ◌+◌, ◌<◌, ◌^◌, [], IfOk};
    ghost use Rattle.mailbox_rule.specs.Ends.{about_in};
    ghost use Rattle.mailbox_rule.specs.Rule.{ended_in, received_in, sent_in};

    /// A box with no sender yet.
    pub(crate) fn new(rt: R, alloc: Global) -> Result<QueueRx<M, R>, NoMemory>
        ensures senders { IfOk result (λ rx. rx.senders ≡ 0) }
        ensures received { IfOk result (λ rx. received_in rx.pass.me.view.client ≡ []) }
        ensures ended { IfOk result (λ rx. ended_in rx.pass.me.view.client ≡ []) }
        ensures answers { IfOk result (λ rx. (rx.nones ≡ 0) × (rx.somes ≡ 0)) }
    {
        let (queue, pass) = RuledSegQueue::with_rule(alloc)?;
        let line = Arc::new(alloc, Line { queue })?;
        Ok(QueueRx {
            rt,
            line,
            senders: 0,
            pass,
            nones: 0,
            somes: 0,
        })
    }

    /// One sender more, with the next number.
    pub(crate) fn sender(&mut self) -> Result<QueueTx<M, R>, NoMemory>
        requires { self.old.senders + 1 < 2 ^ 16 }
        ensures queue { self.new.line.value.queue ≡ self.old.line.value.queue }
        ensures senders { IfOk result (λ _. self.new.senders ≡ self.old.senders + 1) }
        ensures received { IfOk result (λ _. received_in self.new.pass.me.view.client
            ≡ received_in self.old.pass.me.view.client) }
        ensures ended { IfOk result (λ _. ended_in self.new.pass.me.view.client
            ≡ ended_in self.old.pass.me.view.client) }
        ensures answers { (self.new.nones ≡ self.old.nones) × (self.new.somes ≡ self.old.somes) }
        ensures number { IfOk result (λ tx. tx.number ≡ self.old.senders + 1) }
        ensures sent { IfOk result (λ tx. sent_in tx.pass.me.view.client ≡ []) }
        ensures shared { IfOk result (λ tx. tx.line.value.queue ≡ self.old.line.value.queue) }
    {
        let line = Arc::try_clone(&self.line)?;
        let pass = self.line.queue.another::<Making>(&mut self.pass);
        self.senders += 1;
        Ok(QueueTx {
            rt: self.rt,
            line,
            number: self.senders,
            pass,
        })
    }
}
