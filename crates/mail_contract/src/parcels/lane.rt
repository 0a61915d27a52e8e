//! The box of one sender of plain mail.
ghost use Rattle.std.specs.Prelude.{◌≡◌, ℕ, ◌+◌, ◌-◌, ◌≤◌, Bool, false, List, ◌++◌, length, IsTrue};

use super::{Parcel, ParcelFault, PlainTx};
use crate::{Lane, Message};
use lattice_laws::NoMemory;
use std::alloc::Global;
use std::collections::LinkedList;

/// The box of one sender of plain mail. It keeps all messages that it was given, and hands out copies.
#[derive(Drop)]
pub struct PlainLane<M> {
    given: Vec<M>,
    delivered: usize,
    taken: usize,
    settled: bool,
    ghost some_taken: { taken ≤ length given.items },
    ghost some_delivered: { delivered ≤ length given.items },
    ghost all_delivered: { settled ≡ false → delivered ≡ length given.items },
}

impl<M: Message> Lane<M> for PlainLane<M> {
    ghost use Rattle.std.specs.Prelude.{◌≡◌, take};
    ghost use Rattle.mail_contract.specs.Plain.{lane_of, plain_parts};

    type From = PlainTx<M>;

    type Key = LinkedList<M>;

    // What was delivered.
    ghost key = { λ lane. take lane.delivered lane.given.items };

    ghost pairs = { λ delivered given. given ≡ delivered };

    ghost lane = { λ lane. lane_of lane.given.items lane.taken lane.settled };

    ghost keeps = { plain_parts };

    fn draw(&mut self) -> Result<Option<M>, NoMemory> {
        if self.taken >= self.given.len() {
            return Ok(None);
        }
        let message = self.given[self.taken].copy()?;
        self.taken += 1;
        Ok(Some(message))
    }

    fn end(&mut self, ended: PlainTx<M>) {
        self.given = ended.history;
        self.settled = true;
    }

    fn show(&mut self, _tx: &mut PlainTx<M>) {}

    fn part(&mut self) {}
}

impl<M: Message> PlainLane<M> {
    ghost use Rattle.std.specs.Prelude.{◌≡◌, ◌++◌, [], false, length};
    ghost use Rattle.mail_contract.specs.Lanes.{nothing};
    ghost use Rattle.mail_contract.specs.Plain.{Becomes, IsCause, with_more};

    pub(super) fn new(alloc: Global) -> PlainLane<M>
        ensures key { ⟦<PlainLane<M> as Lane<M>>⟧.key result ≡ [] }
        ensures lane { ⟦<PlainLane<M> as Lane<M>>⟧.lane result ≡ nothing }
    {
        PlainLane {
            given: Vec::new(alloc),
            delivered: 0,
            taken: 0,
            settled: false,
        }
    }

    /// Takes in a parcel of its sender.
    pub(super) fn accept(&mut self, parcel: Parcel<M>) -> Result<(), ParcelFault<M>>
        ensures cause { IsCause ((self.old.settled ≡ false) × (parcel.begin ≡ self.old.delivered))
            parcel result }
        ensures key { Becomes result ⟦<PlainLane<M> as Lane<M>>⟧.key
            (λ given. given ++ parcel.messages) self.old self.new }
        ensures lane { Becomes result ⟦<PlainLane<M> as Lane<M>>⟧.lane
            (with_more (length parcel.messages)) self.old self.new }
    {
        if self.settled || parcel.begin != self.delivered {
            return Err(ParcelFault::Strange(parcel));
        }
        let mut parcel = parcel;
        match self.given.append(&mut parcel.messages) {
            Ok(()) => {
                self.delivered = self.given.len();
                Ok(())
            }
            Err(_) => Err(ParcelFault::NoMemory(parcel)),
        }
    }
}
