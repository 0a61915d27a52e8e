//! Mail for one thread, which a driver carries by hand: parcels from each sender to its box.
ghost use Rattle.std.specs.Prelude.{◌≡◌, ℕ, ◌+◌, ◌-◌, ◌≤◌, List, [], length, map, take, drop, replicate, IfOk, Err};
ghost use Rattle.mail_contract.specs.Fresh.{AllShow, AreNumbered, KnowsOfNone, NeverAsked, NoneReceived, NoneSent};
ghost use Rattle.mail_contract.specs.Lanes.{nothing};
ghost use Rattle.mail_contract.specs.OverPlain.{Follows, parcel_since};
ghost use Rattle.mail_contract.specs.Plain.{Becomes, IsCause, LeavesParcel, with_parcel};
ghost use Rattle.mail_contract.specs.Seen.{Stays};

use crate::{Gathered, Lane, Message, Refused, Rx, Tx};
use lattice_laws::NoMemory;
use std::alloc::Global;
use std::collections::LinkedList;
use std::marker::Model;

mod lane;

pub use lane::PlainLane;

/// A sender of plain mail. It keeps all that it sent, and what was not given up yet once more.
#[derive(Drop)]
pub struct PlainTx<M> {
    alloc: Global,
    number: u16,
    history: Vec<M>,
    given: usize,
    waiting: Vec<M>,
    ghost fits: { given ≤ length history.items },
    ghost rest: { waiting.items ≡ drop given history.items },
}

/// Messages on their way from a sender to its box: what it sent since its last parcel.
#[derive(Drop)]
pub struct Parcel<M> {
    sender: u16,
    begin: usize,
    messages: Vec<M>,
}

impl<M> Model for Parcel<M> {
    ghost use Rattle.mail_contract.specs.Carried.{Carried};

    ghost Value = { Carried M };

    ghost view = { λ parcel. record {
      sender = parcel.sender;
      begin = parcel.begin;
      messages = parcel.messages.items;
    } };
}

/// A box of plain mail. It hands out each message that was delivered, or that a sender had sent when it
/// was taken in, once; the senders take turns.
pub type PlainRx<M> = Gathered<M, PlainLane<M>>;

impl<M: Message> Tx<M> for PlainTx<M> {
    ghost use Rattle.std.specs.Prelude.{take, false, ⊤};

    type Key = LinkedList<M>;

    // What it gave up in parcels.
    ghost key = { λ tx. take tx.given tx.history.items };

    ghost number = { λ tx. tx.number };

    ghost sent = { λ tx. tx.history.items };

    ghost fulls = { λ _. 0 };

    ghost roomy = { false };

    ghost unseen = { λ _. 0 };

    ghost clear = { λ _. ⊤ };

    fn sender(&self) -> u16 {
        self.number
    }

    fn send(&mut self, message: M) -> Result<(), Refused<M>> {
        if self.history.reserve(1).is_err() || self.waiting.reserve(1).is_err() {
            return Err(Refused::NoMemory(message));
        }
        match message.copy() {
            Err(NoMemory) => Err(Refused::NoMemory(message)),
            Ok(copy) => {
                self.history.push_reserved(copy);
                self.waiting.push_reserved(message);
                Ok(())
            }
        }
    }
}

impl<M: Message> PlainTx<M> {
    fn new(alloc: Global, number: u16) -> PlainTx<M>
        ensures number { ⟦<PlainTx<M> as Tx<M>>⟧.number result ≡ number }
        ensures sent { ⟦<PlainTx<M> as Tx<M>>⟧.sent result ≡ [] }
        ensures given { ⟦<PlainTx<M> as Tx<M>>⟧.key result ≡ [] }
    {
        PlainTx {
            alloc,
            number,
            history: Vec::new(alloc),
            given: 0,
            waiting: Vec::new(alloc),
        }
    }

    /// Gives up what was sent since the last parcel, maybe nothing. Takes no memory.
    pub fn parcel(&mut self) -> Parcel<M>
        ensures number { Stays ⟦<PlainTx<M> as Tx<M>>⟧.number self.old self.new }
        ensures sent { Stays ⟦<PlainTx<M> as Tx<M>>⟧.sent self.old self.new }
        ensures given { ⟦<PlainTx<M> as Tx<M>>⟧.key self.new
            ≡ ⟦<PlainTx<M> as Tx<M>>⟧.sent self.old }
        ensures parcel { result ≡ parcel_since ⟦<PlainTx<M> as Tx<M>>⟧ self.old }
    {
        let begin = self.given;
        let messages = std::mem::replace(&mut self.waiting, Vec::new(self.alloc));
        self.given = self.history.len();
        Parcel {
            sender: self.number,
            begin,
            messages,
        }
    }
}

/// Why a parcel was not taken in. It comes back.
#[derive(Drop)]
pub enum ParcelFault<M> {
    /// It does not begin where the last parcel of its sender ended. So it is with each parcel of a sender
    /// that is none of the box's, or that was taken in.
    Strange(Parcel<M>),
    /// There was no memory for it.
    NoMemory(Parcel<M>),
}

impl<M: Message> Gathered<M, PlainLane<M>> {
    /// Takes a parcel in, whose messages are left to take then.
    pub fn deliver(&mut self, parcel: Parcel<M>) -> Result<(), ParcelFault<M>>
        ensures cause { IsCause (Follows ⟦<PlainRx<M> as Rx<M>>⟧ parcel self.old) parcel result }
        ensures delivered { Becomes result ⟦<PlainRx<M> as Rx<M>>⟧.key
            (with_parcel parcel) self.old self.new }
        ensures left { LeavesParcel result parcel ⟦<PlainRx<M> as Rx<M>>⟧.about
            self.old self.new }
        ensures received { Stays ⟦<PlainRx<M> as Rx<M>>⟧.received self.old self.new }
        ensures answers { Stays ⟦<PlainRx<M> as Rx<M>>⟧.answers self.old self.new }
    {
        let sender = parcel.sender as usize;
        if sender == 0 || sender > self.lanes.len() {
            return Err(ParcelFault::Strange(parcel));
        }
        let lane = &mut self.lanes[sender - 1];
        lane.accept(parcel)
    }
}

/// So many senders that have sent nothing.
fn new_senders<M: Message>(alloc: Global, senders: u16) -> Result<Vec<PlainTx<M>>, NoMemory>
    ensures numbers { IfOk result (λ txs.
        AreNumbered ⟦<PlainTx<M> as Tx<M>>⟧ senders txs.items) }
    ensures sent { IfOk result (λ txs. NoneSent ⟦<PlainTx<M> as Tx<M>>⟧ senders txs.items) }
    ensures given { IfOk result (λ txs.
        AllShow ⟦<PlainTx<M> as Tx<M>>⟧.key [] senders txs.items) }
{
    let mut txs = Vec::new(alloc);
    for place in 0..senders {
        txs.push(PlainTx::new(alloc, place + 1))?;
    }
    Ok(txs)
}

/// So many lanes to which nothing was delivered.
fn new_lanes<M: Message>(alloc: Global, senders: u16) -> Result<Vec<PlainLane<M>>, NoMemory>
    ensures delivered { IfOk result (λ lanes.
        AllShow ⟦<PlainLane<M> as Lane<M>>⟧.key [] senders lanes.items) }
    ensures lanes { IfOk result (λ lanes.
        AllShow ⟦<PlainLane<M> as Lane<M>>⟧.lane nothing senders lanes.items) }
{
    let mut lanes = Vec::new(alloc);
    for _ in 0..senders {
        lanes.push(PlainLane::new(alloc))?;
    }
    Ok(lanes)
}

/// Plain mail for one box and so many senders, which are numbered from 1 in the order of the vector.
pub fn plain<M: Message>(
    alloc: Global,
    senders: u16,
) -> Result<(Vec<PlainTx<M>>, PlainRx<M>), NoMemory>
    ensures numbers { IfOk result (λ ends.
        AreNumbered ⟦<PlainTx<M> as Tx<M>>⟧ senders ends.0.items) }
    ensures sent { IfOk result (λ ends. NoneSent ⟦<PlainTx<M> as Tx<M>>⟧ senders ends.0.items) }
    ensures given { IfOk result (λ ends.
        AllShow ⟦<PlainTx<M> as Tx<M>>⟧.key [] senders ends.0.items) }
    ensures delivered { IfOk result (λ ends. ⟦<PlainRx<M> as Rx<M>>⟧.key ends.1
        ≡ replicate senders []) }
    ensures received { IfOk result (λ ends. NoneReceived ⟦<PlainRx<M> as Rx<M>>⟧ ends.1) }
    ensures answers { IfOk result (λ ends. NeverAsked ⟦<PlainRx<M> as Rx<M>>⟧ ends.1) }
    ensures about { IfOk result (λ ends. KnowsOfNone ⟦<PlainRx<M> as Rx<M>>⟧ ends.1) }
{
    let txs = new_senders(alloc, senders)?;
    let lanes = new_lanes(alloc, senders)?;
    Ok((txs, Gathered::new(alloc, lanes)))
}
