//! A box of several senders, made of a lane for each.
ghost use Rattle.std.specs.Prelude.{◌≡◌, ℕ, ◌^◌, ◌<◌, ◌≤◌, [], ◌∷◌, length, map, slice_index_or};
ghost use Rattle.mail_contract.specs.Fresh.{NeverAsked, NoneReceived};
ghost use Rattle.mail_contract.specs.Lanes.{AreCounted, Scanned, about_of, at_place, lane_apart};
ghost use Rattle.mail_contract.specs.OverLanes.{AreAllDry, AreDryBefore, AreDryFrom, Gives};
ghost use Rattle.mail_contract.specs.Seen.{Stays};
ghost use Rattle.mail_contract.specs.Takes.{OnSome, OnNone};

use crate::{GossipRx, Lane, Rx, Tx};
use lattice_laws::NoMemory;
use std::alloc::Global;
use std::collections::LinkedList;
use std::marker::PhantomData;

/// A box of several senders: the lanes of the senders 1, 2, and so on, which take turns.
///
/// Of each message it keeps its sender's number, two bytes.
#[derive(Drop)]
pub struct Gathered<M, L: Lane<M>> {
    pub(crate) lanes: Vec<L>,
    order: Vec<u16>,
    nones: u64,
    somes: u64,
    marker: PhantomData<M>,
    // What was taken of each sender is as long as the order tells.
    ghost counted: { AreCounted order.items (map L.lane lanes.items) },
    ghost few: { length lanes.items < 2 ^ 16 },
}

impl<M, L: Lane<M>> Gathered<M, L> {
    /// A box of lanes of which nothing was taken, at most 65,535.
    pub fn new(alloc: Global, lanes: Vec<L>) -> Gathered<M, L>
        requires few { length lanes.items < 2 ^ 16 }
        requires unused { (place : ℕ)
            → (at_place (map L.lane lanes.items) place).taken ≡ [] }
        ensures key { ⟦<Gathered<M, L> as Rx<M>>⟧.key result ≡ map L.key lanes.items }
        ensures received { NoneReceived ⟦<Gathered<M, L> as Rx<M>>⟧ result }
        ensures answers { NeverAsked ⟦<Gathered<M, L> as Rx<M>>⟧ result }
        ensures about { ⟦<Gathered<M, L> as Rx<M>>⟧.about result
            ≡ about_of (map L.lane lanes.items) }
    {
        Gathered {
            lanes,
            order: Vec::new(alloc),
            nones: 0,
            somes: 0,
            marker: PhantomData,
        }
    }
}

/// The first of some lanes that has a message gives it: its place, from 0, and the message.
fn scan<M, L: Lane<M>>(
    lanes: &mut Vec<L>,
    from: usize,
    to: usize,
) -> Result<Option<(usize, M)>, NoMemory>
    requires { (from ≤ to) × (to ≤ length lanes.old.items) }
    ensures keys { Stays (map L.key) lanes.old.items lanes.new.items }
    ensures lanes { Scanned result (map L.lane lanes.old.items) (map L.lane lanes.new.items) }
    ensures within { OnSome result (λ place _. (from ≤ place) × (place < to)) }
    ensures given { Gives L.Lane result lanes.old.items lanes.new.items }
    ensures passed { OnSome result (λ place _. AreDryFrom L.Lane lanes.old.items from place) }
    ensures dry { OnNone result (AreDryFrom L.Lane lanes.old.items from to) }
{
    for i in from..to {
        let lane = &mut lanes[i];
        match lane.draw() {
            Ok(Some(message)) => return Ok(Some((i, message))),
            Ok(None) => {}
            Err(NoMemory) => return Err(NoMemory),
        }
    }
    Ok(None)
}

/// The last number, 0 where there is none.
fn last_of(order: &[u16]) -> usize
    ensures { result ≡ slice_index_or (0 ∷ order.now) (length order.now) 0 }
{
    match order.last() {
        Some(sender) => *sender as usize,
        None => 0,
    }
}

/// The next of all lanes that has a message gives it: its place, from 0, and the message. The lanes take
/// turns: it begins at a place, and goes round once.
fn next<M, L: Lane<M>>(lanes: &mut Vec<L>, start: usize) -> Result<Option<(usize, M)>, NoMemory>
    requires { start ≤ length lanes.old.items }
    ensures keys { Stays (map L.key) lanes.old.items lanes.new.items }
    ensures lanes { Scanned result (map L.lane lanes.old.items) (map L.lane lanes.new.items) }
    ensures given { Gives L.Lane result lanes.old.items lanes.new.items }
    ensures passed { OnSome result (λ place _. AreDryBefore L.Lane lanes.old.items start place) }
    ensures dry { OnNone result (AreAllDry L.Lane lanes.old.items) }
{
    let end = lanes.len();
    if let Some(found) = scan(lanes, start, end)? {
        return Ok(Some(found));
    }
    scan(lanes, 0, start)
}

/// Parts every lane.
fn part_all<M, L: Lane<M>>(lanes: &mut Vec<L>)
    ensures keys { Stays (map L.key) lanes.old.items lanes.new.items }
    ensures lanes { map L.lane lanes.new.items ≡ map lane_apart (map L.lane lanes.old.items) }
{
    for i in 0..lanes.len() {
        let lane = &mut lanes[i];
        lane.part();
    }
}

impl<M, L: Lane<M>> Rx<M> for Gathered<M, L> {
    ghost use Rattle.std.specs.Prelude.{false, length, map};
    ghost use Rattle.mail_contract.specs.Lanes.{IsLaneOf, about_of, received_of};

    type From = L::From;

    type Key = LinkedList<L::Key>;

    ghost key = { λ box. map L.key box.lanes.items };

    ghost pairs = { IsLaneOf L.pairs };

    ghost senders = { length };

    ghost received = { λ box. received_of box.order.items (map L.lane box.lanes.items) };

    ghost answers = { λ box. record { nones = box.nones; somes = box.somes } };

    ghost about = { λ box. about_of (map L.lane box.lanes.items) };

    // Where it is known exactly what is left, the lanes take turns. A take makes room for the order.
    ghost keeps = { record L.keeps { turns = L.keeps.exact; advances = L.keeps.complete; sure = false } };

    fn take(&mut self) -> Result<Option<(u16, M)>, NoMemory> {
        if self.order.reserve(1).is_err() {
            return Err(NoMemory);
        }
        let last = last_of(&self.order);
        match next(&mut self.lanes, last) {
            Err(NoMemory) => Err(NoMemory),
            Ok(None) => {
                self.nones = self.nones.saturating_add(1);
                Ok(None)
            }
            Ok(Some((place, message))) => {
                let sender = place as u16 + 1;
                self.order.push_reserved(sender);
                self.somes = self.somes.saturating_add(1);
                Ok(Some((sender, message)))
            }
        }
    }

    fn settle(&mut self, ended: L::From) {
        let sender = ended.sender();
        let lane = &mut self.lanes[sender as usize - 1];
        lane.end(ended);
    }

    fn beside(&mut self, tx: &mut L::From) {
        let sender = tx.sender();
        let lane = &mut self.lanes[sender as usize - 1];
        lane.show(tx);
    }

    fn apart(&mut self) {
        part_all(&mut self.lanes);
    }
}

impl<M, L: Lane<M>> GossipRx<M> for Gathered<M, L> {
    ghost use Rattle.std.specs.Prelude.{true, false, ⊤, [], length, map};
    ghost use Rattle.mail_contract.specs.Got.{got_of};
    ghost use Rattle.mail_contract.specs.Lanes.{IsLaneOf, about_of, received_of};
    ghost use Rattle.mail_contract.specs.Standing.{left_of_all};

    type From = L::From;

    type Key = LinkedList<L::Key>;

    ghost key = { λ box. map L.key box.lanes.items };

    ghost pairs = { IsLaneOf L.pairs };

    ghost senders = { length };

    ghost made_with = { λ _. [] };

    ghost got = { λ box. got_of (received_of box.order.items (map L.lane box.lanes.items)) };

    ghost answers = { λ box. record { nones = box.nones; somes = box.somes } };

    ghost about = { λ box. about_of (map L.lane box.lanes.items) };

    ghost besides = { λ _ _ _. ⊤ };

    // A sender that is shown is always due.
    ghost due = { λ _ _. true };

    ghost most = { λ box. left_of_all (length (map L.key box.lanes.items))
        (about_of (map L.lane box.lanes.items)) };

    ghost keeps = { record L.keeps { turns = L.keeps.exact; advances = L.keeps.complete; sure = false } };

    fn take(&mut self) -> Result<Option<(u16, M)>, NoMemory> {
        Rx::take(self)
    }

    fn settle(&mut self, ended: L::From) {
        Rx::settle(self, ended)
    }

    fn beside(&mut self, tx: &mut L::From) {
        Rx::beside(self, tx)
    }

    fn apart(&mut self) {
        Rx::apart(self)
    }
}
