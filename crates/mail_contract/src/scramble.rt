//! Gossip in disorder.
ghost use Rattle.std.specs.Prelude.{◌≡◌, ℕ, ◌<◌, ◌≤◌, IsTrue, [], List, length, take, MatchOption, IfOk, OnOk};
ghost use Rattle.std.specs.Vec.{vec_capacity};
ghost use Rattle.std.proofs.Props.{props};
ghost use Rattle.mail_contract.specs.Fresh.{NeverAskedWeak, NoneGot};
ghost use Rattle.mail_contract.specs.Scrambled.{AreHeld, Fills, IsDealt, IsFull, IsMarked, TimesStay, draw_of, got_of_held, next_state};
ghost use Rattle.mail_contract.specs.Standing.{AllStand, NoMoreLeft, OfSent};
ghost use Rattle.mail_contract.specs.declared.scramble.Held.{Held};
ghost use Rattle.mail_contract.specs.Takes.{AreAllOfSent, FrontsStay, IsNothingLeft, from_sender};

use crate::{GossipRx, Message, Rx, Tx};
use lattice_laws::NoMemory;
use std::alloc::Global;

/// How many messages are held at most.
const MOST_HELD: usize = 8;

/// A message that was taken of the inner box and may still be handed out.
#[derive(Drop)]
pub struct Held<M> {
    sender: u16,
    message: M,
    // Its place among all that the inner box handed out, from 0.
    index: usize,
    // A copy of it was handed out.
    again: bool,
}

/// The next state of the generator of draws: a linear congruential generator of 64 bits, with Knuth's multiplier
/// and increment of MMIX.
pub fn next_of(state: u64) -> u64
    ensures { result ≡ next_state state }
{
    state
        .wrapping_mul(6_364_136_223_846_793_005)
        .wrapping_add(1_442_695_040_888_963_407)
}

/// A copy of a held message, where the draw asks for one, none was handed out before, and there is memory for
/// it; it is marked then.
fn copied<M: Message>(item: &mut Held<M>, draw: u64) -> Option<M>
    ensures { MatchOption result (item.new ≡ item.old) (λ copy. IsMarked draw copy item.old
        item.new) }
{
    if draw / 8 % 2 == 0 || item.again {
        return None;
    }
    let copy = item.message.copy().ok()?;
    item.again = true;
    Some(copy)
}

/// Hands out one of the messages that are held, by the draw of the next state.
fn deal<M: Message>(held: &mut Vec<Held<M>>, state: &mut u64) -> (u16, M)
    requires { 0 < length held.old.items }
    ensures state { state.new ≡ next_state state.old }
    ensures capacity { vec_capacity held.new ≡ vec_capacity held.old }
    ensures dealt { IsDealt held.old.items (draw_of state.new) result.0 result.1 held.new.items }
{
    *state = next_of(*state);
    let draw = *state >> 33;
    let place = (draw % held.len() as u64) as usize;
    let sender = held[place].sender;
    match copied(&mut held[place], draw) {
        Some(copy) => (sender, copy),
        None => {
            let item = held.remove(place);
            (sender, item.message)
        }
    }
}

/// Asks the inner box while fewer than eight messages are held.
fn fill<M, R: Rx<M>>(
    inner: &mut R,
    held: &mut Vec<Held<M>>,
    taken: &mut usize,
) -> Result<(), NoMemory>
    requires few { length held.old.items ≤ 8 }
    requires room { 8 ≤ vec_capacity held.old }
    requires counted { taken.old ≡ length (R.received inner.old) }
    requires held { AreHeld (R.senders (R.key inner.old)) (R.received inner.old) held.old.items }
    ensures few { length held.new.items ≤ 8 }
    ensures room { 8 ≤ vec_capacity held.new }
    ensures counted { taken.new ≡ length (R.received inner.new) }
    ensures held { AreHeld (R.senders (R.key inner.old)) (R.received inner.new) held.new.items }
    ensures key { R.key inner.new ≡ R.key inner.old }
    ensures fills { Fills (R.received inner.old) (R.received inner.new)
        held.old.items held.new.items }
    ensures got { got_of_held held.new.items (R.received inner.new)
        ≡ got_of_held held.old.items (R.received inner.old) }
    ensures standing { AllStand (R.about inner.old) (R.about inner.new) }
    ensures told { FrontsStay R.keeps.complete R.received R.about inner.old inner.new }
    ensures left { IsTrue R.keeps.finite → NoMoreLeft (R.about inner.old) (R.about inner.new) }
    ensures most { IsTrue R.keeps.finite
        → TimesStay R.Rx inner.old inner.new held.old.items held.new.items }
    ensures full { OnOk result
        (IsFull held.new.items (R.answers inner.old) (R.answers inner.new)) }
    ensures dry { OnOk result (length held.new.items < 8
        → AreAllOfSent R.keeps.complete (R.received inner.new) (R.about inner.new)) }
    ensures exact { IsTrue R.keeps.exact → OnOk result (length held.new.items < 8
        → IsNothingLeft (R.about inner.new)) }
{
    while held.len() < MOST_HELD {
        let Some(next) = taken.checked_add(1) else {
            return Err(NoMemory);
        };
        match inner.take()? {
            None => return Ok(()),
            Some((sender, message)) => {
                held.push_reserved(Held {
                    sender,
                    message,
                    index: *taken,
                    again: false,
                });
                *taken = next;
            }
        }
    }
    Ok(())
}

/// A box of gossip in disorder, over a box in order: gossip that is overtaken and repeated, as a network may do it,
/// by a number that says how.
///
/// Up to eight messages of the inner box are held. A draw chooses the one that is handed out, and whether a
/// copy of it is, after which the message itself is handed out another time. So each message comes once or
/// twice, and may be overtaken by others. The draws are those of a linear congruential generator, whose
/// first state is given.
#[derive(Drop)]
pub struct Scramble<M: Drop, R: Rx<M>> {
    inner: R,
    held: Vec<Held<M>>,
    taken: usize,
    first: u64,
    state: u64,
    nones: u64,
    somes: u64,
    ghost few: { length held.items ≤ 8 },
    ghost room: { 8 ≤ vec_capacity held },
    ghost counted: { taken ≡ length (R.received inner) },
    ghost are_held: { AreHeld (R.senders (R.key inner)) (R.received inner) held.items } by { Prim.hlevel props },
    // What was taken of a sender is the front of what it is told to have sent.
    ghost told: { (sender : ℕ) → OfSent R.keeps.complete (R.about inner sender).standing
        (λ sent. take (length (from_sender sender (R.received inner))) sent
        ≡ from_sender sender (R.received inner)) } by { Prim.hlevel props },
}

/// What a scramble tells of what it holds and draws.
pub trait Draws<M> {
    // What it took of the inner box.
    ghost taken: { Self → List (ℕ × M) };

    // The messages that it holds, in the order in which it took them.
    ghost held: { Self → List (Held M) };

    // The state of its generator.
    ghost state: { Self → ℕ };
}

impl<M: Message, R: Rx<M>> Draws<M> for Scramble<M, R> {
    ghost taken = { λ scramble. R.received scramble.inner };

    ghost held = { λ scramble. scramble.held.items };

    ghost state = { λ scramble. scramble.state };
}

impl<M: Message, R: Rx<M>> GossipRx<M> for Scramble<M, R> {
    ghost use Rattle.std.specs.Prelude.{◌+◌, ◌*◌, [], ◌∷◌, true, false};
    ghost use Rattle.mail_contract.specs.Scrambled.{Deals, got_of_held, times_left};

    type From = R::From;

    type Key = (R::Key, u64);

    ghost key = { λ scramble. (R.key scramble.inner, scramble.first) };

    ghost pairs = { λ key. R.pairs key.0 };

    ghost senders = { λ key. R.senders key.0 };

    ghost made_with = { λ key. key.1 ∷ [] };

    ghost got = { λ scramble. got_of_held scramble.held.items (R.received scramble.inner) };

    ghost answers = { λ scramble. record { nones = scramble.nones; somes = scramble.somes } };

    ghost about = { λ scramble. R.about scramble.inner };

    ghost due = { λ _ _. true };

    // Which message is dealt, and what is held then.
    ghost besides = { λ result before now. Deals result (R.received before.inner)
        (R.received now.inner) (R.answers before.inner) (R.answers now.inner)
        before.held.items before.state now.held.items now.state };

    ghost most = { λ scramble. times_left (R.senders (R.key scramble.inner))
        (R.about scramble.inner) scramble.held.items };

    ghost keeps = { record R.keeps { bounded = false; turns = false; advances = R.keeps.complete; sure = false } };

    fn take(&mut self) -> Result<Option<(u16, M)>, NoMemory> {
        fill(&mut self.inner, &mut self.held, &mut self.taken)?;
        if self.held.is_empty() {
            self.nones = self.nones.saturating_add(1);
            return Ok(None);
        }
        self.somes = self.somes.saturating_add(1);
        Ok(Some(deal(&mut self.held, &mut self.state)))
    }

    fn settle(&mut self, ended: R::From) {
        self.inner.settle(ended);
    }

    fn beside(&mut self, tx: &mut R::From) {
        self.inner.beside(tx);
    }

    fn apart(&mut self) {
        self.inner.apart();
    }
}

impl<M: Message, R: Rx<M>> Scramble<M, R> {
    /// Over a box that has handed out nothing yet. The number is the first state of the generator.
    pub fn new(alloc: Global, inner: R, number: u64) -> Result<Scramble<M, R>, NoMemory>
        requires { R.received inner ≡ [] }
        ensures key { IfOk result (λ scramble.
            ⟦<Scramble<M, R> as GossipRx<M>>⟧.key scramble ≡ (R.key inner, number)) }
        ensures got { IfOk result (NoneGot ⟦<Scramble<M, R> as GossipRx<M>>⟧) }
        ensures answers { IfOk result (NeverAskedWeak ⟦<Scramble<M, R> as GossipRx<M>>⟧) }
        ensures about { IfOk result (λ scramble.
            ⟦<Scramble<M, R> as GossipRx<M>>⟧.about scramble ≡ R.about inner) }
        ensures held { IfOk result (λ scramble. ⟦<Scramble<M, R> as Draws<M>>⟧.held scramble ≡ []) }
        ensures state { IfOk result (λ scramble.
            ⟦<Scramble<M, R> as Draws<M>>⟧.state scramble ≡ number) }
    {
        Ok(Scramble {
            inner,
            held: Vec::with_capacity(alloc, MOST_HELD)?,
            taken: 0,
            first: number,
            state: number,
            nones: 0,
            somes: 0,
        })
    }
}
