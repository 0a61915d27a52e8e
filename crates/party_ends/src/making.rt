//! Boxes of one kind of mail are made, and their senders dealt to rows: in each row stand the senders of
//! one number, in the order of their boxes.
ghost use Rattle.std.specs.Prelude.{◌≡◌, ◌≤◌, [], length, replicate, IfOk, OnOk};
ghost use Rattle.party_ends.specs.Dealt.{AreGiven};
ghost use Rattle.party_ends.specs.OverBoxes as over;
ghost use Rattle.party_turns.specs.Rows.{rows_in};

use crate::{MakesGossip, MakesMail};
use lattice_laws::NoMemory;
use mail_contract::{GossipRx, Rx, Tx};
use std::alloc::Global;

/// Gives each row an item more, at its end: the one at its own place.
fn deal<X: Drop>(rows: &mut Vec<Vec<X>>, items: Vec<X>) -> Result<(), NoMemory>
    requires { length items.items ≡ length rows.old.items }
    ensures { OnOk result (AreGiven items.items (rows_in rows.old.items) (rows_in rows.new.items)) }
{
    let mut items = items;
    while let Some(item) = items.pop() {
        let place = items.len();
        rows[place].push(item)?;
    }
    Ok(())
}

/// So many rows, with nothing in them.
fn empty_rows<X: Drop>(alloc: Global, rows: u16) -> Result<Vec<Vec<X>>, NoMemory>
    ensures { IfOk result (λ made. rows_in made.items ≡ replicate rows []) }
{
    let mut made = Vec::new(alloc);
    for _ in 0..rows {
        made.push(Vec::new(alloc))?;
    }
    Ok(made)
}

/// So many boxes, and so many rows of their senders.
pub(crate) fn make_all<M, S: Tx<M>, Q: Rx<M, From = S>, P: MakesMail<M, Mailbox = Q>>(
    post: &P,
    alloc: Global,
    boxes: u16,
    senders: u16,
) -> Result<(Vec<Vec<S>>, Vec<Q>), NoMemory>
    requires { 1 ≤ senders }
    ensures { IfOk result (λ made. over.AreMade S.Tx Q.Rx boxes senders made.0.items made.1.items) }
{
    let mut rows = empty_rows(alloc, senders)?;
    let mut made = Vec::new(alloc);
    for _ in 0..boxes {
        let (its, mailbox) = post.make(alloc, senders)?;
        deal(&mut rows, its)?;
        made.push(mailbox)?;
    }
    Ok((rows, made))
}

/// So many weak boxes, of the parties of the numbers from 1 on, and so many rows of their senders.
pub(crate) fn make_all_weak<M, O: Tx<M>, G: GossipRx<M, From = O>, P: MakesGossip<M, Mailbox = G>>(
    post: &P,
    alloc: Global,
    boxes: u16,
    senders: u16,
) -> Result<(Vec<Vec<O>>, Vec<G>), NoMemory>
    requires { 1 ≤ senders }
    ensures made { IfOk result (λ made. over.AreMadeWeak O.Tx G.GossipRx
        boxes senders made.0.items made.1.items) }
    ensures made_with { IfOk result (λ made. over.AreNumbered G.GossipRx
        (P.numbers post.now) (λ its. its) made.1.items) }
{
    let mut rows = empty_rows(alloc, senders)?;
    let mut made = Vec::new(alloc);
    for place in 0..boxes {
        let (its, mailbox) = post.make_weak(alloc, place + 1, senders)?;
        deal(&mut rows, its)?;
        made.push(mailbox)?;
    }
    Ok((rows, made))
}
