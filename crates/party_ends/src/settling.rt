//! Senders that are for nobody are taken in at once.
ghost use Rattle.std.specs.Prelude.{◌≡◌, All, length, IfOk};
ghost use Rattle.party_ends.specs.Dealt.{AreDoneBefore};
ghost use Rattle.party_ends.specs.OverBoxes as over;
ghost use Rattle.party_turns.specs.Rows.{rows_in};
ghost use Rattle.placement.specs.Config.{IsOneOf};

use crate::MakesMail;
use lattice_laws::NoMemory;
use mail_contract::{GossipRx, Rx, Tx, settle_one, settle_weak};
use std::alloc::Global;

/// Takes in the sender at a place of a row. The others are left in the row.
fn settle_own<M, O: Tx<M>, G: GossipRx<M, From = O>>(row: &mut Vec<O>, place: usize, inbox: &mut G)
    requires { over.MayTakeInOwn O.Tx G.GossipRx place row.old.items inbox.old }
    ensures { over.TakesInOwn O.Tx G.GossipRx
        place row.old.items row.new.items inbox.old inbox.new }
{
    let own = row.remove(place);
    settle_weak(inbox, own);
}

/// Each box takes in the sender at its own place of the row there.
pub(crate) fn settle_owns<M, O: Tx<M>, G: GossipRx<M, From = O>>(
    rows: &mut Vec<Vec<O>>,
    boxes: &mut Vec<G>,
)
    requires square { length rows.old.items ≡ length boxes.old.items }
    requires may { over.MayTakeInOwns O.Tx G.GossipRx (rows_in rows.old.items) boxes.old.items }
    ensures { AreDoneBefore (over.TakesInOwn O.Tx G.GossipRx)
        (rows_in rows.old.items) boxes.old.items (length boxes.old.items)
        (rows_in rows.new.items) boxes.new.items }
{
    for place in 0..boxes.len() {
        settle_own(&mut rows[place], place, &mut boxes[place]);
    }
}

/// A box that no sender of the run sends to: its only sender is taken in.
fn spare_box<M, S: Tx<M>, Q: Rx<M, From = S>, P: MakesMail<M, Mailbox = Q>>(
    post: &P,
    alloc: Global,
) -> Result<Q, NoMemory>
    ensures { IfOk result (over.IsEmptyOf S.Tx Q.Rx (IsOneOf 0)) }
{
    let (senders, mailbox) = post.make(alloc, 1)?;
    let mut senders = senders;
    let mut mailbox = mailbox;
    if let Some(spare) = senders.pop() {
        settle_one(&mut mailbox, spare);
    }
    Ok(mailbox)
}

/// So many boxes that no sender of the run sends to.
pub(crate) fn spare_boxes<M, S: Tx<M>, Q: Rx<M, From = S>, P: MakesMail<M, Mailbox = Q>>(
    post: &P,
    alloc: Global,
    boxes: u16,
) -> Result<Vec<Q>, NoMemory>
    ensures long { IfOk result (λ made. length made.items ≡ boxes) }
    ensures spare { IfOk result (λ made. All (over.IsEmptyOf S.Tx Q.Rx (IsOneOf 0)) made.items) }
{
    let mut made = Vec::new(alloc);
    for _ in 0..boxes {
        made.push(spare_box(post, alloc)?)?;
    }
    Ok(made)
}
