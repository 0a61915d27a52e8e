//! Sending by one of several senders.
ghost use Rattle.std.specs.Prelude.{◌<◌, ◌≤◌, length, map, IsTrue};
ghost use Rattle.mail_contract.specs.OverPlain.{GivesUp};
ghost use Rattle.mail_contract.specs.OverSenders.{CountsFulls, CountsUnseen, NotClearAt, OthersStay, Posts, StillClearAt, unseen_at};
ghost use Rattle.mail_contract.specs.Seen.{Stays};
ghost use Rattle.mail_contract.specs.Sends.{OnFull, OnRefused};

use crate::{Message, Parcel, PlainTx, Refused, Tx};

/// Sends a message by the sender at a place, from 0, of a list. A refusal hands it back, and nothing was
/// sent; the other senders stay as they are.
pub fn post<M, T: Tx<M>>(senders: &mut Vec<T>, place: usize, message: M) -> Result<(), Refused<M>>
    requires { place < length senders.old.items }
    ensures keys { Stays (map T.key) senders.old.items senders.new.items }
    ensures numbers { Stays (map T.number) senders.old.items senders.new.items }
    ensures sent { Posts T.Tx result message place senders.old.items senders.new.items }
    ensures fulls { CountsFulls T.Tx result place senders.old.items senders.new.items }
    ensures others { OthersStay place senders.old.items senders.new.items }
    ensures not_clear { OnFull result (NotClearAt T.Tx senders.old.items place) }
    ensures no_room { IsTrue T.roomy
        → OnFull result (64 ≤ unseen_at T.Tx senders.old.items place) }
    ensures unseen { IsTrue T.roomy
        → CountsUnseen T.Tx result place senders.old.items senders.new.items }
    ensures still_unseen { OnRefused result
        (Stays (map T.unseen) senders.old.items senders.new.items) }
    ensures still_clear { OnRefused result
        (StillClearAt T.Tx senders.old.items senders.new.items place) }
{
    let sender = &mut senders[place];
    sender.send(message)
}

/// The sender at a place, from 0, gives up what it sent since its last parcel. Takes no memory.
pub fn parcel_of<M: Message>(senders: &mut Vec<PlainTx<M>>, place: usize) -> Parcel<M>
    requires { place < length senders.old.items }
    ensures { GivesUp ⟦<PlainTx<M> as Tx<M>>⟧ place result senders.old.items senders.new.items }
{
    let sender = &mut senders[place];
    sender.parcel()
}
