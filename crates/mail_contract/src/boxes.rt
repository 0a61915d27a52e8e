//! The calls of a box, each with its contract in one word.
ghost use Rattle.std.specs.Prelude.{◌≡◌};
ghost use Rattle.mail_contract.specs.OverBoxes as boxes;
ghost use Rattle.mail_contract.specs.OverWeakBoxes as weak;
ghost use Rattle.mail_contract.specs.OverPlain as plain;
ghost use Rattle.mail_contract.specs.Standing.{IsSettled};

use crate::{GossipRx, Message, Parcel, ParcelFault, PlainRx, Rx};
use lattice_laws::NoMemory;

/// Takes a message out of a box, with its sender's number.
pub fn take_one<M, Q: Rx<M>>(requests: &mut Q) -> Result<Option<(u16, M)>, NoMemory>
    ensures key { Q.key requests.new ≡ Q.key requests.old }
    ensures takes { boxes.Takes Q.Rx result requests.old requests.new }
{
    requests.take()
}

/// Takes a message out of a weak box, with its sender's number.
pub fn take_weak<M, G: GossipRx<M>>(gossip: &mut G) -> Result<Option<(u16, M)>, NoMemory>
    ensures key { G.key gossip.new ≡ G.key gossip.old }
    ensures hands_out { weak.HandsOut G.GossipRx result gossip.old gossip.new }
{
    gossip.take()
}

/// Takes in a sender that has ended. Takes no memory.
pub fn settle_one<M, Q: Rx<M>>(requests: &mut Q, ended: Q::From)
    requires pair { Q.pairs (Q.key requests.old) (Q.From.key ended) (Q.From.number ended) }
    requires once { IsSettled (Q.about requests.old (Q.From.number ended)).standing → ⊥ }
    ensures key { Q.key requests.new ≡ Q.key requests.old }
    ensures settles { boxes.Settles Q.Rx Q.From.Tx ended requests.old requests.new }
{
    requests.settle(ended)
}

/// Takes in a sender of a weak box that has ended. Takes no memory.
pub fn settle_weak<M, G: GossipRx<M>>(gossip: &mut G, ended: G::From)
    requires pair { G.pairs (G.key gossip.old) (G.From.key ended) (G.From.number ended) }
    requires once { IsSettled (G.about gossip.old (G.From.number ended)).standing → ⊥ }
    ensures key { G.key gossip.new ≡ G.key gossip.old }
    ensures settles { weak.Settles G.GossipRx G.From.Tx ended gossip.old gossip.new }
{
    gossip.settle(ended)
}

/// Takes a parcel in to a box of plain mail. A refusal hands it back, and nothing has changed.
pub fn deliver<M: Message>(
    messages: &mut PlainRx<M>,
    parcel: Parcel<M>,
) -> Result<(), ParcelFault<M>>
    ensures delivers { plain.Delivers ⟦<PlainRx<M> as Rx<M>>⟧
        parcel result messages.old messages.new }
{
    messages.deliver(parcel)
}
