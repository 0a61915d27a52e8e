//! What each kind of box keeps.
ghost use Rattle.std.specs.Prelude.{◌≡◌};
ghost use Rattle.worked_laws.specs.Keeps as keeps;

use mail_contract::{GossipRx, PlainRx, Rx, Scramble};
use mail_rings::RingRx;
use mailbox_rule::QueueRx;
use std::sync::Wait;
use store_msg::{Batch, Reply, Request};

/// Boxes of requests, of replies and of gossip keep what `specs/Keeps.antt` says of their kind.
pub fn boxes_keep_their_parts<W: Wait + Copy>()
    ensures plain_requests { ⟦<PlainRx<Request> as Rx<Request>>⟧.keeps ≡ keeps.plain_mail }
    ensures plain_replies { ⟦<PlainRx<Reply> as Rx<Reply>>⟧.keeps ≡ keeps.plain_mail }
    ensures plain_gossip { ⟦<PlainRx<Batch> as GossipRx<Batch>>⟧.keeps ≡ keeps.plain_mail }
    ensures queued_requests { ⟦<QueueRx<Request, W> as Rx<Request>>⟧.keeps ≡ keeps.queue }
    ensures queued_replies { ⟦<QueueRx<Reply, W> as Rx<Reply>>⟧.keeps ≡ keeps.queue }
    ensures queued_gossip { ⟦<QueueRx<Batch, W> as GossipRx<Batch>>⟧.keeps ≡ keeps.queue }
    ensures ring_requests { ⟦<RingRx<Request> as Rx<Request>>⟧.keeps ≡ keeps.rings }
    ensures ring_replies { ⟦<RingRx<Reply> as Rx<Reply>>⟧.keeps ≡ keeps.rings }
    ensures ring_gossip { ⟦<RingRx<Batch> as GossipRx<Batch>>⟧.keeps ≡ keeps.rings }
    ensures scrambled_gossip { ⟦<Scramble<Batch, RingRx<Batch>> as GossipRx<Batch>>⟧.keeps
        ≡ keeps.scramble }
{}
