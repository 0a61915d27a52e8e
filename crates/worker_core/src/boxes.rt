//! Holding a session beside the boxes.
ghost use Rattle.std.specs.Prelude.{◌≡◌, ◌≢◌, ℕ, ◌≤◌, ◌-◌, [], length, map, min, slice_get, slice_index_or, IsTrue, Some};
ghost use Rattle.mail_contract.specs.OverBoxes as boxes;
ghost use Rattle.mail_contract.specs.OverSenders.{number_at, sent_at};
ghost use Rattle.mail_contract.specs.Standing.{Learned};
ghost use Rattle.mail_contract.specs.Takes.{IsFront, from_sender};
ghost use Rattle.worker_core.specs.Room.{LearnsRoomOf};

use mail_contract::{Rx, Tx};
use store_msg::{Meets, Reply, Request};

/// Holds a worker's ends for a session beside the session's. Takes no memory.
pub(crate) fn meet<Q: Rx<Request>, T: Tx<Reply>, S: Meets<Q, T>>(
    side: &mut S,
    me: u16,
    requests: &mut Q,
    replies: &mut Vec<T>,
    session: u16,
)
    requires session { (1 ≤ session) × (session ≤ length replies.old.items) }
    requires pairs { (sender : T) → slice_get replies.old.items (session - 1) ≡ Some sender
        → S.pairs (S.key side.old) me (Q.key requests.old) (S.number side.old me)
        (T.key sender) (T.number sender) }
    ensures requests_key { Q.key requests.new ≡ Q.key requests.old }
    ensures requests { boxes.Shows Q.Rx (S.number side.old me) (S.asked side.old me)
        requests.old requests.new }
    ensures replies_keys { map T.key replies.new.items ≡ map T.key replies.old.items }
    ensures replies_numbers { map T.number replies.new.items ≡ map T.number replies.old.items }
    ensures replies_sent { map T.sent replies.new.items ≡ map T.sent replies.old.items }
    ensures replies_fulls { map T.fulls replies.new.items ≡ map T.fulls replies.old.items }
    ensures key { S.key side.new ≡ S.key side.old }
    ensures number { S.number side.new ≡ S.number side.old }
    ensures asked { S.asked side.new ≡ S.asked side.old }
    ensures heard { S.heard side.new ≡ S.heard side.old }
    ensures rest { S.rest side.new ≡ S.rest side.old }
    ensures roomy { IsTrue Q.keeps.roomy → S.unseen side.new me
        ≡ min 64 (length (S.asked side.old me)
        - length (from_sender (S.number side.old me) (Q.received requests.old))) }
    ensures freed { IsTrue Q.keeps.freed → length (S.asked side.old me)
        ≤ length (from_sender (S.number side.old me) (Q.received requests.old))
        → S.clear side.new me }
    ensures learned { Learned S.keeps
        (number_at T.Tx replies.old.items (session - 1))
        (sent_at T.Tx replies.old.items (session - 1))
        (S.about side.old) (S.about side.new) }
    ensures told { IsTrue S.keeps.complete → IsFront (S.heard side.old me)
        (sent_at T.Tx replies.old.items (session - 1)) }
    ensures room { LearnsRoomOf T.clear T.unseen replies.new.items (session - 1) S.keeps
        (S.heard side.old me) (sent_at T.Tx replies.old.items (session - 1)) }
    ensures other_sessions { (place : ℕ) → place ≢ session - 1
        → slice_get replies.new.items place ≡ slice_get replies.old.items place }
    ensures other_workers { (other : ℕ) → 1 ≤ other → other ≢ me
        → S.clear side.old other → S.clear side.new other }
{
    let sender = &mut replies[usize::from(session) - 1];
    side.meet(me, requests, sender);
}
