//! What a session and a worker learn of each other where their ends are held together.
ghost use Rattle.std.specs.Prelude.{◌≡◌, ◌≢◌, ℕ, ◌-◌, ◌≤◌, IsTrue, List, map};
ghost use Rattle.mail_contract.specs.Beside.{FindsPlaceBy, IsLearned, LearnsUnseenBy};
ghost use Rattle.mail_contract.specs.OverBoxes as boxes;
ghost use Rattle.mail_contract.specs.Parts.{Parts};
ghost use Rattle.mail_contract.specs.Seen.{Stays};
ghost use Rattle.mail_contract.specs.Standing.{About};
ghost use Rattle.mail_contract.specs.Takes.{IsFront, from_sender};
ghost use Rattle.store_msg.specs.Meets.{FindsPlace, FindsPlaceAt, IsPaired, Learns, LearnsAt, LearnsUnseen, LearnsUnseenAt, OthersStayThere, OthersUnseenStay, TellsFront, TellsFrontAt};
ghost use Rattle.store_msg.specs.Reply.{PlainReply};
ghost use Rattle.store_msg.specs.declared.request.Request.{Request as Asked};

use crate::{Reply, Request, SessionEndsOver};
use mail_contract::{Rx, Tx};
use std::collections::LinkedList;

/// A session, whose ends for a worker can be held beside the worker's for it: the box of requests
/// beside the session's sender, and the sender of replies beside the session's box.
pub trait Meets<Q: Rx<Request>, T: Tx<Reply>> {
    /// What no call changes. No value of it is made.
    type Key;

    ghost key: { Self → Self.Key };

    // A worker's ends, by its number, are of one making with the session's: its box of requests with a
    // sender of this number, and its sender of replies, of this number, with the session's box.
    ghost pairs: { Self.Key → ℕ → Q.Key → ℕ → T.Key → ℕ → Type 0 };

    // The session's number at the box of a worker.
    ghost number: { Self → ℕ → ℕ };

    // All that it asked of a worker and all that it was replied by it, in order.
    ghost asked: { Self → ℕ → List Asked };

    ghost heard: { Self → ℕ → List PlainReply };

    // Its sender of requests to a worker: how many of these may take up a place, and whether the next finds one.
    ghost unseen: { Self → ℕ → ℕ };

    ghost clear: { Self → ℕ → Type 0 };

    // All else of it that a contract sees, which no meeting changes.
    ghost Rest: { Type 0 };

    ghost rest: { Self → Rest };

    // What its box knows of a worker's sender of replies, and which parts of the contract it keeps.
    ghost about: { Self → ℕ → About PlainReply };

    ghost keeps: { Parts };

    /// Holds the ends of a worker beside the session's, so that each learns what the other has. Takes no
    /// memory.
    fn meet(&mut self, worker: u16, requests: &mut Q, replies: &mut T)
        requires { pairs (key self.old) worker (Q.key requests.old) (number self.old worker)
            (T.key replies.old) (T.number replies.old) }
        ensures key { key self.new ≡ key self.old }
        ensures number { number self.new ≡ number self.old }
        ensures asked { asked self.new ≡ asked self.old }
        ensures heard { heard self.new ≡ heard self.old }
        ensures rest { rest self.new ≡ rest self.old }

        // The box of requests.
        ensures requests_key { Q.key requests.new ≡ Q.key requests.old }
        ensures requests_received { Q.received requests.new ≡ Q.received requests.old }
        ensures requests_answers { Q.answers requests.new ≡ Q.answers requests.old }
        ensures requests_learned { Learns Q.Rx number asked self.old worker requests.old
            requests.new }
        ensures requests_told { TellsFront Q.Rx number asked self.old worker requests.old }

        // The session's sender.
        ensures roomy { LearnsUnseen Q.Rx number asked unseen worker requests.old self.old
            self.new }
        ensures freed { FindsPlace Q.Rx number asked clear worker requests.old self.old self.new }
        ensures others { (other : ℕ) → 1 ≤ other → other ≢ worker
            → clear self.old other → clear self.new other }
        ensures others_unseen { (other : ℕ) → 1 ≤ other → other ≢ worker
            → unseen self.new other ≡ unseen self.old other }

        // The session's box.
        ensures learned { IsLearned T.Tx keeps replies.old (about self.old) (about self.new) }
        ensures told { IsTrue keeps.complete → IsFront (heard self.old worker)
            (T.sent replies.old) }

        // The worker's sender of replies.
        ensures replies_key { T.key replies.new ≡ T.key replies.old }
        ensures replies_number { T.number replies.new ≡ T.number replies.old }
        ensures replies_sent { T.sent replies.new ≡ T.sent replies.old }
        ensures replies_fulls { T.fulls replies.new ≡ T.fulls replies.old }
        ensures replies_roomy { IsTrue keeps.roomy
            → LearnsUnseenBy T.Tx (heard self.old worker) replies.old replies.new }
        ensures replies_freed { IsTrue keeps.freed
            → FindsPlaceBy T.Tx (heard self.old worker) replies.old replies.new };
}

/// Holds the ends of a worker, by its number, beside a session's. Takes no memory.
pub fn meet_ends<T: Tx<Request>, R: Rx<Reply>, Q: Rx<Request, From = T>>(
    ends: &mut SessionEndsOver<T, R>,
    worker: u16,
    requests: &mut Q,
    replies: &mut R::From,
)
    requires asks { IsPaired Q.Rx T.Tx ends.old.requests.items worker requests.old }
    requires hears { R.pairs (R.key ends.old.replies) (R.From.key replies.old)
        (R.From.number replies.old) }
    requires number { R.From.number replies.old ≡ worker }
    ensures keys { Stays (map T.key) ends.old.requests.items ends.new.requests.items }
    ensures numbers { Stays (map T.number) ends.old.requests.items ends.new.requests.items }
    ensures sent { Stays (map T.sent) ends.old.requests.items ends.new.requests.items }
    ensures key { R.key ends.new.replies ≡ R.key ends.old.replies }
    ensures received { R.received ends.new.replies ≡ R.received ends.old.replies }
    ensures fulls { Stays (map T.fulls) ends.old.requests.items ends.new.requests.items }
    ensures answers { R.answers ends.new.replies ≡ R.answers ends.old.replies }

    // The box of requests.
    ensures requests_key { Q.key requests.new ≡ Q.key requests.old }
    ensures requests_received { Q.received requests.new ≡ Q.received requests.old }
    ensures requests_answers { Q.answers requests.new ≡ Q.answers requests.old }
    ensures requests_learned { LearnsAt Q.Rx T.Tx ends.old.requests.items (worker - 1)
        requests.old requests.new }
    ensures requests_told { TellsFrontAt Q.Rx T.Tx ends.old.requests.items (worker - 1)
        requests.old }

    // The session's sender.
    ensures roomy { LearnsUnseenAt Q.Rx T.Tx (worker - 1) requests.old
        ends.old.requests.items ends.new.requests.items }
    ensures freed { FindsPlaceAt Q.Rx T.Tx (worker - 1) requests.old
        ends.old.requests.items ends.new.requests.items }
    ensures others { OthersStayThere (worker - 1) ends.old.requests.items ends.new.requests.items }
    ensures others_unseen { OthersUnseenStay T.Tx (worker - 1)
        ends.old.requests.items ends.new.requests.items }

    // The session's box.
    ensures learned { boxes.Learns R.Rx R.From.Tx replies.old ends.old.replies ends.new.replies }
    ensures told { IsTrue R.keeps.complete
        → IsFront (from_sender worker (R.received ends.old.replies)) (R.From.sent replies.old) }

    // The worker's sender of replies.
    ensures replies_key { R.From.key replies.new ≡ R.From.key replies.old }
    ensures replies_number { R.From.number replies.new ≡ R.From.number replies.old }
    ensures replies_sent { R.From.sent replies.new ≡ R.From.sent replies.old }
    ensures replies_fulls { R.From.fulls replies.new ≡ R.From.fulls replies.old }
    ensures replies_roomy { IsTrue R.keeps.roomy → LearnsUnseenBy R.From.Tx
        (from_sender worker (R.received ends.old.replies)) replies.old replies.new }
    ensures replies_freed { IsTrue R.keeps.freed → FindsPlaceBy R.From.Tx
        (from_sender worker (R.received ends.old.replies)) replies.old replies.new }
{
    let sender = &mut ends.requests[worker as usize - 1];
    requests.beside(sender);
    ends.replies.beside(replies);
}

impl<T: Tx<Request>, R: Rx<Reply>, Q: Rx<Request, From = T>> Meets<Q, R::From>
    for SessionEndsOver<T, R> {
    ghost use Rattle.std.specs.Prelude.{◌≡◌, ◌-◌, ℕ, List, map};
    ghost use Rattle.mail_contract.specs.Lanes.{IsLaneOf};
    ghost use Rattle.mail_contract.specs.OverSenders.{number_at, sent_at, unseen_at};
    ghost use Rattle.mail_contract.specs.Takes.{Answers, from_sender};
    ghost use Rattle.store_msg.specs.Meets.{IsClearThere};
    ghost use Rattle.store_msg.specs.Reply.{PlainReply};
    ghost use Rattle.store_msg.specs.declared.request.Request.{Request as Asked};

    type Key = (LinkedList<T::Key>, R::Key);

    ghost key = { λ ends. (map T.key ends.requests.items, R.key ends.replies) };

    ghost pairs = { λ key worker requests number replies sender.
        IsLaneOf (λ tx rx. Q.pairs rx tx number) key.0 requests worker
        × R.pairs key.1 replies sender × (sender ≡ worker) };

    ghost number = { λ ends worker. number_at T.Tx ends.requests.items (worker - 1) };

    ghost asked = { λ ends worker. sent_at T.Tx ends.requests.items (worker - 1) };

    ghost heard = { λ ends worker. from_sender worker (R.received ends.replies) };

    ghost unseen = { λ ends worker. unseen_at T.Tx ends.requests.items (worker - 1) };

    ghost clear = { λ ends worker. IsClearThere T.Tx ends.requests.items (worker - 1) };

    ghost Rest = { List ℕ × List (List Asked) × List (ℕ × PlainReply) × List ℕ × Answers };

    ghost rest = { λ ends. (
      map T.number ends.requests.items,
      map T.sent ends.requests.items,
      R.received ends.replies,
      map T.fulls ends.requests.items,
      R.answers ends.replies,
    ) };

    ghost about = { λ ends. R.about ends.replies };

    ghost keeps = { R.keeps };

    fn meet(&mut self, worker: u16, requests: &mut Q, replies: &mut R::From) {
        meet_ends(self, worker, requests, replies)
    }
}
