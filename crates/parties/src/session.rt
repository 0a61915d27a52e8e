//! A session of any level.
ghost use Rattle.std.specs.Prelude.{◌≡◌, ◌≤◌, ◌<◌, ◌^◌, All, IfOk, IfSome, IsNone, IsTrue, [], false, length};
ghost use Rattle.mail_contract.specs.OverBoxes as boxes;
ghost use Rattle.mail_contract.specs.Standing.{AllPart};
ghost use Rattle.session_known.specs.Script.{AreEnded};
ghost use Rattle.session_known.specs.declared.script.Level.TheVariants.{Causal};
ghost use Rattle.session_proxy.specs.Lines.{AreReplicas, MayRun};
ghost use Rattle.session_proxy.specs.OverProxies as over;
ghost use Rattle.session_proxy.specs.Polls.{EndsWhereAnswered};
ghost use Rattle.session_proxy.specs.State.{IsFixed, Knew, first_origin, has_begun, opening};
ghost use Rattle.parties.specs.PlainWaiting.{waiting_proxy};
ghost use Rattle.parties.specs.Polling.{IsAllAnswered, KnowsAtEnd};
ghost use Rattle.parties.specs.Session.{Waits, proxy_of};

use crate::waiting::WaitingOver;
use lattice_laws::{Items, NoMemory};
use mail_contract::{Rx, Tx};
use placement::Placement;
use session_causal::CausalLevel;
use session_known::{Answer, Known, Level, Line};
use session_plain::{CommittedLevel, EventualLevel};
use session_proxy::{Consistency, Progress, ProxyOver};
use std::collections::LinkedList;
use store_msg::{Mail, Meets, Reply, Request, SessionEndsOver, meet_ends};

/// A session of any of the three levels, or one that waits for the end of another, over the ends that it holds.
/// Contracts see the proxy of its level.
#[derive(Drop)]
pub enum SessionOver<T: Tx<Request>, R: Rx<Reply>> {
    /// Its puts go out at once, and a get shows what one replica has.
    Eventual(ProxyOver<EventualLevel, T, R>),
    /// The puts of a transaction are held until its commit.
    Committed(ProxyOver<CommittedLevel, T, R>),
    /// A reply covers all that it knows of the key, and each put depends on all that it knew.
    Causal(ProxyOver<CausalLevel, T, R>),
    /// It begins once another has ended, and is causal then.
    Waiting(WaitingOver<T, R>),
}

/// What a session that has begun knows, where every line of it is answered.
fn known_where_ended<C: Consistency, T: Tx<Request>, R: Rx<Reply>>(
    proxy: &ProxyOver<C, T, R>,
) -> Option<&Known>
    ensures known { IfSome result (λ known. KnowsAtEnd proxy.now known.now.knows) }
    ensures none { IsNone result → IsAllAnswered proxy.now → ⊥ }
{
    proxy.attest();
    if !proxy.has_ended() {
        return None;
    }
    Some(proxy.known())
}

/// A session over one kind of mail.
pub type Session<P> = SessionOver<<P as Mail>::ReqTx, <P as Mail>::RepRx>;

impl<T: Tx<Request>, R: Rx<Reply>> SessionOver<T, R> {
    /// The session of this number, from 1, and of this level, before its first line. Where it comes after another, by
    /// the number of that one, it is causal, and waits for it. Its lines, at most 4,096, are such as its level has, on
    /// keys of the placement, and each of its transactions is ended. The ends are unused, with a sender of requests for
    /// each worker of the placement, in ascending order.
    pub fn new(
        me: u16,
        level: Level,
        after: Option<u16>,
        lines: Items<Line>,
        placement: Placement,
        ends: SessionEndsOver<T, R>,
    ) -> Result<SessionOver<T, R>, NoMemory>
        requires me { 1 ≤ me }
        requires causal { IfSome after (λ _. level ≡ Causal) }
        requires few_lines { length lines ≤ 4096 }
        requires lines { All (MayRun placement level) lines }
        requires transactions { AreEnded false lines }
        requires workers { length ends.requests.items < 2 ^ 16 }
        requires replicas { All (AreReplicas (length ends.requests.items)) placement }
        requires sent { All (λ sender. T.sent sender ≡ []) ends.requests.items }
        requires received { R.received ends.replies ≡ [] }
        ensures proxy { IfOk result (λ session. proxy_of session ≡ record {
          course = opening (record { session = me; level = level }) placement lines
              (first_origin after);
          ends = ends;
        }) }
        ensures share { IfOk result (λ session. over.Share T.Tx R.Rx (proxy_of session)) }
    {
        if let Some(after) = after {
            let waiting = WaitingOver::new(me, after, lines, placement, ends);
            waiting.attest();
            return Ok(SessionOver::Waiting(waiting));
        }
        match level {
            Level::Eventual => {
                Ok(SessionOver::Eventual(ProxyOver::new(me, lines, placement, ends)?))
            }
            Level::Committed => {
                Ok(SessionOver::Committed(ProxyOver::new(me, lines, placement, ends)?))
            }
            Level::Causal => {
                Ok(SessionOver::Causal(ProxyOver::new(me, lines, placement, ends)?))
            }
        }
    }

    /// Makes one step, and tells which. A request is sent: a line's next put, or the next ask. Or the
    /// open line is answered where it needs no mail. Or a reply is taken: the one that is awaited answers
    /// the line where it shows a cell, or where it was the last that may be asked for; another is dropped.
    ///
    /// A put that finds no place or no memory keeps its number, and goes out at a later call. With
    /// `NoMemory` the answers and what was sent are as before, and a reply that was taken is kept: a later
    /// call works on it.
    pub fn poll(&mut self) -> Result<Progress, NoMemory>
        requires { IsTrue (has_begun (proxy_of self.old).course) }
        ensures share { over.Share T.Tx R.Rx (proxy_of self.new) }
        ensures fixed { IsFixed (proxy_of self.old).course (proxy_of self.new).course }
        ensures keys { over.KeysStay T.Tx R.Rx (proxy_of self.old) (proxy_of self.new) }
        ensures polls { over.Polls T.Tx R.Rx result (proxy_of self.old) (proxy_of self.new) }
        ensures takes { boxes.MayTake R.Rx
            (proxy_of self.old).ends.replies (proxy_of self.new).ends.replies }
        ensures ended { EndsWhereAnswered result (proxy_of self.old).course }
    {
        match self {
            SessionOver::Eventual(proxy) => proxy.poll(),
            SessionOver::Committed(proxy) => proxy.poll(),
            SessionOver::Causal(proxy) => proxy.poll(),
            SessionOver::Waiting(_) => unreachable!(),
        }
    }

    /// Whether it has begun. Takes no memory.
    pub fn has_begun(&self) -> bool
        ensures { result ≡ has_begun (proxy_of self.now).course }
    {
        match self {
            SessionOver::Eventual(proxy) => proxy.attest(),
            SessionOver::Committed(proxy) => proxy.attest(),
            SessionOver::Causal(proxy) => proxy.attest(),
            SessionOver::Waiting(_) => return false,
        }
        true
    }

    /// The session as it waits for the end of another, where it has not begun. Takes no memory.
    pub fn waiting(&self) -> Option<&WaitingOver<T, R>>
        ensures waits { IfSome result (λ waiting. Waits self.now
            × (proxy_of self.now ≡ waiting_proxy waiting.now)) }
        ensures begun { IsNone result → IsTrue (has_begun (proxy_of self.now).course) }
    {
        match self {
            SessionOver::Eventual(proxy) => proxy.attest(),
            SessionOver::Committed(proxy) => proxy.attest(),
            SessionOver::Causal(proxy) => proxy.attest(),
            SessionOver::Waiting(waiting) => return Some(waiting),
        }
        None
    }

    /// What the session knows, where it has begun and every line is answered. Takes no memory.
    pub fn known_at_end(&self) -> Option<&Known>
        ensures known { IfSome result (λ known. KnowsAtEnd (proxy_of self.now) known.now.knows) }
        ensures none { IsNone result → IsAllAnswered (proxy_of self.now) → ⊥ }
    {
        match self {
            SessionOver::Eventual(proxy) => known_where_ended(proxy),
            SessionOver::Committed(proxy) => known_where_ended(proxy),
            SessionOver::Causal(proxy) => known_where_ended(proxy),
            SessionOver::Waiting(_) => None,
        }
    }

    /// It begins, where this is what it knows at its start.
    pub fn begin(self, known: Known) -> Result<SessionOver<T, R>, NoMemory>
        requires waits { Waits self }
        requires client { known.client ≡ (proxy_of self).course.client }
        requires own { known.knows.own ≡ [] }
        ensures proxy { IfOk result (λ session. proxy_of session ≡ record {
          course = record (proxy_of self).course { origin = Knew known.knows };
          ends = (proxy_of self).ends;
        }) }
        ensures share { IfOk result (λ session. over.Share T.Tx R.Rx (proxy_of session)) }
    {
        match self {
            SessionOver::Waiting(waiting) => Ok(SessionOver::Causal(waiting.begin(known)?)),
            _ => unreachable!(),
        }
    }

    /// The answers of the first lines, in order. Takes no memory.
    pub fn answers(&self) -> &[Answer]
        ensures { result.now ≡ (proxy_of self.now).course.answers }
    {
        match self {
            SessionOver::Eventual(proxy) => proxy.answers(),
            SessionOver::Committed(proxy) => proxy.answers(),
            SessionOver::Causal(proxy) => proxy.answers(),
            SessionOver::Waiting(_) => &[],
        }
    }

    /// Whether a reply is awaited. Takes no memory.
    pub fn waits(&self) -> bool
        ensures { result ≡ (proxy_of self.now).course.waits }
    {
        match self {
            SessionOver::Eventual(proxy) => proxy.waits(),
            SessionOver::Committed(proxy) => proxy.waits(),
            SessionOver::Causal(proxy) => proxy.waits(),
            SessionOver::Waiting(_) => false,
        }
    }

    /// Nobody is beside the box of replies any longer. Takes no memory.
    pub fn apart(&mut self)
        ensures share { over.Share T.Tx R.Rx (proxy_of self.new) }
        ensures course { (proxy_of self.new).course ≡ (proxy_of self.old).course }
        ensures requests { (proxy_of self.new).ends.requests ≡ (proxy_of self.old).ends.requests }
        ensures key { R.key (proxy_of self.new).ends.replies
            ≡ R.key (proxy_of self.old).ends.replies }
        ensures received { R.received (proxy_of self.new).ends.replies
            ≡ R.received (proxy_of self.old).ends.replies }
        ensures answers { R.answers (proxy_of self.new).ends.replies
            ≡ R.answers (proxy_of self.old).ends.replies }
        ensures about { AllPart (R.about (proxy_of self.old).ends.replies)
            (R.about (proxy_of self.new).ends.replies) }
    {
        match self {
            SessionOver::Eventual(proxy) => proxy.apart(),
            SessionOver::Committed(proxy) => proxy.apart(),
            SessionOver::Causal(proxy) => proxy.apart(),
            SessionOver::Waiting(waiting) => {
                waiting.ends.replies.apart();
                waiting.attest();
            }
        }
    }

    /// The answers and the ends; every line is answered. Takes no memory.
    pub fn finish(self) -> (Items<Answer>, SessionEndsOver<T, R>)
        requires { IsAllAnswered (proxy_of self) }
        ensures share { over.Share T.Tx R.Rx (proxy_of self) }
        ensures answers { result.0 ≡ (proxy_of self).course.answers }
        ensures ends { result.1 ≡ (proxy_of self).ends }
    {
        match self {
            SessionOver::Eventual(proxy) => proxy.finish(),
            SessionOver::Committed(proxy) => proxy.finish(),
            SessionOver::Causal(proxy) => proxy.finish(),
            SessionOver::Waiting(_) => unreachable!(),
        }
    }
}

impl<T: Tx<Request>, R: Rx<Reply>, Q: Rx<Request, From = T>> Meets<Q, R::From>
    for SessionOver<T, R> {
    ghost use Rattle.std.specs.Prelude.{◌≡◌, ◌-◌, ℕ, [], List, map, slice_index_or};
    ghost use Rattle.mail_contract.specs.Lanes.{IsLaneOf};
    ghost use Rattle.mail_contract.specs.Takes.{Answers, from_sender};
    ghost use Rattle.parties.specs.Session.{proxy_of};
    ghost use Rattle.session_proxy.specs.State.{Course};
    ghost use Rattle.store_msg.specs.Reply.{PlainReply};
    ghost use Rattle.store_msg.specs.declared.request.Request.{Request as Asked};

    type Key = (LinkedList<T::Key>, R::Key);

    ghost key = { λ session. (
      map T.key (proxy_of session).ends.requests.items,
      R.key (proxy_of session).ends.replies,
    ) };

    ghost pairs = { λ key worker requests number replies sender.
        IsLaneOf (λ tx rx. Q.pairs rx tx number) key.0 requests worker
        × R.pairs key.1 replies sender × (sender ≡ worker) };

    ghost number = { λ session worker.
        slice_index_or (map T.number (proxy_of session).ends.requests.items) (worker - 1) 0 };

    ghost asked = { λ session worker.
        slice_index_or (map T.sent (proxy_of session).ends.requests.items) (worker - 1) [] };

    ghost heard = { λ session worker.
        from_sender worker (R.received (proxy_of session).ends.replies) };

    ghost unseen = { λ session worker.
        slice_index_or (map T.unseen (proxy_of session).ends.requests.items) (worker - 1) 0 };

    ghost clear = { λ session worker. (tx : T)
        → slice_index_or (proxy_of session).ends.requests.items (worker - 1) tx ≡ tx → T.clear tx };

    ghost Rest = { Course × List ℕ × List (List Asked) × List (ℕ × PlainReply) × List ℕ × Answers };

    ghost rest = { λ session. (
      (proxy_of session).course,
      map T.number (proxy_of session).ends.requests.items,
      map T.sent (proxy_of session).ends.requests.items,
      R.received (proxy_of session).ends.replies,
      map T.fulls (proxy_of session).ends.requests.items,
      R.answers (proxy_of session).ends.replies,
    ) };

    ghost about = { λ session. R.about (proxy_of session).ends.replies };

    ghost keeps = { R.keeps };

    fn meet(&mut self, worker: u16, requests: &mut Q, replies: &mut R::From) {
        match self {
            SessionOver::Eventual(proxy) => proxy.meet(worker, requests, replies),
            SessionOver::Committed(proxy) => proxy.meet(worker, requests, replies),
            SessionOver::Causal(proxy) => proxy.meet(worker, requests, replies),
            SessionOver::Waiting(waiting) => {
                meet_ends(&mut waiting.ends, worker, requests, replies)
            }
        }
    }
}
