//! The proxy of a session.
ghost use Rattle.std.specs.Prelude.{◌≡◌, ◌≤◌, ◌<◌, ◌^◌, ◌-◌, ◌==◌, All, IsTrue, IfOk, [], false, length, map, min, slice_index_or};
ghost use Rattle.mail_contract.specs.OverBoxes as boxes;
ghost use Rattle.mail_contract.specs.Standing.{AllPart};
ghost use Rattle.session_known.specs.Script.{AreEnded};
ghost use Rattle.session_known.specs.Session.{nothing_known};
ghost use Rattle.session_proxy.specs.Lines.{AreReplicas, MayRun};
ghost use Rattle.session_proxy.specs.OverProxies as over;
ghost use Rattle.session_proxy.specs.Polls.{EndsWhereAnswered};
ghost use Rattle.session_proxy.specs.State.{IsFixed, Knew, has_begun, opening, state_now};

use crate::local::{Begun, Local};
use crate::steps::step;
use crate::{Consistency, Progress};
use lattice_laws::{Items, NoMemory};
use mail_contract::{Rx, Tx};
use placement::Placement;
use session_known::{Answer, Known, Line, SessionState};
use std::collections::LinkedList;
use std::marker::{Model, PhantomData};
use store_msg::{Meets, Reply, Request, SessionEndsOver, meet_ends};

/// The proxy of one session, of a level, over the ends that it holds.
#[derive(Drop)]
pub struct ProxyOver<C: Consistency, T: Tx<Request>, R: Rx<Reply>> {
    pub(crate) local: Local,
    pub(crate) ends: SessionEndsOver<T, R>,
    consistency: PhantomData<C>,
}

impl<C: Consistency, T: Tx<Request>, R: Rx<Reply>> Model for ProxyOver<C, T, R> {
    ghost use Rattle.std.specs.Prelude.{◌≡◌};
    ghost use Rattle.session_proxy.specs.Kept.{KeepsAt};
    ghost use Rattle.session_proxy.specs.Local.{course_of};
    ghost use Rattle.session_proxy.specs.State.{PlainProxy};

    ghost Value = { PlainProxy T R };

    ghost view = { λ proxy. record { course = course_of proxy.local; ends = proxy.ends } };

    ghost invariant = { λ proxy. KeepsAt T.sent R.received proxy.local proxy.ends
        × (proxy.local.session.client.level ≡ C.level) };
}

impl<C: Consistency, T: Tx<Request>, R: Rx<Reply>> ProxyOver<C, T, R> {
    /// The proxy of the session of this number, from 1, before its first line. Its lines, at most 4,096,
    /// are such as its level has, on keys of the placement, and each of its transactions is ended. The ends
    /// are unused, with a sender of requests for each worker of the placement, in ascending order.
    pub fn new(
        me: u16,
        lines: Items<Line>,
        placement: Placement,
        ends: SessionEndsOver<T, R>,
    ) -> Result<ProxyOver<C, T, R>, NoMemory>
        requires me { 1 ≤ me }
        requires few_lines { length lines ≤ 4096 }
        requires lines { All (MayRun placement C.level) lines }
        requires transactions { AreEnded false lines }
        requires workers { length ends.requests.items < 2 ^ 16 }
        requires replicas { All (AreReplicas (length ends.requests.items)) placement }
        requires sent { All (λ sender. T.sent sender ≡ []) ends.requests.items }
        requires received { R.received ends.replies ≡ [] }
        ensures proxy { IfOk result (λ proxy. proxy ≡ record {
          course = opening (record { session = me; level = C.level }) placement lines (Knew nothing_known);
          ends = ends;
        }) }
        ensures share { IfOk result (over.Share T.Tx R.Rx) }
    {
        let known = Known::new(*ends.requests.allocator(), me, C::level());
        ProxyOver::new_after(me, lines, placement, ends, known)
    }

    /// The same of a session that comes after another: it knows this at its start, and has made no puts.
    pub fn new_after(
        me: u16,
        lines: Items<Line>,
        placement: Placement,
        ends: SessionEndsOver<T, R>,
        known: Known,
    ) -> Result<ProxyOver<C, T, R>, NoMemory>
        requires me { 1 ≤ me }
        requires few_lines { length lines ≤ 4096 }
        requires lines { All (MayRun placement C.level) lines }
        requires transactions { AreEnded false lines }
        requires workers { length ends.requests.items < 2 ^ 16 }
        requires replicas { All (AreReplicas (length ends.requests.items)) placement }
        requires sent { All (λ sender. T.sent sender ≡ []) ends.requests.items }
        requires received { R.received ends.replies ≡ [] }
        requires client { known.client ≡ record { session = me; level = C.level } }
        requires own { known.knows.own ≡ [] }
        ensures proxy { IfOk result (λ proxy. proxy ≡ record {
          course = opening (record { session = me; level = C.level }) placement lines (Knew known.knows);
          ends = ends;
        }) }
        ensures share { IfOk result (over.Share T.Tx R.Rx) }
    {
        let _ = me;
        let alloc = *ends.requests.allocator();
        let origin = known.copy()?;
        let mut answers = Vec::new(alloc);
        if answers.reserve(lines.as_slice().len()).is_err() {
            return Err(NoMemory);
        }
        let local = Local {
            lines,
            placement,
            origin,
            session: SessionState::start(alloc, known),
            answers,
            begun: Begun::Nothing,
            made: None,
            asks: 0,
            out: 0,
            waits: false,
            kept: None,
            alloc,
        };
        let proxy = ProxyOver {
            local,
            ends,
            consistency: PhantomData,
        };
        proxy.attest();
        Ok(proxy)
    }

    /// Makes one step, and tells which. A request is sent: a line's next put, or the next ask. Or the
    /// open line is answered where it needs no mail. Or a reply is taken: the one that is awaited answers
    /// the line where it shows a cell, or where it was the last that may be asked for; another is dropped.
    ///
    /// A put that finds no place or no memory keeps its number, and goes out at a later call. With
    /// `NoMemory` the answers and what was sent are as before, and a reply that was taken is kept: a later
    /// call works on it.
    pub fn poll(&mut self) -> Result<Progress, NoMemory>
        ensures share { over.Share T.Tx R.Rx self.new }
        ensures fixed { IsFixed self.old.course self.new.course }
        ensures keys { over.KeysStay T.Tx R.Rx self.old self.new }
        ensures polls { over.Polls T.Tx R.Rx result self.old self.new }
        ensures takes { boxes.MayTake R.Rx self.old.ends.replies self.new.ends.replies }
        ensures ended { EndsWhereAnswered result self.old.course }
    {
        let progress = step(&mut self.local, &mut self.ends);
        self.attest();
        progress
    }

    /// What the session keeps from call to call. It does nothing.
    pub fn attest(&self)
        ensures share { over.Share T.Tx R.Rx self.now }
        ensures begun { IsTrue (has_begun self.now.course) }
    {
        let _ = &self.local;
    }

    /// The answers of the first lines, in order. Takes no memory.
    pub fn answers(&self) -> &[Answer]
        ensures { result.now ≡ self.now.course.answers }
    {
        self.local.answers.as_slice()
    }

    /// Whether every line is answered. Takes no memory.
    pub fn has_ended(&self) -> bool
        ensures { result ≡ (length self.now.course.answers == length self.now.course.lines) }
    {
        self.local.answers.len() == self.local.lines.as_slice().len()
    }

    /// What the session knows; where all its lines are answered, what it knows after the last. Takes no memory.
    pub fn known(&self) -> &Known
        ensures client { result.now.client ≡ self.now.course.client }
        ensures knows { length self.now.course.answers ≡ length self.now.course.lines
            → result.now.knows ≡ (state_now self.now.course).knows }
    {
        self.local.session.known()
    }

    /// Whether a reply is awaited. Takes no memory.
    pub fn waits(&self) -> bool
        ensures { result ≡ self.now.course.waits }
    {
        self.local.waits
    }

    /// Nobody is beside the box of replies any longer. Takes no memory.
    pub fn apart(&mut self)
        ensures share { over.Share T.Tx R.Rx self.new }
        ensures course { self.new.course ≡ self.old.course }
        ensures requests { self.new.ends.requests ≡ self.old.ends.requests }
        ensures key { R.key self.new.ends.replies ≡ R.key self.old.ends.replies }
        ensures received { R.received self.new.ends.replies ≡ R.received self.old.ends.replies }
        ensures answers { R.answers self.new.ends.replies ≡ R.answers self.old.ends.replies }
        ensures about { AllPart (R.about self.old.ends.replies) (R.about self.new.ends.replies) }
    {
        self.ends.replies.apart();
        self.attest();
    }

    /// The answers and the ends; every line is answered. Takes no memory.
    pub fn finish(self) -> (Items<Answer>, SessionEndsOver<T, R>)
        requires { length self.course.answers ≡ length self.course.lines }
        ensures share { over.Share T.Tx R.Rx self }
        ensures answers { result.0 ≡ self.course.answers }
        ensures ends { result.1 ≡ self.ends }
    {
        self.attest();
        let ProxyOver { local, ends, .. } = self;
        (Items::new(local.answers), ends)
    }
}

impl<C: Consistency, T: Tx<Request>, R: Rx<Reply>, Q: Rx<Request, From = T>> Meets<Q, R::From>
    for ProxyOver<C, T, R> {
    ghost use Rattle.std.specs.Prelude.{◌≡◌, ◌-◌, ℕ, [], List, map, slice_index_or};
    ghost use Rattle.mail_contract.specs.Lanes.{IsLaneOf};
    ghost use Rattle.mail_contract.specs.Takes.{Answers, from_sender};
    ghost use Rattle.session_proxy.specs.State.{Course};
    ghost use Rattle.store_msg.specs.Reply.{PlainReply};
    ghost use Rattle.store_msg.specs.declared.request.Request.{Request as Asked};

    type Key = (LinkedList<T::Key>, R::Key);

    ghost key = { λ proxy. (map T.key proxy.ends.requests.items, R.key proxy.ends.replies) };

    ghost pairs = { λ key worker requests number replies sender.
        IsLaneOf (λ tx rx. Q.pairs rx tx number) key.0 requests worker
        × R.pairs key.1 replies sender × (sender ≡ worker) };

    ghost number = { λ proxy worker.
        slice_index_or (map T.number proxy.ends.requests.items) (worker - 1) 0 };

    ghost asked = { λ proxy worker.
        slice_index_or (map T.sent proxy.ends.requests.items) (worker - 1) [] };

    ghost heard = { λ proxy worker. from_sender worker (R.received proxy.ends.replies) };

    ghost unseen = { λ proxy worker.
        slice_index_or (map T.unseen proxy.ends.requests.items) (worker - 1) 0 };

    ghost clear = { λ proxy worker. (tx : T)
        → slice_index_or proxy.ends.requests.items (worker - 1) tx ≡ tx → T.clear tx };

    ghost Rest = { Course × List ℕ × List (List Asked) × List (ℕ × PlainReply) × List ℕ × Answers };

    ghost rest = { λ proxy. (
      proxy.course,
      map T.number proxy.ends.requests.items,
      map T.sent proxy.ends.requests.items,
      R.received proxy.ends.replies,
      map T.fulls proxy.ends.requests.items,
      R.answers proxy.ends.replies,
    ) };

    ghost about = { λ proxy. R.about proxy.ends.replies };

    ghost keeps = { R.keeps };

    fn meet(&mut self, worker: u16, requests: &mut Q, replies: &mut R::From) {
        meet_ends(&mut self.ends, worker, requests, replies)
    }
}
