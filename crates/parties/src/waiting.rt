//! A session that waits for the end of another.
ghost use Rattle.std.specs.Prelude.{◌≡◌, ◌≤◌, ◌<◌, ◌^◌, All, IfOk, [], false, length};
ghost use Rattle.parties.specs.PlainWaiting.{waiting_proxy};
ghost use Rattle.session_known.specs.Script.{AreEnded};
ghost use Rattle.session_known.specs.declared.script.Level.TheVariants.{Causal};
ghost use Rattle.session_proxy.specs.Lines.{AreReplicas, MayRun};
ghost use Rattle.session_proxy.specs.OverProxies as over;
ghost use Rattle.session_proxy.specs.State.{Knew};

use lattice_laws::{Items, NoMemory};
use mail_contract::{Rx, Tx};
use placement::Placement;
use session_causal::CausalLevel;
use session_known::{Known, Line};
use session_proxy::ProxyOver;
use std::marker::Model;
use store_msg::{Mail, Reply, Request, SessionEndsOver};

/// A causal session that waits for the end of another, over the ends that it holds. It takes no step, and nothing
/// goes through its ends.
#[derive(Drop)]
pub struct WaitingOver<T: Tx<Request>, R: Rx<Reply>> {
    pub(crate) me: u16,
    pub(crate) after: u16,
    pub(crate) lines: Items<Line>,
    pub(crate) placement: Placement,
    pub(crate) ends: SessionEndsOver<T, R>,
}

/// A session that waits, over one kind of mail.
pub type Waiting<P> = WaitingOver<<P as Mail>::ReqTx, <P as Mail>::RepRx>;

impl<T: Tx<Request>, R: Rx<Reply>> Model for WaitingOver<T, R> {
    ghost use Rattle.std.specs.Prelude.{map};
    ghost use Rattle.parties.specs.PlainWaiting.{CanBegin, PlainWaiting};

    ghost Value = { PlainWaiting T R };

    ghost view = { λ waiting. record {
      me = waiting.me;
      after = waiting.after;
      lines = waiting.lines;
      table = waiting.placement;
      ends = waiting.ends;
    } };

    ghost invariant = { λ waiting. CanBegin waiting.me waiting.lines waiting.placement
        (map T.sent waiting.ends.requests.items) (R.received waiting.ends.replies) };
}

impl<T: Tx<Request>, R: Rx<Reply>> WaitingOver<T, R> {
    /// The session of this number, from 1, which begins once that of the number `after` has ended. Its lines, at
    /// most 4,096, are such as a causal session has, on keys of the placement. The ends are unused, with a sender of
    /// requests for each worker of the placement, in ascending order. Takes no memory.
    pub fn new(
        me: u16,
        after: u16,
        lines: Items<Line>,
        placement: Placement,
        ends: SessionEndsOver<T, R>,
    ) -> WaitingOver<T, R>
        requires me { 1 ≤ me }
        requires few_lines { length lines ≤ 4096 }
        requires lines { All (MayRun placement Causal) lines }
        requires transactions { AreEnded false lines }
        requires workers { length ends.requests.items < 2 ^ 16 }
        requires replicas { All (AreReplicas (length ends.requests.items)) placement }
        requires sent { All (λ sender. T.sent sender ≡ []) ends.requests.items }
        requires received { R.received ends.replies ≡ [] }
        ensures { result ≡ record {
          me = me;
          after = after;
          lines = lines;
          table = placement;
          ends = ends;
        } }
    {
        WaitingOver {
            me,
            after,
            lines,
            placement,
            ends,
        }
    }

    /// The number of the session. Takes no memory.
    pub fn me(&self) -> u16
        ensures { result ≡ self.now.me }
    {
        self.me
    }

    /// The number of the session that it waits for. Takes no memory.
    pub fn after(&self) -> u16
        ensures { result ≡ self.now.after }
    {
        self.after
    }

    /// What the session keeps from call to call. It does nothing.
    pub(crate) fn attest(&self)
        ensures { over.Share T.Tx R.Rx (waiting_proxy self.now) }
    {
        let _ = &self.lines;
    }

    /// The session's proxy, where this is what it knows at its start.
    pub fn begin(self, known: Known) -> Result<ProxyOver<CausalLevel, T, R>, NoMemory>
        requires client { known.client ≡ record { session = self.me; level = Causal } }
        requires own { known.knows.own ≡ [] }
        ensures proxy { IfOk result (λ proxy. proxy ≡ record {
          course = record (waiting_proxy self).course { origin = Knew known.knows };
          ends = self.ends;
        }) }
        ensures share { IfOk result (over.Share T.Tx R.Rx) }
    {
        let WaitingOver {
            me,
            lines,
            placement,
            ends,
            ..
        } = self;
        ProxyOver::new_after(me, lines, placement, ends, known)
    }
}
