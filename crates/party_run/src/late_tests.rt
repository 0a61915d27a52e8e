//! A whole run over boxes of gossip that hand out late, judged.
use super::tests::script_of;
use super::*;
use anna_check::{Verdict, check};
use late_gossip::Late;
use lattice_laws::NoMemory;
use mail_rings::{RingRx, RingTx, rings};
use std::alloc::Global;
use std::test::Fail;
use store_msg::{Batch, Mail, Reply, Request};

/// Boxes over rings; those of gossip hand out late.
struct LatePost;

impl Mail for LatePost {
    type ReqTx = RingTx<Request>;

    type ReqRx = RingRx<Request>;

    type RepTx = RingTx<Reply>;

    type RepRx = RingRx<Reply>;

    type GosTx = RingTx<Batch>;

    type GosRx = Late<Batch, RingRx<Batch>>;
}

impl MakesPost for LatePost {}

impl MakesMail<Request> for LatePost {
    type Mailbox = RingRx<Request>;

    fn make(
        &self,
        alloc: Global,
        senders: u16,
    ) -> Result<(Vec<RingTx<Request>>, RingRx<Request>), NoMemory> {
        <RingPost as MakesMail<Request>>::make(&RingPost, alloc, senders)
    }
}

impl MakesMail<Reply> for LatePost {
    type Mailbox = RingRx<Reply>;

    fn make(
        &self,
        alloc: Global,
        senders: u16,
    ) -> Result<(Vec<RingTx<Reply>>, RingRx<Reply>), NoMemory> {
        <RingPost as MakesMail<Reply>>::make(&RingPost, alloc, senders)
    }
}

impl MakesGossip<Batch> for LatePost {
    ghost use Rattle.party_ends.specs.Numbers.{in_order};

    type Mailbox = Late<Batch, RingRx<Batch>>;

    ghost numbers = { λ _. in_order };

    fn make_weak(
        &self,
        alloc: Global,
        _owner: u16,
        senders: u16,
    ) -> Result<(Vec<RingTx<Batch>>, Late<Batch, RingRx<Batch>>), NoMemory> {
        let (txs, inner) = rings(alloc, senders)?;
        let late = Late::new(alloc, inner)?;
        Ok((txs, late))
    }
}

/// Two workers that both hold two keys, and two causal sessions that await what the other one put.
const SCRIPT: &str =
    "anna 1\nworkers 2\nround 1\nkey a set at 1 2\nkey b max at 2 1\nsession s causal\nput a x\nawait b t 1\nput a z\nget b\nput b 9\nget a\nsession t causal\nawait a s 1\nput b 7\nget a\nawait a s 2\nput a y\nget b\nend\n";

#[test]
fn a_run_over_late_gossip_drains(rt: HostRuntime) -> Result<(), Fail> {
    let script = script_of(rt.alloc(), SCRIPT)?;
    let drained = serve_with(&rt, &FreeGate, &LatePost, rt.alloc(), &script)?;
    let verdict = check(rt.alloc(), &script, &drained.report)?;
    assert_eq!(rt; verdict, Verdict::Legal);
    Ok(())
}
