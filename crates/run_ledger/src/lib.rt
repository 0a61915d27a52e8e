//! What the parties of a run have in hand: definitions and lemmas about lists alone, in which no party did
//! anything before another.
//!
//! A worker has its private map, the requests that it received and the gossip that it heard; a session
//! has the replies that came back to it. How a report came to be from these is one definition (`Came`),
//! which speaks of each worker and each session by what went through its own ends.
//!
//! `specs/Ledger.antt` says what is in hand, `specs/Came.antt` how a report came from it and when its
//! gossip has settled, `specs/Causality.antt` what causal puts are, and `specs/Parties.antt` what a drained
//! run leaves. The lemmas count a session's gets at a worker and the replies to them, by what each of the two
//! sent and took. The crate has no code: what the definitions come to is the law of `legal_runs`.
//!
//! The crate stands on `worker_core` and `session_proxy`, whose definitions of a worker's share and of a
//! session's replies it speaks in, and on those below them.
#![tactic(auto)]
