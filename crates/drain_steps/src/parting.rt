//! What the sessions left is taken apart.
ghost use Rattle.std.specs.Prelude.{◌≡◌, map, IfOk};

use lattice_laws::NoMemory;
use mail_contract::{Rx, Tx};
use std::alloc::Global;
use store_msg::{Reply, Request, SessionEndsOver};

/// What each session answered, its senders of requests, and its box of replies, each in the order of the
/// sessions.
pub fn part_all<A: Drop, S: Tx<Request>, R: Rx<Reply>>(
    alloc: Global,
    sessions: Vec<(A, SessionEndsOver<S, R>)>,
) -> Result<(Vec<A>, Vec<Vec<S>>, Vec<R>), NoMemory>
    ensures answers { IfOk result (λ all. all.0.items ≡ map (λ its. its.0) sessions.items) }
    ensures requests { IfOk result (λ all. all.1.items
        ≡ map (λ its. its.1.requests) sessions.items) }
    ensures replies { IfOk result (λ all. all.2.items ≡ map (λ its. its.1.replies) sessions.items) }
{
    let mut sessions = sessions;
    let mut answers = Vec::with_capacity(alloc, sessions.len())?;
    let mut requests = Vec::with_capacity(alloc, sessions.len())?;
    let mut boxes = Vec::with_capacity(alloc, sessions.len())?;
    while let Some((its_answers, ends)) = sessions.pop() {
        let SessionEndsOver {
            requests: senders,
            replies,
        } = ends;
        answers.push(its_answers)?;
        requests.push(senders)?;
        boxes.push(replies)?;
    }
    answers.reverse();
    requests.reverse();
    boxes.reverse();
    Ok((answers, requests, boxes))
}
