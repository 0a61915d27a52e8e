//! A session begins where another has ended.
ghost use Rattle.std.specs.Prelude.{◌≡◌, ◌<◌, ◌-◌, IfSome, IsNone, Some, length, map, slice_get, OnOk};
ghost use Rattle.parties.specs.Beginning.{MayBegin, WaitsForOther};
ghost use Rattle.parties.specs.Polling.{IsAllAnswered, KnowsAtEnd};
ghost use Rattle.parties.specs.Session.{proxy_of};

use crate::SessionOver;
use lattice_laws::NoMemory;
use mail_contract::{Rx, Tx};
use session_known::Known;
use store_msg::{Reply, Request};

/// The session at a place, from 0, begins where it waits for another that has ended. Else nothing is done.
pub(crate) fn begin_session<S: Tx<Request>, R: Rx<Reply>>(
    sessions: &mut Vec<SessionOver<S, R>>,
    place: usize,
) -> Result<(), NoMemory>
    requires { place < length sessions.old.items }
    ensures begins { OnOk result (MayBegin S.sent R.received place
        (map proxy_of sessions.old.items) (map proxy_of sessions.new.items)) }
    ensures waits { OnOk result (WaitsForOther place (map proxy_of sessions.new.items)) }
{
    let Some(waiting) = sessions[place].waiting() else {
        return Ok(());
    };
    let Some(end) = known_at_end(sessions, waiting.after()) else {
        return Ok(());
    };
    let known = end.handed(waiting.me())?;
    let session = sessions.remove(place).begin(known)?;
    sessions.insert(place, session)?;
    Ok(())
}

/// What the session of a number, from 1, knew at its end, if it has ended.
fn known_at_end<S: Tx<Request>, R: Rx<Reply>>(
    sessions: &[SessionOver<S, R>],
    session: u16,
) -> Option<&Known>
    ensures known { IfSome result (λ known. (its : _)
        × (slice_get (map proxy_of sessions.now) (session - 1) ≡ Some its)
        × KnowsAtEnd its known.now.knows) }
    ensures none { IsNone result → (its : _)
        → slice_get (map proxy_of sessions.now) (session - 1) ≡ Some its
        → IsAllAnswered its → ⊥ }
{
    match sessions.get(usize::from(session).saturating_sub(1)) {
        Some(its) => its.known_at_end(),
        None => None,
    }
}
