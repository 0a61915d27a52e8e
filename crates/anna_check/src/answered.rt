//! What an answer does: what its session knows and holds from then on, and the puts that it accepts.
ghost use Rattle.std.specs.Prelude.{◌≡◌, ℕ, ◌+◌, ◌<◌, ◌≤◌, ◌^◌, length, OnOk};
ghost use Rattle.session_known.specs.Session.{held_puts, own_count};
ghost use Rattle.anna_check.specs.ByKey.{HasAdded, MayBePut, kinds_of};
ghost use Rattle.anna_check.specs.Judged.{MayTake, MayAllBePut, IsLawfulSomewhere, HasRoom, one_made, knows_one, all_made, knows_all, made_by, state_then};

use crate::accepted::Accepted;
use composed_value::Payload;
use lattice_laws::NoMemory;
use session_known::{Answer, Line, SessionState};

/// Accepts the session's next put on a key, at a Lamport number and place: the session knows it, and it is
/// added to the accepted puts.
fn accept(
    accepted: &mut Accepted,
    session: &mut SessionState,
    key: u16,
    payload: &Payload,
    lamport: u64,
    place: u32,
) -> Result<(), NoMemory>
    requires payload { MayBePut (kinds_of accepted.old) key payload.now }
    requires count { own_count session.old.state.knows key + 1 < 2 ^ 64 }
    requires lamport { session.old.state.knows.lamport ≤ lamport }
    ensures client { session.new.client ≡ session.old.client }
    ensures held { session.new.state.held ≡ session.old.state.held }
    ensures knows { OnOk result (session.new.state.knows ≡ knows_one session.old key lamport) }
    ensures kinds { OnOk result (kinds_of accepted.new ≡ kinds_of accepted.old) }
    ensures puts { HasAdded result accepted.old
        (one_made session.old key payload.now lamport place) accepted.new }
{
    let put = session.put(key, payload, lamport, place)?;
    accepted.add(key, put)
}

/// Accepts puts that were held, one after another, at one Lamport number.
fn accept_held(
    accepted: &mut Accepted,
    session: &mut SessionState,
    held: &[(u16, Payload)],
    lamport: u64,
) -> Result<(), NoMemory>
    requires held { MayAllBePut (kinds_of accepted.old) held.now }
    requires counts { (key : ℕ) → own_count session.old.state.knows key + length held.now < 2 ^ 32 }
    requires lamport { 0 < length held.now → session.old.state.knows.lamport ≤ lamport }
    ensures client { session.new.client ≡ session.old.client }
    ensures held { OnOk result (session.new.state.held ≡ session.old.state.held) }
    ensures knows { OnOk result (session.new.state.knows ≡ knows_all session.old lamport held.now) }
    ensures kinds { OnOk result (kinds_of accepted.new ≡ kinds_of accepted.old) }
    ensures puts { HasAdded result accepted.old
        (all_made session.old lamport held.now) accepted.new }
{
    for (place, (key, payload)) in held.iter().enumerate() {
        accept(accepted, session, *key, payload, lamport, place as u32)?;
    }
    Ok(())
}

/// Takes in the lawful answer of a line: what the session knows and holds from then on, and the puts that
/// it accepts.
pub(crate) fn take_in(
    accepted: &mut Accepted,
    session: &mut SessionState,
    line: &Line,
    answer: &Answer,
) -> Result<(), NoMemory>
    requires lawful { IsLawfulSomewhere session.old line.now answer.now }
    requires line { MayTake (kinds_of accepted.old) line.now }
    requires held { MayAllBePut (kinds_of accepted.old) (held_puts session.old.state) }
    requires counts { HasRoom session.old }
    ensures client { session.new.client ≡ session.old.client }
    ensures state { OnOk result (session.new.state ≡ state_then session.old line.now answer.now) }
    ensures kinds { OnOk result (kinds_of accepted.new ≡ kinds_of accepted.old) }
    ensures puts { HasAdded result accepted.old
        (made_by session.old line.now answer.now) accepted.new }
{
    match (line, answer) {
        (Line::Put { key, payload }, Answer::Put { lamport, .. }) => {
            accept(accepted, session, *key, payload, *lamport, 0)
        }
        (Line::Put { key, payload }, Answer::Held) => session.hold(*key, payload),
        (Line::Begin, Answer::Begun) => {
            session.begin();
            Ok(())
        }
        (Line::Commit, Answer::Committed { lamport, .. }) => {
            let held = session.end();
            accept_held(accepted, session, held.as_slice(), *lamport)
        }
        (Line::Commit, Answer::Worn) | (Line::Abort, Answer::Aborted { .. }) => {
            session.end();
            Ok(())
        }
        (Line::Get { key, .. } | Line::Await { key, .. }, Answer::Got { shown, .. }) => {
            session.note_shown(*key, shown)
        }
        _ => Ok(()),
    }
}
