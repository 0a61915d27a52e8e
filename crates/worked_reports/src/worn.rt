//! What holds after a commit that was answered as worn.
ghost use Rattle.std.specs.Prelude.{ℕ};
ghost use Rattle.composed_value.specs.declared.payload.Payload.{Payload};
ghost use Rattle.session_known.specs.Session.{Client, State};
ghost use Rattle.session_known.specs.declared.report.Answer.TheVariants.{Held, Committed, Worn};
ghost use Rattle.session_known.specs.declared.script.Line.TheVariants.{Put, Commit};
ghost use Rattle.worked_reports.specs.Worn.{IsClosedAfter, IsRefusedAfter};

/// A worn commit closes its transaction: after it none is begun, as much is known as before, and no put
/// is held and nothing committed until one is begun.
pub fn worn_commits_close_their_transaction()
    ensures closed { (client : Client) (state : State) → IsClosedAfter client state }
    ensures held { (key : ℕ) (payload : Payload) → IsRefusedAfter (Put key payload) Held }
    ensures commit { (puts lamport : ℕ) → IsRefusedAfter Commit (Committed puts lamport) }
    ensures worn_commit { IsRefusedAfter Commit Worn }
{}
