//! What legal reports have in common, as laws: each function does nothing and carries its law.
ghost use Rattle.session_known.specs.Laws.{AcceptedAreNumbered, FinalsOfKeysAgree, LamportNumbersAreDense, LamportNumbersAreFew, NoAnswerIsWorn, RepliesCountAccepted};
ghost use Rattle.session_known.specs.Later.{AnsweredSession, LaterRepliesCover, ShownNeedsAreCoveredLater, PutsOvertakeShownClocks, PutsOvertakeCoveredVersions};

/// Where all sessions are answered lawfully, the accepted puts of each session on each key are
/// numbered 1, 2 and so on, each once.
pub fn accepted_puts_are_numbered()
    ensures { AcceptedAreNumbered }
{}

/// In a legal report the final cells of all replicas of a key have equal clock, top and value.
pub fn final_cells_agree()
    ensures { FinalsOfKeysAgree }
{}

/// In a legal report of a valid script there is for each accepted put with a Lamport number above 1 one with the
/// number one less (Lamport 1978). So no number is above how many puts were accepted, and no answer is `Worn`.
pub fn lamport_numbers_are_dense()
    ensures dense { LamportNumbersAreDense }
    ensures few { LamportNumbersAreFew }
    ensures not_worn { NoAnswerIsWorn }
{}

/// The clock of a reply to a get or an await counts no more puts of a session than were accepted.
pub fn replies_count_accepted_puts()
    ensures { RepliesCountAccepted }
{}

/// In a causal session a later reply on a key covers the earlier ones: nothing that was seen of the
/// key is unseen again.
pub fn causal_replies_cover_earlier_ones()
    ensures { (session : AnsweredSession) → LaterRepliesCover session }
{}

/// In a causal session a later reply on a key covers what the causal dependencies that an earlier reply
/// shows have of the key: what a shown put depends on is not unseen again.
pub fn shown_needs_are_covered_later()
    ensures { (session : AnsweredSession) → ShownNeedsAreCoveredLater session }
{}

/// In a session of any level a put has seen strictly more than each clock of its key that an earlier
/// reply shows, and so than each version whose clock that clock covers: of kind versions, it overtakes
/// them. A version that was shown is not always overtaken, since its own clock may count more than the
/// clock of the reply does in a session that is not causal.
pub fn puts_overtake_what_was_shown()
    ensures clocks { (session : AnsweredSession) → PutsOvertakeShownClocks session }
    ensures versions { (session : AnsweredSession) → PutsOvertakeCoveredVersions session }
{}
