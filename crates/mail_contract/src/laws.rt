//! What the words of the contracts come to: each function does nothing and carries its law.
ghost use Rattle.mail_contract.specs.Laws.{AnswersAreCounted, ScramblesFill, SendersStayDue, SendersTakeTurns};

/// Each answer of a box is counted once, and under its own name.
pub fn answers_are_counted()
    ensures { AnswersAreCounted }
{}

/// Where senders take turns, one comes twice in a row only where nothing is left of the others.
pub fn senders_take_turns()
    ensures { SendersTakeTurns }
{}

/// A sender stays due as long as none of its messages comes that was missing.
pub fn senders_stay_due()
    ensures { SendersStayDue }
{}

/// A scramble asks its box until it holds eight messages or the box finds nothing.
pub fn scrambles_fill()
    ensures { ScramblesFill }
{}
