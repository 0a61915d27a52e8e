//! Changed reports and a changed script, each of which one condition refuses.
ghost use Rattle.worked_reports.specs.Changed as changed;
ghost use Rattle.worked_reports.specs.Changed.{FirstRefuses, HomeRefuses, AwayRefuses, CommitRefuses, PlainRefuses, CausalRefuses, KeysRefuses, VersionsRefuses, ApartRefuses, HandedRefuses, IsValidNowhere};

/// The changed reports of `specs/Changed.antt` are not legal where their script's keys live; each clause
/// is named for what was changed, and its proof takes the one condition that refuses it.
pub fn changed_reports_are_refused()
    ensures put_numbered_zero { FirstRefuses changed.put_numbered_zero }
    ensures put_at_a_later_lamport { FirstRefuses changed.put_at_a_later_lamport }
    ensures get_by_another_worker { HomeRefuses changed.get_by_another_worker }
    ensures get_of_a_later_put { HomeRefuses changed.get_of_a_later_put }
    ensures get_of_a_later_put_away { AwayRefuses changed.get_of_a_later_put_away }
    ensures get_below_an_earlier_one { AwayRefuses changed.get_below_an_earlier_one }
    ensures get_of_too_few_at_home { HomeRefuses changed.get_of_too_few_at_home }
    ensures await_of_too_few { CausalRefuses changed.await_of_too_few }
    ensures value_of_fewer_puts { FirstRefuses changed.value_of_fewer_puts }
    ensures top_of_fewer_puts { FirstRefuses changed.top_of_fewer_puts }
    ensures clock_of_more_than_accepted { FirstRefuses changed.clock_of_more_than_accepted }
    ensures needs_of_fewer { CausalRefuses changed.needs_of_fewer }
    ensures final_of_fewer_puts { FirstRefuses changed.final_of_fewer_puts }
    ensures held_in_an_eventual_session { FirstRefuses changed.held_in_an_eventual_session }
    ensures answer_of_another_line { FirstRefuses changed.answer_of_another_line }
    ensures needs_in_an_eventual_session { FirstRefuses changed.needs_in_an_eventual_session }
    ensures value_of_another_kind { FirstRefuses changed.value_of_another_kind }
    ensures finals_in_another_order { HomeRefuses changed.finals_in_another_order }
    ensures answers_too_few { FirstRefuses changed.answers_too_few }
    ensures commit_of_too_few { CommitRefuses changed.commit_of_too_few }
    ensures abort_of_too_few { CommitRefuses changed.abort_of_too_few }
    ensures worn_while_numbers_are_left { FirstRefuses changed.worn_while_numbers_are_left }
    ensures put_in_a_transaction { CommitRefuses changed.put_in_a_transaction }
    ensures commit_at_a_later_lamport { CommitRefuses changed.commit_at_a_later_lamport }
    ensures end_after_too_few_asks { CausalRefuses changed.end_after_too_few_asks }
    ensures end_with_the_awaited { CausalRefuses changed.end_with_the_awaited }
    ensures entry_of_no_puts { CausalRefuses changed.entry_of_no_puts }
    ensures get_by_another_than_the_named { AwayRefuses changed.get_by_another_than_the_named }
    ensures await_by_no_replica { CausalRefuses changed.await_by_no_replica }
    ensures end_by_another_than_the_last { CausalRefuses changed.end_by_another_than_the_last }
    ensures held_outside_a_transaction { PlainRefuses changed.held_outside_a_transaction }
    ensures causal_reply_without_needs { CausalRefuses changed.causal_reply_without_needs }
    ensures version_of_its_own_put_alone { VersionsRefuses changed.version_of_its_own_put_alone }
    ensures end_of_more_than_accepted { ApartRefuses changed.end_of_more_than_accepted }
    ensures end_below_an_earlier_one { ApartRefuses changed.end_below_an_earlier_one }
    ensures end_of_too_few_at_home { ApartRefuses changed.end_of_too_few_at_home }
    ensures worn_commit_with_numbers_left { CommitRefuses changed.worn_commit_with_numbers_left }
    ensures worn_commit_of_nothing { KeysRefuses changed.worn_commit_of_nothing }
    ensures commit_of_nothing_at_a_lamport { KeysRefuses changed.commit_of_nothing_at_a_lamport }
    ensures successor_at_the_first_lamport { HandedRefuses changed.successor_at_the_first_lamport }
    ensures successor_that_counts_on { HandedRefuses changed.successor_that_counts_on }
    ensures successor_that_is_shown_less { HandedRefuses changed.successor_that_is_shown_less }
{}

/// A script is not valid that has a get which names a worker that is no replica of the key.
pub fn changed_script_is_refused()
    ensures get_of_no_replica { IsValidNowhere changed.stray_script }
{}
