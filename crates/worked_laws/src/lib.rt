//! Worked laws: what the bound on the lag of gossip, the law of causality and what a worker shows mean, by examples, and what
//! each kind of box keeps.
//!
//! `specs/Lists.antt` has what a worker keeps and what went through its ends, in a state where gossip lags
//! by a round's requests at most, and in states that differ from it in one thing each, where it lags by
//! more: [`worked_lists_lag_by_a_round`] and [`changed_lists_lag_by_more`] carry that. `specs/Puts.antt`
//! has accepted puts whose causal dependencies are closed, and lists that differ from them in one thing
//! each, where those of some put are not: [`worked_puts_are_causal`] and [`changed_puts_are_not_causal`].
//! `specs/Shows.antt` has what a worker shows and told at one time and later, and later lists that do not
//! go on from the earlier ones: [`worked_lists_show_more`] and [`changed_lists_show_less`].
//! So whoever reads `Lags` and `ShowsMore` of `worker_core` and `AreCausal` of `run_ledger` sees what each
//! part of them asks, and a change of a definition that lets a wrong list through, or refuses a right one,
//! is refused here.
//!
//! `specs/Keeps.antt` has what each kind of box keeps, part by part, and [`boxes_keep_their_parts`] says so of the boxes.
//!
//! No part of the product stands on this crate.
#![tactic(auto)]

mod keeps;
mod lists;
mod puts;
mod shows;

pub use keeps::boxes_keep_their_parts;
pub use lists::{changed_lists_lag_by_more, worked_lists_lag_by_a_round};
pub use puts::{changed_puts_are_not_causal, worked_puts_are_causal};
pub use shows::{changed_lists_show_less, worked_lists_show_more};
