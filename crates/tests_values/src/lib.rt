//! Values and what is said of them, worked as tests: lattices, clocks, cells, where keys live, and what a session knows.
//!
//! No part of the product stands on this crate.
#![tactic(auto)]

#[cfg(test)]
mod cell_tests;
#[cfg(test)]
mod clock_tests;
#[cfg(test)]
mod counter_tests;
#[cfg(test)]
mod dot_set_tests;
#[cfg(test)]
mod entries_tests;
#[cfg(test)]
mod flag_tests;
#[cfg(test)]
mod hash_tests;
#[cfg(test)]
mod items_tests;
#[cfg(test)]
mod known_tests;
#[cfg(test)]
mod map_tests;
#[cfg(test)]
mod memory_tests;
#[cfg(test)]
mod name_tests;
#[cfg(test)]
mod needs_tests;
#[cfg(test)]
mod number_tests;
#[cfg(test)]
mod pair_tests;
#[cfg(test)]
mod placement_tests;
#[cfg(test)]
mod ring_tests;
#[cfg(test)]
mod script_tests;
#[cfg(test)]
mod set_tests;
#[cfg(test)]
mod spelling_tests;
#[cfg(test)]
mod stamp_tests;
#[cfg(test)]
mod state_tests;
#[cfg(test)]
mod version_tests;
#[cfg(test)]
mod word_tests;
