//! How steps are repeated until nothing is left to do.
ghost use Rattle.std.specs.Prelude.{Bool};

use std::sync::Wait;

/// A way to repeat a step until nothing is left to do.
pub trait Repeats {
    // Whether it may wait; else facts of the mail tell that it comes to an end.
    ghost waits: { Bool };
}

/// Repeats a step by a measure of what may still come, which facts of the mail bound. So it returns.
#[derive(Drop)]
pub struct ByMeasure;

impl Repeats for ByMeasure {
    ghost use Rattle.std.specs.Prelude.{false};

    ghost waits = { false };
}

/// Repeats a step for as long as it takes, over any mail. It may wait, and what is promised holds if it
/// returns.
#[derive(Drop)]
pub struct Waiting<'a, R: Wait>(pub &'a R);

impl<'a, R: Wait> Repeats for Waiting<'a, R> {
    ghost use Rattle.std.specs.Prelude.{true};

    ghost waits = { true };
}
