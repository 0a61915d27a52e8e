//! The kinds of keys.

/// What the puts of a key are, and how they merge.
#[derive(Clone, Copy, Debug, PartialEq, Eq)]
pub enum Kind {
    /// Numbers; the greatest is kept.
    Max,
    /// A flag; it stays on.
    Or,
    /// Words; all are kept.
    Set,
    /// Fields with numbers; of each field the greatest is kept.
    Map,
    /// A register; the last word by its stamp is kept.
    Last,
    /// A register; every word is kept that no other has seen.
    Versions,
    /// A counter; amounts are added and taken, each put once.
    Counter,
    /// Words; those are there that no remove had seen.
    OrSet,
}
