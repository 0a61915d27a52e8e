//! What a turn did.

/// What a worker did in a turn.
#[derive(Clone, Copy, Debug, PartialEq, Eq, Drop)]
pub enum Did {
    /// A request was worked on, or a reply that was held went out.
    Request,
    /// A batch of gossip was joined.
    Gossip,
    /// A round of gossip was made, and a batch went out.
    Round,
    /// Nothing could be done, since senders found no place: gossip or a reply is left to send.
    Blocked,
    /// There is nothing to do.
    Idle,
}
