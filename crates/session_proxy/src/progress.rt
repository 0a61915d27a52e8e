//! What a call of a session's proxy did.

/// What a session's proxy did in a call.
#[derive(Clone, Copy, Debug, PartialEq, Eq, Drop)]
pub enum Progress {
    /// A request was sent, a line was answered, or a reply was dropped that is not the one that is awaited.
    Moved,
    /// The reply that is awaited is not there, or a request found no place.
    NotYet,
    /// The reply lacked something of what is required; the next call asks again.
    Rest,
    /// Every line is answered.
    Ended,
}
