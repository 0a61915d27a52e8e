//! What all sessions have in common, as laws: each function does nothing and carries its law.
ghost use Rattle.session_proxy.specs.Share.{HasSentFew, Share};
ghost use Rattle.session_proxy.specs.State.{Lists};

/// A session sends no more requests than its lines may send in all: one for each put, and for each get or
/// await one, or in a causal session 8 for each replica. So what it may still send is told by what it has
/// sent, and each request that goes out lowers it.
pub fn requests_are_few()
    ensures { (lists : Lists) → Share lists → HasSentFew lists }
{}
