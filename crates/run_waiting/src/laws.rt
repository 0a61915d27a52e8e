//! The laws of waiting: each function does nothing and carries its law.
ghost use Rattle.run_waiting.specs.Laws.{HeldRepliesFindPlaces, NoSessionWaitsInVain, PollsTakeWhatIsAwaited, ToldRepliesAreToAsks};

/// Poll by poll, what a session waits for was not taken before; and as long as no reply is dropped, each that it
/// took is to an ask that it sent.
pub fn polls_take_what_is_awaited()
    ensures { PollsTakeWhatIsAwaited }
{}

/// Where a session is held beside all workers, each reply that it took is to an ask that it sent, and has the number
/// of the worker that it was taken of.
pub fn told_replies_are_to_asks()
    ensures { ToldRepliesAreToAsks }
{}

/// While a worker holds a reply for a session, the session took all that were sent before.
pub fn held_replies_find_places()
    ensures { HeldRepliesFindPlaces }
{}

/// A session of which all workers took all requests and hold no reply, and which took all that they sent, does not
/// wait.
pub fn no_session_waits_in_vain()
    ensures { NoSessionWaitsInVain }
{}
