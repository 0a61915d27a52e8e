//! The laws of the measure: each function does nothing and carries its laws.
ghost use Rattle.run_measure.specs.Laws.{DoneRises, PaceIsKept, PollsArePaced, PollsLowerTheMeasure, RepliesFollowRequests, SessionsGoOn, SessionsGoOnTwice, SessionsStay, TogetherLowerTheMeasure, TurnsLowerTheMeasure, WorkersGoOn, WorkersStay};

/// A worker replies to a session no more than it takes of it, turn by turn, and takes nothing back, where it
/// keeps no message, and holds a reply for one of its sessions if it holds any. It keeps none after the turn,
/// and where the turn did a request while no reply was held, the worker took one.
pub fn replies_follow_requests()
    ensures turns { RepliesFollowRequests }
    ensures stays { WorkersStay }
    ensures goes_on { WorkersGoOn }
{}

/// Where one worker goes on, the measure of each session falls at least by what the worker took of it.
pub fn turns_lower_the_measure()
    ensures { TurnsLowerTheMeasure }
{}

/// Poll by poll a session has answered no fewer lines, sent no fewer requests and taken no fewer replies. A
/// poll that moves on does one of these at least, where the requests go to workers that are there, and so
/// does one that rests; one that finds nothing to do, or the end, changes nothing.
pub fn sessions_go_on()
    ensures polls { SessionsGoOn }
    ensures stays { SessionsStay }
    ensures goes_on { SessionsGoOnTwice }
    ensures done { DoneRises }
{}

/// Poll by poll no ask of a session comes to nothing but where the poll says so, and then one does: so it is after
/// many polls of which the last alone may say so.
pub fn polls_are_paced()
    ensures polls { PollsArePaced }
    ensures goes_on { PaceIsKept }
{}

/// Where a session goes on, its measure falls at least by what it has done.
pub fn polls_lower_the_measure()
    ensures { PollsLowerTheMeasure }
{}

/// Where all workers and sessions go on, in whatever order of steps, the measure of all sessions falls at least by
/// what they have done, if no more was taken than was sent before and after.
pub fn parties_lower_the_measure()
    ensures { TogetherLowerTheMeasure }
{}
