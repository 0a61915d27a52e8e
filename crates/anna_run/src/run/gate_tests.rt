//! Whole runs at gates: that parties take their turns beside each other, and how their turns are told.
use super::tests::{GET, GET_REPORT, LATE, ended, ended_at, push_line};
use super::*;
use std::sync::atomic::{AtomicBool, AtomicU64, Ordering};
use std::test::Fail;
use std::thread::yield_now;

// ---- parties that wait for each other

/// A party at one of its turns waits until another party has come to a turn.
#[derive(Clone, Copy, Drop)]
struct Meeting {
    party: u16,
    turn: u64,
    other: u16,
    its_turn: u64,
}

/// A gate at which parties wait for each other. What they wait for comes, or they go on in the end.
#[derive(Drop)]
struct Meetings {
    meetings: [Meeting; 2],
    /// To which turn each of three parties has come.
    came: [AtomicU64; 3],
    /// How many times a party waited, and what it waited for came.
    kept: AtomicU64,
}

impl Meetings {
    fn new(meetings: [Meeting; 2]) -> Meetings {
        Meetings {
            meetings,
            came: [AtomicU64::new(0), AtomicU64::new(0), AtomicU64::new(0)],
            kept: AtomicU64::new(0),
        }
    }

    /// To which turn a party has come.
    fn turn_of(&self, party: u16) -> u64 {
        match self.came.get(usize::from(party)) {
            Some(came) => came.load(Ordering::SeqCst),
            None => 0,
        }
    }

    /// Waits until the other party has come to its turn, at most 10,000,000 times.
    fn wait(&self, meeting: Meeting) {
        for _ in 0..10_000_000 {
            if self.turn_of(meeting.other) >= meeting.its_turn {
                self.kept.fetch_add(1, Ordering::SeqCst);
                return;
            }
            yield_now();
        }
    }
}

impl Gate for Meetings {
    fn at(&self, party: u16, turn: u64) {
        if let Some(came) = self.came.get(usize::from(party)) {
            came.store(turn, Ordering::SeqCst);
        }
        for meeting in self.meetings {
            if meeting.party == party && meeting.turn == turn {
                self.wait(meeting);
            }
        }
    }
}

/// Two sessions that put twice each.
const PUTS: &str =
    "anna 1\nworkers 1\nkey a max\nsession s eventual\nput a 1\nput a 2\nsession t eventual\nput a 3\nput a 4\nend\n";

const PUTS_REPORT: &str =
    "anna report 1\nsession s eventual\nput a 1 at 1\nput a 2 at 2\nsession t eventual\nput a 1 at 1\nput a 2 at 2\nfinal\na @1 clock s:2,t:2 top 2 value 4\nend\n";

/// A session that puts and one that gets.
const PUT_AND_GET: &str =
    "anna 1\nworkers 1\nkey a max\nsession s eventual\nput a 5\nsession t eventual\nget a\nend\n";

/// The get was replied to before the put was made.
const PUT_AFTER_GET_REPORT: &str =
    "anna report 1\nsession s eventual\nput a 1 at 1\nsession t eventual\nget a @1 clock - top 0 value none\nfinal\na @1 clock s:1 top 1 value 5\nend\n";

#[test]
fn sessions_take_their_turns_beside_each_other(rt: HostRuntime) -> Result<(), Fail> {
    let gate = Meetings::new([
        Meeting {
            party: 1,
            turn: 2,
            other: 2,
            its_turn: 2,
        },
        Meeting {
            party: 2,
            turn: 2,
            other: 1,
            its_turn: 2,
        },
    ]);
    let (status, text) = ended_at(&rt, rt.alloc(), &gate, "run", PUTS.as_bytes())?;
    assert_eq!(rt; gate.kept.load(Ordering::SeqCst), 2);
    assert_eq!(rt; status, Status::Done);
    assert_eq!(rt; text.as_slice(), PUTS_REPORT.as_bytes());
    Ok(())
}

#[test]
fn a_session_takes_turns_between_those_of_a_worker(rt: HostRuntime) -> Result<(), Fail> {
    let gate = Meetings::new([
        Meeting {
            party: 0,
            turn: 1,
            other: 2,
            its_turn: 2,
        },
        Meeting {
            party: 1,
            turn: 1,
            other: 0,
            its_turn: 2,
        },
    ]);
    let (status, text) = ended_at(&rt, rt.alloc(), &gate, "run", PUT_AND_GET.as_bytes())?;
    assert_eq!(rt; gate.kept.load(Ordering::SeqCst), 2);
    assert_eq!(rt; status, Status::Done);
    assert_eq!(rt; text.as_slice(), PUT_AFTER_GET_REPORT.as_bytes());
    Ok(())
}

#[test]
fn a_reply_comes_within_the_epoch(rt: HostRuntime) -> Result<(), Fail> {
    let gate = Meetings::new([
        Meeting {
            party: 0,
            turn: 1,
            other: 1,
            its_turn: 2,
        },
        Meeting {
            party: 1,
            turn: 2,
            other: 0,
            its_turn: 2,
        },
    ]);
    let (status, text) = ended_at(&rt, rt.alloc(), &gate, "run", GET.as_bytes())?;
    assert_eq!(rt; gate.kept.load(Ordering::SeqCst), 2);
    assert_eq!(rt; status, Status::Done);
    assert_eq!(rt; text.as_slice(), GET_REPORT.as_bytes());
    // A box that handed out nothing before it was shown would bring the session to its fourth turn.
    assert!(rt; gate.turn_of(1) < 4);
    Ok(())
}

// ---- turns that are counted

/// A gate that notes the last turn of each party, and whether all were told in order.
#[derive(Drop)]
struct Counting {
    /// The last turn of each party that there is.
    last: Vec<AtomicU64>,
    /// A turn was not the party's last one and one, or there is no such party.
    strayed: AtomicBool,
}

impl Counting {
    /// For parties of the numbers from 0 on.
    fn new(alloc: Global, parties: u16) -> Result<Counting, NoMemory> {
        let mut last = Vec::new(alloc);
        for _ in 0..parties {
            last.push(AtomicU64::new(0))?;
        }
        Ok(Counting {
            last,
            strayed: AtomicBool::new(false),
        })
    }

    /// How many turns a party took.
    fn turns_of(&self, party: u16) -> u64 {
        match self.last.get(usize::from(party)) {
            Some(last) => last.load(Ordering::SeqCst),
            None => 0,
        }
    }

    /// Whether every turn that was told was the next one of a party that there is.
    fn is_in_order(&self) -> bool {
        !self.strayed.load(Ordering::SeqCst)
    }
}

impl Gate for Counting {
    fn at(&self, party: u16, turn: u64) {
        let is_next = match self.last.get(usize::from(party)) {
            Some(last) => last.swap(turn, Ordering::SeqCst).wrapping_add(1) == turn,
            None => false,
        };
        if !is_next {
            self.strayed.store(true, Ordering::SeqCst);
        }
    }
}

/// A script in which the first of three sessions has no lines, the second one gets a key 200 times, and the third one
/// puts another key; and its report.
fn long_session(alloc: Global) -> Result<(String, String), NoMemory> {
    let mut script = String::from_str(
        alloc,
        "anna 1\nworkers 2\nkey a max at 1 2\nkey b max at 2 1\nsession idle eventual\nsession s eventual\n",
    )?;
    let mut report = String::from_str(
        alloc,
        "anna report 1\nsession idle eventual\nsession s eventual\n",
    )?;
    for _ in 0..200 {
        push_line(&mut script, "get a")?;
        push_line(&mut report, "get a @2 clock - top 0 value none")?;
    }
    script.push_str("session t eventual\nput b 5\nend\n")?;
    report.push_str(
        "session t eventual\nput b 1 at 1\nfinal\na @1 clock - top 0 value none\na @2 clock - top 0 value none\nb @1 clock t:1 top 1 value 5\nb @2 clock t:1 top 1 value 5\nend\n",
    )?;
    Ok((script, report))
}

#[test]
fn turns_are_told_in_order_over_all_epochs(rt: HostRuntime) -> Result<(), Fail> {
    let (script, report) = long_session(rt.alloc())?;
    let gate = Counting::new(rt.alloc(), 5)?;
    let (status, text) = ended_at(&rt, rt.alloc(), &gate, "run", script.as_bytes())?;
    assert_eq!(rt; status, Status::Done);
    assert_eq!(rt; text.as_slice(), report.as_bytes());
    assert!(rt; gate.is_in_order());
    // The workers are the parties 0 and 1, and the sessions follow: the one without lines takes one turn in each
    // epoch. The other parties take more than one in some, and none takes more than 128 in any.
    let epochs = gate.turns_of(2);
    assert!(rt; epochs > 1);
    for party in [0, 1, 3, 4] {
        let turns = gate.turns_of(party);
        assert!(rt;
            epochs < turns && turns <= epochs.saturating_mul(128),
            "{party}"
        );
    }
    // 200 gets take 400 steps, more than an epoch has.
    assert!(rt; gate.turns_of(3) > 128);
    Ok(())
}

#[test]
fn large_work_is_the_same_each_time(rt: HostRuntime) -> Result<(), Fail> {
    let gate = Counting::new(rt.alloc(), 12)?;
    let (status, first) = ended_at(&rt, rt.alloc(), &gate, "big/1", b"")?;
    assert_eq!(rt; status, Status::Done);
    assert!(rt; first.starts_with(b"anna big 1\ncommands 3200\nputs "));
    assert_eq!(rt; first.as_slice().split(|byte| *byte == b'\n').count(), 37);
    // It is run by four workers and eight sessions.
    assert!(rt; gate.is_in_order());
    for party in 0..12 {
        assert!(rt; gate.turns_of(party) > 0, "{party}");
    }
    for words in ["big/1", "big/01"] {
        let (status, again) = ended(&rt, rt.alloc(), words, b"")?;
        assert_eq!(rt; status, Status::Done);
        assert_eq!(rt; again.as_slice(), first.as_slice());
    }
    Ok(())
}

/// Scripts in which a session awaits a put that nobody makes, with a last session that has no lines: how many
/// workers each has, how many asks there are, the script and its report.
const GIVEN_UP: [(u16, u64, &str, &str); 2] = [
    (
        1,
        8,
        "anna 1\nworkers 1\nkey a max\nsession s causal\nawait a t 3\nsession t eventual\nput a 5\nsession idle eventual\nend\n",
        "anna report 1\nsession s causal\nawait a t 3 gave up after 8 @1 clock t:1\nsession t eventual\nput a 1 at 1\nsession idle eventual\nfinal\na @1 clock t:1 top 1 value 5\nend\n",
    ),
    (
        2,
        16,
        "anna 1\nworkers 2\nkey a max at 1 2\nsession s causal\nawait a t 3\nsession t eventual\nput a 5\nsession idle eventual\nend\n",
        "anna report 1\nsession s causal\nawait a t 3 gave up after 16 @2 clock t:1\nsession t eventual\nput a 1 at 1\nsession idle eventual\nfinal\na @1 clock t:1 top 1 value 5\na @2 clock t:1 top 1 value 5\nend\n",
    ),
];

#[test]
fn what_never_comes_is_given_up_after_eight_asks_of_each_replica(
    rt: HostRuntime,
) -> Result<(), Fail> {
    for (workers, asks, script, report) in GIVEN_UP {
        let gate = Counting::new(rt.alloc(), workers.saturating_add(3))?;
        let (status, text) = ended_at(&rt, rt.alloc(), &gate, "run", script.as_bytes())?;
        assert_eq!(rt; status, Status::Done);
        assert_eq!(rt; text.as_slice(), report.as_bytes());
        assert!(rt; gate.is_in_order());
        // One ask at most comes to nothing in an epoch, in each of which the last session takes one turn.
        assert!(rt; gate.turns_of(workers.saturating_add(2)) >= asks, "{asks}");
    }
    Ok(())
}

// ---- a session that waits

/// A gate that notes to which turn the session with the number 1 had come when that with the number 2 took its first.
#[derive(Drop)]
struct Succession {
    first: AtomicU64,
    first_then: AtomicU64,
    second: AtomicU64,
}

impl Gate for Succession {
    fn at(&self, party: u16, turn: u64) {
        if party == 1 {
            self.first.store(turn, Ordering::SeqCst);
        }
        if party == 2 && self.second.swap(turn, Ordering::SeqCst) == 0 {
            self.first_then
                .store(self.first.load(Ordering::SeqCst), Ordering::SeqCst);
        }
    }
}

#[test]
fn a_session_that_waits_takes_no_turn(rt: HostRuntime) -> Result<(), Fail> {
    let gate = Succession {
        first: AtomicU64::new(0),
        first_then: AtomicU64::new(0),
        second: AtomicU64::new(0),
    };
    let (script, report) = LATE;
    let (status, text) = ended_at(&rt, rt.alloc(), &gate, "run", script.as_bytes())?;
    assert_eq!(rt; status, Status::Done);
    assert_eq!(rt; text.as_slice(), report.as_bytes());
    // One ask of the first at most comes to nothing in an epoch, and it makes eight.
    assert!(rt; gate.first_then.load(Ordering::SeqCst) >= 8);
    assert!(rt; gate.second.load(Ordering::SeqCst) > 0);
    Ok(())
}
