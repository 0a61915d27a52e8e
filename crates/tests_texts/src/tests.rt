//! Worked reports, and lines of them that are others.
use anna_check::{Verdict, check};
use lattice_laws::NoMemory;
use report_reader::read_report;
use script_reader::read_script;
use std::alloc::Global;
use std::test::Fail;

/// A script, and a report that is legal for it.
pub(crate) type Worked = (&'static str, &'static str);

pub(crate) const FIRST: Worked = (
    "anna 1\nworkers 1\nkey a max\nsession s eventual\nput a 5\nput a 3\nget a\nend\n",
    "anna report 1\nsession s eventual\nput a 1 at 1\nput a 2 at 2\nget a @1 clock s:2 top 2 value 5\nfinal\na @1 clock s:2 top 2 value 5\nend\n",
);

const CONVERGING: Worked = (
    "anna 1\nworkers 2\nkey a max at 1 2\nsession s eventual\nput a 4\nsession t eventual\nput a 9\nput a 2\nend\n",
    "anna report 1\nsession s eventual\nput a 1 at 1\nsession t eventual\nput a 1 at 1\nput a 2 at 2\nfinal\na @1 clock s:1,t:2 top 2 value 9\na @2 clock s:1,t:2 top 2 value 9\nend\n",
);

/// A get of the home shows the session's puts; a named replica may show fewer, and more from get to get.
const AT_REPLICAS: Worked = (
    "anna 1\nworkers 2\nkey a set at 2 1\nsession s eventual\nput a x\nget a\nget a 1\nput a y\nget a 1\nget a 1\nend\n",
    "anna report 1\nsession s eventual\nput a 1 at 1\nget a @2 clock s:1 top 1 value {x}\nget a @1 clock - top 0 value none\nput a 2 at 2\nget a @1 clock s:1 top 1 value {x}\nget a @1 clock s:2 top 2 value {x,y}\nfinal\na @1 clock s:2 top 2 value {x,y}\na @2 clock s:2 top 2 value {x,y}\nend\n",
);

/// A named replica may be behind.
const STALE: Worked = (
    "anna 1\nworkers 2\nkey a max at 1 2\nsession s eventual\nput a 5\nget a 2\nend\n",
    "anna report 1\nsession s eventual\nput a 1 at 1\nget a @2 clock - top 0 value none\nfinal\na @1 clock s:1 top 1 value 5\na @2 clock s:1 top 1 value 5\nend\n",
);

/// A later session was shown less of a worker than an earlier one: it asked sooner.
const SHOWN_LESS: Worked = (
    "anna 1\nworkers 1\nkey a max\nsession s eventual\nput a 5\nput a 7\nget a\nsession t eventual\nget a\nget a\nend\n",
    "anna report 1\nsession s eventual\nput a 1 at 1\nput a 2 at 2\nget a @1 clock s:2 top 2 value 7\nsession t eventual\nget a @1 clock s:1 top 1 value 5\nget a @1 clock s:1 top 1 value 5\nfinal\na @1 clock s:2 top 2 value 7\nend\n",
);

/// Two causal sessions that await each other.
const PING_PONG: Worked = (
    "anna 1\nworkers 2\nkey a max at 1\nkey b max at 2\nsession s causal\nput a 1\nawait b t 1\nput a 2\nsession t causal\nawait a s 1\nput b 7\nend\n",
    "anna report 1\nsession s causal\nput a 1 at 1\nawait b t 1 @2 clock t:1 top 2 value 7 needs a{s:1}\nput a 2 at 3\nsession t causal\nawait a s 1 @1 clock s:1 top 1 value 1 needs -\nput b 1 at 2\nfinal\na @1 clock s:2 top 3 value 2\nb @2 clock t:1 top 2 value 7\nend\n",
);

/// What a causal session reads brings what it depends on, at any replica.
const CHAIN: Worked = (
    "anna 1\nworkers 3\nkey a max at 1 2 3\nkey b max at 2\nsession s causal\nput a 5\nsession t causal\nawait a s 1\nput b 6\nsession u causal\nawait b t 1\nget a\nend\n",
    "anna report 1\nsession s causal\nput a 1 at 1\nsession t causal\nawait a s 1 @2 clock s:1 top 1 value 5 needs -\nput b 1 at 2\nsession u causal\nawait b t 1 @2 clock t:1 top 2 value 6 needs a{s:1}\nget a @3 clock s:1 top 1 value 5 needs -\nfinal\na @1 clock s:1 top 1 value 5\na @2 clock s:1 top 1 value 5\na @3 clock s:1 top 1 value 5\nb @2 clock t:1 top 2 value 6\nend\n",
);

/// A causal session gives up, and later asks again.
const GIVING_UP: Worked = (
    "anna 1\nworkers 2\nkey a max at 1 2\nsession s causal\nawait a t 2\nget a\nsession t eventual\nput a 1\nput a 2\nsession u eventual\nget a\nend\n",
    "anna report 1\nsession s causal\nawait a t 2 gave up after 16 @2 clock t:1\nget a @2 clock t:1 top 1 value 1 needs -\nsession t eventual\nput a 1 at 1\nput a 2 at 2\nsession u eventual\nget a @1 clock - top 0 value none\nfinal\na @1 clock t:2 top 2 value 2\na @2 clock t:2 top 2 value 2\nend\n",
);

/// Held puts are dropped by an abort, accepted by a commit, and not shown before it.
const HELD: Worked = (
    "anna 1\nworkers 1\nkey a max\nkey l last\nsession s committed\nbegin\nput a 5\nput l red\nabort\nbegin\nput a 5\nput l red\nget a\ncommit\nget l\nbegin\ncommit\nsession t eventual\nget a\nend\n",
    "anna report 1\nsession s committed\nbegin\nput a held\nput l held\nabort 2\nbegin\nput a held\nput l held\nget a @1 clock - top 0 value none\ncommit 2 at 1\nget l @1 clock s:1 top 1 value red/1/s/1\nbegin\ncommit 0\nsession t eventual\nget a @1 clock s:1 top 1 value 5\nfinal\na @1 clock s:1 top 1 value 5\nl @1 clock s:1 top 1 value red/1/s/1\nend\n",
);

/// A session begins where another ended: with what that one knew, and with no puts made.
const HANDED_OVER: Worked = (
    "anna 2\nworkers 2\nkey a max at 1 2\nkey b max at 1\nsession s causal\nput a 5\nput b 1\nsession t causal after s\nput a 7\nget a\nget b\nend\n",
    "anna report 2\nkey a max on 1 2\nkey b max on 1\nsession s causal\nput a 1 at 1\nput b 1 at 2\nsession t causal after s\nput a 1 at 3\nget a @2 clock s:1,t:1 top 3 value 7 needs a{s:1},b{s:1}\nget b @1 clock s:1 top 2 value 1 needs a{s:1}\nfinal\na @1 clock s:1,t:1 top 3 value 7\na @2 clock s:1,t:1 top 3 value 7\nb @1 clock s:1 top 2 value 1\nend\n",
);

/// A small shop, with sessions of all levels, keys of all kinds, and replicas on the ring.
const SHOP: Worked = (
    "# a small shop\r\nanna 1\r\nworkers 4\r\nfactor 3\r\nround 2\r\nkey cart set\r\nkey hits map\r\nkey profile last\r\nkey stock max\r\nkey sale or\r\nkey notes versions\r\n\r\nsession ann eventual\r\nput cart milk\r\nput cart bread\r\nput hits home 3\r\nsession bob eventual\r\nput hits home 5\r\nput hits about 1\r\nget cart\r\nsession cid committed\r\nbegin\r\nput profile blue\r\nput stock 40\r\ncommit\r\nsession dee committed\r\nbegin\r\nput stock 90\r\nabort\r\nput sale on\r\nsession eve causal\r\nput notes draft\r\nawait stock cid 1\r\nget cart\r\nsession fay causal\r\nput notes final\r\nget notes\r\nend\r\n",
    "anna report 1\nsession ann eventual\nput cart 1 at 1\nput cart 2 at 2\nput hits 1 at 3\nsession bob eventual\nput hits 1 at 1\nput hits 2 at 2\nget cart @1 clock ann:1 top 1 value {milk}\nsession cid committed\nbegin\nput profile held\nput stock held\ncommit 2 at 1\nsession dee committed\nbegin\nput stock held\nabort 1\nput sale 1 at 1\nsession eve causal\nput notes 1 at 1\nawait stock cid 1 @4 clock cid:1 top 1 value 40 needs -\nget cart @2 clock ann:2 top 2 value {bread,milk} needs -\nsession fay causal\nput notes 1 at 1\nget notes @1 clock eve:1,fay:1 top 1 value draft(eve:1)|final(fay:1) needs -\nfinal\ncart @1 clock ann:2 top 2 value {bread,milk}\ncart @2 clock ann:2 top 2 value {bread,milk}\ncart @4 clock ann:2 top 2 value {bread,milk}\nhits @1 clock ann:1,bob:2 top 3 value {about=1,home=5}\nhits @3 clock ann:1,bob:2 top 3 value {about=1,home=5}\nhits @4 clock ann:1,bob:2 top 3 value {about=1,home=5}\nprofile @1 clock cid:1 top 1 value blue/1/cid/0\nprofile @2 clock cid:1 top 1 value blue/1/cid/0\nprofile @4 clock cid:1 top 1 value blue/1/cid/0\nstock @1 clock cid:1 top 1 value 40\nstock @3 clock cid:1 top 1 value 40\nstock @4 clock cid:1 top 1 value 40\nsale @1 clock dee:1 top 1 value on\nsale @3 clock dee:1 top 1 value on\nsale @4 clock dee:1 top 1 value on\nnotes @1 clock eve:1,fay:1 top 1 value draft(eve:1)|final(fay:1)\nnotes @3 clock eve:1,fay:1 top 1 value draft(eve:1)|final(fay:1)\nnotes @4 clock eve:1,fay:1 top 1 value draft(eve:1)|final(fay:1)\nend\n",
);

/// Short ones: a key with a factor of its own, an empty cell, the greatest number, replies of the home, two transactions, a held put, and an
/// await that gives up.
pub(crate) const SHORT: [Worked; 7] = [
    (
        "anna 2\nworkers 2\nfactor 1\nkey a max factor 2\nkey b max at 2\nsession s eventual\nput a 5\nput b 6\nend\n",
        "anna report 2\nkey a max on 1 2\nkey b max on 2\nsession s eventual\nput a 1 at 1\nput b 1 at 2\nfinal\na @1 clock s:1 top 1 value 5\na @2 clock s:1 top 1 value 5\nb @2 clock s:1 top 2 value 6\nend\n",
    ),
    (
        "anna 1\nworkers 1\nkey a max\nsession s eventual\nget a\nend\n",
        "anna report 1\nsession s eventual\nget a @1 clock - top 0 value none\nfinal\na @1 clock - top 0 value none\nend\n",
    ),
    (
        "anna 1\nworkers 1\nkey a max\nsession s eventual\nput a 18446744073709551615\nend\n",
        "anna report 1\nsession s eventual\nput a 1 at 1\nfinal\na @1 clock s:1 top 1 value 18446744073709551615\nend\n",
    ),
    (
        "anna 1\nworkers 2\nkey a set at 2 1\nsession s eventual\nput a x\nget a\nput a y\nget a\nend\n",
        "anna report 1\nsession s eventual\nput a 1 at 1\nget a @2 clock s:1 top 1 value {x}\nput a 2 at 2\nget a @2 clock s:2 top 2 value {x,y}\nfinal\na @1 clock s:2 top 2 value {x,y}\na @2 clock s:2 top 2 value {x,y}\nend\n",
    ),
    (
        "anna 1\nworkers 1\nkey a max\nkey l last\nsession s committed\nbegin\nput a 5\nput l red\nabort\nbegin\nput a 5\nput l red\ncommit\nget l\nend\n",
        "anna report 1\nsession s committed\nbegin\nput a held\nput l held\nabort 2\nbegin\nput a held\nput l held\ncommit 2 at 1\nget l @1 clock s:1 top 1 value red/1/s/1\nfinal\na @1 clock s:1 top 1 value 5\nl @1 clock s:1 top 1 value red/1/s/1\nend\n",
    ),
    (
        "anna 1\nworkers 1\nkey a max\nsession s committed\nbegin\nput a 5\nget a\ncommit\nget a\nend\n",
        "anna report 1\nsession s committed\nbegin\nput a held\nget a @1 clock - top 0 value none\ncommit 1 at 1\nget a @1 clock s:1 top 1 value 5\nfinal\na @1 clock s:1 top 1 value 5\nend\n",
    ),
    (
        "anna 1\nworkers 1\nkey a max\nsession s causal\nawait a t 3\nsession t eventual\nput a 5\nend\n",
        "anna report 1\nsession s causal\nawait a t 3 gave up after 8 @1 clock t:1\nsession t eventual\nput a 1 at 1\nfinal\na @1 clock t:1 top 1 value 5\nend\n",
    ),
];

/// What a report is judged; none where there is no such script, or no report of its form.
fn judged(alloc: Global, script: &[u8], report: &[u8]) -> Result<Option<Verdict>, NoMemory> {
    let Ok(script) = read_script(alloc, script) else {
        return Ok(None);
    };
    let Ok(report) = read_report(alloc, &script, report) else {
        return Ok(None);
    };
    Ok(Some(check(alloc, &script, &report)?))
}

/// What a report is judged in which lines, counted from 1, are others.
fn judged_with(
    alloc: Global,
    worked: Worked,
    changed: &[(u32, &str)],
) -> Result<Option<Verdict>, NoMemory> {
    let mut report = Vec::new(alloc);
    let mut number = 0u32;
    for line in worked.1.lines() {
        number = number.saturating_add(1);
        let mut words = line;
        for (place, other) in changed {
            if *place == number {
                words = *other;
            }
        }
        report.extend_from_slice(words.as_bytes())?;
        report.push(b'\n')?;
    }
    judged(alloc, worked.0.as_bytes(), &report)
}

/// The place of a command, by the numbers of its session and its own.
fn command(session: u16, command: u32) -> Option<Verdict> {
    Some(Verdict::Command { session, command })
}

/// The place of a final cell, by the numbers of its key and its worker.
fn cell(key: u16, worker: u16) -> Option<Verdict> {
    Some(Verdict::Final { key, worker })
}

/// The longer ones.
pub(crate) const LONG: [Worked; 11] = [
    FIRST,
    CONVERGING,
    AT_REPLICAS,
    STALE,
    SHOWN_LESS,
    PING_PONG,
    CHAIN,
    GIVING_UP,
    HELD,
    HANDED_OVER,
    SHOP,
];

#[test]
fn worked_reports_are_legal(rt: HostRuntime) -> Result<(), Fail> {
    for worked in LONG {
        assert_eq!(rt; judged_with(rt.alloc(), worked, &[])?, Some(Verdict::Legal));
    }
    for worked in SHORT {
        assert_eq!(rt; judged_with(rt.alloc(), worked, &[])?, Some(Verdict::Legal));
    }
    Ok(())
}

/// Reports in which one line is another that is lawful too.
const LAWFUL: [(Worked, u32, &str); 7] = [
    (STALE, 4, "get a @2 clock s:1 top 1 value 5"),
    (AT_REPLICAS, 5, "get a @1 clock s:1 top 1 value {x}"),
    (CHAIN, 9, "get a @1 clock s:1 top 1 value 5 needs -"),
    (GIVING_UP, 3, "await a t 2 gave up after 16 @2 clock -"),
    (GIVING_UP, 9, "get a @1 clock t:2 top 2 value 2"),
    (
        HANDED_OVER,
        9,
        "get a @1 clock s:1,t:1 top 3 value 7 needs a{s:1},b{s:1}",
    ),
    (SHOP, 22, "await stock cid 1 gave up after 24 @1 clock -"),
];

#[test]
fn another_lawful_line_is_legal(rt: HostRuntime) -> Result<(), Fail> {
    for (worked, line, words) in LAWFUL {
        let verdict = judged_with(rt.alloc(), worked, &[(line, words)])?;
        assert_eq!(rt; verdict, Some(Verdict::Legal), "{words}");
    }
    Ok(())
}

/// Reports in which one line is not lawful, each with its session and its command, both counted from 1.
const UNLAWFUL: [(Worked, u32, &str, (u16, u32)); 41] = [
    // The next number and the next Lamport number of a put.
    (FIRST, 3, "put a 2 at 1", (1, 1)),
    (FIRST, 4, "put a 2 at 3", (1, 2)),
    (FIRST, 3, "put a worn", (1, 1)),
    // At the home the session's own puts are counted, and no later ones anywhere.
    (FIRST, 5, "get a @1 clock s:1 top 1 value 5", (1, 3)),
    (AT_REPLICAS, 4, "get a @2 clock - top 0 value none", (1, 2)),
    (
        AT_REPLICAS,
        5,
        "get a @1 clock s:2 top 2 value {x,y}",
        (1, 3),
    ),
    // The worker that is named, or the home.
    (AT_REPLICAS, 5, "get a @2 clock s:1 top 1 value {x}", (1, 3)),
    (AT_REPLICAS, 4, "get a @1 clock s:1 top 1 value {x}", (1, 2)),
    // What the worker showed before is covered, by an end of asking too.
    (AT_REPLICAS, 8, "get a @1 clock - top 0 value none", (1, 6)),
    (
        GIVING_UP,
        4,
        "get a @2 clock - top 0 value none needs -",
        (1, 2),
    ),
    // The top, the value and the needs are those of the puts that are counted.
    (STALE, 4, "get a @2 clock s:1 top 1 value 4", (1, 2)),
    (FIRST, 5, "get a @1 clock s:2 top 1 value 5", (1, 3)),
    (FIRST, 5, "get a @1 clock s:2 top 2 value 3", (1, 3)),
    (
        AT_REPLICAS,
        7,
        "get a @1 clock s:1 top 1 value {x,y}",
        (1, 5),
    ),
    (
        PING_PONG,
        4,
        "await b t 1 @2 clock t:1 top 2 value 7 needs -",
        (1, 2),
    ),
    (
        SHOP,
        26,
        "get notes @1 clock eve:1,fay:1 top 1 value final(fay:1) needs -",
        (6, 2),
    ),
    // Only accepted puts are counted: none that is not there, that is held, or that was dropped.
    (CONVERGING, 3, "put a 1 at 2", (1, 1)),
    (GIVING_UP, 9, "get a @1 clock s:1,t:2 top 2 value 2", (3, 1)),
    (GIVING_UP, 9, "get a @1 clock t:3 top 2 value 2", (3, 1)),
    (HELD, 10, "get a @1 clock s:1 top 1 value 5", (1, 8)),
    (HELD, 16, "get a @1 clock s:2 top 1 value 5", (2, 1)),
    (
        SHOP,
        22,
        "await stock cid 1 @4 clock cid:1,dee:1 top 1 value 90 needs -",
        (5, 2),
    ),
    // A causal reply covers what is awaited and what the session knows.
    (
        PING_PONG,
        4,
        "await b t 1 @2 clock - top 0 value none needs -",
        (1, 2),
    ),
    (
        CHAIN,
        9,
        "get a @1 clock - top 0 value none needs -",
        (3, 2),
    ),
    (
        SHOP,
        26,
        "get notes @3 clock eve:1 top 1 value draft(eve:1) needs -",
        (6, 2),
    ),
    // A reply raises the Lamport number.
    (PING_PONG, 5, "put a 2 at 2", (1, 3)),
    // Asking ends after 8 asks of each replica, at the last, where something is lacking.
    (
        GIVING_UP,
        3,
        "await a t 2 gave up after 8 @2 clock t:1",
        (1, 1),
    ),
    (
        GIVING_UP,
        3,
        "await a t 2 gave up after 16 @1 clock t:1",
        (1, 1),
    ),
    (
        GIVING_UP,
        3,
        "await a t 2 gave up after 16 @2 clock t:2",
        (1, 1),
    ),
    (
        SHOP,
        22,
        "await stock cid 1 gave up after 24 @1 clock bob:1",
        (5, 2),
    ),
    // Held puts are counted by their commit or abort, and share the next Lamport number.
    (HELD, 4, "put a 1 at 1", (1, 2)),
    (HELD, 6, "abort 1", (1, 4)),
    (HELD, 11, "commit 1 at 1", (1, 9)),
    (HELD, 11, "commit 2 at 2", (1, 9)),
    (HELD, 11, "commit worn", (1, 9)),
    (HELD, 8, "put a 1 at 1", (1, 6)),
    // A session that comes after another starts with the other's Lamport number and none of its puts, and is shown
    // no less than the other saw; what it puts depends on all of that.
    (HANDED_OVER, 8, "put a 1 at 1", (2, 1)),
    (HANDED_OVER, 8, "put a 2 at 3", (2, 1)),
    (
        HANDED_OVER,
        9,
        "get a @2 clock t:1 top 3 value 7 needs a{s:1},b{s:1}",
        (2, 2),
    ),
    (
        HANDED_OVER,
        9,
        "get a @2 clock s:1,t:1 top 3 value 7 needs a{s:1}",
        (2, 2),
    ),
    (
        HANDED_OVER,
        10,
        "get b @1 clock - top 0 value none needs -",
        (2, 3),
    ),
];

#[test]
fn the_first_unlawful_command_is_named(rt: HostRuntime) -> Result<(), Fail> {
    for (worked, line, words, (session, number)) in UNLAWFUL {
        let verdict = judged_with(rt.alloc(), worked, &[(line, words)])?;
        assert_eq!(rt; verdict, command(session, number), "{words}");
    }
    Ok(())
}

/// Reports in which one final cell does not hold all puts, each with its key and its worker.
const SHORT_CELLS: [(Worked, u32, &str, (u16, u16)); 4] = [
    (CONVERGING, 9, "a @2 clock s:1,t:2 top 2 value 4", (1, 2)),
    (CONVERGING, 8, "a @1 clock s:1,t:1 top 1 value 9", (1, 1)),
    (PING_PONG, 11, "b @2 clock t:1 top 3 value 7", (2, 2)),
    (
        SHOP,
        44,
        "notes @3 clock eve:1 top 1 value draft(eve:1)",
        (6, 3),
    ),
];

#[test]
fn the_first_final_cell_that_is_not_lawful_is_named(rt: HostRuntime) -> Result<(), Fail> {
    for (worked, line, words, (key, worker)) in SHORT_CELLS {
        let verdict = judged_with(rt.alloc(), worked, &[(line, words)])?;
        assert_eq!(rt; verdict, cell(key, worker), "{words}");
    }
    Ok(())
}

#[test]
fn what_is_decided_inside_a_session_comes_first(rt: HostRuntime) -> Result<(), Fail> {
    // An untrue value, after it in a later session a put that is not there, and a wrong final cell.
    let changed = [
        (12, "get l @1 clock s:1 top 1 value blue/1/s/1"),
        (16, "get a @1 clock s:1,t:1 top 1 value 5"),
        (18, "a @1 clock - top 0 value none"),
    ];
    let all = judged_with(rt.alloc(), HELD, &changed)?;
    assert_eq!(rt; all, command(2, 1));
    let without_the_put = judged_with(rt.alloc(), HELD, &[changed[0], changed[2]])?;
    assert_eq!(rt; without_the_put, command(1, 10));
    let the_cell_alone = judged_with(rt.alloc(), HELD, &[changed[2]])?;
    assert_eq!(rt; the_cell_alone, cell(1, 1));
    Ok(())
}

#[test]
fn the_session_that_one_comes_after_is_named(rt: HostRuntime) -> Result<(), Fail> {
    for words in [
        "session t causal",
        "session t causal after t",
        "session t causal since s",
        "session t causal after s s",
    ] {
        let verdict = judged_with(rt.alloc(), HANDED_OVER, &[(7, words)])?;
        assert_eq!(rt; verdict, None, "{words}");
    }
    Ok(())
}
