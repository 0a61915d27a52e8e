//! Whole runs over memory.
ghost use Rattle.std.specs.Prelude.{None};

use super::*;
use outside::{Failed, MemSink, MemSource, SureSink, SureSource};
use party_run::FreeGate;
use std::rt::Clock;
use std::test::Fail;

pub(super) const FIRST: &str =
    "anna 1\nworkers 1\nkey a max\nsession s eventual\nput a 5\nput a 3\nget a\nend\n";

pub(super) const FIRST_REPORT: &str =
    "anna report 1\nsession s eventual\nput a 1 at 1\nput a 2 at 2\nget a @1 clock s:2 top 2 value 5\nfinal\na @1 clock s:2 top 2 value 5\nend\n";

/// The words of a line of words parted by `/`.
fn words_of(alloc: Global, line: &str) -> Result<Vec<String>, NoMemory> {
    let mut words = Vec::new(alloc);
    for word in line.split('/') {
        words.push(String::from_str(alloc, word)?)?;
    }
    Ok(words)
}

/// Room for all that a test writes, in bytes.
const ROOM: usize = 15_000_000;

/// Runs the program at a gate, with these words on an input, and says how it ended and what was written.
pub(super) fn ended_at<E: Gate + Sync, H: Threads + Sync>(
    rt: &H,
    alloc: Global,
    gate: &E,
    words: &str,
    input: &[u8],
) -> Result<(Status, Vec<u8>), NoMemory> {
    let words = words_of(alloc, words)?;
    let mut src = SureSource::new(input.to_vec(alloc)?);
    let mut sink = SureSink::new(alloc, ROOM)?;
    let (status, _) = run(rt, alloc, &words, &mut src, &mut sink, gate);
    Ok((status, sink.written().to_vec(alloc)?))
}

/// Runs the program with these words on an input, and says how it ended and what was written.
pub(super) fn ended<H: Threads + Sync>(
    rt: &H,
    alloc: Global,
    words: &str,
    input: &[u8],
) -> Result<(Status, Vec<u8>), NoMemory> {
    ended_at(rt, alloc, &FreeGate, words, input)
}

/// Runs a script, and says how that ended and what was written.
pub(super) fn run_on<H: Threads + Sync>(
    rt: &H,
    alloc: Global,
    input: &[u8],
) -> Result<(Status, Vec<u8>), NoMemory> {
    ended(rt, alloc, "run", input)
}

#[test]
fn first_run(rt: HostRuntime) -> Result<(), Fail> {
    let (status, text) = run_on(&rt, rt.alloc(), FIRST.as_bytes())?;
    assert_eq!(rt; status, Status::Done);
    assert_eq!(rt; text.as_slice(), FIRST_REPORT.as_bytes());
    Ok(())
}

/// A get of a cell that no put made.
pub(super) const GET: &str = "anna 1\nworkers 1\nkey a max\nsession s eventual\nget a\nend\n";

pub(super) const GET_REPORT: &str =
    "anna report 1\nsession s eventual\nget a @1 clock - top 0 value none\nfinal\na @1 clock - top 0 value none\nend\n";

#[test]
fn empty_cell(rt: HostRuntime) -> Result<(), Fail> {
    let (status, text) = run_on(&rt, rt.alloc(), GET.as_bytes())?;
    assert_eq!(rt; status, Status::Done);
    assert_eq!(rt; text.as_slice(), GET_REPORT.as_bytes());
    Ok(())
}

#[test]
fn a_numbers_end(rt: HostRuntime) -> Result<(), Fail> {
    let cases = [
        (
            "anna 1\nworkers 1\nkey a max\nsession s eventual\nput a 18446744073709551615\nend\n",
            Status::Done,
            "anna report 1\nsession s eventual\nput a 1 at 1\nfinal\na @1 clock s:1 top 1 value 18446744073709551615\nend\n",
        ),
        (
            "anna 1\nworkers 1\nkey a max\nsession s eventual\nput a 18446744073709551616\nend\n",
            Status::Refused,
            "refused line 5: code 3\n",
        ),
    ];
    for (input, want, report) in cases {
        let (status, text) = run_on(&rt, rt.alloc(), input.as_bytes())?;
        assert_eq!(rt; status, want);
        assert_eq!(rt; text.as_slice(), report.as_bytes());
    }
    Ok(())
}

#[test]
fn a_get_shows_what_was_put_before_it(rt: HostRuntime) -> Result<(), Fail> {
    let (status, text) = run_on(
        &rt,
        rt.alloc(),
        b"anna 1\nworkers 1\nkey hits max\nsession ann eventual\nput hits 3\nget hits\nput hits 9\nget hits\nput hits 4\nend",
    )?;
    assert_eq!(rt; status, Status::Done);
    let want =
        "anna report 1\nsession ann eventual\nput hits 1 at 1\nget hits @1 clock ann:1 top 1 value 3\nput hits 2 at 2\nget hits @1 clock ann:2 top 2 value 9\nput hits 3 at 3\nfinal\nhits @1 clock ann:3 top 3 value 9\nend\n";
    assert_eq!(rt; text.as_slice(), want.as_bytes());
    Ok(())
}

// ---- several workers and sessions

/// Two replicas converge, one of which took no put of its own.
pub(super) const CONVERGED: (&str, &str) = (
    "anna 1\nworkers 2\nkey a max at 1 2\nsession s eventual\nput a 4\nsession t eventual\nput a 9\nput a 2\nend\n",
    "anna report 1\nsession s eventual\nput a 1 at 1\nsession t eventual\nput a 1 at 1\nput a 2 at 2\nfinal\na @1 clock s:1,t:2 top 2 value 9\na @2 clock s:1,t:2 top 2 value 9\nend\n",
);

/// A counter, and a set that a word is removed from.
pub(super) const COUNTED: (&str, &str) = (
    "anna 2\nworkers 1\nkey c counter\nkey w orset\nsession s eventual\nput c add 5\nput c sub 3\nget c\nput w insert milk\nput w remove milk\nput w insert milk\nget w\nend\n",
    "anna report 2\nkey c counter on 1\nkey w orset on 1\nsession s eventual\nput c 1 at 1\nput c 2 at 2\nget c @1 clock s:2 top 2 value 2{s:1+5-0,s:2+0-3}\nput w 1 at 3\nput w 2 at 4\nput w 3 at 5\nget w @1 clock s:3 top 5 value {milk@s:3;milk(s:2)}\nfinal\nc @1 clock s:2 top 2 value 2{s:1+5-0,s:2+0-3}\nw @1 clock s:3 top 5 value {milk@s:3;milk(s:2)}\nend\n",
);

/// A session begins where another ended.
pub(super) const HANDED_OVER: (&str, &str) = (
    "anna 2\nworkers 1\nkey a max\nsession s causal\nput a 5\nsession t causal after s\nput a 7\nget a\nend\n",
    "anna report 2\nkey a max on 1\nsession s causal\nput a 1 at 1\nsession t causal after s\nput a 1 at 2\nget a @1 clock s:1,t:1 top 2 value 7 needs a{s:1}\nfinal\na @1 clock s:1,t:1 top 2 value 7\nend\n",
);

/// A session awaits in vain what the session that comes after it puts.
pub(super) const LATE: (&str, &str) = (
    "anna 2\nworkers 1\nkey a max\nsession s causal\nawait a t 1\nsession t causal after s\nput a 5\nend\n",
    "anna report 2\nkey a max on 1\nsession s causal\nawait a t 1 gave up after 8 @1 clock -\nsession t causal after s\nput a 1 at 1\nfinal\na @1 clock t:1 top 1 value 5\nend\n",
);

/// Scripts whose reports are the same on every schedule, and those reports.
const SETTLED: [(&str, &str); 12] = [
    CONVERGED,
    // A key has a factor of its own.
    (
        "anna 2\nworkers 2\nfactor 1\nkey a max factor 2\nkey b max at 2\nsession s eventual\nput a 5\nput b 6\nend\n",
        "anna report 2\nkey a max on 1 2\nkey b max on 2\nsession s eventual\nput a 1 at 1\nput b 1 at 2\nfinal\na @1 clock s:1 top 1 value 5\na @2 clock s:1 top 1 value 5\nb @2 clock s:1 top 2 value 6\nend\n",
    ),
    // A counter has the sum of what was added and taken, and a remove takes away what it had seen.
    COUNTED,
    // A session is shown by its home what it put there before, and nothing that it puts later.
    (
        "anna 1\nworkers 2\nkey a set at 2 1\nsession s eventual\nput a x\nget a\nput a y\nget a\nend\n",
        "anna report 1\nsession s eventual\nput a 1 at 1\nget a @2 clock s:1 top 1 value {x}\nput a 2 at 2\nget a @2 clock s:2 top 2 value {x,y}\nfinal\na @1 clock s:2 top 2 value {x,y}\na @2 clock s:2 top 2 value {x,y}\nend\n",
    ),
    // Two causal sessions wait for each other's puts.
    (
        "anna 1\nworkers 2\nkey a max at 1\nkey b max at 2\nsession s causal\nput a 1\nawait b t 1\nput a 2\nsession t causal\nawait a s 1\nput b 7\nend\n",
        "anna report 1\nsession s causal\nput a 1 at 1\nawait b t 1 @2 clock t:1 top 2 value 7 needs a{s:1}\nput a 2 at 3\nsession t causal\nawait a s 1 @1 clock s:1 top 1 value 1 needs -\nput b 1 at 2\nfinal\na @1 clock s:2 top 3 value 2\nb @2 clock t:1 top 2 value 7\nend\n",
    ),
    // A transaction is dropped, another one committed under one Lamport number.
    (
        "anna 1\nworkers 1\nkey a max\nkey l last\nsession s committed\nbegin\nput a 5\nput l red\nabort\nbegin\nput a 5\nput l red\ncommit\nget l\nend\n",
        "anna report 1\nsession s committed\nbegin\nput a held\nput l held\nabort 2\nbegin\nput a held\nput l held\ncommit 2 at 1\nget l @1 clock s:1 top 1 value red/1/s/1\nfinal\na @1 clock s:1 top 1 value 5\nl @1 clock s:1 top 1 value red/1/s/1\nend\n",
    ),
    // A held put is not shown before its commit.
    (
        "anna 1\nworkers 1\nkey a max\nsession s committed\nbegin\nput a 5\nget a\ncommit\nget a\nend\n",
        "anna report 1\nsession s committed\nbegin\nput a held\nget a @1 clock - top 0 value none\ncommit 1 at 1\nget a @1 clock s:1 top 1 value 5\nfinal\na @1 clock s:1 top 1 value 5\nend\n",
    ),
    HANDED_OVER,
    // A session that waits is no party of the epochs in which the other gives up.
    LATE,
    // Two sessions come after one.
    (
        "anna 2\nworkers 1\nkey a max\nsession s causal\nput a 5\nsession t causal after s\nput a 7\nsession u causal after s\nput a 9\nend\n",
        "anna report 2\nkey a max on 1\nsession s causal\nput a 1 at 1\nsession t causal after s\nput a 1 at 2\nsession u causal after s\nput a 1 at 2\nfinal\na @1 clock s:1,t:1,u:1 top 2 value 9\nend\n",
    ),
    // Sessions without lines hand over what they were handed.
    (
        "anna 2\nworkers 1\nkey a max\nsession s causal\nput a 5\nsession t causal after s\nsession u causal after t\nsession v causal after u\nput a 7\nend\n",
        "anna report 2\nkey a max on 1\nsession s causal\nput a 1 at 1\nsession t causal after s\nsession u causal after t\nsession v causal after u\nput a 1 at 2\nfinal\na @1 clock s:1,v:1 top 2 value 7\nend\n",
    ),
    // Nothing is asked for.
    (
        "anna 1\nworkers 2\nfactor 2\nend\n",
        "anna report 1\nfinal\nend\n",
    ),
];

#[test]
fn reports_of_every_schedule(rt: HostRuntime) -> Result<(), Fail> {
    for (script, report) in SETTLED {
        for words in ["run", "run/--scramble/7"] {
            let (status, text) = ended(&rt, rt.alloc(), words, script.as_bytes())?;
            assert_eq!(rt; status, Status::Done);
            assert_eq!(rt; text.as_slice(), report.as_bytes());
        }
    }
    Ok(())
}

/// Whether a line stands in a text.
fn has_line(text: &[u8], line: &str) -> bool {
    text.split(|byte| *byte == b'\n')
        .any(|one| one == line.as_bytes())
}

/// A get at another replica than the one that took the put.
pub(super) const STALE: &str =
    "anna 1\nworkers 2\nkey a max at 1 2\nsession s eventual\nput a 5\nget a 2\nend\n";

#[test]
fn another_replica_may_be_behind(rt: HostRuntime) -> Result<(), Fail> {
    let (status, text) = run_on(&rt, rt.alloc(), STALE.as_bytes())?;
    assert_eq!(rt; status, Status::Done);
    assert!(rt;
        has_line(&text, "get a @2 clock - top 0 value none")
            || has_line(&text, "get a @2 clock s:1 top 1 value 5")
    );
    Ok(())
}

#[test]
fn a_chain_of_causes(rt: HostRuntime) -> Result<(), Fail> {
    let script =
        "anna 1\nworkers 3\nkey a max at 1 2 3\nkey b max at 2\nsession s causal\nput a 5\nsession t causal\nawait a s 1\nput b 6\nsession u causal\nawait b t 1\nget a\nend\n";
    let (status, text) = run_on(&rt, rt.alloc(), script.as_bytes())?;
    assert_eq!(rt; status, Status::Done);
    assert!(rt; has_line(&text, "await b t 1 @2 clock t:1 top 2 value 6 needs a{s:1}"));
    assert!(rt;
        has_line(&text, "get a @1 clock s:1 top 1 value 5 needs -")
            || has_line(&text, "get a @2 clock s:1 top 1 value 5 needs -")
            || has_line(&text, "get a @3 clock s:1 top 1 value 5 needs -")
    );
    Ok(())
}

#[test]
fn a_successor_is_shown_what_its_predecessor_saw(rt: HostRuntime) -> Result<(), Fail> {
    let script =
        "anna 2\nworkers 2\nkey a max at 1 2\nkey b max at 1 2\nsession s causal\nput a 5\nsession t causal\nawait a s 1\nsession u causal after t\nget a\nput b 6\nend\n";
    let (status, text) = run_on(&rt, rt.alloc(), script.as_bytes())?;
    assert_eq!(rt; status, Status::Done);
    assert!(rt;
        has_line(&text, "get a @1 clock s:1 top 1 value 5 needs -")
            || has_line(&text, "get a @2 clock s:1 top 1 value 5 needs -")
    );
    assert!(rt; has_line(&text, "put b 1 at 2"));
    Ok(())
}

/// Sixteen sessions, each of which puts and comes after the one before, and the last of which gets; and the report.
fn chain(alloc: Global) -> Result<(String, String), Fail> {
    let mut script = String::from_str(alloc, "anna 2\nworkers 1\nkey a max\n")?;
    let mut report = String::from_str(alloc, "anna report 2\nkey a max on 1\n")?;
    let mut clock = String::new(alloc);
    let mut needs = String::new(alloc);
    for before in 0..16 {
        let number = before + 1;
        let session = if before == 0 {
            format!(in alloc; "session s1 causal")?
        } else {
            format!(in alloc; "session s{number} causal after s{before}")?
        };
        push_line(&mut script, &session)?;
        push_line(&mut report, &session)?;
        push_line(&mut script, &format!(in alloc; "put a {number}")?)?;
        push_line(&mut report, &format!(in alloc; "put a 1 at {number}")?)?;
        needs = String::from_str(alloc, &clock)?;
        if before > 0 {
            clock.push_str(",")?;
        }
        clock.push_str(&format!(in alloc; "s{number}:1")?)?;
    }
    push_line(&mut script, "get a")?;
    push_line(
        &mut report,
        &format!(in alloc; "get a @1 clock {clock} top 16 value 16 needs a{{{needs}}}")?,
    )?;
    push_line(&mut script, "end")?;
    push_line(
        &mut report,
        &format!(in alloc; "final\na @1 clock {clock} top 16 value 16\nend")?,
    )?;
    Ok((script, report))
}

#[test]
fn sixteen_sessions_come_one_after_another(rt: HostRuntime) -> Result<(), Fail> {
    let (script, report) = chain(rt.alloc())?;
    let (status, text) = run_on(&rt, rt.alloc(), script.as_bytes())?;
    assert_eq!(rt; status, Status::Done);
    assert_eq!(rt; text.as_slice(), report.as_bytes());
    Ok(())
}

/// A small shop, with keys of all kinds and sessions of all levels.
const SHOP: &str =
    "# a small shop\r\nanna 1\r\nworkers 4\r\nfactor 3\r\nround 2\r\nkey cart set\r\nkey hits map\r\nkey profile last\r\nkey stock max\r\nkey sale or\r\nkey notes versions\r\n\r\nsession ann eventual\r\nput cart milk\r\nput cart bread\r\nput hits home 3\r\nsession bob eventual\r\nput hits home 5\r\nput hits about 1\r\nget cart\r\nsession cid committed\r\nbegin\r\nput profile blue\r\nput stock 40\r\ncommit\r\nsession dee committed\r\nbegin\r\nput stock 90\r\nabort\r\nput sale on\r\nsession eve causal\r\nput notes draft\r\nawait stock cid 1\r\nget cart\r\nsession fay causal\r\nput notes final\r\nget notes\r\nend\r\n";

/// The first answers of its report, which no schedule changes, and a text for each key: how often it stands
/// in the final cells, which are three of each key.
const SHOP_ANSWERS: &str =
    "anna report 1\nsession ann eventual\nput cart 1 at 1\nput cart 2 at 2\nput hits 1 at 3\nsession bob eventual\n";

const SHOP_FINALS: [(&str, &str); 6] = [
    ("cart @", " clock ann:2 top 2 value {bread,milk}"),
    ("hits @", " clock ann:1,bob:2 top 3 value {about=1,home=5}"),
    ("profile @", " clock cid:1 top 1 value blue/1/cid/0"),
    ("stock @", " clock cid:1 top 1 value 40"),
    ("sale @", " clock dee:1 top 1 value on"),
    (
        "notes @",
        " clock eve:1,fay:1 top 1 value draft(eve:1)|final(fay:1)",
    ),
];

/// How often a line with this front and this back stands in a text.
fn many_lines(text: &[u8], front: &str, back: &str) -> usize {
    text.split(|byte| *byte == b'\n')
        .filter(|line| line.starts_with(front.as_bytes()) && line.ends_with(back.as_bytes()))
        .count()
}

#[test]
fn sessions_of_all_levels_on_keys_of_all_kinds(rt: HostRuntime) -> Result<(), Fail> {
    let (status, text) = run_on(&rt, rt.alloc(), SHOP.as_bytes())?;
    assert_eq!(rt; status, Status::Done);
    assert!(rt; text.starts_with(SHOP_ANSWERS.as_bytes()));
    for line in ["put profile held", "put stock held", "commit 2 at 1"] {
        assert!(rt; has_line(&text, line), "{line}");
    }
    for (front, back) in SHOP_FINALS {
        assert_eq!(rt; many_lines(&text, front, back), 3, "{front}");
    }
    // The report is legal for its script.
    let mut both = SHOP.as_bytes().to_vec(rt.alloc())?;
    both.extend_from_slice(&text)?;
    let (status, text) = ended(&rt, rt.alloc(), "check", &both)?;
    assert_eq!(rt; status, Status::Done);
    assert_eq!(rt; text.as_slice(), b"legal\n".as_slice());
    Ok(())
}

#[test]
fn the_final_cells_of_scrambled_gossip_are_the_same(rt: HostRuntime) -> Result<(), Fail> {
    let (status, text) = ended(&rt, rt.alloc(), "run/--scramble/1", SHOP.as_bytes())?;
    assert_eq!(rt; status, Status::Done);
    for (front, back) in SHOP_FINALS {
        assert_eq!(rt; many_lines(&text, front, back), 3, "{front}");
    }
    Ok(())
}

// ---- what is read

#[test]
fn spaces_tabs_returns_and_comments_change_nothing(rt: HostRuntime) -> Result<(), Fail> {
    let input =
        b"\r\n# any bytes: \x00\x07\x1b\x7f\x80\xc3\xff\r\nanna\t1\r\n  workers   01 \r\n\n \t \r\nkey\t \ta  max\t\r\nsession s eventual\n\t#\xfe put a 9\r\nput a 005\r\n put a 3\r\nget\ta\r\nend\t\r\n\r\n#\xff\r";
    let (status, text) = run_on(&rt, rt.alloc(), input)?;
    assert_eq!(rt; status, Status::Done);
    assert_eq!(rt; text.as_slice(), FIRST_REPORT.as_bytes());
    Ok(())
}

#[test]
fn factors_of_keys_are_refused(rt: HostRuntime) -> Result<(), Fail> {
    // The first line and the fourth, and what is said of the script.
    let cases = [
        ("anna 2", "key a max factor 3", "refused line 4: code 8\n"),
        ("anna 2", "key a max factor", "refused line 4: code 2\n"),
        ("anna 2", "key a max factor x", "refused line 4: code 3\n"),
        ("anna 1", "key a max factor 2", "refused line 4: code 2\n"),
        ("anna 3", "key a max factor 2", "refused line 1: code 1\n"),
    ];
    for (first, fourth, want) in cases {
        let script = format!(in rt.alloc();
            "{first}\nworkers 2\nfactor 1\n{fourth}\nkey b max at 2\nsession s eventual\nput a 5\nput b 6\nend\n"
        )?;
        let (status, text) = run_on(&rt, rt.alloc(), script.as_bytes())?;
        assert_eq!(rt; status, Status::Refused, "{fourth:?}");
        assert_eq!(rt; text.as_slice(), want.as_bytes(), "{fourth:?}");
    }
    Ok(())
}

#[test]
fn hand_overs_are_refused(rt: HostRuntime) -> Result<(), Fail> {
    // The first line, the fourth and the sixth, and what is said of the script.
    let cases = [
        ("anna 2", "session s causal", "session t causal after u", 6),
        ("anna 2", "session s causal", "session t causal after t", 6),
        (
            "anna 2",
            "session s causal",
            "session t eventual after s",
            2,
        ),
        ("anna 2", "session s causal", "session t causal since s", 2),
        (
            "anna 2",
            "session s eventual",
            "session t causal after s",
            6,
        ),
        ("anna 1", "session s causal", "session t causal after s", 2),
        ("anna 2", "session s causal", "session t causal after", 2),
        (
            "anna 2",
            "session s causal",
            "session t causal after s s",
            2,
        ),
        ("anna 2", "session s causal", "session t causal after s+", 4),
        ("anna 2", "session s causal", "session s causal after u", 5),
    ];
    for (first, fourth, sixth, code) in cases {
        let script = format!(in rt.alloc();
            "{first}\nworkers 1\nkey a max\n{fourth}\nput a 5\n{sixth}\nput a 7\nget a\nend\n"
        )?;
        let want = format!(in rt.alloc(); "refused line 6: code {code}\n")?;
        let (status, text) = run_on(&rt, rt.alloc(), script.as_bytes())?;
        assert_eq!(rt; status, Status::Refused, "{sixth:?}");
        assert_eq!(rt; text.as_slice(), want.as_bytes(), "{sixth:?}");
    }
    Ok(())
}

// ---- words

/// Runs these words on the first script, and says that they are refused and the source left alone.
fn is_refused<H: Threads + Sync>(
    rt: &H,
    alloc: Global,
    words: &[String],
) -> Result<bool, NoMemory> {
    let mut src = SureSource::new(FIRST.as_bytes().to_vec(alloc)?);
    let mut sink = SureSink::new(alloc, 1_000)?;
    let (status, _) = run(rt, alloc, words, &mut src, &mut sink, &FreeGate);
    let mut into = [0u8; 200];
    let left = src.take(&mut into);
    Ok(
        status == Status::Usage
            && sink.written() == b"usage: anna COMMAND\n".as_slice()
            && left == Ok(FIRST.len()),
    )
}

#[test]
fn words_of_no_accepted_form(rt: HostRuntime) -> Result<(), Fail> {
    assert!(rt; is_refused(&rt, rt.alloc(), &[])?);
    for line in [
        "",
        "run/x",
        "run/",
        "run/--scramble",
        "run/--scramble=7",
        "run/--scramble/",
        "run/--scramble/x",
        "run/--scramble/7/7",
        "run/--scramble/18446744073709551616",
        "run/--scrambled/7",
        "run/7",
        "run/7/--scramble",
        "--scramble/7",
        "check/--scramble/7",
        "big/--scramble/7",
        "Run",
        "run ",
        "--run",
        "runs",
        "big",
        "big/",
        "big/x",
        "big/+7",
        "big/7/7",
        "big/18446744073709551616",
        "big/000000000000000000007",
    ] {
        let words = words_of(rt.alloc(), line)?;
        assert!(rt; is_refused(&rt, rt.alloc(), &words)?, "{line:?}");
    }
    Ok(())
}

// ---- faults outside

/// Puts a line at the end of a text.
pub(super) fn push_line(text: &mut String, line: &str) -> Result<(), NoMemory> {
    text.push_str(line)?;
    text.push_str("\n")?;
    Ok(())
}

/// Gives its bytes one at a time, and tells none of them.
#[derive(Drop)]
struct Slow(MemSource);

impl Source for Slow {
    ghost left = { λ _. None };

    ghost faults = { λ slow. slow.0.plan.faults };

    fn take(&mut self, into: &mut [u8]) -> Result<usize, Failed> {
        self.0.take(&mut into[..1])
    }
}

/// Takes one byte of each piece, and tells none of them.
#[derive(Drop)]
struct Narrow(MemSink);

impl Sink for Narrow {
    ghost written = { λ _. None };

    ghost faults = { λ narrow. narrow.0.plan.faults };

    fn give(&mut self, piece: &[u8]) -> Result<usize, Failed> {
        self.0.give(&piece[..1])
    }
}

#[test]
fn each_read_fails_in_turn(rt: HostRuntime) -> Result<(), Fail> {
    let words = words_of(rt.alloc(), "run")?;
    // Each byte is a read, and one more finds the end.
    for call in 1..FIRST.len() as u32 + 2 {
        let input = FIRST.as_bytes().to_vec(rt.alloc())?;
        let mut src = Slow(MemSource::new(input, [call].to_vec(rt.alloc())?));
        let mut sink = SureSink::new(rt.alloc(), 1_000)?;
        assert_eq!(rt;
            run(&rt, rt.alloc(), &words, &mut src, &mut sink, &FreeGate).0,
            Status::ReadFault
        );
        assert_eq!(rt; sink.written(), b"read fault\n".as_slice());
    }
    let input = FIRST.as_bytes().to_vec(rt.alloc())?;
    let mut src = Slow(MemSource::new(input, Vec::new(rt.alloc())));
    let mut sink = SureSink::new(rt.alloc(), 1_000)?;
    assert_eq!(rt;
        run(&rt, rt.alloc(), &words, &mut src, &mut sink, &FreeGate).0,
        Status::Done
    );
    assert_eq!(rt; sink.written(), FIRST_REPORT.as_bytes());
    Ok(())
}

#[test]
fn each_write_fails_in_turn(rt: HostRuntime) -> Result<(), Fail> {
    let words = words_of(rt.alloc(), "run")?;
    // Each byte is a write.
    for call in 1..FIRST_REPORT.len() as u32 + 1 {
        let mut src = SureSource::new(FIRST.as_bytes().to_vec(rt.alloc())?);
        let mut sink = Narrow(MemSink::new(rt.alloc(), [call].to_vec(rt.alloc())?)?);
        assert_eq!(rt;
            run(&rt, rt.alloc(), &words, &mut src, &mut sink, &FreeGate).0,
            Status::WriteFault
        );
        assert!(rt; FIRST_REPORT.as_bytes().starts_with(sink.0.written()));
        assert_eq!(rt; sink.0.written().len() + 1, call as usize);
    }
    Ok(())
}

#[test]
fn faults_outside(rt: HostRuntime) -> Result<(), Fail> {
    let words = words_of(rt.alloc(), "run")?;
    // Of a sink that takes each piece whole the first write fails; and the second, which does not come,
    // since the report is short.
    for (failing, status, written) in [
        (1, Status::WriteFault, ""),
        (2, Status::Done, FIRST_REPORT),
    ] {
        let mut src = SureSource::new(FIRST.as_bytes().to_vec(rt.alloc())?);
        let mut sink = MemSink::new(rt.alloc(), [failing].to_vec(rt.alloc())?)?;
        assert_eq!(rt;
            run(&rt, rt.alloc(), &words, &mut src, &mut sink, &FreeGate).0,
            status
        );
        assert_eq!(rt; sink.written(), written.as_bytes());
    }
    Ok(())
}

#[test]
fn a_long_report_is_written_in_blocks(rt: HostRuntime) -> Result<(), Fail> {
    let words = words_of(rt.alloc(), "run")?;
    let mut script = String::from_str(
        rt.alloc(),
        "anna 1\nworkers 1\nkey a max\nsession s eventual\nput a 5\n",
    )?;
    let mut report = String::from_str(
        rt.alloc(),
        "anna report 1\nsession s eventual\nput a 1 at 1\n",
    )?;
    for _ in 0..1000 {
        push_line(&mut script, "get a")?;
        push_line(&mut report, "get a @1 clock s:1 top 1 value 5")?;
    }
    push_line(&mut script, "end")?;
    report.push_str("final\na @1 clock s:1 top 1 value 5\nend\n")?;
    // 33 kB are two blocks of 16,384 bytes and a rest: three writes, of which each fails in turn.
    for (failing, status, length) in [
        (1, Status::WriteFault, 0),
        (2, Status::WriteFault, 16_384),
        (3, Status::WriteFault, 32_768),
        (4, Status::Done, report.len()),
    ] {
        let mut src = SureSource::new(script.as_bytes().to_vec(rt.alloc())?);
        let mut sink = MemSink::new(rt.alloc(), [failing].to_vec(rt.alloc())?)?;
        assert_eq!(rt;
            run(&rt, rt.alloc(), &words, &mut src, &mut sink, &FreeGate).0,
            status
        );
        assert_eq!(rt; sink.written().len(), length);
        assert!(rt; report.as_bytes().starts_with(sink.written()));
    }
    Ok(())
}

#[test]
fn the_first_read_fails(rt: HostRuntime) -> Result<(), Fail> {
    let words = words_of(rt.alloc(), "run")?;
    let mut src = MemSource::new(
        FIRST.as_bytes().to_vec(rt.alloc())?,
        [1].to_vec(rt.alloc())?,
    );
    let mut sink = MemSink::new(rt.alloc(), Vec::new(rt.alloc()))?;
    assert_eq!(rt;
        run(&rt, rt.alloc(), &words, &mut src, &mut sink, &FreeGate).0,
        Status::ReadFault
    );
    assert_eq!(rt; sink.written(), b"read fault\n".as_slice());
    Ok(())
}
