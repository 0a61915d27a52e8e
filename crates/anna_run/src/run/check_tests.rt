//! Reports that are checked, over memory.
use super::tests::{CONVERGED, COUNTED};
use super::*;
use outside::{MemSink, MemSource, SureSink, SureSource};
use party_run::FreeGate;
use std::rt::Clock;
use std::test::Fail;

/// A script, and a report that is legal for it.
type Worked = (&'static str, &'static str);

const FIRST: Worked = (tests::FIRST, tests::FIRST_REPORT);

/// Held puts are dropped by an abort, accepted by a commit, and not shown before it.
const HELD: Worked = (
    "anna 1\nworkers 1\nkey a max\nkey l last\nsession s committed\nbegin\nput a 5\nput l red\nabort\nbegin\nput a 5\nput l red\nget a\ncommit\nget l\nbegin\ncommit\nsession t eventual\nget a\nend\n",
    "anna report 1\nsession s committed\nbegin\nput a held\nput l held\nabort 2\nbegin\nput a held\nput l held\nget a @1 clock - top 0 value none\ncommit 2 at 1\nget l @1 clock s:1 top 1 value red/1/s/1\nbegin\ncommit 0\nsession t eventual\nget a @1 clock s:1 top 1 value 5\nfinal\na @1 clock s:1 top 1 value 5\nl @1 clock s:1 top 1 value red/1/s/1\nend\n",
);

/// A get at another replica than the one that took the put, which is behind.
const STALE: Worked = (
    tests::STALE,
    "anna report 1\nsession s eventual\nput a 1 at 1\nget a @2 clock - top 0 value none\nfinal\na @1 clock s:1 top 1 value 5\na @2 clock s:1 top 1 value 5\nend\n",
);

/// A word is removed by one session while another inserts it again: the remove had seen the first insert
/// alone.
const REMOVED: Worked = (
    "anna 2\nworkers 2\nkey w orset at 1 2\nsession s eventual\nput w insert milk\nput w insert milk\nsession t eventual\nget w\nput w remove milk\nend\n",
    "anna report 2\nkey w orset on 1 2\nsession s eventual\nput w 1 at 1\nput w 2 at 2\nsession t eventual\nget w @2 clock s:1 top 1 value {milk@s:1;}\nput w 1 at 2\nfinal\nw @1 clock s:2,t:1 top 2 value {milk@s:2;milk(s:1,t:1)}\nw @2 clock s:2,t:1 top 2 value {milk@s:2;milk(s:1,t:1)}\nend\n",
);

/// Runs `check` on an input, and says how it ended and what was written.
fn check_on<H: Threads + Sync>(
    rt: &H,
    alloc: Global,
    input: Vec<u8>,
) -> Result<(Status, Vec<u8>), NoMemory> {
    let mut words = Vec::new(alloc);
    words.push(String::from_str(alloc, "check")?)?;
    let mut src = SureSource::new(input);
    let mut sink = SureSink::new(alloc, 1_000)?;
    let (status, _) = run(rt, alloc, &words, &mut src, &mut sink, &FreeGate);
    Ok((status, sink.written().to_vec(alloc)?))
}

/// A script, and after it a report in which lines, counted from 1, are others.
fn input_of(alloc: Global, worked: Worked, spoilt: &[(u32, &str)]) -> Result<Vec<u8>, NoMemory> {
    let mut input = Vec::from_slice(alloc, worked.0.as_bytes())?;
    let mut number = 0u32;
    for line in worked.1.lines() {
        number = number.saturating_add(1);
        let mut words = line;
        for (place, other) in spoilt {
            if *place == number {
                words = *other;
            }
        }
        input.extend_from_slice(words.as_bytes())?;
        input.push(b'\n')?;
    }
    Ok(input)
}

/// Whether a script with its report, in which lines are others, is judged as `want` says, with the status for that.
fn is_judged<H: Threads + Sync>(
    rt: &H,
    alloc: Global,
    worked: Worked,
    spoilt: &[(u32, &str)],
    want: &str,
) -> Result<bool, NoMemory> {
    let end = if want == "legal\n" {
        Status::Done
    } else {
        Status::Unlawful
    };
    let (status, text) = check_on(rt, alloc, input_of(alloc, worked, spoilt)?)?;
    Ok(status == end && text.as_slice() == want.as_bytes())
}

#[test]
fn the_first_unlawful_command_is_told(rt: HostRuntime) -> Result<(), Fail> {
    let alloc = rt.alloc();
    let legal = "legal\n";
    assert!(rt; is_judged(&rt, alloc, FIRST, &[], legal)?);
    let behind = (5, "get a @1 clock s:1 top 1 value 5");
    let want = "unlawful session s command 3\n";
    assert!(rt; is_judged(&rt, alloc, FIRST, &[behind], want)?);

    assert!(rt; is_judged(&rt, alloc, STALE, &[], legal)?);
    let up_to_date = (4, "get a @2 clock s:1 top 1 value 5");
    assert!(rt; is_judged(&rt, alloc, STALE, &[up_to_date], legal)?);
    let never_put = (4, "get a @2 clock s:1 top 1 value 4");
    let want = "unlawful session s command 2\n";
    assert!(rt; is_judged(&rt, alloc, STALE, &[never_put], want)?);
    Ok(())
}

#[test]
fn the_first_unlawful_final_cell_is_told(rt: HostRuntime) -> Result<(), Fail> {
    let alloc = rt.alloc();
    assert!(rt; is_judged(&rt, alloc, CONVERGED, &[], "legal\n")?);
    let lesser = (9, "a @2 clock s:1,t:2 top 2 value 4");
    let want = "unlawful final a @2\n";
    assert!(rt; is_judged(&rt, alloc, CONVERGED, &[lesser], want)?);
    Ok(())
}

#[test]
fn counters_and_sets_with_removal_are_judged(rt: HostRuntime) -> Result<(), Fail> {
    let alloc = rt.alloc();
    assert!(rt; is_judged(&rt, alloc, COUNTED, &[], "legal\n")?);
    // The same total of other amounts.
    let other = (7, "get c @1 clock s:2 top 2 value 2{s:1+3-0,s:2+0-1}");
    let want = "unlawful session s command 3\n";
    assert!(rt; is_judged(&rt, alloc, COUNTED, &[other], want)?);
    // An insert that the remove had seen.
    let back = (
        14,
        "w @1 clock s:3 top 5 value {milk@s:1,milk@s:3;milk(s:2)}",
    );
    let (status, _) = check_on(&rt, alloc, input_of(alloc, COUNTED, &[back])?)?;
    assert_eq!(rt; status, Status::Refused);
    // No trace of the remove.
    let forgotten = (14, "w @1 clock s:3 top 5 value {milk@s:1,milk@s:3;}");
    let want = "unlawful final w @1\n";
    assert!(rt; is_judged(&rt, alloc, COUNTED, &[forgotten], want)?);

    assert!(rt; is_judged(&rt, alloc, REMOVED, &[], "legal\n")?);
    // The remove had not seen the second insert, whose session has put it before: it is there.
    let gone = (10, "w @1 clock s:2,t:1 top 2 value {;milk(s:1,t:1)}");
    let want = "unlawful final w @1\n";
    assert!(rt; is_judged(&rt, alloc, REMOVED, &[gone], want)?);
    // It may have seen both.
    let seen = [
        (7, "get w @2 clock s:2 top 2 value {milk@s:1,milk@s:2;}"),
        (8, "put w 1 at 3"),
        (10, "w @1 clock s:2,t:1 top 3 value {;milk(s:2,t:1)}"),
        (11, "w @2 clock s:2,t:1 top 3 value {;milk(s:2,t:1)}"),
    ];
    assert!(rt; is_judged(&rt, alloc, REMOVED, &seen, "legal\n")?);
    Ok(())
}

#[test]
fn what_is_decided_inside_a_session_is_told_first(rt: HostRuntime) -> Result<(), Fail> {
    let alloc = rt.alloc();
    let unread = (12, "get l @1 clock s:1 top 1 value blue/1/s/1");
    let not_put = (16, "get a @1 clock s:1,t:1 top 1 value 5");
    let short = (18, "a @1 clock - top 0 value none");
    assert!(rt; is_judged(&rt, alloc, HELD, &[], "legal\n")?);
    let want = "unlawful final a @1\n";
    assert!(rt; is_judged(&rt, alloc, HELD, &[short], want)?);
    let want = "unlawful session s command 10\n";
    assert!(rt; is_judged(&rt, alloc, HELD, &[unread, short], want)?);
    let want = "unlawful session t command 1\n";
    assert!(rt; is_judged(&rt, alloc, HELD, &[unread, not_put, short], want)?);
    Ok(())
}

#[test]
fn what_is_no_script_or_no_report_is_refused(rt: HostRuntime) -> Result<(), Fail> {
    let leading_zero = input_of(
        rt.alloc(),
        FIRST,
        &[(5, "get a @1 clock s:2 top 02 value 5")],
    )?;
    let no_report = Vec::from_slice(rt.alloc(), FIRST.0.as_bytes())?;
    let no_script = Vec::from_slice(
        rt.alloc(),
        b"anna 1\nworkers 9\nend\nanna report 1\nfinal\nend\n",
    )?;
    let no_end = Vec::from_slice(rt.alloc(), b"anna 1\nworkers 1\n")?;
    let mut longest = input_of(rt.alloc(), FIRST, &[])?;
    longest.resize(16_777_216, b'x')?;
    let too_long = vec![in rt.alloc(); b'#'; 16_777_217]?;
    let cases = [
        (leading_zero, "refused report line 5\n"),
        (no_report, "refused report line 1\n"),
        (no_script, "refused line 2: code 8\n"),
        (no_end, "refused line 3: code 10\n"),
        (longest, "refused report line 9\n"),
        (too_long, "refused line 0: code 12\n"),
    ];
    for (input, want) in Vec::from_array(rt.alloc(), cases)? {
        let (status, text) = check_on(&rt, rt.alloc(), input)?;
        assert_eq!(rt; status, Status::Refused);
        assert_eq!(rt; text.as_slice(), want.as_bytes());
    }
    Ok(())
}

#[test]
fn a_check_may_meet_faults(rt: HostRuntime) -> Result<(), Fail> {
    let mut words = Vec::new(rt.alloc());
    words.push(String::from_str(rt.alloc(), "check")?)?;
    let input = input_of(rt.alloc(), FIRST, &[])?;
    let mut src = MemSource::new(input.to_vec(rt.alloc())?, [1].to_vec(rt.alloc())?);
    let mut sink = SureSink::new(rt.alloc(), 1_000)?;
    assert_eq!(rt;
        run(&rt, rt.alloc(), &words, &mut src, &mut sink, &FreeGate).0,
        Status::ReadFault
    );
    assert_eq!(rt; sink.written(), b"read fault\n".as_slice());
    let mut src = SureSource::new(input);
    let mut sink = MemSink::new(rt.alloc(), [1].to_vec(rt.alloc())?)?;
    assert_eq!(rt;
        run(&rt, rt.alloc(), &words, &mut src, &mut sink, &FreeGate).0,
        Status::WriteFault
    );
    assert!(rt; sink.written().is_empty());
    Ok(())
}
