//! What is refused, and how much there may be.
use super::tests::{FIRST, FIRST_REPORT, ended, push_line, run_on};
use super::*;
use std::test::Fail;

// ---- refusals

/// The text of a refusal.
fn refused(alloc: Global, line: u32, code: u8) -> Result<String, NoMemory> {
    Ok(format!(in alloc; "refused line {line}: code {code}\n")?)
}

/// Lines each of which is refused in place of the first command of the first script, and the code.
const REFUSED_LINES: [(&[u8], u8); 15] = [
    (b"put a", 2),
    (b"put a 5 6", 7),
    (b"put a x", 7),
    (b"put a 18446744073709551616", 3),
    (b"put b 5", 6),
    (b"put a+ 5", 4),
    (b"begin", 9),
    (b"get a 2", 6),
    (b"get a x", 3),
    (b"await a s 1", 2),
    (b"session s eventual", 5),
    (b"session t lazy", 2),
    (b"key b max", 2),
    (b"round 5", 2),
    (b"put a \x80", 13),
];

#[test]
fn lines_are_refused_with_their_codes(rt: HostRuntime) -> Result<(), Fail> {
    for (line, code) in REFUSED_LINES {
        let mut input = b"anna 1\nworkers 1\nkey a max\nsession s eventual\n".to_vec(rt.alloc())?;
        input.extend_from_slice(line)?;
        input.extend_from_slice(b"\nput a 3\nget a\nend\n")?;
        let (status, text) = run_on(&rt, rt.alloc(), &input)?;
        let want = refused(rt.alloc(), 5, code)?;
        assert_eq!(rt; status, Status::Refused, "{line:?}");
        assert_eq!(rt; text.as_slice(), want.as_bytes(), "{line:?}");
    }
    Ok(())
}

/// Inputs that are no scripts, and what is said of each.
const REFUSED_INPUTS: [(&str, &str); 5] = [
    ("", "refused line 1: code 10\n"),
    (
        "anna 3\nworkers 1\nkey a max\nsession s eventual\nput a 5\nput a 3\nget a\nend\n",
        "refused line 1: code 1\n",
    ),
    (
        "anna 1\nworkers 9\nkey a max\nsession s eventual\nput a 5\nput a 3\nget a\nend\n",
        "refused line 2: code 8\n",
    ),
    (
        "anna 1\nworkers 1\nkey a max\nsession s eventual\nput a 5\nput a 3\nget a\nget a\n",
        "refused line 9: code 10\n",
    ),
    (
        "anna 1\nworkers 1\nkey a max\nsession s eventual\nput a 5\nput a 3\nget a\nend\nput a 9\n",
        "refused line 9: code 11\n",
    ),
];

#[test]
fn inputs_are_refused_at_their_first_line_at_fault(rt: HostRuntime) -> Result<(), Fail> {
    for (input, want) in REFUSED_INPUTS {
        let (status, text) = run_on(&rt, rt.alloc(), input.as_bytes())?;
        assert_eq!(rt; status, Status::Refused, "{want}");
        assert_eq!(rt; text.as_slice(), want.as_bytes());
    }
    Ok(())
}

// ---- limits

/// A script of one worker with so many keys, `k1` and on, and so many sessions.
fn script_of(alloc: Global, keys: u32, sessions: u32) -> Result<String, NoMemory> {
    let mut text = String::from_str(alloc, "anna 1\nworkers 1\n")?;
    for key in 1..=keys {
        text.push_str(format!(in alloc; "key k{key} max\n")?.as_str())?;
    }
    for session in 1..=sessions {
        text.push_str(format!(in alloc; "session s{session} eventual\n")?.as_str())?;
    }
    text.push_str("end\n")?;
    Ok(text)
}

#[test]
fn as_many_keys_and_sessions_as_there_may_be(rt: HostRuntime) -> Result<(), Fail> {
    for (keys, sessions, line) in [(129, 0, 131), (1, 17, 20)] {
        let input = script_of(rt.alloc(), keys, sessions)?;
        let (status, text) = run_on(&rt, rt.alloc(), input.as_bytes())?;
        let want = refused(rt.alloc(), line, 8)?;
        assert_eq!(rt; status, Status::Refused);
        assert_eq!(rt; text.as_slice(), want.as_bytes());
    }
    let input = script_of(rt.alloc(), 128, 16)?;
    let (status, text) = run_on(&rt, rt.alloc(), input.as_bytes())?;
    assert_eq!(rt; status, Status::Done);
    // The header, `final` and `end`, a line for each key and each session, and nothing after the last.
    assert_eq!(rt; text.as_slice().split(|byte| *byte == b'\n').count(), 148);
    Ok(())
}

/// The first script, filled up with spaces to so many bytes.
fn filled(alloc: Global, length: usize) -> Result<Vec<u8>, NoMemory> {
    let mut input = FIRST.as_bytes().to_vec(alloc)?;
    input.resize(length, b' ')?;
    Ok(input)
}

#[test]
fn as_many_bytes_as_there_may_be(rt: HostRuntime) -> Result<(), Fail> {
    let input = filled(rt.alloc(), 1_048_576)?;
    let (status, text) = run_on(&rt, rt.alloc(), &input)?;
    assert_eq!(rt; status, Status::Done);
    assert_eq!(rt; text.as_slice(), FIRST_REPORT.as_bytes());
    let input = filled(rt.alloc(), 1_048_577)?;
    let (status, text) = run_on(&rt, rt.alloc(), &input)?;
    assert_eq!(rt; status, Status::Refused);
    assert_eq!(rt; text.as_slice(), b"refused line 0: code 12\n".as_slice());
    Ok(())
}

/// The kinds of keys, in turn.
const KINDS: [&str; 6] = ["max", "or", "set", "map", "last", "versions"];

/// The levels of sessions, in turn.
const LEVELS: [&str; 3] = ["eventual", "committed", "causal"];

/// What the put of this number brings to a key of this kind.
fn payload_of(alloc: Global, kind: &str, number: usize) -> Result<String, NoMemory> {
    let text = match kind {
        "max" => format!(in alloc; "{number}")?,
        "or" => String::from_str(alloc, "on")?,
        "map" => format!(in alloc; "f{} {number}", number % 10)?,
        _ => format!(in alloc; "w{}", number % 50)?,
    };
    Ok(text)
}

/// The command of this number, from 0, in a session of this level: in turn it takes all keys, gets every fourth
/// time, and, where it can, has transactions of 16 commands each.
fn command_of(alloc: Global, level: &str, number: usize) -> Result<String, NoMemory> {
    let key = number % 128;
    let kind = KINDS[key % 6];
    let text = match number % 16 {
        0 if level == "committed" => String::from_str(alloc, "begin")?,
        15 if level == "committed" => String::from_str(alloc, "commit")?,
        3 | 7 | 11 | 15 => format!(in alloc; "get k{key}")?,
        _ => {
            let payload = payload_of(alloc, kind, number)?;
            format!(in alloc; "put k{key} {payload}")?
        }
    };
    Ok(text)
}

/// A script with 8 workers, 128 keys of all kinds, 16 sessions of all levels and 4,096 commands, and after these so
/// many more, filled up to 1,048,576 bytes by a comment.
fn longest(alloc: Global, more: usize) -> Result<Vec<u8>, NoMemory> {
    let mut text = String::from_str(alloc, "anna 1\nworkers 8\nfactor 3\n")?;
    for key in 0..128usize {
        push_line(
            &mut text,
            format!(in alloc; "key k{key} {}", KINDS[key % 6])?.as_str(),
        )?;
    }
    for session in 0..16usize {
        let level = LEVELS[session % 3];
        push_line(
            &mut text,
            format!(in alloc; "session s{session} {level}")?.as_str(),
        )?;
        for number in 0..256usize {
            push_line(&mut text, command_of(alloc, level, number)?.as_str())?;
        }
    }
    for _ in 0..more {
        push_line(&mut text, "get k1")?;
    }
    let mut input = text.as_bytes().to_vec(alloc)?;
    input.push(b'#')?;
    input.resize(1_048_571, b'.')?;
    input.extend_from_slice(b"\nend\n")?;
    Ok(input)
}

#[test]
fn the_longest_script_is_run_and_its_report_is_legal(rt: HostRuntime) -> Result<(), Fail> {
    let mut input = longest(rt.alloc(), 0)?;
    assert_eq!(rt; input.len(), 1_048_576);
    let (status, report) = run_on(&rt, rt.alloc(), &input)?;
    assert_eq!(rt; status, Status::Done);
    // The header, `final` and `end`, a line for each session and each command, three for each key, and nothing after
    // the last.
    assert_eq!(rt;
        report.as_slice().split(|byte| *byte == b'\n').count(),
        4_500
    );
    input.extend_from_slice(&report)?;
    let (status, text) = ended(&rt, rt.alloc(), "check", &input)?;
    assert_eq!(rt; status, Status::Done);
    assert_eq!(rt; text.as_slice(), b"legal\n".as_slice());
    // One command more.
    let (status, text) = run_on(&rt, rt.alloc(), &longest(rt.alloc(), 1)?)?;
    assert_eq!(rt; status, Status::Refused);
    assert_eq!(rt; text.as_slice(), b"refused line 4244: code 8\n".as_slice());
    Ok(())
}
