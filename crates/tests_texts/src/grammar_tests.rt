//! Scripts of the whole grammar, and what is refused.

use composed_value::{Kind, Payload};
use script_reader::{Level, Line, MOST_BYTES, ScriptFault, number, read_script, split_input};
use std::test::Fail;

/// The refusal of a text at a line with a code.
fn refusal(line: u32, code: u8) -> Option<ScriptFault> {
    Some(ScriptFault::Refused { line, code })
}

#[test]
fn refuses_a_line_with_its_code(rt: HostRuntime) -> Result<(), Fail> {
    // The fifth line of a script of one worker, a key and an eventual session, and the code.
    let cases = [
        ("put a", 2),
        ("put a 5 6", 7),
        ("put a x", 7),
        ("put a 18446744073709551616", 3),
        ("put b 5", 6),
        ("put a+ 5", 4),
        ("begin", 9),
        ("get a 2", 6),
        ("get a x", 3),
        ("await a s 1", 2),
        ("session s eventual", 5),
        ("session t lazy", 2),
        ("key b max", 2),
        ("round 5", 2),
        ("put a \u{80}", 13),
    ];
    for (line, code) in cases {
        let text = format!(in rt.alloc();
            "anna 1\nworkers 1\nkey a max\nsession s eventual\n{line}\nput a 3\nget a\nend\n"
        )?;
        let fault = read_script(rt.alloc(), text.as_bytes()).err();
        assert_eq!(rt; fault, refusal(5, code), "{line:?}");
    }
    Ok(())
}

#[test]
fn tells_the_least_code_of_a_line(rt: HostRuntime) -> Result<(), Fail> {
    // A script whose last line meets the conditions of more than one code, and that line's number and code.
    let cases = [
        ("end", 1, 1),
        ("workers 9", 1, 1),
        ("anna 1\nworkers x y", 2, 2),
        ("anna 1\nworkers 2\nkey a+ lazy", 3, 2),
        ("anna 1\nworkers 2\nkey a+ max at x", 3, 3),
        ("anna 1\nworkers 2\nkey a+ max at 1 1", 3, 4),
        ("anna 1\nworkers 2\nkey a max at 9 9", 3, 5),
        ("anna 1\nworkers 2\nkey a max at 1 01", 3, 5),
        ("anna 1\nworkers 2\nkey a max at 0", 3, 6),
        ("anna 1\nworkers 2\nfactor 1\nfactor 3", 4, 5),
        ("anna 1\nworkers 2\nround 1\nround 65", 4, 5),
        (
            "anna 1\nworkers 1\nkey a max\nsession s causal\nget a+ x",
            5,
            2,
        ),
        (
            "anna 1\nworkers 1\nkey a max\nsession s causal\nawait b t x",
            5,
            3,
        ),
        (
            "anna 1\nworkers 1\nkey a max\nsession s causal\nawait a t+ 1",
            5,
            4,
        ),
        (
            "anna 1\nworkers 1\nkey a max\nsession s causal\nawait b t 1",
            5,
            6,
        ),
        (
            "anna 1\nworkers 1\nkey a map\nsession s causal\nput a f+ 18446744073709551616",
            5,
            3,
        ),
        (
            "anna 1\nworkers 1\nkey a map\nsession s causal\nput b f+ 18446744073709551616",
            5,
            6,
        ),
        (
            "anna 1\nworkers 1\nkey a or\nsession s causal\nput b off",
            5,
            6,
        ),
        (
            "anna 1\nworkers 1\nsession s committed\nbegin\nsession s causal",
            5,
            5,
        ),
    ];
    for (text, line, code) in cases {
        let fault = read_script(rt.alloc(), text.as_bytes()).err();
        assert_eq!(rt; fault, refusal(line, code), "{text:?}");
    }
    Ok(())
}

#[test]
fn refuses_the_first_line_at_fault(rt: HostRuntime) -> Result<(), Fail> {
    let cases = [
        ("", 1, 10),
        ("\r", 1, 10),
        ("\n\r", 2, 10),
        ("anna 1\nworkers 1", 3, 10),
        ("# \x07\n\nanna 3", 3, 1),
        ("anna 1\nend", 2, 2),
        ("anna 1\nworkers 9", 2, 8),
        ("anna 1\nworkers 0", 2, 8),
        ("anna 1\nworkers 2\nfactor 3", 3, 8),
        ("anna 1\nworkers 2\nround 65", 3, 8),
        ("anna 1\nworkers 2\nround 0", 3, 8),
        ("anna 1\nworkers 18446744073709551616", 2, 3),
        ("anna 1\nworkers 2\nput a 1", 3, 2),
        ("anna 1\nworkers 1\nend\nput a 9", 4, 11),
        ("anna 1\nworkers 1\nend\n\n# \x07\n\x07", 6, 11),
        ("anna 1\nworkers 1\nend x\nend", 3, 2),
        ("anna 1\nwork\rers 1", 2, 13),
        ("anna 1\r\r\n", 1, 13),
        ("anna\u{b}1", 1, 13),
        ("anna 1\nworkers 1\nsession s committed\ncommit", 4, 9),
        ("anna 1\nworkers 1\nsession s committed\nbegin\nbegin", 5, 9),
        ("anna 1\nworkers 1\nsession s committed\nbegin\nend", 5, 9),
        (
            "anna 1\nworkers 1\nsession s committed\nbegin\nsession t causal",
            5,
            9,
        ),
        ("anna 1\nworkers 1\nsession s causal\nabort", 4, 9),
    ];
    for (text, line, code) in cases {
        let fault = read_script(rt.alloc(), text.as_bytes()).err();
        assert_eq!(rt; fault, refusal(line, code), "{text:?}");
    }
    Ok(())
}

#[test]
fn refuses_factors_of_keys(rt: HostRuntime) -> Result<(), Fail> {
    // The version, the third line of a script of two workers, and the code.
    let cases = [
        (1, "key a max factor 2", 2),
        (2, "key a max factor", 2),
        (2, "key a max factor 1 2", 2),
        (2, "key a max Factor 2", 2),
        (2, "key a max 2", 2),
        (2, "key a+ max factor x", 3),
        (2, "key a max factor 18446744073709551616", 3),
        (2, "key a+ max factor 3", 4),
        (2, "key a max factor 3", 8),
        (2, "key a max factor 0", 8),
        (2, "key a max factor 65538", 8),
        (2, "key a max at 1 factor 2", 3),
        (2, "key a max at 3", 6),
    ];
    for (version, line, code) in cases {
        let text = format!(in rt.alloc(); "anna {version}\nworkers 2\n{line}\nend\n")?;
        let fault = read_script(rt.alloc(), text.as_bytes()).err();
        assert_eq!(rt; fault, refusal(3, code), "{line:?}");
    }
    Ok(())
}

#[test]
fn refuses_sessions_to_come_after(rt: HostRuntime) -> Result<(), Fail> {
    // The version, the last line of a script in which `s` and `t` are causal and `e` is eventual, and the code.
    let cases = [
        (1, "session u causal after s", 2),
        (2, "session u causal after", 2),
        (2, "session u causal after s t", 2),
        (2, "session u causal After s", 2),
        (2, "session u eventual after s", 2),
        (2, "session u committed after s", 2),
        (2, "session u lazy after s", 2),
        (2, "session u+ causal after s", 4),
        (2, "session u causal after s+", 4),
        (2, "session s+ causal after u+", 4),
        (2, "session t causal after u", 5),
        (2, "session u causal after u", 6),
        (2, "session u causal after e", 6),
        (2, "session u causal after a", 6),
    ];
    for (version, line, code) in cases {
        let text = format!(in rt.alloc();
            "anna {version}\nworkers 1\nkey a max\nsession s causal\nsession e eventual\nsession t causal\n{line}\nend\n"
        )?;
        let fault = read_script(rt.alloc(), text.as_bytes()).err();
        assert_eq!(rt; fault, refusal(7, code), "{line:?}");
    }
    Ok(())
}

#[test]
fn reads_sessions_that_come_after_others(rt: HostRuntime) -> Result<(), Fail> {
    let text =
        "anna 2\nworkers 1\nsession e eventual\nsession s causal\nsession t causal after s\nsession u causal after s\nsession v causal after u\nend\n";
    let script = read_script(rt.alloc(), text.as_bytes())?;
    let wanted = [None, None, Some(2), Some(2), Some(4)];
    assert_eq!(rt; script.sessions.as_slice().len(), wanted.len());
    for (plan, after) in script.sessions.as_slice().iter().zip(&wanted) {
        assert_eq!(rt; plan.after, *after);
    }
    Ok(())
}

#[test]
fn refuses_kinds_of_version_2_in_version_1(rt: HostRuntime) -> Result<(), Fail> {
    // The third line of a script of two workers, and its code in versions 1 and 2.
    let cases = [
        ("key a counter", Some(2), None),
        ("key a orset at 2", Some(2), None),
        ("key a+ counter at x", Some(2), Some(3)),
        ("key a orset factor 3", Some(2), Some(8)),
        ("key a Counter", Some(2), Some(2)),
        ("key a max", None, None),
    ];
    for (line, first, second) in cases {
        for (version, code) in [(1, first), (2, second)] {
            let text = format!(in rt.alloc(); "anna {version}\nworkers 2\n{line}\nend\n")?;
            let fault = read_script(rt.alloc(), text.as_bytes()).err();
            assert_eq!(rt; fault, code.and_then(|code| refusal(3, code)), "{line:?}");
        }
    }
    Ok(())
}

#[test]
fn refuses_puts_on_counters_and_sets_with_removal(rt: HostRuntime) -> Result<(), Fail> {
    // The sixth line of a script of a counter and a set with removal, and its code.
    let cases = [
        ("put c add 18446744073709551616", 3),
        ("put c sub 099999999999999999999", 3),
        ("put c by 18446744073709551616", 7),
        ("put c 18446744073709551616", 7),
        ("put c add x", 7),
        ("put c add -1", 7),
        ("put c Add 1", 7),
        ("put c 5", 7),
        ("put c add 4294967296", 8),
        ("put c sub 18446744073709551615", 8),
        ("put d sub 18446744073709551615", 6),
        ("put w insert a+", 7),
        ("put w insert 18446744073709551616", 0),
        ("put w delete a", 7),
        ("put w a", 7),
        ("put w insert a b", 2),
    ];
    for (line, code) in cases {
        let text = format!(in rt.alloc();
            "anna 2\nworkers 1\nkey c counter\nkey w orset\nsession s eventual\n{line}\nend\n"
        )?;
        let want = if code == 0 { None } else { refusal(6, code) };
        assert_eq!(rt;
            read_script(rt.alloc(), text.as_bytes()).err(),
            want,
            "{line:?}"
        );
    }
    Ok(())
}

#[test]
fn reads_puts_on_counters_and_sets_with_removal(rt: HostRuntime) -> Result<(), Fail> {
    let text =
        "anna 2\nworkers 1\nkey c counter\nkey w orset\nsession s eventual\nput c add 4294967295\nput c sub 0003\nput w insert add\nput w remove 7\nend\n";
    let script = read_script(rt.alloc(), text.as_bytes())?;
    assert_eq!(rt;
        script.kinds.as_slice(),
        [Kind::Counter, Kind::OrSet].as_slice()
    );
    let [session] = script.sessions.as_slice() else {
        return Err("one session".into());
    };
    let [added, taken, inserted, removed] = session.lines.as_slice() else {
        return Err("four puts".into());
    };
    for (line, adds, by) in [(added, true, u32::MAX), (taken, false, 3)] {
        let Line::Put {
            key: 1,
            payload: Payload::Amount { plus, amount },
        } = line
        else {
            return Err("a put on the counter".into());
        };
        assert_eq!(rt; (*plus, *amount), (adds, by));
    }
    let Line::Put {
        key: 2,
        payload: Payload::Insert(word),
    } = inserted
    else {
        return Err("an insert".into());
    };
    assert_eq!(rt; word.as_bytes(), b"add".as_slice());
    let Line::Put {
        key: 2,
        payload: Payload::Remove(word),
    } = removed
    else {
        return Err("a remove".into());
    };
    assert_eq!(rt; word.as_bytes(), b"7".as_slice());
    Ok(())
}

#[test]
fn reads_factors_of_keys(rt: HostRuntime) -> Result<(), Fail> {
    let text =
        "anna 2\nworkers 3\nfactor 2\nkey a max factor 03\nkey b set\nkey c or at 3 1\nend\n";
    let script = read_script(rt.alloc(), text.as_bytes())?;
    assert_eq!(rt; script.version, 2);
    let [a, b, c] = script.config.keys.as_slice() else {
        return Err("three keys".into());
    };
    for (place, own, factor) in [(a, Some(3), 3), (b, None, 2), (c, None, 2)] {
        assert_eq!(rt; place.factor, own);
        assert_eq!(rt; script.config.factor_of(place), factor);
    }
    assert_eq!(rt; c.pins.as_slice(), [3, 1].as_slice());
    Ok(())
}

#[test]
fn reads_what_a_script_declares(rt: HostRuntime) -> Result<(), Fail> {
    let text =
        "\r\n  # a shop \x07\r\nanna\t1\r\nworkers 03 \r\nround 7\r\nfactor 2\r\nkey s set\r\nkey b max at 3 01\r\nsession s causal\r\nawait b t 0\r\nsession t eventual\r\nend";
    let script = read_script(rt.alloc(), text.as_bytes())?;
    assert_eq!(rt; script.version, 1);
    assert_eq!(rt; script.config.workers, 3);
    assert_eq!(rt; script.config.factor, 2);
    assert_eq!(rt; script.round, 7);
    assert_eq!(rt; script.kinds.as_slice(), [Kind::Set, Kind::Max].as_slice());
    let [first, second] = script.config.keys.as_slice() else {
        return Err("two keys".into());
    };
    assert_eq!(rt; first.name.as_bytes(), b"s".as_slice());
    assert!(rt; first.pins.as_slice().is_empty());
    assert_eq!(rt; second.name.as_bytes(), b"b".as_slice());
    assert_eq!(rt; second.pins.as_slice(), [3, 1].as_slice());
    Ok(())
}

#[test]
fn reads_the_commands_of_sessions(rt: HostRuntime) -> Result<(), Fail> {
    let text =
        "anna 1\nworkers 2\nkey m map\nkey a max at 2\nsession s causal\nput m f 018446744073709551615\nawait a t 7\nsession t committed\nbegin\nget a 2\ncommit\nend\n";
    let script = read_script(rt.alloc(), text.as_bytes())?;
    assert_eq!(rt; script.round, 4);
    assert_eq!(rt; script.config.factor, 1);
    let [first, second] = script.sessions.as_slice() else {
        return Err("two sessions".into());
    };
    assert_eq!(rt; first.name.as_bytes(), b"s".as_slice());
    assert!(rt; first.level == Level::Causal && second.level == Level::Committed);
    assert!(rt;
        matches!(
            first.lines.as_slice(),
            [
                Line::Put {
                    key: 1,
                    payload: Payload::Field(_, u64::MAX)
                },
                Line::Await {
                    key: 2,
                    session: 2,
                    count: 7
                }
            ]
        )
    );
    assert!(rt;
        matches!(
            second.lines.as_slice(),
            [
                Line::Begin,
                Line::Get {
                    key: 2,
                    worker: Some(2)
                },
                Line::Commit
            ]
        )
    );
    Ok(())
}

#[test]
fn takes_as_much_as_there_may_be(rt: HostRuntime) -> Result<(), Fail> {
    for (keys, sessions, commands, want) in [
        (128, 16, 4096, None),
        (129, 0, 0, refusal(131, 8)),
        (1, 17, 0, refusal(20, 8)),
        (128, 16, 4097, refusal(4243, 8)),
    ] {
        let mut text = String::from_str(rt.alloc(), "anna 1\nworkers 8\n")?;
        for key in 1..=keys {
            text.push_str(format!(in rt.alloc(); "key k{key} max\n")?.as_str())?;
        }
        for session in 1..=sessions {
            text.push_str(format!(in rt.alloc(); "session s{session} eventual\n")?.as_str())?;
        }
        for _ in 0..commands {
            text.push_str("get k1\n")?;
        }
        text.push_str("end\n")?;
        assert_eq!(rt; read_script(rt.alloc(), text.as_bytes()).err(), want);
    }
    Ok(())
}

#[test]
fn takes_names_and_words_as_long_as_there_may_be(rt: HostRuntime) -> Result<(), Fail> {
    for (name, word, want) in [
        (32, 64, None),
        (33, 64, refusal(3, 4)),
        (32, 65, refusal(5, 7)),
    ] {
        let mut text = String::from_str(rt.alloc(), "anna 1\nworkers 1\nkey ")?;
        for _ in 0..name {
            text.push_str("k")?;
        }
        text.push_str(" set\nsession s eventual\nput ")?;
        for _ in 0..name {
            text.push_str("k")?;
        }
        text.push_str(" ")?;
        for _ in 0..word {
            text.push_str("w")?;
        }
        text.push_str("\nend\n")?;
        assert_eq!(rt; read_script(rt.alloc(), text.as_bytes()).err(), want);
    }
    Ok(())
}

#[test]
fn takes_as_many_bytes_as_there_may_be(rt: HostRuntime) -> Result<(), Fail> {
    let mut text = String::from_str(rt.alloc(), "anna 1\nworkers 1\nend\n#")?;
    for _ in text.len()..MOST_BYTES {
        text.push_str(" ")?;
    }
    assert_eq!(rt; read_script(rt.alloc(), text.as_bytes()).err(), None);
    text.push_str(" ")?;
    assert_eq!(rt;
        read_script(rt.alloc(), text.as_bytes()).err(),
        refusal(0, 12)
    );
    Ok(())
}

#[test]
fn reads_numbers(rt: HostRuntime) {
    // A word and the number that it writes.
    let cases = [
        (b"0".as_slice(), Some(0)),
        (b"007", Some(7)),
        (b"18446744073709551615", Some(u64::MAX)),
        (b"018446744073709551615", Some(u64::MAX)),
        (b"18446744073709551616", None),
        (b"", None),
        (b"+1", None),
        (b"-1", None),
        (b"1x", None),
    ];
    for (word, want) in cases {
        assert_eq!(rt; number(word), want, "{word:?}");
    }
}

#[test]
fn splits_after_the_first_end(rt: HostRuntime) {
    // An input and its place.
    let cases = [
        (b"".as_slice(), 0),
        (b"end\n", 4),
        (b"end", 3),
        (b"end\nend\nb", 4),
        (b"a\nend\nb\n", 6),
        (b"a\r\nend\r\nb", 8),
        (b" \tend \t\nb", 8),
        (b"\n\nend\n\n", 6),
        (b"end x\nb", 7),
        (b"end x\nend\nb", 10),
        (b"# end\nend\nb", 10),
        (b"end\r \nb", 7),
        (b"ends\nEnd\nb", 10),
    ];
    for (input, place) in cases {
        assert_eq!(rt; split_input(input), place, "{input:?}");
    }
}
