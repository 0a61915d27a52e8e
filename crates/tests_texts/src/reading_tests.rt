//! What is out of form.
use lattice_laws::NoMemory;
use report_reader::{ReportFault, read_report};
use script_reader::read_script;
use std::alloc::Global;
use std::test::Fail;

/// The first line of a text that is not in form, and 0 where it is a report of the script.
fn line_out_of_form(alloc: Global, script: &str, text: &[u8]) -> Result<u32, Fail> {
    let script = read_script(alloc, script.as_bytes())?;
    match read_report(alloc, &script, text) {
        Ok(_) => Ok(0),
        Err(ReportFault::Form { line }) => Ok(line),
        Err(ReportFault::NoMemory) => Err(NoMemory.into()),
    }
}

/// A script with commands and keys of all kinds.
const ALL: &str =
    "anna 1\nworkers 2\nkey m max at 1 2\nkey o or at 1\nkey s set at 2\nkey h map at 1\nkey l last at 1\nkey v versions at 2\nsession A eventual\nput m 5\nget s\nget h\nget v 2\nsession B committed\nbegin\nput l red\ncommit\nbegin\nabort\nsession C causal\nget o\nget m\nawait m A 1\nawait l B 02\nput m 7\nend\n";

/// The lines of a report of its form.
const LINES: [&str; 27] = [
    "anna report 1",
    "session A eventual",
    "put m 1 at 1",
    "get s @2 clock A:1,B:2 top 3 value {blue,red}",
    "get h @1 clock B:1 top 2 value {price=10,size=2}",
    "get v @2 clock A:2,C:1 top 4 value z(A:1,C:1)|y(A:2)",
    "session B committed",
    "begin",
    "put l held",
    "commit 1 at 2",
    "begin",
    "abort 0",
    "session C causal",
    "get o @1 clock A:1 top 1 value on needs m{A:1},l{A:1,B:1}",
    "again m after 16 @2 clock -",
    "await m A 1 @1 clock A:1 top 1 value 5 needs -",
    "await l B 2 gave up after 8 @1 clock B:1",
    "put m worn",
    "final",
    "m @1 clock A:1 top 1 value 5",
    "m @2 clock A:1 top 1 value 5",
    "o @1 clock - top 0 value none",
    "s @2 clock A:1 top 1 value {blue}",
    "h @1 clock B:1 top 2 value {size=2}",
    "l @1 clock B:1 top 2 value red/2/B/0",
    "v @2 clock - top 0 value none",
    "end",
];

/// Lines, each in place of the line of its number, counted from 1, that are not in form there.
const SPOILT: [(u32, &str); 72] = [
    (1, "anna report 2"),
    (1, "anna  report 1"),
    (2, "session B eventual"),
    (2, "session A committed"),
    (2, "put m 1 at 1"),
    (3, "put m 01 at 1"),
    (3, "put m 1 at 01"),
    (3, "put m 18446744073709551616 at 1"),
    (3, "put m 1 at 1 "),
    (3, " put m 1 at 1"),
    (3, "put  m 1 at 1"),
    (3, "put s 1 at 1"),
    (3, "put m 1"),
    (3, "put m held"),
    (3, "commit 1 at 1"),
    (3, ""),
    (4, "get m @2 clock A:1,B:2 top 3 value {blue,red}"),
    (4, "get s @0 clock A:1,B:2 top 3 value {blue,red}"),
    (4, "get s @3 clock A:1,B:2 top 3 value {blue,red}"),
    (4, "get s @02 clock A:1,B:2 top 3 value {blue,red}"),
    (4, "get s 2 clock A:1,B:2 top 3 value {blue,red}"),
    (4, "get s @2 clock B:2,A:1 top 3 value {blue,red}"),
    (4, "get s @2 clock A:1,A:1 top 3 value {blue,red}"),
    (4, "get s @2 clock A:1,D:2 top 3 value {blue,red}"),
    (4, "get s @2 clock A:0,B:2 top 3 value {blue,red}"),
    (4, "get s @2 clock A:1, top 3 value {blue,red}"),
    (4, "get s @2 clock  top 3 value {blue,red}"),
    (4, "get s @2 clock A:1,B:2 top 3 value {red,blue}"),
    (4, "get s @2 clock A:1,B:2 top 3 value {blue,blue}"),
    (4, "get s @2 clock A:1,B:2 top 3 value {}"),
    (4, "get s @2 clock A:1,B:2 top 3 value blue,red"),
    (4, "get s @2 clock A:1,B:2 top 3 value 5"),
    (4, "get s @2 clock A:1,B:2 top 3 value {blue,red} needs -"),
    (4, "again s after 8 @2 clock -"),
    (5, "get h @1 clock B:1 top 2 value {size=2,price=10}"),
    (5, "get h @1 clock B:1 top 2 value {price=10,price=11}"),
    (5, "get h @1 clock B:1 top 2 value {price=010,size=2}"),
    (5, "get h @1 clock B:1 top 2 value {price,size=2}"),
    (6, "get v @2 clock A:2,C:1 top 4 value y(A:2)|z(A:1,C:1)"),
    (6, "get v @2 clock A:2,C:1 top 4 value z(A:1)|y(A:2)"),
    (6, "get v @2 clock A:2,C:1 top 4 value y(A:2)|y(A:2)"),
    (6, "get v @2 clock A:2,C:1 top 4 value z(A:1,C:1),y(A:2)"),
    (6, "get v @2 clock A:2,C:1 top 4 value z(A:1,C:1"),
    (8, "begin begin"),
    (9, "put l hold"),
    (10, "commit 01 at 2"),
    (10, "commit 0 at 2"),
    (10, "commit 4294967296 at 2"),
    (10, "commit 1"),
    (12, "abort"),
    (12, "abort 4294967296"),
    (14, "get o @1 clock A:1 top 1 value on"),
    (14, "get o @1 clock A:1 top 1 value off needs -"),
    (
        14,
        "get o @1 clock A:1 top 1 value on needs l{A:1,B:1},m{A:1}",
    ),
    (14, "get o @1 clock A:1 top 1 value on needs m{A:1},m{A:1}"),
    (14, "get o @1 clock A:1 top 1 value on needs m{-}"),
    (
        14,
        "get o @1 clock A:1 top 1 value on needs m{A:1},l{A:1,B:1}}",
    ),
    (15, "again o after 16 @2 clock -"),
    (15, "again m after 4294967296 @2 clock -"),
    (15, "get m after 16 @2 clock -"),
    (16, "await m A 01 @1 clock A:1 top 1 value 5 needs -"),
    (16, "await m B 1 @1 clock A:1 top 1 value 5 needs -"),
    (17, "await l B 2 gave after 8 @1 clock B:1"),
    (18, "put m worn out"),
    (20, "m @2 clock A:1 top 1 value 5"),
    (20, "o @1 clock A:1 top 1 value 5"),
    (20, "m @1 clock A:1 top 01 value 5"),
    (20, "m @1 clock A:1 top 1 value 5 needs -"),
    (25, "l @1 clock B:1 top 2 value red/2/D/0"),
    (25, "l @1 clock B:1 top 2 value red/2/B/4294967296"),
    (25, "l @1 clock B:1 top 2 value red/2/B"),
    (27, "end of the report"),
];

/// Lines, each with a line feed.
fn text_of_lines(alloc: Global, lines: &[&str]) -> Result<Vec<u8>, NoMemory> {
    let mut text = Vec::new(alloc);
    for line in lines {
        text.extend_from_slice(line.as_bytes())?;
        text.extend_from_slice(b"\n")?;
    }
    Ok(text)
}

/// The lines with other words in place of one, whose number is counted from 1.
fn spoilt_text(alloc: Global, number: u32, words: &str) -> Result<Vec<u8>, NoMemory> {
    let mut text = Vec::new(alloc);
    for (place, line) in LINES.iter().enumerate() {
        if place + 1 == number as usize {
            text.extend_from_slice(words.as_bytes())?;
        } else {
            text.extend_from_slice(line.as_bytes())?;
        }
        text.extend_from_slice(b"\n")?;
    }
    Ok(text)
}

#[test]
fn the_first_spoilt_line_is_named(rt: HostRuntime) -> Result<(), Fail> {
    let text = text_of_lines(rt.alloc(), &LINES)?;
    assert_eq!(rt; line_out_of_form(rt.alloc(), ALL, &text)?, 0);
    for (line, words) in SPOILT {
        let spoilt = spoilt_text(rt.alloc(), line, words)?;
        assert_eq!(rt;
            line_out_of_form(rt.alloc(), ALL, &spoilt)?,
            line,
            "{words}"
        );
    }
    Ok(())
}

#[test]
fn lines_of_keys_name_their_replicas(rt: HostRuntime) -> Result<(), Fail> {
    // The version of a script of two workers, the lines before the final cells, and the first that is
    // not in form.
    let cases = [
        (2, "anna report 2\nkey a max on 1 2\nkey b or on 2\n", 0),
        (2, "anna report 1\nkey a max on 1 2\nkey b or on 2\n", 1),
        (2, "anna report 2\n", 2),
        (2, "anna report 2\nkey a max on 2 1\nkey b or on 2\n", 2),
        (2, "anna report 2\nkey a max on 1\nkey b or on 2\n", 2),
        (2, "anna report 2\nkey a max on 1 2 \nkey b or on 2\n", 2),
        (2, "anna report 2\nkey a or on 1 2\nkey b or on 2\n", 2),
        (2, "anna report 2\nkey b or on 2\nkey a max on 1 2\n", 2),
        (2, "anna report 2\nkey a max on 1 2\n", 3),
        (2, "anna report 2\nkey a max on 1 2\nkey b or on 02\n", 3),
        (
            2,
            "anna report 2\nkey a max on 1 2\nkey b or on 2\nkey b or on 2\n",
            4,
        ),
        (1, "anna report 1\n", 0),
        (1, "anna report 2\n", 1),
        (1, "anna report 1\nkey a max on 1 2\nkey b or on 2\n", 2),
    ];
    for (version, head, line) in cases {
        let script = format!(in rt.alloc();
            "anna {version}\nworkers 2\nfactor 2\nkey a max\nkey b or at 2\nend\n"
        )?;
        let text = format!(in rt.alloc();
            "{head}final\na @1 clock - top 0 value none\na @2 clock - top 0 value none\nb @2 clock - top 0 value none\nend\n"
        )?;
        let found = line_out_of_form(rt.alloc(), script.as_str(), text.as_bytes())?;
        assert_eq!(rt; found, line, "{head:?}");
    }
    Ok(())
}

#[test]
fn lines_may_not_be_missing_nor_more(rt: HostRuntime) -> Result<(), Fail> {
    let text = text_of_lines(rt.alloc(), &LINES)?;
    let without_end = text_of_lines(rt.alloc(), &LINES[..26])?;
    let without_a_final_cell = text_of_lines(
        rt.alloc(),
        &[&LINES[..20], &LINES[21..]].concat(rt.alloc())?,
    )?;
    let without_line_feed = match text.as_slice() {
        [front @ .., b'\n'] => front,
        _ => b"",
    };
    let mut twice = text.to_vec(rt.alloc())?;
    twice.extend_from_slice(b"end\n")?;
    let mut more = text.to_vec(rt.alloc())?;
    more.extend_from_slice(b"x")?;
    assert_eq!(rt; line_out_of_form(rt.alloc(), ALL, b"")?, 1);
    assert_eq!(rt; line_out_of_form(rt.alloc(), ALL, &without_end)?, 27);
    assert_eq!(rt; line_out_of_form(rt.alloc(), ALL, without_line_feed)?, 27);
    assert_eq!(rt;
        line_out_of_form(rt.alloc(), ALL, &without_a_final_cell)?,
        21
    );
    assert_eq!(rt; line_out_of_form(rt.alloc(), ALL, &twice)?, 28);
    assert_eq!(rt; line_out_of_form(rt.alloc(), ALL, &more)?, 28);
    Ok(())
}

/// A script with a counter and a set with removal, each of which is read once.
const DOTS: &str =
    "anna 2\nworkers 1\nkey c counter\nkey w orset\nsession A eventual\nget c\nget w\nsession B eventual\nend\n";

/// Values of the counter and of the set, and whether each is in form.
const DOT_VALUES: [(&str, &str, bool); 44] = [
    ("c", "none", true),
    ("c", "0{A:1+0-0}", true),
    ("c", "2{A:1+5-0,A:2+0-3}", true),
    ("c", "-3{A:2+0-5,B:1+2-0}", true),
    ("c", "4294967290{A:1+4294967295-5}", true),
    ("c", "3{A:1+5-0,A:2+0-3}", false),
    ("c", "+2{A:1+5-0,A:2+0-3}", false),
    ("c", "02{A:1+5-0,A:2+0-3}", false),
    ("c", "-0{A:1+0-0}", false),
    ("c", "2{A:2+0-3,A:1+5-0}", false),
    ("c", "2{B:1+5-0,A:1+0-3}", false),
    ("c", "10{A:1+5-0,A:1+5-0}", false),
    ("c", "5{C:1+5-0}", false),
    ("c", "5{A:01+5-0}", false),
    ("c", "5{A:18446744073709551616+5-0}", false),
    ("c", "4294967296{A:1+4294967296-0}", false),
    ("c", "5{A:1+5}", false),
    ("c", "5{A:1+5-0,}", false),
    ("c", "5{A:1+5-0", false),
    ("c", "{A:1+5-0}", false),
    ("c", "0{}", false),
    ("c", "0", false),
    ("c", "", false),
    ("w", "none", true),
    ("w", "{milk@A:1;}", true),
    ("w", "{;milk(A:1)}", true),
    ("w", "{milk@A:2,milk@B:1,tea@A:1;milk(A:1)}", true),
    ("w", "{tea@A:1;milk(A:1,B:3),rice(B:1)}", true),
    ("w", "{;}", false),
    ("w", "{milk@A:1}", false),
    ("w", "{milk@A:1;milk(A:1)}", false),
    ("w", "{milk@A:1;milk(A:2)}", false),
    ("w", "{milk@A:1;milk(-)}", false),
    ("w", "{milk@A:1;milk()}", false),
    ("w", "{milk@A:1;milk(A:0)}", false),
    ("w", "{milk@A:1;milk(C:1)}", false),
    ("w", "{milk@C:1;}", false),
    ("w", "{tea@A:1,milk@A:2;}", false),
    ("w", "{milk@A:1,milk@A:1;}", false),
    ("w", "{;rice(A:1),milk(A:1)}", false),
    ("w", "{;milk(A:1)rice(A:1)}", false),
    ("w", "{;milk(A:1),}", false),
    ("w", "{milk@A:1;;}", false),
    ("w", "milk@A:1;", false),
];

#[test]
fn counters_and_sets_with_removal_are_read(rt: HostRuntime) -> Result<(), Fail> {
    for (key, value, is_in_form) in DOT_VALUES {
        let (c, w) = if key == "c" {
            (value, "none")
        } else {
            ("none", value)
        };
        let text = format!(in rt.alloc();
            "anna report 2\nkey c counter on 1\nkey w orset on 1\nsession A eventual\nget c @1 clock - top 0 value {c}\nget w @1 clock - top 0 value {w}\nsession B eventual\nfinal\nc @1 clock - top 0 value none\nw @1 clock - top 0 value none\nend\n"
        )?;
        let out = if is_in_form {
            0
        } else if key == "c" {
            5
        } else {
            6
        };
        let line = line_out_of_form(rt.alloc(), DOTS, text.as_bytes())?;
        assert_eq!(rt; line, out, "{value:?}");
    }
    Ok(())
}
