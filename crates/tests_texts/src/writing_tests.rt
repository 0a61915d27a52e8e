//! Reports that are read and written back, and lines of final cells as they are written.
ghost use Rattle.std.specs.Prelude.{IfOk};
ghost use Rattle.session_known.specs.Form.{HasFewDots};

use crate::tests::{FIRST, LONG, SHORT, Worked};
use basic_lattices::Word;
use clock_lattice::Clock;
use composed_value::Value;
use lattice_laws::Lattice;
use report_text::{read_report, write_final, write_report, write_short};
use script_reader::outside::{Failed, MemSink, Sink, SureSink};
use script_reader::{FinalCell, read_script};
use std::alloc::Global;
use std::test::Fail;
use version_antichain::Versions;

/// Reads a text as a report of the script, and writes that to a sink.
fn write_back<K: Sink>(
    alloc: Global,
    script: &str,
    text: &[u8],
    sink: &mut K,
) -> Result<Result<(), Failed>, Fail> {
    let script = read_script(alloc, script.as_bytes())?;
    let report = read_report(alloc, &script, text)?;
    Ok(write_report(&script, &report, sink))
}

/// Scripts, each with a report of its form, which need not be legal: no key, keys of each kind with pins and factors,
/// counters and sets with removal, and each kind of answer.
const OTHERS: [Worked; 5] = [
    (
        "anna 1\nworkers 2\nfactor 2\nend\n",
        "anna report 1\nfinal\nend\n",
    ),
    (
        "anna 2\nworkers 3\nfactor 3\nkey a versions\nkey b set at 3 1\nkey c or factor 3\nkey d last at 2\nsession s eventual\nend\n",
        "anna report 2\nkey a versions on 1 2 3\nkey b set on 1 3\nkey c or on 1 2 3\nkey d last on 2\nsession s eventual\nfinal\na @1 clock - top 0 value none\na @2 clock - top 0 value none\na @3 clock - top 0 value none\nb @1 clock - top 0 value none\nb @3 clock - top 0 value none\nc @1 clock - top 0 value none\nc @2 clock - top 0 value none\nc @3 clock - top 0 value none\nd @2 clock - top 0 value none\nend\n",
    ),
    (
        "anna 2\nworkers 1\nkey c counter\nkey w orset\nsession s eventual\nput c add 5\nput c sub 3\nget c\nput w insert milk\nput w remove milk\nput w insert milk\nget w\nend\n",
        "anna report 2\nkey c counter on 1\nkey w orset on 1\nsession s eventual\nput c 1 at 1\nput c 2 at 2\nget c @1 clock s:2 top 2 value 2{s:1+5-0,s:2+0-3}\nput w 1 at 3\nput w 2 at 4\nput w 3 at 5\nget w @1 clock s:3 top 5 value {milk@s:3;milk(s:2)}\nfinal\nc @1 clock s:2 top 2 value 2{s:1+5-0,s:2+0-3}\nw @1 clock s:3 top 5 value {milk@s:3;milk(s:2)}\nend\n",
    ),
    (
        "anna 2\nworkers 1\nkey c counter\nkey d counter\nkey v orset\nkey w orset\nsession s eventual\nput c sub 4294967295\nsession t eventual\nput c sub 2\nget d\nget w\nput v insert x-1\nput v insert y\nput w remove y\nput w remove x-1\nend\n",
        "anna report 2\nkey c counter on 1\nkey d counter on 1\nkey v orset on 1\nkey w orset on 1\nsession s eventual\nput c 1 at 1\nsession t eventual\nput c 1 at 1\nget d @1 clock - top 0 value none\nget w @1 clock - top 0 value none\nput v 1 at 2\nput v 2 at 3\nput w 1 at 4\nput w 2 at 5\nfinal\nc @1 clock s:1,t:1 top 1 value -4294967297{s:1+0-4294967295,t:1+0-2}\nd @1 clock - top 0 value none\nv @1 clock t:2 top 3 value {x-1@t:1,y@t:2;}\nw @1 clock t:2 top 5 value {;x-1(s:1,t:1),y(t:1)}\nend\n",
    ),
    (
        "anna 1\nworkers 2\nkey m max at 1 2\nkey o or at 1\nkey s set at 2\nkey h map at 1\nkey l last at 1\nkey v versions at 2\nsession A eventual\nput m 5\nget s\nget h\nget v 2\nsession B committed\nbegin\nput l red\ncommit\nbegin\nabort\nsession C causal\nget o\nget m\nawait m A 1\nawait l B 02\nput m 7\nend\n",
        "anna report 1\nsession A eventual\nput m 1 at 1\nget s @2 clock A:1,B:2 top 3 value {blue,red}\nget h @1 clock B:1 top 2 value {price=10,size=2}\nget v @2 clock A:2,C:1 top 4 value z(A:1,C:1)|y(A:2)\nsession B committed\nbegin\nput l held\ncommit 1 at 2\nbegin\nabort 0\nsession C causal\nget o @1 clock A:1 top 1 value on needs m{A:1},l{A:1,B:1}\nagain m after 16 @2 clock -\nawait m A 1 @1 clock A:1 top 1 value 5 needs -\nawait l B 2 gave up after 8 @1 clock B:1\nput m worn\nfinal\nm @1 clock A:1 top 1 value 5\nm @2 clock A:1 top 1 value 5\no @1 clock - top 0 value none\ns @2 clock A:1 top 1 value {blue}\nh @1 clock B:1 top 2 value {size=2}\nl @1 clock B:1 top 2 value red/2/B/0\nv @2 clock - top 0 value none\nend\n",
    ),
];

/// Whether a report is written as it was read.
fn is_written_back(alloc: Global, worked: Worked) -> Result<bool, Fail> {
    let (script, report) = worked;
    let mut sink = SureSink::new(alloc, 65_536)?;
    let written = write_back(alloc, script, report.as_bytes(), &mut sink)?;
    Ok(written.is_ok() && sink.written() == report.as_bytes())
}

#[test]
fn reports_are_written_as_they_were_read(rt: HostRuntime) -> Result<(), Fail> {
    for worked in LONG {
        assert!(rt; is_written_back(rt.alloc(), worked)?, "{}", worked.1);
    }
    for worked in SHORT {
        assert!(rt; is_written_back(rt.alloc(), worked)?, "{}", worked.1);
    }
    for worked in OTHERS {
        assert!(rt; is_written_back(rt.alloc(), worked)?, "{}", worked.1);
    }
    Ok(())
}

#[test]
fn a_failed_write_ends_a_report(rt: HostRuntime) -> Result<(), Fail> {
    let (script, report) = FIRST;
    let text = report.as_bytes();
    let mut sink = MemSink::new(rt.alloc(), [1, 3].to_vec(rt.alloc())?)?;
    assert_eq!(rt;
        write_back(rt.alloc(), script, text, &mut sink)?,
        Err(Failed)
    );
    assert_eq!(rt; sink.written(), b"".as_slice());
    assert_eq!(rt; write_back(rt.alloc(), script, text, &mut sink)?, Ok(()));
    assert_eq!(rt; sink.written(), text);
    Ok(())
}

/// A cell of versions: one of two puts of the first session, and one of a put of the second.
fn versions_cell(alloc: Global) -> Result<FinalCell, Fail>
    ensures { IfOk result (λ cell. HasFewDots cell.value) }
{
    let mut one_put = Clock::new(alloc);
    one_put.raise(2, 1)?;
    let mut two_puts = Clock::new(alloc);
    two_puts.raise(1, 2)?;
    let clock = two_puts.joined(&one_put)?;
    let mut versions = Versions::one(alloc, two_puts, Word::of(b"z")?)?;
    versions.join(&Versions::one(alloc, one_put, Word::of(b"y")?)?)?;
    Ok(FinalCell {
        key: 1,
        worker: 1,
        clock,
        top: 2,
        value: Value::Versions(versions),
    })
}

#[test]
fn writes_versions(rt: HostRuntime) -> Result<(), Fail> {
    let text = b"anna 1\nworkers 1\nkey k versions\nsession A eventual\nsession B eventual\nend\n";
    let script = read_script(rt.alloc(), text)?;
    let cell = versions_cell(rt.alloc())?;
    let mut sink = SureSink::new(rt.alloc(), 256)?;
    assert_eq!(rt; write_final(&script, &cell, &mut sink), Ok(()));
    let want = b"k @1 clock A:2,B:1 top 2 value z(A:2)|y(B:1)\n";
    assert_eq!(rt; sink.written(), want.as_slice());
    Ok(())
}

#[test]
fn writes_a_short_line(rt: HostRuntime) -> Result<(), Fail> {
    let text = b"anna 1\nworkers 1\nkey k versions\nsession A eventual\nsession B eventual\nend\n";
    let script = read_script(rt.alloc(), text)?;
    let cell = versions_cell(rt.alloc())?;
    let mut sink = SureSink::new(rt.alloc(), 256)?;
    assert_eq!(rt; write_short(&script, &cell, &mut sink), Ok(()));
    let want = b"k clock A:2,B:1 value z(A:2)|y(B:1)\n";
    assert_eq!(rt; sink.written(), want.as_slice());
    Ok(())
}
