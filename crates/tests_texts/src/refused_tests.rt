//! Texts that are no scripts.
use lattice_laws::NoMemory;
use script_reader::{ScriptFault, read_script};
use std::alloc::Global;
use std::test::Fail;

/// Texts, each with the line at which it is refused, and the code.
const REFUSED: [(&str, u32, u8); 32] = [
    // No header.
    ("anna 3\nworkers 1\nend\n", 1, 1),
    ("\nworkers 1\nend\n", 2, 1),
    // A first word that may not stand there, or other words than it may have.
    ("anna 1\nkey a max\nend\n", 2, 2),
    ("anna 1\nworkers 1\nkey a list\nend\n", 3, 2),
    ("anna 1\nworkers 2\nkey a max factor 2\nend\n", 3, 2),
    ("anna 2\nworkers 2\nkey a max factor\nend\n", 3, 2),
    (
        "anna 1\nworkers 1\nkey a max\nsession s eventual\nput a\nend\n",
        5,
        2,
    ),
    (
        "anna 1\nworkers 1\nkey a max\nsession s eventual\nawait a s 0\nend\n",
        5,
        2,
    ),
    // No number, or one that is too great.
    ("anna 1\nworkers one\nend\n", 2, 3),
    ("anna 2\nworkers 2\nkey a max factor x\nend\n", 3, 3),
    (
        "anna 1\nworkers 1\nkey a max\nsession s eventual\nget a one\nend\n",
        5,
        3,
    ),
    (
        "anna 1\nworkers 1\nkey a map\nsession s eventual\nput a f 18446744073709551616\nend\n",
        5,
        3,
    ),
    // No name.
    ("anna 1\nworkers 1\nkey a+b max\nend\n", 3, 4),
    // Twice.
    ("anna 1\nworkers 1\nround 1\nround 1\nend\n", 4, 5),
    ("anna 1\nworkers 1\nkey a max\nkey a set\nend\n", 4, 5),
    (
        "anna 1\nworkers 1\nsession s eventual\nsession s eventual\nend\n",
        4,
        5,
    ),
    // A key or a worker that is not there.
    (
        "anna 1\nworkers 1\nkey a max\nsession s eventual\nget b\nend\n",
        5,
        6,
    ),
    (
        "anna 1\nworkers 1\nkey a max\nsession s eventual\nget a 2\nend\n",
        5,
        6,
    ),
    ("anna 1\nworkers 1\nkey a max at 2\nend\n", 3, 6),
    // A session to come after that is none, or is not causal.
    (
        "anna 2\nworkers 1\nsession s causal after t\nsession t causal\nend\n",
        3,
        6,
    ),
    (
        "anna 2\nworkers 1\nsession s eventual\nsession t causal after s\nend\n",
        4,
        6,
    ),
    // A payload of another kind.
    (
        "anna 1\nworkers 1\nkey a max\nsession s eventual\nput a five\nend\n",
        5,
        7,
    ),
    (
        "anna 1\nworkers 1\nkey a or\nsession s eventual\nput a off\nend\n",
        5,
        7,
    ),
    (
        "anna 1\nworkers 1\nkey a map\nsession s eventual\nput a 5\nend\n",
        5,
        7,
    ),
    // Out of range.
    ("anna 1\nworkers 9\nend\n", 2, 8),
    ("anna 1\nworkers 1\nround 65\nend\n", 3, 8),
    ("anna 2\nworkers 2\nkey a max factor 3\nend\n", 3, 8),
    // A transaction outside a committed session.
    (
        "anna 1\nworkers 1\nkey a max\nsession s eventual\nbegin\nend\n",
        5,
        9,
    ),
    // No end, and lines after it.
    ("", 1, 10),
    (
        "anna 1\nworkers 1\nkey a max\nsession s eventual\nput a 5\nput a 3\nget a\nget a\n",
        9,
        10,
    ),
    (
        "anna 1\nworkers 1\nkey a max\nsession s eventual\nput a 5\nput a 3\nget a\nend\nput a 9\n",
        9,
        11,
    ),
    // A byte that is no text.
    (
        "anna 1\nworkers 1\nkey a set\nsession s eventual\nput a caf\u{e9}\nend\n",
        5,
        13,
    ),
];

/// Where a text is refused and by which code, and nothing where it is read.
fn refused(alloc: Global, text: &str) -> Result<Option<(u32, u8)>, NoMemory> {
    match read_script(alloc, text.as_bytes()) {
        Ok(_) => Ok(None),
        Err(ScriptFault::Refused { line, code }) => Ok(Some((line, code))),
        Err(ScriptFault::NoMemory) => Err(NoMemory),
    }
}

#[test]
fn refuses_a_script_at_a_line_with_a_code(rt: HostRuntime) -> Result<(), Fail> {
    for (text, line, code) in REFUSED {
        assert_eq!(rt; refused(rt.alloc(), text)?, Some((line, code)), "{text:?}");
    }
    Ok(())
}
