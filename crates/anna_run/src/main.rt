//! `anna`: a key-value store whose values merge.
//!
//! [`run::run`] does all that the program does. `main` hands [`run::exit_of`], which calls it, the words
//! and the standard streams, and ends with the number that it answers.
#![tactic(auto)]

mod run;
mod texts;
mod words;

use outside::{ReadSource, WriteSink};
use party_run::FreeGate;
use run::exit_of;
use std::env;
use std::io::ErrorKind;
use std::process::ExitCode;
use words::WordsFault;

/// The words after the program's name.
fn words_given(rt: &HostRuntime) -> Result<Vec<String>, WordsFault> {
    match env::args(rt) {
        Ok(args) => match args.skip(1).collect::<Vec<String>>(rt.alloc()) {
            Ok(words) => Ok(words),
            Err(_) => Err(WordsFault::NoMemory),
        },
        Err(error) if error.kind() == ErrorKind::InvalidData => Err(WordsFault::NotText),
        Err(_) => Err(WordsFault::NoMemory),
    }
}

fn main(rt: HostRuntime) -> ExitCode {
    let mut src = ReadSource::new(rt.stdin());
    let mut sink = WriteSink::new(rt.stdout());
    let words = words_given(&rt);
    ExitCode::from(exit_of(&rt, rt.alloc(), words, &mut src, &mut sink, &FreeGate))
}
