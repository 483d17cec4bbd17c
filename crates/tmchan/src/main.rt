//! The program: it takes its words and the standard streams, and makes the top call. Every promise is a clause of that
//! call.
#![tactic(auto)]

use std::env;
use std::io::{self, ErrorKind};
use std::process::ExitCode;
use tm_base::{StdSink, StdSource};
use tm_cli::run;

fn main(rt: HostRuntime) -> ExitCode {
    let alloc = rt.alloc();
    let words: Vec<String> = match env::args(&rt) {
        Ok(words) => match words.collect(alloc) {
            Ok(words) => words,
            Err(_) => return ExitCode::from(5),
        },
        Err(error) => return ExitCode::from(status_of(&error)),
    };
    let mut source = StdSource::new(rt.stdin());
    let mut out = StdSink::new(rt.stdout());
    let mut notes = StdSink::new(rt.stderr());
    ExitCode::from(run(
        &rt,
        alloc,
        words.as_slice(),
        &mut source,
        &mut out,
        &mut notes,
    ))
}

// The status where the runtime refuses the words: 5 where it is out of memory, 8 for any other cause, as words that are
// no text.
fn status_of(error: &io::Error) -> u8 {
    if error.kind() == ErrorKind::OutOfMemory {
        5
    } else {
        8
    }
}
