//! The program: the top call with the words of the process, its standard input and its standard output.
#![tactic(auto)]

use node_threads::NoGate;
use qprop_cli::{Status, qprop};
use std::env;
use std::io::{self, ErrorKind};
use std::process::ExitCode;
use svc_value::{StdSink, StdSource};

/// The exit status where the words of the process can't be had for another cause than memory, as a word that is not
/// UTF-8.
const NO_WORDS: u8 = 10;

// The words behind the program's name.
fn words(rt: &HostRuntime) -> io::Result<Vec<String>> {
    let mut words = Vec::new(rt.alloc());
    for word in env::args(rt)?.skip(1) {
        words.push(word)?;
    }
    Ok(words)
}

fn main(rt: HostRuntime) -> ExitCode {
    let words = match words(&rt) {
        Ok(words) => words,
        Err(error) if error.kind() == ErrorKind::OutOfMemory => {
            return ExitCode::from(Status::OutOfMemory.exit_status());
        }
        Err(_) => return ExitCode::from(NO_WORDS),
    };
    let mut source = StdSource::new(rt.stdin());
    let mut sink = StdSink::new(rt.stdout());
    let outcome = qprop(&rt, rt.alloc(), &words, &mut source, &mut sink, &NoGate);
    ExitCode::from(outcome.status.exit_status())
}
