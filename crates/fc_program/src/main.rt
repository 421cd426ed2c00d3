//! `fc`: writes a program's canonical text, says whether and within how many rounds it stabilises, writes its
//! stabilised field or cheapest walks, runs a script, replays a log of firings or of messages, drives messages from a
//! number, or runs the scenario of a number.
#![tactic(auto)]

mod ending;
#[cfg(test)]
mod held;
#[cfg(test)]
mod hostile;
mod judging;
mod top;

use export_table::OpenGate;
use fc_io::{StdSink, StdSource};
use std::alloc::Global;
use std::env;
use std::io::{self, ErrorKind};
use std::process::ExitCode;
use std::rt::Env;

// The words of the command line.
fn command_line(rt: &(impl Env + Alloc<A = Global>)) -> io::Result<Vec<String>> {
    let mut words = Vec::new(rt.alloc());
    for word in env::args(rt)? {
        words.push(word)?;
    }
    Ok(words)
}

fn main(rt: HostRuntime) -> ExitCode {
    let words = match command_line(&rt) {
        Ok(words) => words,
        Err(error) if error.kind() == ErrorKind::OutOfMemory => return ExitCode::from(7),
        // Words that are not text are no command's.
        Err(_) => Vec::new(rt.alloc()),
    };
    let mut source = StdSource::new(rt.stdin());
    let mut sink = StdSink::new(rt.stdout());
    let outcome = top::fc(&rt, rt.alloc(), &words, &mut source, &mut sink, &OpenGate);
    ExitCode::from(outcome.status)
}
