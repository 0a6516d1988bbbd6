//! The program `lois_ask`: it answers a question about the results on standard input, and writes the answer on standard output.
#![tactic(auto)]

use lois_base::{Decider, NoMemory};
use lois_deciders::GraphDecider;
use lois_outside::{StdSink, StdSource};
use lois_questions::lois_ask;
use std::process::ExitCode;
use std::{env, io};

const NO_MEMORY: u8 = 8;

// The words after the program's name.
fn words(rt: &HostRuntime) -> io::Result<Vec<String>> {
    let mut words = env::args(rt)?;
    let _ = words.next();
    Ok(words.collect(rt.alloc())?)
}

// Hands in the decider, and gives the exit status.
fn answered(rt: &HostRuntime, words: &[String]) -> Result<u8, NoMemory> {
    let alloc = rt.alloc();
    let graph: Box<dyn Decider> = Box::new(alloc, GraphDecider::new())?;
    let mut deciders = Vec::new(alloc);
    deciders.push(graph)?;
    let mut source = StdSource::new(rt.reader());
    let mut sink = StdSink::new(io::writer(rt));
    Ok(lois_ask(alloc, words, &mut source, &mut sink, deciders))
}

fn main(rt: HostRuntime) -> ExitCode {
    let words = match words(&rt) {
        Ok(words) => words,
        Err(error) if error.kind() == io::ErrorKind::OutOfMemory => {
            return ExitCode::from(NO_MEMORY);
        }
        // A word that isn't UTF-8 is none that the program takes, and neither is no word.
        Err(_) => Vec::new(rt.alloc()),
    };
    match answered(&rt, &words) {
        Ok(status) => ExitCode::from(status),
        Err(NoMemory) => ExitCode::from(NO_MEMORY),
    }
}
