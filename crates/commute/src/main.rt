//! `commute`: takes the words of the command line, and hands them with standard input and output to
//! `ca_app::top`, which does all the rest. These few lines are trusted.
#![tactic(auto)]

use ca_app::top;
use ca_base::{OpenGate, StdSink, StdSource};
use std::env::Env;
use std::process::ExitCode;
use std::{env, io};

/// The status where memory for the words is refused.
const NO_MEMORY: u8 = 5;

fn main(rt: HostRuntime) -> ExitCode {
    let words = match words(&rt) {
        Ok(words) => words,
        Err(error) if error.kind() == io::ErrorKind::OutOfMemory => {
            return ExitCode::from(NO_MEMORY);
        }
        // Words that can't be had, such as one that isn't UTF-8, are a faulty command line.
        Err(_) => Vec::new(rt.alloc()),
    };
    let mut source = StdSource::new(&rt);
    let mut sink = StdSink::new(&rt);
    ExitCode::from(top(&rt, &words, &mut source, &mut sink, &OpenGate))
}

/// The words of the command line behind the program's name.
fn words(rt: &(impl Env + AllocGlobal)) -> io::Result<Vec<String>> {
    let mut words = env::args(rt)?;
    let _name = words.next();
    Ok(words.collect(rt.alloc())?)
}
