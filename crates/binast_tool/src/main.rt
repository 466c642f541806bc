//! The program: its words are those of the command line, and its streams the standard ones.
//! The status is that of `run`, but 5 or 7 where the words can't be had; then nothing is written.
#![tactic(auto)]

#[cfg(test)]
mod limits;

use bast_base::{Chars, StdSink, StdSource, Steps};
use binast_run::{Idle, run};
use std::alloc::{AllocError, Global};
use std::process::ExitCode;
use std::{env, io};

// No memory for the words of the command line.
const OUT_OF_MEMORY: u8 = 5;

// The words can't be had, as where one is no UTF-8.
const NO_WORDS: u8 = 7;

fn main(rt: HostRuntime) -> ExitCode {
    let alloc = rt.alloc();
    let args = match env::args(&rt) {
        Ok(args) => args,
        Err(error) => return ExitCode::from(refusal_of(&error)),
    };
    let words = match words_of(alloc, args) {
        Ok(words) => words,
        Err(AllocError) => return ExitCode::from(OUT_OF_MEMORY),
    };
    let mut source = StdSource::input(&rt);
    let mut sink = StdSink::output(&rt);
    let mut notes = StdSink::error(&rt);
    let mut steps = Steps::many();
    ExitCode::from(run(
        alloc,
        &words,
        &mut source,
        &mut sink,
        &mut notes,
        &Idle,
        &mut steps,
    ))
}

fn refusal_of(error: &io::Error) -> u8 {
    match error.kind() {
        io::ErrorKind::OutOfMemory => OUT_OF_MEMORY,
        _ => NO_WORDS,
    }
}

// The words behind the program's name.
fn words_of(alloc: Global, args: env::Args) -> Result<Vec<Chars>, AllocError> {
    let mut words = Vec::new(alloc);
    for word in args.skip(1) {
        words.push(Chars::of(word))?;
    }
    Ok(words)
}
