//! The program: the commands on standard input, standard output and the files of the current folder.
#![tactic(auto)]

use cello_io::{ErrSink, FolderShelf, OpenGate, StdSink, StdSource};
use cello_num::Memory;
use cello_top::{Fault, enter, write_fault};
use std::env;
use std::io::ErrorKind;
use std::process::ExitCode;
use std::sync::Wait;
use std::thread::Threads;

/// The status where memory is refused before a command begins.
const OUT_OF_MEMORY: u8 = 5;

/// The words after the program's name. Where one of them isn't text there are none, which is no command either.
fn words(rt: &HostRuntime) -> Result<Vec<String>, Memory> {
    let mut words = Vec::new(rt.alloc());
    match env::args(rt) {
        Ok(args) => {
            for word in args.skip(1) {
                words.push(word)?;
            }
            Ok(words)
        }
        Err(error) => match error.kind() {
            ErrorKind::OutOfMemory => Err(Memory),
            _ => Ok(words),
        },
    }
}

/// Writes the line of a fault to standard error.
fn tell(rt: &HostRuntime, fault: Option<Fault>) {
    if let Some(fault) = fault {
        let mut errors = ErrSink::new(rt.stderr());
        let _ = write_fault(&fault, &mut errors);
    }
}

/// Runs the command of these words on the standard streams and the current folder, by threads of this handle where workers
/// are asked for, and answers its status.
fn run<R: Threads + Wait + Sync>(rt: &HostRuntime, threads: &R, words: &[String]) -> u8 {
    let mut source = StdSource::new(rt.stdin());
    let mut sink = StdSink::new(rt.stdout());
    let mut shelf = FolderShelf::new(rt, ".");
    let alloc = rt.alloc();
    let outcome = enter(
        threads,
        alloc,
        words,
        &mut source,
        &mut sink,
        &mut shelf,
        &OpenGate,
    );
    tell(rt, outcome.fault);
    outcome.status
}

fn main(rt: HostRuntime) -> ExitCode {
    match words(&rt) {
        Ok(words) => ExitCode::from(run(&rt, &rt, &words)),
        Err(Memory) => ExitCode::from(OUT_OF_MEMORY),
    }
}
