//! `vscsi` runs a virtio SCSI host device over a guest that a script plays.
//!
//! # Proved
//!
//! It is safe; with threads it may wait. Each ending has its exit status. `Output` appends what it counts as
//! written, over a writer whose bytes a contract can see; standard output is none. Once that writer failed (but for
//! an interruption) or took nothing, it refuses all.
#![tactic(auto)]

mod ending;
mod output;
mod words;

use crate::ending::Ending;
use crate::output::Output;
use crate::words::{Asked, Play, requested};
use guest_script::{LineFault, Options, ScriptFault, check, play, serve};
use std::io::{BufWriter, ErrorKind, Read, Write};
use std::process::ExitCode;
use std::rt::{Env, Files};
use std::sync::Wait;
use std::thread::Threads;
use std::{env, fs, io};

/// Does what the words ask for, and ends with a status: 0 done, 1 a fault of the script or of standard output, 2 words
/// that are refused or ask for help, 3 no memory.
fn main(rt: HostRuntime) -> ExitCode {
    let ending = run(&rt);
    ending.report(&rt)
}

/// Does what the words of the command line ask for.
fn run<R>(rt: &R) -> Ending
where
    R: Env + Files + Input + Print + AllocGlobal + Threads + Wait + Copy + Send + 'static,
{
    let words: Vec<String> = match env::args(rt) {
        Ok(words) => match words.collect(rt.alloc()) {
            Ok(words) => words,
            Err(_) => return Ending::NoMemory,
        },
        Err(error) if error.kind() == ErrorKind::OutOfMemory => return Ending::NoMemory,
        Err(_) => return Ending::NoText,
    };
    match requested(rt.alloc(), words.as_slice()) {
        Asked::Play(Play { file, steps, trace }) => play_file(rt, file, Options { steps, trace }),
        Asked::Check("-") => check_from(rt, &mut rt.reader()),
        Asked::Check(path) => match opened(rt, path) {
            Ok(mut file) => check_from(rt, &mut file),
            Err(ending) => ending,
        },
        Asked::Serve("-", workers) => serve_from(rt, &mut rt.reader(), workers),
        Asked::Serve(path, workers) => match opened(rt, path) {
            Ok(mut file) => serve_from(rt, &mut file, workers),
            Err(ending) => ending,
        },
        Asked::Other(ending) => ending,
    }
}

/// Opens the file of a script.
fn opened<R: Files>(rt: &R, path: &str) -> Result<R::File, Ending> {
    match fs::open(rt, path) {
        Ok(file) => Ok(file),
        Err(error) if error.kind() == ErrorKind::OutOfMemory => Err(Ending::NoMemory),
        Err(_) => Err(Ending::Fault(ScriptFault::Line {
            line: 0,
            fault: LineFault::CannotRead,
        })),
    }
}

/// Plays the script in a file, or on standard input where it is `-`.
fn play_file<R: Files + Input + Print + AllocGlobal>(
    rt: &R,
    path: &str,
    options: Options,
) -> Ending {
    if path == "-" {
        return play_from(rt, &mut rt.reader(), options);
    }
    match opened(rt, path) {
        Ok(mut file) => play_from(rt, &mut file, options),
        Err(ending) => ending,
    }
}

/// Says what is wrong with the script that a reader gives.
fn check_from<R: AllocGlobal, S: Read>(rt: &R, script: &mut S) -> Ending {
    match check(rt.alloc(), script) {
        Ok(()) => Ending::Done,
        Err(ScriptFault::NoMemory) => Ending::NoMemory,
        Err(fault) => Ending::Fault(fault),
    }
}

/// Plays the script that a reader gives, to standard output.
fn play_from<R: Print + AllocGlobal, S: Read>(rt: &R, script: &mut S, options: Options) -> Ending {
    let Ok(mut out) = BufWriter::new(rt.alloc(), Output::new(io::writer(rt))) else {
        return Ending::NoMemory;
    };
    let outcome = play(rt.alloc(), script, &mut out, options);
    ended(outcome, out.flush())
}

/// Plays the script that a reader gives on a device that so many workers serve, to standard output.
fn serve_from<R, S>(rt: &R, script: &mut S, workers: u16) -> Ending
where
    R: Print + AllocGlobal + Threads + Wait + Copy + Send + 'static,
    S: Read,
{
    let Ok(mut out) = BufWriter::new(rt.alloc(), Output::new(io::writer(rt))) else {
        return Ending::NoMemory;
    };
    let outcome = serve(*rt, rt.alloc(), script, &mut out, workers);
    ended(outcome, out.flush())
}

/// Returns why the program ends behind a script, whose output was flushed.
fn ended(outcome: Result<(), ScriptFault>, flushed: io::Result<()>) -> Ending {
    if flushed.is_err() {
        return Ending::CannotWrite;
    }
    match outcome {
        Ok(()) => Ending::Done,
        Err(ScriptFault::NoMemory) => Ending::NoMemory,
        Err(ScriptFault::CannotWrite) => Ending::CannotWrite,
        Err(fault) => Ending::Fault(fault),
    }
}
