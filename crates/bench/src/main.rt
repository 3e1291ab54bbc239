//! `bench KIND RING DEPTH ROUNDS WORKERS` measures what requests cost. A guest has two queues, each for a unit of its
//! own. It makes DEPTH requests available at once on each of them, ROUNDS times. A host of WORKERS workers serves them,
//! or the device of one thread where WORKERS is 0. The program prints how many requests ended well, and how many
//! nanoseconds all took.
//!
//! Without words it serves a few rounds of each kind on each ring, by one thread and by two workers. It then prints how
//! many requests ended well.
//!
//! # Proved
//!
//! It is safe; with threads it may wait. Each ending has its exit status.
#![tactic(auto)]

mod device;
mod failure;
mod guest;
mod places;
mod telling;
mod words;
mod work;

use std::env;
use std::process::ExitCode;
use std::rt::{Clock, Env};
use std::sync::Wait;
use std::thread::Threads;
use telling::{tell, tell_all};
use words::asked;

/// Does what the words name, and ends with a status: 0 done, 1 a request that wasn't answered well, 2 words that name
/// no work, 3 want of memory, 4 no clock or standard output that fails.
fn main(rt: HostRuntime) -> ExitCode {
    ExitCode::from(status(&rt))
}

/// Returns the exit status.
fn status<R: Env + Clock + Threads + Wait + Print + AllocGlobal + Copy + Send + 'static>(
    rt: &R,
) -> u8 {
    let Ok(words) = env::args(rt) else {
        return 2;
    };
    let words: Vec<String> = match words.collect(rt.alloc()) {
        Ok(words) => words,
        Err(_) => return 3,
    };
    match words.as_slice() {
        [_] => tell_all(rt),
        [_, rest @ ..] => match asked(rest) {
            Some(work) => tell(rt, &work),
            None => 2,
        },
        [] => 2,
    }
}
