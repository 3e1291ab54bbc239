//! Parses the words of the command line.

use crate::ending::Ending;
use clap::error::ErrorKind;
use clap::{Arg, ArgAction, ArgMatches, Command, Error};
use std::alloc::{AllocError, Global};

/// The call that the words ask for.
#[derive(Drop)]
pub enum Asked<'a> {
    /// Plays a script.
    Play(Play<'a>),
    /// Says what is wrong with the script in a file, or on standard input where the word is `-`.
    Check(&'a str),
    /// Plays such a script on a device that so many workers serve.
    Serve(&'a str, u16),
    /// Ends the program.
    Other(Ending),
}

/// The options of playing a script.
#[derive(Clone, Copy)]
pub struct Play<'a> {
    /// Its file; `-` for standard input.
    pub file: &'a str,
    /// The most steps that the device may take in all; `None` for as many as it likes.
    pub steps: Option<u64>,
    /// True if a line is printed for each step of the device.
    pub trace: bool,
}

/// The text on scripts, below the help.
const ABOUT_SCRIPTS: &str =
    "A script is text, a line for each thing that the guest does. Its header says how
much memory, which queues and which disks there are; the lines behind it send
SCSI requests, let the device run, and print what became of them:

  memory 512
  ring split
  queues 4 8
  workers 2
  handoff 8
  unit 0 0 1000 calm
  send R 2 0:0 1 simple 28000000000000000100 in 512
  settle
  show R

Where threads serve the device, `wait R` stands in the place of `settle`, and
`close` before the first line that prints.

docs/vscsi-script.5 describes each line, and examples/ has scripts to begin with.

Exit status: 0 done; 1 a fault of the script, named with its line on standard
error, a closed device that doesn't add up, or a standard output that fails;
2 words that are refused, or ask for help; 3 no memory.
";

/// Makes the word that names a script.
fn file<'a>(alloc: Global) -> Arg<'a> {
    Arg::new(alloc, "FILE")
        .required(true)
        .help("The script; - for standard input")
}

/// Makes the command `play`.
fn play_command<'a>(alloc: Global) -> Result<Command<'a>, AllocError> {
    let steps = Arg::new(alloc, "steps")
        .long("steps")
        .value_name("N")
        .value_parser(clap::value_parser!(u64))
        .help("How many steps the device may take in all; one more is a fault");
    let trace = Arg::new(alloc, "trace")
        .long("trace")
        .action(ArgAction::SetTrue)
        .help("Prints a line for each step of the device too");
    Command::new(alloc, "play")
        .about("Plays a script, line by line, and prints what it asks for")
        .after_help(ABOUT_SCRIPTS)
        .arg(file(alloc))?
        .arg(steps)?
        .arg(trace)
}

/// Makes the command `check`.
fn check_command<'a>(alloc: Global) -> Result<Command<'a>, AllocError> {
    Command::new(alloc, "check")
        .about("Says what is wrong with a script, and at which word, without a device")
        .after_help(ABOUT_SCRIPTS)
        .arg(file(alloc))
}

/// Makes the command `serve`.
fn serve_command<'a>(alloc: Global) -> Result<Command<'a>, AllocError> {
    let workers = Arg::new(alloc, "workers")
        .long("workers")
        .value_name("N")
        .required(true)
        .value_parser(clap::value_parser!(u16).range(1..=8))
        .help("How many threads serve the device, 1 to 8");
    Command::new(alloc, "serve")
        .about("Plays a script on a device that threads serve meanwhile")
        .after_help(ABOUT_SCRIPTS)
        .arg(file(alloc))?
        .arg(workers)
}

/// Makes the command line.
fn command<'a>(alloc: Global) -> Result<Command<'a>, AllocError> {
    Command::new(alloc, "vscsi")
        .version("1.11.0")
        .about("A virtio SCSI host device, run over a guest that a script plays")
        .after_help(ABOUT_SCRIPTS)
        .subcommand_required(true)
        .subcommand(play_command(alloc)?)?
        .subcommand(check_command(alloc)?)?
        .subcommand(serve_command(alloc)?)
}

/// Parses the words.
fn parsed<'a>(alloc: Global, words: &'a [String]) -> Result<ArgMatches<'a>, Error> {
    command(alloc)?.try_get_matches_from(words)
}

/// Returns what the words ask for.
pub fn requested<'a>(alloc: Global, words: &'a [String]) -> Asked<'a> {
    match parsed(alloc, words) {
        Ok(matches) => asked_of(&matches).unwrap_or(Asked::Other(Ending::Done)),
        Err(error) if error.kind() == ErrorKind::OutOfMemory => Asked::Other(Ending::NoMemory),
        Err(error) => Asked::Other(Ending::Refused(error)),
    }
}

/// Returns what words that were parsed ask for.
fn asked_of<'a>(matches: &ArgMatches<'a>) -> Option<Asked<'a>> {
    if let Some(play) = matches.subcommand_matches("play") {
        return Some(Asked::Play(Play {
            file: play.get_str("FILE")?,
            steps: play.get_one::<u64>("steps"),
            trace: play.get_flag("trace"),
        }));
    }
    if let Some(check) = matches.subcommand_matches("check") {
        return Some(Asked::Check(check.get_str("FILE")?));
    }
    let serve = matches.subcommand_matches("serve")?;
    Some(Asked::Serve(serve.get_str("FILE")?, serve.get_one::<u16>("workers")?))
}
