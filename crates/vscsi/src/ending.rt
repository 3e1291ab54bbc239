//! The end of the program.

ghost use Rattle.std.specs.Prelude.{◌≡◌};
ghost use Rattle.std.specs.Process.{exit_status};
ghost use Rattle.vscsi.specs.Inner.Endings.{status_of};

use script_syntax::ScriptFault;
use std::io;
use std::process::ExitCode;

/// The end of the program.
#[derive(Drop)]
pub enum Ending {
    /// All was done.
    Done,
    /// The script came to a fault.
    Fault(ScriptFault),
    /// Standard output fails. Nothing more is printed.
    CannotWrite,
    /// The words were refused, or ask for help.
    Refused(clap::Error),
    /// A word is no text.
    NoText,
    /// Memory ran out.
    NoMemory,
}

impl Ending {
    /// Says on standard error what is to be said, and gives the status.
    pub fn report<R: Eprint>(self, rt: &R) -> ExitCode
        ensures { exit_status result ≡ status_of self }
    {
        // The status alone says what there is to say where standard error fails too.
        let _ = self.say(rt);
        ExitCode::from(self.status())
    }

    /// Returns the exit status.
    fn status(&self) -> u8
        ensures { result ≡ status_of self.now }
    {
        match self {
            Ending::Done => 0,
            Ending::Fault(_) | Ending::CannotWrite => 1,
            Ending::Refused(_) | Ending::NoText => 2,
            Ending::NoMemory => 3,
        }
    }

    /// Says what is to be said.
    fn say<R: Eprint>(&self, rt: &R) -> io::Result<()> {
        match self {
            Ending::Done | Ending::CannotWrite => Ok(()),
            Ending::Fault(fault) => rt.eprintln(fault),
            Ending::Refused(refusal) => rt.eprint(refusal),
            Ending::NoText => rt.eprintln("error: an argument is no UTF-8 text"),
            Ending::NoMemory => rt.eprintln("no memory"),
        }
    }
}
