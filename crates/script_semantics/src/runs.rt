//! Bytes as runs of equal ones.

ghost use Rattle.std.specs.Prelude.{◌≡◌, ◌↔◌, IsOk, IfErr};
ghost use Rattle.script_syntax.specs.declared.fault.Stop.{Stop};

use script_syntax::Stop;
use std::io;
use std::io::Write;

/// Returns what the writer said, as the script takes it: `CannotWrite` exactly where it refused. Called
/// with the outcome of each write.
pub fn written(outcome: io::Result<()>) -> Result<(), Stop>
    ensures ok { IsOk result ↔ IsOk outcome }
    ensures stop { IfErr result (λ stop. stop ≡ Stop.CannotWrite) }
{
    match outcome {
        Ok(()) => Ok(()),
        Err(_) => Err(Stop::CannotWrite),
    }
}

/// A run of equal bytes.
#[derive(Clone, Copy)]
struct Run {
    byte: u8,
    length: u64,
}

/// Prints bytes as maximal runs of equal ones, joined by commas; `-` where there is none.
#[derive(Clone, Copy)]
pub(crate) struct Runs {
    /// The run that the next byte may belong to.
    last: Option<Run>,
    /// True once a run was printed.
    printed: bool,
}

impl Runs {
    /// The runs of no bytes.
    pub(crate) const NONE: Runs = Runs {
        last: None,
        printed: false,
    };

    /// Goes on with these bytes.
    pub(crate) fn add<W: Write>(&mut self, out: &mut W, bytes: &[u8]) -> Result<(), Stop> {
        for byte in bytes {
            self.add_byte(out, *byte)?;
        }
        Ok(())
    }

    /// Goes on with a byte.
    fn add_byte<W: Write>(&mut self, out: &mut W, byte: u8) -> Result<(), Stop> {
        match self.last {
            Some(run) if run.byte == byte => {
                let length = run.length.saturating_add(1);
                self.last = Some(Run { byte, length });
            }
            Some(run) => {
                self.print(out, run)?;
                self.last = Some(Run { byte, length: 1 });
            }
            None => self.last = Some(Run { byte, length: 1 }),
        }
        Ok(())
    }

    /// Prints a run that has ended.
    fn print<W: Write>(&mut self, out: &mut W, run: Run) -> Result<(), Stop> {
        if self.printed {
            written(write!(out, ","))?;
        }
        self.printed = true;
        let Run { byte, length } = run;
        if length == 1 {
            written(write!(out, "{byte:02x}"))
        } else {
            written(write!(out, "{byte:02x}*{length}"))
        }
    }

    /// Ends the bytes, and the line.
    pub(crate) fn end<W: Write>(mut self, out: &mut W) -> Result<(), Stop> {
        match self.last {
            Some(run) => self.print(out, run)?,
            None => written(write!(out, "-"))?,
        }
        written(writeln!(out))
    }
}
