//! Readers and writers that fail.

use guest_script::{LineFault, Options, ScriptFault, play};
use std::alloc::Global;
use std::io;
use std::io::{Read, Write};
use std::test::Fail;

const SCRIPT: &str = "memory 512
ring split
queues 4 8
workers 2
handoff 8
unit 0 0 1000 calm
status
order 2
blocks 0:0 0 1
show A
";

const PRINTS: &str = "status 0
order 2:
blocks 0:0 0 1: 00*512
";

/// No bound, and no line for a step.
const PLAIN: Options = Options {
    steps: None,
    trace: false,
};

/// The fault of a script that can't be read.
const CANNOT_READ: ScriptFault = ScriptFault::Line {
    line: 0,
    fault: LineFault::CannotRead,
};

/// The fault of the script's last line.
const NO_SUCH_NAME: ScriptFault = ScriptFault::Line {
    line: 10,
    fault: LineFault::NoSuchName,
};

/// Gives its text seven bytes a call, and fails at one call.
#[derive(Drop)]
struct Reader<'a> {
    text: &'a [u8],
    calls: u64,
    fails_at: u64,
}

impl<'a> Read for Reader<'a> {
    fn read(&mut self, buf: &mut [u8]) -> io::Result<usize> {
        self.calls = self.calls.saturating_add(1);
        if self.calls == self.fails_at {
            return Err(io::Error::from(io::ErrorKind::BrokenPipe));
        }
        let most = buf.len().min(7);
        self.text.read(&mut buf[..most])
    }
}

/// Keeps what it is given, three bytes a call, and fails at one call.
#[derive(Drop)]
struct Writer {
    got: Vec<u8>,
    calls: u64,
    fails_at: u64,
}

impl Write for Writer {
    fn write(&mut self, buf: &[u8]) -> io::Result<usize> {
        self.calls = self.calls.saturating_add(1);
        if self.calls == self.fails_at {
            return Err(io::Error::from(io::ErrorKind::BrokenPipe));
        }
        let most = buf.len().min(3);
        self.got.extend_from_slice(&buf[..most])?;
        Ok(most)
    }

    fn flush(&mut self) -> io::Result<()> {
        Ok(())
    }
}

/// Plays the script over a reader and a writer that fail at these calls, 0 for at none. Gives what was
/// printed, how often each was called, and how it ended.
fn played(alloc: Global, reads: u64, writes: u64) -> (Vec<u8>, u64, u64, Result<(), ScriptFault>) {
    let mut reader = Reader {
        text: SCRIPT.as_bytes(),
        calls: 0,
        fails_at: reads,
    };
    let mut writer = Writer {
        got: Vec::new(alloc),
        calls: 0,
        fails_at: writes,
    };
    let end = play(alloc, &mut reader, &mut writer, PLAIN);
    let Writer { got, calls, .. } = writer;
    (got, reader.calls, calls, end)
}

/// Returns true if these bytes begin what the script prints, and aren't all of it.
fn is_begun(printed: &[u8]) -> bool {
    printed.len() < PRINTS.len() && PRINTS.as_bytes().starts_with(printed)
}

/// Returns the first call of the reader whose failure doesn't end the play there, with nothing printed. Returns 0 where
/// there are ten calls or fewer.
fn first_wrong_read(alloc: Global) -> Option<u64> {
    let (_, reads, _, _) = played(alloc, 0, 0);
    if reads <= 10 {
        return Some(0);
    }
    for call in 1..=reads {
        let (got, calls, _, end) = played(alloc, call, 0);
        if !got.is_empty() || calls != call || end != Err(CANNOT_READ) {
            return Some(call);
        }
    }
    None
}

/// Returns the first call of the writer whose failure doesn't end the play there, with what it printed standing.
/// Returns 0 where there are ten calls or fewer, or where the play goes wrong though none fails.
fn first_wrong_write(alloc: Global) -> Option<u64> {
    let (got, _, writes, end) = played(alloc, 0, 0);
    if got.as_slice() != PRINTS.as_bytes() || end != Err(NO_SUCH_NAME) || writes <= 10 {
        return Some(0);
    }
    for call in 1..=writes {
        let (got, _, calls, end) = played(alloc, 0, call);
        if !is_begun(got.as_slice()) || calls != call || end != Err(ScriptFault::CannotWrite) {
            return Some(call);
        }
    }
    None
}

#[test]
fn a_reader_that_fails(rt: HostRuntime) {
    assert_eq!(rt; first_wrong_read(rt.alloc()), None);
}

#[test]
fn a_writer_that_fails(rt: HostRuntime) {
    assert_eq!(rt; first_wrong_write(rt.alloc()), None);
}

#[test]
fn faults_without_a_line_are_named(rt: HostRuntime) -> Result<(), Fail> {
    let unconfirmed = ScriptFault::Unconfirmed {
        queue: 3,
        number: 17,
    };
    let outstanding = ScriptFault::Outstanding {
        queue: 0,
        number: 4294967296,
    };
    let text = format!(in rt.alloc();
        "{}, {unconfirmed}, {outstanding}",
        ScriptFault::CannotWrite
    )?;
    assert_eq!(rt;
        text.as_str(),
        "cannot write, close: unconfirmed 3/17, close: outstanding 0/4294967296"
    );
    Ok(())
}
