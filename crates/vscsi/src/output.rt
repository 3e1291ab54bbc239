//! Standard output, which isn't written to again once it has failed.

ghost use Rattle.std.specs.Prelude.{◌≡◌, ◌≢◌, ◌↔◌, true, false, IfOk, IfErr, IsErr};
ghost use Rattle.std.specs.Io.{WritesAtMost};
ghost use Rattle.std.specs.Io.KnownBytes.{Keeps, WriteAppends};
ghost use Rattle.std.specs.IoError.{error_kind};
ghost use Rattle.std.specs.declared.io.ErrorKind.TheVariants.{Interrupted};

use std::io;
use std::io::{ErrorKind, Write};

/// A writer that fails for good at its first failure.
#[derive(Drop)]
pub struct Output<W> {
    writer: W,
    failed: bool,
}

impl<W> Output<W> {
    /// Makes one over a writer, which hasn't failed.
    pub fn new(writer: W) -> Output<W>
        ensures over { result.writer ≡ writer }
        ensures open { result.failed ≡ false }
    {
        Output {
            writer,
            failed: false,
        }
    }
}

impl<W: Write> Write for Output<W> {
    ghost contents = { λ output. W.contents output.writer };

    fn write(&mut self, buf: &[u8]) -> io::Result<usize>
        ensures bound { WritesAtMost result buf.now }
        ensures bytes { WriteAppends (W.contents self.old.writer) (W.contents self.new.writer) result buf.now }
        ensures left { self.old.failed ≡ true → self.new ≡ self.old }
        ensures refused { self.old.failed ≡ true → IsErr result }
        ensures taken { IfOk result (λ n. (self.new.failed ≡ true) ↔ (n ≡ 0)) }
        ensures error { IfErr result (λ e. error_kind e ≢ Interrupted → self.new.failed ≡ true) }
        ensures interrupted { IfErr result (λ e. error_kind e ≡ Interrupted → self.new.failed ≡ self.old.failed) }
    {
        if self.failed {
            return Err(io::Error::from(ErrorKind::BrokenPipe));
        }
        let outcome = self.writer.write(buf);
        match &outcome {
            Ok(0) => self.failed = true,
            Ok(_) => {}
            Err(error) => self.failed = error.kind() != ErrorKind::Interrupted,
        }
        outcome
    }

    fn flush(&mut self) -> io::Result<()>
        ensures bytes { Keeps (W.contents self.old.writer) (W.contents self.new.writer) }
        ensures left { self.old.failed ≡ true → self.new ≡ self.old }
        ensures refused { self.old.failed ≡ true → IsErr result }
        ensures error { (self.new.failed ≡ true) ↔ IsErr result }
    {
        if self.failed {
            return Err(io::Error::from(ErrorKind::BrokenPipe));
        }
        let outcome = self.writer.flush();
        self.failed = outcome.is_err();
        outcome
    }
}
