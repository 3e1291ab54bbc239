//! The answers of calls.

ghost use Rattle.std.specs.Prelude.{◌≡◌};
ghost use Rattle.c_calls.specs.Answers.{code_of};

/// The answer of a call, as the header's `enum vscsi_answer`.
#[derive(Clone, Copy, PartialEq, Eq)]
pub enum Answer {
    /// It was done.
    Done = 0,
    /// A growth was refused.
    NoMemory = 1,
    /// The device doesn't take the configuration.
    BadConfig = 2,
    /// There is no device.
    NoDevice = 3,
    /// There is a device already.
    InUse = 4,
    /// A byte lies outside guest memory, or a block outside the unit.
    Outside = 5,
    /// There is no such queue.
    NoQueue = 6,
    /// There is no such unit.
    NoUnit = 7,
    /// The room that was given isn't as long as what was asked for.
    BadLength = 8,
    /// No unit may have so many blocks. 9 is the header's, for a null pointer.
    BadCapacity = 10,
    /// There is no disk.
    NoDisk = 11,
}

impl Answer {
    /// Returns its number.
    pub fn code(self) -> u32
        ensures { result ≡ code_of self }
    {
        match self {
            Answer::Done => 0,
            Answer::NoMemory => 1,
            Answer::BadConfig => 2,
            Answer::NoDevice => 3,
            Answer::InUse => 4,
            Answer::Outside => 5,
            Answer::NoQueue => 6,
            Answer::NoUnit => 7,
            Answer::BadLength => 8,
            Answer::BadCapacity => 10,
            Answer::NoDisk => 11,
        }
    }
}
