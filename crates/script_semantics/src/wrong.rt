//! A line's fault, and at which of its words.

ghost use Rattle.std.specs.Prelude.{ℕ, ◌≡◌, ◌+◌, ◌-◌, ◌^◌, min, Some, None};
ghost use Rattle.script_syntax.specs.Inner.Faults.{ending_at};
ghost use Rattle.script_syntax.specs.declared.fault.LineFault.{LineFault};
ghost use Rattle.script_syntax.specs.declared.fault.Stop.{Stop};
ghost use Rattle.script_syntax.specs.declared.fault.ScriptFault.{ScriptFault};

use script_syntax::{LineFault, LineText, ScriptFault, Stop, first_wrong, text_of};
use std::alloc::{AllocError, Global};

/// The reason for which a line ends a check.
#[derive(Clone, Copy)]
pub(crate) struct Wrong {
    /// The word at fault, from 0 on, where it is one.
    word: Option<usize>,
    stop: Stop,
}

impl Wrong {
    /// Makes a fault at a word, counted from 0.
    pub(crate) fn at(word: usize, fault: LineFault) -> Wrong
        ensures { result ≡ record { word = Some word; stop = Stop.Fault fault } }
    {
        Wrong {
            word: Some(word),
            stop: Stop::Fault(fault),
        }
    }

    /// Makes a fault at no word of the line.
    pub(crate) fn without(stop: Stop) -> Wrong
        ensures { result ≡ record { word = None; stop = stop } }
    {
        Wrong { word: None, stop }
    }

    /// Makes a fault at the word for which a line couldn't be read.
    pub(crate) fn of_line(alloc: Global, line: &[u8], stop: Stop) -> Wrong {
        let word = match stop {
            Stop::Fault(LineFault::UnknownLine) => Ok(Some(unknown_word(line))),
            Stop::Fault(LineFault::OutOfPlace) => Ok(Some(0)),
            Stop::Fault(LineFault::BadValue) => wrong_value(alloc, line),
            _ => Ok(None),
        };
        match word {
            Ok(word) => Wrong { word, stop },
            Err(AllocError) => Wrong::without(Stop::NoMemory),
        }
    }

    /// Returns the fault of a script, of which this is wrong with the line of that number. Words count from 1.
    pub(crate) fn named(self, line: u64) -> ScriptFault
        ensures at { (word : ℕ) (fault : LineFault) → self.word ≡ Some word → self.stop ≡ Stop.Fault fault →
            result ≡ ScriptFault.Word line (min (word + 1) (2 ^ 64 - 1)) fault }
        ensures without { self.word ≡ None → result ≡ ending_at line self.stop }
    {
        match (self.stop, self.word) {
            (Stop::Fault(fault), Some(word)) => ScriptFault::Word {
                line,
                word: (word as u64).saturating_add(1),
                fault,
            },
            (stop, _) => stop.at(line),
        }
    }
}

/// Returns the word of a line that is none of the language: the first that has a byte above 7f, else the first of all.
fn unknown_word(line: &[u8]) -> usize {
    let mut words = line
        .split(|byte| *byte == b' ')
        .filter(|word| !word.is_empty());
    words.position(|word| !word.is_ascii()).unwrap_or(0)
}

/// Returns the word of a line that its position doesn't take. It fails where memory runs out.
fn wrong_value(alloc: Global, line: &[u8]) -> Result<Option<usize>, AllocError> {
    let words = match text_of(alloc, line)? {
        LineText::Words(words) => words,
        LineText::Blank | LineText::NoText => return Ok(None),
    };
    let Some((keyword, values)) = words.split_first() else {
        return Ok(None);
    };
    let wrong = first_wrong(alloc, keyword, values)?;
    Ok(wrong.map(|index| index.saturating_add(1)))
}
