//! The steps of the device, as lines name them.

use crate::fault::LineFault;
use crate::header::only;
use crate::values::number;

/// A step of the device. It isn't known here which queues and seats there are, and whether it applies.
#[derive(Clone, Copy)]
pub enum Step {
    /// A queue takes its next chain.
    Fetch(u16),
    /// The request that arrived on a queue comes to its unit.
    Enter(u16),
    /// The chain that is ready on a queue is answered.
    Direct(u16),
    /// A seat hands its next job off.
    Put(u16),
    /// A worker takes a job from the hand-off.
    Take(u16),
    /// Pages are made for the WRITE in a seat's hand.
    Prepare(u16),
    /// The job in a seat's hand runs.
    Commit(u16),
    /// The job in a seat's hand is answered.
    Answer(u16),
    /// The task in a seat's hand leaves.
    Leave(u16),
    /// The open function marks its next unit, or looks at it.
    Mark,
    /// The open function finds a mark clear.
    Check,
    /// The open function is answered.
    AnswerTmf,
    /// The oldest event that waits goes to the guest, or is missed.
    Raise,
    /// The jobs that wait for pages are to be tried again.
    Wake,
    /// A seat takes one of these in hand.
    Resume(u16),
}

/// Returns the number of a queue or a seat.
fn number_of(values: &[&str]) -> Result<u16, LineFault> {
    number::<u16>(only(values)?)
}

/// Returns a step that has no values; `BadValue` where it has some.
fn alone(values: &[&str], step: Step) -> Result<Step, LineFault> {
    if values.is_empty() {
        Ok(step)
    } else {
        Err(LineFault::BadValue)
    }
}

impl Step {
    /// Reads a line by its first word and the others; `None` where the first is no word of a step.
    /// `BadValue` where the others aren't what it takes.
    pub fn read(keyword: &str, values: &[&str]) -> Result<Option<Step>, LineFault> {
        let step = match keyword {
            "fetch" => Step::Fetch(number_of(values)?),
            "enter" => Step::Enter(number_of(values)?),
            "direct" => Step::Direct(number_of(values)?),
            "put" => Step::Put(number_of(values)?),
            "take" => Step::Take(number_of(values)?),
            "prepare" => Step::Prepare(number_of(values)?),
            "commit" => Step::Commit(number_of(values)?),
            "answer" => Step::Answer(number_of(values)?),
            "leave" => Step::Leave(number_of(values)?),
            "mark" => alone(values, Step::Mark)?,
            "check" => alone(values, Step::Check)?,
            "answertmf" => alone(values, Step::AnswerTmf)?,
            "raise" => alone(values, Step::Raise)?,
            "wake" => alone(values, Step::Wake)?,
            "resume" => Step::Resume(number_of(values)?),
            _ => return Ok(None),
        };
        Ok(Some(step))
    }
}
