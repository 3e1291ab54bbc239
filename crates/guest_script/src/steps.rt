//! The steps of the device, in the order in which it takes them.

use script_syntax::Step;
use std::alloc::{AllocError, Global};
use world::Event;

/// Returns the event of a step.
pub(crate) fn event_of(step: Step) -> Event {
    match step {
        Step::Fetch(queue) => Event::Fetch(queue),
        Step::Enter(queue) => Event::Enter(queue),
        Step::Direct(queue) => Event::Direct(queue),
        Step::Put(seat) => Event::Put(seat),
        Step::Take(seat) => Event::Take(seat),
        Step::Prepare(seat) => Event::Prepare(seat),
        Step::Commit(seat) => Event::Commit(seat),
        Step::Answer(seat) => Event::Answer(seat),
        Step::Leave(seat) => Event::Leave(seat),
        Step::Mark => Event::Mark,
        Step::Check => Event::Check,
        Step::AnswerTmf => Event::AnswerTmf,
        Step::Raise => Event::Raise,
        Step::Wake => Event::Wake,
        Step::Resume(seat) => Event::Resume(seat),
    }
}

/// Returns the steps of a device of so many queues and seats, in the order of `order` in
/// `device_model/specs/Order.antt`: `settle` takes the first that applies. It fails where memory runs out.
pub(crate) fn order(alloc: Global, queues: u16, seats: u16) -> Result<Vec<Step>, AllocError> {
    let mut steps = Vec::new(alloc);
    for step in [Step::AnswerTmf, Step::Check, Step::Mark, Step::Raise] {
        steps.push(step)?;
    }
    for queue in 0..queues {
        steps.push(Step::Direct(queue))?;
    }
    for seat in 0..seats {
        push_seat(&mut steps, seat)?;
    }
    for queue in 0..queues {
        steps.push(Step::Enter(queue))?;
    }
    for queue in 0..queues {
        steps.push(Step::Fetch(queue))?;
    }
    Ok(steps)
}

/// Adds the steps of a seat, what is nearest to its end first.
fn push_seat(steps: &mut Vec<Step>, seat: u16) -> Result<(), AllocError> {
    for step in [
        Step::Leave(seat),
        Step::Answer(seat),
        Step::Commit(seat),
        Step::Put(seat),
        Step::Resume(seat),
        Step::Take(seat),
    ] {
        steps.push(step)?;
    }
    Ok(())
}
