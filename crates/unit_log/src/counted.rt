//! The steps as proofs see them, and how much was done by them.

ghost use Rattle.std.specs.Prelude.{◌≡◌, [], ◌∷◌, ◌++◌};
ghost use Rattle.unit_model.specs.Counts.{with_reply, with_step, counts_of};
ghost use Rattle.unit_log.specs.Recorded.{step_recorded, steps_recorded};

use crate::recorded::{RecordedReply, RecordedStep};
use command_model::{CHECK_CONDITION, GOOD};
use foundation::Record;
use std::marker::Model;
use unit_model::Counts;

/// The steps of a history, which only proofs see, and how much the unit did by them.
#[derive(Drop)]
pub(crate) struct CountedSteps {
    steps: Record<RecordedStep>,
    counts: Counts,
}

impl Model for CountedSteps {
    ghost use Rattle.std.specs.Prelude.{◌≡◌};
    ghost use Rattle.unit_model.specs.Counts.{counts_of};
    ghost use Rattle.unit_log.specs.Recorded.{Counted, steps_recorded};

    ghost Value = { Counted };

    ghost view = { λ c. record { items = c.steps.items } };

    ghost invariant = { λ c. c.counts ≡ counts_of (steps_recorded c.steps.items) };
}

/// Counts a command that was answered so.
#[inline(always)]
fn count_reply(counts: &mut Counts, reply: &RecordedReply)
    ensures { counts.new ≡ with_reply reply.now counts.old }
{
    let good = reply.status() == GOOD;
    let check_condition = reply.status() == CHECK_CONDITION;
    counts.good = counts.good.wrapping_add(u64::from(good));
    counts.check_conditions = counts
        .check_conditions
        .wrapping_add(u64::from(check_condition));
    counts.data_out = counts.data_out.wrapping_add(reply.data_out());
    counts.data_in = counts.data_in.wrapping_add(reply.data_in());
}

/// Counts a step.
#[inline(always)]
fn count(counts: &mut Counts, step: &RecordedStep)
    ensures { counts.new ≡ with_step (step_recorded step.now) counts.old }
{
    match step {
        RecordedStep::Commit(_, reply) => count_reply(counts, reply),
        RecordedStep::Busy(_) => counts.busy = counts.busy.wrapping_add(1),
        RecordedStep::Full(_) => counts.full = counts.full.wrapping_add(1),
        RecordedStep::Leave(_) => counts.left = counts.left.wrapping_add(1),
        RecordedStep::Enter(_)
        | RecordedStep::Abort(_)
        | RecordedStep::Reset(_)
        | RecordedStep::Resize(_) => {}
    }
}

impl CountedSteps {
    /// Begins with no steps.
    pub(crate) fn new() -> CountedSteps
        ensures { result.items ≡ [] }
    {
        CountedSteps {
            steps: Record::new(),
            counts: Counts {
                left: 0,
                full: 0,
                good: 0,
                check_conditions: 0,
                busy: 0,
                data_out: 0,
                data_in: 0,
            },
        }
    }

    /// Counts one more step.
    #[inline(always)]
    pub(crate) fn push(&mut self, step: &RecordedStep)
        ensures { self.new.items ≡ self.old.items ++ step.now ∷ [] }
    {
        count(&mut self.counts, step);
        self.steps.push(step);
    }

    /// Returns how much was done by them.
    pub(crate) fn counts(&self) -> Counts
        ensures { result ≡ counts_of (steps_recorded self.now.items) }
    {
        self.counts
    }
}
