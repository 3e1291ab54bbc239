//! A chain that is to be answered.

ghost use Rattle.std.specs.Prelude.{◌≡◌, ◌≤◌, ℕ, List, length};
ghost use Rattle.ring_core.specs.Parts.{writable_total};
ghost use Rattle.device_model.specs.Parts.{Outcome, lengths_of, bytes_of};
ghost use Rattle.phases.specs.DirectChain.{refused_as, outcome_of};
ghost use Rattle.phases.specs.DirectChain.{cause_for};

use crate::note::Cause;
use crate::refusal::Refusal;
use command_model::{BUSY, TASK_SET_FULL};
use request_intake::DirectAnswer;
use ring_core::Chain;
use scsi_codec::ResponseCode;
use std::marker::Model;
use task_set::Job;

/// A chain that is to be answered, with its answer.
#[derive(Drop)]
pub struct DirectChain {
    chain: Chain,
    answer: DirectAnswer,
    refusal: Option<Refusal>,
}

impl Model for DirectChain {
    ghost use Rattle.std.specs.Prelude.{◌≡◌, ◌≤◌, length};
    ghost use Rattle.ring_core.specs.Parts.{writable_total};
    ghost use Rattle.device_model.specs.Parts.{lengths_of, bytes_of};
    ghost use Rattle.phases.specs.DirectChain.{PlainDirectChain, outcome_of};

    ghost Value = { PlainDirectChain };

    ghost view = { λ r. record { chain = r.chain; outcome = outcome_of r.answer r.refusal } };

    ghost invariant = { λ r. (bytes_of (lengths_of r.chain) (outcome_of r.answer r.refusal) ≡ r.answer)
        × (length r.answer ≤ writable_total r.chain.parts) };
}

/// Returns why a chain that is ready gets no receipt.
fn cause_of(refusal: Option<Refusal>) -> Cause
    ensures { (bytes : List ℕ) → result ≡ cause_for (outcome_of bytes refusal) }
{
    match refusal {
        None => Cause::Direct,
        Some(Refusal::Full) => Cause::Full,
        Some(Refusal::Busy) => Cause::Busy,
        Some(Refusal::Stale) => Cause::Stale,
    }
}

impl DirectChain {
    /// Makes a chain with the answer that was decided when it was fetched.
    pub(crate) fn decided(chain: Chain, answer: DirectAnswer) -> DirectChain
        requires { length answer ≤ writable_total chain.parts }
        ensures { result ≡ record { chain = chain; outcome = Outcome.Decided answer } }
    {
        DirectChain {
            chain,
            answer,
            refusal: None,
        }
    }

    /// Makes the chain of a job that its unit refused, with what tells so. The phase in which the request comes to its
    /// unit calls.
    pub fn refused(job: Job, refusal: Refusal) -> DirectChain
        ensures { result ≡ record { chain = job.chain; outcome = Outcome.Ended (refused_as refusal) } }
    {
        let lengths = job.lengths();
        let answer = match refusal {
            Refusal::Full => DirectAnswer::of_status(&lengths, TASK_SET_FULL),
            Refusal::Busy => DirectAnswer::of_status(&lengths, BUSY),
            Refusal::Stale => DirectAnswer::failed(ResponseCode::Failure),
        };
        DirectChain {
            chain: job.into_chain(),
            answer,
            refusal: Some(refusal),
        }
    }

    /// Returns its chain, the bytes that answer it, for which there is room, and why it gets no receipt.
    pub(crate) fn into_parts(self) -> (Chain, DirectAnswer, Cause)
        ensures chain { result.0 ≡ self.chain }
        ensures answer { result.1 ≡ bytes_of (lengths_of self.chain) self.outcome }
        ensures fits { length result.1 ≤ writable_total self.chain.parts }
        ensures cause { result.2 ≡ cause_for self.outcome }
    {
        let DirectChain {
            chain,
            answer,
            refusal,
        } = self;
        (chain, answer, cause_of(refusal))
    }
}
