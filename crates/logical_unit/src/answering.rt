//! The trait by which a request is answered that its unit serves to its end.

ghost use Rattle.std.specs.Prelude.{◌≡◌, ◌≤◌, length, IfOk};
ghost use Rattle.cdb.specs.Need.{need_of};
ghost use Rattle.unit_model.specs.Endings.{Ending};
ghost use Rattle.unit_model.specs.Jobs.{PlainJob};
ghost use Rattle.command_model.specs.PlainReply.{success};
ghost use Rattle.logical_unit.specs.Endings.{ending_of_run, plain_run};

use backed_store::BlocksInPlace;
use command_model::Reply;
use foundation::{NoMemory, Record};
use task_set::Arrival;

/// Writes what answers a request, by what came of its command.
pub trait Answering {
    /// The request may be answered.
    ghost may_answer: { Self → PlainJob → Type 0 };

    /// The answer of a request that ended so was written.
    ghost answers: { Self → PlainJob → Ending → Self → Type 0 };

    /// Writes what answers a request: its command ran and has a reply, or was refused memory. Its unit calls this or
    /// `answer_read`, once.
    fn answer(&mut self, arrival: &Arrival, ran: &Result<Reply, NoMemory>)
        requires may { may_answer self.old arrival.now }
        requires fits { IfOk ran.now (λ r. length r.payload.items ≤ (need_of arrival.now.entry.command).into) }
        ensures { answers self.old arrival.now (ending_of_run (plain_run ran.now)) self.new };

    /// Writes what answers a READ that is GOOD, with the data of these blocks, and returns them as proofs see them.
    fn answer_read(&mut self, arrival: &Arrival, blocks: BlocksInPlace<'_>) -> Record<u8>
        requires may { may_answer self.old arrival.now }
        requires sends { (need_of arrival.now.entry.command).out ≡ 0 }
        requires fits { length blocks ≤ (need_of arrival.now.entry.command).into }
        ensures recorded { result.items ≡ blocks.entry }
        ensures written { answers self.old arrival.now (Ending.Replied (success arrival.now.entry.command blocks.entry)) self.new };
}
