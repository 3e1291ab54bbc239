//! The jobs that go from hand to hand until a request is answered.

ghost use Rattle.std.specs.Prelude.{◌≡◌, ◌<◌, [], ◌∷◌, ◌++◌, length, IfOk, drop, slice_get};
ghost use Rattle.std.specs.Prelude.{◌+◌, ◌≤◌, ◌^◌};
ghost use Rattle.cdb.specs.Need.{need_of};
ghost use Rattle.scsi_codec.specs.Lun.{address_at};
ghost use Rattle.ring_core.specs.Parts.{readable_total, writable_total};
ghost use Rattle.unit_model.specs.Tasks.{entry_of};
ghost use Rattle.unit_model.specs.Inner.Jobs.{HasRoom};

use cdb::Command;
use foundation::Record;
use request_intake::{ChainLengths, TaskAttribute, UnitRequest};
use ring_core::{Chain, Ticket};
use scsi_codec::Address;
use std::alloc::{AllocError, Global};
use std::collections::VecDeque;
use std::marker::Model;

/// A request for a unit that has not entered its task set yet: its chain, and the request with its data.
/// Clauses see the job that it becomes.
#[derive(Drop)]
pub struct Arrival {
    unit: usize,
    // The number of the address that it names.
    number: u32,
    chain: Chain,
    request: UnitRequest,
}

impl Model for Arrival {
    ghost use Rattle.std.specs.Prelude.{◌<◌, ◌^◌};
    ghost use Rattle.scsi_codec.specs.Lun.{address_at};
    ghost use Rattle.unit_model.specs.Tasks.{entry_of};
    ghost use Rattle.unit_model.specs.Jobs.{PlainJob};
    ghost use Rattle.unit_model.specs.Inner.Jobs.{HasRoom};

    ghost Value = { PlainJob };

    ghost view = { λ a. record {
      unit = a.unit;
      address = address_at a.number;
      chain = a.chain;
      entry = entry_of a.chain.ticket a.request;
    } };

    ghost invariant = { λ a. (HasRoom a.chain a.request.command) × (a.number < 2 ^ 24) };
}

impl Arrival {
    /// Makes the request of a chain, for the unit at this index of the inventory, which has the address of this number
    /// there. The chain has room for its answer: the decision that the request goes to a unit tested that.
    #[inline(always)]
    pub fn new(unit: usize, number: u32, chain: Chain, request: UnitRequest) -> Arrival
        requires number { number < 2 ^ 24 }
        requires room { HasRoom chain request.command }
        ensures { result ≡ record {
          unit = unit;
          address = address_at number;
          chain = chain;
          entry = entry_of chain.ticket request;
        } }
    {
        Arrival {
            unit,
            number,
            chain,
            request,
        }
    }

    /// Returns the index of its unit in the inventory.
    pub fn unit(&self) -> usize
        ensures { result ≡ self.now.unit }
    {
        self.unit
    }

    /// Returns the number of the address of the unit that it names.
    #[inline(always)]
    pub fn number(&self) -> u32
        ensures { address_at result ≡ self.now.address }
    {
        self.number
    }

    /// Returns the ticket of its chain.
    pub fn ticket(&self) -> Ticket
        ensures chain { result ≡ self.now.chain.ticket }
        ensures entry { result ≡ self.now.entry.ticket }
    {
        self.chain.ticket()
    }

    /// Returns its request.
    pub fn request(&self) -> &UnitRequest
        ensures { self.now.entry ≡ entry_of self.now.chain.ticket result.now }
    {
        &self.request
    }

    /// Returns the command.
    pub fn command(&self) -> Command
        ensures { result ≡ self.now.entry.command }
    {
        self.request.command()
    }

    /// Returns true if the command asks for the medium itself.
    pub fn asks_medium(&self) -> bool
        ensures { result ≡ self.now.entry.asks_medium }
    {
        self.request.asks_medium()
    }

    /// Returns the data that the command takes from the driver: exactly as many bytes as it needs.
    #[inline(always)]
    pub fn data(&self) -> &[u8]
        ensures data { result.now ≡ self.now.entry.data_out }
        ensures len { length result.now ≡ (need_of self.now.entry.command).out }
    {
        self.request.data()
    }

    /// Returns its chain.
    pub fn chain(&self) -> &Chain
        ensures { result.now ≡ self.now.chain }
    {
        &self.chain
    }

    /// Returns how many bytes of its chain may be read, and how many written: there is room for the answer.
    pub fn lengths(&self) -> ChainLengths
        ensures readable { result.readable ≡ readable_total self.now.chain.parts }
        ensures writable { result.writable ≡ writable_total self.now.chain.parts }
        ensures sum { result.readable + result.writable ≤ 2 ^ 32 }
        ensures room { HasRoom self.now.chain self.now.entry.command }
    {
        let _parts = self.chain.parts();
        ChainLengths {
            readable: self.chain.readable_len(),
            writable: self.chain.writable_len(),
        }
    }

    /// Returns its chain, to be completed. The room of its data stays with the chain, for a later one of its queue.
    #[inline(always)]
    pub fn into_chain(self) -> Chain
        ensures { result ≡ self.chain }
    {
        let Arrival {
            mut chain,
            request,
            ..
        } = self;
        if let Some(room) = request.into_room() {
            chain.return_room(room);
        }
        chain
    }

    /// Returns the job, and the request, whose data the task keeps from here on.
    pub(crate) fn into_parts(self) -> (Job, UnitRequest)
        ensures job { result.0 ≡ self }
        ensures request { self.entry ≡ entry_of self.chain.ticket result.1 }
    {
        let Arrival {
            unit,
            number,
            chain,
            request,
        } = self;
        let job = Job {
            unit,
            address: Address::of_number(number),
            chain,
            id: request.id(),
            attribute: request.attribute(),
            command: request.command(),
            asks_medium: request.asks_medium(),
            data_out: Record::new().and_all(request.data()),
        };
        (job, request)
    }

    /// Makes the job of a request that doesn't enter. Its data are let go.
    pub fn into_job(self) -> Job
        ensures { result ≡ self }
    {
        let (job, _) = self.into_parts();
        job
    }
}

/// A request for a unit with its chain, which the owner of the job will answer. The task has the data that the command
/// takes. A job only knows, in proofs, what they were.
#[derive(Drop)]
pub struct Job {
    unit: usize,
    address: Address,
    chain: Chain,
    id: u64,
    attribute: TaskAttribute,
    command: Command,
    asks_medium: bool,
    data_out: Record<u8>,
}

impl Model for Job {
    ghost use Rattle.unit_model.specs.Jobs.{PlainJob};
    ghost use Rattle.unit_model.specs.Inner.Jobs.{HasRoom};

    ghost Value = { PlainJob };

    ghost view = { λ j. record {
      unit = j.unit;
      address = j.address;
      chain = j.chain;
      entry = record {
        ticket = j.chain.ticket;
        id = j.id;
        attribute = j.attribute;
        command = j.command;
        asks_medium = j.asks_medium;
        data_out = j.data_out.items;
      };
    } };

    ghost invariant = { λ j. HasRoom j.chain j.command };
}

impl Job {
    /// Returns the index of its unit in the inventory.
    pub fn unit(&self) -> usize
        ensures { result ≡ self.now.unit }
    {
        self.unit
    }

    /// Returns the ticket of its chain.
    pub fn ticket(&self) -> Ticket
        ensures chain { result ≡ self.now.chain.ticket }
        ensures entry { result ≡ self.now.entry.ticket }
    {
        self.chain.ticket()
    }

    /// Returns the driver's identifier of the command.
    pub fn id(&self) -> u64
        ensures { result ≡ self.now.entry.id }
    {
        self.id
    }

    /// Returns when its task may run beside others.
    pub fn attribute(&self) -> TaskAttribute
        ensures { result ≡ self.now.entry.attribute }
    {
        self.attribute
    }

    /// Returns the command.
    pub fn command(&self) -> Command
        ensures { result ≡ self.now.entry.command }
    {
        self.command
    }

    /// Returns true if the command asks for the medium itself.
    pub fn asks_medium(&self) -> bool
        ensures { result ≡ self.now.entry.asks_medium }
    {
        self.asks_medium
    }

    /// Returns its chain.
    pub fn chain(&self) -> &Chain
        ensures { result.now ≡ self.now.chain }
    {
        &self.chain
    }

    /// Returns how many bytes of its chain may be read, and how many written: there is room for the answer.
    pub fn lengths(&self) -> ChainLengths
        ensures readable { result.readable ≡ readable_total self.now.chain.parts }
        ensures writable { result.writable ≡ writable_total self.now.chain.parts }
        ensures sum { result.readable + result.writable ≤ 2 ^ 32 }
        ensures room { HasRoom self.now.chain self.now.entry.command }
    {
        let _parts = self.chain.parts();
        ChainLengths {
            readable: self.chain.readable_len(),
            writable: self.chain.writable_len(),
        }
    }

    /// Returns its chain, to be completed.
    pub fn into_chain(self) -> Chain
        ensures { result ≡ self.chain }
    {
        let Job { chain, .. } = self;
        chain
    }
}

/// Jobs in order, at most as many as a limit, for which room was made once.
#[derive(Drop)]
pub struct JobList {
    jobs: VecDeque<Job>,
    limit: usize,
}

impl Model for JobList {
    ghost use Rattle.std.specs.Prelude.{◌≤◌};
    ghost use Rattle.std.specs.VecDeque.{deque_capacity, deque_len};
    ghost use Rattle.unit_model.specs.Jobs.{Jobs};

    ghost Value = { Jobs };

    ghost view = { λ l. record { jobs = l.jobs.items; limit = l.limit } };

    ghost invariant = { λ l. (deque_len l.jobs ≤ l.limit) × (l.limit ≤ deque_capacity l.jobs) };
}

impl JobList {
    /// Makes a list of no jobs, with room for as many as the limit. Only this call takes memory.
    pub fn with_limit(alloc: Global, limit: usize) -> Result<JobList, AllocError>
        ensures { IfOk result (λ l. l ≡ record { jobs = []; limit = limit }) }
    {
        Ok(JobList {
            jobs: VecDeque::with_capacity(alloc, limit)?,
            limit,
        })
    }

    /// Returns how many jobs there are.
    pub fn len(&self) -> usize
        ensures { result ≡ length self.now.jobs }
    {
        self.jobs.len()
    }

    /// Returns how many jobs there may be.
    pub fn limit(&self) -> usize
        ensures { result ≡ self.now.limit }
    {
        self.limit
    }

    /// Puts a job behind the others. There is room for it, which the caller sees to.
    pub fn push(&mut self, job: Job)
        requires { length self.old.jobs < self.old.limit }
        ensures { self.new ≡ record self.old { jobs = self.old.jobs ++ job ∷ [] } }
    {
        match self.jobs.push_back(job) {
            Ok(()) => {}
            Err(_) => unreachable!(),
        }
    }

    /// Takes the first job; `None` where there is none.
    pub fn next(&mut self) -> Option<Job>
        ensures first { result ≡ slice_get self.old.jobs 0 }
        ensures rest { self.new ≡ record self.old { jobs = drop 1 self.old.jobs } }
    {
        self.jobs.pop_front()
    }
}
