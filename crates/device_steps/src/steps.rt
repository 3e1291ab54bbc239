//! Each event's step on the parts of the device.

ghost use Rattle.std.specs.Prelude.{◌≡◌, ◌≤◌, ◌+◌, ◌↔◌, ℕ, List, Bool, false, IsTrue, Ok, length};
ghost use Rattle.guest_mem.specs.Memory.{LiesIn};
ghost use Rattle.device_model.specs.World.{owner};
ghost use Rattle.device_model.specs.Events.{Event as AnEvent, plain_event};
ghost use Rattle.device_model.specs.Applies.{Applies};
ghost use Rattle.device_model.specs.Turns.{Turns};
ghost use Rattle.device_steps.specs.Inner.Steps.{TurnsOrWants};
ghost use Rattle.device_steps.specs.Apart.{PlainDevice, standing, Stored, TurnsInOrWants, FetchesOnce, FitsIn};
ghost use Rattle.device_steps.specs.Inner.Apart.{TurnsAlone, TurnsAloneOrWants, TurnsIn, IsSoundIn, HasFew};
ghost use Rattle.device_steps.specs.Sound.{AreFew, AreFitting};
ghost use Rattle.device_steps.specs.Inner.Sound.{IsSound};

use crate::device::Device;
use device_model::Event;
use foundation::NoMemory;
use guest_mem::{GuestMem, Memory, WritableMemory};
use phases::{
    ResetFault, ResizeFault, Visited, phase_answer_in, phase_answer_tmf_in, phase_check,
    phase_direct_in, phase_enter, phase_fetch_control_in, phase_fetch_event_in, phase_fetch_in,
    phase_hard, phase_leave, phase_prepare, phase_raise_in, phase_resize, phase_start_pages,
    phase_visit,
};

/// Returns the seat that serves a request queue.
pub(crate) fn owner(workers: u16, queue: u16) -> usize
    requires some { 1 ≤ workers }
    requires request { 2 ≤ queue }
    ensures { result ≡ owner workers queue }
{
    if workers == 1 {
        return 0;
    }
    ((queue - 2) % workers) as usize
}

/// Writes the guest's bytes at an address, where all of them lie in memory. A host calls it for a Poke. Returns false, with
/// nothing changed, where one of them would lie outside.
pub fn poke(memory: &mut GuestMem, addr: u64, bytes: &[u8]) -> bool
    ensures turns { (shared : Bool) (d : PlainDevice) → Turns (standing shared memory.old d)
        (AnEvent.Poke (record { addr = addr; bytes = bytes.now })) result (standing shared memory.new d) }
    ensures size { length memory.new ≡ length memory.old }
{
    memory.write(addr, bytes).is_ok()
}

/// Returns true if so many bytes from an address on lie inside a memory of this size.
fn lies_in(size: u64, addr: u64, len: usize) -> bool
    ensures { IsTrue result ↔ LiesIn size addr len }
{
    addr <= size && len as u64 <= size - addr
}

/// Writes bytes at an address of any memory, as `poke` does. Called in a phase of its own.
pub fn poke_in<M: WritableMemory>(memory: &mut M, addr: u64, bytes: &[u8]) -> bool
    ensures turns { (d : PlainDevice) → TurnsIn M.shared (M.may_be memory.old) (M.may_be memory.new)
        (Stored M.stored M.storing memory.old memory.new) d
        (AnEvent.Poke (record { addr = addr; bytes = bytes.now })) result d }
    ensures size { M.extent memory.new ≡ M.extent memory.old }
{
    if !lies_in(memory.size(), addr, bytes.len()) {
        return false;
    }
    memory.write(addr, bytes);
    true
}

impl Device {
    /// Returns true if a queue has nothing to take from any memory, by which little more than its index is looked at. Called
    /// in a phase that wrote nothing yet, and takes one short read.
    #[inline(always)]
    pub(crate) fn is_idle_in<M: WritableMemory>(&self, memory: &mut M, number: u16) -> bool
        requires reading { M.is_open memory.old }
        requires room { M.has_room memory.old 1 }
        requires fits { FitsIn (M.extent memory.old) self.now }
        ensures room { (n : ℕ) → M.has_room memory.old (n + 1) → M.has_room memory.new n }
        ensures idle { (m : List ℕ) → M.may_be memory.new m → IsTrue result
            → Applies (standing M.shared m self.now) (AnEvent.Fetch number) → ⊥ }
        ensures stays { (m : List ℕ) → M.may_be memory.new m → M.may_be memory.old m }
        ensures stores { M.stored memory.new ≡ M.stored memory.old }
        ensures reading { M.is_open memory.new }
        ensures size { M.extent memory.new ≡ M.extent memory.old }
    {
        let at = number as usize;
        at >= self.bays.len() || self.bays[at].queue.is_idle_in(memory)
    }

    /// Has a queue take its next chain. A host calls it for a Fetch. Returns false, as each step does, where the event
    /// doesn't apply: then nothing changed. `NoMemory` where the chain was refused memory, or the queue has accepted 2^64 - 1.
    #[inline(always)]
    pub fn fetch(&mut self, memory: &mut GuestMem, number: u16) -> Result<bool, NoMemory>
        requires sound { IsSound (standing false memory.old self.old) }
        requires fits { AreFitting (standing false memory.old self.old) }
        requires few { AreFew (standing false memory.old self.old) }
        ensures turns { TurnsOrWants (standing false memory.old self.old) (AnEvent.Fetch number) result
            (standing false memory.new self.new) }
        ensures size { length memory.new ≡ length memory.old }
    {
        self.fetch_in(memory, number)
    }

    /// Has a queue take its next chain from any memory, as `fetch` does. Called in a phase that wrote nothing yet.
    pub(crate) fn fetch_in<M: WritableMemory>(
        &mut self,
        memory: &mut M,
        number: u16,
    ) -> Result<bool, NoMemory>
        requires reading { M.is_open memory.old }
        requires room { M.has_room memory.old 5 }
        requires sound { IsSoundIn M.shared (M.may_be memory.old) self.old }
        requires fits { FitsIn (M.extent memory.old) self.old }
        requires few { HasFew self.old }
        ensures turns { TurnsInOrWants M.shared (M.may_be memory.old) (M.may_be memory.new)
            (Stored M.stored M.storing memory.old memory.new) self.old (AnEvent.Fetch number) result self.new }
        ensures once { FetchesOnce M.shared M.may_be (Stored M.stored M.storing memory.old memory.new) memory.old self.old
            (AnEvent.Fetch number) result memory.new self.new }
        ensures room { (n : ℕ) → result ≡ Ok false → M.has_room memory.old (n + 2) → M.has_room memory.new n }
        ensures reading { M.is_open memory.new }
        ensures size { M.extent memory.new ≡ M.extent memory.old }
    {
        if self.is_idle_in(memory, number) {
            return Ok(false);
        }
        match number {
            0 => self.fetch_control(memory),
            1 => self.fetch_event(memory),
            _ => self.fetch_request(memory, number),
        }
    }

    /// Takes the next chain of a request queue.
    fn fetch_request<M: WritableMemory>(
        &mut self,
        memory: &mut M,
        number: u16,
    ) -> Result<bool, NoMemory>
        requires reading { M.is_open memory.old }
        requires room { M.has_room memory.old 4 }
        requires sound { IsSoundIn M.shared (M.may_be memory.old) self.old }
        requires fits { FitsIn (M.extent memory.old) self.old }
        requires request { 2 ≤ number }
        ensures turns { TurnsInOrWants M.shared (M.may_be memory.old) (M.may_be memory.new)
            (Stored M.stored M.storing memory.old memory.new) self.old (AnEvent.Fetch number) result self.new }
        ensures once { FetchesOnce M.shared M.may_be (Stored M.stored M.storing memory.old memory.new) memory.old self.old
            (AnEvent.Fetch number) result memory.new self.new }
        ensures room { (n : ℕ) → result ≡ Ok false → M.has_room memory.old (n + 1) → M.has_room memory.new n }
        ensures reading { M.is_open memory.new }
        ensures size { M.extent memory.new ≡ M.extent memory.old }
    {
        let at = number as usize;
        if at >= self.bays.len() {
            return Ok(false);
        }
        let bay = &mut self.bays[at];
        phase_fetch_in(&mut bay.queue, &mut bay.slot, memory, &self.inventory)
    }

    /// Takes the next chain of the control queue.
    fn fetch_control<M: WritableMemory>(&mut self, memory: &mut M) -> Result<bool, NoMemory>
        requires reading { M.is_open memory.old }
        requires room { M.has_room memory.old 4 }
        requires sound { IsSoundIn M.shared (M.may_be memory.old) self.old }
        requires fits { FitsIn (M.extent memory.old) self.old }
        ensures turns { TurnsInOrWants M.shared (M.may_be memory.old) (M.may_be memory.new)
            (Stored M.stored M.storing memory.old memory.new) self.old (AnEvent.Fetch 0) result self.new }
        ensures once { FetchesOnce M.shared M.may_be (Stored M.stored M.storing memory.old memory.new) memory.old self.old
            (AnEvent.Fetch 0) result memory.new self.new }
        ensures room { (n : ℕ) → result ≡ Ok false → M.has_room memory.old (n + 1) → M.has_room memory.new n }
        ensures reading { M.is_open memory.new }
        ensures size { M.extent memory.new ≡ M.extent memory.old }
    {
        if self.bays.is_empty() {
            return Ok(false);
        }
        let bay = &mut self.bays[0];
        phase_fetch_control_in(
            &mut bay.queue,
            &mut bay.slot,
            &mut self.function,
            memory,
            &self.inventory,
        )
    }

    /// Takes the next chain of the event queue.
    fn fetch_event<M: WritableMemory>(&mut self, memory: &mut M) -> Result<bool, NoMemory>
        requires reading { M.is_open memory.old }
        requires room { M.has_room memory.old 4 }
        requires sound { IsSoundIn M.shared (M.may_be memory.old) self.old }
        requires fits { FitsIn (M.extent memory.old) self.old }
        requires few { HasFew self.old }
        ensures turns { TurnsInOrWants M.shared (M.may_be memory.old) (M.may_be memory.new)
            (Stored M.stored M.storing memory.old memory.new) self.old (AnEvent.Fetch 1) result self.new }
        ensures once { FetchesOnce M.shared M.may_be (Stored M.stored M.storing memory.old memory.new) memory.old self.old
            (AnEvent.Fetch 1) result memory.new self.new }
        ensures room { (n : ℕ) → result ≡ Ok false → M.has_room memory.old (n + 1) → M.has_room memory.new n }
        ensures reading { M.is_open memory.new }
        ensures size { M.extent memory.new ≡ M.extent memory.old }
    {
        let bay = &mut self.bays[1];
        let _log = bay.queue.log();
        let fetched = phase_fetch_event_in(&mut bay.queue, &bay.slot, &mut self.port, memory);
        let _bytes = memory.size();
        fetched
    }

    /// Brings the request that arrived on a queue to its unit. A host calls it for an Enter.
    // As `direct`.
    #[inline(always)]
    pub fn enter(&mut self, number: u16) -> bool
        requires working { 1 ≤ self.old.workers }
        ensures { TurnsAlone self.old (AnEvent.Enter number) result self.new }
    {
        let at = number as usize;
        if number < 2 || at >= self.bays.len() {
            return false;
        }
        let Some(unit_index) = self.bays[at].slot.unit() else {
            return false;
        };
        let seat = owner(self.workers, number);
        if unit_index >= self.units.len() || seat >= self.seats.len() {
            return false;
        }
        phase_enter(
            &mut self.units[unit_index],
            &mut self.bays[at].slot,
            &mut self.seats[seat].out,
        )
    }

    /// Answers the chain that is ready on a queue. A host calls it for a Direct.
    // Within the loop over all queues the test of the slot costs no call.
    #[inline(always)]
    pub fn direct(&mut self, memory: &mut GuestMem, number: u16) -> bool
        requires sound { IsSound (standing false memory.old self.old) }
        requires fits { AreFitting (standing false memory.old self.old) }
        ensures turns { Turns (standing false memory.old self.old) (AnEvent.Direct number) result (standing false memory.new self.new) }
        ensures size { length memory.new ≡ length memory.old }
    {
        self.direct_in(memory, number)
    }

    /// Answers the chain that is ready on a queue in any memory, as `direct` does.
    // Within the loop over all queues the test of the slot costs no call.
    #[inline(always)]
    pub(crate) fn direct_in<M: WritableMemory>(&mut self, memory: &mut M, number: u16) -> bool
        requires sound { IsSoundIn M.shared (M.may_be memory.old) self.old }
        requires fits { FitsIn (M.extent memory.old) self.old }
        ensures turns { TurnsIn M.shared (M.may_be memory.old) (M.may_be memory.new)
            (Stored M.stored M.storing memory.old memory.new) self.old (AnEvent.Direct number) result self.new }
        ensures room { (n : ℕ) → n ≤ 60 → M.has_room memory.old n → M.has_room memory.new n }
        ensures reading { M.is_open memory.old → M.is_open memory.new }
        ensures size { M.extent memory.new ≡ M.extent memory.old }
    {
        let at = number as usize;
        if at >= self.bays.len() || !self.bays[at].is_direct() {
            return false;
        }
        let bay = &mut self.bays[at];
        phase_direct_in(&mut bay.queue, &mut bay.slot, memory).is_some()
    }

    /// Has a seat hand its next job off, or keep it where its list of the hand-off is full. A host calls it for a Put.
    pub fn put(&mut self, number: u16) -> bool
        requires lists { length self.old.handed_off ≡ length self.old.seats }
        ensures { TurnsAlone self.old (AnEvent.Put number) result self.new }
    {
        let at = number as usize;
        if at >= self.seats.len() || !self.seats[at].has_empty_hand() {
            return false;
        }
        let seat = &mut self.seats[at];
        let Some(job) = seat.next() else {
            return false;
        };
        let Err(back) = self.handed_off.put(at, job) else {
            return true;
        };
        seat.hold(back);
        true
    }

    /// Has a worker take a job from the nearest list of the hand-off that isn't empty. A host calls it for a Take.
    pub fn take(&mut self, number: u16) -> bool
        requires lists { length self.old.handed_off ≡ length self.old.seats }
        ensures { TurnsAlone self.old (AnEvent.Take number) result self.new }
    {
        let at = number as usize;
        if number >= self.workers || at >= self.seats.len() {
            return false;
        }
        if !self.seats[at].is_idle() {
            return false;
        }
        let Some(job) = self.handed_off.take(at) else {
            return false;
        };
        self.seats[at].hold(job);
        true
    }

    /// Commits the job in a seat's hand. Puts it aside where its command needs pages of its disk that aren't in memory, and
    /// where its command ran and its reply is withheld until the host's storage has what that changed. A host calls it for a
    /// Commit.
    pub fn commit(&mut self, number: u16) -> bool
        ensures { TurnsAlone self.old (AnEvent.Commit number) result self.new }
    {
        let at = number as usize;
        if at >= self.seats.len() {
            return false;
        }
        let Some(unit_index) = self.seats[at].hand.committing_unit() else {
            return false;
        };
        if unit_index >= self.units.len() {
            return false;
        }
        if !self.jobs_aside.has_room() {
            return false;
        }
        self.jobs_aside
            .commit_or_defer(&mut self.units[unit_index], &mut self.seats[at].hand)
    }

    /// Answers the job in a seat's hand. A host calls it for an Answer.
    #[inline(always)]
    pub fn answer(&mut self, memory: &mut GuestMem, number: u16) -> bool
        requires sound { IsSound (standing false memory.old self.old) }
        requires fits { AreFitting (standing false memory.old self.old) }
        ensures turns { Turns (standing false memory.old self.old) (AnEvent.Answer number) result (standing false memory.new self.new) }
        ensures size { length memory.new ≡ length memory.old }
    {
        self.answer_in(memory, number)
    }

    /// Answers the job in a seat's hand in any memory, as `answer` does.
    pub(crate) fn answer_in<M: WritableMemory>(&mut self, memory: &mut M, number: u16) -> bool
        requires sound { IsSoundIn M.shared (M.may_be memory.old) self.old }
        requires fits { FitsIn (M.extent memory.old) self.old }
        ensures turns { TurnsIn M.shared (M.may_be memory.old) (M.may_be memory.new)
            (Stored M.stored M.storing memory.old memory.new) self.old (AnEvent.Answer number) result self.new }
        ensures room { (n : ℕ) → n ≤ 60 → M.has_room memory.old n → M.has_room memory.new n }
        ensures reading { M.is_open memory.old → M.is_open memory.new }
        ensures size { M.extent memory.new ≡ M.extent memory.old }
    {
        let at = number as usize;
        if at >= self.seats.len() {
            return false;
        }
        let Some(queue) = self.seats[at].hand.answering_queue() else {
            return false;
        };
        if queue as usize >= self.bays.len() {
            return false;
        }
        phase_answer_in(
            &mut self.bays[queue as usize].queue,
            memory,
            &mut self.seats[at].hand,
        )
        .is_some()
    }

    /// Has the task in a seat's hand leave. A host calls it for a Leave.
    pub fn leave(&mut self, number: u16) -> bool
        ensures { TurnsAlone self.old (AnEvent.Leave number) result self.new }
    {
        let at = number as usize;
        if at >= self.seats.len() {
            return false;
        }
        let Some(unit_index) = self.seats[at].hand.leaving_unit() else {
            return false;
        };
        if unit_index >= self.units.len() {
            return false;
        }
        let seat = &mut self.seats[at];
        phase_leave(&mut self.units[unit_index], &mut seat.hand, &mut seat.out)
    }

    /// Has the open function mark its next unit, or look at it. A mark has the jobs that wait for their disks tried again. A host
    /// calls it for a Mark.
    pub fn mark(&mut self) -> bool
        ensures { TurnsAlone self.old AnEvent.Mark result self.new }
    {
        let Some(open) = &mut self.function else {
            return false;
        };
        let Some(unit_index) = open.function.next_unit() else {
            return false;
        };
        if unit_index >= self.units.len() || self.seats.is_empty() {
            return false;
        }
        match phase_visit(
            &mut self.units[unit_index],
            &self.inventory,
            open,
            &mut self.seats[0].out,
        ) {
            Visited::Nothing => return false,
            Visited::Other => return true,
            Visited::Marked => {}
        }
        self.jobs_aside.wake();
        true
    }

    /// Has the open function see that its first mark is clear. A host calls it for a Check.
    pub fn check(&mut self) -> bool
        ensures { TurnsAlone self.old AnEvent.Check result self.new }
    {
        let Some(open) = &mut self.function else {
            return false;
        };
        let Some(mark) = open.function.waits_for() else {
            return false;
        };
        if mark.unit >= self.units.len() {
            return false;
        }
        phase_check(&self.units[mark.unit], &self.inventory, open)
    }

    /// Makes the pages of the WRITE in a seat's hand, ahead of its commit. A host calls it for a Prepare. Nothing changes
    /// that anybody sees.
    pub fn prepare(&mut self, number: u16) -> bool
        ensures { TurnsAlone self.old (AnEvent.Prepare number) result self.new }
    {
        let at = number as usize;
        if at >= self.seats.len() {
            return false;
        }
        let Some(unit_index) = self.seats[at].hand.committing_unit() else {
            return false;
        };
        if unit_index >= self.units.len() {
            return false;
        }
        let Some(started) = phase_start_pages(&mut self.units[unit_index], &self.seats[at].hand)
        else {
            return false;
        };
        phase_prepare(&mut self.seats[at].hand, started);
        false
    }

    /// Answers the open function. A host calls it for an AnswerTmf.
    #[inline(always)]
    pub fn answer_tmf(&mut self, memory: &mut GuestMem) -> bool
        requires sound { IsSound (standing false memory.old self.old) }
        requires fits { AreFitting (standing false memory.old self.old) }
        ensures turns { Turns (standing false memory.old self.old) AnEvent.AnswerTmf result (standing false memory.new self.new) }
        ensures size { length memory.new ≡ length memory.old }
    {
        self.answer_tmf_in(memory)
    }

    /// Answers the open function in any memory, as `answer_tmf` does.
    pub(crate) fn answer_tmf_in<M: WritableMemory>(&mut self, memory: &mut M) -> bool
        requires sound { IsSoundIn M.shared (M.may_be memory.old) self.old }
        requires fits { FitsIn (M.extent memory.old) self.old }
        ensures turns { TurnsIn M.shared (M.may_be memory.old) (M.may_be memory.new)
            (Stored M.stored M.storing memory.old memory.new) self.old AnEvent.AnswerTmf result self.new }
        ensures room { (n : ℕ) → n ≤ 60 → M.has_room memory.old n → M.has_room memory.new n }
        ensures reading { M.is_open memory.old → M.is_open memory.new }
        ensures size { M.extent memory.new ≡ M.extent memory.old }
    {
        if self.bays.is_empty() {
            return false;
        }
        phase_answer_tmf_in(&mut self.bays[0].queue, memory, &mut self.function)
    }

    /// Resets a unit for the operator, and has the jobs that wait for their disks tried again. A host calls it for a Hard. `NoMemory`
    /// where the step or its event was refused memory.
    pub fn hard(&mut self, unit_index: u16) -> Result<bool, NoMemory>
        requires seated { length self.old.seats ≡ self.old.workers + 1 }
        ensures { TurnsAloneOrWants self.old (AnEvent.Hard unit_index) result self.new }
    {
        let (at, seat) = (unit_index as usize, self.workers as usize);
        if at >= self.units.len() {
            return Ok(false);
        }
        match phase_hard(
            &mut self.units[at],
            &self.inventory,
            at,
            &mut self.seats[seat].out,
            &mut self.waiting,
        ) {
            Ok(true) => {}
            Ok(false) => return Ok(false),
            Err(ResetFault::WrongUnit) => return Ok(false),
            Err(ResetFault::NoMemory) => return Err(NoMemory),
        }
        self.jobs_aside.wake();
        Ok(true)
    }

    /// Gives the unit at an index so many blocks; nothing changes where there is none, or no unit may have so many. A host
    /// calls it for a Resize. `NoMemory` where the step or its event was refused memory.
    pub fn resize(&mut self, unit_index: u16, blocks: u64) -> Result<bool, NoMemory>
        ensures { TurnsAloneOrWants self.old (AnEvent.Resize unit_index blocks) result self.new }
    {
        let at = unit_index as usize;
        if at >= self.units.len() {
            return Ok(false);
        }
        let told = self.tells_changes;
        match phase_resize(
            &mut self.units[at],
            &self.inventory,
            at,
            blocks,
            told,
            &mut self.waiting,
        ) {
            Ok(changed) => Ok(changed),
            Err(ResizeFault::WrongUnit) => Ok(false),
            Err(ResizeFault::BadCapacity) => Ok(false),
            Err(ResizeFault::NoMemory) => Err(NoMemory),
        }
    }

    /// Gives the oldest event that waits to the guest, or misses it. A host calls it for a Raise.
    #[inline(always)]
    pub fn raise(&mut self, memory: &mut GuestMem) -> bool
        requires sound { IsSound (standing false memory.old self.old) }
        requires fits { AreFitting (standing false memory.old self.old) }
        requires few { AreFew (standing false memory.old self.old) }
        ensures turns { Turns (standing false memory.old self.old) AnEvent.Raise result (standing false memory.new self.new) }
        ensures size { length memory.new ≡ length memory.old }
    {
        self.raise_in(memory)
    }

    /// Gives the oldest event that waits in any memory, as `raise` does.
    pub(crate) fn raise_in<M: WritableMemory>(&mut self, memory: &mut M) -> bool
        requires sound { IsSoundIn M.shared (M.may_be memory.old) self.old }
        requires fits { FitsIn (M.extent memory.old) self.old }
        requires few { HasFew self.old }
        ensures turns { TurnsIn M.shared (M.may_be memory.old) (M.may_be memory.new)
            (Stored M.stored M.storing memory.old memory.new) self.old AnEvent.Raise result self.new }
        ensures room { (n : ℕ) → n ≤ 60 → M.has_room memory.old n → M.has_room memory.new n }
        ensures reading { M.is_open memory.old → M.is_open memory.new }
        ensures size { M.extent memory.new ≡ M.extent memory.old }
    {
        let raised = phase_raise_in(
            &mut self.bays[1].queue,
            memory,
            &mut self.port,
            &mut self.waiting,
        );
        let _bytes = memory.size();
        raised
    }

    /// Has the jobs that wait for their disks tried again. A host calls it for a Wake.
    pub fn wake(&mut self) -> bool
        ensures { TurnsAlone self.old AnEvent.Wake result self.new }
    {
        self.jobs_aside.wake()
    }

    /// Has a worker take the first job that is to be tried again. A host calls it for a Resume.
    pub fn resume(&mut self, number: u16) -> bool
        ensures { TurnsAlone self.old (AnEvent.Resume number) result self.new }
    {
        let at = number as usize;
        if at >= self.seats.len() || number >= self.workers {
            return false;
        }
        if !self.seats[at].has_empty_hand() {
            return false;
        }
        let Some(job) = self.jobs_aside.next() else {
            return false;
        };
        self.seats[at].hold(job);
        true
    }

    /// Takes one event in any memory. A host calls it in a phase that wrote nothing yet. Returns true if it changed
    /// something. `NoMemory` where a Fetch, a Hard or a Resize was refused memory, which changed nothing.
    pub fn step_in<M: WritableMemory>(
        &mut self,
        memory: &mut M,
        event: &Event,
    ) -> Result<bool, NoMemory>
        requires reading { M.is_open memory.old }
        requires room { M.has_room memory.old 5 }
        requires sound { IsSoundIn M.shared (M.may_be memory.old) self.old }
        requires fits { FitsIn (M.extent memory.old) self.old }
        requires few { HasFew self.old }
        requires working { 1 ≤ self.old.workers }
        requires seated { length self.old.seats ≡ self.old.workers + 1 }
        requires lists { length self.old.handed_off ≡ length self.old.seats }
        ensures turns { TurnsInOrWants M.shared (M.may_be memory.old) (M.may_be memory.new)
            (Stored M.stored M.storing memory.old memory.new) self.old (plain_event event.now) result self.new }
        ensures once { FetchesOnce M.shared M.may_be (Stored M.stored M.storing memory.old memory.new) memory.old self.old
            (plain_event event.now) result memory.new self.new }
        ensures size { M.extent memory.new ≡ M.extent memory.old }
    {
        match event {
            Event::Poke(addr, bytes) => Ok(poke_in(memory, *addr, bytes.as_slice())),
            Event::Fetch(queue) => self.fetch_in(memory, *queue),
            Event::Enter(queue) => Ok(self.enter(*queue)),
            Event::Direct(queue) => Ok(self.direct_in(memory, *queue)),
            Event::Put(seat) => Ok(self.put(*seat)),
            Event::Take(seat) => Ok(self.take(*seat)),
            Event::Prepare(seat) => Ok(self.prepare(*seat)),
            Event::Commit(seat) => Ok(self.commit(*seat)),
            Event::Answer(seat) => Ok(self.answer_in(memory, *seat)),
            Event::Leave(seat) => Ok(self.leave(*seat)),
            Event::Mark => Ok(self.mark()),
            Event::Check => Ok(self.check()),
            Event::AnswerTmf => Ok(self.answer_tmf_in(memory)),
            Event::Hard(unit_index) => self.hard(*unit_index),
            Event::Resize(unit_index, blocks) => self.resize(*unit_index, *blocks),
            Event::Raise => Ok(self.raise_in(memory)),
            Event::Wake => Ok(self.wake()),
            Event::Resume(seat) => Ok(self.resume(*seat)),
        }
    }
}
