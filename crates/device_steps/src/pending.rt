//! Looks whether an event of the order applies, and changes nothing.

ghost use Rattle.std.specs.Prelude.{◌≡◌, ◌<◌, ◌≤◌, ◌+◌, ℕ, Bool, List, true, false, length};
ghost use Rattle.device_model.specs.Order.{of_seat, IsQuietOf, NoneApplies};
ghost use Rattle.device_model.specs.Events.{Event as AnEvent};
ghost use Rattle.device_model.specs.Applies.{Applies};
ghost use Rattle.device_model.specs.Event.Fetch.{IsOpenTo};
ghost use Rattle.device_steps.specs.Inner.Cursors.{Denies, FindsIn, of_function, NoDirect, NoSeat, NoEnter, NoFetch};
ghost use Rattle.device_steps.specs.Settling.{asks};
ghost use Rattle.device_steps.specs.Apart.{standing, FitsIn};
ghost use Rattle.device_steps.specs.Inner.Apart.{HasFew};

use crate::device::Device;
use crate::service::is_asked;
use guest_mem::Memory;

impl Device {
    /// Returns true if an event of the order applies, with new chains of the queues alone that are asked. A host calls it
    /// in a phase that wrote nothing yet, to say whether anything is left.
    pub fn has_step<M: Memory>(&self, memory: &mut M, queues: u32) -> bool
        requires reading { M.is_open memory.old }
        requires room { M.has_room memory.old 20 }
        requires few { HasFew self.now }
        requires fits { FitsIn (M.extent memory.old) self.now }
        ensures denies { FindsIn M.shared (M.may_be memory.old) (M.may_be memory.new)
            (λ w. Denies (IsQuietOf (asks queues) w) result) self.now }
        ensures stores { M.stored memory.new ≡ M.stored memory.old }
        ensures size { M.extent memory.new ≡ M.extent memory.old }
    {
        if self.function_goes_on() {
            return true;
        }
        if self.waiting.oldest().is_some() {
            return true;
        }
        if self.has_answer() {
            return true;
        }
        if self.has_turn() {
            return true;
        }
        if self.has_arrival() {
            return true;
        }
        self.has_chain(memory, queues)
    }

    /// Returns true if the open function has a unit left to visit, is to be answered, or finds its next mark clear.
    fn function_goes_on(&self) -> bool
        ensures { (shared : Bool) (m : List ℕ) → Denies (NoneApplies (standing shared m self.now) of_function) result }
    {
        let Some(open) = &self.function else {
            return false;
        };
        if open.function.next_unit().is_some() {
            return true;
        }
        let Some(mark) = open.function.waits_for() else {
            return true;
        };
        if mark.unit >= self.units.len() {
            return false;
        }
        self.units[mark.unit].clear_of(mark.place)
    }

    /// Returns true if a queue has a chain that is ready to be answered.
    fn has_answer(&self) -> bool
        ensures { (shared : Bool) (m : List ℕ) → Denies (NoDirect (standing shared m self.now)) result }
    {
        for number in 0..self.bays.len() {
            if self.bays[number].is_direct() {
                return true;
            }
        }
        false
    }

    /// Returns true if a seat has a step to take.
    fn has_turn(&self) -> bool
        requires few { length self.now.seats ≤ 9 }
        ensures { (shared : Bool) (m : List ℕ) → Denies (NoSeat (standing shared m self.now)) result }
    {
        for number in 0..self.seats.len() {
            if self.seat_goes_on(number as u16) {
                return true;
            }
        }
        false
    }

    /// Returns true if this seat has a step to take: by its hand, with a job to hand off, with one to try again, or with one
    /// to take.
    fn seat_goes_on(&self, number: u16) -> bool
        requires there { number < length self.now.seats }
        ensures { (shared : Bool) (m : List ℕ) → Denies (NoneApplies (standing shared m self.now) (of_seat number)) result }
    {
        let seat = &self.seats[number as usize];
        if !seat.has_empty_hand() {
            return true;
        }
        if !seat.is_idle() {
            return true;
        }
        if number >= self.workers {
            return false;
        }
        if self.jobs_aside.has_woken() {
            return true;
        }
        self.handed_off.has_job()
    }

    /// Returns true if a request arrived on a queue.
    fn has_arrival(&self) -> bool
        ensures { (shared : Bool) (m : List ℕ) → Denies (NoEnter (standing shared m self.now)) result }
    {
        for number in 0..self.bays.len() {
            if self.bays[number].has_request() {
                return true;
            }
        }
        false
    }

    /// Returns true if a queue that is asked has a chain for the device.
    fn has_chain<M: Memory>(&self, memory: &mut M, queues: u32) -> bool
        requires reading { M.is_open memory.old }
        requires room { M.has_room memory.old 20 }
        requires few { HasFew self.now }
        requires fits { FitsIn (M.extent memory.old) self.now }
        ensures denies { FindsIn M.shared (M.may_be memory.old) (M.may_be memory.new)
            (λ w. Denies (NoFetch (asks queues) w) result) self.now }
        ensures stores { M.stored memory.new ≡ M.stored memory.old }
        ensures size { M.extent memory.new ≡ M.extent memory.old }
    {
        for number in 0..self.bays.len() {
            if self.queue_goes_on(memory, number as u16, queues) {
                return true;
            }
        }
        false
    }

    /// Returns true if no chain is taken from this queue now: from the control queue, while a function is open.
    fn is_closed_to(&self, number: u16) -> bool
        ensures { (shared : Bool) (m : List ℕ) → Denies (IsOpenTo (standing shared m self.now) number) result }
    {
        if number != 0 {
            return false;
        }
        self.function.is_some()
    }

    /// Returns true if this queue is asked and has a chain for the device.
    fn queue_goes_on<M: Memory>(&self, memory: &mut M, number: u16, queues: u32) -> bool
        requires reading { M.is_open memory.old }
        requires room { M.has_room memory.old 1 }
        requires few { HasFew self.now }
        requires fits { FitsIn (M.extent memory.old) self.now }
        requires there { number < length self.now.queues }
        ensures denies { FindsIn M.shared (M.may_be memory.old) (M.may_be memory.new)
            (λ w. Denies (asks queues number ≡ true → Applies w (AnEvent.Fetch number) → ⊥) result) self.now }
        ensures stores { M.stored memory.new ≡ M.stored memory.old }
        ensures room { (n : ℕ) → M.has_room memory.old (n + 1) → M.has_room memory.new n }
        ensures reading { M.is_open memory.new }
        ensures size { M.extent memory.new ≡ M.extent memory.old }
    {
        if !is_asked(queues, number) {
            return false;
        }
        if self.is_closed_to(number) {
            return false;
        }
        self.bays[number as usize].has_chain_in(memory)
    }
}
