//! The order in which a device serves what is there: the first event of it that applies, one after another. It doesn't
//! look again at what a step can't have woken.

ghost use Rattle.std.specs.Prelude.{◌≡◌, ◌≤◌, ◌<◌, ◌+◌, ℕ, Bool, List, [], IsTrue, Ok, None, true, false, length};
ghost use Rattle.device_model.specs.Order.{of_seat};
ghost use Rattle.device_model.specs.Events.{Event as AnEvent};
ghost use Rattle.device_model.specs.Applies.{Applies};
ghost use Rattle.device_model.specs.Parts.{Hand};
ghost use Rattle.device_model.specs.Found.{HasHand};
ghost use Rattle.device_steps.specs.Inner.Cursors.{TurnsFirstIn, TurnsFirstAlone, of_function, TurnsNextIn, FetchesOn, MayServe, IsReadyIn};
ghost use Rattle.device_steps.specs.Inner.Cursors.{AtEach, FindsIn, NoStart, NoDirect, NoSeat, NoneBefore, NoneBeforeFetch, NoFetchBelow};
ghost use Rattle.device_steps.specs.Inner.Cursors.{AsksOnly, EntersNext, FetchesNext, LeavesNext};
ghost use Rattle.device_steps.specs.Settling.{asks};
ghost use Rattle.device_steps.specs.Apart.{standing, FitsIn, Stored};
ghost use Rattle.device_steps.specs.Inner.Sound.{IsSound};

use crate::cursor::{
    AT_ONCE, Cursor, Progress, first_direct, first_enter, first_seat, is_fetch, is_start, one,
    progress_of,
};
use crate::device::Device;
use crate::seat::Stage;
use crate::sound::all_are_sound;
use crate::steps::owner;
use foundation::NoMemory;
use guest_mem::{Memory, WritableMemory};
use phases::{Slot, Taken, serve_request, take_request};
use scsi_codec::{CONTROL_QUEUE, EVENT_QUEUE, FIRST_REQUEST_QUEUE};

/// Returns true if the bit of a queue is set.
#[inline(always)]
pub fn is_asked(queues: u32, number: u16) -> bool
    requires { number < 32 }
    ensures { result ≡ asks queues number }
{
    queues >> number & 1 == 1
}

impl Device {
    /// Takes a step of the open function.
    fn turn_function<M: WritableMemory>(&mut self, memory: &mut M) -> bool
        requires ready { IsReadyIn (M.is_open memory.old) M.shared (M.may_be memory.old) (M.extent memory.old) self.old }
        ensures turns { TurnsFirstIn M.shared (M.may_be memory.old) (M.may_be memory.new)
            (Stored M.stored M.storing memory.old memory.new) of_function self.old result self.new }
        ensures room { (n : ℕ) → n ≤ 60 → M.has_room memory.old n → M.has_room memory.new n }
        ensures reading { M.is_open memory.new }
        ensures size { M.extent memory.new ≡ M.extent memory.old }
    {
        if self.function.is_none() {
            return false;
        }
        let answered = self.answer_tmf_in(memory);
        let _bytes = memory.size();
        if answered {
            return true;
        }
        if self.check() {
            return true;
        }
        self.mark()
    }

    /// Takes a step of a seat: which one is seen by its hand alone, unless that is empty.
    fn turn_seat<M: WritableMemory>(&mut self, memory: &mut M, number: u16) -> bool
        requires ready { IsReadyIn (M.is_open memory.old) M.shared (M.may_be memory.old) (M.extent memory.old) self.old }
        ensures turns { TurnsFirstIn M.shared (M.may_be memory.old) (M.may_be memory.new)
            (Stored M.stored M.storing memory.old memory.new) (of_seat number) self.old result self.new }
        ensures room { (n : ℕ) → n ≤ 60 → M.has_room memory.old n → M.has_room memory.new n }
        ensures reading { M.is_open memory.new }
        ensures size { M.extent memory.new ≡ M.extent memory.old }
    {
        let at = number as usize;
        if at >= self.seats.len() {
            return false;
        }
        match self.seats[at].stage() {
            Stage::Answered => self.leave(number),
            Stage::Done => {
                let answered = self.answer_in(memory, number);
                let _bytes = memory.size();
                answered
            }
            Stage::Taken => self.commit(number),
            Stage::Empty => self.turn_free(number),
        }
    }

    /// Takes a step of a seat that has nothing in hand.
    fn turn_free(&mut self, number: u16) -> bool
        requires sound { (shared : Bool) × ((m : List ℕ) × IsSound (standing shared m self.old)) }
        requires free { HasHand (standing false [] self.old) number Hand.Empty }
        ensures { TurnsFirstAlone (of_seat number) self.old result self.new }
    {
        if self.put(number) {
            return true;
        }
        if self.resume(number) {
            return true;
        }
        self.take(number)
    }

    /// Takes the first event of the order that applies, from a point on. A host calls it in a phase that wrote nothing yet,
    /// with room for 60 short reads, and a point before which nothing applies. Returns from where on to look then; `None`
    /// where none applies. `NoMemory` where the first that applies was refused memory. What was stored are the writes of what
    /// was done.
    ///
    /// Once a request was served at once, it looks at the first queue before it fetches from it if `looks` is true. Without a
    /// look a fetch costs less where it finds a chain, above all in live memory, and more where it finds none.
    #[inline(always)]
    pub fn turn<M: WritableMemory>(
        &mut self,
        memory: &mut M,
        cursor: Cursor,
        queues: u32,
        most: u64,
        looks: bool,
    ) -> Result<Option<Progress>, NoMemory>
        requires most { 1 ≤ most }
        requires room { M.has_room memory.old 60 }
        requires ready { IsReadyIn (M.is_open memory.old) M.shared (M.may_be memory.old) (M.extent memory.old) self.old }
        requires before { AtEach M.shared (M.may_be memory.old) (NoneBefore cursor) self.old }
        ensures turns { TurnsNextIn M.shared M.may_be (Stored M.stored M.storing) (asks queues) most memory.old self.old
            result memory.new self.new }
        ensures reading { M.is_open memory.new }
        ensures size { M.extent memory.new ≡ M.extent memory.old }
    {
        if is_fetch(cursor) {
            return self.from_fetch(memory, queues, most, looks);
        }
        self.from_start(memory, cursor, queues, most)
    }

    /// Does the same where more than the queues is to be looked at, apart so that requests served at once pass it by.
    #[inline(never)]
    fn from_start<M: WritableMemory>(
        &mut self,
        memory: &mut M,
        cursor: Cursor,
        queues: u32,
        most: u64,
    ) -> Result<Option<Progress>, NoMemory>
        requires most { 1 ≤ most }
        requires room { M.has_room memory.old 60 }
        requires ready { IsReadyIn (M.is_open memory.old) M.shared (M.may_be memory.old) (M.extent memory.old) self.old }
        requires before { AtEach M.shared (M.may_be memory.old) (NoneBefore cursor) self.old }
        ensures turns { TurnsNextIn M.shared M.may_be (Stored M.stored M.storing) (asks queues) most memory.old self.old
            result memory.new self.new }
        ensures reading { M.is_open memory.new }
        ensures size { M.extent memory.new ≡ M.extent memory.old }
    {
        if is_start(cursor) {
            return self.from_function(memory, queues, most);
        }
        self.from_direct(memory, cursor, queues, most)
    }

    /// Goes on from the beginning: the function, and the events that wait.
    #[inline(always)]
    fn from_function<M: WritableMemory>(
        &mut self,
        memory: &mut M,
        queues: u32,
        most: u64,
    ) -> Result<Option<Progress>, NoMemory>
        requires most { 1 ≤ most }
        requires room { M.has_room memory.old 60 }
        requires ready { IsReadyIn (M.is_open memory.old) M.shared (M.may_be memory.old) (M.extent memory.old) self.old }
        ensures turns { TurnsNextIn M.shared M.may_be (Stored M.stored M.storing) (asks queues) most memory.old self.old
            result memory.new self.new }
        ensures reading { M.is_open memory.new }
        ensures size { M.extent memory.new ≡ M.extent memory.old }
    {
        let turned = self.turn_function(memory);
        let _function = memory.size();
        if turned {
            return Ok(Some(one(Cursor::Start)));
        }
        let raised = self.raise_in(memory);
        let _event = memory.size();
        if raised {
            return Ok(Some(one(Cursor::Start)));
        }
        self.from_direct(memory, Cursor::Start, queues, most)
    }

    /// Goes on from the answers that are ready, where the cursor isn't past them.
    #[inline(always)]
    fn from_direct<M: WritableMemory>(
        &mut self,
        memory: &mut M,
        cursor: Cursor,
        queues: u32,
        most: u64,
    ) -> Result<Option<Progress>, NoMemory>
        requires most { 1 ≤ most }
        requires room { M.has_room memory.old 60 }
        requires ready { IsReadyIn (M.is_open memory.old) M.shared (M.may_be memory.old) (M.extent memory.old) self.old }
        requires start { AtEach M.shared (M.may_be memory.old) NoStart self.old }
        requires before { AtEach M.shared (M.may_be memory.old) (NoneBefore cursor) self.old }
        ensures turns { TurnsNextIn M.shared M.may_be (Stored M.stored M.storing) (asks queues) most memory.old self.old
            result memory.new self.new }
        ensures reading { M.is_open memory.new }
        ensures size { M.extent memory.new ≡ M.extent memory.old }
    {
        for number in first_direct(cursor, self.bays.len())..self.bays.len() {
            let answered = self.direct_in(memory, number as u16);
            let _bytes = memory.size();
            if answered {
                return Ok(Some(one(Cursor::Direct(number as u16))));
            }
        }
        self.from_seats(memory, cursor, queues, most)
    }

    /// Goes on from the seats, where the cursor isn't past them.
    #[inline(always)]
    fn from_seats<M: WritableMemory>(
        &mut self,
        memory: &mut M,
        cursor: Cursor,
        queues: u32,
        most: u64,
    ) -> Result<Option<Progress>, NoMemory>
        requires most { 1 ≤ most }
        requires room { M.has_room memory.old 60 }
        requires ready { IsReadyIn (M.is_open memory.old) M.shared (M.may_be memory.old) (M.extent memory.old) self.old }
        requires start { AtEach M.shared (M.may_be memory.old) NoStart self.old }
        requires direct { AtEach M.shared (M.may_be memory.old) NoDirect self.old }
        requires before { AtEach M.shared (M.may_be memory.old) (NoneBefore cursor) self.old }
        ensures turns { TurnsNextIn M.shared M.may_be (Stored M.stored M.storing) (asks queues) most memory.old self.old
            result memory.new self.new }
        ensures reading { M.is_open memory.new }
        ensures size { M.extent memory.new ≡ M.extent memory.old }
    {
        for number in first_seat(cursor, self.seats.len())..self.seats.len() {
            let turned = self.turn_seat(memory, number as u16);
            let _bytes = memory.size();
            if turned {
                return Ok(Some(one(self.after_seat())));
            }
        }
        self.from_enter(memory, cursor, queues, most)
    }

    /// Goes on from the requests that arrived, where the cursor isn't past them.
    #[inline(always)]
    fn from_enter<M: WritableMemory>(
        &mut self,
        memory: &mut M,
        cursor: Cursor,
        queues: u32,
        most: u64,
    ) -> Result<Option<Progress>, NoMemory>
        requires most { 1 ≤ most }
        requires room { M.has_room memory.old 60 }
        requires ready { IsReadyIn (M.is_open memory.old) M.shared (M.may_be memory.old) (M.extent memory.old) self.old }
        requires start { AtEach M.shared (M.may_be memory.old) NoStart self.old }
        requires direct { AtEach M.shared (M.may_be memory.old) NoDirect self.old }
        requires seat { AtEach M.shared (M.may_be memory.old) NoSeat self.old }
        requires before { AtEach M.shared (M.may_be memory.old) (NoneBefore cursor) self.old }
        ensures turns { TurnsNextIn M.shared M.may_be (Stored M.stored M.storing) (asks queues) most memory.old self.old
            result memory.new self.new }
        ensures reading { M.is_open memory.new }
        ensures size { M.extent memory.new ≡ M.extent memory.old }
    {
        for number in first_enter(cursor, self.bays.len())..self.bays.len() {
            if self.enter(number as u16) {
                return Ok(Some(one(self.after_enter(number as u16))));
            }
        }
        self.from_fetch(memory, queues, most, false)
    }

    /// Looks for a chain on the queues that are asked, by rising number. It fetches from the first of them without a look before,
    /// unless `looks` is true.
    #[inline(always)]
    fn from_fetch<M: WritableMemory>(
        &mut self,
        memory: &mut M,
        queues: u32,
        most: u64,
        looks: bool,
    ) -> Result<Option<Progress>, NoMemory>
        requires most { 1 ≤ most }
        requires room { M.has_room memory.old 60 }
        requires ready { IsReadyIn (M.is_open memory.old) M.shared (M.may_be memory.old) (M.extent memory.old) self.old }
        requires before { AtEach M.shared (M.may_be memory.old) NoneBeforeFetch self.old }
        ensures turns { TurnsNextIn M.shared M.may_be (Stored M.stored M.storing) (asks queues) most memory.old self.old
            result memory.new self.new }
        ensures reading { M.is_open memory.new }
        ensures size { M.extent memory.new ≡ M.extent memory.old }
    {
        let first = self.first_fetch(memory, queues);
        let _looked = memory.size();
        for number in first..self.bays.len() {
            match self.serve_queue(memory, number as u16, queues, most, looks || number > first) {
                Ok(None) => {
                    let _bytes = memory.size();
                }
                Ok(Some(served)) => return Ok(Some(served)),
                Err(NoMemory) => return Err(NoMemory),
            }
        }
        Ok(None)
    }

    /// Returns true if a queue isn't asked, or has nothing to take.
    #[inline(always)]
    fn is_silent_in<M: WritableMemory>(&self, memory: &mut M, number: u16, queues: u32) -> bool
        requires reading { M.is_open memory.old }
        requires room { M.has_room memory.old 1 }
        requires fits { FitsIn (M.extent memory.old) self.now }
        requires number { number < 32 }
        ensures room { (n : ℕ) → M.has_room memory.old (n + 1) → M.has_room memory.new n }
        ensures silent { (m : List ℕ) → M.may_be memory.new m → IsTrue result → asks queues number ≡ true
            → Applies (standing M.shared m self.now) (AnEvent.Fetch number) → ⊥ }
        ensures stays { (m : List ℕ) → M.may_be memory.new m → M.may_be memory.old m }
        ensures stores { M.stored memory.new ≡ M.stored memory.old }
        ensures reading { M.is_open memory.new }
        ensures size { M.extent memory.new ≡ M.extent memory.old }
    {
        !is_asked(queues, number) || self.is_idle_in(memory, number)
    }

    /// Returns the first queue that may have a chain, as far as the control queue and the event queue tell, of those that
    /// are asked.
    #[inline(always)]
    fn first_fetch<M: WritableMemory>(&self, memory: &mut M, queues: u32) -> usize
        requires reading { M.is_open memory.old }
        requires room { M.has_room memory.old 2 }
        requires fits { FitsIn (M.extent memory.old) self.now }
        ensures room { (n : ℕ) → M.has_room memory.old (n + 2) → M.has_room memory.new n }
        ensures below { FindsIn M.shared (M.may_be memory.old) (M.may_be memory.new) (NoFetchBelow (asks queues) result) self.now }
        ensures stores { M.stored memory.new ≡ M.stored memory.old }
        ensures reading { M.is_open memory.new }
        ensures size { M.extent memory.new ≡ M.extent memory.old }
    {
        if self.bays.len() >= 2
            && self.is_silent_in(memory, CONTROL_QUEUE, queues)
            && self.is_silent_in(memory, EVENT_QUEUE, queues)
        {
            FIRST_REQUEST_QUEUE as usize
        } else {
            0
        }
    }

    /// Returns true if a look at a queue finds nothing to take. It looks only where `looks` is true. A fetch looks too: it costs
    /// more than this where it finds nothing, and less than both where it finds a chain.
    #[inline(always)]
    fn is_passed_by<M: WritableMemory>(&self, memory: &mut M, number: u16, looks: bool) -> bool
        requires reading { M.is_open memory.old }
        requires room { M.has_room memory.old 1 }
        requires fits { FitsIn (M.extent memory.old) self.now }
        ensures room { (n : ℕ) → M.has_room memory.old (n + 1) → M.has_room memory.new n }
        ensures idle { (m : List ℕ) → M.may_be memory.new m → IsTrue result
            → Applies (standing M.shared m self.now) (AnEvent.Fetch number) → ⊥ }
        ensures stays { (m : List ℕ) → M.may_be memory.new m → M.may_be memory.old m }
        ensures stores { M.stored memory.new ≡ M.stored memory.old }
        ensures reading { M.is_open memory.new }
        ensures size { M.extent memory.new ≡ M.extent memory.old }
    {
        looks && self.is_idle_in(memory, number)
    }

    /// Takes a queue's next chain, where the queue is asked and no event before it applies, and does at once what may
    /// be done of it. Where `looks` is true, it looks first whether there is one.
    #[inline(always)]
    fn serve_queue<M: WritableMemory>(
        &mut self,
        memory: &mut M,
        number: u16,
        queues: u32,
        most: u64,
        looks: bool,
    ) -> Result<Option<Progress>, NoMemory>
        requires most { 1 ≤ most }
        requires room { M.has_room memory.old 6 }
        requires ready { IsReadyIn (M.is_open memory.old) M.shared (M.may_be memory.old) (M.extent memory.old) self.old }
        requires before { AtEach M.shared (M.may_be memory.old) NoneBeforeFetch self.old }
        requires below { AtEach M.shared (M.may_be memory.old) (NoFetchBelow (asks queues) number) self.old }
        requires there { number < length self.old.queues }
        ensures turns { FetchesOn M.shared M.may_be (Stored M.stored M.storing) (asks queues) most number memory.old
            self.old result memory.new self.new }
        ensures room { (n : ℕ) → result ≡ Ok None → M.has_room memory.old (n + 3) → M.has_room memory.new n }
        ensures reading { M.is_open memory.new }
        ensures size { M.extent memory.new ≡ M.extent memory.old }
    {
        if !is_asked(queues, number) {
            return Ok(None);
        }
        let idle = self.is_passed_by(memory, number, looks);
        let _bytes = memory.size();
        if idle {
            return Ok(None);
        }
        self.serve_next(memory, number, queues, most)
    }

    /// Takes the next chain of a queue that is asked, and does at once what may be done of it.
    #[inline(always)]
    fn serve_next<M: WritableMemory>(
        &mut self,
        memory: &mut M,
        number: u16,
        queues: u32,
        most: u64,
    ) -> Result<Option<Progress>, NoMemory>
        requires most { 1 ≤ most }
        requires room { M.has_room memory.old 5 }
        requires ready { IsReadyIn (M.is_open memory.old) M.shared (M.may_be memory.old) (M.extent memory.old) self.old }
        requires before { AtEach M.shared (M.may_be memory.old) NoneBeforeFetch self.old }
        requires below { AtEach M.shared (M.may_be memory.old) (NoFetchBelow (asks queues) number) self.old }
        requires there { number < length self.old.queues }
        requires asked { asks queues number ≡ true }
        ensures turns { FetchesOn M.shared M.may_be (Stored M.stored M.storing) (asks queues) most number memory.old
            self.old result memory.new self.new }
        ensures room { (n : ℕ) → result ≡ Ok None → M.has_room memory.old (n + 2) → M.has_room memory.new n }
        ensures reading { M.is_open memory.new }
        ensures size { M.extent memory.new ≡ M.extent memory.old }
    {
        if most >= AT_ONCE && self.serves_at_once(number) {
            return self.serve(memory, number, queues, most);
        }
        let fetched = self.fetch_in(memory, number);
        let _bytes = memory.size();
        match fetched {
            Ok(false) => Ok(None),
            Ok(true) => Ok(Some(one(self.after_fetch(number)))),
            Err(NoMemory) => Err(NoMemory),
        }
    }

    /// Takes the next chain of one queue alone, and does at once what may be done of it. A host calls it in place of
    /// [`turn`](Device::turn) where no event before the first queue's chain applies. `queues` has the bit of that queue alone.
    #[inline(always)]
    pub fn turn_on<M: WritableMemory>(
        &mut self,
        memory: &mut M,
        number: u16,
        queues: u32,
        most: u64,
    ) -> Result<Option<Progress>, NoMemory>
        requires most { 1 ≤ most }
        requires room { M.has_room memory.old 60 }
        requires ready { IsReadyIn (M.is_open memory.old) M.shared (M.may_be memory.old) (M.extent memory.old) self.old }
        requires before { AtEach M.shared (M.may_be memory.old) NoneBeforeFetch self.old }
        requires alone { AsksOnly (asks queues) number }
        ensures turns { TurnsNextIn M.shared M.may_be (Stored M.stored M.storing) (asks queues) most memory.old self.old
            result memory.new self.new }
        ensures reading { M.is_open memory.new }
        ensures size { M.extent memory.new ≡ M.extent memory.old }
    {
        if number as usize >= self.bays.len() {
            return Ok(None);
        }
        self.serve_next(memory, number, queues, most)
    }

    /// Returns true if a request of a queue is served by the first seat and nothing stands between.
    #[inline(always)]
    fn serves_at_once(&self, number: u16) -> bool
        requires working { 1 ≤ self.now.workers }
        ensures { (shared : Bool) (m : List ℕ) → IsTrue result → MayServe number (standing shared m self.now) }
    {
        let at = number as usize;
        number >= 2
            && at < self.bays.len()
            && self.function.is_none()
            && owner(self.workers, number) == 0
            && !self.seats.is_empty()
            && self.seats[0].is_idle()
            && self.handed_off.is_bare(0)
            && self.handed_off.limit() > 0
    }

    /// Takes a request queue's next chain, and serves its request to the end, if nothing blocks it. Where its command waits for
    /// a backed disk, its job goes to the list of the first seat, which tries it by steps.
    #[inline(always)]
    fn serve<M: WritableMemory>(
        &mut self,
        memory: &mut M,
        number: u16,
        queues: u32,
        most: u64,
    ) -> Result<Option<Progress>, NoMemory>
        requires most { AT_ONCE ≤ most }
        requires room { M.has_room memory.old 4 }
        requires ready { IsReadyIn (M.is_open memory.old) M.shared (M.may_be memory.old) (M.extent memory.old) self.old }
        requires before { AtEach M.shared (M.may_be memory.old) NoneBeforeFetch self.old }
        requires below { AtEach M.shared (M.may_be memory.old) (NoFetchBelow (asks queues) number) self.old }
        requires asked { asks queues number ≡ true }
        requires at_once { AtEach M.shared (M.may_be memory.old) (MayServe number) self.old }
        ensures turns { FetchesOn M.shared M.may_be (Stored M.stored M.storing) (asks queues) most number memory.old
            self.old result memory.new self.new }
        ensures room { (n : ℕ) → result ≡ Ok None → M.has_room memory.old (n + 1) → M.has_room memory.new n }
        ensures reading { M.is_open memory.new }
        ensures size { M.extent memory.new ≡ M.extent memory.old }
    {
        all_are_sound();
        let bay = &mut self.bays[number as usize];
        let taken = take_request(&mut bay.queue, &mut bay.slot, memory, &self.inventory);
        let _read = memory.size();
        match taken {
            Err(NoMemory) => Err(NoMemory),
            Ok(Taken::Nothing) => Ok(None),
            Ok(Taken::Other) => Ok(Some(one(Cursor::Start))),
            Ok(Taken::Arrived(arrival)) => {
                let unit_index = arrival.unit();
                if unit_index >= self.units.len() {
                    bay.slot = Slot::Arrived(arrival);
                    return Ok(Some(one(Cursor::Start)));
                }
                let done = serve_request(
                    &mut self.units[unit_index],
                    &mut bay.queue,
                    memory,
                    &mut bay.slot,
                    arrival,
                    &mut self.seats[0].out,
                );
                let from = bay.queue.number();
                let _bytes = memory.size();
                Ok(Some(progress_of(done, self.seats[0].out.len(), from)))
            }
        }
    }

    /// Returns where to look once a seat took a step: a function may find its mark clear.
    fn after_seat(&self) -> Cursor
        ensures { (shared : Bool) (m : List ℕ) → LeavesNext (standing shared m self.now) result }
    {
        if self.function.is_some() {
            Cursor::Start
        } else {
            Cursor::Seats
        }
    }

    /// Returns where to look once a request came to its unit: it may be answered at once.
    fn after_enter(&self, number: u16) -> Cursor
        ensures { (shared : Bool) (m : List ℕ) → EntersNext number (standing shared m self.now) result }
    {
        let at = number as usize;
        if at < self.bays.len() && self.bays[at].slot.is_empty() {
            Cursor::Seats
        } else {
            Cursor::Start
        }
    }

    /// Returns where to look once a queue took a chain: a request comes to its unit next.
    fn after_fetch(&self, number: u16) -> Cursor
        ensures { (shared : Bool) (m : List ℕ) → FetchesNext number (standing shared m self.now) result }
    {
        let at = number as usize;
        if at < self.bays.len() && self.function.is_none() && self.bays[at].slot.unit().is_some() {
            Cursor::Enter(number)
        } else {
            Cursor::Start
        }
    }
}
