//! A device in live memory serves, and settles.

ghost use Rattle.std.specs.Prelude.{◌≡◌, ◌≤◌, ◌<◌, ℕ, List, length, false, IfSome};
ghost use Rattle.device_steps.specs.Apart.{standing, Stored};
ghost use Rattle.device_steps.specs.Sound.{IsReached};
ghost use Rattle.device_steps.specs.Settling.{asks};
ghost use Rattle.device_steps.specs.Inner.Cursors.{AsksOnly, IsFetchPlace, NoneBefore, NoneBeforeFetch};
ghost use Rattle.world.specs.Inner.Rounds.{TurnsRound, SettlesNext, LeavesBy, IsRowOf, RoundOn, RowServes, RowSettles, RowBehind, TurnsRow, SettlesRow};
ghost use Rattle.world.specs.LiveServing.{Looks, ServesLiveOrWants, ServesPromised, ServeStores, SettlesLiveOrWants, SettlesPromised, SettleStores};

use crate::live_world::LiveWorld;
use crate::served::Served;
use device_model::laws::every_run_goes_on;
use device_model::live_laws::{
    a_live_run_is_a_run, a_live_settling_is_short, any_bytes_may_stand_there,
};
use device_model::trace_laws::the_promise_is_kept;
use device_steps::{Cursor, Progress, all_are_sound, is_asked, is_fetch};
use foundation::NoMemory;
use guest_mem::{Memory, WritableMemory};

/// The most rounds in a row that ask one queue alone.
const MOST_ALONE: u32 = 15;

/// Returns the queue of which two rounds in a row served a request at once. They left off at these points. `None`
/// where there is none, or it isn't asked.
#[inline(always)]
fn row_of(queues: u32, before: Cursor, next: Cursor) -> Option<u16>
    ensures { IfSome result (IsRowOf (asks queues) next) }
{
    match (before, next) {
        (Cursor::Fetch(last), Cursor::Fetch(number)) => {
            if last == number && number < 32 && is_asked(queues, number) {
                Some(number)
            } else {
                None
            }
        }
        _ => None,
    }
}

/// Returns true if a row of rounds ends behind this one, where so many steps are left: also where it took none.
#[inline(always)]
fn ends_row(round: Progress, left: u64) -> bool
    ensures { result ≡ false → (1 ≤ left) × IsFetchPlace round.next }
{
    round.steps == 0 || left == 0 || !is_fetch(round.next)
}

impl<M: WritableMemory> LiveWorld<M> {
    /// Serves what the guest made available on some queues. Takes the first event that applies, in the order of
    /// `order_by` in `device_model/specs/Order.antt`, one after another, until none does or `most` steps were taken. It
    /// takes new chains of those queues alone whose bit is set in `queues`, that of queue 0 the lowest. It goes on with
    /// whatever was begun before, of each queue.
    ///
    /// It serves in rounds, each in a phase of its own. A round is one event, or a request's chain and what follows of it
    /// at once, with no write of the guest between. A chain is taken by what was read of it, whatever the guest writes
    /// meanwhile. A notice is decided by what stood in memory behind the writes of its completion.
    ///
    /// Behind two requests of a queue in a row it asks that queue alone, until that has none. One of 16 rounds in a
    /// row asks all of those queues, so none waits for longer.
    ///
    /// `more` is true exactly where `most` steps were taken and, in a phase behind them, an event was found that would
    /// change something. If it is false, nothing was found in such a phase: every chain that was accepted was used, but for
    /// event buffers that are held. Nothing waits then, and none of those queues had a chain, unless a fault broke it. What
    /// the guest makes available later is left.
    ///
    /// It takes at most as many steps as [`World::serve`](crate::World::serve): what the guest writes meanwhile is no step,
    /// but the chains that it makes available are counted too. So only `most` bounds a call.
    ///
    /// `NoMemory` where the first event that applied was refused memory, or was a chain of a queue that has accepted
    /// 2^64 - 1. Everything served before stands, and nothing else changed. The promise is kept as by
    /// [`run`](LiveWorld::run). What was stored are the writes of the promised trace's actions, in their order, and
    /// nothing else.
    #[inline(always)]
    pub fn serve(&mut self, queues: u32, most: u64) -> Result<Served, NoMemory>
        ensures size { M.extent self.new.memory ≡ M.extent self.old.memory }
        ensures serves { ServesLiveOrWants M.shared M.begins M.may_be (Stored M.stored M.storing) (asks queues) self.old most
            result self.new }
        ensures promise { ServesPromised (asks queues) M.shared (M.extent self.old.memory) self.old.device result
            self.new.device }
        ensures stores { ServeStores (Stored M.stored M.storing self.old.memory self.new.memory) (asks queues) M.shared
            (M.extent self.old.memory) self.old.device result self.new.device }
    {
        every_run_goes_on();
        the_promise_is_kept();
        a_live_run_is_a_run();
        a_live_settling_is_short();
        self.is_steady();
        let mut cursor = Cursor::Start;
        let mut steps = 0;
        for _turn in 0..most {
            if steps == most {
                let more = self.has_step(queues);
                return Ok(Served { steps, more });
            }
            match self.turn_and_row(cursor, queues, most - steps) {
                Ok(Some(served)) => {
                    cursor = served.next;
                    steps += served.steps;
                }
                Ok(None) => return Ok(Served { steps, more: false }),
                Err(NoMemory) => return Err(NoMemory),
            }
        }
        let more = self.has_step(queues);
        Ok(Served { steps, more })
    }

    /// Serves what the guest made available, on each queue and until nothing is left: `serve` with all queues and no
    /// bound. Answers how many steps it took. Then, in a phase behind them, every chain that was accepted was used, but for
    /// event buffers that are held. Nothing was left that waits, and no queue had a chain, unless a fault broke it.
    ///
    /// A guest that goes on making chains available keeps it busy for as long as it likes. A host that must have its
    /// thread back calls `serve` with a bound.
    ///
    /// `NoMemory` as of `serve`, or where 2^64 - 1 events were counted and another is next. The promise is kept, and what
    /// was stored is told, as by `serve`.
    pub fn settle(&mut self) -> Result<u64, NoMemory>
        ensures size { M.extent self.new.memory ≡ M.extent self.old.memory }
        ensures serves { SettlesLiveOrWants M.shared M.begins M.may_be (Stored M.stored M.storing) self.old result self.new }
        ensures promise { SettlesPromised M.shared (M.extent self.old.memory) self.old.device result self.new.device }
        ensures stores { SettleStores (Stored M.stored M.storing self.old.memory self.new.memory) M.shared
            (M.extent self.old.memory) self.old.device result self.new.device }
    {
        self.is_steady();
        let done = self.serve(u32::MAX, u64::MAX);
        self.is_steady();
        match done {
            Ok(served) => {
                if served.more {
                    return Err(NoMemory);
                }
                Ok(served.steps)
            }
            Err(NoMemory) => Err(NoMemory),
        }
    }

    /// Shows that it is reached whatever stands in its memory, and has few queues.
    fn is_steady(&self)
        ensures reached { (m : List ℕ) → length m ≡ M.extent self.now.memory
            → IsReached (standing M.shared m self.now.device) }
        ensures few { length self.now.device.queues ≤ 18 }
    {
        let _bytes = self.memory.size();
    }

    /// Takes the first event of the order that applies, from a point on, or a request as a whole where that may be
    /// counted, in a phase of its own.
    #[inline(always)]
    fn turn(&mut self, cursor: Cursor, queues: u32, most: u64) -> Result<Option<Progress>, NoMemory>
        requires most { 1 ≤ most }
        requires before { (m : List ℕ) → NoneBefore cursor (standing M.shared m self.old.device) }
        ensures size { M.extent self.new.memory ≡ M.extent self.old.memory }
        ensures turns { TurnsRound M.shared M.begins M.may_be (Stored M.stored M.storing) (asks queues) most self.old result
            self.new }
        ensures settles { SettlesNext (Stored M.stored M.storing) (asks queues) M.shared (M.extent self.old.memory) self.old
            result self.new }
    {
        all_are_sound();
        any_bytes_may_stand_there();
        self.memory.begin();
        let _begun = self.memory.size();
        let turned = self
            .device
            .turn(&mut self.memory, cursor, queues, most, false);
        let _bytes = self.memory.size();
        turned
    }

    /// Takes the next chain of one queue alone, which is the only one of `queues`, and does at once what may be done
    /// of it, in a phase of its own.
    #[inline(always)]
    fn turn_on(&mut self, number: u16, queues: u32, most: u64) -> Result<Option<Progress>, NoMemory>
        requires most { 1 ≤ most }
        requires alone { AsksOnly (asks queues) number }
        requires before { (m : List ℕ) → NoneBeforeFetch (standing M.shared m self.old.device) }
        ensures size { M.extent self.new.memory ≡ M.extent self.old.memory }
        ensures turns { TurnsRound M.shared M.begins M.may_be (Stored M.stored M.storing) (asks queues) most self.old result
            self.new }
        ensures settles { SettlesNext (Stored M.stored M.storing) (asks queues) M.shared (M.extent self.old.memory) self.old
            result self.new }
    {
        all_are_sound();
        any_bytes_may_stand_there();
        self.memory.begin();
        let _begun = self.memory.size();
        let turned = self.device.turn_on(&mut self.memory, number, queues, most);
        let _bytes = self.memory.size();
        turned
    }

    /// Takes a round that asks one queue alone. Returns how many steps it took, none where it found no chain or was
    /// refused memory, and from where on to look then.
    #[inline(always)]
    fn round_on(&mut self, number: u16, most: u64) -> Progress
        requires most { 1 ≤ most }
        requires number { number < 32 }
        requires before { (m : List ℕ) → NoneBeforeFetch (standing M.shared m self.old.device) }
        ensures size { M.extent self.new.memory ≡ M.extent self.old.memory }
        ensures few { result.steps ≤ most }
        ensures serves { RoundOn M.shared M.begins M.may_be (Stored M.stored M.storing) number self.old result.steps
            self.new }
        ensures settles { RowSettles (Stored M.stored M.storing) number M.shared (M.extent self.old.memory) self.old
            result.steps self.new }
        ensures before { (m : List ℕ) → NoneBefore result.next (standing M.shared m self.new.device) }
    {
        match self.turn_on(number, 1 << number, most) {
            Ok(Some(served)) => served,
            Ok(None) => Progress {
                next: Cursor::Fetch(number),
                steps: 0,
            },
            Err(NoMemory) => Progress {
                next: Cursor::Fetch(number),
                steps: 0,
            },
        }
    }

    /// Serves requests of one queue in a row, each in a round that asks that queue alone: 15 at most, until one isn't
    /// served at once. Returns how many steps they took, and from where on to look then.
    #[inline(never)]
    fn serve_row(&mut self, number: u16, most: u64) -> Progress
        requires most { 1 ≤ most }
        requires number { number < 32 }
        requires before { (m : List ℕ) → NoneBeforeFetch (standing M.shared m self.old.device) }
        ensures size { M.extent self.new.memory ≡ M.extent self.old.memory }
        ensures few { result.steps ≤ most }
        ensures serves { RowServes M.shared M.begins M.may_be (Stored M.stored M.storing) number self.old result.steps
            self.new }
        ensures settles { RowSettles (Stored M.stored M.storing) number M.shared (M.extent self.old.memory) self.old
            result.steps self.new }
        ensures before { (m : List ℕ) → NoneBefore result.next (standing M.shared m self.new.device) }
    {
        let mut steps = 0;
        for _taken in 0..MOST_ALONE {
            let round = self.round_on(number, most - steps);
            steps += round.steps;
            if ends_row(round, most - steps) {
                return Progress {
                    next: round.next,
                    steps,
                };
            }
        }
        Progress {
            next: Cursor::Fetch(number),
            steps,
        }
    }

    /// Goes on behind a round of all queues, which left off at these points before and behind it: by a row of rounds
    /// of one queue, where there is one to serve so.
    #[inline(always)]
    fn with_row(&mut self, queues: u32, before: Cursor, served: Progress, most: u64) -> Progress
        requires few { served.steps ≤ most }
        requires before { (m : List ℕ) → NoneBefore served.next (standing M.shared m self.old.device) }
        ensures size { M.extent self.new.memory ≡ M.extent self.old.memory }
        ensures some { served.steps ≤ result.steps }
        ensures few { result.steps ≤ most }
        ensures row { RowBehind M.shared M.begins M.may_be (Stored M.stored M.storing) (asks queues) (M.extent self.old.memory)
            self.old served.steps result.steps self.new }
        ensures before { (m : List ℕ) → NoneBefore result.next (standing M.shared m self.new.device) }
    {
        let Some(number) = row_of(queues, before, served.next) else {
            return served;
        };
        if served.steps >= most {
            return served;
        }
        let row = self.serve_row(number, most - served.steps);
        Progress {
            next: row.next,
            steps: served.steps + row.steps,
        }
    }

    /// Takes a round of all queues, as `turn` does. Behind two requests of a queue in a row it goes on with a row of
    /// rounds of that queue alone.
    #[inline(always)]
    fn turn_and_row(
        &mut self,
        cursor: Cursor,
        queues: u32,
        most: u64,
    ) -> Result<Option<Progress>, NoMemory>
        requires most { 1 ≤ most }
        requires before { (m : List ℕ) → NoneBefore cursor (standing M.shared m self.old.device) }
        ensures size { M.extent self.new.memory ≡ M.extent self.old.memory }
        ensures turns { TurnsRow M.shared M.begins M.may_be (Stored M.stored M.storing) (asks queues) most self.old result
            self.new }
        ensures settles { SettlesRow (Stored M.stored M.storing) (asks queues) M.shared (M.extent self.old.memory) self.old
            result self.new }
    {
        match self.turn(cursor, queues, most) {
            Ok(Some(served)) => Ok(Some(self.with_row(queues, cursor, served, most))),
            Ok(None) => Ok(None),
            Err(NoMemory) => Err(NoMemory),
        }
    }

    /// Returns true if an event of the order applies in a phase of its own, with new chains of the queues alone that are
    /// asked.
    #[inline(never)]
    fn has_step(&mut self, queues: u32) -> bool
        ensures size { M.extent self.new.memory ≡ M.extent self.old.memory }
        ensures looks { Looks M.shared M.begins M.may_be (Stored M.stored M.storing) (LeavesBy (asks queues) result) self.old self.new }
    {
        self.memory.begin();
        let _begun = self.memory.size();
        let has = self.device.has_step(&mut self.memory, queues);
        let _bytes = self.memory.size();
        has
    }
}
