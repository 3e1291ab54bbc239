//! Lends a phase what it works on.

ghost use Rattle.std.specs.Prelude.{◌≡◌, ◌<◌, List, ℕ};
ghost use Rattle.unit_model.specs.Unit.{PlainUnit};
ghost use Rattle.virtqueue.specs.Queue.{BareQueue};
ghost use Rattle.lock_scopes.specs.Lending.{OnceAtTwo, OnceAtThree, OnceAtFour, TakesNoRequest};
ghost use Rattle.lock_scopes.specs.Ledgers.{CountsCommits};

use guest_mem::GuestMem;
use logical_unit::UnitState;
use virtqueue::Queue;

/// The units of a device, of which one is lent for as long as one closure runs. Units are counted by their indices in
/// the inventory.
pub trait UnitLender {
    /// The unit at this index may be lent as this.
    ghost lends_unit: { Self → ℕ → PlainUnit → Type 0 };

    /// The unit at this index came back as this, and nothing else changed but what counts Commits.
    ghost keeps_unit: { Self → ℕ → PlainUnit → Self → Type 0 };

    /// So many Commits were counted for the caller that had the unit lent.
    ghost counts: { Self → ℕ → Self → Type 0 };

    /// The number of units.
    ghost units: { Self → ℕ };

    /// Runs a phase on the unit at an index, and on two values of the caller, which stay where they are. The phase
    /// answers how many Commits it made, too. It is no act of the operator.
    fn unit<T, X, Y, F: FnOnce(&mut UnitState, &mut X, &mut Y) -> (T, u64)>(
        &mut self,
        at: usize,
        one: &mut X,
        other: &mut Y,
        phase: F,
    ) -> (T, u64)
        requires there { at < units self.old }
        requires phase { F.IsAlwaysCallable phase }
        requires counts { CountsCommits F.FnOnce phase }
        ensures did { (u : PlainUnit) × (v : PlainUnit) × lends_unit self.old at u
            × OnceAtThree F.FnOnce phase u one.old other.old result v one.new other.new
            × keeps_unit self.old at v self.new }
        ensures counted { counts self.old result.1 self.new }
        ensures units { units self.new ≡ units self.old };
}

/// The queues and the memory of a device, of which one queue is lent with the memory, or the memory alone, for as long
/// as one closure runs. Queues are counted by their numbers.
pub trait QueueLender {
    /// The queue of this number may be lent as this, with the memory as these bytes.
    ghost lends_queue: { Self → ℕ → BareQueue → List ℕ → Type 0 };

    /// The queue of this number came back as this, with the memory as these bytes, and nothing else changed.
    ghost keeps_queue: { Self → ℕ → BareQueue → List ℕ → Self → Type 0 };

    /// The memory may be lent as these bytes.
    ghost lends_memory: { Self → List ℕ → Type 0 };

    /// The memory came back as these bytes, and nothing else changed.
    ghost keeps_memory: { Self → List ℕ → Self → Type 0 };

    /// The number of queues.
    ghost queues: { Self → ℕ };

    /// Runs a phase on the queue of a number, with the memory, and on two values of the caller, which stay where they
    /// are. The phase takes no chain of a request queue.
    fn queue<T, X, Y, F: FnOnce(&mut Queue, &mut GuestMem, &mut X, &mut Y) -> T>(
        &mut self,
        at: usize,
        one: &mut X,
        other: &mut Y,
        phase: F,
    ) -> T
        requires there { at < queues self.old }
        requires phase { F.IsAlwaysCallable phase }
        requires takes_none { TakesNoRequest F.FnOnce phase }
        ensures did { (q : BareQueue) × (m : List ℕ) × (r : BareQueue) × (n : List ℕ) × lends_queue self.old at q m
            × OnceAtFour F.FnOnce phase q m one.old other.old result r n one.new other.new
            × keeps_queue self.old at r n self.new }
        ensures queues { queues self.new ≡ queues self.old };

    /// Runs a closure that reads or writes the memory alone, with room for bytes of the caller, which stays where it
    /// is.
    fn memory<T, F: FnOnce(&mut GuestMem, &mut [u8]) -> T>(
        &mut self,
        room: &mut [u8],
        phase: F,
    ) -> T
        requires phase { F.IsAlwaysCallable phase }
        ensures did { (m : List ℕ) × (n : List ℕ) × lends_memory self.old m
            × OnceAtTwo F.FnOnce phase m room.old result n room.new × keeps_memory self.old n self.new }
        ensures queues { queues self.new ≡ queues self.old };
}
