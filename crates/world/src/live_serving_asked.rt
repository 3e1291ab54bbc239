//! A device in live memory serves, and asks its drivers for notifications.

ghost use Rattle.std.specs.Prelude.{◌≡◌, ◌<◌, ◌&&◌, ◌||◌, ◌==◌, length};
ghost use Rattle.device_steps.specs.Apart.{Stored};
ghost use Rattle.device_steps.specs.Settling.{asks};
ghost use Rattle.world.specs.ServingAsked.{AsksIf, AsksNextLive, AsksDriversLive, ServesWholeLive, ServesAskedOrWants};

use crate::live_world::LiveWorld;
use crate::served::Served;
use crate::serving_asked::{is_among, is_over};
use foundation::NoMemory;
use guest_mem::WritableMemory;
use ring_core::Notify;

impl<M: WritableMemory> LiveWorld<M> {
    /// Serves as [`serve`](LiveWorld::serve) does, for a host that waits for notifications. Where nothing is left, it asks
    /// the driver of each queue that is set in `queues` for its next chain, as [`ask`](LiveWorld::ask) does. Then it looks
    /// once more, in a phase behind these writes, and goes on until nothing came in between, or `most` steps were taken. To
    /// ask is no step.
    ///
    /// `more` is true exactly where `most` steps were taken and, in a phase behind them, an event was found that would
    /// change something. If it is false, every driver of these queues was asked for its next chain, and in a phase behind
    /// that nothing was found. So the host may sleep: whoever makes a chain available from then on sees what was asked, and
    /// notifies the device. That is so on a bus that begins each phase with a full barrier. A queue that a fault broke isn't
    /// asked.
    ///
    /// `NoMemory` as of `serve`: everything served before stands, and the drivers may not be asked.
    pub fn serve_and_ask(&mut self, queues: u32, most: u64) -> Result<Served, NoMemory>
        ensures size { M.extent self.new.memory ≡ M.extent self.old.memory }
        ensures serves { ServesAskedOrWants
            (ServesWholeLive M.shared M.begins M.may_be (Stored M.stored M.storing) M.extent queues)
            (AsksDriversLive M.shared M.begins M.may_be (Stored M.stored M.storing) M.extent queues)
            self.old most result self.new }
    {
        let mut steps = 0;
        let mut asked = false;
        'rounds: loop {
            match self.serve(queues, most - steps) {
                Ok(served) => {
                    steps += served.steps;
                    if is_over(served, asked) {
                        let more = served.more;
                        return Ok(Served { steps, more });
                    }
                }
                Err(NoMemory) => return Err(NoMemory),
            }
            self.ask_each(queues);
            asked = true;
        }
    }

    /// Asks the driver of each of these queues for its next chain.
    fn ask_each(&mut self, queues: u32)
        ensures size { M.extent self.new.memory ≡ M.extent self.old.memory }
        ensures asks { AsksDriversLive M.shared M.begins M.may_be (Stored M.stored M.storing) M.extent queues
            self.old self.new }
    {
        let count = self.bays().len();
        for number in 0..count {
            self.ask_among(queues, number as u16);
        }
    }

    /// Asks the driver of a queue for its next chain, if the queue is one of these.
    fn ask_among(&mut self, queues: u32, number: u16)
        requires few { number < 32 }
        ensures size { M.extent self.new.memory ≡ M.extent self.old.memory }
        ensures asks { AsksIf (AsksNextLive M.shared M.begins M.may_be (Stored M.stored M.storing) M.extent)
            (asks queues number) number self.old self.new }
    {
        if !is_among(queues, number) {
            return;
        }
        let _told = self.ask(number, Notify::Next);
    }
}
