//! The storage of a unit's backed disk, which the host has: each call with its answer.

ghost use Rattle.std.specs.Prelude.{◌≡◌};
ghost use Rattle.device_steps.specs.Paging.{IsKeptPage};
ghost use Rattle.device_steps.specs.Views.{IsIndexAmong};
ghost use Rattle.std.specs.Prelude.{ℕ, Some};
ghost use Rattle.c_calls.specs.Storage.{WantsPage, LoadsPage, FailsPage, LosesPage, GivesPage, KeepsPage, DeniesPage, Wakes};

use crate::answer::Answer;
use crate::live_served::LiveServed;
use backed_store::PAGE_BYTES;
use device_model::Event;

impl LiveServed {
    /// Tells the next page of a unit's disk that the host is to read.
    pub(crate) fn wanted(
        &mut self,
        target: u8,
        lun: u16,
        page: &mut u64,
        found: &mut bool,
    ) -> Answer
        ensures { WantsPage target lun page.old found.old page.new found.new self.old result self.new }
    {
        let Some(unit_index) = self.world.unit_index(target, lun) else {
            return Answer::NoUnit;
        };
        match self.world.next_wanted(unit_index) {
            Some(next) => {
                *page = next;
                *found = true;
            }
            None => *found = false,
        }
        Answer::Done
    }

    /// Takes the bytes of a page that the host read.
    pub(crate) fn load(&mut self, target: u8, lun: u16, page: u64, bytes: &[u8]) -> Answer
        requires kept { (unit_index : ℕ) → IsIndexAmong self.old.world.device.units target lun (Some unit_index)
            → IsKeptPage self.old.world.device.units unit_index page bytes.now }
        ensures { LoadsPage target lun page bytes.now self.old result self.new }
    {
        if bytes.len() != PAGE_BYTES {
            return Answer::BadLength;
        }
        let Some(unit_index) = self.world.unit_index(target, lun) else {
            return Answer::NoUnit;
        };
        match self.world.load(unit_index, page, bytes) {
            Ok(_) => Answer::Done,
            Err(_) => Answer::NoMemory,
        }
    }

    /// Notes that a page doesn't come.
    pub(crate) fn load_failed(&mut self, target: u8, lun: u16, page: u64) -> Answer
        ensures { FailsPage target lun self.old result self.new }
    {
        let Some(unit_index) = self.world.unit_index(target, lun) else {
            return Answer::NoUnit;
        };
        let _waits = self.world.load_failed(unit_index, page);
        Answer::Done
    }

    /// Notes that the host can't read a page.
    pub(crate) fn lost(&mut self, target: u8, lun: u16, page: u64) -> Answer
        ensures { LosesPage target lun page self.old result self.new }
    {
        let Some(unit_index) = self.world.unit_index(target, lun) else {
            return Answer::NoUnit;
        };
        let _waits = self.world.lost(unit_index, page);
        Answer::Done
    }

    /// Gives the host the next page that it is to write.
    pub(crate) fn give(
        &mut self,
        target: u8,
        lun: u16,
        page: &mut u64,
        bytes: &mut [u8],
        found: &mut bool,
    ) -> Answer
        ensures { GivesPage target lun page.old bytes.old found.old page.new bytes.new found.new self.old result self.new }
    {
        if bytes.len() != PAGE_BYTES {
            return Answer::BadLength;
        }
        let Some(unit_index) = self.world.unit_index(target, lun) else {
            return Answer::NoUnit;
        };
        match self.world.give(unit_index) {
            Ok(Some(given)) => {
                bytes.copy_from_slice(given.bytes.as_slice());
                *page = given.page;
                *found = true;
                Answer::Done
            }
            Ok(None) => {
                *found = false;
                Answer::Done
            }
            Err(_) => Answer::NoMemory,
        }
    }

    /// Notes that the host's write of a page is over.
    pub(crate) fn written(&mut self, target: u8, lun: u16, page: u64, kept: bool) -> Answer
        ensures { KeepsPage target lun page kept self.old result self.new }
    {
        let Some(unit_index) = self.world.unit_index(target, lun) else {
            return Answer::NoUnit;
        };
        match self.world.written(unit_index, page, kept) {
            Ok(_) => Answer::Done,
            Err(_) => Answer::NoMemory,
        }
    }

    /// Notes that the host can't write a page.
    pub(crate) fn denied(&mut self, target: u8, lun: u16, page: u64) -> Answer
        ensures { DeniesPage target lun page self.old result self.new }
    {
        let Some(unit_index) = self.world.unit_index(target, lun) else {
            return Answer::NoUnit;
        };
        match self.world.denied(unit_index, page) {
            Ok(_) => Answer::Done,
            Err(_) => Answer::NoMemory,
        }
    }

    /// Has each command that waits tried again, and tells how many these are.
    pub(crate) fn wake(&mut self, waiting: &mut u64) -> Answer
        ensures { Wakes waiting.old waiting.new self.old result self.new }
    {
        let count = self.world.waiting() as u64;
        match self.world.step(Event::Wake) {
            Ok(_) => {
                *waiting = count;
                Answer::Done
            }
            Err(_) => Answer::NoMemory,
        }
    }
}
