//! The pages of units' disks that come and go, and the host that has their storages.

use crate::device::Device;
use backed_store::{GivenPage, PAGE_BYTES};
use foundation::NoMemory;

impl Device {
    ghost use Rattle.std.specs.Prelude.{◌≡◌, ◌+◌, length, IsTrue, IsFalse, IfOk, OnErr, IfSome, IfNone};
    ghost use Rattle.block_store.specs.Storage.{Dealing};
    ghost use Rattle.device_steps.specs.Paging.{HasPage, IsKeptPage, IsDealt};

    /// Returns how many jobs wait for pages of their disks, or for what was written to be kept, those that are to be tried again
    /// among them. A host wakes them once more where fewer wait than before.
    pub fn waiting(&self) -> usize
        ensures { result ≡ length self.now.aside + length self.now.woken }
    {
        self.jobs_aside.count()
    }

    /// Returns the next page of the disk of the unit at an index that the host is to read, 8 blocks each, and counts it as
    /// asked for. The host hands it in by [`Device::load`], or says that it doesn't by [`Device::load_failed`], or that it can't
    /// by [`Device::lost`]. `None` where no command waits for a page that the host wasn't asked for, where the disk isn't
    /// backed, or where there is no such unit.
    pub fn next_wanted(&mut self, unit_index: u16) -> Option<u64>
        ensures same { self.new ≡ self.old }
        ensures page { IfSome result (λ page. HasPage self.old.units unit_index page) }
    {
        let at = unit_index as usize;
        if at >= self.units.len() {
            return None;
        }
        self.units[at].next_wanted()
    }

    /// Takes the bytes of a page that the host was asked for, as its storage has them. Returns true if they now stand in
    /// memory; then the page isn't lost any longer, and a Wake has the commands that wait tried again. A host that is given
    /// the page meanwhile says [`Device::load_failed`] in place of this. `NoMemory` where memory was refused; the page may be
    /// handed in again.
    pub fn load(&mut self, unit_index: u16, page: u64, bytes: &[u8]) -> Result<bool, NoMemory>
        requires len { length bytes.now ≡ PAGE_BYTES }
        // The premise: the storage gives back what it kept, or had at the opening.
        requires kept { IsKeptPage self.old.units unit_index page bytes.now }
        ensures loaded { IfOk result (λ done. IsTrue done → IsDealt self.old unit_index (Dealing.Load page) self.new) }
        ensures otherwise { IfOk result (λ done. IsFalse done → self.new ≡ self.old) }
        ensures err { OnErr result (self.new ≡ self.old) }
    {
        let at = unit_index as usize;
        if at >= self.units.len() {
            return Ok(false);
        }
        self.units[at].load(page, bytes)
    }

    /// Notes that the host won't hand in a page that it was asked for. Returns true if a command may wait for it.
    pub fn load_failed(&mut self, unit_index: u16, page: u64) -> bool
        ensures same { self.new ≡ self.old }
    {
        let at = unit_index as usize;
        if at >= self.units.len() {
            return false;
        }
        self.units[at].load_failed(page)
    }

    /// Notes that the host's storage can't read a page that the host was asked for. Returns true if a command may wait for it:
    /// then a Wake has those that wait tried again, and one that needs the page ends with MEDIUM ERROR.
    pub fn lost(&mut self, unit_index: u16, page: u64) -> bool
        ensures lost { IsTrue result → IsDealt self.old unit_index (Dealing.Lose page) self.new }
        ensures otherwise { IsFalse result → self.new ≡ self.old }
    {
        let at = unit_index as usize;
        if at >= self.units.len() {
            return false;
        }
        self.units[at].lost(page)
    }

    /// Gives the host the next page that it is to write to the storage of the unit at an index, as the unit's blocks are now.
    /// The host says by [`Device::written`] what became of it, or by [`Device::denied`] that it can't write it. `None` where it
    /// has each such page already. Then a Wake has the commands that wait tried again, since room that was made for a change and
    /// isn't used is free. `NoMemory` where memory was refused.
    pub fn give(&mut self, unit_index: u16) -> Result<Option<GivenPage>, NoMemory>
        ensures given { IfOk result (λ given. IfSome given (λ g.
            IsDealt self.old unit_index (Dealing.Give g.page g.bytes.items) self.new)) }
        ensures len { IfOk result (λ given. IfSome given (λ g. length g.bytes.items ≡ PAGE_BYTES)) }
        ensures none { IfOk result (λ given. IfNone given (self.new ≡ self.old)) }
        ensures err { OnErr result (self.new ≡ self.old) }
    {
        let at = unit_index as usize;
        if at >= self.units.len() {
            return Ok(None);
        }
        self.units[at].give()
    }

    /// Notes that the host's write of a page is over: its storage gives the page back as it was given, after a crash too, or
    /// the write failed, and the page is given again. Returns true if its storage has the page so now: not where no write of
    /// it was under way. Then a Wake has the commands that wait tried again. `NoMemory` where memory was refused:
    /// the host says it again later.
    pub fn written(&mut self, unit_index: u16, page: u64, kept: bool) -> Result<bool, NoMemory>
        ensures told { IfOk result (λ done. IsTrue done → IsTrue kept) }
        ensures kept { IfOk result (λ done. IsTrue done → IsDealt self.old unit_index (Dealing.Keep page) self.new) }
        ensures otherwise { IfOk result (λ done. IsFalse done → self.new ≡ self.old) }
        ensures err { OnErr result (self.new ≡ self.old) }
    {
        let at = unit_index as usize;
        if at >= self.units.len() {
            return Ok(false);
        }
        self.units[at].written(page, kept)
    }

    /// Notes that the host's storage can't write a page that the host was given. Returns true if a write of it was under way:
    /// that is over, the page is given again, and a Wake has the commands that wait tried again. A flush of it that still waits
    /// then ends with MEDIUM ERROR. `NoMemory` where memory was refused: the host says it again later.
    pub fn denied(&mut self, unit_index: u16, page: u64) -> Result<bool, NoMemory>
        ensures denied { IfOk result (λ done. IsTrue done → IsDealt self.old unit_index (Dealing.Deny page) self.new) }
        ensures otherwise { IfOk result (λ done. IsFalse done → self.new ≡ self.old) }
        ensures err { OnErr result (self.new ≡ self.old) }
    {
        let at = unit_index as usize;
        if at >= self.units.len() {
            return Ok(false);
        }
        self.units[at].denied(page)
    }
}
