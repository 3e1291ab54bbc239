//! The pages of a unit's disk that come and go, and the host that has its storage.

use crate::unit::UnitState;
use backed_store::{GivenPage, PAGE_BYTES};
use foundation::NoMemory;

impl UnitState {
    ghost use Rattle.std.specs.Prelude.{◌≡◌, true, length, IsTrue, IsFalse, IfOk, OnErr, IfSome, IfNone};
    ghost use Rattle.block_store.specs.Storage.{IsPageOf, Dealing, storage_by};
    ghost use Rattle.std.specs.Prelude.{◌*◌, ◌<◌};
    ghost use Rattle.unit_model.specs.Contents.{capacity_of};
    ghost use Rattle.unit_model.specs.Unit.{is_backed, MayDeal, dealing};

    /// Returns the next page of its disk that the host is to read, 8 blocks each, and counts it as asked for. The host hands
    /// it in by [`UnitState::load`], or says that it doesn't by [`UnitState::load_failed`], or that it can't by
    /// [`UnitState::lost`]. `None` where no command waits for a page that the host wasn't asked for; so always where the disk
    /// isn't backed.
    pub fn next_wanted(&mut self) -> Option<u64>
        ensures same { self.new ≡ self.old }
        ensures backed { IfSome result (λ page. is_backed self.old ≡ true) }
        ensures below { IfSome result (λ page. 8 * page < capacity_of self.old.opening self.old.steps) }
    {
        self.store.next_wanted()
    }

    /// Takes the bytes of a page that the host was asked for, as its storage has them. Returns true if they now stand in
    /// memory, so that commands that wait for them may be tried again. Then the page isn't lost any longer. A host that is
    /// given the page meanwhile says [`UnitState::load_failed`] in place of this. `NoMemory` where memory was refused; the
    /// page may be handed in again.
    pub fn load(&mut self, page: u64, bytes: &[u8]) -> Result<bool, NoMemory>
        requires len { length bytes.now ≡ PAGE_BYTES }
        // The premise: the storage gives back what it kept, or had at the opening.
        requires kept { IfSome self.old.storage (λ s. IsPageOf (storage_by s).kept page bytes.now) }
        ensures may { IfOk result (λ done. IsTrue done → MayDeal self.old (Dealing.Load page)) }
        ensures loaded { IfOk result (λ done. IsTrue done → self.new ≡ dealing (Dealing.Load page) self.old) }
        ensures otherwise { IfOk result (λ done. IsFalse done → self.new ≡ self.old) }
        ensures err { OnErr result (self.new ≡ self.old) }
    {
        self.store.load(page, bytes)
    }

    /// Notes that the host won't hand in a page that it was asked for. Returns true if a command may wait for it.
    pub fn load_failed(&mut self, page: u64) -> bool
        ensures same { self.new ≡ self.old }
    {
        self.store.load_failed(page)
    }

    /// Notes that the host's storage can't read a page that the host was asked for. Returns true if a command may wait for it:
    /// then those that wait may be tried again, and one that needs the page ends with MEDIUM ERROR.
    pub fn lost(&mut self, page: u64) -> bool
        ensures may { IsTrue result → MayDeal self.old (Dealing.Lose page) }
        ensures lost { IsTrue result → self.new ≡ dealing (Dealing.Lose page) self.old }
        ensures otherwise { IsFalse result → self.new ≡ self.old }
    {
        self.store.lost(page)
    }

    /// Gives the host the next page that it is to write to its storage, as the unit's blocks are now. The host says by
    /// [`UnitState::written`] what became of it. `None` where it has each such page already. Then commands that wait may be
    /// tried again, since room that was made for a change and isn't used is free. `NoMemory` where memory was refused.
    pub fn give(&mut self) -> Result<Option<GivenPage>, NoMemory>
        ensures may { IfOk result (λ given. IfSome given (λ g. MayDeal self.old (Dealing.Give g.page g.bytes.items))) }
        ensures given { IfOk result (λ given. IfSome given (λ g. self.new ≡ dealing (Dealing.Give g.page g.bytes.items) self.old)) }
        ensures len { IfOk result (λ given. IfSome given (λ g. length g.bytes.items ≡ PAGE_BYTES)) }
        ensures none { IfOk result (λ given. IfNone given (self.new ≡ self.old)) }
        ensures err { OnErr result (self.new ≡ self.old) }
    {
        self.store.give()
    }

    /// Notes that the host's write of a page is over: its storage gives the page back as it was given, after a crash too, or
    /// the write failed, and the page is given again. One that can't be written is [`UnitState::denied`]. Returns true if its
    /// storage has the page so now: not where no write of it was under way. `NoMemory` where memory was refused: the host says
    /// it again later.
    pub fn written(&mut self, page: u64, kept: bool) -> Result<bool, NoMemory>
        ensures told { IfOk result (λ done. IsTrue done → IsTrue kept) }
        ensures may { IfOk result (λ done. IsTrue done → MayDeal self.old (Dealing.Keep page)) }
        ensures kept { IfOk result (λ done. IsTrue done → self.new ≡ dealing (Dealing.Keep page) self.old) }
        ensures otherwise { IfOk result (λ done. IsFalse done → self.new ≡ self.old) }
        ensures err { OnErr result (self.new ≡ self.old) }
    {
        self.store.written(page, kept)
    }

    /// Notes that the host's storage can't write a page that the host was given. Returns true if a write of it was under way:
    /// that is over then, and the page is given again. A command that flushes it may be tried again, and ends with MEDIUM
    /// ERROR. `NoMemory` where memory was refused: the host says it again later.
    pub fn denied(&mut self, page: u64) -> Result<bool, NoMemory>
        ensures may { IfOk result (λ done. IsTrue done → MayDeal self.old (Dealing.Deny page)) }
        ensures denied { IfOk result (λ done. IsTrue done → self.new ≡ dealing (Dealing.Deny page) self.old) }
        ensures otherwise { IfOk result (λ done. IsFalse done → self.new ≡ self.old) }
        ensures err { OnErr result (self.new ≡ self.old) }
    {
        self.store.denied(page)
    }
}
