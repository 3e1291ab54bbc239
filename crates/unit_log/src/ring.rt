//! The kinds of a history's steps, of which the latest stand.

ghost use Rattle.std.specs.Prelude.{◌≡◌, ◌+◌, ◌^◌, ◌<◌, ◌≤◌, ◌%◌, min, [], ◌∷◌, ◌++◌, length, slice_get, OnOk, Some, None, ℕ, IsTrue, is_some, if◌then◌else◌};
ghost use Rattle.std.specs.Vec.{vec_capacity};
ghost use Rattle.unit_model.specs.Base.{most_kept};
ghost use Rattle.unit_log.specs.Inner.Folding.{met_one};
ghost use Rattle.unit_log.specs.Inner.Kept.{met_kind};
ghost use Rattle.unit_log.specs.Inner.Slots.{with_slot};

use crate::kind::StepKind;
use foundation::Record;
use std::alloc::{AllocError, Global};
use std::marker::Model;

/// The most kinds that stand.
const MOST_KEPT: usize = 4224;

/// The steps for which room is made at first. By doubling it comes to what is kept at most.
const FIRST_ROOM: usize = 132;

/// The kinds of steps, by place. The latest stand, each at the remainder of its place: one more goes where the oldest
/// stood, so nothing has to be taken out.
#[derive(Drop)]
pub(crate) struct KindRing {
    len: u64,
    // Behind the last Abort or Reset.
    calm: u64,
    slots: Vec<StepKind>,
    all: Record<StepKind>,
}

impl Model for KindRing {
    ghost use Rattle.std.specs.Vec.{vec_capacity};
    ghost use Rattle.unit_log.specs.Slots.{Ringed};
    ghost use Rattle.unit_log.specs.Inner.Slots.{AreRing};

    ghost Value = { Ringed };

    ghost view = { λ r. record { kinds = r.all.items; cap = vec_capacity r.slots } };

    ghost invariant = { λ r. AreRing r.len r.calm r.slots.items r.all.items };
}

/// Returns at which index a place is.
#[inline(always)]
pub(crate) fn index_of(place: u64) -> usize
    ensures { result ≡ place % most_kept }
{
    (place % MOST_KEPT as u64) as usize
}

/// Returns the index of the place behind that of an index.
#[inline(always)]
pub(crate) fn index_behind(index: usize) -> usize
    requires { index < most_kept }
    ensures { result ≡ (index + 1) % most_kept }
{
    if index + 1 == MOST_KEPT { 0 } else { index + 1 }
}

/// Returns true if a step is an Abort or a Reset.
#[inline(always)]
fn is_mark(kind: StepKind) -> bool
    ensures { result ≡ is_some (met_kind kind) }
{
    match kind {
        StepKind::Abort(_) | StepKind::Reset => true,
        StepKind::Enter(_) | StepKind::Full(_) | StepKind::Commit(_) => false,
        StepKind::Busy(_) | StepKind::Leave(_) | StepKind::Resize => false,
    }
}

/// Returns behind which place there is no Abort and no Reset, with one more step.
#[inline(always)]
fn calm_with(calm: u64, len: u64, kind: StepKind) -> u64
    requires { len + 1 < 2 ^ 64 }
    ensures { result ≡ (if is_some (met_kind kind) then len + 1 else calm) }
{
    if is_mark(kind) { len + 1 } else { calm }
}

/// Puts one more at an index.
#[inline(always)]
fn put(slots: &mut Vec<StepKind>, at: usize, kind: StepKind)
    requires room { min (length slots.old.items) 4223 < vec_capacity slots.old }
    requires few { length slots.old.items ≤ most_kept }
    requires at { at < most_kept }
    ensures items { slots.new.items ≡ with_slot at kind slots.old.items }
    ensures capacity { vec_capacity slots.new ≡ vec_capacity slots.old }
{
    if slots.len() < MOST_KEPT {
        slots.push_reserved(kind);
    } else {
        slots[at] = kind;
    }
}

impl KindRing {
    /// Makes a ring of none.
    pub(crate) fn new(alloc: Global) -> KindRing
        ensures { result.kinds ≡ [] }
    {
        KindRing {
            len: 0,
            calm: 0,
            slots: Vec::new(alloc),
            all: Record::new(),
        }
    }

    /// Returns how many there are.
    #[inline(always)]
    pub(crate) fn len(&self) -> u64
        ensures { result ≡ length self.now.kinds }
    {
        self.len
    }

    /// Returns the kind of the step at a place, whose index is given, where that still stands.
    #[inline(always)]
    pub(crate) fn stands_at(&self, index: usize, place: u64) -> StepKind
        requires index { index ≡ place % most_kept }
        requires there { place < length self.now.kinds }
        requires stands { length self.now.kinds ≤ place + most_kept }
        ensures { slice_get self.now.kinds place ≡ Some result }
    {
        self.slots[index]
    }

    /// Returns the kind of the step at a place, where that still stands.
    #[inline(always)]
    pub(crate) fn at(&self, place: u64) -> StepKind
        requires there { place < length self.now.kinds }
        requires stands { length self.now.kinds ≤ place + most_kept }
        ensures { slice_get self.now.kinds place ≡ Some result }
    {
        self.stands_at(index_of(place), place)
    }

    /// Returns the kind of the step at a place that isn't overwritten yet; `None` where no step stands there.
    pub(crate) fn get(&self, place: u64) -> Option<StepKind>
        requires { length self.now.kinds ≤ place + most_kept }
        ensures { result ≡ slice_get self.now.kinds place }
    {
        if place < self.len {
            Some(self.at(place))
        } else {
            None
        }
    }

    /// Returns true if no step from a place on is an Abort or a Reset.
    #[inline(always)]
    pub(crate) fn is_calm_from(&self, place: u64) -> bool
        ensures { IsTrue result → (p : ℕ) → place ≤ p → met_one (slice_get self.now.kinds p) ≡ None }
    {
        self.calm <= place
    }

    /// Makes room for the steps ahead, by doubling, up to all that may stand.
    #[inline(always)]
    pub(crate) fn make_room(&mut self) -> Result<(), AllocError>
        ensures kinds { self.new.kinds ≡ self.old.kinds }
        ensures cap { self.old.cap ≤ self.new.cap }
        ensures room { OnOk result (min (length self.old.kinds + 129) most_kept ≤ self.new.cap) }
    {
        if self.slots.capacity() >= MOST_KEPT {
            return Ok(());
        }
        grow(&mut self.slots)
    }

    /// Adds one more at its index, for which there is room. It takes no memory.
    #[inline(always)]
    pub(crate) fn push_at(&mut self, index: usize, kind: StepKind)
        requires index { index ≡ length self.old.kinds % most_kept }
        requires room { min (length self.old.kinds) 4223 < self.old.cap }
        requires few { length self.old.kinds + 1 < 2 ^ 64 }
        ensures kinds { self.new.kinds ≡ self.old.kinds ++ kind ∷ [] }
        ensures cap { self.new.cap ≡ self.old.cap }
    {
        self.calm = calm_with(self.calm, self.len, kind);
        put(&mut self.slots, index, kind);
        self.all.push(&kind);
        self.len += 1;
    }
}

/// Makes room for more, where not all indices are there yet.
#[inline(never)]
fn grow(slots: &mut Vec<StepKind>) -> Result<(), AllocError>
    requires { length slots.old.items ≤ most_kept }
    ensures items { slots.new.items ≡ slots.old.items }
    ensures capacity { vec_capacity slots.old ≤ vec_capacity slots.new }
    ensures room { OnOk result (min (length slots.old.items + 129) most_kept ≤ vec_capacity slots.new) }
{
    let len = slots.len();
    let wanted = (len + FIRST_ROOM).min(MOST_KEPT);
    slots.reserve(wanted - len)
}
