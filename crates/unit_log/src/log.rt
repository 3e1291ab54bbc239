//! The steps of a history, of which the code keeps what it is asked.

ghost use Rattle.std.specs.Prelude.{◌≡◌, ◌+◌, ◌-◌, ◌<◌, ◌≤◌, ◌%◌, nat_lt, [], ◌∷◌, length, max, OnOk, OnErr, IfSome, Option, Some, None, true, false, ◌⊎◌, IsTrue, ◌↔◌, if◌then◌else◌};
ghost use Rattle.std.specs.Option.{option_map};
ghost use Rattle.command_model.specs.PlainReply.{PlainReply, plain_of};
ghost use Rattle.unit_model.specs.Base.{most_before, most_kept};
ghost use Rattle.unit_model.specs.Counts.{counts_of};
ghost use Rattle.unit_model.specs.Receipts.{step_at, is_kept, Agrees};
ghost use Rattle.unit_model.specs.Steps.{Step};
ghost use Rattle.unit_log.specs.Kept.{kind_of};
ghost use Rattle.unit_log.specs.Inner.Kept.{reply_kept, commit_kind};
ghost use Rattle.unit_log.specs.Runs.{committed_one};
ghost use Rattle.unit_log.specs.Inner.Slots.{IsCalm};
ghost use Rattle.unit_log.specs.Recorded.{step_recorded, spare_of_deque, most_steps};
ghost use Rattle.unit_log.specs.Inner.Recorded.{AreFirst, Tells};

use crate::counted::CountedSteps;
use crate::folding::{Folding, committed_of_one, rule_of_one};
use crate::kept_replies::{agrees_there, push_where, reserve_where};
use crate::kind::StepKind;
use crate::recorded::RecordedStep;
use crate::ring::{KindRing, index_behind, index_of};
use command_model::Reply;
use ring_core::Ticket;
use std::alloc::{AllocError, Global};
use std::collections::VecDeque;
use std::marker::Model;
use unit_model::{Counts, Rule};

/// The number of latest steps whose replies a unit keeps, where it keeps replies.
pub const LATEST_KEPT: usize = 256;

/// The most bytes of data of a reply that is kept.
pub const LONGEST_KEPT: usize = 4096;

/// The most steps that are kept before a step is added that brings more.
const MOST_BEFORE: u64 = 4095;

/// The steps for which room is made before one is taken that brings more: that one, and two for each of 64 tasks.
const STEPS_AHEAD: usize = 129;

/// The fewest steps that are folded at once.
const FOLDED_AHEAD: u64 = 64;

/// The most steps of a history before a step is taken that brings more.
const MOST_STEPS: u64 = 0x8000_0000_0000_0000;

/// The steps of a history, seen with the newest first. Only proofs see the steps themselves. The code keeps the kind of
/// each. It keeps the reply of a Commit among the latest, where replies are kept and it isn't long.
#[derive(Drop)]
pub struct StepLog {
    keeps_replies: bool,
    // The number of steps that are folded.
    base: u64,
    // These, and maybe some of those that are kept.
    folded: Folding,
    // Those of all steps, of which the kept ones stand.
    kinds: KindRing,
    // Those of the latest steps, the oldest first, and none at all where replies aren't kept: a step then costs its
    // kind alone.
    replies: VecDeque<Option<Reply>>,
    noted: CountedSteps,
}

impl Model for StepLog {
    ghost use Rattle.std.specs.Prelude.{length};
    ghost use Rattle.unit_log.specs.Slots.{ring_room};
    ghost use Rattle.unit_log.specs.Recorded.{Logged, spare_of_deque, room_left, steps_left, steps_recorded};
    ghost use Rattle.unit_log.specs.Inner.Recorded.{AreRecorded};

    ghost Value = { Logged };

    ghost view = { λ l. record {
      steps = steps_recorded l.noted.items;
      keeps = l.keeps_replies;
      room = room_left l.keeps_replies (ring_room l.base l.kinds.cap (length l.kinds.kinds))
          (spare_of_deque l.replies) (steps_left (length l.kinds.kinds));
      base = l.base;
      forgotten = l.folded.forgotten;
    } };

    ghost invariant = { λ l. AreRecorded l.keeps_replies l.folded.keeps l.base l.kinds.cap l.folded.kinds l.kinds.kinds
        l.replies.items l.noted.items };
}

/// Folds the steps up to a place. Folded steps stay so. `AllocError` where memory was refused; then maybe fewer are
/// folded.
#[inline(never)]
fn cover(folded: &mut Folding, kinds: &KindRing, to: u64) -> Result<(), AllocError>
    requires covers { AreFirst folded.old.kinds kinds.now.kinds }
    requires stand { length kinds.now.kinds ≤ length folded.old.kinds + most_kept }
    requires there { to ≤ length kinds.now.kinds }
    ensures covers { AreFirst folded.new.kinds kinds.now.kinds }
    ensures more { length folded.old.kinds ≤ length folded.new.kinds }
    ensures forgotten { folded.new.forgotten ≡ folded.old.forgotten }
    ensures keeps { folded.new.keeps ≡ folded.old.keeps }
    ensures ok { OnOk result (to ≤ length folded.new.kinds) }
{
    let from = folded.len();
    let mut index = index_of(from);
    for place in from..to {
        folded.fold(kinds.stands_at(index, place))?;
        index = index_behind(index);
    }
    Ok(())
}

/// Does the same as `cover` where no Commits are kept, and none of these steps is an Abort or a Reset: nothing of them
/// has to be read.
#[inline(always)]
fn count_up(folded: &mut Folding, kinds: &KindRing, to: u64)
    requires covers { AreFirst folded.old.kinds kinds.now.kinds }
    requires stand { length kinds.now.kinds ≤ length folded.old.kinds + most_kept }
    requires there { to ≤ length kinds.now.kinds }
    requires calm { IsCalm (length folded.old.kinds) kinds.now.kinds }
    requires keeps { folded.old.keeps ≡ false }
    ensures covers { AreFirst folded.new.kinds kinds.now.kinds }
    ensures more { length folded.old.kinds ≤ length folded.new.kinds }
    ensures forgotten { folded.new.forgotten ≡ folded.old.forgotten }
    ensures keeps { folded.new.keeps ≡ folded.old.keeps }
    ensures to { to ≤ length folded.new.kinds }
{
    let from = folded.len();
    for place in from..to {
        folded.count(kinds.at(place));
    }
}

/// Folds the steps up to a place, by the one or the other.
#[inline(never)]
fn advance(folded: &mut Folding, kinds: &KindRing, to: u64) -> Result<(), AllocError>
    requires covers { AreFirst folded.old.kinds kinds.now.kinds }
    requires stand { length kinds.now.kinds ≤ length folded.old.kinds + most_kept }
    requires there { to ≤ length kinds.now.kinds }
    ensures covers { AreFirst folded.new.kinds kinds.now.kinds }
    ensures more { length folded.old.kinds ≤ length folded.new.kinds }
    ensures forgotten { folded.new.forgotten ≡ folded.old.forgotten }
    ensures keeps { folded.new.keeps ≡ folded.old.keeps }
    ensures ok { OnOk result (to ≤ length folded.new.kinds) }
{
    if !folded.keeps() && kinds.is_calm_from(folded.len()) {
        count_up(folded, kinds, to);
        return Ok(());
    }
    cover(folded, kinds, to)
}

/// Returns true if the step is the Commit of a ticket.
fn is_commit_of(kind: StepKind, ticket: Ticket) -> bool
    ensures { IsTrue result ↔ (kind ≡ commit_kind ticket) }
{
    kind == StepKind::Commit(ticket)
}

impl StepLog {
    /// Begins with no steps, for a unit that opens, and whether replies are to be kept.
    pub fn new(alloc: Global, keeps_replies: bool) -> StepLog
        ensures steps { result.steps ≡ [] }
        ensures keeps { result.keeps ≡ keeps_replies }
        ensures base { result.base ≡ 0 }
        ensures forgotten { result.forgotten ≡ 0 }
    {
        StepLog {
            keeps_replies,
            base: 0,
            folded: Folding::new(alloc, keeps_replies),
            kinds: KindRing::new(alloc),
            replies: VecDeque::new(alloc),
            noted: CountedSteps::new(),
        }
    }

    /// Returns how many steps there are.
    pub fn len(&self) -> u64
        ensures { result ≡ length self.now.steps }
    {
        self.kinds.len()
    }

    /// Returns how much was done by them.
    pub fn counts(&self) -> Counts
        ensures { result ≡ counts_of self.now.steps }
    {
        self.noted.counts()
    }

    /// Returns how many of them are folded: the oldest.
    pub fn base(&self) -> u64
        ensures { result ≡ self.now.base }
    {
        self.base
    }

    /// Returns true if replies are kept.
    pub fn keeps_replies(&self) -> bool
        ensures { result ≡ self.now.keeps }
    {
        self.keeps_replies
    }

    /// Returns what the step at a place is, by how many steps stood before it; `None` where it is folded, or there is
    /// none yet.
    pub fn kind_at(&self, place: u64) -> Option<StepKind>
        ensures { result
            ≡ (if nat_lt place self.now.base then None else option_map kind_of (step_at place self.now.steps)) }
    {
        if place < self.base {
            return None;
        }
        self.kinds.get(place)
    }

    /// Returns which tasks the step at a place met; `None` where it is no Abort and no Reset, where there is none yet,
    /// and where that is forgotten.
    pub fn rule_at(&self, place: u64) -> Option<Rule>
        ensures { Tells self.now.forgotten place self.now.steps result }
    {
        if place < self.base {
            return self.folded.rule_at(place);
        }
        rule_of_one(self.kinds.get(place))
    }

    /// Returns the step number of the oldest folded Abort or Reset whose tasks are still known, if there is one.
    #[inline(always)]
    pub fn oldest_mark(&self) -> Option<u64>
        ensures { IfSome result (λ place. place < length self.now.steps) }
    {
        self.folded.oldest_mark()
    }

    /// Forgets of folded steps up to a place which tasks they met. The unit calls it for the oldest, once no task is
    /// alive that entered before it.
    #[inline(always)]
    pub fn forget(&mut self, place: u64)
        requires { place < length self.old.steps }
        ensures { self.new ≡ record self.old { forgotten = max self.old.forgotten (place + 1) } }
    {
        let _steps = self.len();
        self.folded.forget(place);
    }

    /// Folds the oldest steps, until at most 4,095 are kept, and makes room for those ahead: one, and two for each of
    /// 64 tasks that may be alive. The unit calls it before it takes a step that brings more. `AllocError`, with all as
    /// before, where memory was refused, or 2^63 steps stand.
    #[inline(always)]
    pub fn make_way(&mut self) -> Result<(), AllocError>
        ensures steps { self.new.steps ≡ self.old.steps }
        ensures keeps { self.new.keeps ≡ self.old.keeps }
        ensures forgotten { self.new.forgotten ≡ self.old.forgotten }
        ensures base { OnOk result (self.new.base ≡ length self.old.steps - most_before) }
        ensures room { OnOk result (129 ≤ self.new.room) }
        ensures limit { OnOk result (length self.old.steps < most_steps) }
        ensures kept { OnErr result ((self.new.base ≡ self.old.base) × (self.old.room ≤ self.new.room)) }
    {
        let len = self.kinds.len();
        if len >= MOST_STEPS {
            return Err(AllocError);
        }
        let to = len.saturating_sub(MOST_BEFORE);
        if to > self.folded.len() {
            advance(&mut self.folded, &self.kinds, to + (FOLDED_AHEAD - 1))?;
        }
        reserve_where(self.keeps_replies, &mut self.replies, STEPS_AHEAD)?;
        self.kinds.make_room()?;
        self.base = to;
        Ok(())
    }

    /// Adds one more step at the index of its place, as [`StepLog::push`] does.
    // Within its callers the data that proofs alone see are never built.
    #[inline(always)]
    fn push_at(&mut self, index: usize, step: RecordedStep, reply: Option<Reply>)
        requires index { index ≡ length self.old.steps % most_kept }
        requires room { 0 < self.old.room }
        requires reply { option_map plain_of reply ≡ reply_kept self.old.keeps (step_recorded step) }
        ensures steps { self.new.steps ≡ step_recorded step ∷ self.old.steps }
        ensures keeps { self.new.keeps ≡ self.old.keeps }
        ensures room { self.old.room ≤ self.new.room + 1 }
        ensures base { self.new.base ≡ self.old.base }
        ensures forgotten { self.new.forgotten ≡ self.old.forgotten }
    {
        let kind = step.kind();
        self.noted.push(&step);
        push_where(self.keeps_replies, &mut self.replies, reply);
        self.kinds.push_at(index, kind);
    }

    /// Adds one more step, for which room was made, with its reply where that is kept: of a Commit, in a log that keeps
    /// replies, and not longer than [`LONGEST_KEPT`]. The unit calls it as it takes the step. It takes no memory.
    #[inline(always)]
    pub fn push(&mut self, step: RecordedStep, reply: Option<Reply>)
        requires room { 0 < self.old.room }
        requires reply { option_map plain_of reply ≡ reply_kept self.old.keeps (step_recorded step) }
        ensures steps { self.new.steps ≡ step_recorded step ∷ self.old.steps }
        ensures keeps { self.new.keeps ≡ self.old.keeps }
        ensures room { self.old.room ≤ self.new.room + 1 }
        ensures base { self.new.base ≡ self.old.base }
        ensures forgotten { self.new.forgotten ≡ self.old.forgotten }
    {
        let index = index_of(self.len());
        self.push_at(index, step, reply);
    }

    /// Adds three steps, one after another, for which room was made, in a log that keeps no replies. The unit calls it
    /// for a request that it served to its end. It takes no memory.
    #[inline(always)]
    pub fn push_three(&mut self, first: RecordedStep, second: RecordedStep, third: RecordedStep)
        requires room { 3 ≤ self.old.room }
        requires keeps { self.old.keeps ≡ false }
        ensures steps { self.new.steps
            ≡ step_recorded third ∷ step_recorded second ∷ step_recorded first ∷ self.old.steps }
        ensures keeps { self.new.keeps ≡ self.old.keeps }
        ensures room { self.old.room ≤ self.new.room + 3 }
        ensures base { self.new.base ≡ self.old.base }
        ensures forgotten { self.new.forgotten ≡ self.old.forgotten }
    {
        let index = index_of(self.len());
        self.push_at(index, first, None);
        let next = index_behind(index);
        self.push_at(next, second, None);
        self.push_at(index_behind(next), third, None);
    }

    /// Returns whose Commit the step at a place is, if it is one. A log that keeps no replies knows no Commits that are
    /// folded.
    pub fn commit_at(&self, place: u64) -> Option<Ticket>
        requires { (self.now.keeps ≡ true) ⊎ (self.now.base ≤ place) }
        ensures { result ≡ committed_one (option_map kind_of (step_at place self.now.steps)) }
    {
        if place < self.base {
            return self.folded.commit_at(place);
        }
        committed_of_one(self.kinds.get(place))
    }

    /// Returns true if the Commit of a ticket stands at a place, with this reply where both have one: the log, where it
    /// still keeps it. A log that keeps no replies knows no Commits that are folded.
    pub fn has_commit(&self, place: u64, ticket: Ticket, reply: &Option<Reply>) -> bool
        requires { (self.now.keeps ≡ true) ⊎ (self.now.base ≤ place) }
        ensures { IsTrue result ↔ ((r : PlainReply) × (step_at place self.now.steps ≡ Some (Step.Commit ticket r))
            × Agrees (is_kept self.now.keeps (length self.now.steps) place r) (option_map plain_of reply.now) r) }
    {
        if place < self.base {
            return self.folded.has_commit(place, ticket);
        }
        match self.kind_at(place) {
            None => false,
            Some(kind) => is_commit_of(kind, ticket)
                && agrees_there(&self.replies, self.kinds.len(), place, reply),
        }
    }
}
