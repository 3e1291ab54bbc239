//! The folded steps of a history, of which the code keeps what it may still be asked.

ghost use Rattle.std.specs.Prelude.{◌≡◌, ◌+◌, ◌^◌, ◌<◌, nat_lt, [], ◌∷◌, ◌++◌, length, max, slice_get, IfSome, IsTrue, ◌↔◌, is_some, true, ℕ, Some, OnOk, OnErr, if◌then◌else◌, None};
ghost use Rattle.unit_log.specs.Inner.Kept.{met_kind, commit_kind};
ghost use Rattle.unit_log.specs.Runs.{committed as is_committed, committed_one};
ghost use Rattle.unit_log.specs.Inner.Runs.{AreBefore, FoldsOne, SameRuns, runs_of};
ghost use Rattle.unit_log.specs.Inner.Folding.{mark_at, met_one, rule_if, with_mark, Forgets};

use crate::commits::Commits;
use crate::kind::StepKind;
use foundation::Record;
use ring_core::Ticket;
use std::alloc::{AllocError, Global};
use std::collections::VecDeque;
use std::marker::Model;
use unit_model::Rule;

/// A folded Abort or Reset: its place, and which tasks it met.
#[derive(Clone, Copy)]
pub struct FoldedMark {
    place: u64,
    rule: Rule,
}

/// The oldest steps of a history, which are folded.
#[derive(Drop)]
pub(crate) struct Folding {
    keeps: bool,
    len: u64,
    forgotten: u64,
    // The newest first.
    marks: VecDeque<FoldedMark>,
    // Kept where the unit confirms receipts.
    commits: Commits,
    gone: Record<StepKind>,
}

impl Model for Folding {
    ghost use Rattle.unit_log.specs.Folding.{Folded};
    ghost use Rattle.unit_log.specs.Inner.Folding.{AreFolded};

    ghost Value = { Folded };

    ghost view = { λ f. record { kinds = f.gone.items; forgotten = f.forgotten; keeps = f.keeps } };

    ghost invariant = { λ f. AreFolded f.keeps f.len f.forgotten f.marks.items f.commits f.gone.items };
}

/// Returns which tasks a step of a kind meets.
fn rule_of_kind(kind: StepKind) -> Option<Rule>
    ensures { result ≡ met_kind kind }
{
    match kind {
        StepKind::Abort(rule) => Some(rule),
        StepKind::Reset => Some(Rule::All),
        StepKind::Enter(_) | StepKind::Full(_) | StepKind::Commit(_) => None,
        StepKind::Busy(_) | StepKind::Leave(_) | StepKind::Resize => None,
    }
}

/// Returns which tasks a step meets, if there is one.
pub(crate) fn rule_of_one(kind: Option<StepKind>) -> Option<Rule>
    ensures { result ≡ met_one kind }
{
    match kind {
        None => None,
        Some(kind) => rule_of_kind(kind),
    }
}

/// Returns the rule of the mark at a place, where there is one. Marks are few: those that a task alive may still wait
/// for.
fn mark_there(marks: &VecDeque<FoldedMark>, place: u64) -> Option<Rule>
    ensures { result ≡ mark_at place marks.now.items }
{
    for at in 0..marks.len() {
        let found = rule_if(mark_of(marks, at), place);
        if found.is_some() {
            return found;
        }
    }
    None
}

/// Returns the mark of an index.
fn mark_of(marks: &VecDeque<FoldedMark>, at: usize) -> Option<FoldedMark>
    ensures { result ≡ slice_get marks.now.items at }
{
    match marks.get(at) {
        Some(mark) => Some(*mark),
        None => None,
    }
}

/// Returns the rule of a mark, where it is at the place.
fn rule_if(mark: Option<FoldedMark>, place: u64) -> Option<Rule>
    ensures { result ≡ rule_if place mark }
{
    match mark {
        None => None,
        Some(mark) => if mark.place == place {
            Some(mark.rule)
        } else {
            None
        },
    }
}

/// Adds a mark, where the step has one.
#[inline(always)]
fn push_mark(
    marks: &mut VecDeque<FoldedMark>,
    place: u64,
    rule: Option<Rule>,
) -> Result<(), AllocError>
    ensures ok { OnOk result (marks.new.items ≡ with_mark place rule marks.old.items) }
    ensures err { OnErr result ((marks.new.items ≡ marks.old.items) × (is_some rule ≡ true)) }
{
    match rule {
        None => Ok(()),
        Some(rule) => match marks.push_front(FoldedMark { place, rule }) {
            Ok(()) => Ok(()),
            Err(_) => Err(AllocError),
        },
    }
}

/// Returns whose Commit a step is; `None` where it is none.
fn committed(kind: StepKind) -> Option<Ticket>
    ensures { result ≡ is_committed kind }
{
    match kind {
        StepKind::Commit(ticket) => Some(ticket),
        StepKind::Enter(_) | StepKind::Full(_) | StepKind::Busy(_) => None,
        StepKind::Abort(_) | StepKind::Reset | StepKind::Resize | StepKind::Leave(_) => None,
    }
}

/// Returns whose Commit a step is, if there is one.
pub(crate) fn committed_of_one(kind: Option<StepKind>) -> Option<Ticket>
    ensures { result ≡ committed_one kind }
{
    match kind {
        None => None,
        Some(kind) => committed(kind),
    }
}

/// Returns true if of a folded step no more is kept than that it came.
#[inline(always)]
fn only_counts(kind: StepKind, keeps: bool) -> bool
    ensures mark { IsTrue result → met_kind kind ≡ None }
    ensures commit { IsTrue result → keeps ≡ true → is_committed kind ≡ None }
{
    match kind {
        StepKind::Enter(_) | StepKind::Full(_) | StepKind::Busy(_) | StepKind::Leave(_) => true,
        StepKind::Resize => true,
        StepKind::Commit(_) => !keeps,
        StepKind::Abort(_) | StepKind::Reset => false,
    }
}

/// Adds a Commit, where the step is one and Commits are kept.
#[inline(always)]
fn push_commit(
    keeps: bool,
    commits: &mut Commits,
    place: u64,
    ticket: Option<Ticket>,
) -> Result<(), AllocError>
    requires { keeps ≡ true → (q : ℕ) → AreBefore place (runs_of q commits.old) }
    ensures ok { OnOk result (FoldsOne keeps place ticket commits.old commits.new) }
    ensures err { OnErr result (SameRuns commits.old commits.new) }
{
    match ticket {
        None => Ok(()),
        Some(ticket) => if keeps {
            commits.add(place, ticket)
        } else {
            Ok(())
        },
    }
}

/// Removes the oldest mark, where it is before a place.
#[inline(always)]
fn forget_oldest(marks: &mut VecDeque<FoldedMark>, place: u64)
    ensures { Forgets place marks.old.items marks.new.items }
{
    match marks.back() {
        None => {}
        Some(mark) => {
            if mark.place < place {
                let _ = marks.pop_back();
            }
        }
    }
}

impl Folding {
    /// Begins with no steps.
    pub(crate) fn new(alloc: Global, keeps: bool) -> Folding
        ensures kinds { result.kinds ≡ [] }
        ensures keeps { result.keeps ≡ keeps }
        ensures forgotten { result.forgotten ≡ 0 }
    {
        Folding {
            keeps,
            len: 0,
            forgotten: 0,
            marks: VecDeque::new(alloc),
            commits: Commits::new(alloc),
            gone: Record::new(),
        }
    }

    /// Returns how many there are.
    #[inline(always)]
    pub(crate) fn len(&self) -> u64
        ensures { result ≡ length self.now.kinds }
    {
        self.len
    }

    /// Returns true if their Commits are kept.
    #[inline(always)]
    pub(crate) fn keeps(&self) -> bool
        ensures { result ≡ self.now.keeps }
    {
        self.keeps
    }

    /// Returns which tasks the step at a place met; `None` where it is no Abort and no Reset, or that is forgotten.
    pub(crate) fn rule_at(&self, place: u64) -> Option<Rule>
        ensures { result ≡ (if nat_lt place self.now.forgotten then None else met_one (slice_get self.now.kinds place)) }
    {
        if place < self.forgotten {
            return None;
        }
        mark_there(&self.marks, place)
    }

    /// Returns true if the step at a place is the Commit of a ticket, where Commits are kept.
    pub(crate) fn has_commit(&self, place: u64, ticket: Ticket) -> bool
        requires { self.now.keeps ≡ true }
        ensures { IsTrue result ↔ (slice_get self.now.kinds place ≡ Some (commit_kind ticket)) }
    {
        self.commits.stands(place, ticket)
    }

    /// Returns whose Commit the step at a place is, if it is one, where Commits are kept.
    pub(crate) fn commit_at(&self, place: u64) -> Option<Ticket>
        requires { self.now.keeps ≡ true }
        ensures { result ≡ committed_one (slice_get self.now.kinds place) }
    {
        self.commits.ticket_at(place)
    }

    /// Returns the place of the oldest Abort or Reset that is kept, if one is.
    #[inline(always)]
    pub(crate) fn oldest_mark(&self) -> Option<u64>
        ensures { IfSome result (λ place. place < length self.now.kinds) }
    {
        if self.marks.is_empty() {
            return None;
        }
        match self.marks.back() {
            Some(mark) if mark.place < self.len => Some(mark.place),
            Some(_) | None => None,
        }
    }

    /// Forgets which tasks steps up to a place met.
    #[inline(always)]
    pub(crate) fn forget(&mut self, place: u64)
        requires { place + 1 < 2 ^ 64 }
        ensures kinds { self.new.kinds ≡ self.old.kinds }
        ensures forgotten { self.new.forgotten ≡ max self.old.forgotten (place + 1) }
        ensures keeps { self.new.keeps ≡ self.old.keeps }
    {
        self.forgotten = self.forgotten.max(place + 1);
        forget_oldest(&mut self.marks, self.forgotten);
    }

    /// Folds one more step of which no more is kept than that it came.
    #[inline(always)]
    pub(crate) fn count(&mut self, kind: StepKind)
        requires few { length self.old.kinds + 1 < 2 ^ 64 }
        requires mark { met_kind kind ≡ None }
        requires commit { self.old.keeps ≡ true → is_committed kind ≡ None }
        ensures kinds { self.new.kinds ≡ self.old.kinds ++ kind ∷ [] }
        ensures forgotten { self.new.forgotten ≡ self.old.forgotten }
        ensures keeps { self.new.keeps ≡ self.old.keeps }
    {
        self.gone.push(&kind);
        self.len += 1;
    }

    /// Folds one more step. It takes memory for an Abort, a Reset and a Commit that is kept: `AllocError` where that
    /// was refused, with nothing changed.
    #[inline(always)]
    pub(crate) fn fold(&mut self, kind: StepKind) -> Result<(), AllocError>
        requires { length self.old.kinds + 1 < 2 ^ 64 }
        ensures ok { OnOk result (self.new.kinds ≡ self.old.kinds ++ kind ∷ []) }
        ensures err { OnErr result (self.new.kinds ≡ self.old.kinds) }
        ensures forgotten { self.new.forgotten ≡ self.old.forgotten }
        ensures keeps { self.new.keeps ≡ self.old.keeps }
    {
        if only_counts(kind, self.keeps) {
            self.gone.push(&kind);
            self.len += 1;
            return Ok(());
        }
        self.note(kind)
    }

    /// Does the same with a step of which more is kept than that it came.
    #[inline(never)]
    fn note(&mut self, kind: StepKind) -> Result<(), AllocError>
        requires { length self.old.kinds + 1 < 2 ^ 64 }
        ensures ok { OnOk result (self.new.kinds ≡ self.old.kinds ++ kind ∷ []) }
        ensures err { OnErr result (self.new.kinds ≡ self.old.kinds) }
        ensures forgotten { self.new.forgotten ≡ self.old.forgotten }
        ensures keeps { self.new.keeps ≡ self.old.keeps }
    {
        push_commit(self.keeps, &mut self.commits, self.len, committed(kind))?;
        push_mark(&mut self.marks, self.len, rule_of_kind(kind))?;
        self.gone.push(&kind);
        self.len += 1;
        Ok(())
    }
}
