//! The Commits of one queue among folded steps, by runs.

ghost use Rattle.std.specs.Prelude.{◌≡◌, ◌+◌, ◌*◌, ◌^◌, ◌<◌, ◌≤◌, nat_le, ◌↔◌, IsTrue, IfSome, OnOk, OnErr};
ghost use Rattle.unit_log.specs.Inner.Runs.{OnRun, InRuns, AreRising, AreNumbered, AreBefore, OneMore, Extends, FindsOn, FindsIn, last_place, last_number};

use std::alloc::AllocError;

/// Commits of one queue whose places rise by one stride, and the numbers of whose tickets do by another.
#[derive(Clone, Copy)]
pub struct Run {
    // The place and the number of the first.
    place: u64,
    number: u64,
    by_place: u32,
    by_number: u32,
    // The number of Commits behind the first.
    more: u32,
}

/// Returns a product, which always fits.
fn times(a: u32, b: u32) -> u64
    ensures { result ≡ a * b }
{
    a as u64 * b as u64
}

/// Makes a run of one Commit.
fn run_of(place: u64, number: u64) -> Run
    ensures one { OneMore (λ p n. ⊥) place number (λ p n. OnRun p n result) }
    ensures first { (result.place ≡ place) × (0 < result.by_place) × (last_place result ≡ place) }
    ensures last { last_number result ≡ number }
{
    Run {
        place,
        number,
        by_place: 1,
        by_number: 0,
        more: 0,
    }
}

/// Returns a difference, where there is one that is small enough for a stride.
fn stride(from: u64, to: u64) -> Option<u32>
    ensures { IfSome result (λ by. from + by ≡ to) }
{
    if to < from || to - from > u32::MAX as u64 {
        return None;
    }
    Some((to - from) as u32)
}

/// Makes a run of two Commits.
fn run_of_two(run: Run, place: u64, number: u64) -> Option<Run>
    requires { run.more ≡ 0 }
    ensures { IfSome result (λ r. Extends run place number r) }
{
    let by_place = stride(run.place, place)?;
    let by_number = stride(run.number, number)?;
    if by_place == 0 {
        return None;
    }
    Some(Run {
        by_place,
        by_number,
        more: 1,
        ..run
    })
}

/// Returns a run with one more, where that is the next by its strides.
fn run_of_more(run: Run, place: u64, number: u64) -> Option<Run>
    requires { 0 < run.by_place }
    ensures { IfSome result (λ r. Extends run place number r) }
{
    if run.more == u32::MAX || place < run.place || number < run.number {
        return None;
    }
    let more = run.more + 1;
    if place - run.place != times(more, run.by_place) {
        return None;
    }
    if number - run.number != times(more, run.by_number) {
        return None;
    }
    Some(Run { more, ..run })
}

/// Returns a run with one more Commit, where there is such a run.
fn extended(run: Run, place: u64, number: u64) -> Option<Run>
    requires { 0 < run.by_place }
    ensures { IfSome result (λ r. Extends run place number r) }
{
    if run.more == 0 {
        run_of_two(run, place, number)
    } else {
        run_of_more(run, place, number)
    }
}

/// Returns true if the Commit of a number stands at a place, by a run.
fn is_on(run: Run, place: u64, number: u64) -> bool
    requires { 0 < run.by_place }
    ensures { IsTrue result ↔ OnRun place number run }
{
    if place < run.place || number < run.number {
        return false;
    }
    let beyond = place - run.place;
    let steps = beyond / run.by_place as u64;
    if steps > run.more as u64 {
        return false;
    }
    times(steps as u32, run.by_place) == beyond
        && times(steps as u32, run.by_number) == number - run.number
}

/// Returns true if the Commit of a number stands at a place, by one of the runs. It halves them until one is left.
pub(crate) fn is_in(runs: &[Run], place: u64, number: u64) -> bool
    requires { AreRising 0 runs.now }
    ensures { IsTrue result ↔ InRuns place number runs.now }
{
    let behind = runs.partition_point(
        |r: &Run| -> bool
            ensures { result ≡ nat_le r.now.place place }
        { r.place <= place },
    );
    if behind == 0 {
        return false;
    }
    is_on(runs[behind - 1], place, number)
}

/// Returns the number of the Commit at a place, by a run.
fn number_on(run: Run, place: u64) -> Option<u64>
    requires strides { 0 < run.by_place }
    requires numbered { last_number run < 2 ^ 64 }
    ensures { FindsOn place run result }
{
    if place < run.place {
        return None;
    }
    let beyond = place - run.place;
    let steps = beyond / run.by_place as u64;
    if steps > run.more as u64 {
        return None;
    }
    if times(steps as u32, run.by_place) != beyond {
        return None;
    }
    Some(run.number + times(steps as u32, run.by_number))
}

/// Returns the number of the Commit at a place, by one of the runs. It halves them until one is left.
pub(crate) fn number_at(runs: &[Run], place: u64) -> Option<u64>
    requires rising { AreRising 0 runs.now }
    requires numbered { AreNumbered runs.now }
    ensures { FindsIn place runs.now result }
{
    let behind = runs.partition_point(
        |r: &Run| -> bool
            ensures { result ≡ nat_le r.now.place place }
        { r.place <= place },
    );
    if behind == 0 {
        return None;
    }
    number_on(runs[behind - 1], place)
}

/// Adds a Commit, behind all that are there.
pub(crate) fn add(runs: &mut Vec<Run>, place: u64, number: u64) -> Result<(), AllocError>
    requires rising { AreRising 0 runs.old.items }
    requires numbered { AreNumbered runs.old.items }
    requires before { AreBefore place runs.old.items }
    ensures rising { AreRising 0 runs.new.items }
    ensures numbered { AreNumbered runs.new.items }
    ensures before { OnOk result (AreBefore (place + 1) runs.new.items) }
    ensures ok { OnOk result (OneMore (λ p n. InRuns p n runs.old.items) place number (λ p n. InRuns p n runs.new.items)) }
    ensures err { OnErr result (runs.new.items ≡ runs.old.items) }
{
    let count = runs.len();
    if count > 0 {
        if let Some(run) = extended(runs[count - 1], place, number) {
            runs[count - 1] = run;
            return Ok(());
        }
    }
    match runs.push(run_of(place, number)) {
        Ok(()) => Ok(()),
        Err(_) => Err(AllocError),
    }
}
