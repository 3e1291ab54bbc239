//! A bench that makes the acts of a row.

use crate::acts::{Act, Comes, Ends, Row, SIMPLE, Sent, Told};
use crate::calls;
use crate::calls::Came;
use crate::hand::{Hand, MOST_JOBS, name_of};
use crate::port::Ports;
use foundation::NoMemory;
use logical_unit::{Place, UnitState};
use request_intake::{Identity, Profile, UnitSpec};
use std::alloc::Global;
use unit_model::Rule;

/// A unit of 1,000 blocks with nothing pending.
pub(crate) const CALM: UnitSpec = UnitSpec {
    target: 0,
    lun: 0,
    blocks: 1000,
    calm: true,
    profile: Profile::Narrow,
    identity: Identity::PLAIN,
};

/// Another unit of its target.
pub(crate) const SECOND: UnitSpec = UnitSpec { lun: 1, ..CALM };

/// A unit with the address of the first that isn't calm.
const TWIN: UnitSpec = UnitSpec {
    calm: false,
    ..CALM
};

/// Units, of which the third is a twin of the first; the queues that their requests come from; and what their calls
/// gave.
#[derive(Drop)]
struct Bench {
    alloc: Global,
    ports: Ports,
    units: Vec<UnitState>,
    hand: Hand,
}

/// Makes a unit of target 0. It has no contract, so that what `new` promises is read once.
fn new_unit(alloc: Global, spec: &UnitSpec, keeps_replies: bool) -> Result<UnitState, NoMemory> {
    Ok(UnitState::new(alloc, spec, &[0, 1], keeps_replies)?)
}

/// Adds one more unit of target 0, and returns true if it can be had.
fn adds_unit(
    alloc: Global,
    units: &mut Vec<UnitState>,
    spec: &UnitSpec,
    keeps_replies: bool,
) -> bool {
    match new_unit(alloc, spec, keeps_replies) {
        Ok(unit) => units.push(unit).is_ok(),
        Err(_) => false,
    }
}

/// Makes the units; `None` where memory was refused.
fn units_of(alloc: Global, keeps_replies: bool) -> Option<Vec<UnitState>> {
    let mut units = Vec::new(alloc);
    if adds_unit(alloc, &mut units, &CALM, keeps_replies)
        && adds_unit(alloc, &mut units, &SECOND, keeps_replies)
        && adds_unit(alloc, &mut units, &TWIN, keeps_replies)
    {
        Some(units)
    } else {
        None
    }
}

impl Bench {
    /// Units of which no step was taken, and queues of which nothing was fetched; `None` where memory was refused.
    fn new(alloc: Global, keeps_replies: bool) -> Option<Bench> {
        let units = units_of(alloc, keeps_replies)?;
        let ports = Ports::new(alloc)?;
        let hand = Hand::new(alloc)?;
        Some(Bench {
            alloc,
            ports,
            units,
            hand,
        })
    }

    /// Makes acts. The number of the first that doesn't go as it says, from 0. Where memory is refused the acts end,
    /// and the units have to serve on.
    fn first_wrong(&mut self, acts: &[Act]) -> Option<usize> {
        for number in 0..acts.len() {
            let goes = self.makes(acts[number]);
            if goes != Ok(true) {
                return self.wrong_after(goes, number);
            }
        }
        None
    }

    /// Returns the number of an act that doesn't go as it says, unless memory was refused and the units serve on.
    fn wrong_after(&mut self, goes: Result<bool, NoMemory>, number: usize) -> Option<usize> {
        if goes == Err(NoMemory) && self.serves_on() {
            None
        } else {
            Some(number)
        }
    }

    /// Returns true if an act goes as it says.
    fn makes(&mut self, act: Act) -> Result<bool, NoMemory> {
        match act {
            Act::Enter(name, sent, comes) => self.enters(sent.unit, &sent, name, comes),
            Act::EnterAt(unit, name, sent, comes) => self.enters(unit, &sent, name, comes),
            Act::Fill(name, count) => self.fill(name, count),
            Act::Serve(name, count) => self.serve(name, count),
            Act::Commit(name, ends) => self.commits(0, name, ends),
            Act::CommitAt(unit, name, ends) => self.commits(unit, name, ends),
            Act::Leave(name, names) => Ok(self.leaves(name, true, names)),
            Act::LeaveUnknown(name) => Ok(self.leaves(name, false, &[])),
            Act::Abort(rule, place, names) => self.aborts(rule, place, names),
            Act::Aborts(count) => self.aborts_all(count),
            Act::Reset(place, names) => self.resets(place, names),
            Act::Block(number, byte) => self.has_block(number, byte),
            Act::TakeReply(number) => Ok(self.hand.take_reply(number)),
            _ => Ok(self.shows(act)),
        }
    }

    /// Returns true if an act that asks, and changes nothing, goes as it says.
    fn shows(&self, act: Act) -> bool {
        match act {
            Act::Steps(unit, steps) => match self.units.get(unit) {
                Some(unit) => unit.steps() == steps,
                None => false,
            },
            Act::Data(number, byte) => self.hand.has_data(number, byte),
            Act::Confirms(unit, number, confirms) => match self.units.get(unit) {
                Some(unit) => self.hand.is_confirmed(unit, number) == Some(confirms),
                None => false,
            },
            _ => match self.units.first() {
                Some(unit) => is_so(unit, act),
                None => false,
            },
        }
    }

    /// Returns true if a block of the first unit has this byte everywhere.
    fn has_block(&self, number: u64, byte: u8) -> Result<bool, NoMemory> {
        match self.units.first() {
            Some(unit) => has_bytes(self.alloc, unit, number, byte),
            None => Ok(false),
        }
    }

    /// Has a request fetched and enter at a unit, and returns the name of its job, and what it becomes.
    fn enter(&mut self, unit: usize, sent: &Sent) -> Result<Option<(u64, Comes)>, NoMemory> {
        let Some(arrival) = self.ports.arrive(sent)? else {
            return Ok(None);
        };
        let Some(unit) = self.units.get_mut(unit) else {
            return Ok(None);
        };
        let name = name_of(arrival.ticket().number, sent.to_other);
        let came = calls::enter(unit, arrival);
        self.keep(came, name)
    }

    /// Keeps the job of what came, or completes its chain where memory was refused.
    fn keep(&mut self, came: Came, name: u64) -> Result<Option<(u64, Comes)>, NoMemory> {
        let Came {
            comes,
            job,
            is_told,
            ..
        } = came;
        match comes {
            Some(comes) => {
                if self.hand.put(job) && is_told {
                    Ok(Some((name, comes)))
                } else {
                    Ok(None)
                }
            }
            None => {
                if self.ports.let_go(job) && is_told {
                    Err(NoMemory)
                } else {
                    Ok(None)
                }
            }
        }
    }

    /// Returns true if a request enters so at a unit, with a job of this name.
    fn enters(
        &mut self,
        unit: usize,
        sent: &Sent,
        name: u64,
        comes: Comes,
    ) -> Result<bool, NoMemory> {
        let came = self.enter(unit, sent)?;
        Ok(came == Some((name, comes)))
    }

    /// Has so many requests enter and run, with jobs named from this number on.
    fn fill(&mut self, name: u64, count: u64) -> Result<bool, NoMemory> {
        for number in 0..count {
            let came = self.enter(0, &SIMPLE)?;
            if came != Some((name.saturating_add(number), Comes::Run)) {
                return Ok(false);
            }
        }
        Ok(true)
    }

    /// Returns whether a request enters, runs and leaves, with a job of this name.
    fn serves_one(&mut self, name: u64) -> Result<bool, NoMemory> {
        if !self.enters(0, &SIMPLE, name, Comes::Run)? {
            return Ok(false);
        }
        let has_run = self.commits(0, name, Ends::Good(0))?;
        Ok(has_run && self.leaves(name, true, &[]))
    }

    /// Serves so many requests, one after another, with jobs named from this number on. Returns whether each enters,
    /// runs and leaves.
    fn serve(&mut self, name: u64, count: u64) -> Result<bool, NoMemory> {
        for number in 0..count {
            if !self.serves_one(name.saturating_add(number))? {
                return Ok(false);
            }
        }
        Ok(true)
    }

    /// Commits a job in hand at a unit.
    fn commit(&mut self, unit: usize, name: u64) -> Result<Ends, NoMemory> {
        match self.units.get_mut(unit) {
            Some(unit) => self.hand.commit(unit, name),
            None => Ok(Ends::Otherwise),
        }
    }

    /// Returns true if a job in hand ends so at its commit.
    fn commits(&mut self, unit: usize, name: u64, ends: Ends) -> Result<bool, NoMemory> {
        let found = self.commit(unit, name)?;
        Ok(found == ends)
    }

    /// Completes the chain of a job in hand, and returns true if its task leaves.
    fn leave(&mut self, name: u64) -> Option<bool> {
        let job = self.hand.take(name)?;
        let unit = self.units.get_mut(job.unit())?;
        let answered = self.ports.complete(job.into_chain())?;
        self.hand.leave(unit, answered)
    }

    /// Returns true if the task of a job leaves, or not, and these are handed out.
    fn leaves(&mut self, name: u64, has_left: bool, names: &[u64]) -> bool {
        self.leave(name) == Some(has_left) && self.hand.gets(names)
    }

    /// Returns true if an abort at the first unit takes this place, and these are handed out.
    fn aborts(&mut self, rule: Rule, place: Place, names: &[u64]) -> Result<bool, NoMemory> {
        match self.units.first_mut() {
            Some(unit) => {
                let found = self.hand.abort(unit, rule)?;
                Ok(found == Some(place) && self.hand.gets(names))
            }
            None => Ok(false),
        }
    }

    /// Returns true if so many aborts of all tasks of the first unit take the next places, and nothing is handed out.
    fn aborts_all(&mut self, count: u64) -> Result<bool, NoMemory> {
        for _ in 0..count {
            let Some(unit) = self.units.first() else {
                return Ok(false);
            };
            let place = unit.steps();
            if !self.aborts(Rule::All, place, &[])? {
                return Ok(false);
            }
        }
        Ok(true)
    }

    /// Returns true if a reset of the first unit takes this place, and these are handed out.
    fn resets(&mut self, place: Place, names: &[u64]) -> Result<bool, NoMemory> {
        match self.units.first_mut() {
            Some(unit) => {
                let found = self.hand.reset(unit)?;
                Ok(found == Some(place) && self.hand.gets(names))
            }
            None => Ok(false),
        }
    }

    /// Returns true if the job that was had last is committed and its chain completed, and it or nothing leaves.
    fn ends_one(&mut self) -> bool {
        match self.hand.last() {
            Some((name, unit)) => {
                self.commit(unit, name).is_ok()
                    && self.leave(name).is_some()
                    && self.hand.take_all()
            }
            None => false,
        }
    }

    /// Returns true if all jobs end, in hand and handed out.
    fn ends_all(&mut self) -> bool {
        for _ in 0..MOST_JOBS {
            if self.hand.last().is_none() {
                return true;
            }
            if !self.ends_one() {
                return false;
            }
        }
        false
    }

    /// Returns true if another task enters and runs. A ticket that the other queue's chains came up to is passed over.
    fn runs_another(&mut self) -> bool {
        match self.enter(0, &SIMPLE) {
            Ok(Some((_, Comes::Run))) => true,
            Ok(Some((_, Comes::Stale))) => match self.enter(0, &SIMPLE) {
                Ok(Some((_, comes))) => comes == Comes::Run,
                _ => false,
            },
            _ => false,
        }
    }

    /// Returns true if all tasks end and leave after memory was refused, and another enters, runs and leaves.
    fn serves_on(&mut self) -> bool {
        self.hand.take_all()
            && self.ends_all()
            && self.runs_another()
            && self.ends_all()
            && self.is_idle()
    }

    /// Returns true if no task of any unit is alive.
    fn is_idle(&self) -> bool {
        for unit in &self.units {
            if unit.is_alive(Rule::All) {
                return false;
            }
        }
        true
    }
}

/// Returns whether a unit's history is this, of which no step is folded.
fn has_history(unit: &UnitState, steps: &[Told]) -> bool {
    for number in 0..steps.len() {
        if unit.step(number as u64) != Some(steps[number].kind()) {
            return false;
        }
    }
    unit.steps() == steps.len() as u64 && unit.step(steps.len() as u64).is_none()
}

/// Returns true if a unit shows what an act says.
fn is_so(unit: &UnitState, act: Act) -> bool {
    match act {
        Act::ClearOf(place, is_clear) => unit.clear_of(place) == is_clear,
        Act::IsAlive(rule, is_alive) => unit.is_alive(rule) == is_alive,
        Act::Base(base) => unit.base() == base,
        Act::History(steps) => has_history(unit, steps),
        _ => false,
    }
}

/// Returns true if a block of a unit has this byte everywhere.
fn has_bytes(alloc: Global, unit: &UnitState, number: u64, byte: u8) -> Result<bool, NoMemory> {
    if number >= unit.capacity() {
        return Ok(false);
    }
    let mut bytes = Vec::new(alloc);
    unit.read_blocks(number, 1, &mut bytes)?;
    Ok(bytes.as_slice() == [byte; 512].as_slice())
}

/// Plays a row on units and queues of its own. The number of its first act that doesn't go as it says, from 0. Where
/// memory is refused on the way, its acts end there: what was refused changed no more than it may, and the units serve
/// on. `NoMemory` where the units can't be had.
pub(crate) fn first_wrong(alloc: Global, row: &Row) -> Result<Option<usize>, NoMemory> {
    match Bench::new(alloc, row.keeps_replies) {
        Some(mut bench) => Ok(bench.first_wrong(row.acts)),
        None => Err(NoMemory),
    }
}
