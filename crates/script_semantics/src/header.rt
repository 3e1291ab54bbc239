//! The header of a script, and what it asks for.

use crate::known::Known;
use config::{
    CHANGE, Config, EVENT_IDX, INDIRECT_DESC, RING_PACKED, StartFault, UnitSpec, VERSION_1,
};
use guest_driver::{Rings, layout_of};
use guest_mem::PAGE_BYTES;
use ring_core::{FIRST_INDEX, Form, Layout, RingIndex};
use script_syntax::{
    Disk, Features, HeaderLine, LineFault, LineText, Memory, Queues, RingPlace, Start, Stop,
    text_of,
};
use std::alloc::{AllocError, Global};
use std::num::NonZeroU16;

/// Sets what may be set once.
fn set_once<T: Drop>(slot: &mut Option<T>, value: T) -> Result<(), LineFault> {
    if slot.is_some() {
        return Err(LineFault::OutOfPlace);
    }
    *slot = Some(value);
    Ok(())
}

/// The header, as far as it was read.
#[derive(Drop)]
pub(crate) struct Header {
    memory: Option<Memory>,
    form: Option<Form>,
    queues: Option<Queues>,
    start: Option<Start>,
    workers: Option<u16>,
    handoff: Option<u16>,
    features: Option<Features>,
    asks: Option<()>,
    units: Vec<UnitSpec>,
    caches: Vec<Option<usize>>,
}

impl Header {
    /// Makes a header of no line.
    pub(crate) fn new(alloc: Global) -> Header {
        Header {
            memory: None,
            form: None,
            queues: None,
            start: None,
            workers: None,
            handoff: None,
            features: None,
            asks: None,
            units: Vec::new(alloc),
            caches: Vec::new(alloc),
        }
    }

    /// Takes a line, and says whether it belongs to the header: a header line, or one that does
    /// nothing.
    pub(crate) fn take(&mut self, alloc: Global, line: &[u8]) -> Result<bool, Stop> {
        let words = match text_of(alloc, line)? {
            LineText::Blank => return Ok(true),
            LineText::NoText => return Ok(false),
            LineText::Words(words) => words,
        };
        let Some((keyword, values)) = words.split_first() else {
            return Ok(true);
        };
        match HeaderLine::read(keyword, values)? {
            Some(line) => {
                self.keep(line)?;
                Ok(true)
            }
            None => Ok(false),
        }
    }

    /// Keeps what a header line says. Each but `unit` stands once.
    fn keep(&mut self, line: HeaderLine) -> Result<(), Stop> {
        match line {
            HeaderLine::Memory(memory) => set_once(&mut self.memory, memory)?,
            HeaderLine::Ring(form) => set_once(&mut self.form, form)?,
            HeaderLine::Queues(queues) => set_once(&mut self.queues, queues)?,
            HeaderLine::Start(start) => set_once(&mut self.start, start)?,
            HeaderLine::Workers(workers) => set_once(&mut self.workers, workers)?,
            HeaderLine::Handoff(handoff) => set_once(&mut self.handoff, handoff)?,
            HeaderLine::Features(features) => set_once(&mut self.features, features)?,
            HeaderLine::Asks => set_once(&mut self.asks, ())?,
            HeaderLine::Unit(disk) => self.keep_unit(disk)?,
        }
        Ok(())
    }

    /// Keeps what a disk's line says.
    fn keep_unit(&mut self, disk: Disk) -> Result<(), Stop> {
        self.units.push(unit_of(disk))?;
        self.caches.push(disk.pages.map(|pages| pages as usize))?;
        Ok(())
    }

    /// Returns true if no disk is on a storage, but where memory isn't live.
    fn may_be_stored(&self, is_live: bool) -> bool {
        for cache in self.caches.iter() {
            if cache.is_some() && is_live {
                return false;
            }
        }
        true
    }

    /// Returns the device that the header asks for. `BadConfig` where a line lacks, the rings can't begin where one says,
    /// or a disk is on a storage while memory is live.
    pub(crate) fn wanted(self, alloc: Global) -> Result<Wanted, Stop> {
        let (Some(memory), Some(form), Some(queues)) = (self.memory, self.form, self.queues) else {
            return Err(Stop::Fault(LineFault::BadConfig));
        };
        let (Some(workers), Some(handoff)) = (self.workers, self.handoff) else {
            return Err(Stop::Fault(LineFault::BadConfig));
        };
        let Some(size) = NonZeroU16::new(queues.size) else {
            return Err(Stop::Fault(LineFault::BadConfig));
        };
        if !self.may_be_stored(memory.is_live) {
            return Err(Stop::Fault(LineFault::BadConfig));
        }
        let features = self.features.unwrap_or(Features::NONE);
        let rings = rings_of(form, size, self.start)?;
        let known = Known {
            memory: u64::from(memory.pages) * PAGE_BYTES as u64,
            is_live: memory.is_live,
            queues: queues.count,
            units: self.units.iter().copied().collect(alloc)?,
            caches: self.caches,
        };
        let config = Config {
            pages: memory.pages,
            features: features_of(form, features),
            queues: layouts(alloc, queues.count, rings)?,
            workers,
            handoff,
            units: self.units,
        };
        Ok(Wanted {
            config,
            known,
            rings,
            features,
            asks: self.asks.is_some(),
        })
    }
}

/// The device that a header asks for, of which no line lacks.
#[derive(Drop)]
pub struct Wanted {
    /// The device's configuration, which the device may still refuse.
    pub config: Config,
    /// The names that lines may use.
    pub known: Known,
    /// The rings that the driver begins with.
    pub rings: Rings,
    /// The features that the driver agrees to, beside those that each driver of the form does.
    pub features: Features,
    /// True if the device asks its drivers for notifications whenever it has settled.
    pub asks: bool,
}

impl Wanted {
    /// Returns true if threads may serve the device: its memory doesn't change between two reads of one step, its rings
    /// begin where memory of zeros has no chain, it asks nobody for notifications, and no disk is on a storage.
    pub fn suits_threads(&self) -> bool {
        let is_backed = self.known.caches.iter().any(|cache| cache.is_some());
        !self.known.is_live && self.rings.are_fresh() && !self.asks && !is_backed
    }
}

/// Returns why a script ends whose device wasn't had. Called with what the device said as it was opened.
pub fn stop_of(fault: StartFault) -> Stop {
    match fault {
        StartFault::BadConfig => Stop::Fault(LineFault::BadConfig),
        StartFault::NoMemory => Stop::NoMemory,
    }
}

/// Returns a disk, as the device is told of it.
fn unit_of(disk: Disk) -> UnitSpec {
    UnitSpec {
        target: disk.unit.target,
        lun: disk.unit.lun,
        blocks: disk.blocks,
        calm: disk.calm,
        profile: disk.profile,
        identity: disk.identity,
    }
}

/// Returns the feature bits of a device whose queues have this form and whose header asks for these features.
fn features_of(form: Form, features: Features) -> u64 {
    let form = match form {
        Form::Split => 0,
        Form::Packed => RING_PACKED,
    };
    let indirect = if features.indirect { INDIRECT_DESC } else { 0 };
    let event_idx = if features.event_idx { EVENT_IDX } else { 0 };
    let change = if features.change { CHANGE } else { 0 };
    VERSION_1 | form | indirect | event_idx | change
}

/// Returns where a ring of a form begins, by a position in it. `BadConfig` where a split ring is given a wrap counter, or a
/// packed one none.
fn index_of(form: Form, position: RingPlace) -> Result<RingIndex, LineFault> {
    let wrap = match (form, position.wrap) {
        (Form::Split, None) => true,
        (Form::Packed, Some(wrap)) => wrap,
        _ => return Err(LineFault::BadConfig),
    };
    Ok(RingIndex {
        index: position.index,
        wrap,
    })
}

/// Returns the rings that a header asks for: where no line says where they begin, at their first index.
fn rings_of(form: Form, size: NonZeroU16, start: Option<Start>) -> Result<Rings, LineFault> {
    let (available, used) = match start {
        Some(start) => (
            index_of(form, start.available)?,
            index_of(form, start.used)?,
        ),
        None => (FIRST_INDEX, FIRST_INDEX),
    };
    Ok(Rings {
        form,
        size,
        available,
        used,
    })
}

/// Returns where so many queues lie, and begin.
fn layouts(alloc: Global, count: u16, rings: Rings) -> Result<Vec<Layout>, AllocError> {
    let mut layouts = Vec::new(alloc);
    for queue in 0..count {
        layouts.push(Layout {
            first_available: rings.available,
            first_used: rings.used,
            ..layout_of(queue, rings.size.get())
        })?;
    }
    Ok(layouts)
}
