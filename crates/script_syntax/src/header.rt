//! The lines of a script's header.

ghost use Rattle.std.specs.Prelude.{◌≡◌, ◌⊎◌, length, [], ◌∷◌, true, Ok, codes, IsOk, IfOk, IfErr, ◌↔◌};

use crate::fault::LineFault;
use crate::naming::read_names;
use crate::ring_place::{RingPlace, ring_place};
use crate::values::{number, unit};
use cdb::Profile;
use command_model::Identity;
use ring_core::Form;
use scsi_codec::Address;

/// The largest size of a queue that a script may name.
pub(crate) const LARGEST_SIZE: u16 = 256;

/// The guest memory that a header asks for.
#[derive(Clone, Copy)]
pub struct Memory {
    /// Its pages, of 4,096 bytes.
    pub pages: u32,
    /// True if lines may change bytes between two reads of the device.
    pub is_live: bool,
}

/// The queues that a header asks for.
#[derive(Clone, Copy)]
pub struct Queues {
    /// The number of queues.
    pub count: u16,
    /// The number of descriptors of each, at most 256 as a line is read.
    pub size: u16,
}

/// The positions where the rings of all queues begin.
#[derive(Clone, Copy)]
pub struct Start {
    /// Where the driver makes its first chain available.
    pub available: RingPlace,
    /// Where the device uses its first chain.
    pub used: RingPlace,
}

/// A disk that a header asks for.
#[derive(Clone, Copy)]
pub struct Disk {
    /// Its address.
    pub unit: Address,
    /// Its capacity in blocks of 512 bytes.
    pub blocks: u64,
    /// True if nothing is pending at the start; else POWER ON, RESET, OR BUS DEVICE RESET OCCURRED is.
    pub calm: bool,
    /// The profile of its commands.
    pub profile: Profile,
    /// Names it to a host.
    pub identity: Identity,
    /// The most of its pages, of 8 blocks, that are in memory, where a storage has the others; `None` where all of it is in
    /// memory.
    pub pages: Option<u32>,
}

/// The features that a header asks for, beside those that each device of its form has.
#[derive(Clone, Copy)]
pub struct Features {
    /// Indirect descriptors.
    pub indirect: bool,
    /// Event indices.
    pub event_idx: bool,
    /// Events of capacities that change.
    pub change: bool,
}

impl Features {
    /// Asks for no feature.
    pub const NONE: Features = Features {
        indirect: false,
        event_idx: false,
        change: false,
    };

    /// Returns these features and the one of a word. `BadValue` where no feature has that word.
    pub(crate) fn with(self, word: &str) -> Result<Features, LineFault>
        ensures indirect { word.now ≡ codes "indirect" → result ≡ Ok (record self { indirect = true }) }
        ensures event_idx { word.now ≡ codes "event_idx" → result ≡ Ok (record self { event_idx = true }) }
        ensures change { word.now ≡ codes "change" → result ≡ Ok (record self { change = true }) }
        ensures named { IsOk result →
            (word.now ≡ codes "indirect") ⊎ (word.now ≡ codes "event_idx") ⊎ (word.now ≡ codes "change") }
        ensures fault { IfErr result (λ fault. fault ≡ LineFault.BadValue) }
    {
        match word {
            "indirect" => Ok(Features {
                indirect: true,
                ..self
            }),
            "event_idx" => Ok(Features {
                event_idx: true,
                ..self
            }),
            "change" => Ok(Features {
                change: true,
                ..self
            }),
            _ => Err(LineFault::BadValue),
        }
    }
}

/// A header line. It isn't known here which of its numbers the device takes.
#[derive(Clone, Copy)]
pub enum HeaderLine {
    /// Guest memory.
    Memory(Memory),
    /// The form of the queues.
    Ring(Form),
    /// Their number and size.
    Queues(Queues),
    /// The positions where their rings begin.
    Start(Start),
    /// The number of workers.
    Workers(u16),
    /// The number of jobs that the hand-off holds.
    Handoff(u16),
    /// Features beside those that each device of its form has.
    Features(Features),
    /// The device asks its drivers for notifications whenever it has settled.
    Asks,
    /// A disk.
    Unit(Disk),
}

/// Reads the values of guest memory.
fn read_memory(values: &[&str]) -> Result<Memory, LineFault> {
    let (pages, is_live) = match values {
        [pages] => (*pages, false),
        [pages, word] if *word == "live" => (*pages, true),
        _ => return Err(LineFault::BadValue),
    };
    let pages = number::<u32>(pages)?;
    Ok(Memory { pages, is_live })
}

/// Reads the positions where rings begin.
fn read_start(values: &[&str]) -> Result<Start, LineFault> {
    let [available, used] = values else {
        return Err(LineFault::BadValue);
    };
    let available = ring_place(available)?;
    let used = ring_place(used)?;
    Ok(Start { available, used })
}

/// Reads the name of a profile.
pub(crate) fn profile(word: &str) -> Result<Profile, LineFault>
    ensures narrow { word.now ≡ codes "narrow" → result ≡ Ok Profile.Narrow }
    ensures wide { word.now ≡ codes "wide" → result ≡ Ok Profile.Wide }
    ensures named { IsOk result → (word.now ≡ codes "narrow") ⊎ (word.now ≡ codes "wide") }
    ensures fault { IfErr result (λ fault. fault ≡ LineFault.BadValue) }
{
    match word {
        "narrow" => Ok(Profile::Narrow),
        "wide" => Ok(Profile::Wide),
        _ => Err(LineFault::BadValue),
    }
}

/// Reads the values of a unit.
fn read_disk(values: &[&str]) -> Result<Disk, LineFault> {
    let [target, lun, blocks, words @ ..] = values else {
        return Err(LineFault::BadValue);
    };
    let (calm, profile, names) = match words {
        [] => (false, Profile::Narrow, words),
        [calm] if *calm == "calm" => (true, Profile::Narrow, &words[1..]),
        [word, name, names @ ..] if *word == "profile" => (false, profile(name)?, names),
        [calm, word, name, names @ ..] if *calm == "calm" && *word == "profile" => {
            (true, profile(name)?, names)
        }
        _ => return Err(LineFault::BadValue),
    };
    if profile == Profile::Narrow && !names.is_empty() {
        return Err(LineFault::BadValue);
    }
    let names = read_names(names)?;
    let unit = unit(target, lun)?;
    let blocks = number::<u64>(blocks)?;
    Ok(Disk {
        unit,
        blocks,
        calm,
        profile,
        identity: names.identity,
        pages: names.pages,
    })
}

/// Reads the values of the queues.
fn read_queues(values: &[&str]) -> Result<Queues, LineFault> {
    let [count, size] = values else {
        return Err(LineFault::BadValue);
    };
    let count = number::<u16>(count)?;
    let size = number::<u16>(size)?;
    if size > LARGEST_SIZE {
        return Err(LineFault::BadValue);
    }
    Ok(Queues { count, size })
}

/// Reads the words of features, one at least.
fn read_features(words: &[&str]) -> Result<Features, LineFault> {
    if words.is_empty() {
        return Err(LineFault::BadValue);
    }
    let mut features = Features::NONE;
    for word in words {
        features = features.with(word)?;
    }
    Ok(features)
}

/// Reads a line that has no values.
fn read_asks(values: &[&str]) -> Result<HeaderLine, LineFault> {
    if values.is_empty() {
        Ok(HeaderLine::Asks)
    } else {
        Err(LineFault::BadValue)
    }
}

/// Returns the one value of a line that has one.
pub fn only<'a>(values: &[&'a str]) -> Result<&'a str, LineFault>
    ensures one { IsOk result ↔ (length values.now ≡ 1) }
    ensures value { IfOk result (λ value. values.now ≡ value ∷ []) }
    ensures fault { IfErr result (λ fault. fault ≡ LineFault.BadValue) }
{
    match values {
        [value] => Ok(*value),
        _ => Err(LineFault::BadValue),
    }
}

impl HeaderLine {
    /// Reads a line by its first word and the others; `None` where the first is no word of a header.
    /// `BadValue` where the others aren't what it takes. It doesn't look at where the line stands.
    pub fn read(keyword: &str, values: &[&str]) -> Result<Option<HeaderLine>, LineFault> {
        let line = match keyword {
            "memory" => HeaderLine::Memory(read_memory(values)?),
            "ring" => match only(values)? {
                "split" => HeaderLine::Ring(Form::Split),
                "packed" => HeaderLine::Ring(Form::Packed),
                _ => return Err(LineFault::BadValue),
            },
            "queues" => HeaderLine::Queues(read_queues(values)?),
            "start" => HeaderLine::Start(read_start(values)?),
            "workers" => HeaderLine::Workers(number::<u16>(only(values)?)?),
            "handoff" => HeaderLine::Handoff(number::<u16>(only(values)?)?),
            "features" => HeaderLine::Features(read_features(values)?),
            "asks" => read_asks(values)?,
            "unit" => HeaderLine::Unit(read_disk(values)?),
            _ => return Ok(None),
        };
        Ok(Some(line))
    }
}
