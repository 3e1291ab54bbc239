//! The word of a line that doesn't fit its position.

ghost use Rattle.std.specs.Prelude.{◌≤◌, length, IfOk, IfSome};

use crate::command::notify;
use crate::fault::Stop;
use crate::guest_line::{attribute, command_block};
use crate::header::{Features, LARGEST_SIZE, profile};
use crate::naming::{is_naming, named, read_only, sense_format, write_cache};
use crate::ring_place::ring_place;
use crate::values::{Bytes, LAST_LUN, capacity, name, number, ordinal, unit_pair};
use command_model::Identity;
use std::alloc::{AllocError, Global};

/// The kinds of words that a position behind the first word of a line may take.
#[derive(Clone, Copy)]
enum Position {
    /// A number below 2^8.
    Number8,
    /// A number below 2^16.
    Number16,
    /// A number below 2^32.
    Number32,
    /// A number below 2^64.
    Number64,
    /// A number below 2^64, from 1 on.
    Ordinal,
    /// The number of descriptors of a queue.
    Size,
    /// A position in a ring.
    RingPlace,
    /// The number of blocks that a unit is given.
    Capacity,
    /// A LUN.
    Lun,
    /// A unit as one word.
    Unit,
    /// A name.
    Name,
    /// A task attribute.
    Attribute,
    /// A command block.
    CommandBlock,
    /// Bytes.
    Bytes,
    /// The form of the queues.
    Form,
    /// A feature.
    Feature,
    /// A further feature, if any.
    MoreFeatures,
    /// `next` or `never`.
    Notify,
    /// `calm` or `profile`, if anything.
    CalmOrProfile,
    /// `profile`, if anything.
    Profile,
    /// The name of a profile.
    ProfileName,
    /// A word that names a disk, if any.
    Naming,
    /// A vendor.
    Vendor,
    /// A product.
    Product,
    /// A product's revision.
    Revision,
    /// A serial number.
    Serial,
    /// An NAA designator.
    Naa,
    /// The name of a format of sense data.
    SenseFormat,
    /// `volatile` or `none`.
    WriteCache,
    /// `read-only` or `read-write`.
    Access,
    /// `live`, if anything.
    Live,
    /// `before`.
    Before,
    /// `out` or `in`, if anything.
    OutOrIn,
    /// `in`, if anything.
    In,
    /// No word.
    End,
}

impl Position {
    /// Returns true if the position takes this word. It fails where memory runs out.
    fn takes(self, alloc: Global, word: &str) -> Result<bool, AllocError> {
        match self {
            Position::CommandBlock => was_read(command_block(alloc, word)),
            Position::Bytes => was_read(Bytes::read(alloc, word)),
            _ => Ok(self.takes_word(word)),
        }
    }

    /// Returns true if the position, which isn't one of bytes, takes this word.
    fn takes_word(self, word: &str) -> bool {
        match self {
            Position::Number8 => number::<u8>(word).is_ok(),
            Position::Number16 => number::<u16>(word).is_ok(),
            Position::Number32 => number::<u32>(word).is_ok(),
            Position::Number64 => number::<u64>(word).is_ok(),
            Position::Ordinal => ordinal(word).is_ok(),
            Position::RingPlace => ring_place(word).is_ok(),
            Position::Size => is_at_most(word, LARGEST_SIZE),
            Position::Capacity => capacity(word).is_ok(),
            Position::Lun => is_at_most(word, LAST_LUN),
            Position::Unit => unit_pair(word).is_ok(),
            Position::Name => name(word).is_ok(),
            Position::Attribute => attribute(word).is_ok(),
            Position::Form => word == "split" || word == "packed",
            Position::Feature | Position::MoreFeatures => Features::NONE.with(word).is_ok(),
            Position::Notify => notify(word).is_ok(),
            Position::CalmOrProfile => word == "calm" || word == "profile",
            Position::Profile => word == "profile",
            Position::ProfileName => profile(word).is_ok(),
            Position::Naming => is_naming(word),
            Position::Vendor => named(Identity::PLAIN, "vendor", word).is_ok(),
            Position::Product => named(Identity::PLAIN, "product", word).is_ok(),
            Position::Revision => named(Identity::PLAIN, "revision", word).is_ok(),
            Position::Serial => named(Identity::PLAIN, "serial", word).is_ok(),
            Position::Naa => named(Identity::PLAIN, "naa", word).is_ok(),
            Position::SenseFormat => sense_format(word).is_ok(),
            Position::WriteCache => write_cache(word).is_ok(),
            Position::Access => read_only(word).is_ok(),
            Position::Live => word == "live",
            Position::Before => word == "before",
            Position::OutOrIn => word == "out" || word == "in",
            Position::In => word == "in",
            Position::CommandBlock | Position::Bytes | Position::End => false,
        }
    }

    /// Returns true if a line may end before this position.
    fn may_lack(self) -> bool {
        match self {
            Position::MoreFeatures | Position::CalmOrProfile | Position::Profile => true,
            Position::Live | Position::OutOrIn | Position::In | Position::Naming => true,
            Position::End => true,
            _ => false,
        }
    }
}

/// Returns true if a word is a number that isn't above this one.
fn is_at_most(word: &str, most: u16) -> bool {
    match number::<u16>(word) {
        Ok(number) => number <= most,
        Err(_) => false,
    }
}

/// Returns true if a word was what its position takes. It fails where memory ran out.
fn was_read<T: Drop>(read: Result<T, Stop>) -> Result<bool, AllocError> {
    match read {
        Ok(_) => Ok(true),
        Err(Stop::NoMemory) => Err(AllocError),
        Err(_) => Ok(false),
    }
}

/// Returns what a position behind the first word takes, from 0 on, in a line of the header.
fn header_position(keyword: &str, index: usize) -> Position {
    match (keyword, index) {
        ("memory", 0) => Position::Number32,
        ("memory", 1) => Position::Live,
        ("start", 0 | 1) => Position::RingPlace,
        ("ring", 0) => Position::Form,
        ("queues" | "workers" | "handoff", 0) => Position::Number16,
        ("queues", 1) => Position::Size,
        ("features", 0) => Position::Feature,
        ("features", _) => Position::MoreFeatures,
        _ => Position::End,
    }
}

/// Returns what a position behind the first word takes, from 0 on, where a unit is asked for.
fn unit_position(is_calm: bool, index: usize) -> Position {
    match (is_calm, index) {
        (_, 0) => Position::Number8,
        (_, 1) => Position::Lun,
        (_, 2) => Position::Number64,
        (_, 3) => Position::CalmOrProfile,
        (true, 4) => Position::Profile,
        (false, 4) | (true, 5) => Position::ProfileName,
        _ => Position::End,
    }
}

/// Returns what a position behind the profile of a unit takes, from 0 on, by the word before it.
fn naming_position(before: &str, index: usize) -> Position {
    if index % 2 == 0 {
        return Position::Naming;
    }
    match before {
        "vendor" => Position::Vendor,
        "product" => Position::Product,
        "revision" => Position::Revision,
        "serial" => Position::Serial,
        "naa" => Position::Naa,
        "exponent" => Position::Number8,
        "pages" => Position::Number32,
        "sense" => Position::SenseFormat,
        "cache" => Position::WriteCache,
        "access" => Position::Access,
        _ => Position::Number16,
    }
}

/// Returns what a position behind the first word takes, from 0 on, where a request or a function is sent.
fn sent_position(keyword: &str, index: usize) -> Position {
    match (keyword, index) {
        ("send" | "tmf", 0) => Position::Name,
        ("send", 1) => Position::Number16,
        ("tmf", 1) => Position::Number32,
        ("send" | "tmf", 2) => Position::Unit,
        ("send" | "tmf", 3) => Position::Number64,
        ("send", 4) => Position::Attribute,
        ("send", 5) => Position::CommandBlock,
        _ => Position::End,
    }
}

/// Returns what a position behind the words of a request takes, from 0 on, where its data out stand before its room for
/// data in.
fn data_position(has_out: bool, index: usize) -> Position {
    match (has_out, index) {
        (_, 0) => Position::OutOrIn,
        (true, 1) => Position::Bytes,
        (false, 1) | (true, 3) => Position::Number32,
        (true, 2) => Position::In,
        _ => Position::End,
    }
}

/// Returns what a position behind the first word takes, from 0 on, in any other line.
fn other_position(keyword: &str, index: usize) -> Position {
    match (keyword, index) {
        ("hard" | "resize" | "history" | "blocks", 0) => Position::Unit,
        ("load" | "refuse" | "lose" | "give" | "keep" | "fail" | "deny", 0) => Position::Unit,
        ("wanted" | "given" | "stored", 0) => Position::Unit,
        ("load" | "refuse" | "lose" | "keep" | "fail" | "deny", 1) => Position::Number64,
        ("poke" | "race", 0) => Position::Number64,
        ("poke" | "race", 1) => Position::Bytes,
        ("race", 2) => Position::Before,
        ("race", 3) => Position::Ordinal,
        ("resize", 1) => Position::Capacity,
        ("blocks" | "stored", 1 | 2) => Position::Number64,
        ("wait" | "show", 0) => Position::Name,
        ("order" | "notices" | "fetch" | "enter" | "direct" | "ask", 0) => Position::Number16,
        ("ask", 1) => Position::Notify,
        ("put" | "take" | "prepare" | "commit" | "answer" | "leave", 0) => Position::Number16,
        ("resume", 0) => Position::Number16,
        _ => Position::End,
    }
}

/// The number of words behind the first of a request, before its data.
const REQUEST_WORDS: usize = 6;

/// The number of words behind the first of a unit that no line may lack.
const UNIT_WORDS: usize = 3;

/// The number of words of a profile.
const PROFILE_WORDS: usize = 2;

/// Returns what a position behind the first word of a line takes, from 0 on.
fn position_of(keyword: &str, values: &[&str], index: usize) -> Position {
    match keyword {
        "memory" | "ring" | "queues" | "start" | "workers" | "handoff" | "features" | "asks" =>
            header_position(keyword, index),
        "unit" => {
            let is_calm = match values.get(UNIT_WORDS) {
                Some(word) => *word == "calm",
                None => false,
            };
            let names = UNIT_WORDS + usize::from(is_calm) + PROFILE_WORDS;
            if index < names {
                return unit_position(is_calm, index);
            }
            match (values.get(names - 1), values.get(index - 1)) {
                (Some(profile), Some(before)) if *profile == "wide" => {
                    naming_position(before, index - names)
                }
                _ => Position::End,
            }
        }
        "send" if index >= REQUEST_WORDS => {
            let has_out = match values.get(REQUEST_WORDS) {
                Some(word) => *word == "out",
                None => false,
            };
            data_position(has_out, index - REQUEST_WORDS)
        }
        "send" | "tmf" => sent_position(keyword, index),
        _ => other_position(keyword, index),
    }
}

/// Returns the first word behind the first of a line that its position doesn't take, from 0 on. Returns their number if
/// the next one lacks, and `None` if each fits. It fails where memory runs out. A line whose first word is none of the
/// language has no positions.
pub fn first_wrong(
    alloc: Global,
    keyword: &str,
    values: &[&str],
) -> Result<Option<usize>, AllocError>
    ensures within { IfOk result (λ position. IfSome position (λ index. index ≤ length values.now)) }
{
    for index in 0..values.len() {
        if !position_of(keyword, values, index).takes(alloc, values[index])? {
            return Ok(Some(index));
        }
    }
    if position_of(keyword, values, values.len()).may_lack() {
        Ok(None)
    } else {
        Ok(Some(values.len()))
    }
}
