//! The values in the positions of a line: numbers, names, units and bytes.

ghost use Rattle.std.specs.Prelude.{ℕ, ◌≡◌, ◌<◌, ◌*◌, ◌-◌, ◌^◌, ◌++◌, min, length, [], true, false, ◌⊎◌, Ok, Err, IsOk, OnErr, IfOk, OnOk, IfErr, ◌↔◌};
ghost use Rattle.std.specs.List.{repeat};
ghost use Rattle.std.specs.Str.{all_ascii_digits};
ghost use Rattle.script_syntax.specs.Inner.Values.{IsCapacity, IsName, IsOrdinal, IsUnit, IsUnitPair, length_of};

use crate::fault::{LineFault, Stop};
use hex::FromHexError;
use scsi_codec::Address;
use std::alloc::{AllocError, Global};
use std::marker::Model;
use std::str::FromStr;

/// The largest LUN of a unit.
pub(crate) const LAST_LUN: u16 = 16383;

/// The most blocks that a unit may be given.
const MOST_BLOCKS: u64 = 1 << 40;

/// The most letters and digits of a name.
const LONGEST_NAME: usize = 16;

/// Reads a decimal number of a width. Leading zeros may stand; a sign may not.
pub fn number<N: FromStr>(word: &str) -> Result<N, LineFault>
where
    N::Err: Drop,
    ensures taken { IfOk result (λ number. (all_ascii_digits word.now ≡ true) × N.from_str_gives word.now (Ok number)) }
    ensures refused { OnErr result
        ((all_ascii_digits word.now ≡ false) ⊎ ((error : N.Err) × N.from_str_gives word.now (Err error))) }
    ensures fault { IfErr result (λ fault. fault ≡ LineFault.BadValue) }
{
    if !word.bytes().all(|byte| byte.is_ascii_digit()) {
        return Err(LineFault::BadValue);
    }
    match word.parse::<N>() {
        Ok(number) => Ok(number),
        Err(_) => Err(LineFault::BadValue),
    }
}

/// Reads how many blocks a unit is given: 1 to 2^40.
pub fn capacity(word: &str) -> Result<u64, LineFault>
    ensures taken { IfOk result (λ blocks. IsCapacity word.now blocks) }
    ensures refused { OnErr result ((blocks : ℕ) → ¬ IsCapacity word.now blocks) }
    ensures fault { IfErr result (λ fault. fault ≡ LineFault.BadValue) }
{
    let blocks = number::<u64>(word)?;
    if blocks == 0 || blocks > MOST_BLOCKS {
        return Err(LineFault::BadValue);
    }
    Ok(blocks)
}

/// Reads the number of a thing in an order, from 1 on.
pub(crate) fn ordinal(word: &str) -> Result<u64, LineFault>
    ensures taken { IfOk result (λ number. IsOrdinal word.now number) }
    ensures refused { OnErr result ((number : ℕ) → ¬ IsOrdinal word.now number) }
    ensures fault { IfErr result (λ fault. fault ≡ LineFault.BadValue) }
{
    let number = number::<u64>(word)?;
    if number == 0 {
        return Err(LineFault::BadValue);
    }
    Ok(number)
}

/// Reads a name: 1 to 16 letters or digits.
pub fn name(word: &str) -> Result<&str, LineFault>
    ensures names { IsOk result ↔ IsName word.now }
    ensures same { IfOk result (λ name. name.now ≡ word.now) }
    ensures fault { IfErr result (λ fault. fault ≡ LineFault.BadValue) }
{
    let fits = !word.is_empty() && word.len() <= LONGEST_NAME;
    if fits && word.bytes().all(|byte| byte.is_ascii_alphanumeric()) {
        Ok(word)
    } else {
        Err(LineFault::BadValue)
    }
}

/// Reads a unit that was written as two words, its target and its LUN.
pub fn unit(target: &str, lun: &str) -> Result<Address, LineFault>
    ensures taken { IfOk result (λ unit. IsUnit target.now lun.now unit) }
    ensures refused { OnErr result ((unit : Address) → ¬ IsUnit target.now lun.now unit) }
    ensures fault { IfErr result (λ fault. fault ≡ LineFault.BadValue) }
{
    let target = number::<u8>(target)?;
    let lun = number::<u16>(lun)?;
    if lun > LAST_LUN {
        return Err(LineFault::BadValue);
    }
    Ok(Address { target, lun })
}

/// Reads a unit that was written as `T:L`.
pub fn unit_pair(word: &str) -> Result<Address, LineFault>
    ensures taken { IfOk result (λ unit. IsUnitPair word.now unit) }
    ensures refused { OnErr result ((unit : Address) → ¬ IsUnitPair word.now unit) }
    ensures fault { IfErr result (λ fault. fault ≡ LineFault.BadValue) }
{
    match word.split_once(':') {
        Some((target, lun)) => unit(target, lun),
        None => Err(LineFault::BadValue),
    }
}

/// Bytes that stand several times, one after the other.
#[derive(Drop)]
pub struct Item {
    /// The bytes, one at least.
    pub bytes: Vec<u8>,
    /// The number of times that they stand, at least one.
    pub repeat: u32,
}

impl Item {
    /// Reads an even number of hexadecimal digits, or that with `*N`.
    fn read(alloc: Global, text: &str) -> Result<Item, Stop> {
        let (digits, repeat) = match text.split_once('*') {
            Some((digits, repeat)) => (digits, number::<u32>(repeat)?),
            None => (text, 1),
        };
        if digits.is_empty() || repeat == 0 {
            return Err(Stop::Fault(LineFault::BadValue));
        }
        match hex::decode(alloc, digits) {
            Ok(bytes) => Ok(Item { bytes, repeat }),
            Err(FromHexError::OutOfMemory) => Err(Stop::NoMemory),
            Err(_) => Err(Stop::Fault(LineFault::BadValue)),
        }
    }

    /// Returns how many bytes they are in all; `u64::MAX` where there are more than that.
    pub fn length(&self) -> u64
        ensures { result ≡ min (length self.now.bytes.items * self.now.repeat) (2 ^ 64 - 1) }
    {
        (self.bytes.len() as u64).saturating_mul(u64::from(self.repeat))
    }

    /// Appends so many copies of the bytes. Where memory runs out some of them may stand there.
    pub fn append_copies(&self, copies: u32, into: &mut Vec<u8>) -> Result<(), AllocError>
        ensures { OnOk result (into.new.items ≡ into.old.items ++ repeat copies self.now.bytes.items) }
    {
        for _ in 0..copies {
            into.extend_from_slice(self.bytes.as_slice())?;
        }
        Ok(())
    }
}

/// Bytes as a line has them. Repeated bytes are kept once.
#[derive(Drop)]
pub struct Bytes {
    items: Vec<Item>,
    length: u64,
}

impl Model for Bytes {
    ghost use Rattle.std.specs.Prelude.{List, ◌≡◌};
    ghost use Rattle.script_syntax.specs.declared.values.Item.{Item};
    ghost use Rattle.script_syntax.specs.Inner.Values.{length_of};

    ghost Value = { List Item };

    ghost view = { λ bytes. bytes.items.items };

    ghost invariant = { λ bytes. bytes.length ≡ length_of bytes.items.items };
}

impl Bytes {
    /// Makes no bytes.
    pub fn none(alloc: Global) -> Bytes
        ensures { result ≡ [] }
    {
        Bytes {
            items: Vec::new(alloc),
            length: 0,
        }
    }

    /// Reads items that are joined by commas: an even number of hexadecimal digits, or that with `*N`
    /// for N times the same, N from 1 to 2^32 - 1. `BadValue` where one is none of these, `NoMemory`
    /// where memory runs out.
    #[tactic(auto, using(crate::proofs::Totals::total_of_more))]
    pub fn read(alloc: Global, text: &str) -> Result<Bytes, Stop> {
        let mut bytes = Bytes::none(alloc);
        for part in text.split(',') {
            let item = Item::read(alloc, part)?;
            bytes.length = bytes.length.saturating_add(item.length());
            bytes.items.push(item)?;
        }
        Ok(bytes)
    }

    /// Returns the items, in order.
    pub fn items(&self) -> &[Item]
        ensures { result.now ≡ self.now }
    {
        self.items.as_slice()
    }

    /// Returns how many bytes there are; `u64::MAX` where there are more than that.
    pub fn length(&self) -> u64
        ensures { result ≡ length_of self.now }
    {
        self.length
    }
}
