//! Positions in a ring, as words name them.

ghost use Rattle.std.specs.Prelude.{◌≡◌, IfOk, IfErr};
ghost use Rattle.script_syntax.specs.Inner.Values.{IsRingPlace, IsSlot, IsWrapCounter};

use crate::fault::LineFault;
use crate::values::number;

/// A position in a ring. It isn't known here which form the ring has.
#[derive(Clone, Copy)]
pub struct RingPlace {
    /// The index of a split ring, or the slot of a packed one.
    pub index: u16,
    /// The wrap counter there, where the word has one: true for 1.
    pub wrap: Option<bool>,
}

/// Reads a position that was written as an index `N`, or as `N:W` with a wrap counter W, 0 or 1.
pub(crate) fn ring_place(word: &str) -> Result<RingPlace, LineFault>
    ensures taken { IfOk result (λ position. IsRingPlace word.now position) }
    ensures fault { IfErr result (λ fault. fault ≡ LineFault.BadValue) }
{
    match word.split_once(':') {
        Some((slot, counter)) => slot_of(slot, counter),
        None => Ok(RingPlace {
            index: number::<u16>(word)?,
            wrap: None,
        }),
    }
}

/// Reads a slot that was written as two words, its number and the wrap counter there.
fn slot_of(slot: &str, counter: &str) -> Result<RingPlace, LineFault>
    ensures taken { IfOk result (λ position. IsSlot slot.now counter.now position) }
    ensures fault { IfErr result (λ fault. fault ≡ LineFault.BadValue) }
{
    let index = number::<u16>(slot)?;
    let wrap = wrap_counter(counter)?;
    Ok(RingPlace {
        index,
        wrap: Some(wrap),
    })
}

/// Reads a wrap counter, 0 or 1.
fn wrap_counter(word: &str) -> Result<bool, LineFault>
    ensures taken { IfOk result (λ wrap. IsWrapCounter word.now wrap) }
    ensures fault { IfErr result (λ fault. fault ≡ LineFault.BadValue) }
{
    match word {
        "0" => Ok(false),
        "1" => Ok(true),
        _ => Err(LineFault::BadValue),
    }
}
