//! The parameter list of MODE SELECT (SPC-4 §6.11, §7.5.5).

ghost use Rattle.std.specs.Prelude.{◌≡◌, ◌≤◌, Ok, Err, MatchResult, length};
ghost use Rattle.cdb.specs.declared.wide_commands.ModeDescriptor.{ModeDescriptor};
ghost use Rattle.command_model.specs.Modes.{descriptor_length, page_list};
ghost use Rattle.command_model.specs.ModeLists.{begins_with, begins_with_page, behind_page, described_answer, descriptor_bytes, descriptor_of, has_block_length, header_length, is_long, is_page, is_same, medium_type, pages_answer, select_answer};
ghost use Rattle.block_commands.specs.Inner.Steps.{Ends};

use crate::compare::first_unequal;
use crate::modes::{caching, control, descriptor_length, error_recovery, exceptions};
use block_store::BLOCK_BYTES;
use cdb::{ModeDescriptor, ModeForm};
use sense::{Sense, SenseFormat};

/// The bytes of a page before what its page length counts.
const PAGE_HEADER_BYTES: usize = 2;

/// Takes a parameter list that changes nothing. Refuses every other with the first cause in the order of its bytes:
/// PARAMETER LIST LENGTH ERROR where it ends within its header, its block descriptor or a page, else INVALID FIELD IN
/// PARAMETER LIST.
pub(crate) fn mode_select(
    format: SenseFormat,
    write_cache: bool,
    form: ModeForm,
    list: &[u8],
) -> Result<(), Sense>
    ensures { Ends (select_answer format write_cache form list.now) result }
{
    if list.is_empty() {
        return Ok(());
    }
    if list.len() < header_length(form) {
        return Err(Sense::PARAMETER_LIST_LENGTH_ERROR);
    }
    if medium_type(form, list) != 0 {
        return Err(Sense::INVALID_FIELD_IN_PARAMETER_LIST);
    }
    let descriptor = descriptor_of(is_long(form, list), descriptor_bytes(form, list));
    take_described(
        format,
        write_cache,
        descriptor,
        &list[header_length(form)..],
    )
}

/// Takes what follows the header, where that announces this block descriptor.
fn take_described(
    format: SenseFormat,
    write_cache: bool,
    descriptor: Option<ModeDescriptor>,
    bytes: &[u8],
) -> Result<(), Sense>
    ensures { Ends (described_answer format write_cache descriptor bytes.now) result }
{
    let Some(descriptor) = descriptor else {
        return Err(Sense::INVALID_FIELD_IN_PARAMETER_LIST);
    };
    let end = usize::from(descriptor_length(descriptor));
    if bytes.len() < end {
        return Err(Sense::PARAMETER_LIST_LENGTH_ERROR);
    }
    if !has_block_length(descriptor, bytes) {
        return Err(Sense::INVALID_FIELD_IN_PARAMETER_LIST);
    }
    take_pages(format, write_cache, bytes.len(), &bytes[end..])
}

/// Takes at most so many pages, in any order.
fn take_pages(format: SenseFormat, write_cache: bool, most: usize, list: &[u8]) -> Result<(), Sense>
    ensures { Ends (pages_answer format write_cache most list.now) result }
{
    let mut rest = list;
    for taken in 0..most {
        if rest.is_empty() {
            return Ok(());
        }
        match behind_page(format, write_cache, rest) {
            Ok(later) => rest = later,
            Err(sense) => return Err(sense),
        }
    }
    Ok(())
}

/// Returns what stands behind the first page of a list.
fn behind_page(format: SenseFormat, write_cache: bool, list: &[u8]) -> Result<&[u8], Sense>
    ensures { MatchResult result (λ rest. behind_page format write_cache list.now ≡ Ok rest.now)
        (λ sense. behind_page format write_cache list.now ≡ Err sense) }
{
    if list.len() < PAGE_HEADER_BYTES {
        return Err(Sense::PARAMETER_LIST_LENGTH_ERROR);
    }
    if !is_page(list[0]) {
        return Err(Sense::INVALID_FIELD_IN_PARAMETER_LIST);
    }
    let end = PAGE_HEADER_BYTES + usize::from(list[1]);
    if list.len() < end {
        return Err(Sense::PARAMETER_LIST_LENGTH_ERROR);
    }
    if !begins_with_page(format, write_cache, list) {
        return Err(Sense::INVALID_FIELD_IN_PARAMETER_LIST);
    }
    Ok(&list[end..])
}

/// Returns true if there is a page of this code, with PS and SPF 0.
fn is_page(code: u8) -> bool
    ensures { result ≡ is_page code }
{
    matches!(code, 0x01 | 0x08 | 0x0a | 0x1c)
}

/// Returns true if a list begins with a page as MODE SENSE gives it.
#[tactic(auto, unfolding(command_model::specs::ModeLists::begins_with_page))]
fn begins_with_page(format: SenseFormat, write_cache: bool, list: &[u8]) -> bool
    ensures { result ≡ begins_with_page format write_cache list.now }
{
    begins_with(list, &error_recovery())
        || begins_with(list, &caching(format, write_cache))
        || begins_with(list, &control(format, write_cache))
        || begins_with(list, &exceptions())
}

/// Returns how many bytes the header has.
fn header_length(form: ModeForm) -> usize
    ensures length { result ≡ header_length form }
    ensures few { result ≤ 8 }
{
    match form {
        ModeForm::Six => 4,
        ModeForm::Ten => 8,
    }
}

/// Returns the medium type.
fn medium_type(form: ModeForm, list: &[u8]) -> u8
    requires { header_length form ≤ length list.now }
    ensures { result ≡ medium_type form list.now }
{
    match form {
        ModeForm::Six => list[1],
        ModeForm::Ten => list[2],
    }
}

/// Returns true if LONGLBA is 1.
fn is_long(form: ModeForm, list: &[u8]) -> bool
    requires { header_length form ≤ length list.now }
    ensures { result ≡ is_long form list.now }
{
    match form {
        ModeForm::Six => false,
        ModeForm::Ten => list[4] % 2 == 1,
    }
}

/// Returns the block descriptor length.
fn descriptor_bytes(form: ModeForm, list: &[u8]) -> u16
    requires { header_length form ≤ length list.now }
    ensures { result ≡ descriptor_bytes form list.now }
{
    match form {
        ModeForm::Six => u16::from(list[3]),
        ModeForm::Ten => descriptor_bytes_10(list),
    }
}

/// Returns the same of a header of 8 bytes.
fn descriptor_bytes_10(list: &[u8]) -> u16
    requires { 8 ≤ length list.now }
    ensures { result ≡ descriptor_bytes ModeForm.Ten list.now }
{
    let mut bytes = [0; 2];
    bytes.copy_from_slice(&list[6..8]);
    u16::from_be_bytes(bytes)
}

/// Returns the block descriptor that LONGLBA and the block descriptor length announce, if there is such a one.
fn descriptor_of(long: bool, bytes: u16) -> Option<ModeDescriptor>
    ensures { result ≡ descriptor_of long bytes }
{
    match bytes {
        0 => Some(ModeDescriptor::Absent),
        16 if long => Some(ModeDescriptor::Long),
        8 if !long => Some(ModeDescriptor::Short),
        _ => None,
    }
}

/// Returns true if a whole block descriptor at the front of a list has the block length of the unit. The number of blocks
/// is ignored.
fn has_block_length(descriptor: ModeDescriptor, bytes: &[u8]) -> bool
    requires { descriptor_length descriptor ≤ length bytes.now }
    ensures { result ≡ has_block_length descriptor bytes.now }
{
    match descriptor {
        ModeDescriptor::Absent => true,
        ModeDescriptor::Short => has_length_short(bytes),
        ModeDescriptor::Long => has_length_long(bytes),
    }
}

/// Returns true if a block descriptor of 8 bytes has it.
fn has_length_short(bytes: &[u8]) -> bool
    requires { 8 ≤ length bytes.now }
    ensures { result ≡ has_block_length ModeDescriptor.Short bytes.now }
{
    let mut length = [0; 4];
    length.copy_from_slice(&bytes[4..8]);
    u32::from_be_bytes(length) == BLOCK_BYTES as u32
}

/// Returns true if a block descriptor of 16 bytes has it.
fn has_length_long(bytes: &[u8]) -> bool
    requires { 16 ≤ length bytes.now }
    ensures { result ≡ has_block_length ModeDescriptor.Long bytes.now }
{
    let mut length = [0; 8];
    length.copy_from_slice(&bytes[8..16]);
    u64::from_be_bytes(length) == BLOCK_BYTES as u64
}

/// Returns true if a list begins with these bytes.
fn begins_with(list: &[u8], front: &[u8]) -> bool
    ensures { result ≡ begins_with list.now front.now }
{
    front.len() <= list.len() && is_same(&list[..front.len()], front)
}

/// Returns true if two lists are the same.
fn is_same(left: &[u8], right: &[u8]) -> bool
    ensures { result ≡ is_same left.now right.now }
{
    left.len() == right.len() && first_unequal(left, right).is_none()
}
