//! The data of MODE SENSE (SPC-4 §6.13, §7.5, SBC-3 §6.5).

ghost use Rattle.std.specs.Prelude.{◌≡◌, ◌≤◌, ◌++◌, Bool, false, true, length, take, IfOk, OnOk};
ghost use Rattle.command_model.specs.Modes.{block_descriptor, descriptor_length, device_specific, is_mask, d_sense, is_saved, long_lba, mode_data, mode_header, page_list, wce};
ghost use Rattle.sense.specs.declared.SenseFormat.{SenseFormat as ASenseFormat};

use block_store::BLOCK_BYTES;
use cdb::{ModeDescriptor, ModeForm, ModePages, ModeRequest, ModeValues};
use sense::SenseFormat;
use std::alloc::{AllocError, Global};

/// The most bytes that are returned: a header, a block descriptor and all pages.
const MOST_BYTES: usize = 80;

/// DPOFUA, in the device-specific parameter: DPO and FUA are supported.
const DPOFUA: u8 = 0x10;

/// WP, in the device-specific parameter: the medium may not be changed.
const WP: u8 = 0x80;

/// Read-Write Error Recovery.
const ERROR_RECOVERY: [u8; 12] = [0x01, 0x0a, 0, 0, 0, 0, 0, 0, 0, 0, 0, 0];

/// WCE, in byte 2 of Caching: there is a volatile write cache.
const WCE: u8 = 0x04;

/// The mask of what can be changed of Caching.
const CACHING_MASK: [u8; 20] = [
    0x08, 0x12, 0, 0, 0, 0, 0, 0, 0, 0, 0, 0, 0, 0, 0, 0, 0, 0, 0, 0,
];

/// D_SENSE, in byte 2 of Control: sense data are sent in the descriptor format.
const D_SENSE: u8 = 0x04;

/// The mask of what can be changed of Control.
const CONTROL_MASK: [u8; 12] = [0x0a, 0x0a, 0, 0, 0, 0, 0, 0, 0, 0, 0, 0];

/// Informational Exceptions Control: DEXCPT.
const EXCEPTIONS: [u8; 12] = [0x1c, 0x0a, 0x08, 0, 0, 0, 0, 0, 0, 0, 0, 0];

/// The mask of what can be changed of it.
const EXCEPTIONS_MASK: [u8; 12] = [0x1c, 0x0a, 0, 0, 0, 0, 0, 0, 0, 0, 0, 0];

/// Returns the mode parameter list that a MODE SENSE asks for, cut to the allocation length.
pub(crate) fn mode_data(
    alloc: Global,
    format: SenseFormat,
    write_cache: bool,
    read_only: bool,
    request: &ModeRequest,
    capacity: u64,
) -> Result<Vec<u8>, AllocError>
    ensures { IfOk result (λ bytes. bytes.items
        ≡ take request.now.allocation (mode_data format write_cache read_only request.now capacity)) }
{
    let mut list = Vec::with_capacity(alloc, MOST_BYTES)?;
    put_header(&mut list, format, write_cache, read_only, request)?;
    put_descriptor(&mut list, request.descriptor, capacity)?;
    put_pages(
        &mut list,
        format,
        write_cache,
        is_mask(request.values),
        request.pages,
    )?;
    list.truncate(usize::from(request.allocation));
    Ok(list)
}

/// Returns true if a mask of what can be changed is asked for.
fn is_mask(values: ModeValues) -> bool
    ensures { result ≡ is_mask values }
{
    matches!(values, ModeValues::Changeable)
}

/// Returns true if saved values are asked for.
pub(crate) fn is_saved(values: ModeValues) -> bool
    ensures { result ≡ is_saved values }
{
    matches!(values, ModeValues::Saved)
}

/// Appends the header.
fn put_header(
    list: &mut Vec<u8>,
    format: SenseFormat,
    write_cache: bool,
    read_only: bool,
    request: &ModeRequest,
) -> Result<(), AllocError>
    ensures { OnOk result (list.new.items ≡ list.old.items
        ++ mode_header read_only request.now.form request.now.descriptor
        (length (page_list format write_cache false request.now.pages))) }
{
    let pages = pages_length(format, write_cache, request.pages);
    match request.form {
        ModeForm::Six => list.extend_from_slice(&header_6(read_only, request.descriptor, pages)),
        ModeForm::Ten => list.extend_from_slice(&header_10(read_only, request.descriptor, pages)),
    }
}

/// Returns the device-specific parameter.
fn device_specific(read_only: bool) -> u8
    ensures { result ≡ device_specific read_only }
{
    if read_only { WP + DPOFUA } else { DPOFUA }
}

/// Returns how many bytes the pages have, whatever the format and the cache.
#[tactic(auto, unfolding(command_model::specs::Modes::page_list))]
fn pages_length(_format: SenseFormat, _write_cache: bool, pages: ModePages) -> u8
    ensures length { result ≡ length (page_list _format _write_cache false pages) }
    ensures few { result ≤ 56 }
{
    match pages {
        ModePages::ErrorRecovery => 12,
        ModePages::Caching => 20,
        ModePages::Control => 12,
        ModePages::InformationalExceptions => 12,
        ModePages::All => 56,
    }
}

/// Returns how many bytes the block descriptor has.
pub(crate) fn descriptor_length(descriptor: ModeDescriptor) -> u8
    ensures length { result ≡ descriptor_length descriptor }
    ensures few { result ≤ 16 }
{
    match descriptor {
        ModeDescriptor::Absent => 0,
        ModeDescriptor::Short => 8,
        ModeDescriptor::Long => 16,
    }
}

/// Returns LONGLBA.
fn long_lba(descriptor: ModeDescriptor) -> u8
    ensures { result ≡ long_lba descriptor }
{
    match descriptor {
        ModeDescriptor::Long => 0x01,
        ModeDescriptor::Absent => 0x00,
        ModeDescriptor::Short => 0x00,
    }
}

/// Makes the header of 4 bytes before pages of so many bytes.
#[tactic(auto, unfolding(command_model::specs::Modes::mode_header))]
fn header_6(read_only: bool, descriptor: ModeDescriptor, pages: u8) -> [u8; 4]
    requires { pages ≤ 56 }
    ensures { result ≡ mode_header read_only ModeForm.Six descriptor pages }
{
    let descriptor = descriptor_length(descriptor);
    [
        3 + descriptor + pages,
        0x00,
        device_specific(read_only),
        descriptor,
    ]
}

/// Makes the header of 8 bytes before pages of so many bytes.
#[tactic(auto, unfolding(command_model::specs::Modes::mode_header))]
fn header_10(read_only: bool, descriptor: ModeDescriptor, pages: u8) -> [u8; 8]
    requires { pages ≤ 56 }
    ensures { result ≡ mode_header read_only ModeForm.Ten descriptor pages }
{
    let length = u16::from(descriptor_length(descriptor));
    let mut header = [0; 8];
    header[..2].copy_from_slice(&(6 + length + u16::from(pages)).to_be_bytes());
    header[3] = device_specific(read_only);
    header[4] = long_lba(descriptor);
    header[6..].copy_from_slice(&length.to_be_bytes());
    header
}

/// Appends the block descriptor of a unit of so many blocks.
#[tactic(auto, unfolding(command_model::specs::Modes::block_descriptor))]
fn put_descriptor(
    list: &mut Vec<u8>,
    descriptor: ModeDescriptor,
    capacity: u64,
) -> Result<(), AllocError>
    ensures { OnOk result (list.new.items ≡ list.old.items ++ block_descriptor descriptor capacity) }
{
    match descriptor {
        ModeDescriptor::Absent => list.extend_from_slice(&[]),
        ModeDescriptor::Short => list.extend_from_slice(&short_descriptor(capacity)),
        ModeDescriptor::Long => list.extend_from_slice(&long_descriptor(capacity)),
    }
}

/// Makes the block descriptor of 8 bytes.
#[tactic(auto, unfolding(command_model::specs::Modes::block_descriptor))]
fn short_descriptor(capacity: u64) -> [u8; 8]
    ensures { result ≡ block_descriptor ModeDescriptor.Short capacity }
{
    let blocks = capacity.min(u64::from(u32::MAX)) as u32;
    let mut descriptor = [0; 8];
    descriptor[..4].copy_from_slice(&blocks.to_be_bytes());
    descriptor[4..].copy_from_slice(&(BLOCK_BYTES as u32).to_be_bytes());
    descriptor
}

/// Makes the block descriptor of 16 bytes.
#[tactic(auto, unfolding(command_model::specs::Modes::block_descriptor))]
fn long_descriptor(capacity: u64) -> [u8; 16]
    ensures { result ≡ block_descriptor ModeDescriptor.Long capacity }
{
    let mut descriptor = [0; 16];
    descriptor[..8].copy_from_slice(&capacity.to_be_bytes());
    descriptor[12..].copy_from_slice(&(BLOCK_BYTES as u32).to_be_bytes());
    descriptor
}

/// Appends the pages, or the masks of what can be changed of them.
fn put_pages(
    list: &mut Vec<u8>,
    format: SenseFormat,
    write_cache: bool,
    is_mask: bool,
    pages: ModePages,
) -> Result<(), AllocError>
    ensures { OnOk result (list.new.items ≡ list.old.items ++ page_list format write_cache is_mask pages) }
{
    if is_mask {
        put_masks(list, format, write_cache, pages)
    } else {
        put_current(list, format, write_cache, pages)
    }
}

/// Appends the pages.
#[tactic(auto, unfolding(command_model::specs::Modes::page_list))]
fn put_current(
    list: &mut Vec<u8>,
    format: SenseFormat,
    write_cache: bool,
    pages: ModePages,
) -> Result<(), AllocError>
    ensures { OnOk result (list.new.items ≡ list.old.items ++ page_list format write_cache false pages) }
{
    match pages {
        ModePages::ErrorRecovery => list.extend_from_slice(&ERROR_RECOVERY),
        ModePages::Caching => list.extend_from_slice(&caching(format, write_cache)),
        ModePages::Control => list.extend_from_slice(&control(format, write_cache)),
        ModePages::InformationalExceptions => list.extend_from_slice(&EXCEPTIONS),
        ModePages::All => list.extend_from_slice(&all_pages(format, write_cache)),
    }
}

/// Returns all pages, by rising code.
#[tactic(auto, unfolding(command_model::specs::Modes::page_list))]
fn all_pages(format: SenseFormat, write_cache: bool) -> [u8; 56]
    ensures { result ≡ page_list format write_cache false ModePages.All }
{
    let mut pages = [0; 56];
    pages[..12].copy_from_slice(&ERROR_RECOVERY);
    pages[12..32].copy_from_slice(&caching(format, write_cache));
    pages[32..44].copy_from_slice(&control(format, write_cache));
    pages[44..].copy_from_slice(&EXCEPTIONS);
    pages
}

/// Returns the masks of what can be changed of them.
#[tactic(auto, unfolding(command_model::specs::Modes::page_list))]
fn all_masks(_format: SenseFormat, _write_cache: bool) -> [u8; 56]
    ensures { result ≡ page_list _format _write_cache true ModePages.All }
{
    let mut masks = [0; 56];
    masks[..12].copy_from_slice(&ERROR_RECOVERY);
    masks[12..32].copy_from_slice(&CACHING_MASK);
    masks[32..44].copy_from_slice(&CONTROL_MASK);
    masks[44..].copy_from_slice(&EXCEPTIONS_MASK);
    masks
}

/// Returns the page Read-Write Error Recovery.
#[tactic(auto, unfolding(command_model::specs::Modes::page_list))]
pub(crate) fn error_recovery() -> [u8; 12]
    ensures { (format : ASenseFormat) (write_cache : Bool) → result ≡ page_list format write_cache false ModePages.ErrorRecovery }
{
    ERROR_RECOVERY
}

/// Returns the page Caching: WCE by the cache.
#[tactic(auto, unfolding(command_model::specs::Modes::page_list))]
pub(crate) fn caching(_format: SenseFormat, write_cache: bool) -> [u8; 20]
    ensures { result ≡ page_list _format write_cache false ModePages.Caching }
{
    let wce = wce(write_cache);
    [
        0x08, 0x12, wce, 0, 0, 0, 0, 0, 0, 0, 0, 0, 0, 0, 0, 0, 0, 0, 0, 0,
    ]
}

/// Returns byte 2 of Caching.
fn wce(write_cache: bool) -> u8
    ensures { result ≡ wce write_cache }
{
    if write_cache { WCE } else { 0x00 }
}

/// Returns the page Control: D_SENSE by the format, and SIMPLE commands may be reordered.
#[tactic(auto, unfolding(command_model::specs::Modes::page_list))]
pub(crate) fn control(format: SenseFormat, _write_cache: bool) -> [u8; 12]
    ensures { result ≡ page_list format _write_cache false ModePages.Control }
{
    [0x0a, 0x0a, d_sense(format), 0x10, 0, 0, 0, 0, 0, 0, 0, 0]
}

/// Returns byte 2 of Control.
fn d_sense(format: SenseFormat) -> u8
    ensures { result ≡ d_sense format }
{
    match format {
        SenseFormat::Fixed => 0x00,
        SenseFormat::Descriptor => D_SENSE,
    }
}

/// Returns the page Informational Exceptions Control.
#[tactic(auto, unfolding(command_model::specs::Modes::page_list))]
pub(crate) fn exceptions() -> [u8; 12]
    ensures { (format : ASenseFormat) (write_cache : Bool)
        → result ≡ page_list format write_cache false ModePages.InformationalExceptions }
{
    EXCEPTIONS
}

/// Appends the masks of what can be changed of them: nothing.
#[tactic(auto, unfolding(command_model::specs::Modes::page_list))]
fn put_masks(
    list: &mut Vec<u8>,
    format: SenseFormat,
    write_cache: bool,
    pages: ModePages,
) -> Result<(), AllocError>
    ensures { OnOk result (list.new.items ≡ list.old.items ++ page_list format write_cache true pages) }
{
    match pages {
        ModePages::ErrorRecovery => list.extend_from_slice(&ERROR_RECOVERY),
        ModePages::Caching => list.extend_from_slice(&CACHING_MASK),
        ModePages::Control => list.extend_from_slice(&CONTROL_MASK),
        ModePages::InformationalExceptions => list.extend_from_slice(&EXCEPTIONS_MASK),
        ModePages::All => list.extend_from_slice(&all_masks(format, write_cache)),
    }
}
