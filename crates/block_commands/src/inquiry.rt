//! The data of INQUIRY (SPC-4 §6.6, §7.8, SBC-3 §6.6).

ghost use Rattle.std.specs.Prelude.{◌≡◌, ◌≤◌, ◌+◌, ◌*◌, ◌/◌, ◌%◌, ◌<◌, ◌++◌, length, nat_lt, take, IfOk, OnErr, IsTrue};
ghost use Rattle.arrayvec.specs.ArrayVec.{array_vec_len};
ghost use Rattle.command_model.specs.Inquiry.{serial, serial_of, serial_page, identification_page, naa_designator, t10_designator, extended_page, most_sense, v_sup, limits_page, characteristics_page, standard_of, supported_pages, inquiry_data};
ghost use Rattle.command_model.specs.StandardData.{wide_standard_data};

use crate::data::cut;
use arrayvec::ArrayVec;
use cdb::{InquiryData, Profile};
use command_model::{Identity, standard_data};
use scsi_codec::Address;
use sense::SenseFormat;
use std::alloc::{AllocError, Global};

/// Byte 0 of the standard data of a block device that is there.
const BLOCK_DEVICE: u8 = 0x00;

/// Supported VPD Pages, of the narrow profile.
const SUPPORTED_PAGES: [u8; 9] = [0x00, 0x00, 0x00, 0x05, 0x00, 0x80, 0x83, 0xb0, 0xb2];

/// The same, of the wide profile.
const WIDE_SUPPORTED_PAGES: [u8; 11] = [
    0x00, 0x00, 0x00, 0x07, 0x00, 0x80, 0x83, 0x86, 0xb0, 0xb1, 0xb2,
];

/// Logical Block Provisioning: UNMAP and WRITE SAME unmap, to zeros; thin provisioning.
const PROVISIONING_PAGE: [u8; 8] = [0x00, 0xb2, 0x00, 0x04, 0x00, 0xe4, 0x02, 0x00];

/// The bytes of a page that tells what a configuration says of a unit. The longest is the standard data.
type Page = ArrayVec<u8, 96>;

/// Returns the data that an INQUIRY asks for, of the unit of this profile and address that tells this identity, cut to the
/// allocation length.
#[tactic(auto, unfolding(command_model::specs::Inquiry::provisioning_page))]
pub(crate) fn inquiry(
    alloc: Global,
    profile: Profile,
    identity: &Identity,
    what: InquiryData,
    address: Address,
    allocation: u32,
) -> Result<Vec<u8>, AllocError>
    ensures data { IfOk result (λ bytes. bytes.items
        ≡ take allocation (inquiry_data profile identity.now what address.target address.lun)) }
    ensures want { OnErr result (IsTrue (nat_lt 0 allocation)) }
{
    match what {
        InquiryData::Standard => standard(alloc, profile, identity, allocation),
        InquiryData::SupportedPages => supported_pages(alloc, profile, allocation),
        InquiryData::SerialNumber => {
            let page = serial_page(&serial_of(identity, address));
            cut(alloc, page.as_slice(), allocation)
        }
        InquiryData::DeviceIdentification => {
            let page = identification_page(identity, &serial_of(identity, address));
            cut(alloc, page.as_slice(), allocation)
        }
        InquiryData::ExtendedInquiry => {
            let page = extended_page(identity.sense_format, identity.write_cache);
            cut(alloc, &page, allocation)
        }
        InquiryData::BlockLimits => cut(alloc, &limits_page(), allocation),
        InquiryData::BlockDeviceCharacteristics => {
            cut(
                alloc,
                &characteristics_page(identity.rotation_rate),
                allocation,
            )
        }
        InquiryData::LogicalBlockProvisioning => cut(alloc, &PROVISIONING_PAGE, allocation),
    }
}

/// Returns the standard data of this profile, cut to the allocation length.
fn standard(
    alloc: Global,
    profile: Profile,
    identity: &Identity,
    allocation: u32,
) -> Result<Vec<u8>, AllocError>
    ensures data { IfOk result (λ bytes. bytes.items ≡ take allocation (standard_of profile identity.now)) }
    ensures want { OnErr result (IsTrue (nat_lt 0 allocation)) }
{
    match profile {
        Profile::Narrow => cut(alloc, &standard_data(BLOCK_DEVICE), allocation),
        Profile::Wide => cut(alloc, wide_standard_data(identity).as_slice(), allocation),
    }
}

/// Makes the standard data of the wide profile.
#[tactic(auto, unfolding(command_model::specs::StandardData::wide_standard_data))]
fn wide_standard_data(identity: &Identity) -> Page
    ensures { result.items ≡ wide_standard_data identity.now.vendor identity.now.product identity.now.revision }
{
    let mut data = Page::new();
    add(&mut data, &[0x00, 0x00, 0x06, 0x02, 0x5b, 0x00, 0x00, 0x02]);
    add(&mut data, &identity.vendor);
    add(&mut data, &identity.product);
    add(&mut data, &identity.revision);
    add(&mut data, &[0; 22]);
    add(&mut data, &[0x00, 0xa0, 0x04, 0x60, 0x04, 0xc0]);
    add(&mut data, &[0; 32]);
    data
}

/// Adds bytes to a page, which has room for them.
fn add(page: &mut Page, bytes: &[u8])
    requires { array_vec_len page.old + length bytes.now ≤ 96 }
    ensures bytes { page.new.items ≡ page.old.items ++ bytes.now }
    ensures len { array_vec_len page.new ≡ array_vec_len page.old + length bytes.now }
{
    let Ok(()) = page.try_extend_from_slice(bytes) else {
        unreachable!()
    };
}

/// Returns the page Supported VPD Pages of this profile, cut to the allocation length.
#[tactic(auto, unfolding(command_model::specs::Inquiry::supported_pages))]
fn supported_pages(alloc: Global, profile: Profile, allocation: u32) -> Result<Vec<u8>, AllocError>
    ensures data { IfOk result (λ bytes. bytes.items ≡ take allocation (supported_pages profile)) }
    ensures want { OnErr result (IsTrue (nat_lt 0 allocation)) }
{
    match profile {
        Profile::Narrow => cut(alloc, &SUPPORTED_PAGES, allocation),
        Profile::Wide => cut(alloc, &WIDE_SUPPORTED_PAGES, allocation),
    }
}

/// Returns the most bytes of sense data beside a status.
fn most_sense(format: SenseFormat) -> u8
    ensures { result ≡ most_sense format }
{
    match format {
        SenseFormat::Fixed => 18,
        SenseFormat::Descriptor => 20,
    }
}

/// Returns byte 6 of the page Extended INQUIRY Data: V_SUP where there is a volatile write cache.
fn v_sup(write_cache: bool) -> u8
    ensures { result ≡ v_sup write_cache }
{
    if write_cache { 0x01 } else { 0x00 }
}

/// Makes the page Extended INQUIRY Data.
#[tactic(auto, unfolding(command_model::specs::Inquiry::extended_page))]
fn extended_page(format: SenseFormat, write_cache: bool) -> [u8; 64]
    ensures { result ≡ extended_page format write_cache }
{
    let mut page = [0; 64];
    page[..7].copy_from_slice(&[0x00, 0x86, 0x00, 0x3c, 0x00, 0x07, v_sup(write_cache)]);
    page[13] = most_sense(format);
    page
}

/// Makes the page Block Device Characteristics.
#[tactic(auto, unfolding(command_model::specs::Inquiry::characteristics_page))]
fn characteristics_page(rate: u16) -> [u8; 64]
    ensures { result ≡ characteristics_page rate }
{
    let mut page = [0; 64];
    page[..4].copy_from_slice(&[0x00, 0xb1, 0x00, 0x3c]);
    page[4..6].copy_from_slice(&rate.to_be_bytes());
    page
}

/// Makes the page Unit Serial Number.
#[tactic(auto, unfolding(command_model::specs::Inquiry::serial_page))]
fn serial_page(number: &Page) -> Page
    requires { length number.now.items ≤ 20 }
    ensures { result.items ≡ serial_page number.now.items }
{
    let number = number.as_slice();
    let mut page = Page::new();
    add(&mut page, &[0x00, 0x80, 0x00, number.len() as u8]);
    add(&mut page, number);
    page
}

/// Makes the page Device Identification.
#[tactic(auto, unfolding(command_model::specs::Inquiry::identification_page))]
fn identification_page(identity: &Identity, number: &Page) -> Page
    requires { length number.now.items ≤ 20 }
    ensures { result.items ≡ identification_page identity.now.vendor number.now.items identity.now.naa }
{
    let designators = designators(identity, number);
    let designators = designators.as_slice();
    let mut page = Page::new();
    add(&mut page, &[0x00, 0x83, 0x00, designators.len() as u8]);
    add(&mut page, designators);
    page
}

/// Makes the designators of a unit: that of its vendor and serial number, and its NAA, if any.
fn designators(identity: &Identity, number: &Page) -> Page
    requires { length number.now.items ≤ 20 }
    ensures bytes { result.items ≡ t10_designator identity.now.vendor number.now.items ++ naa_designator identity.now.naa }
    ensures few { length result.items ≤ 44 }
{
    let number = number.as_slice();
    let mut page = Page::new();
    add(&mut page, &[0x02, 0x01, 0x00, 8 + number.len() as u8]);
    add(&mut page, &identity.vendor);
    add(&mut page, number);
    match &identity.naa {
        None => {}
        Some(naa) => {
            add(&mut page, &[0x01, 0x03, 0x00, 0x08]);
            add(&mut page, naa);
        }
    }
    page
}

/// Returns the serial number that a unit of this address tells.
fn serial_of(identity: &Identity, address: Address) -> Page
    ensures bytes { result.items ≡ serial_of identity.now address.target address.lun }
    ensures few { length result.items ≤ 20 }
{
    let mut number = Page::new();
    if identity.serial_len == 0 {
        add(&mut number, &serial(address.target, address.lun));
    } else {
        let len = (identity.serial_len as usize).min(identity.serial.len());
        add(&mut number, &identity.serial[..len]);
    }
    number
}

/// Returns the serial number of the unit of this target and LUN.
#[tactic(auto, unfolding(command_model::specs::Inquiry::serial))]
fn serial(target: u8, lun: u16) -> [u8; 13]
    ensures { result ≡ serial target lun }
{
    let target = u16::from(target);
    [
        b'V',
        b'S',
        b'C',
        b'S',
        b'I',
        digit(target, 100),
        digit(target, 10),
        digit(target, 1),
        digit(lun, 10_000),
        digit(lun, 1_000),
        digit(lun, 100),
        digit(lun, 10),
        digit(lun, 1),
    ]
}

/// Returns the decimal digit of the number whose place is worth so much, as text.
fn digit(number: u16, worth: u16) -> u8
    requires { 0 < worth }
    ensures { result ≡ 0x30 + number / worth % 10 }
{
    b'0' + (number / worth % 10) as u8
}

/// Makes the page Block Limits: what `cdb` and UNMAP refuse to exceed.
#[tactic(auto, unfolding(command_model::specs::Inquiry::limits_page))]
fn limits_page() -> [u8; 64]
    ensures { result ≡ limits_page }
{
    let mut page = [0; 64];
    page[..8].copy_from_slice(&[0x00, 0xb0, 0x00, 0x3c, 0x01, 0x40, 0x00, 0x00]);
    page[8..12].copy_from_slice(&[0x00, 0x00, 0x08, 0x00]);
    page[12..16].copy_from_slice(&[0x00, 0x00, 0x08, 0x00]);
    page[20..24].copy_from_slice(&[0x00, 0x01, 0x00, 0x00]);
    page[24..28].copy_from_slice(&[0x00, 0x00, 0x00, 0x10]);
    page[28..32].copy_from_slice(&[0x00, 0x00, 0x00, 0x01]);
    page[36..44].copy_from_slice(&[0x00, 0x00, 0x00, 0x00, 0x00, 0x01, 0x00, 0x00]);
    page
}
