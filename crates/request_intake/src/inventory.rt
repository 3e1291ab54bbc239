//! The inventory of logical units.

ghost use Rattle.std.specs.Prelude.{◌≡◌, ◌<◌, ◌≤◌, ◌^◌, true, map, length, slice_get, Some, IfSome, IfOk};
ghost use Rattle.scsi_codec.specs.Lun.{address_at, number_of};
ghost use Rattle.request_intake.specs.Inventory.{address_of, stands_before, inventory_of, is_rising, has_target, index_of, luns_of};

use arrayvec::ArrayVec;
use cdb::Profile;
use command_model::Identity;
use scsi_codec::Address;
use std::alloc::{AllocError, Global};
use std::marker::Model;

/// The most logical units of a device.
pub const MOST_UNITS: usize = 64;

/// A logical unit that is wanted.
#[derive(Clone, Copy, Debug, PartialEq, Eq)]
pub struct UnitSpec {
    /// Its target, 0 to 255.
    pub target: u8,
    /// Its LUN, 0 to 16,383.
    pub lun: u16,
    /// Its capacity in blocks of 512 bytes, 1 to 2^40.
    pub blocks: u64,
    /// True if nothing is pending at the start; else POWER ON, RESET, OR BUS DEVICE RESET OCCURRED is.
    pub calm: bool,
    /// The profile of its commands: those that it knows.
    pub profile: Profile,
    /// Names it to a host, if it is of the wide profile.
    pub identity: Identity,
}

impl UnitSpec {
    /// Returns its address.
    pub fn address(&self) -> Address
        ensures { result ≡ address_of self.now }
    {
        Address {
            target: self.target,
            lun: self.lun,
        }
    }
}

/// The addresses of a device's logical units, in rising order of target and LUN, and their profiles. It never changes, so a
/// worker that holds one queue alone may ask it which units there are.
#[derive(Drop)]
pub struct Inventory {
    addresses: ArrayVec<Address, MOST_UNITS>,
    known: ArrayVec<Known, MOST_UNITS>,
}

/// Keeps what a request is decided by once its unit is found: the commands that the unit knows, and the number of its
/// address. Free slots of a list have the narrow ones.
#[derive(Clone, Copy)]
struct Known {
    profile: Profile,
    number: u32,
}

impl Default for Known {
    fn default() -> Known {
        Known {
            profile: Profile::Narrow,
            number: 0,
        }
    }
}

impl Model for Inventory {
    ghost use Rattle.std.specs.Prelude.{◌≡◌, true, length};
    ghost use Rattle.request_intake.specs.Inventory.{PlainInventory, is_rising, profiles_of};
    ghost use Rattle.request_intake.specs.Inner.Numbers.{AreNumbersOf};

    ghost Value = { PlainInventory };

    ghost view = { λ i. record {
      addresses = i.addresses.items;
      profiles = profiles_of i.known.items;
    } };

    ghost invariant = { λ i. (is_rising i.addresses.items ≡ true)
        × (length i.known.items ≡ length i.addresses.items)
        × AreNumbersOf i.known.items i.addresses.items };
}

impl Inventory {
    /// Makes the inventory of these units. Called once, where a device is opened. It takes no memory.
    pub fn new(units: &[UnitSpec]) -> Inventory
        requires few { length units.now ≤ MOST_UNITS }
        requires rising { is_rising (map address_of units.now) ≡ true }
        ensures { result ≡ inventory_of units.now }
    {
        let mut addresses = ArrayVec::new();
        let mut known = ArrayVec::new();
        for unit in units {
            addresses.push(unit.address());
            known.push(Known {
                profile: unit.profile,
                number: unit.address().number(),
            });
        }
        Inventory { addresses, known }
    }

    /// Returns the addresses, each at its unit's index.
    pub fn as_slice(&self) -> &[Address]
        ensures addresses { result.now ≡ self.now.addresses }
        ensures few { length result.now ≤ MOST_UNITS }
    {
        self.addresses.as_slice()
    }

    /// Returns true if a unit of this target is there.
    pub fn has_target(&self, target: u8) -> bool
        ensures { result ≡ has_target self.now.addresses target }
    {
        self.addresses
            .as_slice()
            .iter()
            .any(|address| address.target == target)
    }

    /// Returns the index of the unit with this address; `None` where it isn't there.
    pub fn find(&self, address: &Address) -> Option<usize>
        ensures index { result ≡ index_of self.now.addresses address.now }
        ensures within { IfSome result (λ unit_index. unit_index < length self.now.addresses) }
        ensures target { IfSome result (λ unit_index. has_target self.now.addresses address.now.target ≡ true) }
    {
        self.addresses
            .as_slice()
            .iter()
            .position(|it| it.target == address.target && it.lun == address.lun)
    }

    /// Returns the profile of the unit at this index.
    #[inline(always)]
    pub fn profile_at(&self, unit_index: usize) -> Profile
        requires unit_index { unit_index < length self.now.addresses }
        ensures { slice_get self.now.profiles unit_index ≡ Some result }
    {
        self.known.as_slice()[unit_index].profile
    }

    /// Returns the number of the address of the unit at this index.
    #[inline(always)]
    #[tactic(auto, using(crate::proofs::Numbers::numbered))]
    pub fn number_at(&self, unit_index: usize) -> u32
        requires unit_index { unit_index < length self.now.addresses }
        ensures number { slice_get (map number_of self.now.addresses) unit_index ≡ Some result }
        ensures address { slice_get self.now.addresses unit_index ≡ Some (address_at result) }
        ensures range { result < 2 ^ 24 }
    {
        let _number = self.addresses.as_slice()[unit_index].number();
        self.known.as_slice()[unit_index].number
    }

    /// Returns the LUNs of a target, rising, for a unit that opens. `AllocError` where their list was refused memory.
    pub fn luns_of(&self, alloc: Global, target: u8) -> Result<Vec<u16>, AllocError>
        ensures luns { IfOk result (λ luns. luns.items ≡ luns_of self.now.addresses target) }
        ensures few { IfOk result (λ luns. length luns.items ≤ MOST_UNITS) }
    {
        self.addresses
            .as_slice()
            .iter()
            .filter(|address| address.target == target)
            .map(|address| address.lun)
            .collect(alloc)
    }
}

/// Returns true if one unit's address stands before another's.
fn is_before(unit: &UnitSpec, other: &UnitSpec) -> bool
    ensures { result ≡ stands_before (address_of unit.now) (address_of other.now) }
{
    unit.target < other.target || (unit.target == other.target && unit.lun < other.lun)
}

/// Returns true if the addresses of units rise, which those of an inventory do.
pub fn are_rising(units: &[UnitSpec]) -> bool
    ensures { result ≡ is_rising (map address_of units.now) }
{
    let mut rest = units;
    while let [first, others @ ..] = rest {
        if let [second, ..] = others {
            if !is_before(first, second) {
                return false;
            }
        }
        rest = others;
    }
    true
}
