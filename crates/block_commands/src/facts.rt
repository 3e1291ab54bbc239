//! The facts of its logical unit that a command is told.

ghost use Rattle.std.specs.Prelude.{◌≡◌, ◌≤◌, length};
ghost use Rattle.scsi_codec.specs.Lun.{number_of};

use cdb::Profile;
use command_model::Identity;
use scsi_codec::Address;
use sense::{Sense, SenseFormat};

/// The facts of its logical unit that a command is told, apart from the blocks.
#[derive(Drop)]
pub struct UnitFacts {
    /// The address of the unit.
    pub address: Address,
    /// Its number, which is compared with those of arrivals.
    pub number: u32,
    /// The LUNs of the target's units, its own among them, each once by rising number.
    pub luns: Vec<u16>,
    /// The oldest unit attention that is pending, if any: its sense key is UNIT ATTENTION.
    pub pending: Option<Sense>,
    /// The commands that the unit knows.
    pub profile: Profile,
    /// Names the unit to a host, as its configuration has it.
    pub identity: Identity,
    /// True if its disk is one whose pages come and go.
    pub backed: bool,
    // There are no more LUNs than flat space addresses tell apart (SAM-5 §4.7.7.3).
    ghost few: { length luns.items ≤ 16384 },
    ghost numbered: { number ≡ number_of address },
}

impl UnitFacts {
    ghost use Rattle.std.specs.Prelude.{◌≡◌};
    ghost use Rattle.command_model.specs.Identity.{told_by};
    ghost use Rattle.block_commands.specs.Inner.Told.{sense_told};

    /// Returns what the unit tells of what its configuration says of it.
    pub(crate) fn identity_told(&self) -> Identity
        ensures { result ≡ told_by self.now.profile self.now.identity }
    {
        match self.profile {
            Profile::Narrow => Identity::PLAIN,
            Profile::Wide => self.identity,
        }
    }

    /// Returns the format of the sense data that the unit sends beside a status.
    pub(crate) fn format_told(&self) -> SenseFormat
        ensures { result ≡ sense_told self.now }
    {
        match self.profile {
            Profile::Narrow => SenseFormat::Fixed,
            Profile::Wide => self.identity.sense_format,
        }
    }

    /// Returns true if the unit tells of a volatile write cache: one of the narrow profile never does.
    pub fn cache_told(&self) -> bool
        ensures { result ≡ (told_by self.now.profile self.now.identity).write_cache }
    {
        match self.profile {
            Profile::Narrow => false,
            Profile::Wide => self.identity.write_cache,
        }
    }

    /// Returns true if the unit is read-only: one of the narrow profile never is.
    pub(crate) fn read_only_told(&self) -> bool
        ensures { result ≡ (told_by self.now.profile self.now.identity).read_only }
    {
        match self.profile {
            Profile::Wide => self.identity.read_only,
            _ => false,
        }
    }
}
