//! A request that goes to a unit.

ghost use Rattle.std.specs.Prelude.{◌≡◌, ◌+◌, ◌≤◌, drop, length};
ghost use Rattle.cdb.specs.Need.{need_of};
ghost use Rattle.command_model.specs.Data.{data_of};

use crate::attribute::TaskAttribute;
use cdb::Command;
use scsi_codec::REQUEST_BYTES;
use std::marker::Model;
use std::mem;

/// A request that goes to a unit, decoded once, when it was fetched. Nobody can change it.
#[derive(Drop)]
pub struct UnitRequest {
    id: u64,
    attribute: TaskAttribute,
    command: Command,
    asks_medium: bool,
    // The first bytes of the chain, up to the end of the command's data, which begin at byte 51. A command without data
    // keeps none of them.
    bytes: Vec<u8>,
}

impl Model for UnitRequest {
    ghost use Rattle.std.specs.Prelude.{◌≡◌, ◌⊎◌, ◌+◌, ◌<◌, drop, length};
    ghost use Rattle.cdb.specs.Need.{need_of};
    ghost use Rattle.command_model.specs.Data.{data_of};
    ghost use Rattle.request_intake.specs.UnitRequest.{PlainRequest};

    ghost Value = { PlainRequest };

    ghost view = { λ r. record {
      id = r.id;
      attribute = r.attribute;
      command = r.command;
      asks_medium = r.asks_medium;
      data_out = data_of r.command (drop 51 r.bytes.items);
    } };

    ghost invariant = { λ r. (((need_of r.command).out ≡ 0) × (length r.bytes.items < 51))
        ⊎ (51 + (need_of r.command).out ≡ length r.bytes.items) };
}

impl UnitRequest {
    /// Makes the decoded request in the first bytes of a chain, whose command asks for the medium itself or doesn't, and takes
    /// so many bytes of data. It takes the bytes where these are some.
    #[tactic(auto, using(crate::proofs::Data::data_in))]
    pub(crate) fn new(
        id: u64,
        attribute: TaskAttribute,
        command: Command,
        asks_medium: bool,
        out: u32,
        bytes: &mut Vec<u8>,
    ) -> UnitRequest
        requires out { out ≡ (need_of command).out }
        requires bytes { REQUEST_BYTES + (need_of command).out ≤ length bytes.old.items }
        ensures { result ≡ record {
          id = id;
          attribute = attribute;
          command = command;
          asks_medium = asks_medium;
          data_out = data_of command (drop 51 bytes.old.items);
        } }
    {
        let mut own = Vec::new(*bytes.allocator());
        if out > 0 {
            mem::swap(bytes, &mut own);
            own.truncate(REQUEST_BYTES + out as usize);
        }
        UnitRequest {
            id,
            attribute,
            command,
            asks_medium,
            bytes: own,
        }
    }

    /// Returns the driver's identifier of the command.
    pub fn id(&self) -> u64
        ensures { result ≡ self.now.id }
    {
        self.id
    }

    /// Returns when it may run beside other commands.
    pub fn attribute(&self) -> TaskAttribute
        ensures { result ≡ self.now.attribute }
    {
        self.attribute
    }

    /// Returns the command.
    pub fn command(&self) -> Command
        ensures { result ≡ self.now.command }
    {
        self.command
    }

    /// Returns true if the command asks for the medium itself, whatever a volatile cache before it holds.
    pub fn asks_medium(&self) -> bool
        ensures { result ≡ self.now.asks_medium }
    {
        self.asks_medium
    }

    /// Returns the data that the command takes from the driver: exactly as many bytes as it needs.
    pub fn data(&self) -> &[u8]
        ensures data { result.now ≡ self.now.data_out }
        ensures len { length result.now ≡ (need_of self.now.command).out }
    {
        if self.bytes.len() < REQUEST_BYTES {
            return &[];
        }
        let (_, data) = self.bytes.as_slice().split_at(REQUEST_BYTES);
        data
    }

    /// Returns the room in which its data stand, for another request; `None` where its command takes no data.
    #[inline(always)]
    pub fn into_room(self) -> Option<Vec<u8>> {
        let UnitRequest { bytes, .. } = self;
        if bytes.is_empty() {
            return None;
        }
        Some(bytes)
    }
}
