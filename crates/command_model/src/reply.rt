//! The reply to a command.

ghost use Rattle.std.specs.Prelude.{◌≡◌, ◌+◌, ◌<◌, ◌^◌, vec_len};
ghost use Rattle.cdb.specs.Need.{need_of};

use cdb::{Command, need};
use sense::Sense;
use std::alloc::Global;

/// The status GOOD: the command ended as asked (SAM-5 §5.3.1).
pub const GOOD: u8 = 0x00;

/// The status CHECK CONDITION: sense data says why the command wasn't run (SAM-5 §5.3.1).
pub const CHECK_CONDITION: u8 = 0x02;

/// The status BUSY: the command can't be taken now (SAM-5 §5.3.1). No command that runs is answered
/// it.
pub const BUSY: u8 = 0x08;

/// The status TASK SET FULL: there is no room for another task (SAM-5 §5.3.1). No command that
/// runs is answered it.
pub const TASK_SET_FULL: u8 = 0x28;

/// The reply to a command.
#[derive(Debug, PartialEq, Eq, Drop)]
pub struct Reply {
    /// The status code, one of the constants of this crate.
    pub status: u8,
    /// The sense data of a CHECK CONDITION.
    pub sense: Option<Sense>,
    /// The data to the driver: as many bytes as the command needs room for, or fewer.
    pub payload: Vec<u8>,
    /// The number of bytes that were moved from and to the driver. For GOOD these are all that the command needs from
    /// the driver, and the payload; else none.
    pub moved: u32,
}

impl Reply {
    ghost use Rattle.command_model.specs.PlainReply.{plain_of, refusal, success};

    /// Makes CHECK CONDITION with this sense data.
    pub fn refusal(alloc: Global, sense: Sense) -> Reply
        ensures { plain_of result ≡ refusal sense }
    {
        Reply {
            status: CHECK_CONDITION,
            sense: Some(sense),
            payload: Vec::new(alloc),
            moved: 0,
        }
    }

    /// Makes GOOD with this data to the driver.
    #[inline(always)]
    pub fn success(command: &Command, payload: Vec<u8>) -> Reply
        requires { (need_of command.now).out + vec_len payload < 2 ^ 32 }
        ensures { plain_of result ≡ success command.now payload.items }
    {
        Reply {
            status: GOOD,
            sense: None,
            moved: need(command).out + payload.len() as u32,
            payload,
        }
    }
}
