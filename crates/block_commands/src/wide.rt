//! The commands of the wide profile alone.

ghost use Rattle.std.specs.Prelude.{◌≡◌, ◌≤◌, ℕ, length, nat_lt, vec_len, take, IfOk, OnOk, OnErr, IsTrue, unwrap_or};
ghost use Rattle.cdb.specs.Need.{wide_need};
ghost use Rattle.command_model.specs.Effects.{wide_given};
ghost use Rattle.command_model.specs.Modes.{mode_answer};
ghost use Rattle.command_model.specs.Wide.{task_management_data, wide_answer, wide_wants};
ghost use Rattle.block_commands.specs.Inner.Steps.{Gives, Wants};
ghost use Rattle.block_commands.specs.Inner.Ready.{is_changed_wide, is_near_wide, is_read_wide};

use crate::codes::operation_codes;
use crate::data::{cut, without_data};
use crate::defects::defect_data;
use crate::failure::Failure;
use crate::format_unit::format_unit;
use crate::mode_lists::mode_select;
use crate::modes::{is_saved, mode_data};
use crate::or_write::or_write;
use crate::provisioning::block_status;
use crate::transfer::write_zeros;
use crate::verify::verify;
use block_store::Store;
use cdb::{ModeRequest, WideCommand};
use sense::{Sense, SenseFormat};
use std::alloc::{AllocError, Global};

/// The data of REPORT SUPPORTED TASK MANAGEMENT FUNCTIONS: ABORT TASK, ABORT TASK SET, CLEAR TASK SET, LOGICAL UNIT RESET
/// and QUERY TASK; QUERY TASK SET and I_T NEXUS RESET.
const TASK_MANAGEMENT: [u8; 4] = [0xdc, 0x03, 0x00, 0x00];

/// The same with 12 more bytes, which give no timeouts.
const EXTENDED_TASK_MANAGEMENT: [u8; 16] = [
    0xdc, 0x03, 0x00, 0x0c, 0, 0, 0, 0, 0, 0, 0, 0, 0, 0, 0, 0,
];

/// Runs a command of the wide profile alone on the blocks of a unit, which sends sense data in this format, has a volatile
/// write cache or none, and is read-only or not, on exactly the data that it needs. After an error nothing is changed.
pub(crate) fn wide<S: Store>(
    alloc: Global,
    store: &mut S,
    format: SenseFormat,
    write_cache: bool,
    read_only: bool,
    command: &WideCommand,
    bytes: &[u8],
) -> Result<Vec<u8>, Failure>
    requires data { length bytes.now ≡ (wide_need command.now).out }
    requires read { (b : ℕ) → IsTrue (is_read_wide (S.size store.old) command.now b) → IsTrue (S.is_held store.old b) }
    requires changed { (b : ℕ) → IsTrue (is_changed_wide (S.size store.old) command.now b) → IsTrue (S.has_room store.old b) }
    requires near { (b : ℕ) → IsTrue (is_near_wide (S.size store.old) command.now b) → IsTrue (S.is_held store.old b) }
    ensures answer { Gives (λ bytes. bytes.items)
        (wide_answer format write_cache read_only (S.size store.old) command.now bytes.now (S.block_at store.old)) result }
    ensures ok { OnOk result ((b : ℕ) → S.block_at store.new b
        ≡ unwrap_or (wide_given command.now bytes.now b (S.block_at store.old b)) (S.block_at store.old b)) }
    ensures err { OnErr result ((b : ℕ) → S.block_at store.new b ≡ S.block_at store.old b) }
    ensures size { S.size store.new ≡ S.size store.old }
    ensures storage { S.storage store.new ≡ S.storage store.old }
    ensures room { IfOk result (λ bytes. vec_len bytes ≤ (wide_need command.now).into) }
    ensures want { Wants (wide_wants (S.size store.old) command.now) result }
{
    match *command {
        WideCommand::ModeSense(request) => mode_sense(
            alloc,
            format,
            write_cache,
            read_only,
            &request,
            store.capacity(),
        ),
        WideCommand::ModeSelect { form, .. } => {
            mode_select(format, write_cache, form, bytes)?;
            Ok(Vec::new(alloc))
        }
        WideCommand::ReportTaskManagement {
            extended,
            allocation,
        } => Ok(task_management(alloc, extended, allocation)?),
        WideCommand::GetLbaStatus { allocation, lba } => block_status(
            alloc, store, lba, allocation,
        ),
        WideCommand::ReportOperationCodes {
            asked,
            timeouts,
            allocation,
        } => operation_codes(alloc, asked, timeouts, allocation),
        WideCommand::Verify { sent, blocks, lba } => {
            without_data(alloc, verify(alloc, store, sent, lba, blocks, bytes))
        }
        WideCommand::WriteZeros { blocks, lba } => {
            write_zeros(store, lba, blocks)?;
            Ok(Vec::new(alloc))
        }
        WideCommand::OrWrite { blocks, lba } => {
            without_data(alloc, or_write(alloc, store, lba, blocks, bytes))
        }
        WideCommand::FormatUnit { list } => without_data(alloc, format_unit(store, list, bytes)),
        WideCommand::ReadDefectData(request) => Ok(defect_data(alloc, &request)?),
    }
}

/// Returns the data of MODE SENSE (SPC-4 §6.13), unless saved values are asked for.
fn mode_sense(
    alloc: Global,
    format: SenseFormat,
    write_cache: bool,
    read_only: bool,
    request: &ModeRequest,
    capacity: u64,
) -> Result<Vec<u8>, Failure>
    ensures answer { Gives (λ bytes. bytes.items) (mode_answer format write_cache read_only request.now capacity) result }
    ensures room { IfOk result (λ bytes. vec_len bytes ≤ request.now.allocation) }
{
    if is_saved(request.values) {
        return Err(Failure::Refused(Sense::SAVING_PARAMETERS_NOT_SUPPORTED));
    }
    Ok(mode_data(alloc, format, write_cache, read_only, request, capacity)?)
}

/// Returns the task management functions that a unit has, cut to the allocation length (SPC-4 §6.36).
fn task_management(alloc: Global, extended: bool, allocation: u32) -> Result<Vec<u8>, AllocError>
    ensures data { IfOk result (λ bytes. bytes.items ≡ take allocation (task_management_data extended)) }
    ensures want { OnErr result (IsTrue (nat_lt 0 allocation)) }
{
    if extended {
        cut(alloc, &EXTENDED_TASK_MANAGEMENT, allocation)
    } else {
        cut(alloc, &TASK_MANAGEMENT, allocation)
    }
}
