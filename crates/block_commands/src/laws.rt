//! Laws that follow from the definitions alone.

ghost use Rattle.std.specs.Prelude.{◌≡◌, ◌≢◌, ◌∷◌, ◌⊎◌, ℕ, ◌+◌, ◌*◌, ◌<◌, ◌≤◌, [], List, length, slice_index, IsTrue, IsFalse, Some, None};
ghost use Rattle.sense.specs.declared.Sense.{Sense};
ghost use Rattle.sense.specs.declared.SenseFormat.{SenseFormat};
ghost use Rattle.sense.specs.Conditions.{miscompare, write_protected};
ghost use Rattle.cdb.specs.declared.commands.Command.{Command as ACommand};
ghost use Rattle.cdb.specs.declared.commands.InquiryData.{InquiryData};
ghost use Rattle.cdb.specs.declared.commands.SelectReport.{SelectReport};
ghost use Rattle.cdb.specs.Decoding.{command};
ghost use Rattle.cdb.specs.Fields.{byte, number};
ghost use Rattle.cdb.specs.declared.profile.Profile.{Profile};
ghost use Rattle.cdb.specs.Need.{need_of};
ghost use Rattle.block_store.specs.Blocks.{Blocks, run, zero_block};
ghost use Rattle.command_model.specs.PlainReply.{success, refusal, sent_in};
ghost use Rattle.command_model.specs.Statuses.{good, check_condition};
ghost use Rattle.command_model.specs.Attention.{takes};
ghost use Rattle.command_model.specs.Capacity.{is_in_range};
ghost use Rattle.command_model.specs.Codes.{is_told};
ghost use Rattle.command_model.specs.Comparing.{to_compare};
ghost use Rattle.command_model.specs.Effects.{block_after, changes_medium, given};
ghost use Rattle.command_model.specs.Facts.{Facts};
ghost use Rattle.command_model.specs.Inquiry.{limits_page};
ghost use Rattle.command_model.specs.Replies.{format_told, read_only_told, reply_of};
ghost use Rattle.command_model.specs.UnmapList.{blocks_named, descriptors, are_in_range, is_named};

use block_store::written_is_read_back;
use cdb::laws::opcodes;
use cdb::{Command, MOST_COMPARE_BLOCKS, MOST_TRANSFER_BLOCKS, MOST_WRITE_SAME_BLOCKS};

/// A reply is GOOD or CHECK CONDITION. GOOD moves all that the command needs from the driver, and the
/// data to it; CHECK CONDITION has no data and moves nothing.
pub fn bytes_moved()
    ensures status { (facts : Facts) (command : Command) (bytes : List ℕ) (blocks : Blocks) →
        ((reply_of facts command bytes blocks).status ≡ good)
        ⊎ ((reply_of facts command bytes blocks).status ≡ check_condition) }
    ensures good { (facts : Facts) (command : Command) (bytes : List ℕ) (blocks : Blocks) →
        (reply_of facts command bytes blocks).status ≡ good →
        (reply_of facts command bytes blocks).moved
        ≡ (need_of command).out + length (reply_of facts command bytes blocks).payload }
    ensures check_condition { (facts : Facts) (command : Command) (bytes : List ℕ) (blocks : Blocks) →
        (reply_of facts command bytes blocks).status ≡ check_condition →
        ((reply_of facts command bytes blocks).moved ≡ 0) × ((reply_of facts command bytes blocks).payload ≡ []) }
{}

/// A reply depends on the blocks below the capacity alone, and a block after a command on that block
/// before alone.
pub fn blocks_below_the_capacity_alone()
    ensures reply { (facts : Facts) (command : Command) (bytes : List ℕ) (p q : Blocks) →
        ((b : ℕ) → b < facts.capacity → p b ≡ q b) →
        reply_of facts command bytes p ≡ reply_of facts command bytes q }
    ensures block { (command : Command) (bytes : List ℕ) (code : ℕ) (p q : Blocks) (b : ℕ) → p b ≡ q b →
        block_after command bytes code p b ≡ block_after command bytes code q b }
{}

/// A READ behind a GOOD WRITE of the same blocks gives what was written.
pub fn written_is_read()
    ensures { (facts : Facts) (lba count : ℕ) (bytes : List ℕ) (blocks : Blocks) → length bytes ≡ 512 * count →
        (reply_of facts (Command.Write lba count) bytes blocks).status ≡ good →
        reply_of facts (Command.Read lba count) [] (block_after (Command.Write lba count) bytes good blocks)
        ≡ success (Command.Read lba count) bytes }
{
    written_is_read_back();
}

/// A command that isn't GOOD changes no block.
pub fn refused_changes_nothing()
    ensures { (command : Command) (bytes : List ℕ) (code : ℕ) (blocks : Blocks) (b : ℕ) → code ≢ good →
        block_after command bytes code blocks b ≡ blocks b }
{}

/// A read-only unit refuses each command that may change its medium, whatever the command names, unless an attention is
/// reported. So no command changes a block of it. The other commands change no block of any unit.
pub fn read_only_is_kept()
    ensures refused { (facts : Facts) (command : ACommand) (bytes : List ℕ) (blocks : Blocks) →
        IsTrue (read_only_told facts) → IsTrue (changes_medium command) → facts.pending ≡ None →
        reply_of facts command bytes blocks ≡ sent_in (format_told facts) (refusal write_protected) }
    ensures blocks { (facts : Facts) (command : ACommand) (bytes : List ℕ) (blocks : Blocks) (b : ℕ) →
        IsTrue (read_only_told facts) →
        block_after command bytes (reply_of facts command bytes blocks).status blocks b ≡ blocks b }
    ensures others { (command : ACommand) (bytes : List ℕ) (b : ℕ) (old : List ℕ) →
        IsFalse (changes_medium command) → given command bytes b old ≡ None }
{}

/// COMPARE AND WRITE with equal data is GOOD; else it changes nothing, and its sense has the offset
/// of the first unequal byte. So it is where the unit isn't read-only.
pub fn compared_first()
    ensures equal { (facts : Facts) (lba count : ℕ) (bytes : List ℕ) (blocks : Blocks) → facts.pending ≡ None →
        IsFalse (read_only_told facts) → IsTrue (is_in_range facts.capacity lba count) →
        run blocks lba count ≡ to_compare count bytes →
        reply_of facts (Command.CompareAndWrite lba count) bytes blocks
        ≡ success (Command.CompareAndWrite lba count) [] }
    ensures unequal { (facts : Facts) (lba count : ℕ) (bytes : List ℕ) (blocks : Blocks) (k : ℕ)
        → facts.pending ≡ None →
        IsFalse (read_only_told facts) → IsTrue (is_in_range facts.capacity lba count) →
        k < length (to_compare count bytes) → k < length (run blocks lba count) →
        ((j : ℕ) → j < k → slice_index (to_compare count bytes) j ≡ slice_index (run blocks lba count) j) →
        slice_index (to_compare count bytes) k ≢ slice_index (run blocks lba count) k →
        reply_of facts (Command.CompareAndWrite lba count) bytes blocks
        ≡ sent_in (format_told facts) (refusal (miscompare k)) }
{}

/// UNMAP is all or nothing: where it is GOOD, each range of its list lies below the capacity, the
/// blocks that they name are zeros and all others as before. Where it isn't, all are as before
/// (`refused_changes_nothing`).
pub fn unmapped_whole()
    ensures range { (facts : Facts) (list_length : ℕ) (bytes : List ℕ) (blocks : Blocks) →
        (reply_of facts (Command.Unmap list_length) bytes blocks).status ≡ good →
        IsTrue (are_in_range facts.capacity (descriptors bytes)) }
    ensures named { (list_length : ℕ) (bytes : List ℕ) (blocks : Blocks) (b : ℕ) →
        IsTrue (is_named (descriptors bytes) b) →
        block_after (Command.Unmap list_length) bytes good blocks b ≡ zero_block }
    ensures others { (list_length : ℕ) (bytes : List ℕ) (blocks : Blocks) (b : ℕ) →
        IsFalse (is_named (descriptors bytes) b) →
        block_after (Command.Unmap list_length) bytes good blocks b ≡ blocks b }
{}

/// The page Block Limits names the limits that commands are held to: that of a READ or a WRITE, of a
/// COMPARE AND WRITE, of a WRITE SAME, and those of an UNMAP that is GOOD.
pub fn limits_are_told()
    ensures transfer { number 8 11 limits_page ≡ MOST_TRANSFER_BLOCKS }
    ensures compare { number 5 5 limits_page ≡ MOST_COMPARE_BLOCKS }
    ensures write_same { number 36 43 limits_page ≡ MOST_WRITE_SAME_BLOCKS }
    ensures unmap_descriptors { (facts : Facts) (list_length : ℕ) (bytes : List ℕ) (blocks : Blocks) →
        (reply_of facts (Command.Unmap list_length) bytes blocks).status ≡ good →
        length (descriptors bytes) ≤ number 24 27 limits_page }
    ensures unmap_blocks { (facts : Facts) (list_length : ℕ) (bytes : List ℕ) (blocks : Blocks) →
        (reply_of facts (Command.Unmap list_length) bytes blocks).status ≡ good →
        blocks_named (descriptors bytes) ≤ number 20 23 limits_page }
{}

/// The data of READ CAPACITY where the last address is the largest of 32 bits but one, the largest, and
/// larger than that.
pub fn large_capacities_are_told()
    ensures below { (facts : Facts) (bytes : List ℕ) (blocks : Blocks) →
        (reply_of (record facts { pending = None; capacity = 0xffff_ffff }) Command.ReadCapacity10 bytes blocks).payload
        ≡ 0xff ∷ 0xff ∷ 0xff ∷ 0xfe ∷ 0 ∷ 0 ∷ 2 ∷ 0 ∷ [] }
    ensures largest { (facts : Facts) (bytes : List ℕ) (blocks : Blocks) →
        (reply_of (record facts { pending = None; capacity = 0x1_0000_0000 }) Command.ReadCapacity10 bytes
        blocks).payload
        ≡ 0xff ∷ 0xff ∷ 0xff ∷ 0xff ∷ 0 ∷ 0 ∷ 2 ∷ 0 ∷ [] }
    ensures larger { (facts : Facts) (bytes : List ℕ) (blocks : Blocks) →
        (reply_of (record facts { pending = None; capacity = 0x1_0000_0001 }) Command.ReadCapacity10 bytes
        blocks).payload
        ≡ 0xff ∷ 0xff ∷ 0xff ∷ 0xff ∷ 0 ∷ 0 ∷ 2 ∷ 0 ∷ [] }
    ensures sixteen { (facts : Facts) (bytes : List ℕ) (blocks : Blocks) →
        (reply_of (record facts { pending = None; capacity = 0x1_0000_0001 })
        (Command.ReadCapacity16 12) bytes blocks).payload
        ≡ 0 ∷ 0 ∷ 0 ∷ 1 ∷ 0 ∷ 0 ∷ 0 ∷ 0 ∷ 0 ∷ 0 ∷ 2 ∷ 0 ∷ [] }
{}

/// INQUIRY and REPORT LUNS leave an attention, and are answered as if there were none.
pub fn attention_is_left()
    ensures inquiry { (what : InquiryData) (allocation : ℕ) → IsFalse (takes (Command.Inquiry what allocation)) }
    ensures report_luns { (select : SelectReport) (allocation : ℕ)
        → IsFalse (takes (Command.ReportLuns select allocation)) }
    ensures same { (facts : Facts) (command : Command) (bytes : List ℕ) (blocks : Blocks) (attention : Sense) →
        IsFalse (takes command) →
        reply_of (record facts { pending = Some attention }) command bytes blocks
        ≡ reply_of (record facts { pending = None }) command bytes blocks }
{}

/// Every other command but REQUEST SENSE is answered with the attention, and isn't run.
pub fn attention_is_met()
    ensures { (facts : Facts) (command : Command) (bytes : List ℕ) (blocks : Blocks) (attention : Sense) →
        IsTrue (takes command)
        → ((format : SenseFormat) (allocation : ℕ) → command ≢ Command.RequestSense format allocation) →
        reply_of (record facts { pending = Some attention }) command bytes blocks
        ≡ sent_in (format_told facts) (refusal attention) }
{}

/// REPORT SUPPORTED OPERATION CODES tells of exactly the opcodes that a unit of the wide profile knows.
pub fn codes_are_told()
    ensures others { (cdb : List ℕ) → IsFalse (is_told (byte 0 cdb)) → command Profile.Wide cdb ≡ Command.Unknown }
    ensures told { (cdb : List ℕ) → IsTrue (is_told (byte 0 cdb)) → command Profile.Wide cdb ≢ Command.Unknown }
{
    opcodes();
}
