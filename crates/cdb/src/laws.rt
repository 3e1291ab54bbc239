//! Laws that follow from the definitions alone.

ghost use Rattle.std.specs.Prelude.{◌≡◌, ◌≢◌, ℕ, List, IsTrue, IsFalse};
ghost use Rattle.cdb.specs.Decoding.{command};
ghost use Rattle.cdb.specs.Fields.{bit, bits, byte, number};
ghost use Rattle.cdb.specs.Opcodes.{control_of, is_profiled};
ghost use Rattle.cdb.specs.Profiles.{is_gained};
ghost use Rattle.cdb.specs.Usage.{ActionDecides, ActionMatters, OfEach, PlainDecides, PlainMatters, action_commands, plain_commands};
ghost use Rattle.cdb.specs.declared.profile.Profile.{Profile};

use crate::{Command, MOST_COMPARE_BLOCKS, MOST_TRANSFER_BLOCKS, MOST_WRITE_SAME_BLOCKS};

/// A CDB is `Unknown` exactly where its opcode isn't the profile's, whatever else stands in it.
pub fn opcodes()
    ensures other { (profile : Profile) (cdb : List ℕ) → IsFalse (is_profiled profile (byte 0 cdb))
        → command profile cdb ≡ Command.Unknown }
    ensures profiled { (profile : Profile) (cdb : List ℕ) → IsTrue (is_profiled profile (byte 0 cdb))
        → command profile cdb ≢ Command.Unknown }
{}

/// NACA, bit 2 of the last byte of the CDB's length, makes each command of the profile `Bad`.
pub fn naca()
    ensures { (profile : Profile) (cdb : List ℕ) → IsTrue (is_profiled profile (byte 0 cdb))
        → IsTrue (bit (control_of (byte 0 cdb)) 2 cdb)
        → command profile cdb ≡ Command.Bad (byte 0 cdb) }
{}

/// READ (10) has no other field than RDPROTECT, the logical block address, the transfer length
/// and NACA: two CDBs that agree in these are decoded alike.
pub fn read_10()
    ensures { (profile : Profile) (a b : List ℕ) → byte 0 a ≡ 0x28 → byte 0 b ≡ 0x28
        → bits 1 7 5 a ≡ bits 1 7 5 b
        → number 2 5 a ≡ number 2 5 b
        → number 7 8 a ≡ number 7 8 b
        → bit 9 2 a ≡ bit 9 2 b
        → command profile a ≡ command profile b }
{}

/// The wide profile decodes each command of the narrow one alike, but for what `is_gained` lists: there the narrow profile
/// refuses the CDB. So each command that is good in the narrow profile is the same in the wide one.
pub fn profiles()
    ensures alike { (cdb : List ℕ) → IsTrue (is_profiled Profile.Narrow (byte 0 cdb)) → IsFalse (is_gained cdb)
        → command Profile.Wide cdb ≡ command Profile.Narrow cdb }
    ensures gained { (cdb : List ℕ) → IsTrue (is_gained cdb)
        → command Profile.Narrow cdb ≡ Command.Bad (byte 0 cdb) }
    ensures good { (cdb : List ℕ) → command Profile.Narrow cdb ≢ Command.Unknown
        → command Profile.Narrow cdb ≢ Command.Bad (byte 0 cdb)
        → command Profile.Wide cdb ≡ command Profile.Narrow cdb }
{}

/// A usage map has ones where a unit evaluates a field (SPC-4 §6.35.3). Two CDBs of a command that agree in NACA and in the
/// fields that decide are decoded alike: a bit outside of them changes nothing, nor does a field that is taken alone. Each
/// field that decides does so by itself: two CDBs that differ in it alone are decoded differently.
pub fn usage_bits_matter()
    ensures plain { OfEach PlainDecides plain_commands }
    ensures actions { OfEach ActionDecides action_commands }
    ensures each_plain { OfEach PlainMatters plain_commands }
    ensures each_action { OfEach ActionMatters action_commands }
{}

/// The limits that the profile has: of READ and WRITE, of WRITE SAME, and of COMPARE AND WRITE.
pub fn limits()
    ensures transfer { MOST_TRANSFER_BLOCKS ≡ 2048 }
    ensures write_same { MOST_WRITE_SAME_BLOCKS ≡ 65536 }
    ensures compare { MOST_COMPARE_BLOCKS ≡ 64 }
{}
