//! FORMAT UNIT (SBC-3 §5.3).

ghost use Rattle.std.specs.Prelude.{◌≡◌, ℕ, ◌≤◌, [], length, slice_range, OnOk, OnErr};
ghost use Rattle.std.specs.Int.{w16, w32, from_be_bytes};
ghost use Rattle.cdb.specs.Fields.{is_set};
ghost use Rattle.cdb.specs.Decoding.{any};
ghost use Rattle.cdb.specs.Need.{header_bytes};
ghost use Rattle.block_store.specs.Blocks.{zero_block};
ghost use Rattle.command_model.specs.Formatting.{format_answer, header_causes, options};
ghost use Rattle.block_commands.specs.Inner.Steps.{Gives};

use crate::failure::Failure;
use block_store::Store;
use cdb::FormatList;
use sense::Sense;

/// Puts zeros into every block, all at once, unless the parameter list is refused. After an error nothing is changed.
pub(crate) fn format_unit<S: Store>(
    store: &mut S,
    list: FormatList,
    bytes: &[u8],
) -> Result<(), Failure>
    requires size { length bytes.now ≡ header_bytes list }
    ensures answer { Gives (λ _. []) (format_answer list bytes.now) result }
    ensures ok { OnOk result ((b : ℕ) → S.block_at store.new b ≡ zero_block) }
    ensures err { OnErr result ((b : ℕ) → S.block_at store.new b ≡ S.block_at store.old b) }
    ensures size { S.size store.new ≡ S.size store.old }
    ensures storage { S.storage store.new ≡ S.storage store.old }
{
    if is_refused_list(list, bytes) {
        return Err(Failure::Refused(Sense::INVALID_FIELD_IN_PARAMETER_LIST));
    }
    store.zero_all()?;
    Ok(())
}

/// Returns true if a parameter list has something that a unit doesn't do.
fn is_refused_list(list: FormatList, bytes: &[u8]) -> bool
    requires { length bytes.now ≡ header_bytes list }
    ensures { result ≡ any (header_causes list bytes.now) }
{
    match list {
        FormatList::NoList => false,
        FormatList::ShortHeader => has_options(bytes) || has_short_list(bytes),
        FormatList::LongHeader => has_options(bytes) || bytes[3] != 0 || has_long_list(bytes),
    }
}

/// Returns true if a header asks for an option other than FOV and IMMED.
fn has_options(bytes: &[u8]) -> bool
    requires { 4 ≤ length bytes.now }
    ensures { result ≡ any (options bytes.now) }
{
    bytes[0] % 8 != 0 || bytes[1] / 4 % 32 != 0 || bytes[1] % 2 != 0
}

/// Returns true if a list of defects follows a short header.
fn has_short_list(bytes: &[u8]) -> bool
    requires { length bytes.now ≡ 4 }
    ensures { result ≡ is_set (from_be_bytes w16 (slice_range bytes.now 2 4)) }
{
    let mut length = [0; 2];
    length.copy_from_slice(&bytes[2..4]);
    u16::from_be_bytes(length) != 0
}

/// Returns true if one follows a long header.
fn has_long_list(bytes: &[u8]) -> bool
    requires { length bytes.now ≡ 8 }
    ensures { result ≡ is_set (from_be_bytes w32 (slice_range bytes.now 4 8)) }
{
    let mut length = [0; 4];
    length.copy_from_slice(&bytes[4..8]);
    u32::from_be_bytes(length) != 0
}
