//! The decision on a request when it is fetched.

ghost use Rattle.std.specs.Prelude.{◌≡◌, ◌+◌, ◌<◌, ◌≤◌, ◌^◌, ℕ, length, min, IfSome};
ghost use Rattle.cdb.specs.Decoding.{command as command_of};
ghost use Rattle.request_intake.specs.Decision.{decided, goes_both_ways, decide_command, decide_address, fails};
ghost use Rattle.request_intake.specs.Inner.Decision.{IfDirect, Suits};

use crate::answer::ChainLengths;
use crate::attribute::attribute_of;
use crate::direct::DirectAnswer;
use crate::inventory::Inventory;
use crate::unit_request::UnitRequest;
use cdb::{CDB_BYTES, Command, Profile, asks_medium, decode, need};
use scsi_codec::{CodecFault, REQUEST_BYTES, RESPONSE_BYTES, Request, ResponseCode, read_request};
use sense::Sense;

/// The decision on a request when it is fetched. It is never decided again.
#[derive(Drop)]
pub enum Decision {
    /// It is answered so, and goes to no unit.
    Direct(DirectAnswer),
    /// It goes to the unit at this index of the inventory.
    Enter(usize, UnitRequest),
}

impl ChainLengths {
    /// Returns true if data go both ways, which isn't offered.
    fn go_both_ways(&self) -> bool
        ensures { result ≡ goes_both_ways self.now }
    {
        self.readable > REQUEST_BYTES as u64 && self.writable > RESPONSE_BYTES as u64
    }
}

/// Makes a response other than OK.
fn fail(code: ResponseCode) -> Decision
    ensures decision { result ≡ fails code }
    ensures len { IfDirect (λ answer. length answer ≡ RESPONSE_BYTES) result }
{
    Decision::Direct(DirectAnswer::failed(code))
}

/// Returns the decision on a request whose target is there, and whose unit, of this profile, is at this index of the
/// inventory, if it is anywhere. It is inlined, so that a request to a unit that is there costs no further call.
#[inline(always)]
fn decide_by_command(
    unit_index: Option<usize>,
    profile: Profile,
    bytes: &mut Vec<u8>,
    lengths: &ChainLengths,
    request: &Request,
) -> Decision
    requires fetched { length bytes.old.items ≡ min 1048627 lengths.now.readable }
    requires whole { REQUEST_BYTES ≤ length bytes.old.items }
    requires sum { lengths.now.readable + lengths.now.writable ≤ 2 ^ 32 }
    requires room { RESPONSE_BYTES ≤ lengths.now.writable }
    ensures decision { result ≡ decide_command unit_index lengths.now bytes.old.items request.now (command_of profile request.now.cdb) }
    ensures suits { (units : ℕ) → IfSome unit_index (λ at. at < units) → Suits units lengths.now result }
{
    let command = decode(profile, &request.cdb);
    let need = need(&command);
    let sent = lengths.readable.saturating_sub(REQUEST_BYTES as u64);
    let room = lengths.writable.saturating_sub(RESPONSE_BYTES as u64);
    if sent < need.out as u64 || room < need.into as u64 {
        return fail(ResponseCode::Overrun);
    }
    let Some(attribute) = attribute_of(request.attribute) else {
        return Decision::Direct(DirectAnswer::refused(lengths, Sense::INVALID_MESSAGE_ERROR));
    };
    match unit_index {
        None => Decision::Direct(DirectAnswer::absent(lengths, &command)),
        Some(unit_index) => {
            Decision::Enter(
                unit_index,
                UnitRequest::new(
                    request.id,
                    attribute,
                    command,
                    asks_medium(&request.cdb),
                    need.out,
                    bytes,
                ),
            )
        }
    }
}

/// Returns the decision on a request whose address was read.
fn decide_by_address(
    inventory: &Inventory,
    bytes: &mut Vec<u8>,
    lengths: &ChainLengths,
    request: &Request,
) -> Decision
    requires fetched { length bytes.old.items ≡ min 1048627 lengths.now.readable }
    requires whole { REQUEST_BYTES ≤ length bytes.old.items }
    requires sum { lengths.now.readable + lengths.now.writable ≤ 2 ^ 32 }
    requires room { RESPONSE_BYTES ≤ lengths.now.writable }
    ensures decision { result ≡ decide_address inventory.now lengths.now bytes.old.items request.now }
    ensures suits { Suits (length inventory.now.addresses) lengths.now result }
{
    match inventory.find(&request.address) {
        Some(unit_index) => {
            let profile = inventory.profile_at(unit_index);
            decide_by_command(Some(unit_index), profile, bytes, lengths, request)
        }
        None if inventory.has_target(request.address.target) => {
            decide_by_command(None, Profile::Narrow, bytes, lengths, request)
        }
        None => fail(ResponseCode::BadTarget),
    }
}

/// Returns what is decided of a request, by the first bytes of its chain, 1,048,627 at most. The first cause that holds
/// of those that answer it directly decides. If none holds, the request goes to its unit. A worker calls it once a
/// chain, in the hold of the queue in which it was fetched. It takes no memory. It moves the bytes into the request if
/// they hold data that the command takes, and else leaves them to the caller.
pub fn decide(inventory: &Inventory, bytes: &mut Vec<u8>, lengths: &ChainLengths) -> Decision
    requires fetched { length bytes.old.items ≡ min 1048627 lengths.now.readable }
    requires sum { lengths.now.readable + lengths.now.writable ≤ 2 ^ 32 }
    ensures decision { result ≡ decided inventory.now bytes.old.items lengths.now }
    ensures suits { Suits (length inventory.now.addresses) lengths.now result }
{
    match read_request(bytes.as_slice(), lengths.writable) {
        Err(CodecFault::ShortResponse) => Decision::Direct(DirectAnswer::nothing()),
        Err(CodecFault::ShortRequest) => fail(ResponseCode::Failure),
        Err(CodecFault::BadAddress) => {
            if lengths.go_both_ways() {
                fail(ResponseCode::Failure)
            } else {
                fail(ResponseCode::BadTarget)
            }
        }
        Ok(request) => {
            if lengths.go_both_ways() {
                fail(ResponseCode::Failure)
            } else {
                decide_by_address(inventory, bytes, lengths, &request)
            }
        }
    }
}
