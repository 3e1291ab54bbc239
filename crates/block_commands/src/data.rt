//! Data to the driver, cut to what it asked for.

ghost use Rattle.std.specs.Prelude.{◌≡◌, nat_lt, take, [], Err, IfOk, IsOkAnd, MatchResult, OnErr, IsTrue};

use crate::failure::Failure;
use std::alloc::{AllocError, Global};

/// Returns the bytes, or as many of them from the front as the allocation length allows (SPC-4 §4.3.5.6). It takes no
/// memory where there are none.
pub(crate) fn cut(alloc: Global, bytes: &[u8], allocation: u32) -> Result<Vec<u8>, AllocError>
    ensures kept { IfOk result (λ kept. kept.items ≡ take allocation bytes.now) }
    ensures want { OnErr result (IsTrue (nat_lt 0 allocation)) }
{
    if allocation == 0 {
        return Ok(Vec::new(alloc));
    }
    let len = bytes.len().min(allocation as usize);
    Vec::from_slice(alloc, &bytes[..len])
}

/// Returns no data, where a command ended well.
pub(crate) fn without_data(alloc: Global, ended: Result<(), Failure>) -> Result<Vec<u8>, Failure>
    ensures { MatchResult ended (λ _. IsOkAnd result (λ bytes. bytes.items ≡ [])) (λ failure. result ≡ Err failure) }
{
    ended?;
    Ok(Vec::new(alloc))
}
