//! A run of descriptors, as a walk along it gives it.

ghost use Rattle.std.specs.Prelude.{◌≡◌, ◌∷◌, ◌++◌, [], MatchResult};
ghost use Rattle.ring_core.specs.Walk.{part_of};

use crate::before::Before;
use crate::chain::Draft;
use crate::descriptor::Descriptor;
use crate::fault::RingFault;

/// A run of descriptors: the last one, what stands before that, and the parts before it. For rings.
#[derive(Drop)]
pub struct Run {
    /// The last descriptor, past which the run doesn't go on.
    pub last: Descriptor,
    /// Totals of the descriptors before it.
    pub before: Before,
    /// Their parts, behind those of a run before this one.
    pub draft: Draft,
}

impl Run {
    /// Returns all its parts. Put into its callers, where a request is fetched.
    #[inline(always)]
    pub fn into_parts(self) -> Result<Draft, RingFault>
        ensures { MatchResult result
            (λ draft. draft ≡ self.draft ++ part_of self.last ∷ [])
            (λ fault. fault ≡ RingFault.NoMemory) }
    {
        let Run {
            last,
            before: _,
            mut draft,
        } = self;
        if draft.push(last.part()).is_err() {
            return Err(RingFault::NoMemory);
        }
        Ok(draft)
    }
}
