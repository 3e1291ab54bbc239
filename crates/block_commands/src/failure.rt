//! The reasons for which a command gives no data.

ghost use Rattle.std.specs.Prelude.{◌≡◌};
ghost use Rattle.block_commands.specs.declared.failure.Failure.TheVariants.{Refused, WantOfMemory};

use foundation::NoMemory;
use sense::Sense;
use std::alloc::AllocError;

/// The cause for which a command gives no data: it is refused, or memory is.
#[derive(Clone, Copy)]
pub(crate) enum Failure {
    /// The command is refused with this sense data.
    Refused(Sense),
    /// The memory that it wanted could not be had.
    WantOfMemory,
}

impl From<Sense> for Failure {
    ghost from_gives = { λ s failure. failure ≡ Refused s };

    fn from(sense: Sense) -> Self {
        Failure::Refused(sense)
    }
}

impl From<AllocError> for Failure {
    ghost from_gives = { λ _ failure. failure ≡ WantOfMemory };

    fn from(_: AllocError) -> Self {
        Failure::WantOfMemory
    }
}

impl From<NoMemory> for Failure {
    ghost from_gives = { λ _ failure. failure ≡ WantOfMemory };

    fn from(_: NoMemory) -> Self {
        Failure::WantOfMemory
    }
}
