//! Whether the pages that a caller needs of a store are in memory.

ghost use Rattle.std.specs.Prelude.{◌≡◌, ◌≢◌};
ghost use Rattle.block_store.specs.declared.readiness.Readiness.TheVariants.{Ready, Full};

/// Whether the pages that a caller needs of a store are in memory, and have room.
#[derive(Clone, Copy, Debug, PartialEq, Eq)]
pub enum Readiness {
    /// They are.
    Ready,
    /// They have room, and the host is asked for each that isn't in memory.
    Asked,
    /// There is no room for all of them. The host may not be asked for each.
    Full,
}

impl Readiness {
    /// Returns whether the pages of two needs are in memory.
    pub fn and(self, other: Readiness) -> Readiness
        ensures ready { result ≡ Ready → (self ≡ Ready) × (other ≡ Ready) }
        ensures asked { result ≢ Full → (self ≢ Full) × (other ≢ Full) }
        ensures whole { self ≡ Ready → other ≡ Ready → result ≡ Ready }
    {
        match (self, other) {
            (Readiness::Ready, other) => other,
            (Readiness::Full, _) | (Readiness::Asked, Readiness::Full) => Readiness::Full,
            (Readiness::Asked, _) => Readiness::Asked,
        }
    }
}
