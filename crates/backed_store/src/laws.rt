//! States what a page owes the host's storage.

ghost use Rattle.std.specs.Prelude.{◌≡◌, ℕ, ◌<◌, ◌≤◌, false, IsTrue};
ghost use Rattle.backed_store.specs.Stores.{dues};
ghost use Rattle.backed_store.specs.Flushes.{owes};
ghost use Rattle.backed_store.specs.declared.backed.BackedStore.{BackedStore};

/// A page owes a change or an older one exactly where something is due of it. No call but a write that failed has more due
/// than before.
pub fn what_is_owed_is_due()
    ensures due { (s : BackedStore) (n p : ℕ) → IsTrue (owes s n p) → 0 < dues s n p }
    ensures paid { (s : BackedStore) (n p : ℕ) → owes s n p ≡ false → dues s n p ≡ 0 }
    ensures most { (s : BackedStore) (n p : ℕ) → dues s n p ≤ 3 }
{}
