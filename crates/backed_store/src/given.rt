//! What proofs read of what a store and its host did.

ghost use Rattle.std.specs.Prelude.{◌≡◌, ℕ, ◌++◌, ◌∷◌, [], false, map};
ghost use Rattle.block_store.specs.Storage.{Storage, lost_after, lost_by, denied_after, denied_by};
ghost use Rattle.backed_store.specs.Backing.{plain, after, after_all};

use crate::dealing::Dealing;
use foundation::Record;

/// Records what was done.
pub(crate) fn record(dealings: &mut Record<Dealing>, dealing: &Dealing)
    ensures storage { (h : Storage) → after_all dealings.new.items h ≡ after dealing.now (after_all dealings.old.items h) }
    ensures ledger { map plain dealings.new.items ≡ map plain dealings.old.items ++ plain dealing.now ∷ [] }
    ensures lost { (p : ℕ) → lost_by p false (map plain dealings.new.items)
        ≡ lost_after p (lost_by p false (map plain dealings.old.items)) (plain dealing.now) }
    ensures denied { (p : ℕ) → denied_by p false (map plain dealings.new.items)
        ≡ denied_after p (denied_by p false (map plain dealings.old.items)) (plain dealing.now) }
{
    dealings.push(dealing);
}
