//! A list that only proofs read.
//!
//! `new`, `any`, `and` and `and_all` are the only functions that set ghost data; each is proved by hand,
//! since no other proof can set them. A clause on ghost data alone says little: a proof by hand could
//! choose the data to suit it. It means what it says because these calls alone make a record, and
//! because invariants tie what was recorded to counts, tables, stores and answers.

ghost use Rattle.std.specs.Prelude.{◌≡◌, List, [], ◌∷◌, ◌++◌};
ghost use Rattle.std.specs.Borrow.{ftrue};

use std::fmt;
use std::marker::{Model, PhantomData};

/// Items that were recorded, in order. A clause reads it as `items`; nothing can ask it at run time. It has no bytes,
/// and it owns none of what it recorded.
#[derive(Drop)]
pub struct Record<T> {
    of: PhantomData<T>,
    /// The items that were recorded, the oldest first.
    pub ghost items: { List T },
}

impl<T> Model for Record<T> {
    ghost also_owns = { λ _. ftrue };
}

// There is no `T` in it to send or to share.
unsafe impl<T> Send for Record<T> {}

unsafe impl<T> Sync for Record<T> {}

impl<T> fmt::Debug for Record<T> {
    fn fmt<W: fmt::Write>(&self, f: &mut fmt::Formatter<W>) -> fmt::Result {
        f.write_str("Record")
    }
}

impl<T> Record<T> {
    /// Makes a record of nothing.
    pub fn new() -> Record<T>
        ensures { result.items ≡ [] }
    {
        Record { of: PhantomData }
    }

    /// Makes a record of any items: of those that its caller names in a proof. It stands for bytes that no code has, such as
    /// those that a host's storage had before it was first read.
    pub fn any() -> Record<T>
        ghost items: { List T }
        ensures { result.items ≡ items }
    {
        Record { of: PhantomData }
    }

    /// Returns what was recorded, and then the item as it is now. The record itself stays.
    pub fn and(&self, item: &T) -> Record<T>
        ensures { result.items ≡ self.now.items ++ item.now ∷ [] }
    {
        Record { of: PhantomData }
    }

    /// Returns what was recorded, and then the items as they are now. The record itself stays.
    pub fn and_all(&self, items: &[T]) -> Record<T>
        ensures { result.items ≡ self.now.items ++ items.now }
    {
        Record { of: PhantomData }
    }

    /// Records the items as they are now.
    pub fn extend_from_slice(&mut self, items: &[T])
        ensures { self.new.items ≡ self.old.items ++ items.now }
    {
        *self = self.and_all(items);
    }

    /// Records the item as it is now.
    pub fn push(&mut self, item: &T)
        ensures { self.new.items ≡ self.old.items ++ item.now ∷ [] }
    {
        *self = self.and(item);
    }
}
