//! Pages that lie side by side.

ghost use Rattle.std.specs.Prelude.{◌≡◌, ℕ, ◌^◌, ◌<◌, ◌≤◌, false, IsTrue, IfSome, IfNone};
ghost use Rattle.backed_store.specs.Spared.{is_in, is_spared};

/// Pages that lie side by side.
#[derive(Clone, Copy)]
pub struct PageRange {
    /// The first.
    pub first: u64,
    /// How many there are.
    pub count: u64,
}

impl PageRange {
    /// Returns true if a page is one of them.
    fn has(&self, page: u64) -> bool
        ensures { result ≡ is_in page self.now }
    {
        page >= self.first && page - self.first < self.count
    }

    /// Returns the last page. There is one.
    fn last(&self) -> u64
        requires { 0 < self.now.count }
        ensures reaches { (p : ℕ) → p < 2 ^ 64 → IsTrue (is_in p self.now) → p ≤ result }
        ensures within { (p : ℕ) → self.now.first ≤ p → p ≤ result → IsTrue (is_in p self.now) }
    {
        self.first.saturating_add(self.count - 1)
    }
}

/// Returns the last page of a range that has a page; `None` where none of the ranges has it.
pub(crate) fn spared_until(spared: &[PageRange], page: u64) -> Option<u64>
    ensures reaches { IfSome result (λ last. page ≤ last) }
    ensures some { IfSome result (λ last. (p : ℕ) → page ≤ p → p ≤ last → IsTrue (is_spared spared.now p)) }
    ensures none { IfNone result (is_spared spared.now page ≡ false) }
{
    match spared {
        [] => None,
        [range, rest @ ..] => {
            if range.has(page) {
                return Some(range.last());
            }
            spared_until(rest, page)
        }
    }
}
