//! Laws that follow from the definitions of a read and a write alone.

ghost use Rattle.std.specs.Prelude.{◌≡◌, ◌≤◌, ◌+◌, ◌⊎◌, ℕ, List, length};
ghost use Rattle.guest_mem.specs.Memory.{bytes_at, with_bytes};

/// A read of what was just written, at its place, gives it.
pub fn reads_what_was_written()
    ensures { (m : List ℕ) (addr : ℕ) (bs : List ℕ) → addr + length bs ≤ length m
        → bytes_at (with_bytes m addr bs) addr (length bs) ≡ bs }
{}

/// A read of bytes that all lie before or behind a write gives what it gave before.
pub fn keeps_other_bytes()
    ensures { (m : List ℕ) (addr : ℕ) (bs : List ℕ) (at n : ℕ) → addr + length bs ≤ length m
        → (at + n ≤ addr) ⊎ (addr + length bs ≤ at)
        → bytes_at (with_bytes m addr bs) at n ≡ bytes_at m at n }
{}
