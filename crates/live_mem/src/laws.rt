//! What a memory may be, said of one byte.

ghost use Rattle.std.specs.Prelude.{ℕ, ◌≡◌, ◌+◌, ◌-◌, ◌<◌, ◌≤◌, ◌∷◌, List, length, get_or};
ghost use Rattle.live_mem.specs.Access.{Access, MayBe, StoredNothing, WasNotRead};

/// Says that a byte which a phase reads for the first time is the byte that the bus gave.
pub fn reads_what_the_bus_gave()
    ensures { (size a p : ℕ) (bs m : List ℕ) (log : List Access) → MayBe size (Access.Loads a bs ∷ log) m
        → StoredNothing log → WasNotRead log p → a ≤ p → p < a + length bs → p < size
        → get_or m p 0 ≡ get_or bs (p - a) 0 }
{}
