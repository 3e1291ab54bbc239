//! Laws of what a device asks of its driver.

ghost use Rattle.std.specs.Prelude.{◌≡◌, ◌+◌, ◌*◌, ◌%◌, ◌<◌, ◌≤◌, ◌⊎◌, ◌∷◌, [], true, false, ℕ, List, length};
ghost use Rattle.guest_mem.specs.Memory.{bytes_at};
ghost use Rattle.ring_core.specs.State.{RingState};
ghost use Rattle.ring_core.specs.Split.{available_index};
ghost use Rattle.ring_core.specs.Packed.{available_place};
ghost use Rattle.ring_core.specs.Writes.{all_written};
ghost use Rattle.ring_core.specs.Asking.{split_asking, split_notifies, packed_asking, packed_notifies};
ghost use Rattle.ring_core.specs.declared.asking.Notify.{Notify};
ghost use Rattle.ring_core.specs.declared.asking.Notify.TheVariants.{Next, Never};

/// The driver of a split queue does as it is asked. `Next`: it notifies the device of the next entry. `Never`: it
/// notifies it of none of the next 65,535. What it reads of used chains stays: the used index and the elements.
pub fn split_drivers_do_as_asked()
    ensures next { (s : RingState) (m : List ℕ) → s.layout.device + 6 + 8 * s.layout.size ≤ length m
        → split_notifies s (all_written m (split_asking s Next ∷ [])) (available_index s) ≡ true }
    ensures never { (s : RingState) (m : List ℕ) (k : ℕ) → s.layout.device + 6 + 8 * s.layout.size ≤ length m
        → k < 65535
        → split_notifies s (all_written m (split_asking s Never ∷ [])) ((available_index s + k) % 65536) ≡ false }
    ensures used { (s : RingState) (m : List ℕ) (n : Notify) → s.layout.device + 6 + 8 * s.layout.size ≤ length m
        → bytes_at (all_written m (split_asking s n ∷ [])) (s.layout.device + 2) (2 + 8 * s.layout.size)
        ≡ bytes_at m (s.layout.device + 2) (2 + 8 * s.layout.size) }
{}

/// The driver of a packed queue does as it is asked. `Next`: it notifies the device of the next chain, however many
/// slots that has. `Never`: it notifies it of none. What lies beside the device area stays, as the ring does.
pub fn packed_drivers_do_as_asked()
    ensures next { (s : RingState) (m : List ℕ) (slots : ℕ) → 0 < s.layout.size → s.layout.size ≤ 32768
        → s.layout.device + 4 ≤ length m → 0 < slots
        → packed_notifies s (all_written m (packed_asking s Next ∷ [])) (available_place s) slots ≡ true }
    ensures never { (s : RingState) (m : List ℕ) (t slots : ℕ) → s.layout.device + 4 ≤ length m
        → packed_notifies s (all_written m (packed_asking s Never ∷ [])) t slots ≡ false }
    ensures beside { (s : RingState) (m : List ℕ) (n : Notify) (at count : ℕ) → s.layout.device + 4 ≤ length m
        → (at + count ≤ s.layout.device) ⊎ (s.layout.device + 4 ≤ at)
        → bytes_at (all_written m (packed_asking s n ∷ [])) at count ≡ bytes_at m at count }
{}
