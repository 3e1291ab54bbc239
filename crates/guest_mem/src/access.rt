//! What the device asks of a guest's memory, whether it stands still or changes while the guest runs.

ghost use Rattle.std.specs.Prelude.{◌≡◌, ◌+◌, ◌≤◌, ◌^◌, Bool, false, [], List, ℕ, length, IsOk, OnOk, ◌++◌};
ghost use Rattle.guest_mem.specs.Memory.{bytes_at, with_bytes, LiesIn};
ghost use Rattle.guest_mem.specs.Stores.{Store, stores_at};

use std::alloc::AllocError;

/// Reads a guest's memory in phases. A phase reads first, and then writes. No clause says what stands at an address
/// before it is read, since the guest may write there at any moment. All that a phase reads is of one list of bytes: what it read
/// once stays so for it, whatever the guest writes meanwhile.
pub trait Memory {
    /// Says that the memory may be this list of bytes, by all that the phase read and wrote.
    ghost may_be: { Self → List ℕ → Type 0 };

    /// Counts the bytes of the memory.
    ghost extent: { Self → ℕ };

    /// Says that the phase wrote nothing yet, so that it may read.
    ghost is_open: { Self → Type 0 };

    /// Says what a new phase has of the one before it.
    ghost begins: { Self → Self → Type 0 };

    /// Says that so many more short reads can be kept with no memory taken.
    ghost has_room: { Self → ℕ → Type 0 };

    /// Says that others may write the memory too: between two phases, and within one.
    ghost shared: { Bool };

    /// Holds what is known of all that was stored in a memory: of one that others write too, each byte in its order; of
    /// one that nobody else writes, what came of them.
    ghost Stores: { Type 0 };

    /// Gives what is known of it now.
    ghost stored: { Self → Stores };

    /// Gives what is known of it once these bytes were stored besides, in this order.
    ghost storing: { Stores → List Store → Stores };

    /// Begins a phase: forgets what was read before, which may have changed. It has room for 64 short reads.
    fn begin(&mut self)
        ensures size { extent self.new ≡ extent self.old }
        ensures reading { is_open self.new }
        ensures room { has_room self.new 64 }
        ensures begun { begins self.old self.new }
        ensures stores { stored self.new ≡ stored self.old };

    /// Returns how many bytes there are, at most 2^52. There always is a list that the memory may be.
    fn size(&self) -> u64
        ensures size { result ≡ extent self.now }
        ensures bounded { result ≤ 2 ^ 52 }
        ensures some { (m : List ℕ) × may_be self.now m };

    /// Reads the bytes from `addr` on, at most 16 of them, as many as `out` holds. It takes no memory. Called before the
    /// phase writes, for bytes that lie inside, while there is room for a short read.
    fn read(&mut self, addr: u64, out: &mut [u8])
        requires reading { is_open self.old }
        requires inside { LiesIn (extent self.old) addr (length out.old) }
        requires short { length out.old ≤ 16 }
        requires room { has_room self.old 1 }
        ensures reading { is_open self.new }
        ensures size { extent self.new ≡ extent self.old }
        ensures stays { (m : List ℕ) → may_be self.new m → may_be self.old m }
        ensures stores { stored self.new ≡ stored self.old }
        ensures room { (n : ℕ) → has_room self.old (n + 1) → has_room self.new n }
        ensures read { (m : List ℕ) → may_be self.new m → out.new ≡ bytes_at m addr (length out.old) };

    /// Reads the bytes from `addr` on, any number of them, as many as `out` holds. Called before the phase writes, for
    /// bytes that lie inside. An error where memory to keep them is refused; then nothing was asked of the guest's memory.
    /// While there is room for a short read, a read of at most 16 bytes is Ok.
    fn try_read(&mut self, addr: u64, out: &mut [u8]) -> Result<(), AllocError>
        requires reading { is_open self.old }
        requires inside { LiesIn (extent self.old) addr (length out.old) }
        ensures reading { is_open self.new }
        ensures size { extent self.new ≡ extent self.old }
        ensures stays { (m : List ℕ) → may_be self.new m → may_be self.old m }
        ensures stores { stored self.new ≡ stored self.old }
        ensures read { OnOk result ((m : List ℕ) → may_be self.new m → out.new ≡ bytes_at m addr (length out.old)) }
        ensures succeeds { has_room self.old 1 → length out.old ≤ 16 → IsOk result };

    /// Reads `len` bytes from `addr` on, and appends them to `out`. Called as `try_read` is. An error where memory for them is
    /// refused; then nothing was asked of the guest's memory.
    fn append(&mut self, addr: u64, len: usize, out: &mut Vec<u8>) -> Result<(), AllocError>
        requires reading { is_open self.old }
        requires inside { LiesIn (extent self.old) addr len }
        ensures reading { is_open self.new }
        ensures size { extent self.new ≡ extent self.old }
        ensures stays { (m : List ℕ) → may_be self.new m → may_be self.old m }
        ensures stores { stored self.new ≡ stored self.old }
        ensures len { OnOk result (length out.new.items ≡ length out.old.items + len) }
        ensures read { OnOk result ((m : List ℕ) → may_be self.new m
            → out.new.items ≡ out.old.items ++ bytes_at m addr len) };

    /// Claims a run of bytes, behind those that are claimed: the phase reads each of them once, in their order, and keeps none.
    /// Called before the phase writes, for bytes that lie inside. Returns false where it may not: a memory decides which runs it
    /// lets be claimed. It asks nothing of the guest's memory.
    fn claim(&mut self, addr: u64, len: usize) -> bool
        requires reading { is_open self.old }
        requires inside { LiesIn (extent self.old) addr len }
        ensures reading { is_open self.new }
        ensures size { extent self.new ≡ extent self.old }
        ensures stays { (m : List ℕ) → may_be self.new m → may_be self.old m }
        ensures stores { stored self.new ≡ stored self.old };

    /// Reads the run that was claimed next, as many bytes as `out` holds. Called before the phase writes, for bytes that lie
    /// inside. An error where another run was claimed next, or none; then nothing was asked of the guest's memory. Once one was
    /// read so, the phase may refuse to read anything that isn't claimed, and has no room for short reads.
    fn read_claimed(&mut self, addr: u64, out: &mut [u8]) -> Result<(), AllocError>
        requires reading { is_open self.old }
        requires inside { LiesIn (extent self.old) addr (length out.old) }
        ensures reading { is_open self.new }
        ensures size { extent self.new ≡ extent self.old }
        ensures stays { (m : List ℕ) → may_be self.new m → may_be self.old m }
        ensures stores { stored self.new ≡ stored self.old }
        ensures len { length out.new ≡ length out.old }
        ensures read { OnOk result ((m : List ℕ) → may_be self.new m → out.new ≡ bytes_at m addr (length out.old)) };

    /// Proves that room for some short reads is room for fewer.
    ghost fewer: { (x : Self) (m n : ℕ) → n ≤ m → has_room x m → has_room x n };

    /// Proves that what the memory may be has its size.
    ghost sized: { (x : Self) (m : List ℕ) → may_be x m → length m ≡ extent x };

    /// Proves that a new phase finds what the one before it left, where nobody else may write.
    ghost own: { (x y : Self) (m : List ℕ) → shared ≡ false → begins x y → may_be y m → may_be x m };

    /// Proves that the memory is of one list of bytes, where nobody else may write.
    ghost one: { (x : Self) (m n : List ℕ) → shared ≡ false → may_be x m → may_be x n → m ≡ n };

    /// Proves that no stores change nothing of what is known.
    ghost none: { (s : Stores) → storing s [] ≡ s };

    /// Proves that stores behind others are known as all of them in order.
    ghost both: { (s : Stores) (a b : List Store) → storing (storing s a) b ≡ storing s (a ++ b) };
}

/// Writes a guest's memory too, behind what a phase reads.
pub trait WritableMemory: Memory {
    /// Writes `bytes` from `addr` on, and changes nothing else. Called for bytes that lie inside.
    fn write(&mut self, addr: u64, bytes: &[u8])
        requires inside { LiesIn (Self.extent self.old) addr (length bytes.now) }
        ensures size { Self.extent self.new ≡ Self.extent self.old }
        ensures written { (m : List ℕ) → Self.may_be self.new m
            → (before : List ℕ) × Self.may_be self.old before × (m ≡ with_bytes before addr bytes.now) }
        ensures stores { Self.stored self.new ≡ Self.storing (Self.stored self.old) (stores_at addr bytes.now) };
}
