//! The guest's own writes and reads, each run on memory that is lent. The clause is for some memory that was lent and
//! came back.

ghost use Rattle.std.specs.Prelude.{◌≡◌, List, ℕ, IfErr, OnErr};
ghost use Rattle.lock_scopes.specs.Memory.{Writes, Reads};
ghost use Rattle.guest_mem.specs.declared.memory.MemFault.TheVariants as MemFault;

use crate::lend::QueueLender;
use guest_mem::MemFault;

/// Writes the guest's bytes, in one hold of the memory. `Outside`, with nothing changed, exactly where one of them
/// would lie behind the end.
pub fn poke_on<B: QueueLender>(lender: &mut B, addr: u64, bytes: &[u8]) -> Result<(), MemFault>
    ensures did { (m : List ℕ) × (n : List ℕ) × B.lends_memory lender.old m × Writes m addr bytes.now result n
        × B.keeps_memory lender.old n lender.new }
    ensures fault { IfErr result (λ fault. fault ≡ MemFault.Outside) }
    ensures queues { B.queues lender.new ≡ B.queues lender.old }
{
    lender.memory(
        &mut [],
        move |memory, _room| -> Result<(), MemFault>
            ensures { Writes memory.old addr bytes.entry.now result memory.new
                × IfErr result (λ fault. fault ≡ MemFault.Outside) }
        { memory.write(addr, bytes) },
    )
}

/// Reads as many bytes as the guest has room for, in one hold of the memory. `Outside`, with the room as it was,
/// exactly where one of them lies behind the end.
pub fn peek_on<B: QueueLender>(lender: &mut B, addr: u64, out: &mut [u8]) -> Result<(), MemFault>
    ensures did { (m : List ℕ) × B.lends_memory lender.old m × Reads m addr out.old result out.new
        × B.keeps_memory lender.old m lender.new }
    ensures fault { IfErr result (λ fault. fault ≡ MemFault.Outside) }
    ensures unchanged { OnErr result (out.new ≡ out.old) }
    ensures queues { B.queues lender.new ≡ B.queues lender.old }
{
    lender.memory(
        out,
        move |memory, room| -> Result<(), MemFault>
            ensures { Reads memory.old addr room.old result room.new × (memory.new ≡ memory.old)
                × IfErr result (λ fault. fault ≡ MemFault.Outside) × OnErr result (room.new ≡ room.old) }
        { memory.read(addr, room) },
    )
}
