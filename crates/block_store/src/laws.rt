//! Laws that follow from the definitions alone.

ghost use Rattle.std.specs.Prelude.{◌≡◌, ℕ, true, false, ◌+◌, ◌-◌, ◌*◌, ◌<◌, ◌≤◌, ◌++◌, List, [], IsTrue, length, replicate};
ghost use Rattle.block_store.specs.Pages.{covered};
ghost use Rattle.block_store.specs.Blocks.{Blocks, block_count, nth_block, is_within, overwritten, filled, zeroed, run};
ghost use Rattle.block_store.specs.Storage.{Ledger, Dealing, and_then, is_lost, is_denied};

/// A read gives back the bytes that were written.
pub fn written_is_read_back()
    ensures { (blocks : Blocks) (first count : ℕ) (bytes : List ℕ) → length bytes ≡ 512 * count →
        run (overwritten blocks first bytes) first count ≡ bytes }
{}

/// A write changes no block before or behind its range.
pub fn others_stay()
    ensures before { (blocks : Blocks) (first : ℕ) (bytes : List ℕ) (b : ℕ) → b < first →
        overwritten blocks first bytes b ≡ blocks b }
    ensures behind { (blocks : Blocks) (first : ℕ) (bytes : List ℕ) (b : ℕ) → first + block_count bytes ≤ b →
        overwritten blocks first bytes b ≡ blocks b }
    ensures filled_before { (blocks : Blocks) (first count : ℕ) (bytes : List ℕ) (b : ℕ) → b < first →
        filled blocks first count bytes b ≡ blocks b }
    ensures filled_behind { (blocks : Blocks) (first count : ℕ) (bytes : List ℕ) (b : ℕ) → first + count ≤ b →
        filled blocks first count bytes b ≡ blocks b }
{}

/// The later of two writes wins in the blocks that both cover.
pub fn later_write_wins()
    ensures { (blocks : Blocks) (first' first : ℕ) (earlier later : List ℕ) (b : ℕ) →
        IsTrue (is_within first (block_count later) b) →
        overwritten (overwritten blocks first' earlier) first later b ≡ nth_block later (b - first) }
{}

/// Blocks that were zeroed read as zeros.
pub fn zeroed_reads_as_zeros()
    ensures { (blocks : Blocks) (first count : ℕ) →
        run (zeroed blocks first count) first count ≡ replicate (512 * count) 0 }
{}

/// Filling with a block writes it into each place.
pub fn filled_has_the_block()
    ensures { (blocks : Blocks) (first count : ℕ) (bytes : List ℕ) (b : ℕ) → first ≤ b → b < first + count →
        filled blocks first count bytes b ≡ bytes }
{}

/// An empty range changes nothing.
pub fn nothing_written_changes_nothing()
    ensures written { (blocks : Blocks) (first b : ℕ) → overwritten blocks first [] b ≡ blocks b }
    ensures filled { (blocks : Blocks) (first : ℕ) (bytes : List ℕ) (b : ℕ) → filled blocks first 0 bytes b ≡ blocks b }
    ensures zeroed { (blocks : Blocks) (first b : ℕ) → zeroed blocks first 0 b ≡ blocks b }
{}

/// Reading a range is reading its two parts.
pub fn read_in_two_parts()
    ensures { (blocks : Blocks) (first n m : ℕ) →
        run blocks first (n + m) ≡ run blocks first n ++ run blocks (first + n) m }
{}

/// Reading whole blocks gives 512 bytes for each.
pub fn read_gives_512_bytes_a_block()
    ensures { (blocks : Blocks) (first count : ℕ) →
        ((b : ℕ) → first ≤ b → b < first + count → length (blocks b) ≡ 512) →
        length (run blocks first count) ≡ 512 * count }
{}

/// Pages that were prepared with bytes and are installed are as these bytes written, whatever stood beside the range.
pub fn installed_is_written()
    ensures { (blocks copied prepared : Blocks) (first count : ℕ) (bytes : List ℕ) → length bytes ≡ 512 * count →
        ((b : ℕ) → prepared b ≡ overwritten copied first bytes b) →
        (b : ℕ) → covered blocks prepared first count b ≡ overwritten blocks first bytes b }
{}

/// A page is lost once the host said that it can't read it, until the host hands it in, or says that it wrote it.
pub fn the_latest_word_of_a_page_counts()
    ensures lost { (p : ℕ) (l : Ledger) → is_lost p (and_then (Dealing.Lose p) l) ≡ true }
    ensures loaded { (p : ℕ) (l : Ledger) → is_lost p (and_then (Dealing.Load p) l) ≡ false }
    ensures kept { (p : ℕ) (l : Ledger) → is_lost p (and_then (Dealing.Keep p) l) ≡ false }
{}

/// A page is denied once the host said that it can't write it, until the host says that it wrote it, or cuts it off.
pub fn a_page_is_denied_until_it_is_written()
    ensures denied { (p : ℕ) (l : Ledger) → is_denied p (and_then (Dealing.Deny p) l) ≡ true }
    ensures kept { (p : ℕ) (l : Ledger) → is_denied p (and_then (Dealing.Keep p) l) ≡ false }
    ensures cut { (p n : ℕ) (l : Ledger) → n ≤ 8 * p → is_denied p (and_then (Dealing.Cut n) l) ≡ false }
{}
