//! A row: up to 64 pages that lie side by side, or the pages of one write. A page behind its end is zeros.

ghost use Rattle.std.specs.Prelude.{◌≡◌, ℕ, ◌+◌, ◌-◌, ◌*◌, ◌/◌, ◌%◌, ◌^◌, ◌<◌, ◌≤◌, ◌++◌, ◌==◌, [], length, take, max, vec_len, vec_capacity, IfOk, OnOk, OnErr, IsTrue, IsFalse, if◌then◌else◌};
ghost use Rattle.block_store.specs.Blocks.{block_count, overwritten, filled, zeroed, run, is_within};
ghost use Rattle.block_store.specs.Kept.{row_kept};
ghost use Rattle.block_store.specs.Inner.Kept.{row_blocks, is_made_in};

use crate::BLOCK_BYTES;
use crate::numbers::{PAGE_BLOCKS, in_page, page_of, position_of};
use crate::page::{PAGE_BYTES, Page, zeros};
use foundation::NoMemory;
use std::alloc::Global;
use std::mem;

/// Appends pages without bytes, until there are so many.
pub(crate) fn reach(row: &mut Vec<Page>, alloc: Global, len: usize) -> Result<(), NoMemory>
    ensures reached { OnOk result (vec_len row.new ≡ max (vec_len row.old) len) }
    ensures grows { vec_len row.old ≤ vec_len row.new }
    ensures pages { (p : ℕ) → row_kept row.new.items p ≡ row_kept row.old.items p }
{
    row.reserve(len.saturating_sub(row.len()))?;
    while row.len() < len {
        append(row, Page::absent(alloc))?;
    }
    Ok(())
}

/// Makes a row that begins with a page, and has another one at `last`, unless that is the first index too.
pub(crate) fn between(
    alloc: Global,
    head: Page,
    last: usize,
    tail: Page,
) -> Result<Vec<Page>, NoMemory>
    requires { last < 2 ^ 61 }
    ensures { IfOk result (λ row. (p : ℕ) → row_kept row.items p
        ≡ (if p == 0 then head.bytes.items else if p == last then tail.bytes.items else [])) }
{
    let mut row = Vec::with_capacity(alloc, last + 1)?;
    append(&mut row, head)?;
    if last == 0 {
        return Ok(row);
    }
    reach(&mut row, alloc, last)?;
    append(&mut row, tail)?;
    Ok(row)
}

/// Appends a page.
fn append(row: &mut Vec<Page>, page: Page) -> Result<(), NoMemory>
    ensures page { OnOk result ((p : ℕ) → row_kept row.new.items p
        ≡ (if p == vec_len row.old then page.bytes.items else row_kept row.old.items p)) }
    ensures len { OnOk result (vec_len row.new ≡ vec_len row.old + 1) }
    ensures err { OnErr result (row.new.items ≡ row.old.items) }
{
    match row.push(page) {
        Ok(()) => Ok(()),
        Err(_) => Err(NoMemory),
    }
}

/// Returns true if the last page keeps no bytes.
fn ends_absent(row: &[Page]) -> bool
    ensures some { IsTrue result → 0 < length row.now }
    ensures pages { IsTrue result → (p : ℕ) → row_kept (take (length row.now - 1) row.now) p ≡ row_kept row.now p }
{
    match row.last() {
        Some(last) => !last.is_made(),
        None => false,
    }
}

/// Drops the pages at the end that keep no bytes.
pub(crate) fn trim(row: &mut Vec<Page>)
    ensures shorter { vec_len row.new ≤ vec_len row.old }
    ensures pages { (p : ℕ) → row_kept row.new.items p ≡ row_kept row.old.items p }
{
    while ends_absent(row) {
        let _ = row.pop();
    }
}

/// Returns the bytes of `count` blocks of one page.
pub(crate) fn part(row: &[Page], first: u64, count: usize) -> &[u8]
    requires { first % 8 + count ≤ 8 }
    ensures { result.now ≡ run (row_blocks row.now) first count }
{
    let page = page_of(first) as usize;
    if page >= row.len() {
        return zeros(count);
    }
    row[page].part(position_of(first), count)
}

/// Appends the bytes of `count` blocks to a list that has room for them.
pub(crate) fn read(row: &[Page], first: u64, count: usize, into: &mut Vec<u8>)
    requires range { first + count < 2 ^ 64 }
    requires room { vec_len into.old + BLOCK_BYTES * count ≤ vec_capacity into.old }
    ensures bytes { into.new.items ≡ into.old.items ++ run (row_blocks row.now) first count }
    ensures len { vec_len into.new ≡ vec_len into.old + BLOCK_BYTES * count }
    ensures keeps_room { vec_capacity into.old ≤ vec_capacity into.new }
{
    let mut done = 0;
    while done < count {
        let at = first + done as u64;
        let some = in_page(at, count - done);
        // The list has room, so nothing is refused.
        let _ = into.extend_from_slice(part(row, at, some));
        done += some;
    }
}

/// Returns true if the page of the block keeps its bytes.
fn is_made(row: &[Page], block: u64) -> bool
    ensures { result ≡ is_made_in row.now (block / 8) }
{
    match row.get(page_of(block) as usize) {
        Some(page) => page.is_made(),
        None => false,
    }
}

/// Returns true if the pages of `count` blocks keep their bytes.
pub(crate) fn are_made(row: &[Page], first: u64, count: usize) -> bool
    requires { first + count < 2 ^ 64 }
    ensures { IsTrue result → (b : ℕ) → IsTrue (is_within first count b) → IsTrue (is_made_in row.now (b / 8)) }
{
    let mut done = 0;
    while done < count {
        let at = first + done as u64;
        if !is_made(row, at) {
            return false;
        }
        done += in_page(at, count - done);
    }
    true
}

/// Makes the page of the block, unless it keeps its bytes already.
fn make(row: &mut Vec<Page>, alloc: Global, block: u64) -> Result<(), NoMemory>
    ensures made { OnOk result (IsTrue (is_made_in row.new.items (block / 8))) }
    ensures others { (p : ℕ) → IsTrue (is_made_in row.old.items p) → IsTrue (is_made_in row.new.items p) }
    ensures blocks { (b : ℕ) → row_blocks row.new.items b ≡ row_blocks row.old.items b }
    ensures grows { vec_len row.old ≤ vec_len row.new }
{
    if is_made(row, block) {
        return Ok(());
    }
    let page = page_of(block) as usize;
    reach(row, alloc, page + 1)?;
    row[page] = Page::zeroed(alloc)?;
    Ok(())
}

/// Makes the pages of `count` blocks that keep no bytes yet.
pub(crate) fn make_all(
    row: &mut Vec<Page>,
    alloc: Global,
    first: u64,
    count: usize,
) -> Result<(), NoMemory>
    requires { first + count < 2 ^ 64 }
    ensures made { OnOk result ((b : ℕ) → IsTrue (is_within first count b) → IsTrue (is_made_in row.new.items (b / 8))) }
    ensures others { (p : ℕ) → IsTrue (is_made_in row.old.items p) → IsTrue (is_made_in row.new.items p) }
    ensures blocks { (b : ℕ) → row_blocks row.new.items b ≡ row_blocks row.old.items b }
    ensures grows { vec_len row.old ≤ vec_len row.new }
{
    let mut done = 0;
    while done < count {
        let at = first + done as u64;
        make(row, alloc, at)?;
        done += in_page(at, count - done);
    }
    Ok(())
}

/// Puts the bytes over blocks of one page, which keeps its bytes.
fn put_part(row: &mut Vec<Page>, first: u64, bytes: &[u8])
    requires made { IsTrue (is_made_in row.old.items (first / 8)) }
    requires whole { length bytes.now % BLOCK_BYTES ≡ 0 }
    requires range { first % 8 + block_count bytes.now ≤ 8 }
    ensures blocks { (b : ℕ) → row_blocks row.new.items b ≡ overwritten (row_blocks row.old.items) first bytes.now b }
    ensures made { (p : ℕ) → is_made_in row.new.items p ≡ is_made_in row.old.items p }
    ensures len { vec_len row.new ≡ vec_len row.old }
{
    row[page_of(first) as usize].put(position_of(first), bytes);
}

/// Puts the bytes over the blocks from `first` on, whose pages keep their bytes.
pub(crate) fn put(row: &mut Vec<Page>, first: u64, bytes: &[u8])
    requires range { first + block_count bytes.now < 2 ^ 64 }
    requires whole { length bytes.now % BLOCK_BYTES ≡ 0 }
    requires made { (b : ℕ) → IsTrue (is_within first (block_count bytes.now) b) → IsTrue (is_made_in row.old.items (b / 8)) }
    ensures blocks { (b : ℕ) → row_blocks row.new.items b ≡ overwritten (row_blocks row.old.items) first bytes.now b }
    ensures made { (p : ℕ) → is_made_in row.new.items p ≡ is_made_in row.old.items p }
    ensures len { vec_len row.new ≡ vec_len row.old }
{
    let count = bytes.len() / BLOCK_BYTES;
    let mut done = 0;
    while done < count {
        let at = first + done as u64;
        let some = in_page(at, count - done);
        put_part(
            row,
            at,
            &bytes[BLOCK_BYTES * done..BLOCK_BYTES * (done + some)],
        );
        done += some;
    }
}

/// Puts the bytes over blocks of one page. If they cover the whole page, makes it of them, over a spare page where
/// there is one. Else makes the page first, unless it keeps its bytes already.
fn set_part(
    row: &mut Vec<Page>,
    alloc: Global,
    first: u64,
    bytes: &[u8],
    spare: &mut Vec<Page>,
) -> Result<(), NoMemory>
    requires whole { length bytes.now % BLOCK_BYTES ≡ 0 }
    requires range { first % 8 + block_count bytes.now ≤ 8 }
    ensures { OnOk result ((b : ℕ) → row_blocks row.new.items b ≡ overwritten (row_blocks row.old.items) first bytes.now b) }
{
    if bytes.len() < PAGE_BYTES {
        make(row, alloc, first)?;
        put_part(row, first, bytes);
        return Ok(());
    }
    let page = page_of(first) as usize;
    reach(row, alloc, page + 1)?;
    row[page] = Page::of(alloc, bytes, spare)?;
    Ok(())
}

/// Puts the bytes over the blocks from `first` on, page by page. Makes pages that keep no bytes. Those that are covered
/// whole take the bytes of spare pages, while there are some.
pub(crate) fn set(
    row: &mut Vec<Page>,
    alloc: Global,
    first: u64,
    bytes: &[u8],
    spare: &mut Vec<Page>,
) -> Result<(), NoMemory>
    requires range { first + block_count bytes.now < 2 ^ 64 }
    requires whole { length bytes.now % BLOCK_BYTES ≡ 0 }
    ensures { OnOk result ((b : ℕ) → row_blocks row.new.items b ≡ overwritten (row_blocks row.old.items) first bytes.now b) }
{
    let count = bytes.len() / BLOCK_BYTES;
    let mut done = 0;
    while done < count {
        let at = first + done as u64;
        let some = in_page(at, count - done);
        let part = &bytes[BLOCK_BYTES * done..BLOCK_BYTES * (done + some)];
        set_part(row, alloc, at, part, spare)?;
        done += some;
    }
    Ok(())
}

/// Puts the bytes over the blocks from `first` on, if their pages keep their bytes. Returns true if they do.
pub(crate) fn try_put(row: &mut Vec<Page>, first: u64, bytes: &[u8]) -> bool
    requires range { first + block_count bytes.now < 2 ^ 64 }
    requires whole { length bytes.now % BLOCK_BYTES ≡ 0 }
    ensures put { IsTrue result → (b : ℕ) → row_blocks row.new.items b ≡ overwritten (row_blocks row.old.items) first bytes.now b }
    ensures same { IsFalse result → row.new.items ≡ row.old.items }
    ensures len { vec_len row.new ≡ vec_len row.old }
{
    if !are_made(row, first, bytes.len() / BLOCK_BYTES) {
        return false;
    }
    put(row, first, bytes);
    true
}

/// Puts the block into each of `count` places of one page, which keeps its bytes.
fn fill_part(row: &mut Vec<Page>, first: u64, count: usize, block: &[u8; BLOCK_BYTES])
    requires made { IsTrue (is_made_in row.old.items (first / 8)) }
    requires range { first % 8 + count ≤ 8 }
    ensures blocks { (b : ℕ) → row_blocks row.new.items b ≡ filled (row_blocks row.old.items) first count block.now b }
    ensures made { (p : ℕ) → is_made_in row.new.items p ≡ is_made_in row.old.items p }
    ensures len { vec_len row.new ≡ vec_len row.old }
{
    row[page_of(first) as usize].fill(position_of(first), count, block);
}

/// Puts the block into each of `count` places from `first` on, whose pages keep their bytes.
pub(crate) fn fill(row: &mut Vec<Page>, first: u64, count: usize, block: &[u8; BLOCK_BYTES])
    requires range { first + count < 2 ^ 64 }
    requires made { (b : ℕ) → IsTrue (is_within first count b) → IsTrue (is_made_in row.old.items (b / 8)) }
    ensures blocks { (b : ℕ) → row_blocks row.new.items b ≡ filled (row_blocks row.old.items) first count block.now b }
    ensures made { (p : ℕ) → is_made_in row.new.items p ≡ is_made_in row.old.items p }
    ensures len { vec_len row.new ≡ vec_len row.old }
{
    let mut done = 0;
    while done < count {
        let at = first + done as u64;
        let some = in_page(at, count - done);
        fill_part(row, at, some, block);
        done += some;
    }
}

/// Puts zeros into each of `count` places of one page, which goes where it is zeroed whole.
fn clear_part(row: &mut Vec<Page>, alloc: Global, first: u64, count: usize)
    requires { first % 8 + count ≤ 8 }
    ensures blocks { (b : ℕ) → row_blocks row.new.items b ≡ zeroed (row_blocks row.old.items) first count b }
    ensures len { vec_len row.new ≡ vec_len row.old }
{
    let page = page_of(first) as usize;
    if page < row.len() {
        row[page].clear(alloc, position_of(first), count);
    }
}

/// Puts zeros into each of `count` places from `first` on. Takes no memory.
pub(crate) fn clear(row: &mut Vec<Page>, alloc: Global, first: u64, count: usize)
    requires { first + count < 2 ^ 64 }
    ensures blocks { (b : ℕ) → row_blocks row.new.items b ≡ zeroed (row_blocks row.old.items) first count b }
    ensures len { vec_len row.new ≡ vec_len row.old }
{
    let mut done = 0;
    while done < count {
        let at = first + done as u64;
        let some = in_page(at, count - done);
        clear_part(row, alloc, at, some);
        done += some;
    }
}

/// Exchanges `count` pages with those of others.
pub(crate) fn exchange(
    row: &mut Vec<Page>,
    at: usize,
    others: &mut Vec<Page>,
    from: usize,
    count: usize,
)
    requires range { at + count ≤ vec_len row.old }
    requires others { from + count ≤ vec_len others.old }
    ensures row { (p : ℕ) → row_kept row.new.items p
        ≡ (if is_within at count p then row_kept others.old.items (from + (p - at)) else row_kept row.old.items p) }
    ensures others { (p : ℕ) → row_kept others.new.items p
        ≡ (if is_within from count p then row_kept row.old.items (at + (p - from)) else row_kept others.old.items p) }
    ensures len { vec_len row.new ≡ vec_len row.old }
    ensures others_len { vec_len others.new ≡ vec_len others.old }
{
    for i in 0..count {
        mem::swap(&mut row[at + i], &mut others[from + i]);
    }
}
