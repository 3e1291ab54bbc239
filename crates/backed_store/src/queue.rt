//! Pages in a queue.

ghost use Rattle.std.specs.Prelude.{◌≡◌, ◌≢◌, ℕ, ◌<◌, false, IsTrue, IfSome, IfNone, OnOk, OnErr};
ghost use Rattle.backed_store.specs.Queues.{stands, queue_len, front};

use foundation::NoMemory;
use std::alloc::Global;
use std::collections::VecDeque;

/// Pages that wait for something, the one that waits longest first.
#[derive(Drop)]
pub(crate) struct PageQueue {
    pub(crate) pages: VecDeque<u64>,
}

impl PageQueue {
    /// Makes a queue of no page. Takes no memory.
    pub(crate) fn new(alloc: Global) -> PageQueue
        ensures { (p : ℕ) → stands result p ≡ false }
    {
        PageQueue {
            pages: VecDeque::new(alloc),
        }
    }

    /// Returns how many entries it has.
    pub(crate) fn len(&self) -> usize
        ensures { result ≡ queue_len self.now }
    {
        self.pages.len()
    }

    /// Returns the first page; `None` where none stands in it.
    pub(crate) fn first(&self) -> Option<u64>
        ensures front { result ≡ front self.now }
        ensures none { IfNone result ((p : ℕ) → stands self.now p ≡ false) }
    {
        match self.pages.front() {
            Some(page) => Some(*page),
            None => None,
        }
    }

    /// Puts a page behind the others. `NoMemory` where memory was refused.
    pub(crate) fn push(&mut self, page: u64) -> Result<(), NoMemory>
        ensures here { OnOk result (IsTrue (stands self.new page)) }
        ensures others { (p : ℕ) → IsTrue (stands self.old p) → IsTrue (stands self.new p) }
    {
        match self.pages.push_back(page) {
            Ok(()) => Ok(()),
            Err(_) => Err(NoMemory),
        }
    }

    /// Takes the first page out.
    pub(crate) fn pop(&mut self) -> Option<u64>
        ensures front { result ≡ front self.old }
        ensures others { IfSome result (λ page. (p : ℕ) → p ≢ page → IsTrue (stands self.old p) → IsTrue (stands self.new p)) }
        ensures none { IfNone result ((p : ℕ) → stands self.old p ≡ false) }
        ensures len { IfSome result (λ page. queue_len self.new < queue_len self.old) }
    {
        self.pages.pop_front()
    }

    /// Puts the first page behind the others.
    pub(crate) fn turn(&mut self)
        ensures others { (p : ℕ) → IsTrue (stands self.old p) → IsTrue (stands self.new p) }
    {
        if !self.pages.is_empty() {
            self.pages.rotate_left(1);
        }
    }
}
