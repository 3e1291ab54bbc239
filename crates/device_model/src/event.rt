//! The events of a device: what may happen next.

/// One atomic step of the device, or of its guest or its operator. It is one hold of a unit's lock, of a queue's with
/// the memory's inside it, or of the memory's alone, or one put or take of the hand-off.
#[derive(Drop)]
pub enum Event {
    /// The guest writes bytes at an address.
    Poke(u64, Vec<u8>),
    /// A queue takes its next chain.
    Fetch(u16),
    /// The request that arrived on a queue comes to its unit.
    Enter(u16),
    /// The chain that is ready on a queue is answered.
    Direct(u16),
    /// A seat hands its next job off, or keeps it where the hand-off is full.
    Put(u16),
    /// A worker takes a job from the hand-off.
    Take(u16),
    /// The pages of a WRITE in a seat's hand are made ahead of its commit. It changes nothing but how long that takes.
    Prepare(u16),
    /// The job in a seat's hand is committed.
    Commit(u16),
    /// The job in a seat's hand is answered.
    Answer(u16),
    /// The task in a seat's hand leaves.
    Leave(u16),
    /// The open function marks its next unit, or looks at it.
    Mark,
    /// The open function sees that its first mark is clear.
    Check,
    /// The open function is answered.
    AnswerTmf,
    /// The operator resets the unit at an index of the inventory.
    Hard(u16),
    /// The operator gives the unit at an index of the inventory so many blocks.
    Resize(u16, u64),
    /// The oldest event that waits goes to the guest, or is missed.
    Raise,
    /// The host handed pages of a disk in, gave one up, or wrote some. Each job that waits is to be tried again.
    Wake,
    /// A seat takes the first of the jobs that are to be tried again.
    Resume(u16),
}
