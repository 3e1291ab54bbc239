//! The atomic steps of the device. Each works on what one lock lends, a queue with the memory or a unit, on the queue's
//! slot, and on the hand of the seat that takes the step. None waits, and none knows a device.
//!
//! # Proved
//!
//! A phase does on what one lock lends exactly what a transition says. Or it does nothing, by its cause: there is
//! nothing to do, a job waits for its unit's backed disk, or a test fails that never fails in one device. It never
//! blocks, and what answers a request gives its receipt or a note.
//!
//! A function or the operator asks or changes a unit only where that has the address at the index that is named.
//! Else the function fails, the operator's act answers `WrongUnit`, and that unit stays as it was.
//!
//! On a queue each is said of any memory (`phase_fetch_in` ..), and of a `GuestMem` by its one list. For all that
//! may be seen behind a completion some memory may have been found before. The transition is asked of that one, and
//! the notice is decided by what is seen (`EachSeen`).
//!
//! Where others write too, the clause ties what is left to what is seen by size alone. For such a memory alone it
//! would let a body pass that writes nothing. Each body is proved for every memory, `GuestMem` among them, and
//! there it must write.
#![tactic(auto)]

mod answering;
mod committing;
mod direct;
mod direct_chain;
mod entering;
mod fetching;
mod function;
mod hand;
mod job_in_hand;
mod marking;
mod naming;
mod note;
mod preparing;
mod raising;
mod receipt_or_note;
mod refusal;
mod resetting;
mod resizing;
mod response;
mod serving;
mod slot;
mod taking;

pub use answering::{phase_answer, phase_answer_in};
pub use committing::{phase_commit, phase_commit_or_defer, phase_leave};
pub use direct::{phase_answer_tmf, phase_answer_tmf_in, phase_direct, phase_direct_in};
pub use direct_chain::DirectChain;
pub use entering::phase_enter;
pub use fetching::{phase_fetch, phase_fetch_control, phase_fetch_control_in, phase_fetch_in};
pub use function::OpenFunction;
pub use hand::Hand;
pub use job_in_hand::JobInHand;
pub use marking::{Visited, phase_check, phase_mark, phase_visit};
pub use note::{Cause, Note};
pub use preparing::{phase_prepare, phase_start_pages};
pub use raising::{phase_fetch_event, phase_fetch_event_in, phase_raise, phase_raise_in};
pub use receipt_or_note::ReceiptOrNote;
pub use refusal::Refusal;
pub use resetting::{ResetFault, phase_hard};
pub use resizing::{ResizeFault, phase_resize};
pub use serving::{Brought, serve_request};
pub use slot::Slot;
pub use taking::{Taken, take_request};
