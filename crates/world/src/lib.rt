//! The device: guest memory, its virtqueues, its units and its seats, as a machine of atomic steps.
//!
//! # Proved
//!
//! `docs/PROOFS.md`, "One thread", says what of `World` and of `LiveWorld`.
#![tactic(auto)]

mod asking;
mod live_paging;
mod live_serving;
mod live_serving_asked;
mod live_views;
mod live_world;
mod notifications;
mod paging;
mod served;
mod serving_asked;
mod views;
mod world;

pub use config::{
    ACCEPTED_FEATURES, CHANGE, Config, ConfigFault, EVENT_IDX, FEATURES, INDIRECT_DESC, Identity,
    Layout, LayoutFault, Profile, RING_PACKED, StartFault, UnitSpec, VERSION_1, form,
};
pub use device_model::Event;
pub use live_world::LiveWorld;
pub use logical_unit::{Changes, StepKind, UnitState};
pub use notifications::Notifications;
pub use phases::{
    Cause, DirectChain, Hand, JobInHand, Note, OpenFunction, ReceiptOrNote, Refusal, ResetFault,
    ResizeFault, Slot, phase_answer, phase_answer_tmf, phase_check, phase_commit, phase_direct,
    phase_enter, phase_fetch, phase_fetch_control, phase_fetch_event, phase_hard, phase_leave,
    phase_mark, phase_prepare, phase_raise, phase_resize, phase_start_pages,
};
pub use ring_core::{Notify, Position, RingFault, RingIndex};
pub use served::Served;
pub use unit_attention::Code;
pub use unit_model::Counts;
pub use virtqueue::{AnyRing, Queue};
pub use world::World;
