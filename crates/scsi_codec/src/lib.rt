//! Reads and writes the layouts of the virtio SCSI host device: requests and responses, functions of
//! the control queue, events. No call takes memory.
//!
//! # Proved
//!
//! Layouts are the standard's: what is read is what was written, each refusal by its cause.
#![tactic(auto)]

mod control_queue;
mod event_queue;
mod laws;
mod lun;
mod queue_numbers;
mod requests;
mod responses;

pub use control_queue::{
    Control, FunctionResponse, read_control, write_control, write_notification,
};
pub use event_queue::{
    EVENT_BYTES, EVENTS_MISSED, Event, NO_EVENT, PARAM_CHANGE, TRANSPORT_RESET, write_event,
};
pub use laws::{
    event_numbers, one_address, one_control, one_event, one_reading, one_request, one_response,
    readable_forms, reading_is, refused_holds_none, written_reads_back,
};
pub use lun::{Address, read_lun, write_lun};
pub use queue_numbers::{CONTROL_QUEUE, EVENT_QUEUE, FIRST_REQUEST_QUEUE};
pub use requests::{CDB_BYTES, CodecFault, REQUEST_BYTES, Request, read_request};
pub use responses::{
    MOST_SENSE_BYTES, RESPONSE_BYTES, Response, ResponseCode, SENSE_AREA_BYTES, put_response,
    write_response,
};
