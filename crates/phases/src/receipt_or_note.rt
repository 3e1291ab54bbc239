//! The rest of a request once it is answered: the receipt of its Commit, or a note of why there is none.

use crate::note::Note;
use logical_unit::Receipt;

/// The rest of a request once it is answered.
#[derive(Drop)]
pub enum ReceiptOrNote {
    /// Its command ran whole.
    Receipt(Receipt),
    /// It was answered without that.
    Note(Note),
}
