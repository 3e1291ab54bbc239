//! The close of a host.

ghost use Rattle.std.specs.Prelude.{IfSome};
ghost use Rattle.shared_trace.specs.Events.{Each};
ghost use Rattle.shared_trace.specs.Halves.{wholes};
ghost use Rattle.host_trace.specs.Trace.{IsSettled, IsOneTrace};

use crate::device::{Device, Setup};
use crate::share::Share;
use crate::trace_laws::{a_log_of_shares_is_a_trace, transitions_keep_the_promise};
use shared_trace::{Book, Front, Mark, Naming};

/// Shows, once no thread holds a mark, one trace of the device, of which the marks of all parts are the end. `None` as of
/// `shared_trace::close`.
pub fn close<S: Setup, J: Naming>(
    book: &Book<Share, Device<S>, J>,
    front: &Front<Share, Device<S>, J>,
    marks: &[Mark<Share, Device<S>, J>],
) -> Option<Front<Share, Device<S>, J>>
    requires settled { Each (λ k m. IsSettled S.number m) marks.now }
    ensures { IfSome result (λ log. IsOneTrace S.number S.world marks.now (wholes log)) }
{
    a_log_of_shares_is_a_trace();
    transitions_keep_the_promise();
    shared_trace::close(book, front, marks)
}
