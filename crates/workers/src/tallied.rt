//! The end of a seat, with what was counted for it.

ghost use Rattle.std.specs.Prelude.{◌≡◌};
ghost use Rattle.worker_steps.specs.Tallying.{kept_by, unless_lost};

use close_audit::Kept;
use lock_scopes::Part;
use ring_core::Ticket;
use std::sync::ledger::Ledger;

/// The kept receipts and notes of a seat, with the part of the ledger that counts its receipts: as many were counted as
/// it kept, unless it lost one.
#[derive(Drop)]
pub(crate) struct Tallied<W: Ledger> {
    pub(crate) kept: Kept,
    pub(crate) part: Part<W>,
    // The first request whose chain its queue didn't know when it was to be answered, which never happens.
    pub(crate) lost: Option<Ticket>,
    pub ghost even: { unless_lost lost part.share.amount ≡ unless_lost lost (kept_by kept) },
}

/// A part in which nothing was counted yet.
#[derive(Drop)]
pub(crate) struct BlankPart<W: Ledger> {
    pub(crate) part: Part<W>,
    pub ghost blank: { part.share.amount ≡ 0 },
}
