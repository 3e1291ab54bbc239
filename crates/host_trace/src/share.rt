//! The share of a part in a transition.

ghost use Rattle.std.specs.Prelude.{◌≡◌, MatchBool};
ghost use Rattle.shared_trace.specs.Inner.Logs.{Steps};
ghost use Rattle.shared_trace.specs.Halves.{part_of, MayCome};
ghost use Rattle.device_model.specs.After.{after};
ghost use Rattle.device_model.specs.Happens.{Happens};
ghost use Rattle.host_trace.specs.Parts.{Share as Half};
ghost use Rattle.host_trace.specs.Trace.{Agree, touches, MayShare};

use crate::device::{Device, Setup};
use shared_trace::{Book, Laws, Mark, Naming, Said};
use std::marker::{Model, PhantomData};

/// The share of one part of the device in a transition. It exists in proofs alone.
#[derive(Drop)]
pub struct Share {
    of: PhantomData<()>,
    ghost half: { Half },
}

impl Model for Share {
    ghost use Rattle.std.specs.Borrow.{ftrue};
    ghost use Rattle.host_trace.specs.Parts.{Share as Half};

    ghost Value = { Half };

    ghost view = { λ s. s.half };

    ghost also_owns = { λ _. ftrue };
}

impl<S: Setup> Laws<Share> for Device<S> {
    ghost use Rattle.shared_trace.specs.Halves.{part_of};
    ghost use Rattle.host_trace.specs.Trace.{MayShare};
    ghost use Rattle.host_trace.specs.Inner.Passing.{no_share};

    ghost parts = { S.parts };

    ghost part_of = { part_of };

    ghost may = { MayShare S.number S.world };

    ghost some = { no_share S.world };
}

/// Adds the share of a mark's part in a transition, by what the mark knows. False as of `Mark::step`.
pub fn add_share<S: Setup, J: Naming, T: Said<Share>>(
    mark: &mut Mark<Share, Device<S>, J>,
    book: &Book<Share, Device<S>, J>,
) -> bool
    requires part { T.event.part ≡ mark.old.number }
    requires may { MayCome after Happens (touches S.number) (Agree S.number) S.world mark.old.own mark.old.known T.event }
    ensures { MatchBool result (Steps part_of (MayShare S.number S.world) mark.old T.event mark.new) (mark.new ≡ mark.old) }
{
    mark.step::<T>(book)
}
