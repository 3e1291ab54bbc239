//! The events that wait until they are raised.

use scsi_codec::Event;
use std::alloc::{AllocError, Global};
use std::collections::VecDeque;
use std::marker::Model;

/// Events that are to be raised, oldest first, each about a unit of a LUN up to 16,383 or about none.
#[derive(Drop)]
pub struct WaitingEvents {
    events: VecDeque<Event>,
}

impl Model for WaitingEvents {
    ghost use Rattle.std.specs.Prelude.{List};
    ghost use Rattle.std.specs.List.{All};
    ghost use Rattle.scsi_codec.specs.declared.event_queue.Event.{Event};
    ghost use Rattle.event_queue.specs.Inner.Port.{HasAddress};

    ghost Value = { List Event };

    ghost view = { λ w. w.events.items };

    ghost invariant = { λ w. All (λ e. HasAddress e) w.events.items };
}

impl WaitingEvents {
    ghost use Rattle.std.specs.Prelude.{◌≡◌, ◌++◌, List, [], ◌∷◌, length, drop, OnOk, OnErr, IfSome, slice_get};
    ghost use Rattle.scsi_codec.specs.declared.event_queue.Event.{Event};
    ghost use Rattle.event_queue.specs.Inner.Port.{HasAddress};

    /// Makes a list of no event.
    pub fn new(alloc: Global) -> WaitingEvents
        ensures { result ≡ [] }
    {
        WaitingEvents {
            events: VecDeque::new(alloc),
        }
    }

    /// Returns how many events wait.
    pub fn len(&self) -> usize
        ensures { result ≡ length self.now }
    {
        self.events.len()
    }

    /// Returns the oldest event; `None` where none waits.
    pub fn oldest(&self) -> Option<Event>
        ensures oldest { result ≡ slice_get self.now 0 }
        ensures address { IfSome result (λ e. HasAddress e) }
    {
        match self.events.front() {
            Some(event) => Some(*event),
            None => None,
        }
    }

    /// Puts an event behind the others. Where memory is refused nothing is changed.
    pub fn push(&mut self, event: Event) -> Result<(), AllocError>
        requires { HasAddress event }
        ensures ok { OnOk result (self.new ≡ self.old ++ event ∷ []) }
        ensures err { OnErr result (self.new ≡ self.old) }
    {
        match self.events.push_back(event) {
            Ok(()) => Ok(()),
            Err(_) => Err(AllocError),
        }
    }

    /// Takes the oldest event away.
    pub fn pop(&mut self)
        ensures { self.new ≡ drop 1 self.old }
    {
        let _oldest = self.events.pop_front();
    }

    /// Takes the newest event away, as if it had never been put.
    pub fn withdraw(&mut self)
        ensures { (events : List Event) (last : Event) → self.old ≡ events ++ last ∷ [] → self.new ≡ events }
    {
        let _newest = self.events.pop_back();
    }
}
