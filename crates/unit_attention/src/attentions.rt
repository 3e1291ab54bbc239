//! The list of pending unit attention conditions.

ghost use Rattle.std.specs.Prelude.{◌≡◌, ◌↔◌, [], IsTrue, slice_get};
ghost use Rattle.unit_attention.specs.Code.{IsKnown};
ghost use Rattle.unit_attention.specs.Pending.{IsPendingList, raised, without_first};

use crate::Code;
use arrayvec::ArrayVec;
use std::marker::Model;

/// The number of codes: each stands in the list at most once.
const CODES: usize = 4;

/// The codes of the unit attention conditions that a unit has pending, oldest first (SAM-5 §5.14).
///
/// Clauses see it as that list. No call takes memory.
#[derive(Drop)]
pub struct Attentions {
    codes: ArrayVec<Code, CODES>,
}

impl Model for Attentions {
    ghost use Rattle.std.specs.Prelude.{List};
    ghost use Rattle.unit_attention.specs.declared.code.Code.{Code};
    ghost use Rattle.unit_attention.specs.Pending.{IsPendingList};

    ghost Value = { List Code };

    ghost view = { λ a. a.codes.items };

    ghost invariant = { λ a. IsPendingList a.codes.items };
}

impl Attentions {
    /// Makes a list with none pending.
    pub fn new() -> Attentions
        ensures { result ≡ [] }
    {
        Attentions {
            codes: ArrayVec::new(),
        }
    }

    /// Establishes a condition: its code goes to the end of the list, unless it is pending already.
    /// The code is one of the four constants of [`Code`].
    pub fn raise(&mut self, code: Code)
        requires { IsKnown code }
        ensures { self.new ≡ raised self.old code }
    {
        if self.codes.as_slice().contains(&code) {
            return;
        }
        self.codes.push(code);
    }

    /// Takes the oldest code, which is pending no longer; `None` where none is pending.
    /// A command that reports a unit attention condition clears it so (SAM-5 §5.14).
    pub fn take(&mut self) -> Option<Code>
        ensures oldest { result ≡ slice_get self.old 0 }
        ensures rest { self.new ≡ without_first self.old }
    {
        self.codes.pop_at(0)
    }

    /// Returns the oldest code, which stays pending; `None` where none is pending.
    pub fn peek(&self) -> Option<Code>
        ensures oldest { result ≡ slice_get self.now 0 }
        ensures list { IsPendingList self.now }
    {
        self.codes.as_slice().first().copied()
    }

    /// Returns the codes that are pending, the oldest first.
    pub fn as_slice(&self) -> &[Code]
        ensures { result.now ≡ self.now }
    {
        self.codes.as_slice()
    }

    /// Returns true if no code is pending.
    pub fn is_empty(&self) -> bool
        ensures { IsTrue result ↔ (self.now ≡ []) }
    {
        self.codes.is_empty()
    }
}
