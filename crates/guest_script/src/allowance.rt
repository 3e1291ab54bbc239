//! The steps that the device may still take.

ghost use Rattle.std.specs.Prelude.{ℕ, ◌≡◌, ◌≤◌, ◌<◌, ◌-◌, None, Some, Err, IsOk, OnErr};
ghost use Rattle.script_syntax.specs.declared.fault.LineFault.{LineFault};

use script_syntax::LineFault;

/// The number of steps that the device may still take; `None` for any number.
#[derive(Clone, Copy)]
pub(crate) struct Allowance {
    pub(crate) left: Option<u64>,
}

impl Allowance {
    /// Takes off steps that were taken. `TooManySteps` exactly where they are more than those that are left; then
    /// nothing changes.
    pub(crate) fn spend(&mut self, steps: u64) -> Result<(), LineFault>
        ensures free { self.old.left ≡ None → IsOk result × (self.new ≡ self.old) }
        ensures spends { (left : ℕ) → self.old.left ≡ Some left → steps ≤ left →
            IsOk result × (self.new.left ≡ Some (left - steps)) }
        ensures over { (left : ℕ) → self.old.left ≡ Some left → left < steps → result ≡ Err LineFault.TooManySteps }
        ensures kept { OnErr result (self.new ≡ self.old) }
    {
        let Some(left) = self.left else {
            return Ok(());
        };
        if steps > left {
            return Err(LineFault::TooManySteps);
        }
        self.left = Some(left - steps);
        Ok(())
    }
}
