//! Commands that a read-only unit refuses.

ghost use Rattle.std.specs.Prelude.{◌≡◌};
ghost use Rattle.command_model.specs.Effects.{changes_medium, changes_wide};
ghost use Rattle.block_commands.specs.Inner.Told.{protects};

use crate::facts::UnitFacts;
use cdb::{Command, WideCommand};

/// Returns true of each command of the wide profile alone that may change the medium, whatever it names (SBC-3 §4.12).
fn changes_wide(command: &WideCommand) -> bool
    ensures { result ≡ changes_wide command.now }
{
    match *command {
        WideCommand::WriteZeros { .. }
        | WideCommand::OrWrite { .. }
        | WideCommand::FormatUnit { .. } => true,
        _ => false,
    }
}

/// Returns true of each command that may change the medium, whatever it names (SBC-3 §4.12).
pub fn changes_medium(command: &Command) -> bool
    ensures { result ≡ changes_medium command.now }
{
    match *command {
        Command::Write { .. }
        | Command::WriteSame { .. }
        | Command::Unmap { .. }
        | Command::CompareAndWrite { .. } => true,
        Command::Wide(command) => changes_wide(&command),
        _ => false,
    }
}

/// Returns true if a unit refuses a command, since it is read-only.
#[inline(always)]
pub(crate) fn is_protected(facts: &UnitFacts, command: &Command) -> bool
    ensures { result ≡ protects facts.now command.now }
{
    changes_medium(command) && facts.read_only_told()
}
