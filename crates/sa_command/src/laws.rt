//! What holds of the command language. No function here does anything.
ghost use Rattle.sa_command.specs.Ranges.{CommandsAreInRange};

/// The numbers of a command are in their ranges.
pub fn commands_are_in_range()
    ensures { CommandsAreInRange }
{}
