// A script.
ghost use Rattle.std.specs.Prelude.{◌≡◌, slice_get};
ghost use Rattle.std.specs.Option.{option_copied};

mod command;
mod fields;
mod line;
mod printing;
mod reading;
mod reply;
mod word;

pub use command::{DebugCommand, Point};
pub use printing::print_reply;
pub use reading::read_script;
pub use reply::{Reply, View};
use std::marker::Model;

/// The most lines of a script, its last one among them.
pub const MAX_LINES: u64 = 10_000;

/// The commands of a script, in order, without the `quit` that ends it.
#[derive(Drop)]
pub struct Script {
    commands: Vec<DebugCommand>,
}

impl Model for Script {
    ghost use Rattle.std.specs.Prelude.{List};
    ghost use Rattle.sa_debug.specs.declared.script.command.DebugCommand.{DebugCommand};

    ghost Value = { List DebugCommand };

    ghost view = { λ s. s.commands.items };
}

impl Script {
    /// The command of this number, from 0; `None` exactly where there are no more.
    pub fn get(&self, i: usize) -> Option<&DebugCommand>
        ensures { option_copied result ≡ slice_get self.now i }
    {
        self.commands.get(i)
    }

    /// The commands as a slice.
    pub fn commands(&self) -> &[DebugCommand]
        ensures { result.now ≡ self.now }
    {
        self.commands.as_slice()
    }
}
