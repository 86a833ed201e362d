//! A list of commands.
ghost use Rattle.std.specs.Prelude.{◌≡◌};

use std::marker::Model;
use wire_records::Command;

/// Commands in the order in which they are to be sent.
#[derive(Drop)]
pub struct CommandList {
    commands: Vec<Command>,
}

impl Model for CommandList {
    ghost use Rattle.std.specs.Prelude.{List};
    ghost use Rattle.wire_records.specs.declared.command.Command.{Command};

    ghost Value = { List Command };

    ghost view = { λ list. list.commands.items };
}

impl CommandList {
    /// Creates the list of the commands of a vector, whose memory it keeps.
    pub fn new(commands: Vec<Command>) -> CommandList
        ensures { result ≡ commands.items }
    {
        CommandList { commands }
    }

    /// Returns the commands, without copying them.
    pub fn as_slice(&self) -> &[Command]
        ensures { result.now ≡ self.now }
    {
        self.commands.as_slice()
    }

    /// Returns the vector, without allocating.
    pub fn into_vec(self) -> Vec<Command>
        ensures { result.items ≡ self }
    {
        let CommandList { commands } = self;
        commands
    }
}
