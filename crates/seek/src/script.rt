//! The commands of a listed script, in fixed room.

ghost use Rattle.std.specs.Prelude.{◌≡◌, ◌<◌, ◌∷◌, ◌++◌, [], length};

use nest_lang::Command;
use std::array;
use std::marker::Model;

/// The most commands of a listed script: those of six loops have an exchange, five skews and six tiles.
const MOST_COMMANDS: usize = 12;

/// The commands of a listed script, in room for twelve of them. It takes no memory.
#[derive(Debug, Drop)]
pub struct Script {
    commands: [Command; MOST_COMMANDS],
    count: usize,
}

impl Model for Script {
    ghost use Rattle.std.specs.Prelude.{◌≤◌, List, take};
    ghost use Rattle.nest_lang.specs.declared.command.Command;

    ghost Value = { List Command.Command };

    ghost view = { λ s. take s.count s.commands };

    ghost invariant = { λ s. s.count ≤ 12 };
}

impl Script {
    /// No commands.
    pub fn new() -> Script
        ensures { result ≡ [] }
    {
        Script {
            commands: array::from_fn(|_| Command::Seq(0)),
            count: 0,
        }
    }

    /// Puts a command behind the others.
    pub fn push(&mut self, command: Command)
        requires { length self.old < 12 }
        ensures { self.new ≡ self.old ++ command ∷ [] }
    {
        self.commands[self.count] = command;
        self.count += 1;
    }

    /// The commands.
    pub fn as_slice(&self) -> &[Command]
        ensures { result.now ≡ self.now }
    {
        &self.commands[..self.count]
    }
}
