//! What an action runs: an executable, or a command of a shell.
ghost use Rattle.std.specs.Prelude.{◌≡◌, option_copied};
ghost use Rattle.values.specs.Seeing.{seen};
ghost use Rattle.contexts.specs.Actions.{executable_in};
ghost use Rattle.implementations.specs.Programs.{parameter, program_in};

use plain::Text;
use state::text_of;
use values::{Key, LeafRef, Seen};

/// What an action runs.
#[derive(Clone, Copy, PartialEq, Eq, Debug)]
pub(crate) enum Program {
    /// A string, or a File by its path.
    Executable,
    /// A string.
    Command,
}

impl Program {
    /// The parameter that it is given as.
    pub(crate) fn parameter(self) -> &'static str
        ensures { result.now ≡ parameter self }
    {
        match self {
            Program::Executable => "executable",
            Program::Command => "command",
        }
    }

    /// The word that a value is, if it may be one.
    pub(crate) fn word<'a>(self, value: &Seen<'a, '_>) -> Option<&'a Text>
        ensures { option_copied result ≡ program_in self (seen value.now) }
    {
        match self {
            Program::Executable => executable(value),
            Program::Command => text_of(value),
        }
    }
}

/// A string, or the path of a File.
fn executable<'a>(value: &Seen<'a, '_>) -> Option<&'a Text>
    ensures { option_copied result ≡ executable_in (seen value.now) }
{
    match value {
        Seen::Key(Key::Text(text)) => Some(text),
        Seen::Leaf(LeafRef::File(file)) => Some(file.get().path.text()),
        _ => None,
    }
}
