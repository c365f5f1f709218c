//! The words of a call.
ghost use Rattle.std.specs.Prelude.{◌≡◌, map, string_bytes};
ghost use Rattle.mod_command.specs.Commands.{command_of};

/// What a call asks for.
#[derive(Clone, Copy, Debug, PartialEq, Eq)]
pub enum Command {
    Graph,
}

/// The command that the words behind the program's name spell, where they spell one.
pub(crate) fn read_words(words: &[String]) -> Option<Command>
    ensures { result ≡ command_of (map string_bytes words.now) }
{
    match words {
        [word] if word.as_str() == "graph" => Some(Command::Graph),
        _ => None,
    }
}
