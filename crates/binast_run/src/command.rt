ghost use Rattle.std.specs.Prelude.{◌≡◌};
ghost use Rattle.binast_run.specs.Words.{command_in};

use bast_base::Chars;

// What the words ask for.
#[derive(Clone, Copy, Debug, PartialEq, Eq)]
pub(crate) enum Command {
    EncodeEager,
    Decode,
    Check,
}

// The command that the words ask for.
pub(crate) fn command_of(words: &[Chars]) -> Option<Command>
    ensures { result ≡ command_in words.now }
{
    match words {
        [command, policy] if command.as_str() == "encode" && policy.as_str() == "eager" => {
            Some(Command::EncodeEager)
        }
        [command] if command.as_str() == "decode" => Some(Command::Decode),
        [command] if command.as_str() == "check" => Some(Command::Check),
        _ => None,
    }
}
