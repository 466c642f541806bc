ghost use Rattle.std.specs.Prelude.{◌≡◌, ◌≤◌, ◌+◌, ◌<◌, Some, length, sum, string_bytes, IfOk};
ghost use Rattle.binast_run.specs.Outcome.{answer_in};
ghost use Rattle.binast_run.specs.Answer.{output, refusal};
ghost use Rattle.binast_run.specs.Result.{looked_by, AnswersInput};

use crate::command::Command;
use crate::files::{check, decode};
use crate::sources::encode_eager;
use bast_base::{Memory, Steps, Tape};
use std::alloc::Global;

// How many bytes an input and an encoded file may have.
pub(crate) const MOST_BYTES: u32 = 8_388_608;

// What a command makes of its input: the output, or the line that refuses it.
#[derive(Drop)]
pub(crate) enum Outcome {
    Output(Vec<u8>),
    Refusal(Vec<u8>),
}

// What a command makes of the input on a tape.
pub(crate) fn outcome_of<L>(
    alloc: Global,
    command: Command,
    tape: &Tape<L>,
    steps: &mut [Steps<L>],
) -> Result<Outcome, Memory>
    requires { 0 < length steps.old }
    ensures answer { IfOk result (λ outcome. AnswersInput command tape.now (answer_in outcome)) }
    ensures cost { sum steps.new ≤ sum steps.old + looked_by (Some command) tape.now }
{
    match command {
        Command::EncodeEager => encode_eager(alloc, tape, steps),
        Command::Decode => decode(alloc, tape, steps),
        Command::Check => check(alloc, tape, steps),
    }
}

// What refuses an input.
pub(crate) fn refused(line: String) -> Outcome
    ensures { answer_in result ≡ refusal (string_bytes line) }
{
    Outcome::Refusal(line.into_bytes())
}

// What answers an input.
pub(crate) fn answered(text: String) -> Outcome
    ensures { answer_in result ≡ output (string_bytes text) }
{
    Outcome::Output(text.into_bytes())
}
