// The commands that read a file.
ghost use Rattle.std.specs.Prelude.{◌≡◌, ◌≤◌, ◌+◌, ◌<◌, length, sum, string_bytes, IfOk};
ghost use Rattle.binast_run.specs.FileAnswers.{RefusesFile};
ghost use Rattle.binast_run.specs.Outcome.{answer_in};
ghost use Rattle.binast_run.specs.Result.{AnswersInput};
ghost use Rattle.binast_run.specs.declared.command.Command.TheVariants.{Check, Decode};

use crate::lines::{accepted_line, fault_line, not_yet_line};
use crate::outcome::{Outcome, answered, refused};
use crate::source_lines::file_violation_line;
use bast_base::{Memory, Steps, Tape};
use js_printer::list_tree;
use std::alloc::Global;
use tree_decoder::ReadRefusal;

// The listing of a file's tree.
pub(crate) fn decode<L>(
    alloc: Global,
    tape: &Tape<L>,
    steps: &mut [Steps<L>],
) -> Result<Outcome, Memory>
    requires { 0 < length steps.old }
    ensures answer { IfOk result (λ outcome. AnswersInput Decode tape.now (answer_in outcome)) }
    ensures cost { sum steps.new ≤ sum steps.old + length tape.now }
{
    match tree_decoder::decode(alloc, tape, &mut steps[0]) {
        Ok((tree, strings)) => Ok(answered(list_tree(alloc, &tree, &strings)?)),
        Err(refusal) => Ok(refused(refusal_line(alloc, refusal)?)),
    }
}

// Whether a file is accepted.
pub(crate) fn check<L>(
    alloc: Global,
    tape: &Tape<L>,
    steps: &mut [Steps<L>],
) -> Result<Outcome, Memory>
    requires { 0 < length steps.old }
    ensures answer { IfOk result (λ outcome. AnswersInput Check tape.now (answer_in outcome)) }
    ensures cost { sum steps.new ≤ sum steps.old + length tape.now }
{
    match tree_decoder::decode(alloc, tape, &mut steps[0]) {
        Ok(_) => Ok(answered(accepted_line(alloc, tape.len())?)),
        Err(refusal) => Ok(refused(refusal_line(alloc, refusal)?)),
    }
}

// The line of a file that is refused.
fn refusal_line(alloc: Global, refusal: ReadRefusal) -> Result<String, Memory>
    ensures { IfOk result (λ text. RefusesFile refusal (string_bytes text)) }
{
    match refusal {
        ReadRefusal::Memory => Err(Memory),
        ReadRefusal::Format(fault) => fault_line(alloc, fault),
        ReadRefusal::NotYet { node } => not_yet_line(alloc, node),
        ReadRefusal::Check { violation, name } => file_violation_line(alloc, violation, name),
    }
}
