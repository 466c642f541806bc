// The command that reads a source.
ghost use Rattle.std.specs.Prelude.{◌≡◌, ◌≤◌, ◌+◌, ◌<◌, ◌^◌, true, length, sum, IfOk};
ghost use Rattle.bast_schema.specs.Counts.{is_whole, size};
ghost use Rattle.bast_schema.specs.Eager.{is_eager};
ghost use Rattle.bast_schema.specs.NamesHold.{names_hold};
ghost use Rattle.bast_schema.specs.Tree.{kind_of};
ghost use Rattle.bast_schema.specs.declared.kind.Kind.TheVariants.{Script};
ghost use Rattle.binast_run.specs.Outcome.{answer_in};
ghost use Rattle.binast_run.specs.Answer.{most_bytes, refusal};
ghost use Rattle.binast_run.specs.Result.{AnswersInput};
ghost use Rattle.binast_run.specs.SourceLines.{fault_text, source_line};
ghost use Rattle.binast_run.specs.Sources.{tree_answer, AnswersSource, IsSpelled};
ghost use Rattle.binast_run.specs.declared.command.Command.TheVariants.{EncodeEager};
ghost use Rattle.js_parser.specs.Texts.{is_text};
ghost use Rattle.js_parser.specs.declared.source.SourceFault.TheVariants.{Memory as NoMemory};

use crate::lines::large_file_line;
use crate::outcome::{Outcome, refused};
use crate::source_lines::{fault_line, not_utf8_line, violation_line};
use bast_base::{Memory, Steps, Tape};
use bast_schema::Node;
use early_errors::first_early;
use js_parser::{SourceFault, parse};
use scope_facts::{Ctx, annotate};
use simdutf8::compat::from_utf8;
use std::alloc::Global;
use string_table::StringTable;
use tree_encoder::{EncodeFault, encode};

// The file of a source.
pub(crate) fn encode_eager<L>(
    alloc: Global,
    tape: &Tape<L>,
    steps: &mut [Steps<L>],
) -> Result<Outcome, Memory>
    requires { 0 < length steps.old }
    ensures answer { IfOk result (λ outcome. AnswersInput EncodeEager tape.now (answer_in outcome)) }
    ensures cost { sum steps.new ≤ sum steps.old + length tape.now }
{
    let bytes = tape.copy(alloc, 0, tape.len(), &mut steps[0])?;
    encode_bytes(alloc, &bytes)
}

// The file of these bytes, where they are the text of a script of the language.
fn encode_bytes(alloc: Global, bytes: &[u8]) -> Result<Outcome, Memory>
    requires { length bytes.now ≤ most_bytes }
    ensures { IfOk result (λ outcome. AnswersSource bytes.now (answer_in outcome)) }
{
    let text = match from_utf8(bytes) {
        Ok(text) => text,
        Err(error) => {
            let line = not_utf8_line(alloc, error.valid_up_to() as u32)?;
            return Ok(refused(line));
        }
    };
    let mut strings = StringTable::new(alloc);
    match parse(alloc, text, &mut strings) {
        Ok(tree) => encode_tree(alloc, tree, &strings),
        Err(fault) => refusal_of(alloc, fault),
    }
}

// The line that says why a text has no tree.
fn refusal_of(alloc: Global, fault: SourceFault) -> Result<Outcome, Memory>
    ensures { IfOk result (λ outcome. (fault ≡ NoMemory → ⊥) × (answer_in outcome ≡ refusal (source_line (fault_text fault)))) }
{
    match fault {
        SourceFault::Memory => Err(Memory),
        fault => Ok(refused(fault_line(alloc, fault)?)),
    }
}

// The file of a source's tree with exact scopes, where no early error stands in it.
fn encode_tree(alloc: Global, tree: Node, strings: &StringTable) -> Result<Outcome, Memory>
    requires size { size tree ≤ 2 ^ 26 }
    requires whole { is_whole tree ≡ true }
    requires eager { is_eager tree ≡ true }
    requires script { kind_of tree ≡ Script }
    requires named { names_hold (is_text strings.now) tree ≡ true }
    ensures answer { IfOk result (λ outcome. answer_in outcome ≡ tree_answer strings.now tree) }
    ensures spelled { IfOk result (λ outcome. IsSpelled strings.now tree (answer_in outcome)) }
{
    if let Some(violation) = first_early(alloc, &tree, &Ctx::script(alloc), strings)? {
        return Ok(refused(violation_line(alloc, violation, strings)?));
    }
    let exact = annotate(alloc, tree, strings)?;
    match encode(alloc, &exact, strings) {
        Ok(file) => Ok(Outcome::Output(file)),
        Err(EncodeFault::TooLarge) => Ok(refused(large_file_line(alloc)?)),
        Err(EncodeFault::Memory) => Err(Memory),
    }
}
