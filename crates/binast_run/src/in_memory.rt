ghost use Rattle.std.specs.Prelude.{◌≡◌, ◌<◌, ◌≤◌, ◌-◌, ◌^◌, ◌⊎◌, length, is_some, IsTrue};
ghost use Rattle.binast_run.specs.Answer.{most_bytes};
ghost use Rattle.binast_run.specs.Result.{FitsIn, IsAnswered};
ghost use Rattle.binast_run.specs.Words.{command_in};

use crate::gate::Gate;
use crate::program::run;
use bast_base::{Chars, Steps, SureSink, SureSource};
use std::alloc::Global;

/// Runs the program between two buffers, which fail only where the second has no room left: so a command is answered
/// there, unless memory runs out or its input is too large.
pub fn run_in_memory<G: Gate>(
    alloc: Global,
    words: &[Chars],
    source: &mut SureSource,
    sink: &mut SureSink,
    notes: &mut SureSink,
    gate: &G,
) -> u8
    ensures read { result ≡ 3 → ⊥ }
    ensures written { sink.old.faults < 2 ^ 64 - 1 → FitsIn words.now source.old sink.old.spare → result ≡ 4 → ⊥ }
    ensures answered { sink.old.faults < 2 ^ 64 - 1 → FitsIn words.now source.old sink.old.spare → IsTrue (is_some (command_in words.now))
        → length source.old ≤ most_bytes → IsAnswered words.now source.old result }
{
    let mut steps = Steps::many();
    run(alloc, words, source, sink, notes, gate, &mut steps)
}
