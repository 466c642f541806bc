ghost use Rattle.std.specs.Prelude.{◌≡◌, ◌≤◌, ◌+◌, length, sum, nat_eq, is_none, IfSome};
ghost use Rattle.bast_base.specs.Causes.{Rose};
ghost use Rattle.bast_base.specs.Source.{TakesAtMost, TakesOneMore};
ghost use Rattle.binast_run.specs.Result.{looked, FitsIn, IsComplete, Notes, Outputs, OutputsFront, Refuses};
ghost use Rattle.binast_run.specs.Status.{code, line_of};
ghost use Rattle.binast_run.specs.Words.{command_in};
ghost use Rattle.binast_run.specs.declared.status.Fault.TheVariants.{BadWords, ReadFault, WriteFault, OutOfMemory, TooLarge};

use crate::command::command_of;
use crate::gate::Gate;
use crate::outcome::{MOST_BYTES, Outcome, outcome_of};
use crate::output::write_all;
use crate::status::Fault;
use bast_base::{Chars, FillError, Memory, Sink, Source, Steps, Tape};
use std::alloc::Global;

/// Does all that the program does, and answers its status.
///
/// 0: the answer is on the sink. 1: the input is refused. 2: the words are not understood, and the source is unread.
/// 3: the source failed. 4: the sink failed. 5: memory ran out. 6: the input is larger than 8,388,608 bytes.
/// For each status but 0 its line is in the notes. The gate is told nothing yet.
pub fn run<L: Send + Sync, S: Source<L>, K: Sink, N: Sink, G: Gate>(
    alloc: Global,
    words: &[Chars],
    source: &mut S,
    sink: &mut K,
    notes: &mut N,
    _gate: &G,
    steps: &mut [Steps<L>],
) -> u8
    requires { length steps.old ≡ 64 }

    // An answer is that of the words and the whole input.
    ensures done { result ≡ 0 → Outputs words.now (S.left source.old) (S.left source.new) (K.written sink.old) (K.written sink.new)
        × (notes.new ≡ notes.old) }
    ensures refused { result ≡ 1 → Refuses words.now (S.left source.old) (S.left source.new) (N.written notes.old) (N.written notes.new) (N.faults notes.old) (N.faults notes.new)
        × (K.written sink.new ≡ K.written sink.old) }

    // Words that ask for no command are told without reading.
    ensures words { nat_eq result 2 ≡ is_none (command_in words.now) }
    ensures unread { result ≡ 2 → source.new ≡ source.old }

    // Each fault has its cause.
    ensures read_fault { result ≡ 3 → Rose (S.faults source.old) (S.faults source.new)
        × TakesAtMost (S.left source.old) (S.left source.new) 8388608 }
    ensures write_fault { result ≡ 4 → OutputsFront words.now (S.left source.old) (S.left source.new) (K.written sink.old) (K.written sink.new)
        × Rose (K.faults sink.old) (K.faults sink.new) }
    ensures too_large { result ≡ 6 → TakesOneMore (S.left source.old) (S.left source.new) 8388608 }
    ensures top { result ≤ 6 }

    // Otherwise the sink is unchanged, and notes has the status's line.
    ensures sink { (result ≡ 0 → ⊥) → (result ≡ 4 → ⊥) → sink.new ≡ sink.old }
    ensures note_words { result ≡ 2 → Notes (N.written notes.old) (N.written notes.new) (N.faults notes.old) (N.faults notes.new) (line_of BadWords) }
    ensures note_read { result ≡ 3 → Notes (N.written notes.old) (N.written notes.new) (N.faults notes.old) (N.faults notes.new) (line_of ReadFault) }
    ensures note_write { result ≡ 4 → Notes (N.written notes.old) (N.written notes.new) (N.faults notes.old) (N.faults notes.new) (line_of WriteFault) }
    ensures note_memory { result ≡ 5 → Notes (N.written notes.old) (N.written notes.new) (N.faults notes.old) (N.faults notes.new) (line_of OutOfMemory) }
    ensures note_large { result ≡ 6 → Notes (N.written notes.old) (N.written notes.new) (N.faults notes.old) (N.faults notes.new) (line_of TooLarge) }

    // Where nothing fails, a command is answered, and a sink with room for each answer does not fail.
    ensures complete { IfSome (S.left source.old) (λ input. IsComplete words.now input (Rose (S.faults source.old) (S.faults source.new)) (Rose (K.faults sink.old) (K.faults sink.new)) result) }
    ensures room { IfSome (S.left source.old) (λ input. IfSome (K.spare sink.old) (λ spare. FitsIn words.now input spare → K.faults sink.new ≡ K.faults sink.old)) }

    // It looks at no more bytes than the command may.
    ensures cost { IfSome (S.left source.old) (λ input. sum steps.new ≤ sum steps.old + looked words.now input) }
{
    let Some(command) = command_of(words) else {
        return tell(notes, Fault::BadWords);
    };
    let tape = match Tape::read_from(alloc, source, MOST_BYTES) {
        Ok(tape) => tape,
        Err(FillError::Memory) => return tell(notes, Fault::OutOfMemory),
        Err(FillError::ReadFault) => return tell(notes, Fault::ReadFault),
        Err(FillError::TooLarge) => return tell(notes, Fault::TooLarge),
    };
    match outcome_of(alloc, command, &tape, steps) {
        Err(Memory) => tell(notes, Fault::OutOfMemory),
        Ok(Outcome::Refusal(line)) => {
            let _ = write_all(notes, &line);
            1
        }
        Ok(Outcome::Output(bytes)) => match write_all(sink, &bytes) {
            Ok(()) => 0,
            Err(_) => tell(notes, Fault::WriteFault),
        },
    }
}

// Writes the line of a fault to notes, and answers its status.
fn tell<N: Sink>(notes: &mut N, fault: Fault) -> u8
    ensures status { result ≡ code fault }
    ensures line { Notes (N.written notes.old) (N.written notes.new) (N.faults notes.old) (N.faults notes.new) (line_of fault) }
{
    let _ = write_all(notes, fault.line().as_bytes());
    fault.code()
}
