//! The program's one call: from words, an input, an output and notes to a status.
//!
//! - `run` answers the words of a command line: it reads the whole input, and writes either the answer or one line that
//!   refuses. Its contract is the promise of the program.
//! - `run_in_memory` is `run` over a text of bytes, for tests and for whoever has no streams.
//! - `encoded_files_are_read_back`, `files_are_answered_exactly`, `inputs_have_one_answer`: laws of what `run` answers.
//!
//! Begin with `specs/Result.antt`, which defines the answer to an input; `specs/Words.antt` has the commands,
//! `specs/Status.antt` the statuses, `specs/Lines.antt` and `specs/SourceLines.antt` the lines, and `specs/Laws.antt`
//! what the laws say.
#![tactic(auto)]

mod command;
mod files;
mod gate;
mod in_memory;
mod laws;
mod lines;
mod outcome;
mod output;
mod program;
mod source_lines;
mod sources;
mod status;

pub use gate::{Gate, Idle};
pub use in_memory::run_in_memory;
pub use laws::{encoded_files_are_read_back, files_are_answered_exactly, inputs_have_one_answer};
pub use program::run;
