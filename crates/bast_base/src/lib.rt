//! What every layer stands on: errors, text and lists, counted reading of the input, and the ends of the program.
//!
//! - `Tape`: the whole input; `Tape::read_from` takes it from a `Source`, and its bytes are shown only against `Steps`,
//!   so that contracts can say how many of them are looked at.
//! - `Sink` and `Source`: where output goes and input comes from: the standard streams, memory that fails at the calls
//!   it is told (`MemSink`, `MemSource`), or memory that does not fail but for want of room (`SureSink`, `SureSource`).
//! - `Items` and `Chars`: a list and a text as contracts see them.
//!
//! `specs/Source.antt` and `specs/Sink.antt` say what the ends promise; `specs/Window.antt` and `specs/Steps.antt` how
//! bytes are read and counted; `specs/Causes.antt` names the faults of a file.
#![tactic(auto)]

mod chars;
mod errors;
mod inlet;
mod items;
mod memory_sink;
mod memory_source;
mod sink;
mod source;
mod standard;
mod steps;
mod sure;
mod tape;

pub use chars::Chars;
pub use errors::{Failed, FillError, FormatFault, Halt, Memory, NameId, Why};
pub use inlet::Inlet;
pub use items::Items;
pub use memory_sink::MemSink;
pub use memory_source::MemSource;
pub use sink::Sink;
pub use source::Source;
pub use standard::{StdSink, StdSource};
pub use steps::{Plain, Steps};
pub use sure::{SureSink, SureSource};
pub use tape::Tape;

#[cfg(test)]
mod tests;
