//! The machine that derives a script from its tokens by the rows of the grammar, or stops at a token.
//!
//! - `derive` answers the steps of the derivation, a list of `Event`, or the first `Refusal` with its place: no script
//!   goes on with that token, what begins there is left out, or rows are nested too deep.
//!
//! Begin with `specs/Machine.antt`, the machine step by step; `specs/Lookahead.antt` says what it asks of the tokens
//! that follow, `specs/Left.antt` what is left out of the language and how that is noticed. The laws (`laws.rt`) say
//! that a run has one end, and that what is accepted is derived by the grammar from all tokens, with semicolons that
//! count as there and newlines only where ECMA-262 has them.
#![tactic(auto)]

mod derivation;
mod events;
mod kinds;
mod laws;
mod left;
mod lookahead;
mod machine;
mod stops;

pub use derivation::derive;
pub use events::Event;
pub use laws::{accepted_is_derived, runs_have_one_end};
pub use stops::{Left, Refusal, Stop};

#[cfg(test)]
mod cases;
#[cfg(test)]
mod row_numbers;
#[cfg(test)]
mod tests;
