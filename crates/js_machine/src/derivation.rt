//! The derivation of a script.

ghost use Rattle.std.specs.Prelude.{◌≤◌, ◌^◌, length, IfOk, IfErr};
ghost use Rattle.std.specs.List.{All};
ghost use Rattle.js_tokens.specs.Values.{IsTokenOf};
ghost use Rattle.js_machine.specs.Machine.{Ends, Accepted, Stopped};
ghost use Rattle.js_machine.specs.Keeper.{IfStopped};

use crate::events::Event;
use crate::lookahead::look_at;
use crate::machine::Machine;
use crate::stops::Refusal;
use js_tokens::Token;
use std::alloc::Global;

/// The steps by which a script is derived from the tokens of its text, or where the machine stops.
///
/// The tokens are those that `tokens` gives for the text, of which the last is its end.
pub fn derive(alloc: Global, text: &str, tokens: &[Token]) -> Result<Vec<Event>, Refusal>
    requires size { length text.now ≤ 2 ^ 31 }
    requires each { All (IsTokenOf text.now) tokens.now }
    ensures accepted { IfOk result (λ events. Ends text.now tokens.now (Accepted events.items)) }
    ensures stopped { IfErr result (λ e. IfStopped e (λ p. Ends text.now tokens.now (Stopped p))) }
{
    let mut machine = Machine::new(alloc)?;
    for token in tokens {
        machine.take(look_at(text, token))?;
    }
    match machine.finish(text.len() as u32) {
        Ok(events) => Ok(events),
        Err(stop) => Err(Refusal::Stopped(stop)),
    }
}
