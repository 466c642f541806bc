//! The tree of a source text.

ghost use Rattle.std.specs.Prelude.{◌≡◌, ◌≤◌, ◌<◌, ◌+◌, ◌*◌, ◌^◌, Ok, Err, IfOk, IfErr};
ghost use Rattle.std.specs.Prelude.{length, true};
ghost use Rattle.bast_schema.specs.Counts.{is_whole, size};
ghost use Rattle.bast_schema.specs.Tree.{depth, kind_of};
ghost use Rattle.bast_schema.specs.declared.kind.Kind.TheVariants.{Script};
ghost use Rattle.js_parser.specs.Leaves.{Grows};
ghost use Rattle.js_parser.specs.Source.{IsRefused, IsSource, LeavesTable, fault_of};
ghost use Rattle.js_parser.specs.Texts.{is_text};
ghost use Rattle.bast_schema.specs.Eager.{is_eager};
ghost use Rattle.bast_schema.specs.NamesHold.{names_hold};
ghost use Rattle.scope_facts.specs.Bare.{bare};

use crate::leaves::leaves_of;
use bast_base::Memory;
use bast_schema::Node;
use js_machine::{Left, Refusal, Stop, derive};
use js_tokens::{TokenFault, tokens};
use js_tree::{Fault, build_tree};
use std::alloc::Global;
use string_table::StringTable;

/// Why a text has no tree. A place is a byte of the text, counted from 0, and the text's length at its end.
#[derive(Clone, Copy, Debug, PartialEq, Eq)]
pub enum SourceFault {
    /// Memory has run out.
    Memory,
    /// The text is not cut into tokens. It is never that fault's want of memory.
    Token(TokenFault),
    /// No script of the language goes on with this token.
    Syntax { at: u32 },
    /// What stands here is left out of the language.
    NotHere { at: u32, what: Left },
    /// Statements, expressions and functions stand in each other more than 1,024 deep.
    TooDeep { at: u32 },
    /// The script has a tree, which would be more than 512 deep.
    DeepTree,
}

/// The tree of a script, with its texts added at the end of the table.
pub fn parse(alloc: Global, text: &str, strings: &mut StringTable) -> Result<Node, SourceFault>
    requires size { length text.now ≤ 8388608 }
    requires room { length strings.old < 2 ^ 31 }
    ensures tree { IfOk result (λ tree. IsSource text.now strings.old strings.new (Ok tree)) }
    ensures script { IfOk result (λ tree. kind_of tree ≡ Script) }
    ensures whole { IfOk result (λ tree. is_whole tree ≡ true) }
    ensures eager { IfOk result (λ tree. is_eager tree ≡ true) }
    ensures plain { IfOk result (λ tree. bare tree ≡ tree) }
    ensures named { IfOk result (λ tree. names_hold (is_text strings.new) tree ≡ true) }
    ensures shallow { IfOk result (λ tree. depth tree ≤ 512) }
    ensures small { IfOk result (λ tree. size tree < 7 * (length text.now + 1)) }
    ensures size { IfOk result (λ tree. size tree ≤ 2 ^ 26) }
    ensures refused { IfErr result (λ e. IsRefused text.now strings.old strings.new e) }
    ensures grows { Grows strings.old strings.new }
    ensures unchanged { IfErr result (λ e. LeavesTable strings.old strings.new e) }
{
    let tokens = match tokens(alloc, text) {
        Ok(tokens) => tokens,
        Err(TokenFault::Memory) => return Err(SourceFault::Memory),
        Err(fault) => return Err(SourceFault::Token(fault)),
    };
    let events = match derive(alloc, text, &tokens) {
        Ok(events) => events,
        Err(Refusal::Memory) => return Err(SourceFault::Memory),
        Err(Refusal::Stopped(stop)) => return Err(stopped(stop)),
    };
    let leaves = match leaves_of(alloc, text, &tokens, strings) {
        Ok(leaves) => leaves,
        Err(Memory) => return Err(SourceFault::Memory),
    };
    // The tree is made of the steps and the leaves alone.
    drop(tokens);
    match build_tree(alloc, &events, leaves) {
        Ok(tree) => Ok(tree),
        Err(Fault::Memory) => Err(SourceFault::Memory),
        Err(Fault::TooDeep) => Err(SourceFault::DeepTree),
        Err(Fault::Broken) => unreachable!(),
    }
}

fn stopped(stop: Stop) -> SourceFault
    ensures { result ≡ fault_of stop }
{
    match stop {
        Stop::Syntax { at } => SourceFault::Syntax { at },
        Stop::NotHere { at, what } => SourceFault::NotHere { at, what },
        Stop::TooDeep { at } => SourceFault::TooDeep { at },
    }
}
