// The whole reading of a file.
ghost use Rattle.std.specs.Prelude.{◌≡◌, ◌≤◌, ◌+◌, ◌<◌, ◌^◌, length, IsTrue, IfOk};
ghost use Rattle.bast_schema.specs.Counts.{is_whole, size};
ghost use Rattle.bast_schema.specs.Tree.{typed};
ghost use Rattle.tree_decoder.specs.OuterReading.{outside_windows};
ghost use Rattle.tree_decoder.specs.Reading.{ReadsFile};
ghost use Rattle.bast_schema.specs.NamesHold.{names_hold};
ghost use Rattle.tree_decoder.specs.WholeReading.{is_text_of, Decodes, IsRefusalOf, Judges};

use crate::lazy_kinds::first_lazy_of;
use crate::outer::read_outer;
use bast_base::{Chars, FormatFault, Halt, Memory, Steps, Tape};
use bast_schema::Node;
use container::read_layout;
use scope_facts::{Ctx, Violation};
use std::alloc::Global;
use string_table::StringTable;
use violations::{first_violation, name_of};

/// Why a file is not read.
#[derive(Debug, Drop)]
pub enum ReadRefusal {
    /// Memory has run out.
    Memory,
    /// The file has a fault: the first one in its order, of its container or of its tree.
    Format(FormatFault),
    /// The file is well formed, and this node is its first lazy function. A node counts from 0 in preorder. Functions
    /// whose contents are a window are not read yet.
    NotYet {
        node: u32,
    },
    /// A rule does not hold of the tree: the first violation, and the text of its name where it has one.
    Check {
        violation: Violation,
        name: Option<Chars>,
    },
}

/// Reads a whole file: its tree, and the table of texts that the tree's names are places of.
///
/// A refusal is the first of these: the first fault of the container, the first fault of the tree, the first lazy
/// function, the first violation of the early errors and of the rules on what scopes say.
pub fn decode<L>(
    alloc: Global,
    tape: &Tape<L>,
    steps: &mut Steps<L>,
) -> Result<(Node, StringTable), ReadRefusal>
    ensures reads { Decodes tape.now result }
    ensures whole { IfOk result (λ x. IsTrue (is_whole x.0)) }
    ensures typed { IfOk result (λ x. IsTrue (typed x.0)) }
    ensures named { IfOk result (λ x. IsTrue (names_hold (is_text_of x.1) x.0)) }
    ensures size { IfOk result (λ x. size x.0 ≤ length tape.now) }
    ensures cost { steps.new ≤ steps.old + outside_windows tape.now }
    ensures most { steps.new ≤ steps.old + length tape.now }
{
    match read_script(alloc, tape, steps) {
        Ok((tree, strings)) => judged(alloc, tree, strings),
        Err(Halt::Memory) => Err(ReadRefusal::Memory),
        Err(Halt::Format(fault)) => Err(ReadRefusal::Format(fault)),
    }
}

// What the tree of a file comes to: its first lazy function, its first violation, or itself.
fn judged(
    alloc: Global,
    tree: Node,
    strings: StringTable,
) -> Result<(Node, StringTable), ReadRefusal>
    requires { size tree ≤ 2 ^ 30 }
    ensures { Judges strings tree result }
{
    if let Some(node) = first_lazy_of(&tree) {
        return Err(ReadRefusal::NotYet { node });
    }
    match first_violation(alloc, &tree, &Ctx::script(alloc), &strings) {
        Ok(None) => Ok((tree, strings)),
        Ok(Some(violation)) => Err(refusal_of(alloc, violation, &strings)),
        Err(Memory) => Err(ReadRefusal::Memory),
    }
}

// The refusal of a violation, or want of memory where the text of its name finds none.
fn refusal_of(alloc: Global, violation: Violation, strings: &StringTable) -> ReadRefusal
    ensures { IsRefusalOf strings.now violation result }
{
    match name_of(&violation, strings) {
        None => ReadRefusal::Check {
            violation,
            name: None,
        },
        Some(text) => match String::from_str(alloc, text) {
            Ok(copy) => ReadRefusal::Check {
                violation,
                name: Some(Chars::of(copy)),
            },
            Err(_) => ReadRefusal::Memory,
        },
    }
}

// Reads the container of a file, and then its tree.
fn read_script<L>(
    alloc: Global,
    tape: &Tape<L>,
    steps: &mut Steps<L>,
) -> Result<(Node, StringTable), Halt>
    ensures reads { ReadsFile tape.now result }
    ensures size { IfOk result (λ x. size x.0 ≤ length tape.now) }
    ensures short { length tape.now ≤ 8388608 }
    ensures cost { steps.new ≤ steps.old + outside_windows tape.now }
{
    // A tape is told to be short by its length.
    let _bytes = tape.len();
    let layout = match read_layout(alloc, tape, steps) {
        Ok(layout) => layout,
        Err(halt) => return Err(halt),
    };
    match read_outer(alloc, tape, &layout, steps) {
        Ok(tree) => Ok((tree, layout.strings)),
        Err(halt) => Err(halt),
    }
}
