ghost use Rattle.std.specs.Prelude.{◌≡◌, ◌<◌, ◌≤◌, ◌+◌, ◌^◌, List, ℕ, length, Ok, IfOk};
ghost use Rattle.container.specs.Answers.{Answers};
ghost use Rattle.container.specs.Clauses.{head_at};
ghost use Rattle.container.specs.IsContainer.{IsContainer, IsFileOf, layout_in};
ghost use Rattle.container.specs.Layout.{layout_of, outside};
ghost use Rattle.container.specs.Tables.{Tables};

use crate::parts::{read_fixed, read_section};
use crate::tables::{check_end, read_kinds, read_texts};
use crate::writing::VERSION;
use bast_base::{FormatFault, Halt, Steps, Tape, Why};
use bast_schema::KindTable;
use std::alloc::Global;
use string_table::StringTable;
use var_numbers::read_varnum;

/// The two tables of a file, and where the bytes of its tree begin and end, counted from the file's start.
#[derive(Drop)]
pub struct Layout {
    pub kinds: KindTable,
    pub strings: StringTable,
    /// The place of the tree's first byte.
    pub from: u32,
    /// The place behind the tree's last byte.
    pub to: u32,
}

/// Reads the container of a file: its two tables, and where its tree lies. The tree is not looked at.
///
/// The answer is the file's first fault where it has one: `BadMagic`, `BadVersion`, `BadSection` or `NotIdentity` where
/// its fixed bytes differ; `Overlong` or `TooBig` at a wrong number; `Ended` at the end of the input or of a section
/// where a byte is due there or a length goes past it; `UnknownKind`, `NotUtf8` or `Repeated` at an entry, which is
/// judged in this order once its bytes are there; and `Trailing` at the first byte behind the last entry of a section,
/// or behind the tree. No memory is taken by a count, only by entries.
pub fn read_layout<L>(alloc: Global, tape: &Tape<L>, steps: &mut Steps<L>) -> Result<Layout, Halt>
    ensures layout { Answers result (layout_of tape.now) }
    ensures spelled { IfOk result (IsContainer tape.now) }
    ensures only { (s : Tables) (tree : List ℕ) → IsFileOf s tree tape.now → Answers result (Ok (layout_in s tree tape.now)) }
    ensures cost { steps.new ≤ steps.old + outside tape.now }
{
    read_parts(alloc, tape, steps)
}

// The parts of a container, one after another.
fn read_parts<L>(alloc: Global, tape: &Tape<L>, steps: &mut Steps<L>) -> Result<Layout, Halt>
    ensures layout { Answers result (layout_of tape.now) }
    ensures spelled { IfOk result (IsContainer tape.now) }
    ensures cost { steps.new ≤ steps.old + outside tape.now }
    ensures small { length tape.now < 2 ^ 32 }
{
    let head = read_head(tape, steps)?;
    let (from, to) = read_section(tape, b"[GRAMMAR]", head, steps)?;
    let kinds = read_kinds(alloc, tape, from, to, steps)?;
    let (from, to) = read_section(tape, b"[STRINGS]", to, steps)?;
    let strings = read_texts(alloc, tape, from, to, steps)?;
    let (from, to) = read_section(tape, b"[TREE]", to, steps)?;
    check_end(to, tape.len())?;
    Ok(Layout {
        kinds,
        strings,
        from,
        to,
    })
}

// The place behind the first bytes of a file and its version.
fn read_head<L>(tape: &Tape<L>, steps: &mut Steps<L>) -> Result<u32, FormatFault>
    ensures exact { result ≡ head_at tape.now }
    ensures within { IfOk result (λ next. next ≤ length tape.now) }
    ensures cost { IfOk result (λ next. steps.new ≤ steps.old + next) }
    ensures most { steps.new ≤ steps.old + length tape.now }
    ensures small { length tape.now < 2 ^ 32 }
{
    let at = read_fixed(tape, b"BINJS", Why::BadMagic, 0, steps)?;
    let (found, next) = read_varnum(tape, at, tape.len(), steps)?;
    if found != VERSION {
        return Err(FormatFault {
            at,
            why: Why::BadVersion { found },
        });
    }
    Ok(next)
}
