ghost use Rattle.std.specs.Prelude.{◌≡◌, ◌≤◌, ◌<◌, ◌+◌, ◌-◌, ◌^◌, length, Some, None, IfOk};
ghost use Rattle.bast_schema.specs.Kinds.{kind_of_name};
ghost use Rattle.container.specs.Answers.{Answers, fault};
ghost use Rattle.container.specs.Clauses.{Changes, Passes, whole_table};
ghost use Rattle.container.specs.Entries.{entry_at, more_kinds, more_texts, new_entry};
ghost use Rattle.container.specs.Parts.{done_at};
ghost use Rattle.string_table.specs.Entries.{place_in};

use crate::parts::read_counted;
use crate::writing::ABSENT;
use bast_base::{FormatFault, Halt, Steps, Tape, Why};
use bast_schema::{Added, Kind, KindTable, kind_named};
use simdutf8::compat::from_utf8;
use std::alloc::Global;
use string_table::{AddedName, Entry, StringTable};
use var_numbers::read_varnum;

// The kinds that are all of a section's content.
pub(crate) fn read_kinds<L>(
    alloc: Global,
    tape: &Tape<L>,
    from: u32,
    to: u32,
    steps: &mut Steps<L>,
) -> Result<KindTable, Halt>
    requires order { from ≤ to }
    requires within { to ≤ length tape.now }
    ensures exact { Answers result (whole_table more_kinds tape.now to from) }
    ensures most { steps.new ≤ steps.old + (to - from) }
{
    let (count, start) = read_varnum(tape, from, to, steps)?;
    let mut kinds = KindTable::new(alloc);
    let mut place = start;
    'entries: for _ in 0..count {
        place = read_kind(alloc, tape, &mut kinds, place, to, steps)?;
    }
    check_end(place, to)?;
    Ok(kinds)
}

// Adds the kind that is named at a place, and gives the place behind it.
fn read_kind<L>(
    alloc: Global,
    tape: &Tape<L>,
    kinds: &mut KindTable,
    at: u32,
    end: u32,
    steps: &mut Steps<L>,
) -> Result<u32, Halt>
    requires order { at ≤ end }
    requires within { end ≤ length tape.now }
    ensures exact { Passes kinds.new result (entry_at more_kinds tape.now end kinds.old at) }
    ensures ahead { IfOk result (λ next. (at < next) × (next ≤ end)) }
    ensures cost { IfOk result (λ next. steps.new ≤ steps.old + (next - at)) }
    ensures most { steps.new ≤ steps.old + (end - at) }
{
    let (from, to) = read_counted(tape, at, end, steps)?;
    let name = tape.copy(alloc, from, to, steps)?;
    add_kind(kinds, name.as_slice(), from)?;
    Ok(to)
}

// Adds the kind of a name that lies at a place.
fn add_kind(kinds: &mut KindTable, name: &[u8], at: u32) -> Result<(), Halt>
    ensures { Changes kinds.new result (more_kinds kinds.old name.now at) }
{
    let Some(kind) = kind_of(name) else {
        return Err(Halt::Format(FormatFault {
            at,
            why: Why::UnknownKind,
        }));
    };
    match kinds.add(kind)? {
        Added::New(_) => Ok(()),
        Added::There(first) => Err(Halt::Format(repeated(at, first))),
    }
}

// The kind that has a name, where one does.
fn kind_of(name: &[u8]) -> Option<Kind>
    ensures { result ≡ kind_of_name name.now }
{
    match from_utf8(name) {
        Ok(name) => kind_named(name),
        Err(_) => None,
    }
}

// The texts that are all of a section's content.
pub(crate) fn read_texts<L>(
    alloc: Global,
    tape: &Tape<L>,
    from: u32,
    to: u32,
    steps: &mut Steps<L>,
) -> Result<StringTable, Halt>
    requires order { from ≤ to }
    requires within { to ≤ length tape.now }
    ensures exact { Answers result (whole_table more_texts tape.now to from) }
    ensures most { steps.new ≤ steps.old + (to - from) }
{
    let (count, start) = read_varnum(tape, from, to, steps)?;
    let mut strings = StringTable::new(alloc);
    let mut place = start;
    'entries: for _ in 0..count {
        place = read_text(alloc, tape, &mut strings, place, to, steps)?;
    }
    check_end(place, to)?;
    Ok(strings)
}

// Adds the entry at a place, and gives the place behind it.
fn read_text<L>(
    alloc: Global,
    tape: &Tape<L>,
    strings: &mut StringTable,
    at: u32,
    end: u32,
    steps: &mut Steps<L>,
) -> Result<u32, Halt>
    requires order { at ≤ end }
    requires within { end ≤ length tape.now }
    // Each entry before it took a byte, behind the count's.
    requires few { length strings.old < at }
    ensures exact { Passes strings.new result (entry_at more_texts tape.now end strings.old at) }
    ensures ahead { IfOk result (λ next. (at < next) × (next ≤ end)) }
    ensures few { IfOk result (λ next. length strings.new < next) }
    ensures cost { IfOk result (λ next. steps.new ≤ steps.old + (next - at)) }
    ensures most { steps.new ≤ steps.old + (end - at) }
{
    let (from, to) = read_counted(tape, at, end, steps)?;
    let bytes = tape.copy(alloc, from, to, steps)?;
    add_entry(strings, bytes.as_slice(), from)?;
    Ok(to)
}

// Adds the entry whose bytes lie at a place.
fn add_entry(strings: &mut StringTable, bytes: &[u8], at: u32) -> Result<(), Halt>
    requires room { length strings.old < 2 ^ 32 - 1 }
    requires fits { at + length bytes.now < 2 ^ 32 }
    ensures { Changes strings.new result (more_texts strings.old bytes.now at) }
{
    match from_utf8(bytes) {
        Ok(text) => add_text(strings, text, at),
        Err(_) if bytes == ABSENT.as_slice() => add_absent(strings, at),
        Err(error) => Err(Halt::Format(FormatFault {
            at: at + error.valid_up_to() as u32,
            why: Why::NotUtf8,
        })),
    }
}

// Adds a text that lies at a place.
fn add_text(strings: &mut StringTable, text: &str, at: u32) -> Result<(), Halt>
    requires { length strings.old < 2 ^ 32 - 1 }
    ensures { Changes strings.new result (new_entry strings.old (Some text.now) at (place_in strings.old (Some text.now))) }
{
    if let Some(first) = strings.find(text) {
        return Err(Halt::Format(repeated(at, first.0)));
    }
    strings.intern(text)?;
    Ok(())
}

// Adds the absent string, which lies at a place.
fn add_absent(strings: &mut StringTable, at: u32) -> Result<(), Halt>
    requires { length strings.old < 2 ^ 32 - 1 }
    ensures { Changes strings.new result (new_entry strings.old None at (place_in strings.old None)) }
{
    match strings.add(Entry::Absent)? {
        AddedName::New(_) => Ok(()),
        AddedName::There(first) => Err(Halt::Format(repeated(at, first.0))),
    }
}

// The fault that an entry stands a second time.
fn repeated(at: u32, first: u32) -> FormatFault
    ensures { result ≡ fault at (Why.Repeated first) }
{
    FormatFault {
        at,
        why: Why::Repeated { first },
    }
}

// The fault that bytes are left before the end.
pub(crate) fn check_end(place: u32, end: u32) -> Result<(), FormatFault>
    ensures { result ≡ done_at end place }
{
    if place < end {
        return Err(FormatFault {
            at: place,
            why: Why::Trailing,
        });
    }
    Ok(())
}
