ghost use Rattle.std.specs.Prelude.{◌≡◌, ◌≢◌, ◌≤◌, ◌<◌, ◌+◌, ◌^◌, length, true, slice_get, slice_range, Ok, Err, IfOk};
ghost use Rattle.std.specs.Int.{from_be_bytes, w64};
ghost use Rattle.tree_decoder.specs.Found.{Gives, SpendsLeaf, SpendsNumber};
ghost use Rattle.tree_decoder.specs.Numbers.{number_from, judged, kind_at, count_at, flag_at, whole_at, name_of, label_of, choice_at, window_of, numbered, leaf_at, is_leaf};
ghost use Rattle.tree_decoder.specs.Range.{range_of, IsSound};

use crate::cursor::Input;
use bast_base::{FormatFault, NameId, Steps, Why};
use bast_schema::{
    EnumId, FieldType, Kind, Union, Value, allows, choice_of, is_counted, is_lazy, number_of,
};
use var_numbers::{read_varnum, whole_of};

// The depth that no node passes.
const DEPTH_LIMIT: u32 = 512;

fn fault<T>(at: u32, why: Why) -> Result<T, FormatFault>
    ensures { result ≡ Err (record { at = at; why = why }) }
{
    Err(FormatFault { at, why })
}

// The number at a place, and the place after it.
fn number<L>(input: &Input<'_, L>, at: u32, steps: &mut Steps<L>) -> Result<(u32, u32), FormatFault>
    requires sound { IsSound (range_of input.now) }
    requires at { at ≤ input.now.end }
    ensures is { result ≡ number_from (range_of input.now) at }
    ensures moves { IfOk result (λ x. (at < x.1) × (x.1 ≤ input.now.end)) }
    ensures cost { SpendsNumber (range_of input.now) at steps.old steps.new result }
    ensures later { steps.old ≤ steps.new }
{
    read_varnum(input.tape, at, input.end, steps)
}

/// The kind of the node that begins at a place, or none where it is absent, and the place after it.
#[tactic(auto, unfolding(crate::specs::Numbers::kind_at))]
pub(crate) fn node_kind<L>(
    input: &Input<'_, L>,
    union: Union,
    optional: bool,
    depth: u32,
    inside: bool,
    at: u32,
    steps: &mut Steps<L>,
) -> Result<(Option<Kind>, u32), FormatFault>
    requires sound { IsSound (range_of input.now) }
    requires at { at ≤ input.now.end }
    ensures is { result ≡ kind_at (range_of input.now) union optional depth inside at }
    ensures cost { SpendsNumber (range_of input.now) at steps.old steps.new result }
    ensures later { steps.old ≤ steps.new }
{
    let (found, next) = number(input, at, steps)?;
    let Some(kind) = input.kinds.get(found) else {
        return fault(at, Why::BadKind);
    };
    if optional && number_of(kind) == number_of(Kind::Null) {
        return Ok((None, next));
    }
    judge(union, depth, inside, at, next, kind)
}

// Whether a node of a kind may stand at a place.
fn judge(
    union: Union,
    depth: u32,
    inside: bool,
    at: u32,
    next: u32,
    kind: Kind,
) -> Result<(Option<Kind>, u32), FormatFault>
    ensures is { result ≡ judged union depth inside at next kind }
    ensures place { IfOk result (λ x. x.1 ≡ next) }
{
    if !allows(union, kind) || inside && is_lazy(kind) {
        fault(at, Why::BadKind)
    } else if is_counted(kind) && depth > DEPTH_LIMIT {
        fault(at, Why::TooDeep)
    } else {
        Ok((Some(kind), next))
    }
}

/// The count of a list, and the place after it.
#[tactic(auto, unfolding(crate::specs::Numbers::count_at))]
pub(crate) fn item_count<L>(
    input: &Input<'_, L>,
    filled: bool,
    at: u32,
    steps: &mut Steps<L>,
) -> Result<(u32, u32), FormatFault>
    requires sound { IsSound (range_of input.now) }
    requires at { at ≤ input.now.end }
    ensures is { result ≡ count_at (range_of input.now) filled at }
    ensures cost { SpendsNumber (range_of input.now) at steps.old steps.new result }
    ensures later { steps.old ≤ steps.new }
{
    let (count, next) = number(input, at, steps)?;
    if filled && count == 0 {
        return fault(at, Why::EmptyList);
    }
    Ok((count, next))
}

/// A value with no parts, and the place after it.
pub(crate) fn leaf<L>(
    input: &Input<'_, L>,
    wanted: FieldType,
    at: u32,
    steps: &mut Steps<L>,
) -> Result<(Value, u32), FormatFault>
    requires sound { IsSound (range_of input.now) }
    requires at { at ≤ input.now.end }
    requires wanted { is_leaf wanted ≡ true }
    ensures is { Gives result (leaf_at (range_of input.now) wanted at) }
    ensures cost { SpendsLeaf (range_of input.now) at steps.old steps.new result }
    ensures later { steps.old ≤ steps.new }
{
    match wanted {
        FieldType::Bool => flag(input, at, steps),
        FieldType::Whole => whole(input, at, steps),
        _ => {
            let (number, next) = number(input, at, steps)?;
            numbered(input, wanted, at, number, next)
        }
    }
}

// A truth value.
#[tactic(auto, unfolding(crate::specs::Numbers::flag_at))]
fn flag<L>(input: &Input<'_, L>, at: u32, steps: &mut Steps<L>) -> Result<(Value, u32), FormatFault>
    requires sound { IsSound (range_of input.now) }
    requires at { at ≤ input.now.end }
    ensures is { Gives result (flag_at (range_of input.now) at) }
    ensures cost { SpendsLeaf (range_of input.now) at steps.old steps.new result }
    ensures later { steps.old ≤ steps.new }
{
    if at == input.end {
        return fault(input.end, Why::Ended);
    }
    match input.tape.byte(at, steps) {
        0 => Ok((Value::Bool(false), at + 1)),
        1 => Ok((Value::Bool(true), at + 1)),
        _ => fault(at, Why::BadBool),
    }
}

// A whole number.
fn whole<L>(
    input: &Input<'_, L>,
    at: u32,
    steps: &mut Steps<L>,
) -> Result<(Value, u32), FormatFault>
    requires sound { IsSound (range_of input.now) }
    requires at { at ≤ input.now.end }
    ensures is { Gives result (whole_at (range_of input.now) at) }
    ensures cost { SpendsLeaf (range_of input.now) at steps.old steps.new result }
    ensures later { steps.old ≤ steps.new }
{
    if input.end - at < 8 {
        return fault(input.end, Why::Ended);
    }
    match whole_of(long(input, at, steps)) {
        Some(whole) => Ok((Value::Whole(whole), at + 8)),
        None => fault(at, Why::BadWhole),
    }
}

// The number that eight bytes are, the highest byte first.
fn long<L>(input: &Input<'_, L>, at: u32, steps: &mut Steps<L>) -> u64
    requires sound { IsSound (range_of input.now) }
    requires within { at + 8 ≤ input.now.end }
    ensures is { result ≡ from_be_bytes w64 (slice_range input.now.tape.now at (at + 8)) }
    ensures cost { steps.new ≤ steps.old + 8 }
    ensures later { steps.old ≤ steps.new }
{
    let tape = input.tape;
    u64::from_be_bytes([
        tape.byte(at, steps),
        tape.byte(at + 1, steps),
        tape.byte(at + 2, steps),
        tape.byte(at + 3, steps),
        tape.byte(at + 4, steps),
        tape.byte(at + 5, steps),
        tape.byte(at + 6, steps),
        tape.byte(at + 7, steps),
    ])
}

// A value with no parts that is told by the number at a place.
fn numbered<L>(
    input: &Input<'_, L>,
    wanted: FieldType,
    at: u32,
    number: u32,
    next: u32,
) -> Result<(Value, u32), FormatFault>
    requires next { next ≤ input.now.end }
    requires wanted { is_leaf wanted ≡ true }
    requires told { (wanted ≢ FieldType.Bool) × (wanted ≢ FieldType.Whole) }
    ensures { Gives result (numbered (range_of input.now) wanted at number next) }
{
    match wanted {
        FieldType::Index => Ok((Value::Index(number), next)),
        FieldType::Label => label(input, at, number, next),
        FieldType::Choice(set) => choice(input, set, at, number, next),
        FieldType::Lazy(_) => window(input, number, next),
        _ => name(input, at, number, next),
    }
}

// The name with a number, which has to be a text's.
fn name<L>(
    input: &Input<'_, L>,
    at: u32,
    number: u32,
    next: u32,
) -> Result<(Value, u32), FormatFault>
    ensures { Gives result (name_of at number next (slice_get input.now.strings.now number)) }
{
    if number >= input.strings.len() {
        return fault(at, Why::BadString);
    }
    match input.strings.text(NameId(number)) {
        Some(_) => Ok((Value::Name(NameId(number)), next)),
        None => fault(at, Why::BadString),
    }
}

// The label with a number, or none where it is the absent string's.
fn label<L>(
    input: &Input<'_, L>,
    at: u32,
    number: u32,
    next: u32,
) -> Result<(Value, u32), FormatFault>
    ensures { Gives result (label_of at number next (slice_get input.now.strings.now number)) }
{
    if number >= input.strings.len() {
        return fault(at, Why::BadString);
    }
    match input.strings.text(NameId(number)) {
        Some(_) => Ok((Value::Name(NameId(number)), next)),
        None => Ok((Value::NoName, next)),
    }
}

// The choice whose text has a number.
fn choice<L>(
    input: &Input<'_, L>,
    set: EnumId,
    at: u32,
    number: u32,
    next: u32,
) -> Result<(Value, u32), FormatFault>
    ensures { Gives result (choice_at set at next (slice_get input.now.strings.now number)) }
{
    if number >= input.strings.len() {
        return fault(at, Why::BadString);
    }
    let Some(text) = input.strings.text(NameId(number)) else {
        return fault(at, Why::BadString);
    };
    match choice_of(set, text) {
        Some(choice) => Ok((Value::Choice(choice), next)),
        None => fault(at, Why::BadVariant),
    }
}

// The window of a length that begins at a place. None of its bytes is looked at.
fn window<L>(input: &Input<'_, L>, size: u32, from: u32) -> Result<(Value, u32), FormatFault>
    requires { from ≤ input.now.end }
    ensures { Gives result (window_of (range_of input.now) size from) }
{
    if input.end - from < size {
        return fault(input.end, Why::Ended);
    }
    let to = from + size;
    Ok((Value::Window { from, to }, to))
}
