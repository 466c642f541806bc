ghost use Rattle.std.specs.Prelude.{◌≡◌, ◌≤◌, ◌<◌, ◌+◌, ◌-◌, ◌++◌, ◌∷◌, [], ℕ, Bool, length, true, OnOk, IfOk, IfErr, IsTrue};
ghost use Rattle.bast_base.specs.declared.errors.Halt.{Halt};
ghost use Rattle.bast_schema.specs.Counts.{size};
ghost use Rattle.bast_schema.specs.Held.{Held};
ghost use Rattle.bast_schema.specs.Tree.{Tree, item_type};
ghost use Rattle.container.specs.Named.{named};
ghost use Rattle.tree_decoder.specs.Dues.{below, times};
ghost use Rattle.tree_decoder.specs.Found.{Reads, ReadsAll, Spends, SpendsAll, Spent};
ghost use Rattle.tree_decoder.specs.Numbers.{is_leaf};
ghost use Rattle.tree_decoder.specs.Range.{range, range_of, held, IsSound};
ghost use Rattle.tree_decoder.specs.Script.{ReadsScript, script_outcome};
ghost use Rattle.tree_decoder.specs.Spelt.{IsSpelt, IsThatTree, NoFault};

use crate::cursor::Input;
use crate::leaves::{item_count, leaf, node_kind};
use bast_base::{FormatFault, Halt, Steps, Tape, Why};
use bast_schema::{FieldType, Kind, KindTable, Node, Union, Value, Values, fields_of, is_counted};
use std::alloc::Global;
use string_table::StringTable;

// The depth of what stands under a node of a kind.
fn depth_below(kind: Kind, depth: u32) -> u32
    requires { depth < 1000 }
    ensures { result ≡ below kind depth }
{
    if is_counted(kind) { depth + 1 } else { depth }
}

// Adds a value at the end.
fn push(values: &mut Vec<Value>, value: Value) -> Result<(), Halt>
    ensures ok { OnOk result (values.new.items ≡ values.old.items ++ value ∷ []) }
    ensures err { IfErr result (λ e. e ≡ Halt.Memory) }
{
    match values.push(value) {
        Ok(()) => Ok(()),
        Err(_) => Err(Halt::Memory),
    }
}

// The value of a type that begins at a place, and the place after it.
#[cycle(read)]
fn value<L>(
    alloc: Global,
    input: &Input<'_, L>,
    wanted: FieldType,
    depth: u32,
    inside: bool,
    at: u32,
    steps: &mut Steps<L>,
) -> Result<(Value, u32), Halt>
    requires sound { IsSound (range_of input.now) }
    requires at { at ≤ input.now.end }
    requires depth { (1 ≤ depth) × (depth ≤ 513) }
    ensures reads { Reads (range_of input.now) wanted depth inside at result }
    ensures spends { Spends (range_of input.now) wanted depth inside at steps.old steps.new result }
    ensures later { steps.old ≤ steps.new }
{
    match wanted {
        FieldType::Node(union) => node(alloc, input, union, false, depth, inside, at, steps),
        FieldType::Optional(union) => node(alloc, input, union, true, depth, inside, at, steps),
        FieldType::List {
            item,
            optional,
            nonempty,
        } => list(
            alloc, input, item, optional, nonempty, depth, inside, at, steps,
        ),
        _ => single(input, wanted, at, steps),
    }
}

// A value with no parts.
fn single<L>(
    input: &Input<'_, L>,
    wanted: FieldType,
    at: u32,
    steps: &mut Steps<L>,
) -> Result<(Value, u32), Halt>
    requires sound { IsSound (range_of input.now) }
    requires at { at ≤ input.now.end }
    requires wanted { is_leaf wanted ≡ true }
    ensures reads { (depth : ℕ) (inside : Bool) → depth ≤ 513 → Reads (range_of input.now) wanted depth inside at result }
    ensures spends { (depth : ℕ) (inside : Bool) → Spends (range_of input.now) wanted depth inside at steps.old steps.new result }
    ensures later { steps.old ≤ steps.new }
{
    match leaf(input, wanted, at, steps) {
        Ok(found) => Ok(found),
        Err(fault) => Err(Halt::Format(fault)),
    }
}

// A node, or none where it is absent.
#[cycle(read)]
fn node<L>(
    alloc: Global,
    input: &Input<'_, L>,
    union: Union,
    optional: bool,
    depth: u32,
    inside: bool,
    at: u32,
    steps: &mut Steps<L>,
) -> Result<(Value, u32), Halt>
    requires sound { IsSound (range_of input.now) }
    requires at { at ≤ input.now.end }
    requires depth { (1 ≤ depth) × (depth ≤ 513) }
    ensures reads { Reads (range_of input.now) (item_type union optional) depth inside at result }
    ensures spends { Spends (range_of input.now) (item_type union optional) depth inside at steps.old steps.new result }
    ensures later { steps.old ≤ steps.new }
{
    let (kind, next) = match node_kind(input, union, optional, depth, inside, at, steps) {
        Ok(found) => found,
        Err(fault) => return Err(Halt::Format(fault)),
    };
    let Some(kind) = kind else {
        return Ok((Value::Absent, next));
    };
    let below = depth_below(kind, depth);
    let (fields, next) = fields(alloc, input, fields_of(kind), below, inside, next, steps)?;
    match Node::new(kind, fields) {
        Ok(node) => Ok((Value::Node(node), next)),
        Err(_) => unreachable!(),
    }
}

// The values of a node's fields.
#[cycle(read)]
fn fields<L>(
    alloc: Global,
    input: &Input<'_, L>,
    wanted: &[FieldType],
    depth: u32,
    inside: bool,
    at: u32,
    steps: &mut Steps<L>,
) -> Result<(Vec<Value>, u32), Halt>
    requires sound { IsSound (range_of input.now) }
    requires at { at ≤ input.now.end }
    requires depth { (1 ≤ depth) × (depth ≤ 513) }
    ensures reads { ReadsAll (range_of input.now) wanted.now depth inside at result }
    ensures spends { SpendsAll (range_of input.now) wanted.now depth inside at steps.old steps.new result }
    ensures later { steps.old ≤ steps.new }
{
    let mut values = Vec::new(alloc);
    let mut next = at;
    for one in wanted {
        let (value, after) = value(alloc, input, *one, depth, inside, next, steps)?;
        push(&mut values, value)?;
        next = after;
    }
    Ok((values, next))
}

// A list of nodes.
#[cycle(read)]
fn list<L>(
    alloc: Global,
    input: &Input<'_, L>,
    item: Union,
    holes: bool,
    filled: bool,
    depth: u32,
    inside: bool,
    at: u32,
    steps: &mut Steps<L>,
) -> Result<(Value, u32), Halt>
    requires sound { IsSound (range_of input.now) }
    requires at { at ≤ input.now.end }
    requires depth { (1 ≤ depth) × (depth ≤ 513) }
    ensures reads { Reads (range_of input.now) (FieldType.List item holes filled) depth inside at result }
    ensures spends { Spends (range_of input.now) (FieldType.List item holes filled) depth inside at steps.old steps.new result }
    ensures later { steps.old ≤ steps.new }
{
    let (count, next) = match item_count(input, filled, at, steps) {
        Ok(found) => found,
        Err(fault) => return Err(Halt::Format(fault)),
    };
    let (values, next) = items(alloc, input, item, holes, count, depth, inside, next, steps)?;
    Ok((Value::List(Values::of(values)), next))
}

// The items of a list.
#[cycle(read)]
fn items<L>(
    alloc: Global,
    input: &Input<'_, L>,
    item: Union,
    holes: bool,
    count: u32,
    depth: u32,
    inside: bool,
    at: u32,
    steps: &mut Steps<L>,
) -> Result<(Vec<Value>, u32), Halt>
    requires sound { IsSound (range_of input.now) }
    requires at { at ≤ input.now.end }
    requires depth { (1 ≤ depth) × (depth ≤ 513) }
    ensures reads { ReadsAll (range_of input.now) (times count (item_type item holes)) depth inside at result }
    ensures spends { SpendsAll (range_of input.now) (times count (item_type item holes)) depth inside at steps.old steps.new result }
    ensures later { steps.old ≤ steps.new }
{
    let mut values = Vec::new(alloc);
    let mut next = at;
    for _ in 0..count {
        let (value, after) = node(alloc, input, item, holes, depth, inside, next, steps)?;
        push(&mut values, value)?;
        next = after;
    }
    Ok((values, next))
}

/// The script that a range of bytes spells over two tables. Lazy fields are left as windows, whose bytes are not looked at.
///
/// The fault is the first: that of the first atom that does not stand where it is due, or `Trailing` at the first byte
/// that is left. Places count from the tape's start. The tree has no more values than the range has bytes, where a window is
/// one value, and each of its names is the number of a text.
pub fn read_tree<L>(
    alloc: Global,
    tape: &Tape<L>,
    kinds: &KindTable,
    strings: &StringTable,
    from: u32,
    to: u32,
    steps: &mut Steps<L>,
) -> Result<Node, Halt>
    requires order { from ≤ to }
    requires within { to ≤ length tape.now }
    ensures reads { ReadsScript (range kinds.now strings.now tape.now to) from result }
    ensures only { (h : Held) (t : Tree) → IsSpelt (range kinds.now strings.now tape.now to) from h t → NoFault result }
    ensures same { (h : Held) (t : Tree) → IsSpelt (range kinds.now strings.now tape.now to) from h t → IsThatTree (range kinds.now strings.now tape.now to) h t result }
    ensures size { IfOk result (λ t. size t ≤ to - from) }
    ensures named { IfOk result (λ t. IsTrue (named (held (range kinds.now strings.now tape.now to)) t)) }
    ensures cost { Spent (script_outcome (range kinds.now strings.now tape.now to) from).windows from to steps.old steps.new }
    ensures later { steps.old ≤ steps.new }
{
    // What is true of each tape and each table is told by its length.
    let _bytes = tape.len();
    let _kinds = kinds.len();
    let _strings = strings.len();
    let input = Input {
        tape,
        kinds,
        strings,
        end: to,
    };
    whole_script(alloc, &input, from, steps)
}

// The script that the bytes from a place on spell, all of them.
fn whole_script<L>(
    alloc: Global,
    input: &Input<'_, L>,
    at: u32,
    steps: &mut Steps<L>,
) -> Result<Node, Halt>
    requires sound { IsSound (range_of input.now) }
    requires at { at ≤ input.now.end }
    ensures reads { ReadsScript (range_of input.now) at result }
    ensures only { (h : Held) (t : Tree) → IsSpelt (range_of input.now) at h t → NoFault result }
    ensures same { (h : Held) (t : Tree) → IsSpelt (range_of input.now) at h t → IsThatTree (range_of input.now) h t result }
    ensures size { IfOk result (λ t. size t ≤ input.now.end - at) }
    ensures named { IfOk result (λ t. IsTrue (named (held (range_of input.now)) t)) }
    ensures cost { Spent (script_outcome (range_of input.now) at).windows at input.now.end steps.old steps.new }
    ensures later { steps.old ≤ steps.new }
{
    let script = FieldType::Node(Union::One(Kind::Script));
    let (found, next) = value(alloc, input, script, 1, false, at, steps)?;
    if next < input.end {
        return Err(Halt::Format(FormatFault {
            at: next,
            why: Why::Trailing,
        }));
    }
    match found {
        Value::Node(node) => Ok(node),
        _ => unreachable!(),
    }
}
