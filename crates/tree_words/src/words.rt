use bast_base::NameId;
use bast_schema::{
    EnumId, FieldType, Kind, Node, Union, Value, Values, choice_of, fields_of, kind_named,
};
use std::alloc::Global;
use string_table::StringTable;

/// How many levels a tree has at most.
const LEVELS: u32 = 60;

/// Whether the words tell scopes.
#[derive(Clone, Copy)]
pub enum Scopes {
    /// As every other node.
    Told,
    /// They have no words, and are empty in the tree.
    Empty,
}

/// The tree that the words of a text tell, which stand between two marks each.
pub fn tree_of(
    alloc: Global,
    table: &mut StringTable,
    text: &str,
    mark: char,
    scopes: Scopes,
) -> Option<Node> {
    let mut words = Vec::new(alloc);
    for word in text.split(mark) {
        words.push(word).ok()?;
    }
    let (tree, end) = node_at(alloc, table, &words, 0, scopes, LEVELS)?;
    if end == words.len() { Some(tree) } else { None }
}

fn word_at<'a>(words: &[&'a str], at: usize) -> &'a str {
    match words.get(at) {
        Some(word) => *word,
        None => "",
    }
}

/// The kind of a word; scopes and what they declare have short words.
fn kind_of_word(word: &str) -> Option<Kind> {
    match word {
        "Global" => Some(Kind::AssertedScriptGlobalScope),
        "Var" => Some(Kind::AssertedVarScope),
        "BlockScope" => Some(Kind::AssertedBlockScope),
        "Parameters" => Some(Kind::AssertedParameterScope),
        "Names" => Some(Kind::AssertedBoundNamesScope),
        "Declared" => Some(Kind::AssertedDeclaredName),
        "Place" => Some(Kind::AssertedPositionalParameterName),
        "Rest" => Some(Kind::AssertedRestParameterName),
        "Bound" => Some(Kind::AssertedBoundName),
        _ => kind_named(word),
    }
}

/// The choice of a word; the kinds of names have short words.
fn choice_of_word(set: EnumId, word: &str) -> Option<u8> {
    match choice_of(set, word) {
        Some(choice) => Some(choice),
        None => match word {
            "let" => choice_of(set, "non-const lexical"),
            "const" => choice_of(set, "const lexical"),
            _ => None,
        },
    }
}

/// The text of a word: itself, but for texts that are no word.
fn text_of_word(word: &str) -> &str {
    match word {
        "USE" => "use strict",
        "LF" => "\n",
        "EMPTY" => "",
        _ => word,
    }
}

/// The name of a text, which is added to the table. `NOTHING` is a name after the last entry.
fn name_of(table: &mut StringTable, word: &str) -> Option<Value> {
    if table.len() > 1000 {
        return None;
    }
    if word == "NOTHING" {
        return Some(Value::Name(NameId(1_000_000)));
    }
    Some(Value::Name(table.intern(text_of_word(word)).ok()?))
}

/// A scope that has no entry and no flag set.
fn empty_scope(alloc: Global, kind: Kind) -> Option<Node> {
    let entries = Value::List(Values::of(Vec::new(alloc)));
    let fields = match kind {
        Kind::AssertedParameterScope => {
            vec![in alloc; entries, Value::Bool(false), Value::Bool(false)].ok()?
        }
        _ => vec![in alloc; entries, Value::Bool(false)].ok()?,
    };
    Node::new(kind, fields).ok()
}

/// The node that the words tell from a place on, and the place after it.
#[cycle(build)]
fn node_at(
    alloc: Global,
    table: &mut StringTable,
    words: &[&str],
    at: usize,
    scopes: Scopes,
    levels: u32,
) -> Option<(Node, usize)> {
    if levels == 0 {
        return None;
    }
    let kind = kind_of_word(word_at(words, at))?;
    let mut fields = Vec::new(alloc);
    let mut next = at.saturating_add(1);
    for wanted in fields_of(kind) {
        let (value, after) = value_at(alloc, table, words, next, *wanted, scopes, levels - 1)?;
        fields.push(value).ok()?;
        next = after;
    }
    Some((Node::new(kind, fields).ok()?, next))
}

/// The value of a field that the words tell from a place on, and the place after it.
#[cycle(build)]
fn value_at(
    alloc: Global,
    table: &mut StringTable,
    words: &[&str],
    at: usize,
    wanted: FieldType,
    scopes: Scopes,
    levels: u32,
) -> Option<(Value, usize)> {
    let word = word_at(words, at);
    let after = at.saturating_add(1);
    match wanted {
        FieldType::List { .. } => {
            let count = word.parse::<u32>().ok()?;
            items_at(alloc, table, words, after, count, scopes, levels)
        }
        FieldType::Bool => Some((Value::Bool(word == "true"), after)),
        FieldType::Index => Some((Value::Index(word.parse::<u32>().ok()?), after)),
        FieldType::Whole => Some((Value::Whole(word.parse::<u64>().ok()?), after)),
        FieldType::Text | FieldType::Name => Some((name_of(table, word)?, after)),
        FieldType::Choice(set) => Some((Value::Choice(choice_of_word(set, word)?), after)),
        FieldType::Label => {
            if word == "-" {
                Some((Value::NoName, after))
            } else {
                Some((name_of(table, word)?, after))
            }
        }
        FieldType::Node(Union::One(kind)) => match (scopes, kind) {
            (
                Scopes::Empty,
                Kind::AssertedScriptGlobalScope
                | Kind::AssertedVarScope
                | Kind::AssertedBlockScope
                | Kind::AssertedParameterScope
                | Kind::AssertedBoundNamesScope,
            ) => Some((Value::Node(empty_scope(alloc, kind)?), at)),
            _ => child_at(alloc, table, words, at, scopes, levels),
        },
        _ => child_at(alloc, table, words, at, scopes, levels),
    }
}

/// The node or the absent value that the words tell from a place on, and the place after it.
#[cycle(build)]
fn child_at(
    alloc: Global,
    table: &mut StringTable,
    words: &[&str],
    at: usize,
    scopes: Scopes,
    levels: u32,
) -> Option<(Value, usize)> {
    let word = word_at(words, at);
    if word == "-" {
        return Some((Value::Absent, at.saturating_add(1)));
    }
    if word == "#" {
        return Some((Value::Window { from: 0, to: 1 }, at.saturating_add(1)));
    }
    let (node, after) = node_at(alloc, table, words, at, scopes, levels)?;
    Some((Value::Node(node), after))
}

/// The list that the words tell from a place on, and the place after it.
#[cycle(build)]
fn items_at(
    alloc: Global,
    table: &mut StringTable,
    words: &[&str],
    at: usize,
    count: u32,
    scopes: Scopes,
    levels: u32,
) -> Option<(Value, usize)> {
    let mut items = Vec::new(alloc);
    let mut next = at;
    for _ in 0..count {
        let (item, after) = child_at(alloc, table, words, next, scopes, levels)?;
        items.push(item).ok()?;
        next = after;
    }
    Some((Value::List(Values::of(items)), next))
}
