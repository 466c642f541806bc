// The scopes of a tree as text: in preorder, each with its entries and flags.
use bast_schema::{DECLARED_LEXICAL, DECLARED_VAR, Kind, Node, Value};
use scope_facts::{Shape, scope_shape};
use string_table::StringTable;

fn text_of<'a>(table: &'a StringTable, value: &Value) -> &'a str {
    match value {
        Value::Name(name) => {
            if name.0 < table.len() {
                match table.text(*name) {
                    Some(text) => text,
                    None => "(absent)",
                }
            } else {
                "(none)"
            }
        }
        _ => "(other)",
    }
}

/// An entry: its place or kind, its name, and a star where it is captured.
fn put_entry(out: &mut String, table: &StringTable, entry: &Node) -> Option<()> {
    let fields = entry.fields();
    match (entry.kind(), fields) {
        (Kind::AssertedDeclaredName, [name, Value::Choice(kind), Value::Bool(captured)]) => {
            let word = match *kind {
                DECLARED_VAR => "var ",
                DECLARED_LEXICAL => "let ",
                _ => "const ",
            };
            put_words(out, word, text_of(table, name), *captured)
        }
        (
            Kind::AssertedPositionalParameterName,
            [Value::Index(place), name, Value::Bool(captured)],
        ) => {
            let word = match *place {
                0 => "0:",
                1 => "1:",
                2 => "2:",
                _ => "more:",
            };
            put_words(out, word, text_of(table, name), *captured)
        }
        (Kind::AssertedRestParameterName, [name, Value::Bool(captured)]) => put_words(
            out,
            "...",
            text_of(table, name),
            *captured,
        ),
        (Kind::AssertedBoundName, [name, Value::Bool(captured)]) => put_words(
            out,
            "",
            text_of(table, name),
            *captured,
        ),
        _ => None,
    }
}

fn put_words(out: &mut String, word: &str, name: &str, captured: bool) -> Option<()> {
    out.push_str(word).ok()?;
    out.push_str(name).ok()?;
    if captured {
        out.push_str("*").ok()?;
    }
    Some(())
}

/// The flags and the entries of a scope.
fn put_scope(out: &mut String, table: &StringTable, word: &str, fields: &[Value]) -> Option<()> {
    out.push_str(word).ok()?;
    match fields {
        [Value::List(entries), Value::Bool(eval), flags @ ..] => {
            if *eval {
                out.push_str("!").ok()?;
            }
            if let [Value::Bool(true)] = flags {
                out.push_str("=").ok()?;
            }
            out.push_str("[").ok()?;
            let mut first = true;
            for entry in entries.as_slice() {
                if !first {
                    out.push_str(" ").ok()?;
                }
                first = false;
                match entry {
                    Value::Node(node) => put_entry(out, table, node)?,
                    _ => return None,
                }
            }
            out.push_str("] ").ok()?;
            Some(())
        }
        _ => None,
    }
}

/// The scopes of a node, in preorder.
#[cycle(show)]
pub fn put_scopes(out: &mut String, table: &StringTable, node: &Node, levels: u32) -> Option<()> {
    match scope_shape(node.kind()) {
        Shape::Nothing => put_scopes_in(out, table, node.fields(), levels),
        Shape::Statements => put_scope(out, table, "statements", node.fields()),
        Shape::Lexical => put_scope(out, table, "block", node.fields()),
        Shape::Parameters => put_scope(out, table, "parameters", node.fields()),
        Shape::BoundName => put_scope(out, table, "name", node.fields()),
    }
}

/// The scopes of values, in preorder.
#[cycle(show)]
fn put_scopes_in(
    out: &mut String,
    table: &StringTable,
    values: &[Value],
    levels: u32,
) -> Option<()> {
    if levels == 0 {
        return None;
    }
    for value in values {
        match value {
            Value::Node(node) => put_scopes(out, table, node, levels - 1)?,
            Value::List(items) => put_scopes_in(out, table, items.as_slice(), levels - 1)?,
            _ => (),
        }
    }
    Some(())
}
