// Whether a tree that is told by words gets the scopes that it has to have.
use super::budget::left_after;
use super::shown::put_scopes;
use bast_schema::{Kind, Value};
use scope_facts::{annotate, plain};
use std::alloc::Global;
use string_table::StringTable;
use tree_words::{Scopes, tree_of};

/// How many levels a tree of the tests has at most.
const LEVELS: u32 = 60;

/// The scopes of the tree that the words tell: those of the tree with exact scopes, then those of its plain tree.
fn scopes_of(alloc: Global, words: &str) -> Option<(String, String)> {
    let mut table = StringTable::new(alloc);
    let tree = tree_of(alloc, &mut table, words, ' ', Scopes::Empty)?;
    let _left = left_after(&tree, 1000)?;
    let tree = annotate(alloc, tree, &table).ok()?;
    let mut exact = String::new(alloc);
    put_scopes(&mut exact, &table, &tree, LEVELS)?;
    let _left = left_after(&tree, 2000)?;
    let tree = plain(alloc, tree).ok()?;
    let mut bare = String::new(alloc);
    put_scopes(&mut bare, &table, &tree, LEVELS)?;
    Some((exact, bare))
}

/// Whether each scope of a text is empty and has no mark.
fn is_bare(text: &str) -> bool {
    text.split('[').count() == text.split("[]").count()
        && !text.contains('!')
        && !text.contains('=')
}

/// Whether the tree that the words tell gets these scopes, and its plain tree has empty ones.
pub fn has_scopes(alloc: Global, words: &str, wanted: &str) -> bool {
    match scopes_of(alloc, words) {
        Some((exact, bare)) => exact.as_str().trim() == wanted && is_bare(bare.as_str()),
        None => false,
    }
}

/// Whether a row holds: a source, the words that tell its tree, and the scopes that it has to have.
pub fn row_holds(alloc: Global, row: &str) -> bool {
    let mut parts = row.split('|');
    match (parts.next(), parts.next(), parts.next()) {
        (Some(_), Some(words), Some(wanted)) => has_scopes(alloc, words.trim(), wanted.trim()),
        _ => false,
    }
}

/// Whether the first statement of the tree that the words tell is a function declaration, and eager in its plain tree.
pub fn is_eager(alloc: Global, words: &str) -> bool {
    match first_kind(alloc, words) {
        Some(kind) => kind == Kind::EagerFunctionDeclaration,
        None => false,
    }
}

/// The kind of the first statement of the plain tree of what the words tell.
fn first_kind(alloc: Global, words: &str) -> Option<Kind> {
    let mut table = StringTable::new(alloc);
    let tree = tree_of(alloc, &mut table, words, ' ', Scopes::Empty)?;
    let _left = left_after(&tree, 1000)?;
    let tree = plain(alloc, tree).ok()?;
    match tree.fields() {
        [_, _, Value::List(statements)] => match statements.as_slice() {
            [Value::Node(first), ..] => Some(first.kind()),
            _ => None,
        },
        _ => None,
    }
}
