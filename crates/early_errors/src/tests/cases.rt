// Whether a tree that is told by words has the early error that is wanted of it.
use crate::first_early;
use bast_base::NameId;
use bast_schema::values_left;
use scope_facts::{Ctx, Rule, Violation};
use std::alloc::Global;
use string_table::StringTable;
use tree_words::{Scopes, tree_of};

/// The rule of a word.
fn rule_of(word: &str) -> Option<Rule> {
    match word {
        "E1" => Some(Rule::E1),
        "E2" => Some(Rule::E2),
        "E3" => Some(Rule::E3),
        "E4" => Some(Rule::E4),
        "E5" => Some(Rule::E5),
        "E6" => Some(Rule::E6),
        "E7" => Some(Rule::E7),
        "E8" => Some(Rule::E8),
        "E9" => Some(Rule::E9),
        "E10" => Some(Rule::E10),
        "E11" => Some(Rule::E11),
        "E12" => Some(Rule::E12),
        "E13" => Some(Rule::E13),
        "E14" => Some(Rule::E14),
        "E15" => Some(Rule::E15),
        "E16" => Some(Rule::E16),
        "E17" => Some(Rule::E17),
        "E18" => Some(Rule::E18),
        _ => None,
    }
}

/// The name that is wanted, by its text.
fn name_wanted(table: &StringTable, word: &str) -> Option<NameId> {
    if word == "NOTHING" {
        Some(NameId(1_000_000))
    } else {
        table.find(word)
    }
}

/// The violation that words tell: a rule, the number of a node, and a name where there is one.
fn violation_of(table: &StringTable, wanted: &str) -> Option<Violation> {
    let mut words = wanted.split(' ');
    let rule = rule_of(words.next()?)?;
    let node = words.next()?.parse::<u32>().ok()?;
    let name = match words.next() {
        Some(word) => Some(name_wanted(table, word)?),
        None => None,
    };
    Some(Violation { node, rule, name })
}

/// The first early error of the tree that words tell, in a context, and the one that is wanted of it.
fn both(
    alloc: Global,
    ctx: &Ctx,
    words: &str,
    wanted: &str,
) -> Option<(Option<Violation>, Option<Violation>)> {
    let mut table = StringTable::new(alloc);
    let tree = tree_of(alloc, &mut table, words, ' ', Scopes::Empty)?;
    let _left = values_left(&tree, 10_000)?;
    let found = first_early(alloc, &tree, ctx, &table).ok()?;
    if wanted == "none" {
        return Some((found, None));
    }
    Some((found, Some(violation_of(&table, wanted)?)))
}

/// Whether the tree that words tell has the early error that is wanted of it, in a context.
pub fn has_error(alloc: Global, ctx: &Ctx, words: &str, wanted: &str) -> bool {
    match both(alloc, ctx, words, wanted) {
        Some((found, wanted)) => found == wanted,
        None => false,
    }
}

/// Whether a row holds: a source, the words that tell its tree, and its early error.
pub fn row_holds(alloc: Global, row: &str) -> bool {
    let mut parts = row.split('|');
    match (parts.next(), parts.next(), parts.next()) {
        (Some(_), Some(words), Some(wanted)) => {
            has_error(alloc, &Ctx::script(alloc), words.trim(), wanted.trim())
        }
        _ => false,
    }
}
