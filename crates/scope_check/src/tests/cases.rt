// Whether a tree that is told by words has the violation that is wanted of it.
use crate::first_untrue;
use bast_base::{Items, NameId};
use bast_schema::values_left;
use scope_facts::{Ctx, FactName, Rule, ScopeFacts, Violation, annotate};
use std::alloc::Global;
use string_table::StringTable;
use tree_words::{Scopes, tree_of};

/// The rule of a word.
fn rule_of(word: &str) -> Option<Rule> {
    match word {
        "A1" => Some(Rule::A1),
        "A2" => Some(Rule::A2),
        "A3" => Some(Rule::A3),
        "A4" => Some(Rule::A4),
        "A5" => Some(Rule::A5),
        _ => None,
    }
}

/// The violation that words tell: a rule, the number of a node, and a name where there is one.
fn violation_of(table: &StringTable, wanted: &str) -> Option<Violation> {
    let mut words = wanted.split(' ');
    let rule = rule_of(words.next()?)?;
    let node = words.next()?.parse::<u32>().ok()?;
    let name = match words.next() {
        Some(word) => Some(table.find(word)?),
        None => None,
    };
    Some(Violation { node, rule, name })
}

/// A context of scopes, outermost first, each with one entry of a name: whether it is captured, and whether the scope
/// tells a direct eval.
fn context_of(alloc: Global, name: NameId, scopes: &[(bool, bool)]) -> Option<Ctx> {
    let mut facts = Vec::new(alloc);
    for (captured, direct_eval) in scopes {
        let fact = FactName {
            name,
            captured: *captured,
        };
        let names = Items::of(vec![in alloc; fact].ok()?);
        facts
            .push(ScopeFacts {
                names,
                direct_eval: *direct_eval,
            })
            .ok()?;
    }
    let mut ctx = Ctx::script(alloc);
    ctx.function = true;
    ctx.scopes = Items::of(facts);
    Some(ctx)
}

/// The first violation of the tree that words tell, in a context, and the one that is wanted of it.
fn both(
    alloc: Global,
    scopes: &[(bool, bool)],
    words: &str,
    wanted: &str,
) -> Option<(Option<Violation>, Option<Violation>)> {
    let mut table = StringTable::new(alloc);
    let ctx = context_of(alloc, table.intern("a").ok()?, scopes)?;
    let tree = tree_of(alloc, &mut table, words, ' ', Scopes::Told)?;
    let _left = values_left(&tree, 10_000)?;
    let found = first_untrue(alloc, &tree, &ctx, &table).ok()?;
    if wanted == "none" {
        return Some((found, None));
    }
    Some((found, Some(violation_of(&table, wanted)?)))
}

/// Whether the tree that words tell has the violation that is wanted of it, where an entry of the name `a` stands in
/// scopes around.
pub fn is_found(alloc: Global, scopes: &[(bool, bool)], words: &str, wanted: &str) -> bool {
    match both(alloc, scopes, words, wanted) {
        Some((found, wanted)) => found == wanted,
        None => false,
    }
}

/// What is found in the tree that words tell, once its scopes are exact.
fn found_in_exact(alloc: Global, words: &str) -> Option<Option<Violation>> {
    let mut table = StringTable::new(alloc);
    let tree = tree_of(alloc, &mut table, words, ' ', Scopes::Told)?;
    let _left = values_left(&tree, 10_000)?;
    let tree = annotate(alloc, tree, &table).ok()?;
    let _still_left = values_left(&tree, 10_000)?;
    first_untrue(alloc, &tree, &Ctx::script(alloc), &table).ok()
}

/// Whether a row holds: a source, the words that tell its tree, and its first violation. With exact scopes it has none.
pub fn row_holds(alloc: Global, row: &str) -> bool {
    let mut parts = row.split('|');
    match (parts.next(), parts.next(), parts.next()) {
        (Some(_), Some(words), Some(wanted)) => {
            is_found(alloc, &[], words.trim(), wanted.trim())
                && matches!(found_in_exact(alloc, words.trim()), Some(None))
        }
        _ => false,
    }
}
