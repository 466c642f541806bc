ghost use Rattle.std.specs.Prelude.{◌≡◌, ◌||◌, ◌++◌, ◌∷◌, List, not, IfOk, OnOk, []};
ghost use Rattle.std.specs.List.{list_any};
ghost use Rattle.scope_facts.specs.Names.{once, same};
ghost use Rattle.scope_facts.specs.declared.names.Declared.{Declared};

use crate::names::Declared;
use bast_base::Memory;
use std::alloc::Global;
use std::collections::HashSet;

/// Adds a name, and says whether it is new.
fn insert_name(seen: &mut HashSet<Declared>, name: Declared) -> Result<bool, Memory>
    ensures is_new { IfOk result (λ b. b ≡ not (list_any (same name) seen.old.keys)) }
    ensures names { OnOk result ((a : Declared) → list_any (same a) seen.new.keys ≡ (same a name || list_any (same a) seen.old.keys)) }
{
    Ok(seen.insert(name)?)
}

/// Adds a name behind the others unless it repeats one of them, where the set has the same names.
fn put_name(
    seen: &mut HashSet<Declared>,
    names: &mut Vec<Declared>,
    name: Declared,
) -> Result<(), Memory>
    requires { (a : Declared) → list_any (same a) seen.old.keys ≡ list_any (same a) names.old.items }
    ensures seen { OnOk result ((a : Declared) → list_any (same a) seen.new.keys ≡ list_any (same a) names.new.items) }
    ensures names { OnOk result ((others : List Declared) → names.new.items ++ once names.new.items others ≡ names.old.items ++ once names.old.items (name ∷ others)) }
{
    if !insert_name(seen, name)? {
        return Ok(());
    }
    names.push(name)?;
    Ok(())
}

/// The names without those that repeat an earlier one, in time linear in their number.
pub(crate) fn without_repeats(alloc: Global, names: &[Declared]) -> Result<Vec<Declared>, Memory>
    ensures { IfOk result (λ r. r.items ≡ once [] names.now) }
{
    let mut seen = HashSet::new(alloc);
    let mut out = Vec::new(alloc);
    for name in names {
        put_name(&mut seen, &mut out, *name)?;
    }
    Ok(out)
}
