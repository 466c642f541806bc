ghost use Rattle.std.specs.Prelude.{◌≡◌, IfOk, ℕ, nat_eq};
ghost use Rattle.std.specs.HashSet.{contains};
ghost use Rattle.early_errors.specs.Repeats.{repeated, first_where, is_among, shared};

use bast_base::Memory;
use std::alloc::Global;
use std::collections::HashSet;

/// The first name that is equal to one before it, in time linear in their number.
pub(crate) fn first_repeat(alloc: Global, names: &[u32]) -> Result<Option<u32>, Memory>
    ensures { IfOk result (λ r. r ≡ repeated names.now) }
{
    let mut seen: HashSet<u32> = HashSet::new(alloc);
    for name in names {
        if !seen.insert(*name)? {
            return Ok(Some(*name));
        }
    }
    Ok(None)
}

/// The set of some names.
fn set_of(alloc: Global, names: &[u32]) -> Result<HashSet<u32>, Memory>
    ensures { IfOk result (λ r. (n : ℕ) → contains nat_eq r n ≡ is_among names.now n) }
{
    let mut set: HashSet<u32> = HashSet::new(alloc);
    for name in names {
        set.insert(*name)?;
    }
    Ok(set)
}

/// The first name that is in a set.
fn first_among(names: &[u32], set: &HashSet<u32>) -> Option<u32>
    ensures { result ≡ first_where (contains nat_eq set.now) names.now }
{
    for name in names {
        if set.contains(name) {
            return Some(*name);
        }
    }
    None
}

/// The first name that is one of the others, in time linear in the number of both.
pub(crate) fn first_shared(
    alloc: Global,
    names: &[u32],
    others: &[u32],
) -> Result<Option<u32>, Memory>
    ensures { IfOk result (λ r. r ≡ shared names.now others.now) }
{
    let set = set_of(alloc, others)?;
    Ok(first_among(names, &set))
}
