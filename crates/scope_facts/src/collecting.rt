ghost use Rattle.std.specs.Prelude.{◌≡◌, IfOk, ◌++◌};
ghost use Rattle.bast_schema.specs.View.{datum, data_of};
ghost use Rattle.scope_facts.specs.Names.{bound, bound_below_at, bound_below, vars_in, lexicals_in, tops_in};

use crate::names::{
    Declared, put_bound, put_bound_below, put_items, put_lexicals_in, put_tops_in, put_vars_in,
};
use bast_base::Memory;
use bast_schema::Value;
use std::alloc::Global;

/// Names, and then those that values bind themselves.
pub fn with_bound(mut names: Vec<u32>, values: &[Value]) -> Result<Vec<u32>, Memory>
    ensures { IfOk result (λ r. r.items ≡ names.items ++ bound (data_of values.now)) }
{
    put_bound(&mut names, values)?;
    Ok(names)
}

/// Names, and then those that an item binds, itself or by its fields.
pub fn with_bound_below(mut names: Vec<u32>, item: &Value) -> Result<Vec<u32>, Memory>
    ensures { IfOk result (λ r. r.items ≡ names.items ++ bound_below_at (datum item.now)) }
{
    put_bound_below(&mut names, item)?;
    Ok(names)
}

/// Names, and then those that the items of a list bind.
pub fn with_items(mut names: Vec<u32>, items: &[Value]) -> Result<Vec<u32>, Memory>
    ensures { IfOk result (λ r. r.items ≡ names.items ++ bound_below (data_of items.now)) }
{
    put_items(&mut names, items)?;
    Ok(names)
}

/// Names, and then the var names in values.
pub fn with_vars_in(mut names: Vec<u32>, values: &[Value]) -> Result<Vec<u32>, Memory>
    ensures { IfOk result (λ r. r.items ≡ names.items ++ vars_in (data_of values.now)) }
{
    put_vars_in(&mut names, values)?;
    Ok(names)
}

/// Declared names, and then the lexical names in values.
pub fn with_lexicals_in(
    alloc: Global,
    mut declared: Vec<Declared>,
    values: &[Value],
) -> Result<Vec<Declared>, Memory>
    ensures { IfOk result (λ r. r.items ≡ declared.items ++ lexicals_in (data_of values.now)) }
{
    put_lexicals_in(alloc, &mut declared, values)?;
    Ok(declared)
}

/// Declared names, and then those that the first list among values declares, as the statements of a script or of a body.
pub fn with_tops_in(
    alloc: Global,
    mut declared: Vec<Declared>,
    values: &[Value],
) -> Result<Vec<Declared>, Memory>
    ensures { IfOk result (λ r. r.items ≡ declared.items ++ tops_in (data_of values.now)) }
{
    put_tops_in(alloc, &mut declared, values)?;
    Ok(declared)
}
