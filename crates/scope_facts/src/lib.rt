//! The scopes of a program: which names each of them declares, which of those a function inside captures, and where a
//! direct eval may see them.
//!
//! - `annotate` takes a tree and answers it with exact scopes: the entries that each scope has to have, and its flags.
//! - `plain` answers the tree whose scopes say nothing.
//! - `Ctx`, `Shadow`, `find_cover`, `enter`, `leave`, and `with_bound`, `with_items` and the other `with_..` are for
//!   the walks of the crates above, which ask what surrounds a node and what it declares.
//!
//! Begin with `specs/Exact.antt`, what exact scopes are; `specs/Entries.antt` has what a scope declares,
//! `specs/Uses.antt` which scopes a use concerns, `specs/Roles.antt` which values of a node are scopes.
//! `docs/scopes.md` has the same in words. The laws (`laws.rt`) say what exact scopes change, and what they depend on.
#![tactic(auto)]

mod bare;
mod collecting;
mod context;
mod covers;
mod entries;
mod evals;
mod exact_scopes;
mod filling;
mod flagging;
mod flags;
mod laws;
mod names;
mod repeats;
mod roles;

pub use bare::plain;
pub use collecting::{
    with_bound, with_bound_below, with_items, with_lexicals_in, with_tops_in, with_vars_in,
};
pub use context::{Ctx, FactName, Rule, ScopeFacts, Violation};
pub use covers::{Cover, Shadow, enter, find_cover, functions_inside, leave, put_cover};
pub use entries::{are_simple, make_entries};
pub use evals::{is_eval_call, name_of_eval};
pub use exact_scopes::annotate;
pub use laws::{
    entries_are_captured_exactly, evals_are_told_by_all_scopes, exact_scopes_are_small,
    exact_scopes_change_scopes_alone, exact_scopes_depend_on_no_scopes,
    numbers_of_names_mean_nothing, scopes_declare_nothing, uses_find_captured_entries,
};
pub use names::{Declared, NameKind, bound_name, first_name_of};
pub use roles::{Form, Part, Shape, form_of, is_scope_value, part_of, scope_shape};
