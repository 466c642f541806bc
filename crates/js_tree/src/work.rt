//! What a row has gathered of its symbols' parts.

ghost use Rattle.std.specs.Prelude.{◌≡◌};
ghost use Rattle.js_tree.specs.Steps.{no_work};

use crate::parts::{Endings, Items};
use crate::run::Run;
use bast_base::NameId;
use std::alloc::Global;

/// What was gathered so far.
#[derive(Drop)]
pub struct Work {
    /// The values since the last that was held.
    pub values: Run,
    /// Values that stand before them.
    pub held: Run,
    /// The directives of a script or a function.
    pub directives: Run,
    /// The raw text of the operand, where it is one string token.
    pub raw: Option<NameId>,
    pub endings: Endings,
    pub items: Items,
}

impl Work {
    /// Nothing yet.
    pub(crate) fn new(alloc: Global) -> Work
        ensures { result ≡ no_work }
    {
        Work {
            values: Run::new(alloc),
            held: Run::new(alloc),
            directives: Run::new(alloc),
            raw: None,
            endings: Endings::new(alloc),
            items: Items::new(alloc),
        }
    }
}
