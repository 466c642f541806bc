ghost use Rattle.std.specs.Prelude.{◌≡◌, false, []};

use bast_base::{Items, NameId};
use std::alloc::Global;

/// A rule of a tree that does not hold at a node.
#[derive(Clone, Copy, Debug, PartialEq, Eq)]
pub struct Violation {
    /// The number of the node in preorder, from 0. Absent nodes and windows have no number.
    pub node: u32,
    pub rule: Rule,
    /// The name that breaks the rule, where it is one name.
    pub name: Option<NameId>,
}

/// The early errors of ECMA-262 that are checked on trees, and the rules on what scopes say.
#[derive(Clone, Copy, Debug, PartialEq, Eq)]
pub enum Rule {
    /// Two lexical names of a list of statements, or of the head of a `for` statement, are equal (sections 13.2.1, 13.7.4.1).
    E1,
    /// A lexical name is a var name too (sections 13.2.1, 15.1.1).
    E2,
    /// A parameter name is a lexical name of the body (section 14.1.2).
    E3,
    /// Two parameters have one name where that is refused (section 14.1.2).
    E4,
    /// A function whose own directives say `use strict` has parameters that are not simple.
    E5,
    /// `eval` or `arguments` is bound or assigned to in strict code (sections 12.1.1, 12.14.1).
    E6,
    /// `delete` of a name in strict code (section 12.5.4.1).
    E7,
    /// A word that strict code reserves (section 12.1.1).
    E8,
    /// A `const` declarator without initializer (section 13.3.1.1).
    E9,
    /// A `return` outside any function (section 14.1).
    E10,
    /// A `break` or `continue` without label outside what it leaves (sections 13.8.1, 13.9.1).
    E11,
    /// A `break` or `continue` to a label that is not around it (sections 13.8.1, 13.9.1).
    E12,
    /// A label inside a statement of the same label (section 13.13.1).
    E13,
    /// The name of a catch clause is declared in its block (section 13.15.1).
    E14,
    /// A name in the head of a `for` statement is a var name of its body (section 13.7.4.1).
    E15,
    /// A target of an assignment is neither a name nor a member (sections 12.4.1, 12.14.1).
    E16,
    /// A name is no identifier, or is reserved everywhere (section 11.6.2).
    E17,
    /// The raw text of a directive or of a template can't be spelled (sections 11.8.4, 11.8.6).
    E18,
    /// The entries of a scope of declarations are not its declared names.
    A1,
    /// A use inside a function finds an entry outside it that is not captured.
    A2,
    /// A direct eval is covered by a scope that does not say so.
    A3,
    /// The entries of a scope of parameters are not its parameters.
    A4,
    /// A scope of one name has another entry than the one name that its node binds, or an entry where it binds none.
    A5,
}

/// What a check of the contents of a function has to know of the code around the function.
#[derive(Debug, Drop)]
pub struct Ctx {
    /// Whether the function's code is strict.
    pub strict: bool,
    /// Whether the function's own directives say `use strict`.
    pub own_strict: bool,
    /// Whether no two parameters may have one name, as in a method.
    pub unique: bool,
    /// Whether there is a function at all, and not a script.
    pub function: bool,
    /// The scopes that cover the contents from outside the function, outermost first.
    pub scopes: Items<ScopeFacts>,
}

/// What is known of a scope.
#[derive(Debug, Drop)]
pub struct ScopeFacts {
    /// Each name that has an entry, once, in the order of the first entries.
    pub names: Items<FactName>,
    /// Whether the scope says that a direct eval stands in what it covers.
    pub direct_eval: bool,
}

/// What is known of a name of a scope.
#[derive(Clone, Copy, Debug, PartialEq, Eq)]
pub struct FactName {
    pub name: NameId,
    /// Whether all entries of the name are captured.
    pub captured: bool,
}

impl Ctx {
    /// What is around a script: nothing. It takes no memory.
    pub fn script(alloc: Global) -> Ctx
        ensures strict { result.strict ≡ false }
        ensures own_strict { result.own_strict ≡ false }
        ensures unique { result.unique ≡ false }
        ensures function { result.function ≡ false }
        ensures scopes { result.scopes ≡ [] }
    {
        Ctx {
            strict: false,
            own_strict: false,
            unique: false,
            function: false,
            scopes: Items::of(Vec::new(alloc)),
        }
    }
}
