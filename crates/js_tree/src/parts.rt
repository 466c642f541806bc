//! What the symbols of a derivation stand for, while its tree is built.

ghost use Rattle.std.specs.Prelude.{◌≡◌, ◌==◌, [], ◌∷◌, ◌++◌, length, option_to_list, IfNone, Ok};
ghost use Rattle.js_tree.specs.Parts.{ends_nothing, is_values, one_ending, taken_endings, taken_items, taken_leaf, taken_values, without_no_endings, without_top};
ghost use Rattle.js_tree.specs.Results.{Gives};
ghost use Rattle.js_tree.specs.Statements.{first_directive};

use crate::fault::Fault;
use crate::leaf::Leaf;
use crate::run::Run;
use bast_base::NameId;
use bast_schema::{Kind, Node};
use std::alloc::Global;
use std::marker::Model;

/// How an operand stands in the node that is put around it.
#[derive(Drop)]
pub enum Form {
    /// As it is.
    Plain,
    /// As the parameters of a function.
    Parameters,
    /// As the parameters of a function that has these statements.
    Contents(Run),
    /// As a label.
    Label,
    /// As the first name of a declaration: its initializer, and the declarators behind it.
    Declared(Run),
}

/// What is put around an operand, or in its place.
#[derive(Drop)]
pub enum Ending {
    /// A node of the kind, with values before the operand and behind it.
    Around {
        kind: Kind,
        form: Form,
        before: Run,
        behind: Run,
    },
    /// A node in place of the operand.
    Instead(Node),
}

/// An item of a list of statements.
#[derive(Drop)]
pub struct Item {
    pub statement: Node,
    /// The raw text, where the item is a statement of one string token.
    pub raw: Option<NameId>,
}

/// What one symbol stands for.
#[derive(Drop)]
pub enum Part {
    /// A token that was taken.
    Token(Leaf),
    /// A semicolon that counts as there.
    Counted,
    /// Values, and the raw text where they are an expression or a statement of one string token.
    Values { values: Run, raw: Option<NameId> },
    /// What is put around an operand, the innermost first.
    Endings(Endings),
    /// Items of a list of statements.
    Items(Items),
}

/// A list of endings, to which lists are joined in front.
#[derive(Drop)]
pub struct Endings {
    // The last one first.
    backwards: Vec<Ending>,
}

impl Model for Endings {
    ghost use Rattle.std.specs.Coded.{codes};
    ghost use Rattle.js_tree.specs.contracts.run.Run as run;
    ghost use Rattle.bast_schema.specs.contracts.node.Node as node;
    ghost use Rattle.std.specs.Prelude.{List, reverse};
    ghost use Rattle.js_tree.specs.declared.parts.Ending.{Ending};

    ghost Value = { List Ending };

    ghost coded = { Prim.hlevel (codes, run.the_row.coded, node.the_row.coded) };

    ghost view = { λ e. reverse e.backwards.items };
}

/// A list of items, to which one is added in front.
#[derive(Drop)]
pub struct Items {
    // The last one first.
    backwards: Vec<Item>,
}

impl Model for Items {
    ghost use Rattle.std.specs.Coded.{codes};
    ghost use Rattle.bast_schema.specs.contracts.node.Node as node;
    ghost use Rattle.std.specs.Prelude.{List, reverse};
    ghost use Rattle.js_tree.specs.declared.parts.Item.{Item};

    ghost Value = { List Item };

    ghost coded = { Prim.hlevel (codes, node.the_row.coded) };

    ghost view = { λ e. reverse e.backwards.items };
}

/// A stack of parts, which contracts see with its top first.
#[derive(Drop)]
pub struct Parts {
    // The top last.
    stack: Vec<Part>,
}

impl Model for Parts {
    ghost use Rattle.std.specs.Coded.{codes};
    ghost use Rattle.js_tree.specs.contracts.run.Run as run;
    ghost use Rattle.js_tree.specs.contracts.parts.Endings as endings;
    ghost use Rattle.js_tree.specs.contracts.parts.Items as items;
    ghost use Rattle.std.specs.Prelude.{List, reverse};
    ghost use Rattle.js_tree.specs.declared.parts.Part.{Part};

    ghost Value = { List Part };

    ghost coded = { Prim.hlevel (codes, run.the_row.coded, endings.the_row.coded, items.the_row.coded) };

    ghost view = { λ p. reverse p.stack.items };
}

impl Part {
    fn is_values(&self) -> bool
        ensures { result ≡ is_values self.now }
    {
        matches!(self, Part::Values { .. })
    }
}

impl Parts {
    /// An empty stack.
    pub(crate) fn new(alloc: Global) -> Parts
        ensures { result ≡ [] }
    {
        Parts {
            stack: Vec::new(alloc),
        }
    }

    /// Puts a part on top.
    pub(crate) fn push(&mut self, part: Part) -> Result<(), Fault>
        ensures { Gives result (λ _. self.new) (Ok (part ∷ self.old)) }
    {
        self.stack.push(part)?;
        Ok(())
    }

    pub(crate) fn is_empty(&self) -> bool
        ensures { result ≡ (length self.now == 0) }
    {
        self.stack.is_empty()
    }

    /// Takes off the endings under the values on top where there are none of them, and tells whether it did.
    pub(crate) fn drop_no_endings(&mut self) -> Result<bool, Fault>
        ensures { Gives result (λ dropped. (dropped, self.new)) (Ok (without_no_endings self.old)) }
    {
        let Some(top) = self.stack.pop() else {
            return Ok(false);
        };
        let dropped = top.is_values() && self.ends_nothing();
        if dropped {
            self.stack.pop();
        }
        self.stack.push(top)?;
        Ok(dropped)
    }

    // Whether no endings are on top.
    fn ends_nothing(&self) -> bool
        ensures { result ≡ ends_nothing self.now }
    {
        match self.stack.last() {
            Some(Part::Endings(endings)) => endings.is_empty(),
            _ => false,
        }
    }

    /// Takes off the top, whatever it is.
    pub(crate) fn skip(&mut self) -> Result<(), Fault>
        ensures { Gives result (λ _. self.new) (without_top self.old) }
    {
        match self.stack.pop() {
            Some(_) => Ok(()),
            None => Err(Fault::Broken),
        }
    }

    pub(crate) fn leaf(&mut self) -> Result<Leaf, Fault>
        ensures { Gives result (λ l. (l, self.new)) (taken_leaf self.old) }
    {
        match self.stack.pop() {
            Some(Part::Token(leaf)) => Ok(leaf),
            _ => Err(Fault::Broken),
        }
    }

    pub(crate) fn values(&mut self) -> Result<(Run, Option<NameId>), Fault>
        ensures { Gives result (λ v. (v, self.new)) (taken_values self.old) }
    {
        match self.stack.pop() {
            Some(Part::Values { values, raw }) => Ok((values, raw)),
            _ => Err(Fault::Broken),
        }
    }

    pub(crate) fn endings(&mut self) -> Result<Endings, Fault>
        ensures { Gives result (λ e. (e, self.new)) (taken_endings self.old) }
    {
        match self.stack.pop() {
            Some(Part::Endings(endings)) => Ok(endings),
            _ => Err(Fault::Broken),
        }
    }

    pub(crate) fn items(&mut self) -> Result<Items, Fault>
        ensures { Gives result (λ i. (i, self.new)) (taken_items self.old) }
    {
        match self.stack.pop() {
            Some(Part::Items(items)) => Ok(items),
            _ => Err(Fault::Broken),
        }
    }
}

impl Endings {
    /// No endings.
    pub(crate) fn new(alloc: Global) -> Endings
        ensures { result ≡ [] }
    {
        Endings {
            backwards: Vec::new(alloc),
        }
    }

    pub(crate) fn is_empty(&self) -> bool
        ensures { result ≡ (length self.now == 0) }
    {
        self.backwards.is_empty()
    }

    /// Puts an ending in front.
    pub(crate) fn put(&mut self, ending: Ending) -> Result<(), Fault>
        ensures { Gives result (λ _. self.new) (Ok (ending ∷ self.old)) }
    {
        self.backwards.push(ending)?;
        Ok(())
    }

    /// Adds a list at the end, in the time of the endings before it.
    #[tactic(auto, using(crate::proofs::Runs::joined_endings))]
    pub(crate) fn join(&mut self, behind: Endings) -> Result<(), Fault>
        ensures { Gives result (λ _. self.new) (Ok (self.old ++ behind)) }
    {
        let Endings { mut backwards } = behind;
        backwards.append(&mut self.backwards)?;
        self.backwards = backwards;
        Ok(())
    }

    /// Takes off the first one.
    pub(crate) fn next(&mut self) -> Option<Ending>
        ensures first { self.old ≡ option_to_list result ++ self.new }
        ensures none { IfNone result (self.old ≡ []) }
    {
        self.backwards.pop()
    }

    /// The only one.
    pub(crate) fn only(self) -> Result<Ending, Fault>
        ensures { Gives result (λ e. e) (one_ending self) }
    {
        let mut endings = self;
        let Some(ending) = endings.next() else {
            return Err(Fault::Broken);
        };
        if endings.is_empty() {
            Ok(ending)
        } else {
            Err(Fault::Broken)
        }
    }
}

impl Items {
    /// No items.
    pub(crate) fn new(alloc: Global) -> Items
        ensures { result ≡ [] }
    {
        Items {
            backwards: Vec::new(alloc),
        }
    }

    /// Puts an item in front.
    pub(crate) fn put(&mut self, item: Item) -> Result<(), Fault>
        ensures { Gives result (λ _. self.new) (Ok (item ∷ self.old)) }
    {
        self.backwards.push(item)?;
        Ok(())
    }

    /// Takes off the first one.
    pub(crate) fn next(&mut self) -> Option<Item>
        ensures first { self.old ≡ option_to_list result ++ self.new }
        ensures none { IfNone result (self.old ≡ []) }
    {
        self.backwards.pop()
    }

    /// Takes off the first one where it is a directive, and gives its raw text.
    pub(crate) fn next_directive(&mut self) -> Option<NameId>
        ensures raw { result ≡ (first_directive self.old).0 }
        ensures behind { self.new ≡ (first_directive self.old).1 }
    {
        match self.backwards.last() {
            Some(Item { raw: Some(raw), .. }) => {
                let raw = *raw;
                self.backwards.pop();
                Some(raw)
            }
            _ => None,
        }
    }
}
