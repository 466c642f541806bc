//! What a row's own part is of what its steps gathered.

ghost use Rattle.std.specs.Prelude.{◌≡◌, [], Ok};
ghost use Rattle.bast_schema.specs.Tree.{child};
ghost use Rattle.bast_schema.specs.View.{datum};
ghost use Rattle.js_tree.specs.Finishes.{add_item, arrow_body, binds, declaration, declares, declaring, ends, fills, filled, finish_on, folds, for_kind, instead, left_of, parameters, property, sequence, statement, switch, tries, try_kind, with_made, with_values};
ghost use Rattle.js_tree.specs.Nodes.{limited};
ghost use Rattle.js_tree.specs.Parts.{one_node};
ghost use Rattle.js_tree.specs.Results.{Gives};

use crate::fault::Fault;
use crate::nodes::{folded, make, one, two};
use crate::parts::{Ending, Endings, Form, Item, Items, Part, Parts};
use crate::recipe::{Declared, Finish};
use crate::run::Run;
use crate::switches;
use crate::work::Work;
use bast_base::NameId;
use bast_schema::{
    FOR_CONST, FOR_LET, FOR_VAR, Kind, LEXICAL_CONST, LEXICAL_LET, Node, Value, Values,
};
use std::alloc::Global;

/// Puts a row's own part on top of the stack, of what its steps gathered.
pub(crate) fn finish(
    alloc: Global,
    finish: Finish,
    work: Work,
    parts: &mut Parts,
) -> Result<(), Fault>
    ensures { Gives result (λ _. parts.new) (finish_on limited finish work parts.old) }
{
    match finish {
        Finish::Same => Ok(()),
        Finish::Values => push_values(work.values, None, parts),
        Finish::Folds => folds(alloc, work, parts),
        Finish::Ends(kind) => ends(kind, Form::Plain, work, parts),
        Finish::EndsParameters(kind) => ends(kind, Form::Parameters, work, parts),
        Finish::EndsLabel(kind) => ends(kind, Form::Label, work, parts),
        Finish::Endings => parts.push(Part::Endings(work.endings)),
        Finish::Fills => fills(alloc, work, parts),
        Finish::Binds(declared) => binds(alloc, declared, work, parts),
        Finish::Declares => declares(alloc, work, parts),
        Finish::ArrowBody => arrow_body(alloc, work, parts),
        Finish::Tries => tries(work, parts),
        Finish::Sequence => sequence(alloc, work, parts),
        Finish::Statement => statement(alloc, work, parts),
        Finish::Property => property(alloc, work, parts),
        Finish::Instead => instead(alloc, work, parts),
        Finish::Items => add_item(work, parts),
        Finish::NoItems => parts.push(Part::Items(Items::new(alloc))),
        Finish::Switch => switch(alloc, work, parts),
        Finish::Parameters => parameters(alloc, work, parts),
    }
}

fn push_values(values: Run, raw: Option<NameId>, parts: &mut Parts) -> Result<(), Fault>
    ensures { Gives result (λ _. parts.new) (with_values values raw parts.old) }
{
    parts.push(Part::Values { values, raw })
}

fn push_node(alloc: Global, node: Node, parts: &mut Parts) -> Result<(), Fault>
    ensures { Gives result (λ _. parts.new) (with_made (Ok node) parts.old) }
{
    let values = one(alloc, Value::Node(node))?;
    push_values(values, None, parts)
}

fn only_node(values: Run) -> Result<Node, Fault>
    ensures { Gives result (λ t. t) (one_node values) }
{
    match values.only()? {
        Value::Node(node) => Ok(node),
        _ => Err(Fault::Broken),
    }
}

#[tactic(auto, unfolding(crate::specs::Finishes::folds))]
fn folds(alloc: Global, work: Work, parts: &mut Parts) -> Result<(), Fault>
    ensures { Gives result (λ _. parts.new) (folds limited work parts.old) }
{
    if work.endings.is_empty() {
        return push_values(work.values, work.raw, parts);
    }
    let operand = only_node(work.values)?;
    let node = folded(alloc, work.endings, operand)?;
    push_node(alloc, node, parts)
}

fn ends(kind: Kind, form: Form, work: Work, parts: &mut Parts) -> Result<(), Fault>
    ensures { Gives result (λ _. parts.new) (ends kind form work parts.old) }
{
    let mut endings = work.endings;
    endings.put(Ending::Around {
        kind,
        form,
        before: work.held,
        behind: work.values,
    })?;
    parts.push(Part::Endings(endings))
}

#[tactic(auto, unfolding(crate::specs::Finishes::statement))]
fn statement(alloc: Global, work: Work, parts: &mut Parts) -> Result<(), Fault>
    ensures { Gives result (λ _. parts.new) (statement limited work parts.old) }
{
    if !work.endings.is_empty() {
        return folds(alloc, work, parts);
    }
    let node = make(Kind::ExpressionStatement, work.values)?;
    let values = one(alloc, Value::Node(node))?;
    push_values(values, work.raw, parts)
}

#[tactic(auto, unfolding(crate::specs::Finishes::property))]
fn property(alloc: Global, work: Work, parts: &mut Parts) -> Result<(), Fault>
    ensures { Gives result (λ _. parts.new) (property limited work parts.old) }
{
    let node = if work.endings.is_empty() {
        let name = make(Kind::IdentifierExpression, work.values)?;
        let fields = one(alloc, Value::Node(name))?;
        make(Kind::ShorthandProperty, fields)?
    } else {
        let name = make(Kind::LiteralPropertyName, work.values)?;
        folded(alloc, work.endings, name)?
    };
    push_node(alloc, node, parts)
}

#[tactic(auto, unfolding(crate::specs::Finishes::fills))]
fn fills(alloc: Global, work: Work, parts: &mut Parts) -> Result<(), Fault>
    ensures { Gives result (λ _. parts.new) (fills work parts.old) }
{
    let left = work.values.only()?;
    let ending = work.endings.only()?;
    fill(alloc, ending, left, parts)
}

// Puts what stands before the body of a `for` into what the body is still to be put behind.
fn fill(alloc: Global, ending: Ending, left: Value, parts: &mut Parts) -> Result<(), Fault>
    ensures { Gives result (λ _. parts.new) (filled ending (datum left) parts.old) }
{
    match ending {
        Ending::Instead(_) => Err(Fault::Broken),
        Ending::Around {
            kind,
            before,
            mut behind,
            ..
        } => {
            behind.put(left)?;
            let mut before = before;
            before.join(behind)?;
            let mut endings = Endings::new(alloc);
            endings.put(Ending::Around {
                kind,
                form: Form::Plain,
                before,
                behind: Run::new(alloc),
            })?;
            parts.push(Part::Endings(endings))
        }
    }
}

#[tactic(auto, unfolding(crate::specs::Finishes::binds))]
fn binds(alloc: Global, declared: Declared, work: Work, parts: &mut Parts) -> Result<(), Fault>
    ensures { Gives result (λ _. parts.new) (binds limited declared work parts.old) }
{
    let binding = work.values.only()?;
    match work.endings.only()? {
        Ending::Instead(_) => Err(Fault::Broken),
        Ending::Around {
            kind,
            form,
            before,
            behind,
        } => {
            let left = left_of(alloc, declared, binding, form)?;
            let ending = Ending::Around {
                kind,
                form: Form::Plain,
                before,
                behind,
            };
            fill(alloc, ending, Value::Node(left), parts)
        }
    }
}

// What the head of a `for` declares.
fn left_of(alloc: Global, declared: Declared, binding: Value, form: Form) -> Result<Node, Fault>
    ensures { Gives result (λ t. t) (left_of limited declared (datum binding) form) }
{
    match form {
        Form::Plain => {
            let kind = Value::Choice(for_kind(declared));
            let fields = two(alloc, kind, binding)?;
            make(Kind::ForInOfBinding, fields)
        }
        Form::Declared(mut behind) => {
            let initializer = behind.first()?;
            let fields = two(alloc, binding, initializer)?;
            let first = make(Kind::VariableDeclarator, fields)?;
            behind.put(Value::Node(first))?;
            declaration(alloc, declared, behind)
        }
        Form::Parameters | Form::Contents(_) | Form::Label => Err(Fault::Broken),
    }
}

// The choice that says how the head of a `for` declares.
fn for_kind(declared: Declared) -> u8
    ensures { result ≡ for_kind declared }
{
    match declared {
        Declared::Var => FOR_VAR,
        Declared::Let => FOR_LET,
        Declared::Const => FOR_CONST,
    }
}

// A declaration of these declarators.
fn declaration(alloc: Global, declared: Declared, declarators: Run) -> Result<Node, Fault>
    ensures { Gives result (λ t. t) (declaration limited declared declarators) }
{
    let list = Value::List(Values::of(declarators.into_vec()));
    match declared {
        Declared::Var => {
            let fields = one(alloc, list)?;
            make(Kind::VarDeclaration, fields)
        }
        Declared::Let => {
            let fields = two(alloc, Value::Choice(LEXICAL_LET), list)?;
            make(Kind::LexicalDeclaration, fields)
        }
        Declared::Const => {
            let fields = two(alloc, Value::Choice(LEXICAL_CONST), list)?;
            make(Kind::LexicalDeclaration, fields)
        }
    }
}

#[tactic(auto, unfolding(crate::specs::Finishes::declares))]
fn declares(alloc: Global, work: Work, parts: &mut Parts) -> Result<(), Fault>
    ensures { Gives result (λ _. parts.new) (declares work parts.old) }
{
    match work.endings.only()? {
        Ending::Instead(_) => Err(Fault::Broken),
        Ending::Around {
            kind,
            before,
            behind,
            ..
        } => {
            let mut endings = Endings::new(alloc);
            endings.put(Ending::Around {
                kind,
                form: Form::Declared(work.values),
                before,
                behind,
            })?;
            parts.push(Part::Endings(endings))
        }
    }
}

#[tactic(auto, unfolding(crate::specs::Finishes::arrow_body))]
fn arrow_body(alloc: Global, work: Work, parts: &mut Parts) -> Result<(), Fault>
    ensures { Gives result (λ _. parts.new) (arrow_body work parts.old) }
{
    let directives = Value::List(Values::of(work.directives.into_vec()));
    let before = one(alloc, directives)?;
    let mut endings = Endings::new(alloc);
    endings.put(Ending::Around {
        kind: Kind::EagerArrowExpressionWithFunctionBody,
        form: Form::Contents(work.values),
        before,
        behind: Run::new(alloc),
    })?;
    parts.push(Part::Endings(endings))
}

#[tactic(auto, unfolding(crate::specs::Finishes::tries))]
fn tries(work: Work, parts: &mut Parts) -> Result<(), Fault>
    ensures { Gives result (λ _. parts.new) (tries work parts.old) }
{
    let kind = try_kind(&work.values);
    ends(kind, Form::Plain, work, parts)
}

fn try_kind(values: &Run) -> Kind
    ensures { result ≡ try_kind values.now }
{
    if values.len() == 1 {
        Kind::TryCatchStatement
    } else {
        Kind::TryFinallyStatement
    }
}

#[tactic(auto, unfolding(crate::specs::Finishes::sequence))]
fn sequence(alloc: Global, work: Work, parts: &mut Parts) -> Result<(), Fault>
    ensures { Gives result (λ _. parts.new) (sequence limited work parts.old) }
{
    if work.values.is_empty() {
        return push_values(work.held, work.raw, parts);
    }
    let mut fields = work.held;
    fields.add(Value::List(Values::of(work.values.into_vec())))?;
    let node = make(Kind::SequenceExpression, fields)?;
    push_node(alloc, node, parts)
}

#[tactic(auto, unfolding(crate::specs::Finishes::instead))]
fn instead(alloc: Global, work: Work, parts: &mut Parts) -> Result<(), Fault>
    ensures { Gives result (λ _. parts.new) (instead work parts.old) }
{
    let node = only_node(work.values)?;
    let mut endings = Endings::new(alloc);
    endings.put(Ending::Instead(node))?;
    parts.push(Part::Endings(endings))
}

#[tactic(auto, unfolding(crate::specs::Finishes::add_item))]
fn add_item(work: Work, parts: &mut Parts) -> Result<(), Fault>
    ensures { Gives result (λ _. parts.new) (add_item work parts.old) }
{
    let statement = only_node(work.values)?;
    let mut items = work.items;
    items.put(Item {
        statement,
        raw: work.raw,
    })?;
    parts.push(Part::Items(items))
}

#[tactic(auto, unfolding(crate::specs::Finishes::switch))]
fn switch(alloc: Global, work: Work, parts: &mut Parts) -> Result<(), Fault>
    ensures { Gives result (λ _. parts.new) (switch limited work parts.old) }
{
    let node = switches::switch(alloc, work.held, work.values)?;
    push_node(alloc, node, parts)
}

#[tactic(auto, unfolding(crate::specs::Finishes::parameters))]
fn parameters(alloc: Global, work: Work, parts: &mut Parts) -> Result<(), Fault>
    ensures { Gives result (λ _. parts.new) (parameters limited work parts.old) }
{
    let mut items = work.values;
    let rest = items.last()?;
    let fields = two(alloc, Value::List(Values::of(items.into_vec())), rest)?;
    let node = make(Kind::FormalParameters, fields)?;
    push_node(alloc, node, parts)
}
