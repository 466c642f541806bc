//! The nodes that are made, and how an operand stands in them.

ghost use Rattle.std.specs.Prelude.{◌≡◌, Ok};
ghost use Rattle.bast_schema.specs.Tree.{name, listed, none};
ghost use Rattle.bast_schema.specs.declared.kind.Kind.TheVariants as kinds;
ghost use Rattle.bast_schema.specs.View.{datum};
ghost use Rattle.js_tree.specs.Nodes.{contents_of, ended, folded, identifier, limited, no_names, no_parameter_names, one, parameters_of, stands, two};
ghost use Rattle.js_tree.specs.Results.{Gives};

use crate::fault::Fault;
use crate::parts::{Ending, Endings, Form};
use crate::run::Run;
use bast_base::NameId;
use bast_schema::{Kind, Node, NodeFault, Value, Values, number_of};
use std::alloc::Global;

/// A node of the kind with these fields.
pub(crate) fn make(kind: Kind, fields: Run) -> Result<Node, Fault>
    ensures { Gives result (λ t. t) (limited kind fields) }
{
    match Node::new(kind, fields.into_vec()) {
        Ok(node) => Ok(node),
        Err(NodeFault::Mistyped { .. }) => Err(Fault::Broken),
        Err(NodeFault::TooDeep) => Err(Fault::TooDeep),
    }
}

/// One value.
pub(crate) fn one(alloc: Global, value: Value) -> Result<Run, Fault>
    ensures { Gives result (λ r. r) (Ok (one (datum value))) }
{
    Run::one(alloc, value)
}

/// Two values.
pub(crate) fn two(alloc: Global, first: Value, second: Value) -> Result<Run, Fault>
    ensures { Gives result (λ r. r) (Ok (two (datum first) (datum second))) }
{
    let mut run = one(alloc, second)?;
    run.put(first)?;
    Ok(run)
}

/// A list without items.
pub(crate) fn no_items(alloc: Global) -> Value
    ensures { datum result ≡ listed none }
{
    Value::List(Values::of(Vec::new(alloc)))
}

/// A scope of the kind that tells no names.
pub(crate) fn scope(alloc: Global, kind: Kind) -> Result<Node, Fault>
    ensures { Gives result (λ t. t) (limited kind no_names) }
{
    let fields = two(alloc, no_items(alloc), Value::Bool(false))?;
    make(kind, fields)
}

/// The scope of parameters that tells no names.
pub(crate) fn parameter_scope(alloc: Global) -> Result<Node, Fault>
    ensures { Gives result (λ t. t) (limited kinds.AssertedParameterScope no_parameter_names) }
{
    let mut fields = two(alloc, Value::Bool(false), Value::Bool(false))?;
    fields.put(no_items(alloc))?;
    make(Kind::AssertedParameterScope, fields)
}

/// A node of the kind whose one field is a text.
pub(crate) fn named(alloc: Global, kind: Kind, text: NameId) -> Result<Node, Fault>
    ensures { Gives result (λ t. t) (limited kind (one (name text.0))) }
{
    let fields = one(alloc, Value::Name(text))?;
    make(kind, fields)
}

// The name that an expression is.
fn identifier(node: &Node) -> Option<u32>
    ensures { result ≡ identifier node.now }
{
    if number_of(node.kind()) != number_of(Kind::IdentifierExpression) {
        return None;
    }
    match node.fields() {
        [Value::Name(name), ..] => Some(name.0),
        _ => None,
    }
}

// The parameters of an arrow function that an operand stands for.
#[tactic(auto, unfolding(crate::specs::Nodes::parameters_of))]
fn parameters_of(alloc: Global, operand: Node) -> Result<Node, Fault>
    ensures { Gives result (λ t. t) (parameters_of limited operand) }
{
    let Some(name) = identifier(&operand) else {
        return Ok(operand);
    };
    let binding = named(alloc, Kind::BindingIdentifier, NameId(name))?;
    let items = one(alloc, Value::Node(binding))?;
    let items = Value::List(Values::of(items.into_vec()));
    let fields = two(alloc, items, Value::Absent)?;
    make(Kind::FormalParameters, fields)
}

// The contents of a function of its parameters and its statements.
#[tactic(auto, unfolding(crate::specs::Nodes::contents_of))]
fn contents_of(alloc: Global, parameters: Node, body: Run) -> Result<Node, Fault>
    ensures { Gives result (λ t. t) (contents_of limited parameters body) }
{
    let mut fields = body;
    let scope_of_parameters = parameter_scope(alloc)?;
    fields.put(Value::Node(scope(alloc, Kind::AssertedVarScope)?))?;
    fields.put(Value::Node(parameters))?;
    fields.put(Value::Node(scope_of_parameters))?;
    make(Kind::FunctionContents, fields)
}

// How an operand stands in the node around it.
#[tactic(auto, unfolding(crate::specs::Nodes::stands))]
fn stands(alloc: Global, form: Form, operand: Node) -> Result<Value, Fault>
    ensures { Gives result (λ v. datum v) (stands limited form operand) }
{
    match form {
        Form::Plain => Ok(Value::Node(operand)),
        Form::Parameters => {
            let parameters = parameters_of(alloc, operand)?;
            Ok(Value::Node(parameters))
        }
        Form::Contents(body) => {
            let parameters = parameters_of(alloc, operand)?;
            let contents = contents_of(alloc, parameters, body)?;
            Ok(Value::Node(contents))
        }
        Form::Label => match identifier(&operand) {
            Some(name) => Ok(Value::Name(NameId(name))),
            None => Err(Fault::Broken),
        },
        Form::Declared(_) => Err(Fault::Broken),
    }
}

// The operand with one ending put around it.
#[tactic(auto, unfolding(crate::specs::Nodes::ended))]
fn ended(alloc: Global, ending: Ending, operand: Node) -> Result<Node, Fault>
    ensures { Gives result (λ t. t) (ended limited ending operand) }
{
    match ending {
        Ending::Instead(node) => Ok(node),
        Ending::Around {
            kind,
            form,
            before,
            mut behind,
        } => {
            let value = stands(alloc, form, operand)?;
            behind.put(value)?;
            let mut fields = before;
            fields.join(behind)?;
            make(kind, fields)
        }
    }
}

/// The operand with all endings put around it, the first one innermost.
pub(crate) fn folded(alloc: Global, endings: Endings, operand: Node) -> Result<Node, Fault>
    ensures { Gives result (λ t. t) (folded limited endings operand) }
{
    let mut endings = endings;
    let mut node = operand;
    while let Some(ending) = endings.next() {
        node = ended(alloc, ending, node)?;
    }
    Ok(node)
}
