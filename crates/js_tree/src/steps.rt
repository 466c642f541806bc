//! The steps that gather the parts of a row's symbols.

ghost use Rattle.std.specs.Prelude.{◌≡◌, Ok};
ghost use Rattle.bast_schema.specs.Tree.{child};
ghost use Rattle.bast_schema.specs.View.{datum};
ghost use Rattle.js_tree.specs.Nodes.{limited};
ghost use Rattle.js_tree.specs.Results.{Gives};
ghost use Rattle.js_tree.specs.Steps.{body, closed, gather, gathered, hold, named, no_work, number, operand, parameter, parameter_of, put, quoted, rest, resume, skip, step_on, tail, template_part, text, whole_number, with_operator, with_statements, with_value, wrap};

use crate::fault::Fault;
use crate::nodes::{make, named, no_items, one, parameter_scope, scope, two};
use crate::operators::operator;
use crate::parts::Parts;
use crate::recipe::Step;
use crate::run::Run;
use crate::statements::{directives, statements};
use crate::work::Work;
use bast_schema::{EnumId, Kind, Node, Value, Values};
use js_tokens::TokenKind;
use std::alloc::Global;
use std::mem;

/// What the steps gather of the parts on top of the stack, which they take off.
pub(crate) fn gather(alloc: Global, steps: &[Step], parts: &mut Parts) -> Result<Work, Fault>
    ensures { Gives result (λ w. (w, parts.new)) (gathered limited steps.now no_work parts.old) }
{
    let mut work = Work::new(alloc);
    for step in steps {
        take(alloc, *step, &mut work, parts)?;
    }
    Ok(work)
}

fn take(alloc: Global, step: Step, work: &mut Work, parts: &mut Parts) -> Result<(), Fault>
    ensures { Gives result (λ _. (work.new, parts.new)) (step_on limited step work.old parts.old) }
{
    match step {
        Step::Skip => skip(work, parts),
        Step::Put => put(work, parts),
        Step::Operand => operand(work, parts),
        Step::Wrap => wrap(work, parts),
        Step::Text => text(work, parts),
        Step::Whole => whole(work, parts),
        Step::Named(kind) => name(alloc, kind, work, parts),
        Step::Quoted => quoted(alloc, work, parts),
        Step::Operator(set) => choice(set, work, parts),
        Step::Parameter => parameter(alloc, work, parts),
        Step::TemplatePart => template_part(alloc, work, parts),
        Step::Tail => tail(work, parts),
        Step::Rest => rest(work, parts),
        Step::Statements => block(alloc, work, parts),
        Step::Body => body(alloc, work, parts),
        Step::Absent => work.values.add(Value::Absent),
        Step::NoLabel => work.values.add(Value::NoName),
        Step::NoItems => work.values.add(no_items(alloc)),
        Step::Flag(flag) => work.values.add(Value::Bool(flag)),
        Step::Choice(choice) => work.values.add(Value::Choice(choice)),
        Step::Scope(kind) => {
            let node = scope(alloc, kind)?;
            work.values.add(Value::Node(node))
        }
        Step::ParameterScope => {
            let node = parameter_scope(alloc)?;
            work.values.add(Value::Node(node))
        }
        Step::Hold => {
            hold(alloc, work);
            Ok(())
        }
        Step::Resume => resume(alloc, work),
        Step::Close(kind) => close(alloc, kind, work),
    }
}

#[tactic(auto, unfolding(crate::specs::Steps::skip))]
fn skip(work: &Work, parts: &mut Parts) -> Result<(), Fault>
    ensures { Gives result (λ _. (work.now, parts.new)) (skip work.now parts.old) }
{
    parts.skip()
}

#[tactic(auto, unfolding(crate::specs::Steps::put))]
fn put(work: &mut Work, parts: &mut Parts) -> Result<(), Fault>
    ensures { Gives result (λ _. (work.new, parts.new)) (put work.old parts.old) }
{
    let (values, _raw) = parts.values()?;
    work.values.join(values)
}

#[tactic(auto, unfolding(crate::specs::Steps::operand))]
fn operand(work: &mut Work, parts: &mut Parts) -> Result<(), Fault>
    ensures { Gives result (λ _. (work.new, parts.new)) (operand work.old parts.old) }
{
    let (values, raw) = parts.values()?;
    work.raw = raw;
    work.values.join(values)
}

#[tactic(auto, unfolding(crate::specs::Steps::wrap))]
fn wrap(work: &mut Work, parts: &mut Parts) -> Result<(), Fault>
    ensures { Gives result (λ _. (work.new, parts.new)) (wrap work.old parts.old) }
{
    let (values, _raw) = parts.values()?;
    work.values.add(Value::List(Values::of(values.into_vec())))
}

#[tactic(auto, unfolding(crate::specs::Steps::text))]
fn text(work: &mut Work, parts: &mut Parts) -> Result<(), Fault>
    ensures { Gives result (λ _. (work.new, parts.new)) (text work.old parts.old) }
{
    let leaf = parts.leaf()?;
    match leaf.text {
        Some(text) => work.values.add(Value::Name(text)),
        None => Err(Fault::Broken),
    }
}

#[tactic(auto, unfolding(crate::specs::Steps::whole_number))]
fn whole(work: &mut Work, parts: &mut Parts) -> Result<(), Fault>
    ensures { Gives result (λ _. (work.new, parts.new)) (whole_number work.old parts.old) }
{
    let leaf = parts.leaf()?;
    match leaf.kind {
        TokenKind::Number(number) => work.values.add(Value::Whole(number)),
        _ => Err(Fault::Broken),
    }
}

#[tactic(auto, unfolding(crate::specs::Steps::named))]
fn name(alloc: Global, kind: Kind, work: &mut Work, parts: &mut Parts) -> Result<(), Fault>
    ensures { Gives result (λ _. (work.new, parts.new)) (named limited kind work.old parts.old) }
{
    let leaf = parts.leaf()?;
    let Some(text) = leaf.text else {
        return Err(Fault::Broken);
    };
    let node = named(alloc, kind, text)?;
    work.values.add(Value::Node(node))
}

#[tactic(auto, unfolding(crate::specs::Steps::quoted))]
fn quoted(alloc: Global, work: &mut Work, parts: &mut Parts) -> Result<(), Fault>
    ensures { Gives result (λ _. (work.new, parts.new)) (quoted limited work.old parts.old) }
{
    let leaf = parts.leaf()?;
    let Some(text) = leaf.text else {
        return Err(Fault::Broken);
    };
    let node = named(alloc, Kind::LiteralStringExpression, text)?;
    work.raw = leaf.raw;
    work.values.add(Value::Node(node))
}

#[tactic(auto, unfolding(crate::specs::Steps::with_operator))]
fn choice(set: EnumId, work: &mut Work, parts: &mut Parts) -> Result<(), Fault>
    ensures { Gives result (λ _. (work.new, parts.new)) (with_operator set work.old parts.old) }
{
    let leaf = parts.leaf()?;
    match operator(set, leaf.kind) {
        Some(choice) => work.values.add(Value::Choice(choice)),
        None => Err(Fault::Broken),
    }
}

#[tactic(auto, unfolding(crate::specs::Steps::parameter))]
fn parameter(alloc: Global, work: &mut Work, parts: &mut Parts) -> Result<(), Fault>
    ensures { Gives result (λ _. (work.new, parts.new)) (parameter limited work.old parts.old) }
{
    let leaf = parts.leaf()?;
    let Some(text) = leaf.text else {
        return Err(Fault::Broken);
    };
    let binding = named(alloc, Kind::BindingIdentifier, text)?;
    let (values, _raw) = parts.values()?;
    let initializer = values.only()?;
    let node = with_initializer(alloc, binding, initializer)?;
    work.values.add(Value::Node(node))
}

// A name that is bound, with its initializer, if there is one.
fn with_initializer(alloc: Global, binding: Node, initializer: Value) -> Result<Node, Fault>
    ensures { Gives result (λ t. t) (parameter_of limited binding (datum initializer)) }
{
    match initializer {
        Value::Absent => Ok(binding),
        Value::Node(node) => {
            let fields = two(alloc, Value::Node(binding), Value::Node(node))?;
            make(Kind::BindingWithInitializer, fields)
        }
        _ => Err(Fault::Broken),
    }
}

#[tactic(auto, unfolding(crate::specs::Steps::template_part))]
fn template_part(alloc: Global, work: &mut Work, parts: &mut Parts) -> Result<(), Fault>
    ensures { Gives result (λ _. (work.new, parts.new)) (template_part limited work.old parts.old) }
{
    let (expression, _raw) = parts.values()?;
    let expression = expression.only()?;
    let (mut behind, _raw) = parts.values()?;
    let tail = behind.first()?;
    let fields = two(alloc, expression, tail)?;
    let node = make(Kind::TemplatePart, fields)?;
    behind.put(Value::Node(node))?;
    work.values.join(behind)
}

#[tactic(auto, unfolding(crate::specs::Steps::tail))]
fn tail(work: &mut Work, parts: &mut Parts) -> Result<(), Fault>
    ensures { Gives result (λ _. (work.new, parts.new)) (tail work.old parts.old) }
{
    let endings = parts.endings()?;
    work.endings.join(endings)
}

#[tactic(auto, unfolding(crate::specs::Steps::rest))]
fn rest(work: &mut Work, parts: &mut Parts) -> Result<(), Fault>
    ensures { Gives result (λ _. (work.new, parts.new)) (rest work.old parts.old) }
{
    work.items = parts.items()?;
    Ok(())
}

#[tactic(auto, unfolding(crate::specs::Steps::with_statements))]
fn block(alloc: Global, work: &mut Work, parts: &mut Parts) -> Result<(), Fault>
    ensures { Gives result (λ _. (work.new, parts.new)) (with_statements work.old parts.old) }
{
    let items = parts.items()?;
    let list = statements(alloc, items)?;
    work.values.add(Value::List(Values::of(list.into_vec())))
}

#[tactic(auto, unfolding(crate::specs::Steps::body))]
fn body(alloc: Global, work: &mut Work, parts: &mut Parts) -> Result<(), Fault>
    ensures { Gives result (λ _. (work.new, parts.new)) (body limited work.old parts.old) }
{
    let mut items = parts.items()?;
    let found = directives(alloc, &mut items)?;
    let list = statements(alloc, items)?;
    work.directives = found;
    work.values.add(Value::List(Values::of(list.into_vec())))
}

#[tactic(auto, unfolding(crate::specs::Steps::hold))]
fn hold(alloc: Global, work: &mut Work)
    ensures { work.new ≡ hold work.old }
{
    work.held = mem::replace(&mut work.values, Run::new(alloc));
}

#[tactic(auto, unfolding(crate::specs::Steps::resume))]
fn resume(alloc: Global, work: &mut Work) -> Result<(), Fault>
    ensures { Gives result (λ _. work.new) (Ok (resume work.old)) }
{
    let directives = mem::replace(&mut work.directives, Run::new(alloc));
    let held = mem::replace(&mut work.held, Run::new(alloc));
    let mut behind = mem::replace(&mut work.values, held);
    behind.put(Value::List(Values::of(directives.into_vec())))?;
    work.values.join(behind)
}

#[tactic(auto, unfolding(crate::specs::Steps::closed))]
fn close(alloc: Global, kind: Kind, work: &mut Work) -> Result<(), Fault>
    ensures { Gives result (λ _. work.new) (closed limited kind work.old) }
{
    let fields = mem::replace(&mut work.values, Run::new(alloc));
    let node = make(kind, fields)?;
    work.values.put(Value::Node(node))
}
