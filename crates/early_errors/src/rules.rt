ghost use Rattle.std.specs.Prelude.{◌≡◌, ◌||◌, ◌&&◌, not, IfOk, is_some};
ghost use Rattle.bast_schema.specs.View.{data_of};
ghost use Rattle.early_errors.specs.Repeats.{repeated, shared};
ghost use Rattle.early_errors.specs.Declares.{lexical_names, var_names, parameter_names, has_simple, caught, block_names};
ghost use Rattle.early_errors.specs.Around.{Around};
ghost use Rattle.early_errors.specs.Reading.{reading_by};
ghost use Rattle.early_errors.specs.Strict.{text_of, has_text};
ghost use Rattle.early_errors.specs.Rules.{where_so, by_name, if_so, not_for, at_for, at_contents, is_restricted, is_strict_word, is_arrow, is_assigned, is_word, is_return, is_stray, is_around, unknown, unknown_by, nested, nested_by, is_target, misnamed, is_unspelled, says};

use crate::around::{Flags, Label};
use crate::declares::{
    bare_name, caught_names, deleted_name, has_simple_parameters, lexical_names, names_of_block,
    parameter_names, var_names,
};
use crate::kinds::Role;
use crate::known::KnownTexts;
use crate::repeats::{first_repeat, first_shared};
use bast_base::Memory;
use bast_schema::Value;
use scope_facts::{Rule, first_name_of};
use std::alloc::Global;

/// What a rule finds at a node.
#[derive(Clone, Copy)]
pub enum Finding {
    /// The rule holds there.
    Holds,
    /// The rule is broken, by this name where it is one name.
    Broken(Option<u32>),
}

/// Broken where this is so, by this name or by none.
fn where_so(broken: bool, name: Option<u32>) -> Finding
    ensures { result ≡ where_so broken name }
{
    if broken {
        Finding::Broken(name)
    } else {
        Finding::Holds
    }
}

/// Broken where there is a name, by it.
fn by_name(name: Option<u32>) -> Finding
    ensures { result ≡ by_name name }
{
    match name {
        Some(name) => Finding::Broken(Some(name)),
        None => Finding::Holds,
    }
}

/// What was found, where this is so.
fn if_so(asked: bool, found: Finding) -> Finding
    ensures { result ≡ if_so asked found }
{
    match found {
        Finding::Holds => Finding::Holds,
        Finding::Broken(name) => where_so(asked, name),
    }
}

/// Two lexical names are equal.
fn repeated_lexical(alloc: Global, role: Role, fields: &[Value]) -> Result<Finding, Memory>
    ensures { IfOk result (λ r. r ≡ by_name (repeated (lexical_names role (data_of fields.now)))) }
{
    let names = lexical_names(alloc, role, fields)?;
    Ok(by_name(first_repeat(alloc, &names)?))
}

/// A lexical name is a var name. The var names are looked for only where there are lexical names.
fn lexical_and_var(alloc: Global, role: Role, fields: &[Value]) -> Result<Finding, Memory>
    ensures { IfOk result (λ r. r ≡ by_name (shared (lexical_names role (data_of fields.now)) (var_names role (data_of fields.now)))) }
{
    let names = lexical_names(alloc, role, fields)?;
    if names.is_empty() {
        return Ok(Finding::Holds);
    }
    let vars = var_names(alloc, role, fields)?;
    Ok(by_name(first_shared(alloc, &names, &vars)?))
}

/// A lexical name of a holder is a var name of it.
fn declared_by_both(alloc: Global, role: Role, fields: &[Value]) -> Result<Finding, Memory>
    ensures { IfOk result (λ r. r ≡ not_for role (by_name (shared (lexical_names role (data_of fields.now)) (var_names role (data_of fields.now))))) }
{
    match role {
        Role::For => Ok(Finding::Holds),
        _ => lexical_and_var(alloc, role, fields),
    }
}

/// A name of a `for` head is a var name of the body.
fn declared_by_head_and_body(alloc: Global, role: Role, fields: &[Value]) -> Result<Finding, Memory>
    ensures { IfOk result (λ r. r ≡ at_for role (by_name (shared (lexical_names role (data_of fields.now)) (var_names role (data_of fields.now))))) }
{
    match role {
        Role::For => lexical_and_var(alloc, role, fields),
        _ => Ok(Finding::Holds),
    }
}

/// A lexical name of a body is the name of a parameter.
fn lexical_and_parameter(alloc: Global, role: Role, fields: &[Value]) -> Result<Finding, Memory>
    ensures { IfOk result (λ r. r ≡ by_name (shared (lexical_names role (data_of fields.now)) (parameter_names role (data_of fields.now)))) }
{
    let names = lexical_names(alloc, role, fields)?;
    let parameters = parameter_names(alloc, role, fields)?;
    Ok(by_name(first_shared(alloc, &names, &parameters)?))
}

/// A parameter is declared again in the body.
fn parameter_and_lexical(alloc: Global, role: Role, fields: &[Value]) -> Result<Finding, Memory>
    ensures { IfOk result (λ r. r ≡ at_contents role (by_name (shared (lexical_names role (data_of fields.now)) (parameter_names role (data_of fields.now))))) }
{
    match role {
        Role::Contents => lexical_and_parameter(alloc, role, fields),
        _ => Ok(Finding::Holds),
    }
}

/// Two parameters have one name, where this is asked.
#[tactic(auto, using(crate::proofs::Asked::not_asked, crate::proofs::Asked::asked))]
fn repeated_parameter(
    alloc: Global,
    asked: bool,
    role: Role,
    fields: &[Value],
) -> Result<Finding, Memory>
    ensures { IfOk result (λ r. r ≡ if_so asked (by_name (repeated (parameter_names role (data_of fields.now))))) }
{
    if !asked {
        return Ok(Finding::Holds);
    }
    let names = parameter_names(alloc, role, fields)?;
    Ok(by_name(first_repeat(alloc, &names)?))
}

/// The name of a catch clause is declared in its block.
fn caught_and_declared(alloc: Global, role: Role, fields: &[Value]) -> Result<Finding, Memory>
    ensures { IfOk result (λ r. r ≡ by_name (shared (caught role (data_of fields.now)) (block_names role (data_of fields.now)))) }
{
    let names = caught_names(alloc, role, fields)?;
    let declared = names_of_block(alloc, role, fields)?;
    Ok(by_name(first_shared(alloc, &names, &declared)?))
}

/// Whether a node is an arrow with an expression.
fn is_arrow_role(role: Role) -> bool
    ensures { result ≡ is_arrow role }
{
    matches!(role, Role::Arrow)
}

/// Whether a node is bound or assigned to.
fn is_assigned_role(role: Role, target: bool) -> bool
    ensures { result ≡ is_assigned role target }
{
    match role {
        Role::Binding => true,
        Role::Use => target,
        _ => false,
    }
}

/// Whether no two parameters may have one name.
fn must_differ(role: Role, flags: Flags, fields: &[Value]) -> bool
    ensures { result ≡ (flags.strict || (not (has_simple role (data_of fields.now)) || (flags.unique || is_arrow role))) }
{
    flags.strict || !has_simple_parameters(role, fields) || flags.unique || is_arrow_role(role)
}

/// Whether strict code binds or assigns to a name that it does not.
fn is_restricted_here(texts: &KnownTexts<'_>, role: Role, flags: Flags, name: Option<u32>) -> bool
    ensures { result ≡ (is_assigned role flags.target && (flags.strict && has_text is_restricted (text_of texts.now name))) }
{
    is_assigned_role(role, flags.target) && (flags.strict && texts.facts(name).restricted)
}

/// Whether a word that strict code reserves stands in a node.
fn is_strict_word_here(texts: &KnownTexts<'_>, role: Role, flags: Flags, name: Option<u32>) -> bool
    ensures { result ≡ (is_word role && (flags.strict && has_text is_strict_word (text_of texts.now name))) }
{
    is_word_role(role) && (flags.strict && texts.facts(name).strict_word)
}

/// Whether an identifier stands in a node.
fn is_word_role(role: Role) -> bool
    ensures { result ≡ is_word role }
{
    matches!(
        role,
        Role::Binding | Role::Use | Role::Labelled | Role::Break | Role::Continue
    )
}

/// Whether a node is a `return`.
fn is_return_role(role: Role) -> bool
    ensures { result ≡ is_return role }
{
    matches!(role, Role::Return)
}

/// Whether a node leaves what does not stand around it.
fn is_stray_role(role: Role, looped: bool, breakable: bool) -> bool
    ensures { result ≡ is_stray role looped breakable }
{
    match role {
        Role::Break => !breakable,
        Role::Continue => !looped,
        _ => false,
    }
}

/// Whether a statement around, or a loop, has the label.
fn is_label_around(name: u32, loop_only: bool, labels: &[Label]) -> bool
    ensures { result ≡ is_around name loop_only labels.now }
{
    labels
        .iter()
        .any(|label| label.name == name && (label.looped || !loop_only))
}

/// A label that nothing around has.
fn unknown_label(name: Option<u32>, loop_only: bool, labels: &[Label]) -> Finding
    ensures { result ≡ unknown name loop_only labels.now }
{
    match name {
        Some(name) => where_so(!is_label_around(name, loop_only, labels), Some(name)),
        None => Finding::Holds,
    }
}

/// The label of a `break` or `continue` that nothing around has.
fn unknown_jump(role: Role, name: Option<u32>, labels: &[Label]) -> Finding
    ensures { result ≡ unknown_by role name labels.now }
{
    match role {
        Role::Break => unknown_label(name, false, labels),
        Role::Continue => unknown_label(name, true, labels),
        _ => Finding::Holds,
    }
}

/// A label that a statement around has.
fn known_label(name: Option<u32>, labels: &[Label]) -> Finding
    ensures { result ≡ nested name labels.now }
{
    match name {
        Some(name) => where_so(is_label_around(name, false, labels), Some(name)),
        None => Finding::Holds,
    }
}

/// A label inside a statement of the same label.
fn nested_label(role: Role, name: Option<u32>, labels: &[Label]) -> Finding
    ensures { result ≡ nested_by role name labels.now }
{
    match role {
        Role::Labelled => known_label(name, labels),
        _ => Finding::Holds,
    }
}

/// Whether a node may be assigned to.
fn is_target_role(role: Role) -> bool
    ensures { result ≡ is_target role }
{
    matches!(role, Role::Use | Role::Property | Role::Member | Role::Head)
}

/// Whether the name in a node is none for it.
fn is_misnamed(texts: &KnownTexts<'_>, role: Role, name: Option<u32>) -> bool
    ensures { result ≡ misnamed role (is_some name) (text_of texts.now name) }
{
    match role {
        Role::Property => !texts.facts(name).member_name,
        _ => is_word_role(role) && (name.is_some() && !texts.facts(name).identifier),
    }
}

/// Whether the raw text in a node can't be spelled.
fn is_unspelled_here(texts: &KnownTexts<'_>, role: Role, name: Option<u32>) -> bool
    ensures { result ≡ is_unspelled role (text_of texts.now name) }
{
    match role {
        Role::Directive => !texts.facts(name).quoted,
        Role::Template => !texts.facts(name).template,
        _ => false,
    }
}

/// What a rule finds at a node of this role with these fields.
pub(crate) fn saying(
    alloc: Global,
    rule: Rule,
    texts: &KnownTexts<'_>,
    flags: Flags,
    labels: &[Label],
    role: Role,
    fields: &[Value],
) -> Result<Finding, Memory>
    ensures { IfOk result (λ r. r ≡ says rule (reading_by texts.now (record { flags = flags; labels = labels.now }) role (data_of fields.now))) }
{
    let name = first_name_of(fields);
    match rule {
        Rule::E1 => repeated_lexical(alloc, role, fields),
        Rule::E2 => declared_by_both(alloc, role, fields),
        Rule::E3 => parameter_and_lexical(alloc, role, fields),
        Rule::E4 => repeated_parameter(alloc, must_differ(role, flags, fields), role, fields),
        Rule::E5 => Ok(where_so(
            !has_simple_parameters(role, fields) && flags.own_strict,
            None,
        )),
        Rule::E6 => Ok(where_so(is_restricted_here(texts, role, flags, name), name)),
        Rule::E7 => Ok(if_so(flags.strict, by_name(deleted_name(role, fields)))),
        Rule::E8 => Ok(where_so(is_strict_word_here(texts, role, flags, name), name)),
        Rule::E9 => Ok(if_so(flags.constant, by_name(bare_name(role, fields)))),
        Rule::E10 => Ok(where_so(is_return_role(role) && !flags.function, None)),
        Rule::E11 => Ok(where_so(
            is_stray_role(role, flags.looped, flags.breakable) && name.is_none(),
            None,
        )),
        Rule::E12 => Ok(unknown_jump(role, name, labels)),
        Rule::E13 => Ok(nested_label(role, name, labels)),
        Rule::E14 => caught_and_declared(alloc, role, fields),
        Rule::E15 => declared_by_head_and_body(alloc, role, fields),
        Rule::E16 => Ok(where_so(!is_target_role(role) && flags.target, None)),
        Rule::E17 => Ok(where_so(is_misnamed(texts, role, name), name)),
        Rule::E18 => Ok(where_so(is_unspelled_here(texts, role, name), None)),
        _ => Ok(Finding::Holds),
    }
}
