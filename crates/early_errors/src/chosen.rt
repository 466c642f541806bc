ghost use Rattle.std.specs.Prelude.{◌≡◌};
ghost use Rattle.early_errors.specs.Chosen.{chosen};

use crate::kinds::Role;
use scope_facts::Rule;

/// The rules that can be broken at a node of this role at all, in order.
pub(crate) fn chosen_for(role: Role) -> &'static [Rule]
    ensures { result.now ≡ chosen role }
{
    match role {
        Role::Script | Role::Block => &[Rule::E1, Rule::E2, Rule::E16],
        Role::Arrow => &[Rule::E4, Rule::E16],
        Role::Contents => &[Rule::E1, Rule::E2, Rule::E3, Rule::E4, Rule::E5, Rule::E16],
        Role::For => &[Rule::E1, Rule::E15, Rule::E16],
        Role::Catch => &[Rule::E14, Rule::E16],
        Role::Directive | Role::Template => &[Rule::E16, Rule::E18],
        Role::Declarator => &[Rule::E9, Rule::E16],
        Role::Labelled => &[Rule::E8, Rule::E13, Rule::E16, Rule::E17],
        Role::Return => &[Rule::E10, Rule::E16],
        Role::Break | Role::Continue => &[Rule::E8, Rule::E11, Rule::E12, Rule::E16, Rule::E17],
        Role::Unary => &[Rule::E7, Rule::E16],
        Role::Use => &[Rule::E6, Rule::E8, Rule::E17],
        Role::Binding => &[Rule::E6, Rule::E8, Rule::E16, Rule::E17],
        Role::Head | Role::Member => &[],
        Role::Property => &[Rule::E17],
        _ => &[Rule::E16],
    }
}
