// Trees as a file may hold them: names that are no identifiers, texts that can't be spelled, windows.
//
// Each row is what is shown, a tree as words, and its first early error: the rule, the number of the node and the name.

use super::cases::row_holds;
use std::test::Fail;

#[test]
fn names_are_identifiers(rt: HostRuntime) -> Result<(), Fail> {
    let rows = "\
a reserved use | Script 0 1 ExpressionStatement IdentifierExpression if | E17 3 if
a use with a digit first | Script 0 1 ExpressionStatement IdentifierExpression 1a | E17 3 1a
an empty use | Script 0 1 ExpressionStatement IdentifierExpression NOTHING | E17 3 NOTHING
a use | Script 0 1 ExpressionStatement IdentifierExpression iff | none
a reserved binding | Script 0 1 VarDeclaration 1 VariableDeclarator BindingIdentifier let - | E17 4 let
a binding that yields | Script 0 1 VarDeclaration 1 VariableDeclarator BindingIdentifier yield - | E17 4 yield
a reserved label | Script 0 1 LabelledStatement do EmptyStatement | E17 2 do
a jump to a reserved label | Script 0 1 LabelledStatement a- BreakStatement a- | E17 2 a-
a reserved member | Script 0 1 ExpressionStatement StaticMemberExpression ThisExpression if | none
a member that is no name | Script 0 1 ExpressionStatement StaticMemberExpression ThisExpression a.b | E17 3 a.b
a property that is no name | Script 0 1 ExpressionStatement ObjectExpression 1 DataProperty LiteralPropertyName a.b ThisExpression | none";
    for row in rows.split('\n') {
        assert!(rt; row_holds(rt.alloc(), row), "{row}");
    }
    Ok(())
}

#[test]
fn raw_texts_can_be_spelled(rt: HostRuntime) -> Result<(), Fail> {
    let rows = "\
a directive with a line feed | Script 1 Directive LF 0 | E18 1
a directive with a quote | Script 1 Directive it's 0 | none
a directive with both quotes | Script 1 Directive \"' 0 | E18 1
a directive without a text | Script 1 Directive NOTHING 0 | E18 1
a template with a line feed | Script 0 1 ExpressionStatement TemplateExpression LF 0 | none
a template with a backtick | Script 0 1 ExpressionStatement TemplateExpression ` 0 | E18 3
a template with a hole | Script 0 1 ExpressionStatement TemplateExpression ${ 0 | E18 3
an empty template | Script 0 1 ExpressionStatement TemplateExpression EMPTY 0 | none
a later piece | Script 0 1 ExpressionStatement TemplateExpression EMPTY 1 TemplatePart ThisExpression ` | E18 4
a string | Script 0 1 ExpressionStatement LiteralStringExpression LF | none";
    for row in rows.split('\n') {
        assert!(rt; row_holds(rt.alloc(), row), "{row}");
    }
    Ok(())
}

#[test]
fn lazy_functions_are_functions_whose_windows_are_not_read(rt: HostRuntime) -> Result<(), Fail> {
    let rows = "\
a window has no number | Script 0 2 LazyFunctionDeclaration BindingIdentifier f 0 # ReturnStatement - | E10 4
its directives judge its name | Script 0 1 LazyFunctionDeclaration BindingIdentifier eval 1 Directive USE # | E6 3 eval
its directives are not those around | Script 0 2 LazyFunctionDeclaration BindingIdentifier f 1 Directive USE # ExpressionStatement UnaryExpression delete IdentifierExpression f | none
it is a var name of a script | Script 0 2 LexicalDeclaration let 1 VariableDeclarator BindingIdentifier f - LazyFunctionDeclaration BindingIdentifier f 0 # | E2 0 f
it is a lexical name of a block | Script 0 1 Block 2 VarDeclaration 1 VariableDeclarator BindingIdentifier f - LazyFunctionDeclaration BindingIdentifier f 0 # | E2 2 f
contents that are read | Script 0 1 ExpressionStatement ObjectExpression 1 LazyMethod LiteralPropertyName m 0 FunctionContents FormalParameters 2 BindingIdentifier a BindingIdentifier a - 0 | E4 6 a";
    for row in rows.split('\n') {
        assert!(rt; row_holds(rt.alloc(), row), "{row}");
    }
    Ok(())
}
