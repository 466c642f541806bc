// Sources with statements and targets.
//
// Each row is a source, its tree as words, and its first early error: the rule, the number of the node and the name. The
// errors are those that an independent implementation gives.

use super::cases::row_holds;
use std::test::Fail;

#[test]
fn constants_have_initializers(rt: HostRuntime) -> Result<(), Fail> {
    let rows = "\
const c; | Script 0 1 LexicalDeclaration const 1 VariableDeclarator BindingIdentifier c - | E9 3 c
const c = 1, d; | Script 0 1 LexicalDeclaration const 2 VariableDeclarator BindingIdentifier c LiteralNumericExpression 1 VariableDeclarator BindingIdentifier d - | E9 6 d
let c; | Script 0 1 LexicalDeclaration let 1 VariableDeclarator BindingIdentifier c - | none
for (const c; ; ) ; | Script 0 1 ForStatement LexicalDeclaration const 1 VariableDeclarator BindingIdentifier c - - - EmptyStatement | E9 5 c
for (const c of x) ; | Script 0 1 ForOfStatement ForInOfBinding const BindingIdentifier c IdentifierExpression x EmptyStatement | none
const c = function () { var d }; | Script 0 1 LexicalDeclaration const 1 VariableDeclarator BindingIdentifier c EagerFunctionExpression - 0 FunctionContents FormalParameters 0 - 1 VarDeclaration 1 VariableDeclarator BindingIdentifier d - | none";
    for row in rows.split('\n') {
        assert!(rt; row_holds(rt.alloc(), row), "{row}");
    }
    Ok(())
}

#[test]
fn statements_that_leave_stand_inside_what_they_leave(rt: HostRuntime) -> Result<(), Fail> {
    let rows = "\
return 1; | Script 0 1 ReturnStatement LiteralNumericExpression 1 | E10 2
(function () { return }); | Script 0 1 ExpressionStatement EagerFunctionExpression - 0 FunctionContents FormalParameters 0 - 1 ReturnStatement - | none
({ get p() { return 1 } }); | Script 0 1 ExpressionStatement ObjectExpression 1 EagerGetter LiteralPropertyName p 0 GetterContents 1 ReturnStatement LiteralNumericExpression 1 | none
break; | Script 0 1 BreakStatement - | E11 2
continue; | Script 0 1 ContinueStatement - | E11 2
while (1) { if (1) break; else continue } | Script 0 1 WhileStatement LiteralNumericExpression 1 Block 1 IfStatement LiteralNumericExpression 1 BreakStatement - ContinueStatement - | none
switch (1) { case 1: break } | Script 0 1 SwitchStatement LiteralNumericExpression 1 1 SwitchCase LiteralNumericExpression 1 1 BreakStatement - | none
switch (1) { case 1: continue } | Script 0 1 SwitchStatement LiteralNumericExpression 1 1 SwitchCase LiteralNumericExpression 1 1 ContinueStatement - | E11 7
do ; while (() => { break }); | Script 0 1 DoWhileStatement EmptyStatement EagerArrowExpressionWithFunctionBody 0 FunctionContents FormalParameters 0 - 1 BreakStatement - | E11 9
do continue; while (1); | Script 0 1 DoWhileStatement ContinueStatement - LiteralNumericExpression 1 | none
for (; ; ) (function () { break }); | Script 0 1 ForStatement - - - ExpressionStatement EagerFunctionExpression - 0 FunctionContents FormalParameters 0 - 1 BreakStatement - | E11 11
while (1) (() => { continue }); | Script 0 1 WhileStatement LiteralNumericExpression 1 ExpressionStatement EagerArrowExpressionWithFunctionBody 0 FunctionContents FormalParameters 0 - 1 ContinueStatement - | E11 10";
    for row in rows.split('\n') {
        assert!(rt; row_holds(rt.alloc(), row), "{row}");
    }
    Ok(())
}

#[test]
fn labels_are_around_and_not_twice(rt: HostRuntime) -> Result<(), Fail> {
    let rows = "\
break a; | Script 0 1 BreakStatement a | E12 2 a
a: break a; | Script 0 1 LabelledStatement a BreakStatement a | none
a: while (1) continue a; | Script 0 1 LabelledStatement a WhileStatement LiteralNumericExpression 1 ContinueStatement a | none
a: { continue a; } | Script 0 1 LabelledStatement a Block 1 ContinueStatement a | E12 5 a
a: { while (1) continue a; } | Script 0 1 LabelledStatement a Block 1 WhileStatement LiteralNumericExpression 1 ContinueStatement a | E12 7 a
a: b: while (1) continue a; | Script 0 1 LabelledStatement a LabelledStatement b WhileStatement LiteralNumericExpression 1 ContinueStatement a | none
a: while (1) b: while (1) { continue a; } | Script 0 1 LabelledStatement a WhileStatement LiteralNumericExpression 1 LabelledStatement b WhileStatement LiteralNumericExpression 1 Block 1 ContinueStatement a | none
a: while (1) (function () { break a }); | Script 0 1 LabelledStatement a WhileStatement LiteralNumericExpression 1 ExpressionStatement EagerFunctionExpression - 0 FunctionContents FormalParameters 0 - 1 BreakStatement a | E12 12 a
a: while (1) { (() => { a: ; }); break a } | Script 0 1 LabelledStatement a WhileStatement LiteralNumericExpression 1 Block 2 ExpressionStatement EagerArrowExpressionWithFunctionBody 0 FunctionContents FormalParameters 0 - 1 LabelledStatement a EmptyStatement BreakStatement a | none
a: ; break a; | Script 0 2 LabelledStatement a EmptyStatement BreakStatement a | E12 4 a
a: a: ; | Script 0 1 LabelledStatement a LabelledStatement a EmptyStatement | E13 3 a
a: ; a: ; | Script 0 2 LabelledStatement a EmptyStatement LabelledStatement a EmptyStatement | none
a: { b: { a: ; } } | Script 0 1 LabelledStatement a Block 1 LabelledStatement b Block 1 LabelledStatement a EmptyStatement | E13 8 a
a: switch (1) { case 1: break a } | Script 0 1 LabelledStatement a SwitchStatement LiteralNumericExpression 1 1 SwitchCase LiteralNumericExpression 1 1 BreakStatement a | none
a: switch (1) { case 1: continue a } | Script 0 1 LabelledStatement a SwitchStatement LiteralNumericExpression 1 1 SwitchCase LiteralNumericExpression 1 1 ContinueStatement a | E12 8 a";
    for row in rows.split('\n') {
        assert!(rt; row_holds(rt.alloc(), row), "{row}");
    }
    Ok(())
}

#[test]
fn targets_are_names_or_members(rt: HostRuntime) -> Result<(), Fail> {
    let rows = "\
1 = 1; | Script 0 1 ExpressionStatement AssignmentExpression LiteralNumericExpression 1 LiteralNumericExpression 1 | E16 4
a = 1; | Script 0 1 ExpressionStatement AssignmentExpression IdentifierExpression a LiteralNumericExpression 1 | none
a.b = 1; | Script 0 1 ExpressionStatement AssignmentExpression StaticMemberExpression IdentifierExpression a b LiteralNumericExpression 1 | none
a[b] = 1; | Script 0 1 ExpressionStatement AssignmentExpression ComputedMemberExpression IdentifierExpression a IdentifierExpression b LiteralNumericExpression 1 | none
f() = 1; | Script 0 1 ExpressionStatement AssignmentExpression CallExpression IdentifierExpression f 0 LiteralNumericExpression 1 | E16 4
(a, b) = 1; | Script 0 1 ExpressionStatement AssignmentExpression SequenceExpression IdentifierExpression a 1 IdentifierExpression b LiteralNumericExpression 1 | E16 4
[a] = b; | Script 0 1 ExpressionStatement AssignmentExpression ArrayExpression 1 IdentifierExpression a IdentifierExpression b | E16 4
1++; | Script 0 1 ExpressionStatement UpdateExpression false ++ LiteralNumericExpression 1 | E16 4
--this; | Script 0 1 ExpressionStatement UpdateExpression true -- ThisExpression | E16 4
f() += 1; | Script 0 1 ExpressionStatement CompoundAssignmentExpression += CallExpression IdentifierExpression f 0 LiteralNumericExpression 1 | E16 4
for (f() of x) ; | Script 0 1 ForOfStatement CallExpression IdentifierExpression f 0 IdentifierExpression x EmptyStatement | E16 4
for (f().a of x) ; | Script 0 1 ForOfStatement StaticMemberExpression CallExpression IdentifierExpression f 0 a IdentifierExpression x EmptyStatement | none
for (1 in x) ; | Script 0 1 ForInStatement LiteralNumericExpression 1 IdentifierExpression x EmptyStatement | E16 4
(a = b) = c; | Script 0 1 ExpressionStatement AssignmentExpression AssignmentExpression IdentifierExpression a IdentifierExpression b IdentifierExpression c | E16 4
a = b = 1; | Script 0 1 ExpressionStatement AssignmentExpression IdentifierExpression a AssignmentExpression IdentifierExpression b LiteralNumericExpression 1 | none";
    for row in rows.split('\n') {
        assert!(rt; row_holds(rt.alloc(), row), "{row}");
    }
    Ok(())
}

#[test]
fn the_first_of_several_is_told(rt: HostRuntime) -> Result<(), Fail> {
    let rows = "\
let a, a; return; let b; var b; | Script 0 4 LexicalDeclaration let 2 VariableDeclarator BindingIdentifier a - VariableDeclarator BindingIdentifier a - ReturnStatement - LexicalDeclaration let 1 VariableDeclarator BindingIdentifier b - VarDeclaration 1 VariableDeclarator BindingIdentifier b - | E1 0 a
return; break; | Script 0 2 ReturnStatement - BreakStatement - | E10 2
\"use strict\"; eval = 1; delete x; | Script 1 Directive USE 2 ExpressionStatement AssignmentExpression IdentifierExpression eval LiteralNumericExpression 1 ExpressionStatement UnaryExpression delete IdentifierExpression x | E6 5 eval
let x; x: ; let x; var x; | Script 0 4 LexicalDeclaration let 1 VariableDeclarator BindingIdentifier x - LabelledStatement x EmptyStatement LexicalDeclaration let 1 VariableDeclarator BindingIdentifier x - VarDeclaration 1 VariableDeclarator BindingIdentifier x - | E1 0 x
{ return; let a, a } | Script 0 1 Block 2 ReturnStatement - LexicalDeclaration let 2 VariableDeclarator BindingIdentifier a - VariableDeclarator BindingIdentifier a - | E1 2 a
(function (a, a = 1) { \"use strict\"; let a }) | Script 0 1 ExpressionStatement EagerFunctionExpression - 1 Directive USE FunctionContents FormalParameters 2 BindingIdentifier a BindingWithInitializer BindingIdentifier a LiteralNumericExpression 1 - 1 LexicalDeclaration let 1 VariableDeclarator BindingIdentifier a - | E3 6 a";
    for row in rows.split('\n') {
        assert!(rt; row_holds(rt.alloc(), row), "{row}");
    }
    Ok(())
}
