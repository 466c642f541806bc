// Sources with parameters.
//
// Each row is a source, its tree as words, and its first early error: the rule, the number of the node and the name. The
// errors are those that an independent implementation gives.

use super::cases::row_holds;
use std::test::Fail;

#[test]
fn parameters_are_not_declared_again(rt: HostRuntime) -> Result<(), Fail> {
    let rows = "\
(function (a) { let a }) | Script 0 1 ExpressionStatement EagerFunctionExpression - 0 FunctionContents FormalParameters 1 BindingIdentifier a - 1 LexicalDeclaration let 1 VariableDeclarator BindingIdentifier a - | E3 5 a
(function (a) { var a }) | Script 0 1 ExpressionStatement EagerFunctionExpression - 0 FunctionContents FormalParameters 1 BindingIdentifier a - 1 VarDeclaration 1 VariableDeclarator BindingIdentifier a - | none
(function (a, b = 1, ...c) { let d, c, b }) | Script 0 1 ExpressionStatement EagerFunctionExpression - 0 FunctionContents FormalParameters 2 BindingIdentifier a BindingWithInitializer BindingIdentifier b LiteralNumericExpression 1 BindingIdentifier c 1 LexicalDeclaration let 3 VariableDeclarator BindingIdentifier d - VariableDeclarator BindingIdentifier c - VariableDeclarator BindingIdentifier b - | E3 5 c
({ set p(v) { const v = 1 } }); | Script 0 1 ExpressionStatement ObjectExpression 1 EagerSetter LiteralPropertyName p 0 SetterContents BindingIdentifier v 1 LexicalDeclaration const 1 VariableDeclarator BindingIdentifier v LiteralNumericExpression 1 | E3 6 v
(a => { let a }); | Script 0 1 ExpressionStatement EagerArrowExpressionWithFunctionBody 0 FunctionContents FormalParameters 1 BindingIdentifier a - 1 LexicalDeclaration let 1 VariableDeclarator BindingIdentifier a - | E3 4 a
(function (a) { { let a } }) | Script 0 1 ExpressionStatement EagerFunctionExpression - 0 FunctionContents FormalParameters 1 BindingIdentifier a - 1 Block 1 LexicalDeclaration let 1 VariableDeclarator BindingIdentifier a - | none
(function (a) { function a() { } }) | Script 0 1 ExpressionStatement EagerFunctionExpression - 0 FunctionContents FormalParameters 1 BindingIdentifier a - 1 EagerFunctionDeclaration BindingIdentifier a 0 FunctionContents FormalParameters 0 - 0 | none";
    for row in rows.split('\n') {
        assert!(rt; row_holds(rt.alloc(), row), "{row}");
    }
    Ok(())
}

#[test]
fn parameters_have_names_of_their_own(rt: HostRuntime) -> Result<(), Fail> {
    let rows = "\
(a, a) => 1 | Script 0 1 ExpressionStatement EagerArrowExpressionWithExpression FormalParameters 2 BindingIdentifier a BindingIdentifier a - LiteralNumericExpression 1 | E4 3 a
(a, b, a, b) => { } | Script 0 1 ExpressionStatement EagerArrowExpressionWithFunctionBody 0 FunctionContents FormalParameters 4 BindingIdentifier a BindingIdentifier b BindingIdentifier a BindingIdentifier b - 0 | E4 4 a
(function (a, a) { }) | Script 0 1 ExpressionStatement EagerFunctionExpression - 0 FunctionContents FormalParameters 2 BindingIdentifier a BindingIdentifier a - 0 | none
(function (a, a) { \"use strict\" }) | Script 0 1 ExpressionStatement EagerFunctionExpression - 1 Directive USE FunctionContents FormalParameters 2 BindingIdentifier a BindingIdentifier a - 0 | E4 6 a
\"use strict\"; (function (a, a) { }) | Script 1 Directive USE 1 ExpressionStatement EagerFunctionExpression - 0 FunctionContents FormalParameters 2 BindingIdentifier a BindingIdentifier a - 0 | E4 6 a
(function (a, a = 1) { }) | Script 0 1 ExpressionStatement EagerFunctionExpression - 0 FunctionContents FormalParameters 2 BindingIdentifier a BindingWithInitializer BindingIdentifier a LiteralNumericExpression 1 - 0 | E4 5 a
(function (a, ...a) { }) | Script 0 1 ExpressionStatement EagerFunctionExpression - 0 FunctionContents FormalParameters 1 BindingIdentifier a BindingIdentifier a 0 | E4 5 a
({ m(a, a) { } }); | Script 0 1 ExpressionStatement ObjectExpression 1 EagerMethod LiteralPropertyName m 0 FunctionContents FormalParameters 2 BindingIdentifier a BindingIdentifier a - 0 | E4 6 a
({ m: function (a, a) { } }); | Script 0 1 ExpressionStatement ObjectExpression 1 DataProperty LiteralPropertyName m EagerFunctionExpression - 0 FunctionContents FormalParameters 2 BindingIdentifier a BindingIdentifier a - 0 | none
(function () { \"use strict\"; return function (a, a) { } }) | Script 0 1 ExpressionStatement EagerFunctionExpression - 1 Directive USE FunctionContents FormalParameters 0 - 1 ReturnStatement EagerFunctionExpression - 0 FunctionContents FormalParameters 2 BindingIdentifier a BindingIdentifier a - 0 | E4 13 a
(function (a, a) { return function () { \"use strict\" } }) | Script 0 1 ExpressionStatement EagerFunctionExpression - 0 FunctionContents FormalParameters 2 BindingIdentifier a BindingIdentifier a - 1 ReturnStatement EagerFunctionExpression - 1 Directive USE FunctionContents FormalParameters 0 - 0 | none";
    for row in rows.split('\n') {
        assert!(rt; row_holds(rt.alloc(), row), "{row}");
    }
    Ok(())
}

#[test]
fn strict_functions_have_simple_parameters(rt: HostRuntime) -> Result<(), Fail> {
    let rows = "\
(function (a = 1) { \"use strict\" }) | Script 0 1 ExpressionStatement EagerFunctionExpression - 1 Directive USE FunctionContents FormalParameters 1 BindingWithInitializer BindingIdentifier a LiteralNumericExpression 1 - 0 | E5 6
(function (...a) { \"use strict\" }) | Script 0 1 ExpressionStatement EagerFunctionExpression - 1 Directive USE FunctionContents FormalParameters 0 BindingIdentifier a 0 | E5 6
(function (a, b) { \"use strict\" }) | Script 0 1 ExpressionStatement EagerFunctionExpression - 1 Directive USE FunctionContents FormalParameters 2 BindingIdentifier a BindingIdentifier b - 0 | none
\"use strict\"; (function (a = 1) { }) | Script 1 Directive USE 1 ExpressionStatement EagerFunctionExpression - 0 FunctionContents FormalParameters 1 BindingWithInitializer BindingIdentifier a LiteralNumericExpression 1 - 0 | none
({ set p(v = 1) { \"use strict\" } }); | Script 0 1 ExpressionStatement ObjectExpression 1 EagerSetter LiteralPropertyName p 1 Directive USE SetterContents BindingWithInitializer BindingIdentifier v LiteralNumericExpression 1 0 | E5 7
((a = 1) => { \"use strict\" }); | Script 0 1 ExpressionStatement EagerArrowExpressionWithFunctionBody 1 Directive USE FunctionContents FormalParameters 1 BindingWithInitializer BindingIdentifier a LiteralNumericExpression 1 - 0 | E5 5
(function (a = function () { \"use strict\" }) { }) | Script 0 1 ExpressionStatement EagerFunctionExpression - 0 FunctionContents FormalParameters 1 BindingWithInitializer BindingIdentifier a EagerFunctionExpression - 1 Directive USE FunctionContents FormalParameters 0 - 0 - 0 | none";
    for row in rows.split('\n') {
        assert!(rt; row_holds(rt.alloc(), row), "{row}");
    }
    Ok(())
}
