// Sources with functions.
//
// Each row is a source, its tree as words, and its scopes in preorder: `!` for a direct eval, `=` for simple parameters, and the entries, with `*` where they are captured.

use super::cases::{has_scopes, is_eager, row_holds};
use std::test::Fail;

#[test]
fn functions_have_parameters_and_a_body(rt: HostRuntime) -> Result<(), Fail> {
    let rows = "\
function f(a, b) { a } | Script 0 1 EagerFunctionDeclaration BindingIdentifier f 0 FunctionContents FormalParameters 2 BindingIdentifier a BindingIdentifier b - 1 ExpressionStatement IdentifierExpression a | statements[var f] parameters=[0:a 1:b] statements[]
function f(a, b = a) { b } | Script 0 1 EagerFunctionDeclaration BindingIdentifier f 0 FunctionContents FormalParameters 2 BindingIdentifier a BindingWithInitializer BindingIdentifier b IdentifierExpression a - 1 ExpressionStatement IdentifierExpression b | statements[var f] parameters[0:a 1:b] statements[]
function f(a, b = () => a) { } | Script 0 1 EagerFunctionDeclaration BindingIdentifier f 0 FunctionContents FormalParameters 2 BindingIdentifier a BindingWithInitializer BindingIdentifier b EagerArrowExpressionWithExpression FormalParameters 0 - IdentifierExpression a - 0 | statements[var f] parameters[0:a* 1:b] parameters=[] statements[]
function f(...a) { a } | Script 0 1 EagerFunctionDeclaration BindingIdentifier f 0 FunctionContents FormalParameters 0 BindingIdentifier a 1 ExpressionStatement IdentifierExpression a | statements[var f] parameters[...a] statements[]
function f(a, ...b) { (() => b) } | Script 0 1 EagerFunctionDeclaration BindingIdentifier f 0 FunctionContents FormalParameters 1 BindingIdentifier a BindingIdentifier b 1 ExpressionStatement EagerArrowExpressionWithExpression FormalParameters 0 - IdentifierExpression b | statements[var f] parameters[0:a ...b*] statements[] parameters=[]
function f(a, a) { a } | Script 0 1 EagerFunctionDeclaration BindingIdentifier f 0 FunctionContents FormalParameters 2 BindingIdentifier a BindingIdentifier a - 1 ExpressionStatement IdentifierExpression a | statements[var f] parameters=[0:a 1:a] statements[]
function f(a) { var a; let b } | Script 0 1 EagerFunctionDeclaration BindingIdentifier f 0 FunctionContents FormalParameters 1 BindingIdentifier a - 2 VarDeclaration 1 VariableDeclarator BindingIdentifier a - LexicalDeclaration let 1 VariableDeclarator BindingIdentifier b - | statements[var f] parameters=[0:a] statements[var a let b]
function f(a) { var a; (() => a) } | Script 0 1 EagerFunctionDeclaration BindingIdentifier f 0 FunctionContents FormalParameters 1 BindingIdentifier a - 2 VarDeclaration 1 VariableDeclarator BindingIdentifier a - ExpressionStatement EagerArrowExpressionWithExpression FormalParameters 0 - IdentifierExpression a | statements[var f] parameters=[0:a] statements[var a*] parameters=[]
function f(a) { let b; const c = 1; function d() { } } | Script 0 1 EagerFunctionDeclaration BindingIdentifier f 0 FunctionContents FormalParameters 1 BindingIdentifier a - 3 LexicalDeclaration let 1 VariableDeclarator BindingIdentifier b - LexicalDeclaration const 1 VariableDeclarator BindingIdentifier c LiteralNumericExpression 1 EagerFunctionDeclaration BindingIdentifier d 0 FunctionContents FormalParameters 0 - 0 | statements[var f] parameters=[0:a] statements[let b const c var d] parameters=[] statements[]
function f() { f() } | Script 0 1 EagerFunctionDeclaration BindingIdentifier f 0 FunctionContents FormalParameters 0 - 1 ExpressionStatement CallExpression IdentifierExpression f 0 | statements[var f*] parameters=[] statements[]
function f(a = b) { var b } | Script 0 1 EagerFunctionDeclaration BindingIdentifier f 0 FunctionContents FormalParameters 1 BindingWithInitializer BindingIdentifier a IdentifierExpression b - 1 VarDeclaration 1 VariableDeclarator BindingIdentifier b - | statements[var f] parameters[0:a] statements[var b]
function f(a = () => b) { var b; b } | Script 0 1 EagerFunctionDeclaration BindingIdentifier f 0 FunctionContents FormalParameters 1 BindingWithInitializer BindingIdentifier a EagerArrowExpressionWithExpression FormalParameters 0 - IdentifierExpression b - 2 VarDeclaration 1 VariableDeclarator BindingIdentifier b - ExpressionStatement IdentifierExpression b | statements[var f] parameters[0:a] parameters=[] statements[var b]
var a; function f(b = a) { } | Script 0 2 VarDeclaration 1 VariableDeclarator BindingIdentifier a - EagerFunctionDeclaration BindingIdentifier f 0 FunctionContents FormalParameters 1 BindingWithInitializer BindingIdentifier b IdentifierExpression a - 0 | statements[var a* var f] parameters[0:b] statements[]
function f(a) { return function () { return a } } | Script 0 1 EagerFunctionDeclaration BindingIdentifier f 0 FunctionContents FormalParameters 1 BindingIdentifier a - 1 ReturnStatement EagerFunctionExpression - 0 FunctionContents FormalParameters 0 - 1 ReturnStatement IdentifierExpression a | statements[var f] parameters=[0:a*] statements[] name[] parameters=[] statements[]";
    for row in rows.split('\n') {
        assert!(rt; row_holds(rt.alloc(), row), "{row}");
    }
    Ok(())
}

#[test]
fn uses_in_inner_functions_capture(rt: HostRuntime) -> Result<(), Fail> {
    let rows = "\
var x; function f() { x } | Script 0 2 VarDeclaration 1 VariableDeclarator BindingIdentifier x - EagerFunctionDeclaration BindingIdentifier f 0 FunctionContents FormalParameters 0 - 1 ExpressionStatement IdentifierExpression x | statements[var x* var f] parameters=[] statements[]
var x; x; function f() { var x; x } | Script 0 3 VarDeclaration 1 VariableDeclarator BindingIdentifier x - ExpressionStatement IdentifierExpression x EagerFunctionDeclaration BindingIdentifier f 0 FunctionContents FormalParameters 0 - 2 VarDeclaration 1 VariableDeclarator BindingIdentifier x - ExpressionStatement IdentifierExpression x | statements[var x var f] parameters=[] statements[var x]
let x; (() => { x }) | Script 0 2 LexicalDeclaration let 1 VariableDeclarator BindingIdentifier x - ExpressionStatement EagerArrowExpressionWithFunctionBody 0 FunctionContents FormalParameters 0 - 1 ExpressionStatement IdentifierExpression x | statements[let x*] parameters=[] statements[]
let x; (() => { let x; x }) | Script 0 2 LexicalDeclaration let 1 VariableDeclarator BindingIdentifier x - ExpressionStatement EagerArrowExpressionWithFunctionBody 0 FunctionContents FormalParameters 0 - 2 LexicalDeclaration let 1 VariableDeclarator BindingIdentifier x - ExpressionStatement IdentifierExpression x | statements[let x] parameters=[] statements[let x]
function f() { g } function g() { f } | Script 0 2 EagerFunctionDeclaration BindingIdentifier f 0 FunctionContents FormalParameters 0 - 1 ExpressionStatement IdentifierExpression g EagerFunctionDeclaration BindingIdentifier g 0 FunctionContents FormalParameters 0 - 1 ExpressionStatement IdentifierExpression f | statements[var f* var g*] parameters=[] statements[] parameters=[] statements[]
var n = 0; (function () { function inc() { n = n + 1 } })(); | Script 0 2 VarDeclaration 1 VariableDeclarator BindingIdentifier n LiteralNumericExpression 0 ExpressionStatement CallExpression EagerFunctionExpression - 0 FunctionContents FormalParameters 0 - 1 EagerFunctionDeclaration BindingIdentifier inc 0 FunctionContents FormalParameters 0 - 1 ExpressionStatement AssignmentExpression IdentifierExpression n BinaryExpression + IdentifierExpression n LiteralNumericExpression 1 0 | statements[var n*] name[] parameters=[] statements[var inc] parameters=[] statements[]
function f() { var a; function g() { function h() { a } } } | Script 0 1 EagerFunctionDeclaration BindingIdentifier f 0 FunctionContents FormalParameters 0 - 2 VarDeclaration 1 VariableDeclarator BindingIdentifier a - EagerFunctionDeclaration BindingIdentifier g 0 FunctionContents FormalParameters 0 - 1 EagerFunctionDeclaration BindingIdentifier h 0 FunctionContents FormalParameters 0 - 1 ExpressionStatement IdentifierExpression a | statements[var f] parameters=[] statements[var a* var g] parameters=[] statements[var h] parameters=[] statements[]
(() => a); var a; | Script 0 2 ExpressionStatement EagerArrowExpressionWithExpression FormalParameters 0 - IdentifierExpression a VarDeclaration 1 VariableDeclarator BindingIdentifier a - | statements[var a*] parameters=[]
function f() { (() => a); var a; } | Script 0 1 EagerFunctionDeclaration BindingIdentifier f 0 FunctionContents FormalParameters 0 - 2 ExpressionStatement EagerArrowExpressionWithExpression FormalParameters 0 - IdentifierExpression a VarDeclaration 1 VariableDeclarator BindingIdentifier a - | statements[var f] parameters=[] statements[var a*] parameters=[]
var a; { let a; (() => a) } a; | Script 0 3 VarDeclaration 1 VariableDeclarator BindingIdentifier a - Block 2 LexicalDeclaration let 1 VariableDeclarator BindingIdentifier a - ExpressionStatement EagerArrowExpressionWithExpression FormalParameters 0 - IdentifierExpression a ExpressionStatement IdentifierExpression a | statements[var a] block[let a*] parameters=[]
var a = () => a; | Script 0 1 VarDeclaration 1 VariableDeclarator BindingIdentifier a EagerArrowExpressionWithExpression FormalParameters 0 - IdentifierExpression a | statements[var a*] parameters=[]
let a = a; | Script 0 1 LexicalDeclaration let 1 VariableDeclarator BindingIdentifier a IdentifierExpression a | statements[let a]
function f() { x } let x; | Script 0 2 EagerFunctionDeclaration BindingIdentifier f 0 FunctionContents FormalParameters 0 - 1 ExpressionStatement IdentifierExpression x LexicalDeclaration let 1 VariableDeclarator BindingIdentifier x - | statements[var f let x*] parameters=[] statements[]
function a() { function b() { a } } | Script 0 1 EagerFunctionDeclaration BindingIdentifier a 0 FunctionContents FormalParameters 0 - 1 EagerFunctionDeclaration BindingIdentifier b 0 FunctionContents FormalParameters 0 - 1 ExpressionStatement IdentifierExpression a | statements[var a*] parameters=[] statements[var b] parameters=[] statements[]
var x, y; (function () { x; (function () { y }) }); | Script 0 2 VarDeclaration 2 VariableDeclarator BindingIdentifier x - VariableDeclarator BindingIdentifier y - ExpressionStatement EagerFunctionExpression - 0 FunctionContents FormalParameters 0 - 2 ExpressionStatement IdentifierExpression x ExpressionStatement EagerFunctionExpression - 0 FunctionContents FormalParameters 0 - 1 ExpressionStatement IdentifierExpression y | statements[var x* var y*] name[] parameters=[] statements[] name[] parameters=[] statements[]
let a; ({ m() { a } }); | Script 0 2 LexicalDeclaration let 1 VariableDeclarator BindingIdentifier a - ExpressionStatement ObjectExpression 1 EagerMethod LiteralPropertyName m 0 FunctionContents FormalParameters 0 - 1 ExpressionStatement IdentifierExpression a | statements[let a*] parameters=[] statements[]
let a; ({ get p() { return a }, set p(v) { a = v } }); | Script 0 2 LexicalDeclaration let 1 VariableDeclarator BindingIdentifier a - ExpressionStatement ObjectExpression 2 EagerGetter LiteralPropertyName p 0 GetterContents 1 ReturnStatement IdentifierExpression a EagerSetter LiteralPropertyName p 0 SetterContents BindingIdentifier v 1 ExpressionStatement AssignmentExpression IdentifierExpression a IdentifierExpression v | statements[let a*] statements[] parameters=[0:v] statements[]
({ [a]() { a } }); var a; | Script 0 2 ExpressionStatement ObjectExpression 1 EagerMethod ComputedPropertyName IdentifierExpression a 0 FunctionContents FormalParameters 0 - 1 ExpressionStatement IdentifierExpression a VarDeclaration 1 VariableDeclarator BindingIdentifier a - | statements[var a*] parameters=[] statements[]
let a; ({ a }); (() => ({ a })); | Script 0 3 LexicalDeclaration let 1 VariableDeclarator BindingIdentifier a - ExpressionStatement ObjectExpression 1 ShorthandProperty IdentifierExpression a ExpressionStatement EagerArrowExpressionWithExpression FormalParameters 0 - ObjectExpression 1 ShorthandProperty IdentifierExpression a | statements[let a*] parameters=[]";
    for row in rows.split('\n') {
        assert!(rt; row_holds(rt.alloc(), row), "{row}");
    }
    Ok(())
}

#[test]
fn function_expressions_have_their_own_name(rt: HostRuntime) -> Result<(), Fail> {
    let rows = "\
(function f() { }) | Script 0 1 ExpressionStatement EagerFunctionExpression BindingIdentifier f 0 FunctionContents FormalParameters 0 - 0 | statements[] name[f] parameters=[] statements[]
(function f() { f }) | Script 0 1 ExpressionStatement EagerFunctionExpression BindingIdentifier f 0 FunctionContents FormalParameters 0 - 1 ExpressionStatement IdentifierExpression f | statements[] name[f*] parameters=[] statements[]
(function f() { (() => f) }) | Script 0 1 ExpressionStatement EagerFunctionExpression BindingIdentifier f 0 FunctionContents FormalParameters 0 - 1 ExpressionStatement EagerArrowExpressionWithExpression FormalParameters 0 - IdentifierExpression f | statements[] name[f*] parameters=[] statements[] parameters=[]
(function () { }) | Script 0 1 ExpressionStatement EagerFunctionExpression - 0 FunctionContents FormalParameters 0 - 0 | statements[] name[] parameters=[] statements[]
(function f(f) { f }) | Script 0 1 ExpressionStatement EagerFunctionExpression BindingIdentifier f 0 FunctionContents FormalParameters 1 BindingIdentifier f - 1 ExpressionStatement IdentifierExpression f | statements[] name[f] parameters=[0:f] statements[]
(function f() { var f; f }) | Script 0 1 ExpressionStatement EagerFunctionExpression BindingIdentifier f 0 FunctionContents FormalParameters 0 - 2 VarDeclaration 1 VariableDeclarator BindingIdentifier f - ExpressionStatement IdentifierExpression f | statements[] name[f] parameters=[] statements[var f]
(function f() { function f() { f } }) | Script 0 1 ExpressionStatement EagerFunctionExpression BindingIdentifier f 0 FunctionContents FormalParameters 0 - 1 EagerFunctionDeclaration BindingIdentifier f 0 FunctionContents FormalParameters 0 - 1 ExpressionStatement IdentifierExpression f | statements[] name[f] parameters=[] statements[var f*] parameters=[] statements[]
var f; (function f() { f }); f; | Script 0 3 VarDeclaration 1 VariableDeclarator BindingIdentifier f - ExpressionStatement EagerFunctionExpression BindingIdentifier f 0 FunctionContents FormalParameters 0 - 1 ExpressionStatement IdentifierExpression f ExpressionStatement IdentifierExpression f | statements[var f] name[f*] parameters=[] statements[]
(function f(a = f) { }) | Script 0 1 ExpressionStatement EagerFunctionExpression BindingIdentifier f 0 FunctionContents FormalParameters 1 BindingWithInitializer BindingIdentifier a IdentifierExpression f - 0 | statements[] name[f*] parameters[0:a] statements[]";
    for row in rows.split('\n') {
        assert!(rt; row_holds(rt.alloc(), row), "{row}");
    }
    Ok(())
}

#[test]
fn methods_and_accessors_have_parameters(rt: HostRuntime) -> Result<(), Fail> {
    let rows = "\
({ m(a, b) { a } }) | Script 0 1 ExpressionStatement ObjectExpression 1 EagerMethod LiteralPropertyName m 0 FunctionContents FormalParameters 2 BindingIdentifier a BindingIdentifier b - 1 ExpressionStatement IdentifierExpression a | statements[] parameters=[0:a 1:b] statements[]
({ get a() { var b; b } }) | Script 0 1 ExpressionStatement ObjectExpression 1 EagerGetter LiteralPropertyName a 0 GetterContents 2 VarDeclaration 1 VariableDeclarator BindingIdentifier b - ExpressionStatement IdentifierExpression b | statements[] statements[var b]
({ set a(v) { v } }) | Script 0 1 ExpressionStatement ObjectExpression 1 EagerSetter LiteralPropertyName a 0 SetterContents BindingIdentifier v 1 ExpressionStatement IdentifierExpression v | statements[] parameters=[0:v] statements[]
({ set a(v) { (() => v) } }) | Script 0 1 ExpressionStatement ObjectExpression 1 EagerSetter LiteralPropertyName a 0 SetterContents BindingIdentifier v 1 ExpressionStatement EagerArrowExpressionWithExpression FormalParameters 0 - IdentifierExpression v | statements[] parameters=[0:v*] statements[] parameters=[]
({ set a(v = 1) { } }) | Script 0 1 ExpressionStatement ObjectExpression 1 EagerSetter LiteralPropertyName a 0 SetterContents BindingWithInitializer BindingIdentifier v LiteralNumericExpression 1 0 | statements[] parameters[0:v] statements[]
({ set a(v) { var v; let w } }) | Script 0 1 ExpressionStatement ObjectExpression 1 EagerSetter LiteralPropertyName a 0 SetterContents BindingIdentifier v 2 VarDeclaration 1 VariableDeclarator BindingIdentifier v - LexicalDeclaration let 1 VariableDeclarator BindingIdentifier w - | statements[] parameters=[0:v] statements[var v let w]
({ m(...a) { } }) | Script 0 1 ExpressionStatement ObjectExpression 1 EagerMethod LiteralPropertyName m 0 FunctionContents FormalParameters 0 BindingIdentifier a 0 | statements[] parameters[...a] statements[]
({ m(a = 1) { } }) | Script 0 1 ExpressionStatement ObjectExpression 1 EagerMethod LiteralPropertyName m 0 FunctionContents FormalParameters 1 BindingWithInitializer BindingIdentifier a LiteralNumericExpression 1 - 0 | statements[] parameters[0:a] statements[]
({ [(() => x)]() { let x } }); let x; | Script 0 2 ExpressionStatement ObjectExpression 1 EagerMethod ComputedPropertyName EagerArrowExpressionWithExpression FormalParameters 0 - IdentifierExpression x 0 FunctionContents FormalParameters 0 - 1 LexicalDeclaration let 1 VariableDeclarator BindingIdentifier x - LexicalDeclaration let 1 VariableDeclarator BindingIdentifier x - | statements[let x*] parameters=[] parameters=[] statements[let x]";
    for row in rows.split('\n') {
        assert!(rt; row_holds(rt.alloc(), row), "{row}");
    }
    Ok(())
}

#[test]
fn arrows_have_parameters(rt: HostRuntime) -> Result<(), Fail> {
    let rows = "\
a => a | Script 0 1 ExpressionStatement EagerArrowExpressionWithExpression FormalParameters 1 BindingIdentifier a - IdentifierExpression a | statements[] parameters=[0:a]
(a, b) => a + b | Script 0 1 ExpressionStatement EagerArrowExpressionWithExpression FormalParameters 2 BindingIdentifier a BindingIdentifier b - BinaryExpression + IdentifierExpression a IdentifierExpression b | statements[] parameters=[0:a 1:b]
(a, b = a) => { a } | Script 0 1 ExpressionStatement EagerArrowExpressionWithFunctionBody 0 FunctionContents FormalParameters 2 BindingIdentifier a BindingWithInitializer BindingIdentifier b IdentifierExpression a - 1 ExpressionStatement IdentifierExpression a | statements[] parameters[0:a 1:b] statements[]
(...a) => a | Script 0 1 ExpressionStatement EagerArrowExpressionWithExpression FormalParameters 0 BindingIdentifier a IdentifierExpression a | statements[] parameters[...a]
() => { var x; let y } | Script 0 1 ExpressionStatement EagerArrowExpressionWithFunctionBody 0 FunctionContents FormalParameters 0 - 2 VarDeclaration 1 VariableDeclarator BindingIdentifier x - LexicalDeclaration let 1 VariableDeclarator BindingIdentifier y - | statements[] parameters=[] statements[var x let y]
a => b => a | Script 0 1 ExpressionStatement EagerArrowExpressionWithExpression FormalParameters 1 BindingIdentifier a - EagerArrowExpressionWithExpression FormalParameters 1 BindingIdentifier b - IdentifierExpression a | statements[] parameters=[0:a*] parameters=[0:b]
(a = () => a) => a | Script 0 1 ExpressionStatement EagerArrowExpressionWithExpression FormalParameters 1 BindingWithInitializer BindingIdentifier a EagerArrowExpressionWithExpression FormalParameters 0 - IdentifierExpression a - IdentifierExpression a | statements[] parameters[0:a*] parameters=[]
a => { (() => a) } | Script 0 1 ExpressionStatement EagerArrowExpressionWithFunctionBody 0 FunctionContents FormalParameters 1 BindingIdentifier a - 1 ExpressionStatement EagerArrowExpressionWithExpression FormalParameters 0 - IdentifierExpression a | statements[] parameters=[0:a*] statements[] parameters=[]
() => 1 | Script 0 1 ExpressionStatement EagerArrowExpressionWithExpression FormalParameters 0 - LiteralNumericExpression 1 | statements[] parameters=[]
x => { let x2; function f() { x2 } } | Script 0 1 ExpressionStatement EagerArrowExpressionWithFunctionBody 0 FunctionContents FormalParameters 1 BindingIdentifier x - 2 LexicalDeclaration let 1 VariableDeclarator BindingIdentifier x2 - EagerFunctionDeclaration BindingIdentifier f 0 FunctionContents FormalParameters 0 - 1 ExpressionStatement IdentifierExpression x2 | statements[] parameters=[0:x] statements[let x2* var f] parameters=[] statements[]
(a, b = () => a, ...c) => c | Script 0 1 ExpressionStatement EagerArrowExpressionWithExpression FormalParameters 2 BindingIdentifier a BindingWithInitializer BindingIdentifier b EagerArrowExpressionWithExpression FormalParameters 0 - IdentifierExpression a BindingIdentifier c IdentifierExpression c | statements[] parameters[0:a* 1:b ...c] parameters=[]";
    for row in rows.split('\n') {
        assert!(rt; row_holds(rt.alloc(), row), "{row}");
    }
    Ok(())
}

#[test]
fn direct_evals_are_told_by_all_scopes_around(rt: HostRuntime) -> Result<(), Fail> {
    let rows = "\
eval(\"1\") | Script 0 1 ExpressionStatement CallExpression IdentifierExpression eval 1 LiteralStringExpression 1 | statements![]
function f() { return eval(\"1\") } | Script 0 1 EagerFunctionDeclaration BindingIdentifier f 0 FunctionContents FormalParameters 0 - 1 ReturnStatement CallExpression IdentifierExpression eval 1 LiteralStringExpression 1 | statements![var f] parameters!=[] statements![]
{ let a; eval(\"1\") } { let b } | Script 0 2 Block 2 LexicalDeclaration let 1 VariableDeclarator BindingIdentifier a - ExpressionStatement CallExpression IdentifierExpression eval 1 LiteralStringExpression 1 Block 1 LexicalDeclaration let 1 VariableDeclarator BindingIdentifier b - | statements![] block![let a] block[let b]
(eval)(\"1\"); (0, eval)(\"1\"); | Script 0 2 ExpressionStatement CallExpression IdentifierExpression eval 1 LiteralStringExpression 1 ExpressionStatement CallExpression SequenceExpression LiteralNumericExpression 0 1 IdentifierExpression eval 1 LiteralStringExpression 1 | statements![]
eval; eval.call(a); a.eval(\"1\"); | Script 0 3 ExpressionStatement IdentifierExpression eval ExpressionStatement CallExpression StaticMemberExpression IdentifierExpression eval call 1 IdentifierExpression a ExpressionStatement CallExpression StaticMemberExpression IdentifierExpression a eval 1 LiteralStringExpression 1 | statements[]
new eval(\"1\") | Script 0 1 ExpressionStatement NewExpression IdentifierExpression eval 1 LiteralStringExpression 1 | statements[]
function f(a = eval(\"1\")) { } | Script 0 1 EagerFunctionDeclaration BindingIdentifier f 0 FunctionContents FormalParameters 1 BindingWithInitializer BindingIdentifier a CallExpression IdentifierExpression eval 1 LiteralStringExpression 1 - 0 | statements![var f] parameters![0:a] statements[]
function f() { var eval; eval(\"1\") } | Script 0 1 EagerFunctionDeclaration BindingIdentifier f 0 FunctionContents FormalParameters 0 - 2 VarDeclaration 1 VariableDeclarator BindingIdentifier eval - ExpressionStatement CallExpression IdentifierExpression eval 1 LiteralStringExpression 1 | statements![var f] parameters!=[] statements![var eval]
for (let i = eval(\"1\");;) ; | Script 0 1 ForStatement LexicalDeclaration let 1 VariableDeclarator BindingIdentifier i CallExpression IdentifierExpression eval 1 LiteralStringExpression 1 - - EmptyStatement | statements![] block![let i]
try { } catch (e) { eval(\"1\") } | Script 0 1 TryCatchStatement Block 0 CatchClause BindingIdentifier e Block 1 ExpressionStatement CallExpression IdentifierExpression eval 1 LiteralStringExpression 1 | statements![] block[] name![e] block![]
switch (eval(\"1\")) { case 1: let x } | Script 0 1 SwitchStatement CallExpression IdentifierExpression eval 1 LiteralStringExpression 1 1 SwitchCase LiteralNumericExpression 1 1 LexicalDeclaration let 1 VariableDeclarator BindingIdentifier x - | statements![] block[let x]
switch (a) { case eval(\"1\"): let x } | Script 0 1 SwitchStatement IdentifierExpression a 1 SwitchCase CallExpression IdentifierExpression eval 1 LiteralStringExpression 1 1 LexicalDeclaration let 1 VariableDeclarator BindingIdentifier x - | statements![] block![let x]
(function f() { eval(\"1\") }) | Script 0 1 ExpressionStatement EagerFunctionExpression BindingIdentifier f 0 FunctionContents FormalParameters 0 - 1 ExpressionStatement CallExpression IdentifierExpression eval 1 LiteralStringExpression 1 | statements![] name![f] parameters!=[] statements![]
x => eval(\"1\") | Script 0 1 ExpressionStatement EagerArrowExpressionWithExpression FormalParameters 1 BindingIdentifier x - CallExpression IdentifierExpression eval 1 LiteralStringExpression 1 | statements![] parameters!=[0:x]
({ set a(v) { eval(\"1\") } }) | Script 0 1 ExpressionStatement ObjectExpression 1 EagerSetter LiteralPropertyName a 0 SetterContents BindingIdentifier v 1 ExpressionStatement CallExpression IdentifierExpression eval 1 LiteralStringExpression 1 | statements![] parameters!=[0:v] statements![]
eval(eval) | Script 0 1 ExpressionStatement CallExpression IdentifierExpression eval 1 IdentifierExpression eval | statements![]
eval(() => { let x }) | Script 0 1 ExpressionStatement CallExpression IdentifierExpression eval 1 EagerArrowExpressionWithFunctionBody 0 FunctionContents FormalParameters 0 - 1 LexicalDeclaration let 1 VariableDeclarator BindingIdentifier x - | statements![] parameters=[] statements[let x]
var eval = 1; function f() { eval } | Script 0 2 VarDeclaration 1 VariableDeclarator BindingIdentifier eval LiteralNumericExpression 1 EagerFunctionDeclaration BindingIdentifier f 0 FunctionContents FormalParameters 0 - 1 ExpressionStatement IdentifierExpression eval | statements[var eval* var f] parameters=[] statements[]
f(eval(\"1\")); function g() { let x } | Script 0 2 ExpressionStatement CallExpression IdentifierExpression f 1 CallExpression IdentifierExpression eval 1 LiteralStringExpression 1 EagerFunctionDeclaration BindingIdentifier g 0 FunctionContents FormalParameters 0 - 1 LexicalDeclaration let 1 VariableDeclarator BindingIdentifier x - | statements![var g] parameters=[] statements[let x]";
    for row in rows.split('\n') {
        assert!(rt; row_holds(rt.alloc(), row), "{row}");
    }
    Ok(())
}

#[test]
fn names_that_are_words_elsewhere(rt: HostRuntime) -> Result<(), Fail> {
    let rows = "\
function f() { arguments } | Script 0 1 EagerFunctionDeclaration BindingIdentifier f 0 FunctionContents FormalParameters 0 - 1 ExpressionStatement IdentifierExpression arguments | statements[var f] parameters=[] statements[]
var arguments; function f() { arguments } | Script 0 2 VarDeclaration 1 VariableDeclarator BindingIdentifier arguments - EagerFunctionDeclaration BindingIdentifier f 0 FunctionContents FormalParameters 0 - 1 ExpressionStatement IdentifierExpression arguments | statements[var arguments* var f] parameters=[] statements[]
function f(arguments) { (() => arguments) } | Script 0 1 EagerFunctionDeclaration BindingIdentifier f 0 FunctionContents FormalParameters 1 BindingIdentifier arguments - 1 ExpressionStatement EagerArrowExpressionWithExpression FormalParameters 0 - IdentifierExpression arguments | statements[var f] parameters=[0:arguments*] statements[] parameters=[]
var of, get, set; for (of of get) set; | Script 0 2 VarDeclaration 3 VariableDeclarator BindingIdentifier of - VariableDeclarator BindingIdentifier get - VariableDeclarator BindingIdentifier set - ForOfStatement IdentifierExpression of IdentifierExpression get ExpressionStatement IdentifierExpression set | statements[var of var get var set] block[]
a: for (;;) { break a } var a; | Script 0 2 LabelledStatement a ForStatement - - - Block 1 BreakStatement a VarDeclaration 1 VariableDeclarator BindingIdentifier a - | statements[var a] block[] block[]
var undefined; (() => undefined); | Script 0 2 VarDeclaration 1 VariableDeclarator BindingIdentifier undefined - ExpressionStatement EagerArrowExpressionWithExpression FormalParameters 0 - IdentifierExpression undefined | statements[var undefined*] parameters=[]
function f() { this; (() => this) } | Script 0 1 EagerFunctionDeclaration BindingIdentifier f 0 FunctionContents FormalParameters 0 - 2 ExpressionStatement ThisExpression ExpressionStatement EagerArrowExpressionWithExpression FormalParameters 0 - ThisExpression | statements[var f] parameters=[] statements[] parameters=[]";
    for row in rows.split('\n') {
        assert!(rt; row_holds(rt.alloc(), row), "{row}");
    }
    Ok(())
}

#[test]
fn lazy_functions_are_annotated_and_made_eager(rt: HostRuntime) -> Result<(), Fail> {
    let words =
        "Script 0 1 LazyFunctionDeclaration BindingIdentifier f 0 FunctionContents FormalParameters 1 BindingIdentifier a - 1 ReturnStatement IdentifierExpression f";
    let wanted = "statements[var f*] parameters=[0:a] statements[]";
    assert!(rt; has_scopes(rt.alloc(), words, wanted));
    assert!(rt; is_eager(rt.alloc(), words));
    Ok(())
}
