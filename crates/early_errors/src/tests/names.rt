// Sources that declare names.
//
// Each row is a source, its tree as words, and its first early error: the rule, the number of the node and the name. The
// errors are those that an independent implementation gives.

use super::cases::row_holds;
use std::test::Fail;

#[test]
fn names_declared_twice_are_refused(rt: HostRuntime) -> Result<(), Fail> {
    let rows = "\
let a, a; | Script 0 1 LexicalDeclaration let 2 VariableDeclarator BindingIdentifier a - VariableDeclarator BindingIdentifier a - | E1 0 a
let a; const a = 1; | Script 0 2 LexicalDeclaration let 1 VariableDeclarator BindingIdentifier a - LexicalDeclaration const 1 VariableDeclarator BindingIdentifier a LiteralNumericExpression 1 | E1 0 a
{ let a; let a } | Script 0 1 Block 2 LexicalDeclaration let 1 VariableDeclarator BindingIdentifier a - LexicalDeclaration let 1 VariableDeclarator BindingIdentifier a - | E1 2 a
{ function a() { } function a() { } } | Script 0 1 Block 2 EagerFunctionDeclaration BindingIdentifier a 0 FunctionContents FormalParameters 0 - 0 EagerFunctionDeclaration BindingIdentifier a 0 FunctionContents FormalParameters 0 - 0 | E1 2 a
function a() { } function a() { } | Script 0 2 EagerFunctionDeclaration BindingIdentifier a 0 FunctionContents FormalParameters 0 - 0 EagerFunctionDeclaration BindingIdentifier a 0 FunctionContents FormalParameters 0 - 0 | none
var a; var a; | Script 0 2 VarDeclaration 1 VariableDeclarator BindingIdentifier a - VarDeclaration 1 VariableDeclarator BindingIdentifier a - | none
switch (1) { case 1: let a; break; default: let a } | Script 0 1 SwitchStatementWithDefault LiteralNumericExpression 1 1 SwitchCase LiteralNumericExpression 1 2 LexicalDeclaration let 1 VariableDeclarator BindingIdentifier a - BreakStatement - SwitchDefault 1 LexicalDeclaration let 1 VariableDeclarator BindingIdentifier a - 0 | E1 2 a
switch (1) { case 1: let a; case 2: function a() { } } | Script 0 1 SwitchStatement LiteralNumericExpression 1 2 SwitchCase LiteralNumericExpression 1 1 LexicalDeclaration let 1 VariableDeclarator BindingIdentifier a - SwitchCase LiteralNumericExpression 2 1 EagerFunctionDeclaration BindingIdentifier a 0 FunctionContents FormalParameters 0 - 0 | E1 2 a
for (let a, a; ; ) ; | Script 0 1 ForStatement LexicalDeclaration let 2 VariableDeclarator BindingIdentifier a - VariableDeclarator BindingIdentifier a - - - EmptyStatement | E1 2 a
for (let a of [1]) ; | Script 0 1 ForOfStatement ForInOfBinding let BindingIdentifier a ArrayExpression 1 LiteralNumericExpression 1 EmptyStatement | none
(function () { let a; let b; let b; let a }) | Script 0 1 ExpressionStatement EagerFunctionExpression - 0 FunctionContents FormalParameters 0 - 4 LexicalDeclaration let 1 VariableDeclarator BindingIdentifier a - LexicalDeclaration let 1 VariableDeclarator BindingIdentifier b - LexicalDeclaration let 1 VariableDeclarator BindingIdentifier b - LexicalDeclaration let 1 VariableDeclarator BindingIdentifier a - | E1 5 b
{ let a; { let a } } | Script 0 1 Block 2 LexicalDeclaration let 1 VariableDeclarator BindingIdentifier a - Block 1 LexicalDeclaration let 1 VariableDeclarator BindingIdentifier a - | none";
    for row in rows.split('\n') {
        assert!(rt; row_holds(rt.alloc(), row), "{row}");
    }
    Ok(())
}

#[test]
fn names_declared_by_let_and_var_are_refused(rt: HostRuntime) -> Result<(), Fail> {
    let rows = "\
let x; var x; | Script 0 2 LexicalDeclaration let 1 VariableDeclarator BindingIdentifier x - VarDeclaration 1 VariableDeclarator BindingIdentifier x - | E2 0 x
let x; function x() { } | Script 0 2 LexicalDeclaration let 1 VariableDeclarator BindingIdentifier x - EagerFunctionDeclaration BindingIdentifier x 0 FunctionContents FormalParameters 0 - 0 | E2 0 x
{ let x; { { var x } } } | Script 0 1 Block 2 LexicalDeclaration let 1 VariableDeclarator BindingIdentifier x - Block 1 Block 1 VarDeclaration 1 VariableDeclarator BindingIdentifier x - | E2 2 x
{ function x() { } var x } | Script 0 1 Block 2 EagerFunctionDeclaration BindingIdentifier x 0 FunctionContents FormalParameters 0 - 0 VarDeclaration 1 VariableDeclarator BindingIdentifier x - | E2 2 x
{ let x; (function () { var x }) } | Script 0 1 Block 2 LexicalDeclaration let 1 VariableDeclarator BindingIdentifier x - ExpressionStatement EagerFunctionExpression - 0 FunctionContents FormalParameters 0 - 1 VarDeclaration 1 VariableDeclarator BindingIdentifier x - | none
let x; for (var x in y) ; | Script 0 2 LexicalDeclaration let 1 VariableDeclarator BindingIdentifier x - ForInStatement ForInOfBinding var BindingIdentifier x IdentifierExpression y EmptyStatement | E2 0 x
let x; for (let x in y) ; | Script 0 2 LexicalDeclaration let 1 VariableDeclarator BindingIdentifier x - ForInStatement ForInOfBinding let BindingIdentifier x IdentifierExpression y EmptyStatement | none
(function () { let b, a; var a; var b }) | Script 0 1 ExpressionStatement EagerFunctionExpression - 0 FunctionContents FormalParameters 0 - 3 LexicalDeclaration let 2 VariableDeclarator BindingIdentifier b - VariableDeclarator BindingIdentifier a - VarDeclaration 1 VariableDeclarator BindingIdentifier a - VarDeclaration 1 VariableDeclarator BindingIdentifier b - | E2 5 b
switch (1) { case 1: let a; default: if (1) var a } | Script 0 1 SwitchStatementWithDefault LiteralNumericExpression 1 1 SwitchCase LiteralNumericExpression 1 1 LexicalDeclaration let 1 VariableDeclarator BindingIdentifier a - SwitchDefault 1 IfStatement LiteralNumericExpression 1 VarDeclaration 1 VariableDeclarator BindingIdentifier a - - 0 | E2 2 a";
    for row in rows.split('\n') {
        assert!(rt; row_holds(rt.alloc(), row), "{row}");
    }
    Ok(())
}

#[test]
fn caught_names_are_not_declared_again(rt: HostRuntime) -> Result<(), Fail> {
    let rows = "\
try { } catch (e) { let e } | Script 0 1 TryCatchStatement Block 0 CatchClause BindingIdentifier e Block 1 LexicalDeclaration let 1 VariableDeclarator BindingIdentifier e - | E14 5 e
try { } catch (e) { var e } | Script 0 1 TryCatchStatement Block 0 CatchClause BindingIdentifier e Block 1 VarDeclaration 1 VariableDeclarator BindingIdentifier e - | E14 5 e
try { } catch (e) { { var e } } | Script 0 1 TryCatchStatement Block 0 CatchClause BindingIdentifier e Block 1 Block 1 VarDeclaration 1 VariableDeclarator BindingIdentifier e - | E14 5 e
try { } catch (e) { { let e } } | Script 0 1 TryCatchStatement Block 0 CatchClause BindingIdentifier e Block 1 Block 1 LexicalDeclaration let 1 VariableDeclarator BindingIdentifier e - | none
try { } catch (e) { function e() { } } | Script 0 1 TryCatchStatement Block 0 CatchClause BindingIdentifier e Block 1 EagerFunctionDeclaration BindingIdentifier e 0 FunctionContents FormalParameters 0 - 0 | E14 5 e
try { } catch (e) { (function () { var e }) } finally { let e } | Script 0 1 TryFinallyStatement Block 0 CatchClause BindingIdentifier e Block 1 ExpressionStatement EagerFunctionExpression - 0 FunctionContents FormalParameters 0 - 1 VarDeclaration 1 VariableDeclarator BindingIdentifier e - Block 1 LexicalDeclaration let 1 VariableDeclarator BindingIdentifier e - | none
try { let e } catch (e) { } | Script 0 1 TryCatchStatement Block 1 LexicalDeclaration let 1 VariableDeclarator BindingIdentifier e - CatchClause BindingIdentifier e Block 0 | none";
    for row in rows.split('\n') {
        assert!(rt; row_holds(rt.alloc(), row), "{row}");
    }
    Ok(())
}

#[test]
fn names_of_a_head_are_not_var_names_of_the_body(rt: HostRuntime) -> Result<(), Fail> {
    let rows = "\
for (let i; ; ) { var i } | Script 0 1 ForStatement LexicalDeclaration let 1 VariableDeclarator BindingIdentifier i - - - Block 1 VarDeclaration 1 VariableDeclarator BindingIdentifier i - | E15 2 i
for (let i, j; ; ) { { var j, i } } | Script 0 1 ForStatement LexicalDeclaration let 2 VariableDeclarator BindingIdentifier i - VariableDeclarator BindingIdentifier j - - - Block 1 Block 1 VarDeclaration 2 VariableDeclarator BindingIdentifier j - VariableDeclarator BindingIdentifier i - | E15 2 i
for (let i in x) var i; | Script 0 1 ForInStatement ForInOfBinding let BindingIdentifier i IdentifierExpression x VarDeclaration 1 VariableDeclarator BindingIdentifier i - | E15 2 i
for (const i of x) { for (var i in x) ; } | Script 0 1 ForOfStatement ForInOfBinding const BindingIdentifier i IdentifierExpression x Block 1 ForInStatement ForInOfBinding var BindingIdentifier i IdentifierExpression x EmptyStatement | E15 2 i
for (let i of x) { let i } | Script 0 1 ForOfStatement ForInOfBinding let BindingIdentifier i IdentifierExpression x Block 1 LexicalDeclaration let 1 VariableDeclarator BindingIdentifier i - | none
for (var i; ; ) { var i } | Script 0 1 ForStatement VarDeclaration 1 VariableDeclarator BindingIdentifier i - - - Block 1 VarDeclaration 1 VariableDeclarator BindingIdentifier i - | none
for (let i; ; ) (function () { var i }); | Script 0 1 ForStatement LexicalDeclaration let 1 VariableDeclarator BindingIdentifier i - - - ExpressionStatement EagerFunctionExpression - 0 FunctionContents FormalParameters 0 - 1 VarDeclaration 1 VariableDeclarator BindingIdentifier i - | none
for (let i; ; ) { for (let i; ; ) ; } | Script 0 1 ForStatement LexicalDeclaration let 1 VariableDeclarator BindingIdentifier i - - - Block 1 ForStatement LexicalDeclaration let 1 VariableDeclarator BindingIdentifier i - - - EmptyStatement | none";
    for row in rows.split('\n') {
        assert!(rt; row_holds(rt.alloc(), row), "{row}");
    }
    Ok(())
}
