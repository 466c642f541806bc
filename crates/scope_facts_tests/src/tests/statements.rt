// Sources whose statements declare names.
//
// Each row is a source, its tree as words, and its scopes in preorder: `!` for a direct eval, `=` for simple parameters, and the entries, with `*` where they are captured.

use super::cases::row_holds;
use std::test::Fail;

#[test]
fn declarations_are_told_with_their_kinds(rt: HostRuntime) -> Result<(), Fail> {
    let rows = "\
x; | Script 0 1 ExpressionStatement IdentifierExpression x | statements[]
var x; x; | Script 0 2 VarDeclaration 1 VariableDeclarator BindingIdentifier x - ExpressionStatement IdentifierExpression x | statements[var x]
let x; x; | Script 0 2 LexicalDeclaration let 1 VariableDeclarator BindingIdentifier x - ExpressionStatement IdentifierExpression x | statements[let x]
const x = 1; x; | Script 0 2 LexicalDeclaration const 1 VariableDeclarator BindingIdentifier x LiteralNumericExpression 1 ExpressionStatement IdentifierExpression x | statements[const x]
function f() {} | Script 0 1 EagerFunctionDeclaration BindingIdentifier f 0 FunctionContents FormalParameters 0 - 0 | statements[var f] parameters=[] statements[]
var a, b, a; | Script 0 1 VarDeclaration 3 VariableDeclarator BindingIdentifier a - VariableDeclarator BindingIdentifier b - VariableDeclarator BindingIdentifier a - | statements[var a var b]
let a; const b = a; var c; | Script 0 3 LexicalDeclaration let 1 VariableDeclarator BindingIdentifier a - LexicalDeclaration const 1 VariableDeclarator BindingIdentifier b IdentifierExpression a VarDeclaration 1 VariableDeclarator BindingIdentifier c - | statements[let a const b var c]
c = 1; b = 2; var b, c; | Script 0 3 ExpressionStatement AssignmentExpression IdentifierExpression c LiteralNumericExpression 1 ExpressionStatement AssignmentExpression IdentifierExpression b LiteralNumericExpression 2 VarDeclaration 2 VariableDeclarator BindingIdentifier b - VariableDeclarator BindingIdentifier c - | statements[var b var c]
var f; function f() {} var f; | Script 0 3 VarDeclaration 1 VariableDeclarator BindingIdentifier f - EagerFunctionDeclaration BindingIdentifier f 0 FunctionContents FormalParameters 0 - 0 VarDeclaration 1 VariableDeclarator BindingIdentifier f - | statements[var f] parameters=[] statements[]
let z; var a; function m() {} | Script 0 3 LexicalDeclaration let 1 VariableDeclarator BindingIdentifier z - VarDeclaration 1 VariableDeclarator BindingIdentifier a - EagerFunctionDeclaration BindingIdentifier m 0 FunctionContents FormalParameters 0 - 0 | statements[let z var a var m] parameters=[] statements[]
var x = 1; { var y; { var z; } } | Script 0 2 VarDeclaration 1 VariableDeclarator BindingIdentifier x LiteralNumericExpression 1 Block 2 VarDeclaration 1 VariableDeclarator BindingIdentifier y - Block 1 VarDeclaration 1 VariableDeclarator BindingIdentifier z - | statements[var x var y var z] block[] block[]
a: var x; | Script 0 1 LabelledStatement a VarDeclaration 1 VariableDeclarator BindingIdentifier x - | statements[var x]";
    for row in rows.split('\n') {
        assert!(rt; row_holds(rt.alloc(), row), "{row}");
    }
    Ok(())
}

#[test]
fn var_names_come_from_nested_statements(rt: HostRuntime) -> Result<(), Fail> {
    let rows = "\
if (a) { var x } else { var y } | Script 0 1 IfStatement IdentifierExpression a Block 1 VarDeclaration 1 VariableDeclarator BindingIdentifier x - Block 1 VarDeclaration 1 VariableDeclarator BindingIdentifier y - | statements[var x var y] block[] block[]
for (var i = 0, j;;) var k; | Script 0 1 ForStatement VarDeclaration 2 VariableDeclarator BindingIdentifier i LiteralNumericExpression 0 VariableDeclarator BindingIdentifier j - - - VarDeclaration 1 VariableDeclarator BindingIdentifier k - | statements[var i var j var k] block[]
for (var i in a) var j; | Script 0 1 ForInStatement ForInOfBinding var BindingIdentifier i IdentifierExpression a VarDeclaration 1 VariableDeclarator BindingIdentifier j - | statements[var i var j] block[]
for (var i of a) { var j } | Script 0 1 ForOfStatement ForInOfBinding var BindingIdentifier i IdentifierExpression a Block 1 VarDeclaration 1 VariableDeclarator BindingIdentifier j - | statements[var i var j] block[] block[]
while (a) { var x } | Script 0 1 WhileStatement IdentifierExpression a Block 1 VarDeclaration 1 VariableDeclarator BindingIdentifier x - | statements[var x] block[]
do { var x } while (a) | Script 0 1 DoWhileStatement Block 1 VarDeclaration 1 VariableDeclarator BindingIdentifier x - IdentifierExpression a | statements[var x] block[]
switch (a) { case 1: var x; default: var y } | Script 0 1 SwitchStatementWithDefault IdentifierExpression a 1 SwitchCase LiteralNumericExpression 1 1 VarDeclaration 1 VariableDeclarator BindingIdentifier x - SwitchDefault 1 VarDeclaration 1 VariableDeclarator BindingIdentifier y - 0 | statements[var x var y] block[]
try { var x } catch (e) { var y } finally { var z } | Script 0 1 TryFinallyStatement Block 1 VarDeclaration 1 VariableDeclarator BindingIdentifier x - CatchClause BindingIdentifier e Block 1 VarDeclaration 1 VariableDeclarator BindingIdentifier y - Block 1 VarDeclaration 1 VariableDeclarator BindingIdentifier z - | statements[var x var y var z] block[] name[e] block[] block[]
{ { var x } let x2 } | Script 0 1 Block 2 Block 1 VarDeclaration 1 VariableDeclarator BindingIdentifier x - LexicalDeclaration let 1 VariableDeclarator BindingIdentifier x2 - | statements[var x] block[let x2] block[]
var a; function f() { var b; { var c } } | Script 0 2 VarDeclaration 1 VariableDeclarator BindingIdentifier a - EagerFunctionDeclaration BindingIdentifier f 0 FunctionContents FormalParameters 0 - 2 VarDeclaration 1 VariableDeclarator BindingIdentifier b - Block 1 VarDeclaration 1 VariableDeclarator BindingIdentifier c - | statements[var a var f] parameters=[] statements[var b var c] block[]
var a = function () { var b }, c; | Script 0 1 VarDeclaration 2 VariableDeclarator BindingIdentifier a EagerFunctionExpression - 0 FunctionContents FormalParameters 0 - 1 VarDeclaration 1 VariableDeclarator BindingIdentifier b - VariableDeclarator BindingIdentifier c - | statements[var a var c] name[] parameters=[] statements[var b]";
    for row in rows.split('\n') {
        assert!(rt; row_holds(rt.alloc(), row), "{row}");
    }
    Ok(())
}

#[test]
fn blocks_declare_lexical_names_and_functions(rt: HostRuntime) -> Result<(), Fail> {
    let rows = "\
{ let a; const b = 1; var c } | Script 0 1 Block 3 LexicalDeclaration let 1 VariableDeclarator BindingIdentifier a - LexicalDeclaration const 1 VariableDeclarator BindingIdentifier b LiteralNumericExpression 1 VarDeclaration 1 VariableDeclarator BindingIdentifier c - | statements[var c] block[let a const b]
{ function f() {} } | Script 0 1 Block 1 EagerFunctionDeclaration BindingIdentifier f 0 FunctionContents FormalParameters 0 - 0 | statements[] block[let f] parameters=[] statements[]
{ function f() {} { function g() {} } } | Script 0 1 Block 2 EagerFunctionDeclaration BindingIdentifier f 0 FunctionContents FormalParameters 0 - 0 Block 1 EagerFunctionDeclaration BindingIdentifier g 0 FunctionContents FormalParameters 0 - 0 | statements[] block[let f] parameters=[] statements[] block[let g] parameters=[] statements[]
{ let a; { let a; a } a } | Script 0 1 Block 3 LexicalDeclaration let 1 VariableDeclarator BindingIdentifier a - Block 2 LexicalDeclaration let 1 VariableDeclarator BindingIdentifier a - ExpressionStatement IdentifierExpression a ExpressionStatement IdentifierExpression a | statements[] block[let a] block[let a]
{ x; let x } | Script 0 1 Block 2 ExpressionStatement IdentifierExpression x LexicalDeclaration let 1 VariableDeclarator BindingIdentifier x - | statements[] block[let x]
if (a) { let b; b } | Script 0 1 IfStatement IdentifierExpression a Block 2 LexicalDeclaration let 1 VariableDeclarator BindingIdentifier b - ExpressionStatement IdentifierExpression b - | statements[] block[let b]
{ function f() { f } } | Script 0 1 Block 1 EagerFunctionDeclaration BindingIdentifier f 0 FunctionContents FormalParameters 0 - 1 ExpressionStatement IdentifierExpression f | statements[] block[let f*] parameters=[] statements[]
{ let x; function f() { x } } | Script 0 1 Block 2 LexicalDeclaration let 1 VariableDeclarator BindingIdentifier x - EagerFunctionDeclaration BindingIdentifier f 0 FunctionContents FormalParameters 0 - 1 ExpressionStatement IdentifierExpression x | statements[] block[let x* let f] parameters=[] statements[]
{ const c = 1; (() => c) } | Script 0 1 Block 2 LexicalDeclaration const 1 VariableDeclarator BindingIdentifier c LiteralNumericExpression 1 ExpressionStatement EagerArrowExpressionWithExpression FormalParameters 0 - IdentifierExpression c | statements[] block[const c*] parameters=[]
{ let a; (function () { a = 1 }) } | Script 0 1 Block 2 LexicalDeclaration let 1 VariableDeclarator BindingIdentifier a - ExpressionStatement EagerFunctionExpression - 0 FunctionContents FormalParameters 0 - 1 ExpressionStatement AssignmentExpression IdentifierExpression a LiteralNumericExpression 1 | statements[] block[let a*] name[] parameters=[] statements[]
{ } | Script 0 1 Block 0 | statements[] block[]";
    for row in rows.split('\n') {
        assert!(rt; row_holds(rt.alloc(), row), "{row}");
    }
    Ok(())
}

#[test]
fn switches_declare_for_all_their_cases(rt: HostRuntime) -> Result<(), Fail> {
    let rows = "\
switch (a) { case 1: let x; case 2: const y = x } | Script 0 1 SwitchStatement IdentifierExpression a 2 SwitchCase LiteralNumericExpression 1 1 LexicalDeclaration let 1 VariableDeclarator BindingIdentifier x - SwitchCase LiteralNumericExpression 2 1 LexicalDeclaration const 1 VariableDeclarator BindingIdentifier y IdentifierExpression x | statements[] block[let x const y]
switch (x) { case 1: let x; default: let z; case 2: let y } | Script 0 1 SwitchStatementWithDefault IdentifierExpression x 1 SwitchCase LiteralNumericExpression 1 1 LexicalDeclaration let 1 VariableDeclarator BindingIdentifier x - SwitchDefault 1 LexicalDeclaration let 1 VariableDeclarator BindingIdentifier z - 1 SwitchCase LiteralNumericExpression 2 1 LexicalDeclaration let 1 VariableDeclarator BindingIdentifier y - | statements[] block[let x let z let y]
switch (a) { default: function f() {} } | Script 0 1 SwitchStatementWithDefault IdentifierExpression a 0 SwitchDefault 1 EagerFunctionDeclaration BindingIdentifier f 0 FunctionContents FormalParameters 0 - 0 0 | statements[] block[let f] parameters=[] statements[]
switch (() => x) { case 1: let x } | Script 0 1 SwitchStatement EagerArrowExpressionWithExpression FormalParameters 0 - IdentifierExpression x 1 SwitchCase LiteralNumericExpression 1 1 LexicalDeclaration let 1 VariableDeclarator BindingIdentifier x - | statements[] parameters=[] block[let x]
switch (a) { case (() => x): let x } | Script 0 1 SwitchStatement IdentifierExpression a 1 SwitchCase EagerArrowExpressionWithExpression FormalParameters 0 - IdentifierExpression x 1 LexicalDeclaration let 1 VariableDeclarator BindingIdentifier x - | statements[] block[let x*] parameters=[]
switch (a) { case 1: let x; default: (() => x) } | Script 0 1 SwitchStatementWithDefault IdentifierExpression a 1 SwitchCase LiteralNumericExpression 1 1 LexicalDeclaration let 1 VariableDeclarator BindingIdentifier x - SwitchDefault 1 ExpressionStatement EagerArrowExpressionWithExpression FormalParameters 0 - IdentifierExpression x 0 | statements[] block[let x*] parameters=[]";
    for row in rows.split('\n') {
        assert!(rt; row_holds(rt.alloc(), row), "{row}");
    }
    Ok(())
}

#[test]
fn heads_of_for_statements_declare_names(rt: HostRuntime) -> Result<(), Fail> {
    let rows = "\
for (let i = 0; i < 9; i++) { i } | Script 0 1 ForStatement LexicalDeclaration let 1 VariableDeclarator BindingIdentifier i LiteralNumericExpression 0 BinaryExpression < IdentifierExpression i LiteralNumericExpression 9 UpdateExpression false ++ IdentifierExpression i Block 1 ExpressionStatement IdentifierExpression i | statements[] block[let i] block[]
for (const i = 0;;) ; | Script 0 1 ForStatement LexicalDeclaration const 1 VariableDeclarator BindingIdentifier i LiteralNumericExpression 0 - - EmptyStatement | statements[] block[const i]
for (let i, j;;) (() => i); | Script 0 1 ForStatement LexicalDeclaration let 2 VariableDeclarator BindingIdentifier i - VariableDeclarator BindingIdentifier j - - - ExpressionStatement EagerArrowExpressionWithExpression FormalParameters 0 - IdentifierExpression i | statements[] block[let i* let j] parameters=[]
for (let k in a) { k } | Script 0 1 ForInStatement ForInOfBinding let BindingIdentifier k IdentifierExpression a Block 1 ExpressionStatement IdentifierExpression k | statements[] block[let k] block[]
for (const k in a) (() => k); | Script 0 1 ForInStatement ForInOfBinding const BindingIdentifier k IdentifierExpression a ExpressionStatement EagerArrowExpressionWithExpression FormalParameters 0 - IdentifierExpression k | statements[] block[const k*] parameters=[]
for (let k of k) ; | Script 0 1 ForOfStatement ForInOfBinding let BindingIdentifier k IdentifierExpression k EmptyStatement | statements[] block[let k]
for (const k of a) { let k; k } | Script 0 1 ForOfStatement ForInOfBinding const BindingIdentifier k IdentifierExpression a Block 2 LexicalDeclaration let 1 VariableDeclarator BindingIdentifier k - ExpressionStatement IdentifierExpression k | statements[] block[const k] block[let k]
for (var k of a) (() => k); | Script 0 1 ForOfStatement ForInOfBinding var BindingIdentifier k IdentifierExpression a ExpressionStatement EagerArrowExpressionWithExpression FormalParameters 0 - IdentifierExpression k | statements[var k*] block[] parameters=[]
for (k in a) ; | Script 0 1 ForInStatement IdentifierExpression k IdentifierExpression a EmptyStatement | statements[] block[]
for (let i = () => i;;) ; | Script 0 1 ForStatement LexicalDeclaration let 1 VariableDeclarator BindingIdentifier i EagerArrowExpressionWithExpression FormalParameters 0 - IdentifierExpression i - - EmptyStatement | statements[] block[let i*] parameters=[]
for (let i;;) { function f() { i } } | Script 0 1 ForStatement LexicalDeclaration let 1 VariableDeclarator BindingIdentifier i - - - Block 1 EagerFunctionDeclaration BindingIdentifier f 0 FunctionContents FormalParameters 0 - 1 ExpressionStatement IdentifierExpression i | statements[] block[let i*] block[let f] parameters=[] statements[]
for (a.b of c) ; | Script 0 1 ForOfStatement StaticMemberExpression IdentifierExpression a b IdentifierExpression c EmptyStatement | statements[] block[]";
    for row in rows.split('\n') {
        assert!(rt; row_holds(rt.alloc(), row), "{row}");
    }
    Ok(())
}

#[test]
fn catch_clauses_declare_a_name(rt: HostRuntime) -> Result<(), Fail> {
    let rows = "\
try { } catch (e) { e } | Script 0 1 TryCatchStatement Block 0 CatchClause BindingIdentifier e Block 1 ExpressionStatement IdentifierExpression e | statements[] block[] name[e] block[]
try { e } catch (e) { } | Script 0 1 TryCatchStatement Block 1 ExpressionStatement IdentifierExpression e CatchClause BindingIdentifier e Block 0 | statements[] block[] name[e] block[]
try { } catch (e) { (() => e) } | Script 0 1 TryCatchStatement Block 0 CatchClause BindingIdentifier e Block 1 ExpressionStatement EagerArrowExpressionWithExpression FormalParameters 0 - IdentifierExpression e | statements[] block[] name[e*] block[] parameters=[]
try { (() => e) } catch (e) { } | Script 0 1 TryCatchStatement Block 1 ExpressionStatement EagerArrowExpressionWithExpression FormalParameters 0 - IdentifierExpression e CatchClause BindingIdentifier e Block 0 | statements[] block[] parameters=[] name[e] block[]
try { } catch (e) { let f; } finally { (() => e) } | Script 0 1 TryFinallyStatement Block 0 CatchClause BindingIdentifier e Block 1 LexicalDeclaration let 1 VariableDeclarator BindingIdentifier f - Block 1 ExpressionStatement EagerArrowExpressionWithExpression FormalParameters 0 - IdentifierExpression e | statements[] block[] name[e] block[let f] block[] parameters=[]
try { } catch (e) { { let e; (() => e) } } | Script 0 1 TryCatchStatement Block 0 CatchClause BindingIdentifier e Block 1 Block 2 LexicalDeclaration let 1 VariableDeclarator BindingIdentifier e - ExpressionStatement EagerArrowExpressionWithExpression FormalParameters 0 - IdentifierExpression e | statements[] block[] name[e] block[] block[let e*] parameters=[]
try { } finally { let x } | Script 0 1 TryFinallyStatement Block 0 - Block 1 LexicalDeclaration let 1 VariableDeclarator BindingIdentifier x - | statements[] block[] block[let x]";
    for row in rows.split('\n') {
        assert!(rt; row_holds(rt.alloc(), row), "{row}");
    }
    Ok(())
}
