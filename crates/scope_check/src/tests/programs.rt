// Scripts whose scopes say something.
//
// Each row is a source, its tree as words, and its first violation: the rule, the number of the node and the name. An
// entry is told by its name, its kind and whether it is captured; a scope by its entries and whether it tells a direct
// eval.

use super::cases::row_holds;
use std::test::Fail;

#[test]
fn scopes_declare_their_names(rt: HostRuntime) -> Result<(), Fail> {
    let rows = "\
let x; x; | Script 0 Global 0 false 2 LexicalDeclaration let 1 VariableDeclarator BindingIdentifier x - ExpressionStatement IdentifierExpression x | A1 1 x
let x; x; | Script 0 Global 1 Declared x let false false 2 LexicalDeclaration let 1 VariableDeclarator BindingIdentifier x - ExpressionStatement IdentifierExpression x | none
let x; x; | Script 0 Global 1 Declared x const false false 2 LexicalDeclaration let 1 VariableDeclarator BindingIdentifier x - ExpressionStatement IdentifierExpression x | A1 1 x
{ let x; } | Script 0 Global 0 false 1 Block BlockScope 0 false 1 LexicalDeclaration let 1 VariableDeclarator BindingIdentifier x - | A1 3 x
((a) => a) | Script 0 Global 0 false 1 ExpressionStatement EagerArrowExpressionWithExpression Parameters 1 Place 0 a false false true FormalParameters 1 BindingIdentifier a - IdentifierExpression a | none
((a) => a) | Script 0 Global 0 false 1 ExpressionStatement EagerArrowExpressionWithExpression Parameters 1 Place 0 a false false false FormalParameters 1 BindingIdentifier a - IdentifierExpression a | A4 4
((a) => a) | Script 0 Global 0 false 1 ExpressionStatement EagerArrowExpressionWithExpression Parameters 1 Place 1 a false false true FormalParameters 1 BindingIdentifier a - IdentifierExpression a | A4 4 a
try { } catch (a) { } | Script 0 Global 0 false 1 TryCatchStatement Block BlockScope 0 false 0 CatchClause Names 0 false BindingIdentifier a Block BlockScope 0 false 0 | A5 6 a
try { } catch (a) { } | Script 0 Global 0 false 1 TryCatchStatement Block BlockScope 0 false 0 CatchClause Names 1 Bound a false false BindingIdentifier a Block BlockScope 0 false 0 | none";
    for row in rows.split('\n') {
        assert!(rt; row_holds(rt.alloc(), row), "{row}");
    }
    Ok(())
}

#[test]
fn uses_find_captured_names(rt: HostRuntime) -> Result<(), Fail> {
    let rows = "\
var x; x; | Script 0 Global 1 Declared x var false false 2 VarDeclaration 1 VariableDeclarator BindingIdentifier x - ExpressionStatement IdentifierExpression x | none
var x; function f() { x } | Script 0 Global 2 Declared x var false Declared f var false false 2 VarDeclaration 1 VariableDeclarator BindingIdentifier x - EagerFunctionDeclaration BindingIdentifier f 0 FunctionContents Parameters 0 false true FormalParameters 0 - Var 0 false 1 ExpressionStatement IdentifierExpression x | A2 14 x
var x; function f() { x } | Script 0 Global 2 Declared x var true Declared f var false false 2 VarDeclaration 1 VariableDeclarator BindingIdentifier x - EagerFunctionDeclaration BindingIdentifier f 0 FunctionContents Parameters 0 false true FormalParameters 0 - Var 0 false 1 ExpressionStatement IdentifierExpression x | none
var x; ((x) => x) | Script 0 Global 1 Declared x var false false 2 VarDeclaration 1 VariableDeclarator BindingIdentifier x - ExpressionStatement EagerArrowExpressionWithExpression Parameters 1 Place 0 x false false true FormalParameters 1 BindingIdentifier x - IdentifierExpression x | none
var x; let x; (() => x) | Script 0 Global 2 Declared x var true Declared x let false false 3 VarDeclaration 1 VariableDeclarator BindingIdentifier x - LexicalDeclaration let 1 VariableDeclarator BindingIdentifier x - ExpressionStatement EagerArrowExpressionWithExpression Parameters 0 false true FormalParameters 0 - IdentifierExpression x | A2 14 x
var x; let x; (() => x) | Script 0 Global 2 Declared x var false Declared x let true false 3 VarDeclaration 1 VariableDeclarator BindingIdentifier x - LexicalDeclaration let 1 VariableDeclarator BindingIdentifier x - ExpressionStatement EagerArrowExpressionWithExpression Parameters 0 false true FormalParameters 0 - IdentifierExpression x | A2 14 x
var x; let x; (() => x) | Script 0 Global 2 Declared x var true Declared x let true false 3 VarDeclaration 1 VariableDeclarator BindingIdentifier x - LexicalDeclaration let 1 VariableDeclarator BindingIdentifier x - ExpressionStatement EagerArrowExpressionWithExpression Parameters 0 false true FormalParameters 0 - IdentifierExpression x | none
(function f() { f }) | Script 0 Global 0 false 1 ExpressionStatement EagerFunctionExpression BindingIdentifier f Names 1 Bound f false false 0 FunctionContents Parameters 0 false true FormalParameters 0 - Var 0 false 1 ExpressionStatement IdentifierExpression f | A2 12 f
(function f() { f }) | Script 0 Global 0 false 1 ExpressionStatement EagerFunctionExpression BindingIdentifier f Names 1 Bound f true false 0 FunctionContents Parameters 0 false true FormalParameters 0 - Var 0 false 1 ExpressionStatement IdentifierExpression f | none";
    for row in rows.split('\n') {
        assert!(rt; row_holds(rt.alloc(), row), "{row}");
    }
    Ok(())
}

#[test]
fn a_scope_ends_with_its_node(rt: HostRuntime) -> Result<(), Fail> {
    let rows = "\
var a; { let a; (() => a) } (() => a) | Script 0 Global 1 Declared a var false false 3 VarDeclaration 1 VariableDeclarator BindingIdentifier a - Block BlockScope 1 Declared a let true false 2 LexicalDeclaration let 1 VariableDeclarator BindingIdentifier a - ExpressionStatement EagerArrowExpressionWithExpression Parameters 0 false true FormalParameters 0 - IdentifierExpression a ExpressionStatement EagerArrowExpressionWithExpression Parameters 0 false true FormalParameters 0 - IdentifierExpression a | A2 21 a
var a; { let a; (() => a) } (() => a) | Script 0 Global 1 Declared a var true false 3 VarDeclaration 1 VariableDeclarator BindingIdentifier a - Block BlockScope 1 Declared a let false false 2 LexicalDeclaration let 1 VariableDeclarator BindingIdentifier a - ExpressionStatement EagerArrowExpressionWithExpression Parameters 0 false true FormalParameters 0 - IdentifierExpression a ExpressionStatement EagerArrowExpressionWithExpression Parameters 0 false true FormalParameters 0 - IdentifierExpression a | A2 16 a
{ let a; } eval(); | Script 0 Global 0 true 2 Block BlockScope 1 Declared a let false false 1 LexicalDeclaration let 1 VariableDeclarator BindingIdentifier a - ExpressionStatement CallExpression IdentifierExpression eval 0 | none";
    for row in rows.split('\n') {
        assert!(rt; row_holds(rt.alloc(), row), "{row}");
    }
    Ok(())
}

#[test]
fn scopes_tell_direct_evals(rt: HostRuntime) -> Result<(), Fail> {
    let rows = "\
eval('1'); | Script 0 Global 0 false 1 ExpressionStatement CallExpression IdentifierExpression eval 1 LiteralStringExpression 1 | A3 3 eval
eval('1'); | Script 0 Global 0 true 1 ExpressionStatement CallExpression IdentifierExpression eval 1 LiteralStringExpression 1 | none
evil('1'); | Script 0 Global 0 false 1 ExpressionStatement CallExpression IdentifierExpression evil 1 LiteralStringExpression eval | none
(() => eval()) | Script 0 Global 0 true 1 ExpressionStatement EagerArrowExpressionWithExpression Parameters 0 false true FormalParameters 0 - CallExpression IdentifierExpression eval 0 | A3 6 eval
(() => eval()) | Script 0 Global 0 false 1 ExpressionStatement EagerArrowExpressionWithExpression Parameters 0 true true FormalParameters 0 - CallExpression IdentifierExpression eval 0 | A3 6 eval
(() => eval()) | Script 0 Global 0 true 1 ExpressionStatement EagerArrowExpressionWithExpression Parameters 0 true true FormalParameters 0 - CallExpression IdentifierExpression eval 0 | none
eval(); var x; (() => x) | Script 0 Global 1 Declared x var false false 3 ExpressionStatement CallExpression IdentifierExpression eval 0 VarDeclaration 1 VariableDeclarator BindingIdentifier x - ExpressionStatement EagerArrowExpressionWithExpression Parameters 0 false true FormalParameters 0 - IdentifierExpression x | A3 4 eval";
    for row in rows.split('\n') {
        assert!(rt; row_holds(rt.alloc(), row), "{row}");
    }
    Ok(())
}
