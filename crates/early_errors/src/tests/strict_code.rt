// Sources with strict code.
//
// Each row is a source, its tree as words, and its first early error: the rule, the number of the node and the name. The
// errors are those that an independent implementation gives.

use super::cases::row_holds;
use std::test::Fail;

#[test]
fn eval_and_arguments_are_not_bound_in_strict_code(rt: HostRuntime) -> Result<(), Fail> {
    let rows = "\
\"use strict\"; eval = 1; | Script 1 Directive USE 1 ExpressionStatement AssignmentExpression IdentifierExpression eval LiteralNumericExpression 1 | E6 5 eval
\"use strict\"; var eval; | Script 1 Directive USE 1 VarDeclaration 1 VariableDeclarator BindingIdentifier eval - | E6 5 eval
\"use strict\"; eval(1); | Script 1 Directive USE 1 ExpressionStatement CallExpression IdentifierExpression eval 1 LiteralNumericExpression 1 | none
\"use strict\"; arguments++; | Script 1 Directive USE 1 ExpressionStatement UpdateExpression false ++ IdentifierExpression arguments | E6 5 arguments
\"use strict\"; --arguments; | Script 1 Directive USE 1 ExpressionStatement UpdateExpression true -- IdentifierExpression arguments | E6 5 arguments
\"use strict\"; eval += 1; | Script 1 Directive USE 1 ExpressionStatement CompoundAssignmentExpression += IdentifierExpression eval LiteralNumericExpression 1 | E6 5 eval
\"use strict\"; for (eval in x) ; | Script 1 Directive USE 1 ForInStatement IdentifierExpression eval IdentifierExpression x EmptyStatement | E6 5 eval
\"use strict\"; for (var eval of x) ; | Script 1 Directive USE 1 ForOfStatement ForInOfBinding var BindingIdentifier eval IdentifierExpression x EmptyStatement | E6 6 eval
\"use strict\"; eval.a = 1; | Script 1 Directive USE 1 ExpressionStatement AssignmentExpression StaticMemberExpression IdentifierExpression eval a LiteralNumericExpression 1 | none
\"use strict\"; a[eval] = 1; | Script 1 Directive USE 1 ExpressionStatement AssignmentExpression ComputedMemberExpression IdentifierExpression a IdentifierExpression eval LiteralNumericExpression 1 | none
\"use strict\"; try { } catch (arguments) { } | Script 1 Directive USE 1 TryCatchStatement Block 0 CatchClause BindingIdentifier arguments Block 0 | E6 8 arguments
(function eval() { \"use strict\" }) | Script 0 1 ExpressionStatement EagerFunctionExpression BindingIdentifier eval 1 Directive USE FunctionContents FormalParameters 0 - 0 | E6 4 eval
(function eval() { }) | Script 0 1 ExpressionStatement EagerFunctionExpression BindingIdentifier eval 0 FunctionContents FormalParameters 0 - 0 | none
function arguments() { \"use strict\" } | Script 0 1 EagerFunctionDeclaration BindingIdentifier arguments 1 Directive USE FunctionContents FormalParameters 0 - 0 | E6 3 arguments
(function () { \"use strict\"; (function () { eval = 1 }) }) | Script 0 1 ExpressionStatement EagerFunctionExpression - 1 Directive USE FunctionContents FormalParameters 0 - 1 ExpressionStatement EagerFunctionExpression - 0 FunctionContents FormalParameters 0 - 1 ExpressionStatement AssignmentExpression IdentifierExpression eval LiteralNumericExpression 1 | E6 19 eval
(function () { \"use strict\" }); eval = 1; | Script 0 2 ExpressionStatement EagerFunctionExpression - 1 Directive USE FunctionContents FormalParameters 0 - 0 ExpressionStatement AssignmentExpression IdentifierExpression eval LiteralNumericExpression 1 | none
({ [eval = 1]() { \"use strict\" } }); | Script 0 1 ExpressionStatement ObjectExpression 1 EagerMethod ComputedPropertyName AssignmentExpression IdentifierExpression eval LiteralNumericExpression 1 1 Directive USE FunctionContents FormalParameters 0 - 0 | none
({ [() => eval = 1]() { \"use strict\" } }); | Script 0 1 ExpressionStatement ObjectExpression 1 EagerMethod ComputedPropertyName EagerArrowExpressionWithExpression FormalParameters 0 - AssignmentExpression IdentifierExpression eval LiteralNumericExpression 1 1 Directive USE FunctionContents FormalParameters 0 - 0 | none
({ m(eval) { \"use strict\" } }); | Script 0 1 ExpressionStatement ObjectExpression 1 EagerMethod LiteralPropertyName m 1 Directive USE FunctionContents FormalParameters 1 BindingIdentifier eval - 0 | E6 10 eval";
    for row in rows.split('\n') {
        assert!(rt; row_holds(rt.alloc(), row), "{row}");
    }
    Ok(())
}

#[test]
fn names_are_not_deleted_in_strict_code(rt: HostRuntime) -> Result<(), Fail> {
    let rows = "\
\"use strict\"; delete x; | Script 1 Directive USE 1 ExpressionStatement UnaryExpression delete IdentifierExpression x | E7 4 x
\"use strict\"; delete x.y; | Script 1 Directive USE 1 ExpressionStatement UnaryExpression delete StaticMemberExpression IdentifierExpression x y | none
\"use strict\"; delete x[y]; | Script 1 Directive USE 1 ExpressionStatement UnaryExpression delete ComputedMemberExpression IdentifierExpression x IdentifierExpression y | none
\"use strict\"; void x; | Script 1 Directive USE 1 ExpressionStatement UnaryExpression void IdentifierExpression x | none
delete x; | Script 0 1 ExpressionStatement UnaryExpression delete IdentifierExpression x | none
(() => { \"use strict\"; delete x }); | Script 0 1 ExpressionStatement EagerArrowExpressionWithFunctionBody 1 Directive USE FunctionContents FormalParameters 0 - 1 ExpressionStatement UnaryExpression delete IdentifierExpression x | E7 10 x
({ get [delete x]() { \"use strict\" } }); | Script 0 1 ExpressionStatement ObjectExpression 1 EagerGetter ComputedPropertyName UnaryExpression delete IdentifierExpression x 1 Directive USE GetterContents 0 | none";
    for row in rows.split('\n') {
        assert!(rt; row_holds(rt.alloc(), row), "{row}");
    }
    Ok(())
}

#[test]
fn words_of_strict_code(rt: HostRuntime) -> Result<(), Fail> {
    let rows = "\
\"use strict\"; static; | Script 1 Directive USE 1 ExpressionStatement IdentifierExpression static | E8 4 static
\"use strict\"; var public; | Script 1 Directive USE 1 VarDeclaration 1 VariableDeclarator BindingIdentifier public - | E8 5 public
\"use strict\"; private: ; | Script 1 Directive USE 1 LabelledStatement private EmptyStatement | E8 3 private
\"use strict\"; implements: while (1) break implements; | Script 1 Directive USE 1 LabelledStatement implements WhileStatement LiteralNumericExpression 1 BreakStatement implements | E8 3 implements
\"use strict\"; x.static; | Script 1 Directive USE 1 ExpressionStatement StaticMemberExpression IdentifierExpression x static | none
\"use strict\"; ({ static: 1 }); | Script 1 Directive USE 1 ExpressionStatement ObjectExpression 1 DataProperty LiteralPropertyName static LiteralNumericExpression 1 | none
static; | Script 0 1 ExpressionStatement IdentifierExpression static | none
\"use strict\"; ({ interface }); | Script 1 Directive USE 1 ExpressionStatement ObjectExpression 1 ShorthandProperty IdentifierExpression interface | E8 6 interface";
    for row in rows.split('\n') {
        assert!(rt; row_holds(rt.alloc(), row), "{row}");
    }
    Ok(())
}
