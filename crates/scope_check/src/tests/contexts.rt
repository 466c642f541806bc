// The contents of functions, inside the scopes that cover them from outside.
use super::cases::is_found;
use std::test::Fail;

const USE: &str = "GetterContents Var 0 false 1 ExpressionStatement IdentifierExpression a";

const OWN: &str =
    "GetterContents Var 1 Declared a var false false 2 VarDeclaration 1 VariableDeclarator BindingIdentifier a - ExpressionStatement IdentifierExpression a";

const EVAL: &str =
    "GetterContents Var 0 true 1 ExpressionStatement CallExpression IdentifierExpression eval 0";

#[test]
fn contents_use_what_is_around(rt: HostRuntime) -> Result<(), Fail> {
    let alloc = rt.alloc();
    assert!(rt; is_found(alloc, &[], USE, "none"));
    assert!(rt; is_found(alloc, &[(false, true)], USE, "A2 3 a"));
    assert!(rt; is_found(alloc, &[(true, true)], USE, "none"));
    assert!(rt; is_found(alloc, &[(true, true), (false, true)], USE, "A2 3 a"));
    assert!(rt; is_found(alloc, &[(false, true), (true, true)], USE, "none"));
    assert!(rt; is_found(alloc, &[(false, true)], OWN, "none"));
    Ok(())
}

#[test]
fn all_scopes_around_tell_direct_evals(rt: HostRuntime) -> Result<(), Fail> {
    let alloc = rt.alloc();
    assert!(rt; is_found(alloc, &[], EVAL, "none"));
    assert!(rt; is_found(alloc, &[(true, true), (true, true)], EVAL, "none"));
    assert!(rt; is_found(alloc, &[(true, false), (true, true)], EVAL, "A3 3 eval"));
    assert!(rt; is_found(alloc, &[(true, true), (true, false)], EVAL, "A3 3 eval"));
    Ok(())
}
