// The contents of functions, in the contexts that the functions give them.
use super::cases::has_error;
use scope_facts::Ctx;
use std::alloc::Global;
use std::test::Fail;

/// What is around the contents of a function that is not strict.
fn around_function(alloc: Global) -> Ctx {
    let mut ctx = Ctx::script(alloc);
    ctx.function = true;
    ctx
}

/// The same of strict code.
fn around_strict_function(alloc: Global) -> Ctx {
    let mut ctx = around_function(alloc);
    ctx.strict = true;
    ctx
}

const RETURN: &str = "FunctionContents FormalParameters 0 - 1 ReturnStatement -";

const TWO: &str = "FunctionContents FormalParameters 2 BindingIdentifier a BindingIdentifier a - 0";

const INITIALIZER: &str =
    "FunctionContents FormalParameters 1 BindingWithInitializer BindingIdentifier a ThisExpression - 0";

const DELETE: &str =
    "GetterContents 1 ExpressionStatement UnaryExpression delete IdentifierExpression a";

const BREAK: &str = "GetterContents 1 BreakStatement -";

#[test]
fn contents_are_judged_in_their_context(rt: HostRuntime) -> Result<(), Fail> {
    let alloc = rt.alloc();
    let plain = around_function(alloc);
    let strict = around_strict_function(alloc);
    assert!(rt; has_error(alloc, &Ctx::script(alloc), RETURN, "E10 4"));
    assert!(rt; has_error(alloc, &plain, RETURN, "none"));
    assert!(rt; has_error(alloc, &plain, TWO, "none"));
    assert!(rt; has_error(alloc, &strict, TWO, "E4 0 a"));
    assert!(rt; has_error(alloc, &plain, DELETE, "none"));
    assert!(rt; has_error(alloc, &strict, DELETE, "E7 3 a"));
    assert!(rt; has_error(alloc, &strict, BREAK, "E11 2"));
    Ok(())
}

#[test]
fn methods_and_own_directives_are_told_by_the_context(rt: HostRuntime) -> Result<(), Fail> {
    let alloc = rt.alloc();
    let mut method = around_function(alloc);
    method.unique = true;
    assert!(rt; has_error(alloc, &method, TWO, "E4 0 a"));
    let mut own = around_strict_function(alloc);
    assert!(rt; has_error(alloc, &own, INITIALIZER, "none"));
    own.own_strict = true;
    assert!(rt; has_error(alloc, &own, INITIALIZER, "E5 0"));
    Ok(())
}
