use scope_facts::Ctx;
use std::test::Fail;

mod budget;
mod cases;
mod covers;
mod functions;
mod shown;
mod statements;

#[test]
fn nothing_is_around_a_script(rt: HostRuntime) -> Result<(), Fail> {
    let around = Ctx::script(rt.alloc());
    assert!(rt; !around.strict && !around.own_strict && !around.unique && !around.function);
    assert_eq!(rt; around.scopes.as_slice().len(), 0);
    Ok(())
}
