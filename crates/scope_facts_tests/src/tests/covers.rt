// The table of covers, while scopes are entered and left.
use scope_facts::{Cover, Shadow, find_cover, leave, put_cover};
use std::test::Fail;

/// The cover by a scope inside so many functions.
fn cover(function: u32) -> Option<Cover> {
    Some(Cover {
        function,
        captured: false,
    })
}

/// Inside how many functions the scope is that covers a name.
fn function_of(covers: &[Option<Cover>], name: u32) -> Option<u32> {
    match find_cover(covers, name) {
        Some(cover) => Some(cover.function),
        None => None,
    }
}

#[test]
fn a_name_is_covered_alone(rt: HostRuntime) -> Result<(), Fail> {
    let mut covers = Vec::new(rt.alloc());
    put_cover(&mut covers, 3, cover(1))?;
    assert_eq!(rt; function_of(&covers, 3), Some(1));
    assert_eq!(rt; function_of(&covers, 2), None);
    assert_eq!(rt; function_of(&covers, 4), None);
    put_cover(&mut covers, 0, cover(5))?;
    put_cover(&mut covers, 3, None)?;
    assert_eq!(rt; function_of(&covers, 0), Some(5));
    assert_eq!(rt; function_of(&covers, 3), None);
    Ok(())
}

#[test]
fn a_scope_that_is_left_covers_nothing(rt: HostRuntime) -> Result<(), Fail> {
    let mut covers = Vec::new(rt.alloc());
    put_cover(&mut covers, 3, cover(1))?;
    // a scope with two entries of one name, and one of a name that nothing covered
    let mut shadows = Vec::new(rt.alloc());
    for name in [3, 3, 7] {
        let cover_before = find_cover(&covers, name);
        shadows.push(Shadow {
            name,
            cover: cover_before,
        })?;
        put_cover(&mut covers, name, cover(2))?;
    }
    assert_eq!(rt; function_of(&covers, 3), Some(2));
    assert_eq!(rt; function_of(&covers, 7), Some(2));
    leave(&mut covers, shadows)?;
    assert_eq!(rt; function_of(&covers, 3), Some(1));
    assert_eq!(rt; function_of(&covers, 7), None);
    Ok(())
}
