use super::*;
use bast_base::{Chars, NameId};
use std::test::Fail;

#[test]
fn entries_have_their_places(rt: HostRuntime) -> Result<(), Fail> {
    let alloc = rt.alloc();
    let mut table = StringTable::new(alloc);
    assert_eq!(rt; table.add(Entry::Absent)?, AddedName::New(NameId(0)));
    assert_eq!(rt; table.intern("a")?, NameId(1));
    assert_eq!(rt; table.intern("a")?, NameId(1));
    assert_eq!(rt; table.text(NameId(0)), None);
    assert_eq!(rt; table.text(NameId(1)), Some("a"));
    assert_eq!(rt; table.find("a"), Some(NameId(1)));
    assert_eq!(rt; table.find(""), None);
    assert_eq!(rt; table.len(), 2);
    Ok(())
}

#[test]
fn an_entry_that_is_there_stays(rt: HostRuntime) -> Result<(), Fail> {
    let alloc = rt.alloc();
    let mut table = StringTable::new(alloc);
    assert_eq!(rt; table.intern("a")?, NameId(0));
    let text = Entry::Text(Chars::of(String::from_str(alloc, "a")?));
    assert_eq!(rt; table.add(text)?, AddedName::There(NameId(0)));
    assert_eq!(rt; table.add(Entry::Absent)?, AddedName::New(NameId(1)));
    assert_eq!(rt; table.add(Entry::Absent)?, AddedName::There(NameId(1)));
    assert_eq!(rt; table.len(), 2);
    Ok(())
}
