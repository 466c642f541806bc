use super::*;
use std::test::Fail;

#[test]
fn items_and_texts_give_back_what_they_hold(rt: HostRuntime) -> Result<(), Fail> {
    let alloc = rt.alloc();
    let items = Items::of(vec![in alloc; 1u32, 2]?);
    assert_eq!(rt; items.as_slice(), [1, 2].as_slice());
    assert_eq!(rt; items.into_vec().len(), 2);
    let text = Chars::of(String::from_str(alloc, "a")?);
    assert_eq!(rt; text.as_str(), "a");
    assert_eq!(rt; text.into_string().as_str(), "a");
    Ok(())
}

// With ample memory a source is read whole, piece by piece, and a range of the tape is copied.
#[test]
fn reads_a_source_to_its_end(rt: HostRuntime) -> Result<(), Fail> {
    let alloc = rt.alloc();
    let mut source = MemSource::new(b"0123456789".to_vec(alloc)?, 3, Vec::new(alloc));
    let mut steps = Steps::start();
    let Ok(tape) = Tape::<Plain>::read_from(alloc, &mut source, 10) else {
        return Err(Fail::new("not read"));
    };
    assert_eq!(rt; tape.len(), 10);
    assert_eq!(rt; tape.byte(9, &mut steps), b'9');
    let Ok(copy) = tape.copy(alloc, 2, 5, &mut steps) else {
        return Err(Fail::new("not copied"));
    };
    assert_eq!(rt; copy.as_slice(), b"234".as_slice());
    Ok(())
}

#[test]
fn tells_what_stops_a_source(rt: HostRuntime) -> Result<(), Fail> {
    let alloc = rt.alloc();
    let mut long = MemSource::new(b"0123456789".to_vec(alloc)?, 4, Vec::new(alloc));
    let answer = Tape::<Plain>::read_from(alloc, &mut long, 9).err();
    assert_eq!(rt; answer, Some(FillError::TooLarge));
    let mut failing = MemSource::new(b"0123456789".to_vec(alloc)?, 4, vec![in alloc; 1]?);
    let answer = Tape::<Plain>::read_from(alloc, &mut failing, 10).err();
    assert_eq!(rt; answer, Some(FillError::ReadFault));
    Ok(())
}

// Neither end fails while there is room: a source is read to its end whatever the chunks, and a sink is full only where
// a piece finds no room.
#[test]
fn sure_ends_take_all_that_there_is_room_for(rt: HostRuntime) -> Result<(), Fail> {
    let alloc = rt.alloc();
    let mut source = SureSource::new(b"0123456789".to_vec(alloc)?);
    let Ok(tape) = Tape::<Plain>::read_from(alloc, &mut source, 10) else {
        return Err(Fail::new("not read"));
    };
    assert_eq!(rt; tape.len(), 10);
    let mut sink = SureSink::new(vec![in alloc; 0; 4]?);
    assert_eq!(rt; sink.write(b"abc").ok(), Some(3));
    assert_eq!(rt; sink.write(b"").ok(), Some(0));
    assert_eq!(rt; sink.write(b"def").ok(), Some(1));
    assert!(rt; sink.write(b"ef").is_err());
    assert!(rt; sink.write(b"").is_ok());
    assert!(rt; sink.flush().is_ok());
    assert_eq!(rt; sink.written(), b"abcd".as_slice());
    Ok(())
}
