//! Files at the largest size that is written. They are large, so these tests stand apart from the others of `run`.

use bast_base::{Chars, SureSink, SureSource};
use binast_run::{Idle, run_in_memory};
use std::alloc::{AllocError, Global};
use std::test::Fail;

// Runs a command on an input in memory, with so much room for its output.
fn run_on(
    alloc: Global,
    words: &str,
    input: Vec<u8>,
    room: usize,
) -> Result<(u8, SureSink, SureSink), AllocError> {
    let mut list = Vec::new(alloc);
    for word in words.split_ascii_whitespace() {
        list.push(Chars::of(String::from_str(alloc, word)?))?;
    }
    let mut source = SureSource::new(input);
    let mut sink = SureSink::new(vec![in alloc; 0; room]?);
    let mut notes = SureSink::new(vec![in alloc; 0; 100]?);
    let status = run_in_memory(alloc, &list, &mut source, &mut sink, &mut notes, &Idle);
    Ok((status, sink, notes))
}

// A script of so many statements, each of which takes ten bytes of its file.
fn script_of(alloc: Global, statements: usize) -> Result<Vec<u8>, AllocError> {
    let mut text = Vec::new(alloc);
    for _ in 0..statements {
        text.extend_from_slice(b"1;")?;
    }
    Ok(text)
}

#[test]
fn a_file_that_is_just_small_enough_is_written_and_read(rt: HostRuntime) -> Result<(), Fail> {
    let alloc = rt.alloc();
    let source = script_of(alloc, 838_845)?;
    let (status, file, _) = run_on(alloc, "encode eager", source, 8_388_608)?;
    assert_eq!(rt; status, 0);
    assert_eq!(rt; file.written().len(), 8_388_601);
    let (status, checked, _) = run_on(alloc, "check", file.written().to_vec(alloc)?, 100)?;
    assert_eq!(rt; status, 0);
    assert_eq!(rt;
        checked.written(),
        b"ok: 8388601 bytes, 0 lazy functions\n".as_slice()
    );
    // Three lines for each statement, below the six of the script and its scope.
    let (status, listed, _) = run_on(alloc, "decode", file.written().to_vec(alloc)?, 100_000_000)?;
    assert_eq!(rt; status, 0);
    let lines = listed
        .written()
        .iter()
        .filter(|byte| **byte == b'\n')
        .count();
    assert_eq!(rt; lines, 3 * 838_845 + 6);
    Ok(())
}

#[test]
fn a_file_that_would_be_too_large_is_refused(rt: HostRuntime) -> Result<(), Fail> {
    let alloc = rt.alloc();
    let source = script_of(alloc, 838_846)?;
    let (status, sink, notes) = run_on(alloc, "encode eager", source, 100)?;
    assert_eq!(rt; status, 1);
    assert_eq!(rt; sink.written().len(), 0);
    assert_eq!(rt;
        notes.written(),
        b"file: larger than 8388608 bytes\n".as_slice()
    );
    Ok(())
}
