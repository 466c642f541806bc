ghost use Rattle.std.specs.Prelude.{◌≡◌, ◌≤◌, length, IfOk};

use super::*;
use bast_base::{FormatFault, Halt, Plain, Steps, Tape, Why};
use std::alloc::{AllocError, Global};
use std::test::Fail;

// The file of an empty script.
const FILE: &[u8] =
    b"BINJS\x02[GRAMMAR]identity;\x44\x04\x0CScript\x32AssertedScriptGlobalScope[STRINGS]identity;\x02\x00[TREE]identity;\x0C\x00\x00\x02\x00\x00\x00";

// The file with other bytes from one place to another, and its first fault.
#[derive(Clone, Copy)]
struct Case {
    from: usize,
    to: usize,
    put: &'static [u8],
    at: u32,
    why: Why,
}

const fn told(from: usize, to: usize, put: &'static [u8], at: u32, why: Why) -> Case {
    Case {
        from,
        to,
        put,
        at,
        why,
    }
}

// The file with other bytes from one place to another.
fn edited(alloc: Global, from: usize, to: usize, put: &[u8]) -> Result<Vec<u8>, AllocError> {
    let mut bytes = FILE.get(..from).unwrap_or(FILE).to_vec(alloc)?;
    bytes.extend_from_slice(put)?;
    bytes.extend_from_slice(FILE.get(to..).unwrap_or(&[]))?;
    Ok(bytes)
}

// The first fault of a file, or none.
fn fault_of(alloc: Global, bytes: Vec<u8>) -> Option<FormatFault> {
    if bytes.len() > 1000 {
        return None;
    }
    let tape = Tape::<Plain>::from_vec(bytes);
    match read_layout(alloc, &tape, &mut Steps::start()) {
        Err(Halt::Format(fault)) => Some(fault),
        _ => None,
    }
}

// The number of the first case whose fault is another, or none.
fn first_wrong(alloc: Global, cases: &[Case]) -> Result<Option<usize>, AllocError> {
    for (number, case) in cases.iter().enumerate() {
        let bytes = edited(alloc, case.from, case.to, case.put)?;
        let fault = FormatFault {
            at: case.at,
            why: case.why,
        };
        if fault_of(alloc, bytes) != Some(fault) {
            return Ok(Some(number));
        }
    }
    Ok(None)
}

#[test]
fn a_wrong_head_is_told(rt: HostRuntime) -> Result<(), Fail> {
    let cases = [
        told(0, 1, b"X", 0, Why::BadMagic),
        told(2, 3, b"n", 2, Why::BadMagic),
        told(4, 5, b"s", 4, Why::BadMagic),
        told(5, 6, b"\x04", 5, Why::BadVersion { found: 2 }),
        told(5, 6, b"\x00", 5, Why::BadVersion { found: 0 }),
        told(5, 6, b"\x01\x02", 5, Why::BadVersion { found: 128 }),
        told(
            5,
            6,
            b"\xFF\xFF\xFF\xFF\x1E",
            5,
            Why::BadVersion { found: 4294967295 },
        ),
    ];
    assert_eq!(rt; first_wrong(rt.alloc(), &cases)?, None);
    Ok(())
}

#[test]
fn a_wrong_section_is_told(rt: HostRuntime) -> Result<(), Fail> {
    let cases = [
        told(6, 7, b"G", 6, Why::BadSection),
        told(14, 15, b")", 14, Why::BadSection),
        told(59, 60, b"S", 59, Why::BadSection),
        told(67, 68, b"}", 67, Why::BadSection),
        told(79, 80, b"T", 79, Why::BadSection),
        told(84, 85, b"i", 84, Why::BadSection),
        told(6, 15, b"[STRINGS]", 7, Why::BadSection),
        told(15, 16, b"g", 15, Why::NotIdentity),
        told(23, 24, b"g", 23, Why::NotIdentity),
        told(68, 69, b"g", 68, Why::NotIdentity),
        told(76, 77, b"g", 76, Why::NotIdentity),
        told(85, 86, b"g", 85, Why::NotIdentity),
        told(93, 94, b"g", 93, Why::NotIdentity),
    ];
    assert_eq!(rt; first_wrong(rt.alloc(), &cases)?, None);
    Ok(())
}

#[test]
fn an_end_is_told(rt: HostRuntime) -> Result<(), Fail> {
    let cases = [
        told(24, 25, b"\xFF\xFF\xFF\xFF\x1E", 105, Why::Ended),
        told(24, 25, b"\x9B\x02", 102, Why::Ended),
        told(77, 78, b"0", 101, Why::Ended),
        told(94, 95, b"\x0E", 101, Why::Ended),
        told(24, 59, b"\x00", 25, Why::Ended),
        told(24, 25, b"B", 58, Why::Ended),
        told(25, 26, b"\x06", 59, Why::Ended),
        told(26, 27, b"\xFE", 59, Why::Ended),
        told(24, 26, b"L\xFF\xFF\xFF\xFF\x1E", 63, Why::Ended),
        told(24, 59, b"\x12\x04\x0CScript\x01", 34, Why::Ended),
        told(77, 79, b"\x02\x02", 79, Why::Ended),
        told(77, 79, b"\x06\x02\x06a", 81, Why::Ended),
        told(77, 79, b"\x04\x02\x01", 80, Why::Ended),
        told(77, 79, b"\x04\xFF", 80, Why::Ended),
        told(77, 79, b"\x00", 78, Why::Ended),
        told(77, 79, b"\x0A\xFF\xFF\xFF\xFF\x1E", 83, Why::Ended),
    ];
    assert_eq!(rt; first_wrong(rt.alloc(), &cases)?, None);
    Ok(())
}

#[test]
fn bytes_that_are_left_are_told(rt: HostRuntime) -> Result<(), Fail> {
    let cases = [
        told(24, 25, b"F", 59, Why::Trailing),
        told(25, 26, b"\x02", 33, Why::Trailing),
        told(25, 26, b"\x00", 26, Why::Trailing),
        told(77, 78, b"\x04", 79, Why::Trailing),
        told(94, 95, b"\x0A", 100, Why::Trailing),
        told(101, 101, b"\x00", 101, Why::Trailing),
    ];
    assert_eq!(rt; first_wrong(rt.alloc(), &cases)?, None);
    Ok(())
}

#[test]
fn a_wrong_number_is_told(rt: HostRuntime) -> Result<(), Fail> {
    let cases = [
        told(5, 6, b"\x03\x00", 6, Why::Overlong),
        told(24, 25, b"E\x00", 25, Why::Overlong),
        told(77, 78, b"\x03\x00", 78, Why::Overlong),
        told(94, 95, b"\x0D\x00", 95, Why::Overlong),
        told(24, 26, b"F\x05\x00", 26, Why::Overlong),
        told(24, 59, b"\x14\x04\x0CScript\x0D\x00", 34, Why::Overlong),
        told(77, 79, b"\x04\x01\x00", 79, Why::Overlong),
        told(5, 6, b"\xFF\xFF\xFF\xFF ", 9, Why::TooBig),
        told(5, 6, b"\x01\x01\x01\x01\x01", 9, Why::TooBig),
        told(24, 25, b"\xFF\xFF\xFF\xFF ", 28, Why::TooBig),
        told(77, 78, b"\x01\x01\x01\x01<", 81, Why::TooBig),
        told(94, 95, b"\xFF\xFF\xFF\xFF<", 98, Why::TooBig),
        told(24, 26, b"L\xFF\xFF\xFF\xFF ", 29, Why::TooBig),
        told(77, 79, b"\x0A\xFF\xFF\xFF\xFF ", 82, Why::TooBig),
    ];
    assert_eq!(rt; first_wrong(rt.alloc(), &cases)?, None);
    Ok(())
}

#[test]
fn a_wrong_entry_is_told(rt: HostRuntime) -> Result<(), Fail> {
    let cases = [
        told(27, 28, b"s", 27, Why::UnknownKind),
        told(34, 35, b"a", 34, Why::UnknownKind),
        told(24, 59, b"\x04\x02\x00", 27, Why::UnknownKind),
        told(27, 28, b"\xFF", 27, Why::UnknownKind),
        told(77, 79, b"\x06\x02\x02\xFF", 80, Why::NotUtf8),
        told(77, 79, b"\x0A\x02\x06a\xE2\x82", 81, Why::NotUtf8),
        told(77, 79, b"\x0A\x02\x06\xFF\x00\x00", 80, Why::NotUtf8),
        told(77, 79, b"\x08\x02\x04\xFF\x01", 80, Why::NotUtf8),
        told(77, 79, b"\x0A\x04\x02a\x02\xFF", 82, Why::NotUtf8),
        told(77, 79, b"\x0E\x04\x02a\x06\xC3\xBF\xC0", 84, Why::NotUtf8),
        told(
            24,
            59,
            b"\x1E\x04\x0CScript\x0CScript",
            34,
            Why::Repeated { first: 0 },
        ),
        told(
            24,
            59,
            b"(\x06\x0CScript\x0A_Null\x0A_Null",
            40,
            Why::Repeated { first: 1 },
        ),
        told(77, 79, b"\x06\x04\x00\x00", 81, Why::Repeated { first: 0 }),
        told(
            77,
            79,
            b"\x0A\x04\x02a\x02a",
            82,
            Why::Repeated { first: 0 },
        ),
        told(
            77,
            79,
            b"\x0E\x04\x04\xFF\x00\x04\xFF\x00",
            83,
            Why::Repeated { first: 0 },
        ),
        told(
            77,
            79,
            b"\x0E\x06\x02a\x02b\x02b",
            84,
            Why::Repeated { first: 1 },
        ),
    ];
    assert_eq!(rt; first_wrong(rt.alloc(), &cases)?, None);
    Ok(())
}

// Each front of the file ends too early.
#[test]
fn a_cut_file_is_ended(rt: HostRuntime) -> Result<(), Fail> {
    let alloc = rt.alloc();
    for len in 0..101u32 {
        let bytes = edited(alloc, len as usize, 101, b"")?;
        let fault = FormatFault {
            at: len,
            why: Why::Ended,
        };
        assert_eq!(rt; fault_of(alloc, bytes), Some(fault));
    }
    Ok(())
}

// What is read: the number of kinds, of strings, and the range of the tree.
fn read(alloc: Global, bytes: Vec<u8>) -> Option<(u32, u32, u32, u32)> {
    if bytes.len() > 1000 {
        return None;
    }
    let tape = Tape::<Plain>::from_vec(bytes);
    let layout = read_layout(alloc, &tape, &mut Steps::start()).ok()?;
    Some((
        layout.kinds.len(),
        layout.strings.len(),
        layout.from,
        layout.to,
    ))
}

#[test]
fn a_container_is_read(rt: HostRuntime) -> Result<(), Fail> {
    let alloc = rt.alloc();
    let whole = FILE.to_vec(alloc)?;
    assert_eq!(rt; read(alloc, whole), Some((2, 0, 95, 101)));
    // What the tree says is not looked at.
    let wrong = edited(
        alloc,
        94,
        101,
        b"\x14\x00\x00\x02\x00\x00\xFF\xFF\xFF\xFF\x1E",
    )?;
    assert_eq!(rt; read(alloc, wrong), Some((2, 0, 95, 105)));
    let strings = edited(alloc, 77, 79, b"\x18\x06\x00\x04\xFF\x00\x0CScript")?;
    assert_eq!(rt; read(alloc, strings), Some((2, 3, 106, 112)));
    Ok(())
}

// What is read of a file, written again.
fn rewritten(alloc: Global, bytes: Vec<u8>) -> Result<Vec<u8>, Halt>
    requires { length bytes.items ≤ 8388608 }
    ensures { IfOk result (λ v. v.items ≡ bytes.items) }
{
    let tape = Tape::<Plain>::from_vec(bytes);
    let mut steps = Steps::start();
    let layout = read_layout(alloc, &tape, &mut steps)?;
    let tree = tape.copy(alloc, layout.from, layout.to, &mut steps)?;
    Ok(write_file(alloc, &layout.kinds, &layout.strings, tree.as_slice())?)
}

#[test]
fn a_container_is_written_as_it_was_read(rt: HostRuntime) -> Result<(), Fail> {
    let alloc = rt.alloc();
    let bytes = FILE.to_vec(alloc)?;
    let Ok(again) = rewritten(alloc, bytes) else {
        return Err(Fail::new("not written"));
    };
    assert_eq!(rt; again.as_slice(), FILE);
    Ok(())
}
