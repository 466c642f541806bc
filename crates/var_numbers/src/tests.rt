ghost use Rattle.std.specs.Prelude.{◌≤◌, length};

use super::*;
use bast_base::{FormatFault, Plain, Steps, Tape, Why};
use std::test::Fail;

#[test]
fn numbers_are_spelled(rt: HostRuntime) -> Result<(), Fail> {
    let mut bytes = Vec::new(rt.alloc());
    for number in [0, 1, 127, 128, 4294967295] {
        assert_eq!(rt; put_varnum(&mut bytes, number), Ok(()));
    }
    let spellings = [0x00, 0x02, 0xFE, 0x01, 0x02, 0xFF, 0xFF, 0xFF, 0xFF, 0x1E];
    assert_eq!(rt; bytes.as_slice(), spellings.as_slice());
    Ok(())
}

// Reads all of these bytes as one spelling.
fn read(tape: &Tape<Plain>) -> Result<(u32, u32), FormatFault> {
    read_varnum(tape, 0, tape.len(), &mut Steps::start())
}

fn fault(at: u32, why: Why) -> Result<(u32, u32), FormatFault> {
    Err(FormatFault { at, why })
}

#[test]
fn spellings_are_read(rt: HostRuntime) -> Result<(), Fail> {
    let alloc = rt.alloc();
    let largest = Tape::from_vec(vec![in alloc; 0xFF, 0xFF, 0xFF, 0xFF, 0x1E]?);
    assert_eq!(rt; read(&largest), Ok((4294967295, 5)));
    let large = Tape::from_vec(vec![in alloc; 1, 1, 1, 1, 0x20]?);
    assert_eq!(rt; read(&large), fault(4, Why::TooBig));
    let long = Tape::from_vec(vec![in alloc; 1, 0]?);
    assert_eq!(rt; read(&long), fault(1, Why::Overlong));
    let short = Tape::from_vec(vec![in alloc; 1]?);
    assert_eq!(rt; read(&short), fault(1, Why::Ended));
    Ok(())
}

#[test]
fn patterns_are_of_whole_numbers(rt: HostRuntime) {
    assert_eq!(rt; pattern_of(1), 0x3FF0000000000000);
    assert_eq!(rt; pattern_of(9007199254740991), 0x433FFFFFFFFFFFFF);
    assert_eq!(rt; whole_of(0), Some(0));
    assert_eq!(rt; whole_of(0x433FFFFFFFFFFFFF), Some(9007199254740991));
    for none in [
        0x3FF8000000000000,
        0x8000000000000000,
        0x3FE0000000000000,
        0x4340000000000000,
    ] {
        assert_eq!(rt; whole_of(none), None);
    }
}
