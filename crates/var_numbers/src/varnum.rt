ghost use Rattle.std.specs.Prelude.{◌≡◌, ◌≤◌, ◌++◌, length, OnOk, OnErr};
ghost use Rattle.var_numbers.specs.Varnum.{varnum};

use bast_base::Memory;

/// Adds the spelling of a number at the end, as a file has it: seven bits to a byte, the least group
/// first, where bit 0 says that another byte follows.
#[tactic(auto, using(crate::proofs::VarnumLemmas::spellings))]
pub fn put_varnum(into: &mut Vec<u8>, number: u32) -> Result<(), Memory>
    ensures ok { OnOk result (into.new.items ≡ into.old.items ++ varnum number) }
    ensures err { OnErr result (into.new.items ≡ into.old.items) }
{
    // All of the room is taken at first, so that a number is written whole or not at all.
    into.reserve(varnum_len(number) as usize)?;
    let mut rest = number;
    'groups: while rest >= 128 {
        into.push((2 * (rest % 128) + 1) as u8)?;
        rest /= 128;
    }
    into.push((2 * rest) as u8)?;
    Ok(())
}

/// How many bytes the spelling of a number has.
#[tactic(auto, using(crate::proofs::VarnumLemmas::spellings, crate::proofs::VarnumLemmas::spelling_lengths))]
pub fn varnum_len(number: u32) -> u32
    ensures exact { result ≡ length (varnum number) }
    ensures some { 1 ≤ result }
    ensures few { result ≤ 5 }
{
    let mut len = 1;
    let mut rest = number;
    'groups: while rest >= 128 {
        len += 1;
        rest /= 128;
    }
    len
}
