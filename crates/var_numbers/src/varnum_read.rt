ghost use Rattle.std.specs.Prelude.{◌≡◌, ◌↔◌, ◌⊎◌, ◌+◌, ◌%◌, ◌-◌, ◌≤◌, ◌<◌, ◌++◌, ◌^◌, List, ℕ, length, slice_range, IsTrue, IfOk, IfErr};
ghost use Rattle.var_numbers.specs.VarnumRead.{number_at};
ghost use Rattle.var_numbers.specs.ReadClauses.{Spells, passed};
ghost use Rattle.var_numbers.specs.Varnum.{varnum};

use bast_base::{FormatFault, Steps, Tape, Why};

// The place of the last byte that a spelling may have.
const FIFTH: u32 = 4;

// The largest fifth byte: with it the number is just below 2^32.
const LARGEST_FIFTH: u8 = 0x1E;

/// Reads a number and the place behind it, from its spelling in a file: seven bits to a byte, the
/// least group first, where bit 0 says that another byte follows. Places are bytes from the tape's start.
/// It is `Ended` where the range ends within a spelling, `TooBig` at a fifth byte that goes on or makes 2^32 or more,
/// and `Overlong` at a last byte that adds nothing.
pub fn read_varnum<L>(
    tape: &Tape<L>,
    at: u32,
    end: u32,
    steps: &mut Steps<L>,
) -> Result<(u32, u32), FormatFault>
    requires order { at ≤ end }
    requires within { end ≤ length tape.now }
    ensures exact { result ≡ number_at at (slice_range tape.now at end) }
    ensures spelled { IfOk result (λ read. Spells tape.now at end read.0 read.1) }
    ensures only { (n : ℕ) (more : List ℕ) → n < 2 ^ 32 → slice_range tape.now at end ≡ varnum n ++ more → result ≡ Ok (n, at + length (varnum n)) }
    ensures place { IfErr result (λ fault. (at ≤ fault.at) × (fault.at ≤ end)) }
    ensures cost { steps.new ≤ steps.old + passed at end result }
    ensures most { steps.new ≤ steps.old + (end - at) }
    ensures later { steps.old ≤ steps.new }
{
    let mut place = at;
    let mut number = 0;
    let mut scale = 1;
    'groups: while place < end {
        let byte = tape.byte(place, steps);
        if is_beyond(place - at, byte) {
            return Err(FormatFault {
                at: place,
                why: Why::TooBig,
            });
        }
        if byte % 2 == 0 {
            if byte == 0 && place > at {
                return Err(FormatFault {
                    at: place,
                    why: Why::Overlong,
                });
            }
            return Ok((number + u32::from(byte / 2) * scale, place + 1));
        }
        number += u32::from(byte / 2) * scale;
        scale *= 128;
        place += 1;
    }
    Err(FormatFault {
        at: place,
        why: Why::Ended,
    })
}

// Whether the byte at this place of a spelling goes past 32 bits: the fifth may neither go on nor have a fifth bit.
fn is_beyond(place: u32, byte: u8) -> bool
    ensures { IsTrue result ↔ ((place ≡ 4) × ((byte % 2 ≡ 1) ⊎ (0x1E < byte))) }
{
    place == FIFTH && (byte % 2 == 1 || byte > LARGEST_FIFTH)
}
