ghost use Rattle.std.specs.Prelude.{◌≡◌, ◌<◌, ◌≤◌, ◌+◌, ◌-◌, ◌^◌, length, IfOk};
ghost use Rattle.container.specs.Clauses.{IsAfter, section_at};
ghost use Rattle.container.specs.Parts.{counted_at, fixed_at};

use bast_base::{FormatFault, Steps, Tape, Why};
use var_numbers::read_varnum;

// The place behind bytes that are due.
pub(crate) fn read_fixed<L>(
    tape: &Tape<L>,
    due: &[u8],
    why: Why,
    at: u32,
    steps: &mut Steps<L>,
) -> Result<u32, FormatFault>
    requires { at ≤ length tape.now }
    ensures exact { result ≡ fixed_at tape.now due.now why at }
    ensures within { IfOk result (λ next. (at ≤ next) × (next ≤ length tape.now)) }
    ensures cost { IfOk result (λ next. steps.new ≤ steps.old + (next - at)) }
    ensures most { steps.new ≤ steps.old + (length tape.now - at) }
    ensures small { length tape.now < 2 ^ 32 }
{
    let end = tape.len();
    let mut place = at;
    'due: for byte in due {
        if place == end {
            return Err(ended(end));
        }
        if tape.byte(place, steps) != *byte {
            return Err(FormatFault { at: place, why });
        }
        place += 1;
    }
    Ok(place)
}

// Where the bytes behind their length begin and end.
pub(crate) fn read_counted<L>(
    tape: &Tape<L>,
    at: u32,
    end: u32,
    steps: &mut Steps<L>,
) -> Result<(u32, u32), FormatFault>
    requires order { at ≤ end }
    requires within { end ≤ length tape.now }
    ensures exact { result ≡ counted_at tape.now end at }
    ensures within { IfOk result (IsAfter at end) }
    ensures cost { IfOk result (λ r. steps.new ≤ steps.old + (r.0 - at)) }
    ensures most { steps.new ≤ steps.old + (end - at) }
{
    let (len, from) = read_varnum(tape, at, end, steps)?;
    if len > end - from {
        return Err(ended(end));
    }
    Ok((from, from + len))
}

// Where the content of a section begins and ends.
pub(crate) fn read_section<L>(
    tape: &Tape<L>,
    title: &[u8],
    at: u32,
    steps: &mut Steps<L>,
) -> Result<(u32, u32), FormatFault>
    requires { at ≤ length tape.now }
    ensures exact { result ≡ section_at tape.now title.now at }
    ensures within { IfOk result (IsAfter at (length tape.now)) }
    ensures cost { IfOk result (λ r. steps.new ≤ steps.old + (r.0 - at)) }
    ensures most { steps.new ≤ steps.old + (length tape.now - at) }
{
    let titled = read_fixed(tape, title, Why::BadSection, at, steps)?;
    let formed = read_fixed(tape, b"identity;", Why::NotIdentity, titled, steps)?;
    read_counted(tape, formed, tape.len(), steps)
}

// The fault that the range ends where a byte is due.
fn ended(end: u32) -> FormatFault
    ensures { result ≡ record { at = end; why = Why.Ended } }
{
    FormatFault {
        at: end,
        why: Why::Ended,
    }
}
