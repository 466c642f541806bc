ghost use Rattle.std.specs.Prelude.{◌≡◌, ◌<◌, ◌^◌, ℕ, IfSome};
ghost use Rattle.var_numbers.specs.Pattern.{pattern};

/// The binary64 pattern of a whole number, as IEEE 754-2008 lays it out in section 3.4.
pub fn pattern_of(whole: u64) -> u64
    requires { whole < 2 ^ 53 }
    ensures { result ≡ pattern whole }
{
    if whole == 0 {
        return 0;
    }
    let exponent = whole.ilog2();
    let fraction = (whole << (52 - exponent)) - (1 << 52);
    (u64::from(1023 + exponent) << 52) + fraction
}

/// The whole number below 2^53 that has this binary64 pattern, as IEEE 754-2008 lays it out in section 3.4.
/// Fractions, negative zero, numbers below zero, infinities and what is not a number have none.
pub fn whole_of(bits: u64) -> Option<u64>
    ensures some { IfSome result (λ n. (n < 2 ^ 53) × (pattern n ≡ bits)) }
    ensures only { (n : ℕ) → n < 2 ^ 53 → pattern n ≡ bits → result ≡ Some n }
{
    let whole = nearest(bits);
    // A fraction or a sign would be lost: then the number has another pattern.
    if pattern_of(whole) == bits {
        Some(whole)
    } else {
        None
    }
}

// The only whole number below 2^53 that may have the pattern.
fn nearest(bits: u64) -> u64
    ensures below { result < 2 ^ 53 }
    ensures only { (n : ℕ) → n < 2 ^ 53 → pattern n ≡ bits → result ≡ n }
{
    let biased = bits >> 52;
    if biased < 1023 || biased > 1075 {
        return 0;
    }
    let leading = 1 << 52;
    (leading + bits % leading) >> (1075 - biased)
}
