//! How numbers are spelled in files: whole numbers in groups of seven bits, and the numbers of the language in eight
//! bytes.
//!
//! - `put_varnum` writes a whole number, `varnum_len` says in how many bytes, `read_varnum` reads one or answers the
//!   first fault with its place.
//! - `pattern_of` answers the binary64 pattern of a whole number, and `whole_of` the number of a pattern.
//!
//! Begin with `specs/Varnum.antt`, the one spelling of each number, and `specs/VarnumRead.antt`, what is read of bytes
//! that may be none; `specs/Pattern.antt` has the patterns. The laws (`laws.rt`) say that what is written is read back,
//! that no spelling is the prefix of another, and that patterns are those of binary64, one for each number.
#![tactic(auto)]

mod laws;
mod pattern;
#[cfg(test)]
mod tests;
mod varnum;
mod varnum_read;

pub use laws::{
    only_varnum_is_read, pattern_is_binary64, pattern_is_injective, varnum_is_prefix_free,
    varnum_is_read_back,
};
pub use pattern::{pattern_of, whole_of};
pub use varnum::{put_varnum, varnum_len};
pub use varnum_read::read_varnum;
