use bast_base::Memory;
use thiserror::Error;

/// Why a tree has no file.
#[derive(Clone, Copy, Debug, PartialEq, Eq, Error)]
pub enum EncodeFault {
    /// Memory has run out.
    #[error("out of memory")]
    Memory,
    /// The file would be larger than 8,388,608 bytes.
    #[error("larger than 8388608 bytes")]
    TooLarge,
}

impl From<Memory> for EncodeFault {
    ghost use Rattle.std.specs.Prelude.{◌≡◌};
    ghost use Rattle.tree_encoder.specs.declared.fault.EncodeFault.TheVariants.{Memory as NoMemory};

    ghost from_gives = { λ _ fault. fault ≡ NoMemory };

    fn from(_: Memory) -> Self {
        EncodeFault::Memory
    }
}
