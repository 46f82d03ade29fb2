ghost use Rattle.std.specs.Prelude.{◌≡◌};

use std::alloc::AllocError;
use words::{Items, Word};

/// The pieces of a chain, and the sum of their degrees.
#[derive(Debug, Drop)]
pub struct Chain {
    pub degree: u32,
    pub pieces: Items<Word>,
}

/// Why the chains are not listed.
#[derive(Debug, Drop)]
pub enum ChainFault {
    /// The first degree up to which there are more chains than were asked for.
    TooMany { degree: u32 },
    NoMemory,
}

impl From<AllocError> for ChainFault {
    ghost use Rattle.anick_chains.specs.declared.chain.ChainFault.TheVariants.{NoMemory};

    ghost from_gives = { λ _ fault. fault ≡ NoMemory };

    fn from(_error: AllocError) -> ChainFault {
        ChainFault::NoMemory
    }
}
