ghost use Rattle.std.specs.Prelude.{◌≡◌};
ghost use Rattle.free_poly.specs.declared.fault.PolyFault.TheVariants.{NoMemory};

use std::alloc::AllocError;

/// Why terms are no polynomial.
#[derive(Debug, Drop)]
pub enum PolyFault {
    MixedDegrees { first: u64, other: u64 },
    NoMemory,
}

impl From<AllocError> for PolyFault {
    ghost from_gives = { λ _ e. e ≡ NoMemory };

    fn from(_e: AllocError) -> PolyFault {
        PolyFault::NoMemory
    }
}
