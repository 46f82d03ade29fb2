ghost use Rattle.std.specs.Prelude.{◌≡◌, ◌+◌, ◌-◌, ◌%◌, ◌<◌, ◌^◌, nat_lt, if◌then◌else◌, map};
ghost use Rattle.std.specs.Simd.Lanes.{Each1, zip2};

use std::simd::prelude::*;

/// Each lane less p, where it is not below p.
#[inline(always)]
pub(crate) fn capped(p: u32, lanes: u32x8) -> u32x8
    ensures { result ≡ map (λ r. if nat_lt r p then r else r - p) lanes }
{
    lanes.simd_min(lanes - u32x8::splat(p))
}

/// The sums of residues, lane by lane.
#[inline(always)]
pub(crate) fn sums(p: u32, first: u32x8, second: u32x8) -> u32x8
    requires small { p < 2 ^ 31 }
    requires first { Each1 (λ r. r < p) first }
    requires second { Each1 (λ r. r < p) second }
    ensures { result ≡ zip2 (λ r s. (r + s) % p) first second }
{
    capped(p, first + second)
}
