ghost use Rattle.std.specs.Prelude.{◌≡◌, ◌+◌, ◌-◌, ◌*◌, ◌/◌, ◌%◌, ◌<◌, ◌^◌, All, length, map};
ghost use Rattle.std.specs.Simd.Lanes.{Each1};
ghost use Rattle.lane_kernel.specs.Lanes.{IsAddedUpto};

use crate::lanes::{capped, sums};
use std::simd::prelude::*;

/// Adds the multiple at all whole blocks of 8 places, by lanes of 64 bits.
pub(crate) fn add_wide(p: u32, y: &mut [u32], a: u32, x: &[u32])
    requires small { p < 2 ^ 31 }
    requires factor { a < p }
    requires y_residues { All (λ r. r < p) y.old }
    requires x_residues { All (λ r. r < p) x.now }
    requires lengths { length y.old ≡ length x.now }
    ensures { IsAddedUpto p a y.old x.now (length y.old / 8 * 8) y.new }
{
    let quotient = u64::from(a) * 4294967296 / u64::from(p);
    for block in 0..y.len() / 8 {
        let at = block * 8;
        let multiples = wide_multiples(p, a, quotient, u32x8::from_slice(&x[at..]));
        sums(p, u32x8::from_slice(&y[at..]), multiples).copy_to_slice(&mut y[at..]);
    }
}

/// The multiples of eight residues.
#[inline(always)]
fn wide_multiples(p: u32, a: u32, quotient: u64, x: u32x8) -> u32x8
    requires small { p < 2 ^ 31 }
    requires factor { a < p }
    requires quotient { quotient ≡ a * 4294967296 / p }
    requires residues { Each1 (λ s. s < p) x }
    ensures { result ≡ map (λ s. (a * s) % p) x }
{
    let rest = wide_rest(u64::from(p), u64::from(a), quotient, x.cast::<u64>());
    capped(p, rest.cast::<u32>())
}

/// The multiples less p as often as the quotient says.
#[inline(always)]
fn wide_rest(p: u64, a: u64, quotient: u64, x: u64x8) -> u64x8
    requires small { p < 2 ^ 31 }
    requires factor { a < p }
    requires quotient { quotient ≡ a * 4294967296 / p }
    requires residues { Each1 (λ s. s < p) x }
    ensures { result ≡ map (λ s. a * s - quotient * s / 4294967296 * p) x }
{
    let times = (u64x8::splat(quotient) * x) >> 32;
    u64x8::splat(a) * x - times * u64x8::splat(p)
}
