ghost use Rattle.std.specs.Prelude.{◌≡◌, ◌-◌, ◌*◌, ◌/◌, ◌%◌, ◌<◌, ◌^◌, All, length, map};
ghost use Rattle.std.specs.Simd.Lanes.{Each1};
ghost use Rattle.lane_kernel.specs.Lanes.{IsAddedUpto};

use crate::lanes::{capped, sums};
use std::simd::prelude::*;

/// Adds the multiple by p - 1 at all whole blocks of 8 places: it is the negative, and takes no product.
pub(crate) fn add_negative(p: u32, y: &mut [u32], x: &[u32])
    requires small { p < 2 ^ 31 }
    requires y_residues { All (λ r. r < p) y.old }
    requires x_residues { All (λ r. r < p) x.now }
    requires lengths { length y.old ≡ length x.now }
    ensures { IsAddedUpto p (p - 1) y.old x.now (length y.old / 8 * 8) y.new }
{
    for block in 0..y.len() / 8 {
        let at = block * 8;
        let lanes = negatives(p, u32x8::from_slice(&x[at..]));
        sums(p, u32x8::from_slice(&y[at..]), lanes).copy_to_slice(&mut y[at..]);
    }
}

/// The negatives of eight residues.
#[inline(always)]
fn negatives(p: u32, x: u32x8) -> u32x8
    requires small { p < 2 ^ 31 }
    requires residues { Each1 (λ s. s < p) x }
    ensures { result ≡ map (λ s. ((p - 1) * s) % p) x }
{
    capped(p, u32x8::splat(p) - x)
}
