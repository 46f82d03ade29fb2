ghost use Rattle.std.specs.Prelude.{◌≡◌, ◌*◌, ◌/◌, ◌<◌, ◌^◌, All, length};
ghost use Rattle.field_table.specs.Residues.{plus_multiple};
ghost use Rattle.lane_kernel.specs.Lanes.{IsAddedUpto};

use crate::narrow::add_narrow;
use crate::negative::add_negative;
use crate::wide::add_wide;
use field_table::Field;

/// Adds `a` times `x` to `y`, place by place: eight places at a time, and the rest one by one. The lanes have 32 bits
/// where the modulus is at most 65535, and else 64; a multiple by p - 1 takes no product.
pub fn axpy_lanes(field: &Field, y: &mut [u32], a: u32, x: &[u32])
    requires factor { a < field.now }
    requires y_residues { All (λ r. r < field.now) y.old }
    requires x_residues { All (λ r. r < field.now) x.now }
    requires lengths { length y.old ≡ length x.now }
    ensures sums { y.new ≡ plus_multiple field.now a y.old x.now }
    ensures residues { All (λ r. r < field.now) y.new }
{
    let p = field.modulus();
    add_blocks(p, y, a, x);
    let done = y.len() / 8 * 8;
    field.axpy(&mut y[done..], a, &x[done..]);
}

/// Adds the multiple at all whole blocks of 8 places.
fn add_blocks(p: u32, y: &mut [u32], a: u32, x: &[u32])
    requires small { p < 2 ^ 31 }
    requires factor { a < p }
    requires y_residues { All (λ r. r < p) y.old }
    requires x_residues { All (λ r. r < p) x.now }
    requires lengths { length y.old ≡ length x.now }
    ensures { IsAddedUpto p a y.old x.now (length y.old / 8 * 8) y.new }
{
    if a == p - 1 {
        return add_negative(p, y, x);
    }
    if p <= 65535 {
        return add_narrow(p, y, a, x);
    }
    add_wide(p, y, a, x);
}
