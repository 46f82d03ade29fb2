ghost use Rattle.std.specs.Prelude.{◌≡◌, ◌<◌, All, map};
ghost use Rattle.field_table.specs.Residues.{product_of};

use field_table::Field;

/// Multiplies each residue.
pub(crate) fn scale(field: &Field, a: u32, row: &mut [u32])
    requires factor { a < field.now }
    requires residues { All (λ r. r < field.now) row.old }
    ensures { row.new ≡ map (λ r. product_of field.now a r) row.old }
{
    for entry in row.iter_mut() {
        *entry = scaled(field, a, *entry);
    }
}

/// The product. A row has few residues other than 0, and a remainder takes longer than a test.
#[inline(always)]
fn scaled(field: &Field, a: u32, r: u32) -> u32
    requires factor { a < field.now }
    requires residue { r < field.now }
    ensures { result ≡ product_of field.now a r }
{
    if r == 0 {
        return 0;
    }
    field.mul(a, r)
}
