ghost use Rattle.std.specs.Prelude.{◌≡◌, ◌<◌, All, IfOk, length, slice_index};
ghost use Rattle.field_table.specs.Residues.{listed_moduli};

use crate::kernel::axpy_lanes;
use field_table::{Field, NoMemory, listed_moduli_law};
use std::alloc::Global;
use std::test::Fail;

/// The field of the listed modulus at this place.
fn listed_field(alloc: Global, place: usize) -> Result<Field, NoMemory>
    requires { place < 10 }
    ensures { IfOk result (λ f. f ≡ slice_index listed_moduli place) }
{
    listed_moduli_law();
    let moduli = [2, 3, 5, 7, 11, 13, 101, 32003, 65521, 1000003];
    Field::new(alloc, moduli[place])
}

/// The residues of the first multiples of a number.
fn residues(alloc: Global, field: &Field, count: usize, step: u64) -> Result<Vec<u32>, NoMemory>
    ensures residues { IfOk result (λ v. All (λ r. r < field.now) v.items) }
    ensures count { IfOk result (λ v. length v.items ≡ count) }
{
    let _modulus = field.modulus();
    let mut all = Vec::with_capacity(alloc, count)?;
    for k in 0..count {
        all.push(field.from_wide(k as u128 * u128::from(step)))?;
    }
    Ok(all)
}

/// The same sums by places and by lanes.
fn both(
    alloc: Global,
    field: &Field,
    count: usize,
    factor: u64,
) -> Result<(Vec<u32>, Vec<u32>), NoMemory> {
    let _modulus = field.modulus();
    let a = field.from_wide(u128::from(factor));
    let x = residues(alloc, field, count, 4294967291)?;
    let mut by_places = residues(alloc, field, count, 2654435769)?;
    let mut by_lanes = residues(alloc, field, count, 2654435769)?;
    field.axpy(by_places.as_mut_slice(), a, x.as_slice());
    axpy_lanes(field, by_lanes.as_mut_slice(), a, x.as_slice());
    Ok((by_places, by_lanes))
}

#[test]
fn lanes_and_places_agree(rt: HostRuntime) -> Result<(), Fail> {
    let alloc = rt.alloc();
    for place in [6, 7, 8, 9] {
        let field = listed_field(alloc, place)?;
        let modulus = field.modulus();
        for count in [0, 1, 7, 8, 9, 15, 16, 17, 25] {
            for factor in [0, 1, 32768, 18446744073709551557] {
                let (by_places, by_lanes) = both(alloc, &field, count, factor)?;
                assert_eq!(rt;
                    by_lanes.as_slice(),
                    by_places.as_slice(),
                    "{count} places modulo {modulus}"
                );
            }
        }
    }
    Ok(())
}

/// Less x is x times the greatest residue.
#[test]
fn a_list_less_itself_is_0(rt: HostRuntime) -> Result<(), Fail> {
    let alloc = rt.alloc();
    for place in [6, 9] {
        let field = listed_field(alloc, place)?;
        let x = residues(alloc, &field, 11, 1)?;
        let mut y = residues(alloc, &field, 11, 1)?;
        axpy_lanes(&field, y.as_mut_slice(), field.modulus() - 1, x.as_slice());
        assert_eq!(rt; y.as_slice(), [0; 11].as_slice());
    }
    Ok(())
}
