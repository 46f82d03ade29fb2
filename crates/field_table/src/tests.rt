ghost use Rattle.std.specs.Prelude.{◌≡◌, ◌<◌, IfOk, slice_index};
ghost use Rattle.field_table.specs.Residues.{listed_moduli};

use crate::{Field, NoMemory};
use std::alloc::Global;
use std::test::Fail;

/// The field of the listed modulus at this place.
fn listed_field(alloc: Global, place: usize) -> Result<Field, NoMemory>
    requires { place < 10 }
    ensures { IfOk result (λ f. f ≡ slice_index listed_moduli place) }
{
    let moduli = [2, 3, 5, 7, 11, 13, 101, 32003, 65521, 1000003];
    Field::new(alloc, moduli[place])
}

#[test]
fn residues_have_inverses(rt: HostRuntime) -> Result<(), Fail> {
    for (place, modulus, a, inverse) in [
        (0, 2, 1, 1),
        (3, 7, 2, 4),
        (8, 65521, 2, 32761),
        (9, 1000003, 2, 500002),
        (9, 1000003, 3, 666669),
        (9, 1000003, 1000002, 1000002),
    ] {
        let field = listed_field(rt.alloc(), place)?;
        assert_eq!(rt; field.modulus(), modulus);
        assert!(rt; 0 < a && a < field.modulus());
        assert_eq!(rt; field.inv(a), inverse, "of {a} modulo {modulus}");
    }
    Ok(())
}

#[test]
fn residues_of_seven(rt: HostRuntime) -> Result<(), Fail> {
    let field = listed_field(rt.alloc(), 3)?;
    let copy = field.copy(rt.alloc())?;
    assert_eq!(rt; copy.modulus(), 7);
    assert_eq!(rt; copy.from_wide(u128::MAX), 3);
    let results = [
        field.add(3, 5),
        field.sub(3, 5),
        field.mul(3, 5),
        field.neg(0),
        field.neg(2),
    ];
    assert_eq!(rt; results, [1, 5, 1, 0, 5]);
    let mut row = [1, 2];
    field.axpy(&mut row, 3, &[4, 5]);
    assert_eq!(rt; row, [6, 3]);
    Ok(())
}
