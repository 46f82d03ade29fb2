ghost use Rattle.std.specs.Prelude.{◌≡◌, ◌≤◌, [], OnOk};

use crate::{SeriesFault, series};
use ideal_laws::{Basis, Limits};
use std::alloc::Global;
use std::test::Fail;
use words::{Alphabet, NoMemory};

/// Pushes degrees without elements up to this one.
fn push_nothing(alloc: Global, basis: &mut Basis, done: u32) -> Result<(), NoMemory>
    requires small { done ≤ 64 }
    requires fresh { basis.old.done ≡ 0 }
    requires none { basis.old.elements ≡ [] }
    ensures weights { basis.new.weights ≡ basis.old.weights }
    ensures done { OnOk result (basis.new.done ≡ done) }
    ensures none { OnOk result (basis.new.elements ≡ []) }
{
    for _degree in 0..done {
        basis.push_degree(Vec::new(alloc))?;
    }
    Ok(())
}

#[test]
fn words_of_free_algebras_are_counted(rt: HostRuntime) -> Result<(), Fail> {
    let alloc = rt.alloc();
    for (weights, want) in [
        ([1, 1], [1, 2, 4, 8, 16]),
        ([2, 1], [1, 1, 2, 3, 5]),
        ([2, 3], [1, 0, 1, 1, 1]),
        ([8, 4], [1, 0, 0, 0, 1]),
    ] {
        let names = vec![in alloc; b"x".to_vec(alloc)?, b"y".to_vec(alloc)?]?;
        let alphabet = Alphabet::weighted(alloc, names, Vec::from_slice(alloc, &weights)?)?;
        let mut basis = Basis::new(alloc, &alphabet);
        push_nothing(alloc, &mut basis, 4)?;
        let numbers = series(alloc, &alphabet, &basis, 4, &Limits::standard())?;
        assert_eq!(rt; numbers.as_slice(), want.as_slice(), "{weights:?}");
    }
    Ok(())
}

#[test]
fn the_first_large_degree_is_refused(rt: HostRuntime) -> Result<(), Fail> {
    let alloc = rt.alloc();
    let names = vec![in alloc; b"x".to_vec(alloc)?, b"y".to_vec(alloc)?]?;
    let alphabet = Alphabet::new(alloc, names)?;
    let mut basis = Basis::new(alloc, &alphabet);
    push_nothing(alloc, &mut basis, 22)?;
    for (most, refused, last) in [(0, 0, 0), (4, 3, 4), (2_097_152, 22, 2_097_152)] {
        let mut limits = Limits::standard();
        limits.normal_words = most;
        let outcome = series(alloc, &alphabet, &basis, 22, &limits);
        match outcome {
            Err(
                SeriesFault::Limit {
                    degree,
                    value,
                    below,
                },
            ) => {
                let below = below.into_vec();
                assert_eq!(rt; degree, refused, "at most {most}");
                assert_eq!(rt; value, u64::from(most) + 1, "at most {most}");
                assert_eq!(rt; below.len(), refused as usize, "at most {most}");
                assert_eq!(rt; last_of(below.as_slice()), last, "at most {most}");
            }
            _ => panic!(rt; "at most {most}"),
        }
    }
    Ok(())
}

fn last_of(numbers: &[u64]) -> u64 {
    match numbers.last() {
        Some(number) => *number,
        None => 0,
    }
}
