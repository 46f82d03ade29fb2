use crate::presented::algebra_of;
use overlaps::{OverlapFault, obstructions};
use std::alloc::Global;
use std::process::Abort;
use std::test::Fail;
use std::thread::Threads;

/// The obstructions of a degree over the basis of a text up to another degree are these, by word, left and right
/// element and what they share, and one less is refused.
pub fn assert_overlaps<R: Abort + Threads + Sync>(
    rt: &R,
    alloc: Global,
    text: &str,
    done: u32,
    d: u32,
    expected: &[(&[u8], u32, u32, u32)],
) -> Result<(), Fail> {
    let algebra = algebra_of(rt, alloc, text, done)?;
    let count = expected.len();
    assert!(rt; count < 9);
    let found = obstructions(alloc, &algebra.basis, d, count as u32)?;
    assert_eq!(rt; found.len(), count, "{text} {d}");
    for (one, (word, left, right, shared)) in found.iter().zip(expected) {
        assert_eq!(rt; one.word.letters(), *word, "{text} {d}");
        assert_eq!(rt;
            (one.left, one.right, one.shared),
            (*left, *right, *shared),
            "{text} {d}"
        );
    }
    if count > 0 {
        let refused = obstructions(alloc, &algebra.basis, d, count as u32 - 1);
        assert!(rt; matches!(refused, Err(OverlapFault::TooMany)), "{text} {d}");
    }
    Ok(())
}

/// A word overlaps itself by each length that begins and ends it, and degrees go by weights.
#[test]
fn words_overlap_by_several_lengths(rt: HostRuntime) -> Result<(), Fail> {
    let alloc = rt.alloc();
    let alone = "vars x,y; x*y*x*y*x;";
    let by_three = (&[0, 1, 0, 1, 0, 1, 0][..], 0, 0, 3);
    let by_one = (&[0, 1, 0, 1, 0, 1, 0, 1, 0][..], 0, 0, 1);
    assert_overlaps(&rt, alloc, alone, 5, 7, &[by_three])?;
    assert_overlaps(&rt, alloc, alone, 5, 8, &[])?;
    assert_overlaps(&rt, alloc, alone, 5, 9, &[by_one])?;

    let first = (&[0, 1, 0, 0][..], 0, 1, 1);
    let second = (&[1, 0, 0, 1][..], 1, 0, 1);
    assert_overlaps(&rt, alloc, "vars x,y; x*y, y*x^2;", 3, 4, &[first, second])?;
    let weighted = "vars x:2, y; x*y, y*x^2;";
    assert_overlaps(&rt, alloc, weighted, 5, 6, &[second])?;
    assert_overlaps(&rt, alloc, weighted, 5, 7, &[first])?;
    Ok(())
}
