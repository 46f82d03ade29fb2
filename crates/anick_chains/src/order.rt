ghost use Rattle.std.specs.Prelude.{◌≡◌, length};
ghost use Rattle.anick_chains.specs.Compare.{falling_cmp, pieces_cmp};

use std::cmp::Ordering;
use words::{Word, compare_words};

/// Compares two chains of one degree: the shorter one comes first, and else the one with the greater piece at the first
/// place where they differ.
pub(crate) fn compare(weights: &[u8], a: &[Word], b: &[Word]) -> Ordering
    ensures { result ≡ pieces_cmp weights.now a.now b.now }
{
    match a.len().cmp(&b.len()) {
        Ordering::Equal => compare_pieces(weights, a, b),
        unequal => unequal,
    }
}

fn compare_pieces(weights: &[u8], a: &[Word], b: &[Word]) -> Ordering
    requires { length a.now ≡ length b.now }
    ensures { result ≡ falling_cmp weights.now a.now b.now }
{
    for at in 0..a.len() {
        match compare_words(weights, b[at].letters(), a[at].letters()) {
            Ordering::Equal => {}
            unequal => return unequal,
        }
    }
    Ordering::Equal
}
