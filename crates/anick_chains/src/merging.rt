ghost use Rattle.std.specs.Prelude.{◌≡◌, ◌+◌, ◌*◌, ◌^◌, ◌<◌, List, ℕ, All, IfOk, IsTrue, OnOk};
ghost use Rattle.std.specs.List.{sum_by};
ghost use Rattle.std.specs.List.Sorted.{IsPermutation};
ghost use Rattle.anick_chains.specs.Tallies.{TellsSame, tally_total, tally_weight};

use crate::tallies::push_tally;
use crate::tally::Tally;
use std::alloc::Global;
use words::{NoMemory, letterwise};

/// The tallies of one degree, where those with one length and one last piece are added up.
pub(crate) fn merged(alloc: Global, tallies: Vec<Tally>) -> Result<Vec<Tally>, NoMemory>
    requires small { tally_total tallies.items < 2 ^ 32 }
    requires some { All (λ t. 0 < t.count) tallies.items }
    ensures same { IfOk result (λ found. TellsSame found.items tallies.items) }
    ensures some { IfOk result (λ found. All (λ t. 0 < t.count) found.items) }
{
    let mut sorted = tallies;
    sort(&mut sorted);
    let mut found = Vec::new(alloc);
    for tally in sorted.as_slice() {
        push_or_add(alloc, tally, &mut found)?;
    }
    Ok(found)
}

/// By length, and then by the letters of the last piece.
fn sort(tallies: &mut Vec<Tally>)
    ensures { IsPermutation tallies.old.items tallies.new.items }
{
    tallies.sort_unstable_by(|a, b| {
        a.size
            .cmp(&b.size)
            .then(letterwise(a.last.letters(), b.last.letters()))
    });
}

/// Adds to the last tally, where it has the same length and last piece, or else appends.
fn push_or_add(alloc: Global, tally: &Tally, found: &mut Vec<Tally>) -> Result<(), NoMemory>
    requires small { tally_total found.old.items + tally.now.count < 2 ^ 32 }
    requires some { All (λ t. 0 < t.count) found.old.items }
    requires more { 0 < tally.now.count }
    ensures same { OnOk result ((f : ℕ → ℕ → List ℕ → ℕ) →
        sum_by (tally_weight f) found.new.items ≡ sum_by (tally_weight f) found.old.items + tally_weight f tally.now) }
    ensures some { OnOk result (All (λ t. 0 < t.count) found.new.items) }
{
    let len = found.len();
    if len > 0 && is_alike(&found[len - 1], tally) {
        found[len - 1].count += tally.count;
        return Ok(());
    }
    push_tally(
        alloc,
        tally.degree,
        tally.size,
        &tally.last,
        tally.count,
        found,
    )
}

fn is_alike(a: &Tally, b: &Tally) -> bool
    ensures degree { IsTrue result → a.now.degree ≡ b.now.degree }
    ensures size { IsTrue result → a.now.size ≡ b.now.size }
    ensures last { IsTrue result → a.now.last ≡ b.now.last }
{
    a.degree == b.degree && a.size == b.size && a.last.letters() == b.last.letters()
}
