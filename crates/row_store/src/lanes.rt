ghost use Rattle.std.specs.Prelude.{◌≡◌, ◌≢◌, ◌+◌, ◌*◌, ◌/◌, ◌%◌, ◌<◌, ◌≤◌, ◌^◌, ◌-◌, ℕ, All, OnOk, length, map};
ghost use Rattle.std.specs.Prelude.{slice_index, nat_lt, if◌then◌else◌, slice_index_or};
ghost use Rattle.std.specs.Simd.Lanes.{zip2};
ghost use Rattle.row_store.specs.Blocks.{IsKept};
ghost use Rattle.row_store.specs.declared.left.Left.{Left};
ghost use Rattle.row_store.specs.Entries.{AreEntries, entries_on, residue_at};
ghost use Rattle.row_store.specs.Marks.{mark_at};

use crate::entries::mark;
use crate::left::Left;
use field_table::NoMemory;
use std::simd::prelude::*;

/// Adds to the sums of eight rows, which stand beside each other at each column, each its multiple of the entries, and
/// marks their columns.
pub(crate) fn add_lanes(
    sums: &mut [u64],
    bits: &mut [u64],
    factors: u32x8,
    columns: &[u32],
    residues: &[u32],
)
    requires sizes { length columns.now ≡ length residues.now }
    requires whole { length sums.old ≡ length sums.old / 8 * 8 }
    requires entries { (p : ℕ) × AreEntries p (length sums.old / 8) (entries_on columns.now residues.now) }
    requires words { length bits.old ≡ length sums.old / 8 / 64 + 1 }
    requires room { (k i : ℕ) → i < 8 → slice_index sums.old (k * 8 + i) + slice_index factors i
        * residue_at (entries_on columns.now residues.now) k < 2 ^ 64 }

    ensures sums { (k i : ℕ) → i < 8 → slice_index sums.new (k * 8 + i) ≡ slice_index sums.old (k * 8 + i)
        + slice_index factors i * residue_at (entries_on columns.now residues.now) k }
    ensures kept { (k : ℕ) → mark_at bits.old k ≡ 1 → mark_at bits.new k ≡ 1 }
    ensures marked { (k : ℕ) → residue_at (entries_on columns.now residues.now) k ≢ 0 → mark_at bits.new k ≡ 1 }
    ensures others { (k : ℕ) → All (λ e. e.column ≢ k) (entries_on columns.now residues.now)
        → mark_at bits.new k ≡ mark_at bits.old k }
{
    for (place, column) in columns.iter().enumerate() {
        let at = *column as usize * 8;
        let before = u64x8::from_slice(&sums[at..]);
        added(before, factors, residues[place]).copy_to_slice(&mut sums[at..]);
        mark(bits, *column as usize);
    }
}

/// Eight sums with their multiples of a residue. Both factors are widened, since a product of 64 bits takes longer.
#[inline(always)]
fn added(sums: u64x8, factors: u32x8, residue: u32) -> u64x8
    requires room { (i : ℕ) → i < 8 → slice_index sums i + slice_index factors i * residue < 2 ^ 64 }
    ensures { result ≡ zip2 (λ s f. s + f * residue) sums factors }
{
    sums + factors.cast::<u64>() * u32x8::splat(residue).cast::<u64>()
}

/// The residues of the eight sums at a column, which are then 0.
#[inline(always)]
pub(crate) fn take_residues(p: u32, sums: &mut [u64], at: usize) -> u32x8
    requires modulus { 0 < p }
    requires within { at * 8 + 8 ≤ length sums.old }
    requires fits { at < 2 ^ 32 }
    ensures residues { (i : ℕ) → i < 8 → slice_index result i ≡ slice_index sums.old (at * 8 + i) % p }
    ensures zeros { (i : ℕ) → i < 8 → slice_index sums.new (at * 8 + i) ≡ 0 }
    ensures others { (k i : ℕ) → i < 8 → k ≢ at → slice_index sums.new (k * 8 + i) ≡ slice_index sums.old (k * 8 + i) }
{
    let place = at * 8;
    let residues = u64x8::from_slice(&sums[place..]) % u64x8::splat(u64::from(p));
    u64x8::splat(0).copy_to_slice(&mut sums[place..]);
    residues.cast::<u32>()
}

/// What makes each of eight residues 0 when it is added.
#[inline(always)]
pub(crate) fn opposites(p: u32, residues: u32x8) -> u32x8
    requires small { p < 2 ^ 31 }
    requires residues { (i : ℕ) → i < 8 → slice_index residues i < p }
    ensures below { (i : ℕ) → i < 8 → slice_index result i < p }
    ensures opposite { (i : ℕ) → i < 8 → (slice_index residues i + slice_index result i) % p ≡ 0 }
{
    capped(p, u32x8::splat(p) - residues)
}

/// Each lane less p, where it is not below p.
#[inline(always)]
fn capped(p: u32, lanes: u32x8) -> u32x8
    ensures { result ≡ map (λ r. if nat_lt r p then r else r - p) lanes }
{
    lanes.simd_min(lanes - u32x8::splat(p))
}

/// Pushes the residues other than 0, each to what its row leaves.
pub(crate) fn push_residues(left: &mut [Left], place: u32, residues: u32x8) -> Result<(), NoMemory>
    requires { length left.old ≡ 8 }
    ensures { OnOk result ((i : ℕ) (d : Left) → i < 8
        → IsKept place (slice_index residues i) (slice_index_or left.old i d) (slice_index_or left.new i d)) }
{
    let residues = residues.to_array();
    for i in 0..8usize {
        if residues[i] != 0 {
            left[i].push(place, residues[i])?;
        }
    }
    Ok(())
}
