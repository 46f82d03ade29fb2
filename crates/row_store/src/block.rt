ghost use Rattle.std.specs.Prelude.{◌≡◌, [], ◌+◌, ◌*◌, ◌/◌, ◌<◌, ◌≤◌, ℕ, List, All, AllPairs, OnOk, length};
ghost use Rattle.std.specs.Prelude.{slice_index_or};
ghost use Rattle.words.specs.Order.{IsLetterwiseGreater};
ghost use Rattle.row_store.specs.Blocks.{lane, AreWalked};
ghost use Rattle.row_store.specs.declared.left.Left.{Left};
ghost use Rattle.row_store.specs.Entries.{reducers_over};
ghost use Rattle.row_store.specs.Marks.{mark_at, AreMarks};
ghost use Rattle.row_store.specs.Sums.{IsClearing, IsLeft};

use crate::entries::unmark;
use crate::lanes::{add_lanes, opposites, push_residues, take_residues};
use crate::left::Left;
use field_table::NoMemory;
use symbolic_prep::Closed;

/// Clears eight rows from the left, as `clear` does with one. A column is looked at where any of them has it, and the
/// entries of a reducer are read once for all.
pub(crate) fn clear_block(
    p: u32,
    closed: &Closed,
    places: &[u32],
    sums: &mut [u64],
    bits: &mut [u64],
    left: &mut [Left],
) -> Result<(), NoMemory>
    requires columns { length closed.now.columns ≡ length sums.old / 8 }
    requires whole { length sums.old ≡ length sums.old / 8 * 8 }
    requires falling { AllPairs IsLetterwiseGreater closed.now.columns }
    requires clearing { IsClearing p (length sums.old / 8) (reducers_over closed.now) places.now }
    requires delayed { p ≤ 4194304 }
    requires rows { (i : ℕ) → i < 8 → All (λ a. a < p) (lane sums.old i) }
    requires marks { (i : ℕ) → i < 8 → AreMarks (lane sums.old i) bits.old }
    requires count { length left.old ≡ 8 }
    requires nothing { All (λ l. (l.places.items ≡ []) × (l.residues.items ≡ [])) left.old }
    ensures left { OnOk result ((i : ℕ) (d : Left) → i < 8
        → IsLeft p (reducers_over closed.now) (lane sums.old i) (slice_index_or left.new i d)) }
    ensures sums { OnOk result (All (λ a. a ≡ 0) sums.new) }
    ensures bits { OnOk result ((k : ℕ) → mark_at bits.new k ≡ 0) }
{
    for k in 0..bits.len() {
        clear_word(p, closed, places, k, sums, bits, left)?;
    }
    Ok(())
}

/// Clears the columns of a word.
fn clear_word(
    p: u32,
    closed: &Closed,
    places: &[u32],
    k: usize,
    sums: &mut [u64],
    bits: &mut [u64],
    left: &mut [Left],
) -> Result<(), NoMemory>
    requires columns { length closed.now.columns ≡ length sums.old / 8 }
    requires falling { AllPairs IsLetterwiseGreater closed.now.columns }
    requires clearing { IsClearing p (length sums.old / 8) (reducers_over closed.now) places.now }
    requires delayed { p ≤ 4194304 }
    requires within { k < length bits.old }
    requires walked { (starts : ℕ → List ℕ)
        × AreWalked p (reducers_over closed.now) starts (k * 64) sums.old bits.old left.old }
    ensures { OnOk result ((starts : ℕ → List ℕ)
        → AreWalked p (reducers_over closed.now) starts (k * 64) sums.old bits.old left.old
        → AreWalked p (reducers_over closed.now) starts ((k + 1) * 64) sums.new bits.new left.new) }
{
    for step in 0..64usize {
        let rest = bits[k];
        if rest == 0 {
            return Ok(());
        }
        let at = k * 64 + rest.trailing_zeros() as usize;
        clear_column(p, closed, places, at, sums, bits, left)?;
    }
    Ok(())
}

/// Clears a column.
#[inline(always)]
fn clear_column(
    p: u32,
    closed: &Closed,
    places: &[u32],
    at: usize,
    sums: &mut [u64],
    bits: &mut [u64],
    left: &mut [Left],
) -> Result<(), NoMemory>
    requires columns { length closed.now.columns ≡ length sums.old / 8 }
    requires falling { AllPairs IsLetterwiseGreater closed.now.columns }
    requires clearing { IsClearing p (length sums.old / 8) (reducers_over closed.now) places.now }
    requires delayed { p ≤ 4194304 }
    requires within { at < length sums.old / 8 }
    requires walked { (starts : ℕ → List ℕ)
        × AreWalked p (reducers_over closed.now) starts at sums.old bits.old left.old }
    ensures { OnOk result ((starts : ℕ → List ℕ)
        → AreWalked p (reducers_over closed.now) starts at sums.old bits.old left.old
        → AreWalked p (reducers_over closed.now) starts (at + 1) sums.new bits.new left.new) }
{
    let found = take_residues(p, sums, at);
    unmark(bits, at);
    match closed.tail(at as u32) {
        Some((columns, residues)) => add_lanes(sums, bits, opposites(p, found), columns, residues),
        None => push_residues(left, places[at], found)?,
    }
    Ok(())
}
