ghost use Rattle.std.specs.Prelude.{◌≡◌, [], ◌+◌, ◌*◌, ◌/◌, ◌<◌, ◌≤◌, ℕ, List, All, AllPairs, IfOk, length, map};
ghost use Rattle.std.specs.Prelude.{replicate, slice_index_or};
ghost use Rattle.words.specs.Order.{IsLetterwiseGreater};
ghost use Rattle.free_poly.specs.declared.term.Term.{Term};
ghost use Rattle.free_poly.specs.Poly.{IsPolynomial};
ghost use Rattle.back_reduce.specs.Entries.{AreEntries};
ghost use Rattle.row_laws.specs.Contested.{AreContestedRows};
ghost use Rattle.row_store.specs.Blocks.{lane};
ghost use Rattle.row_store.specs.Contested.{IsOnColumns};
ghost use Rattle.row_store.specs.Entries.{dense_of};
ghost use Rattle.row_store.specs.Marks.{mark_at, AreMarks};
ghost use Rattle.row_store.specs.Sums.{cells_of, IsRowAmong};

use crate::block::clear_block;
use crate::buffer::Buffer;
use crate::left::Left;
use crate::rows::write_lane;
use back_reduce::Row;
use field_table::{Field, NoMemory};
use free_poly::Poly;
use std::alloc::Global;
use symbolic_prep::Closed;

/// What eight rows leave at the contested columns.
pub(crate) fn reduced_block(
    alloc: Global,
    field: &Field,
    closed: &Closed,
    places: &[u32],
    buffer: &mut Buffer,
    rows: &[Poly],
) -> Result<Vec<Row>, NoMemory>
    requires eight { length rows.now ≡ 8 }
    requires delayed { field.now ≤ 4194304 }
    requires rows { All (IsRowAmong field.now closed.now places.now) rows.now }
    ensures { IfOk result (λ left. AreContestedRows field.now closed.now.columns closed.now.reducers rows.now
        left.items) }
{
    let p = field.modulus();
    let count = closed.len() as usize;
    let m = closed.contested().len() as u32;
    let mut left = nothing_left(alloc)?;
    let mut held = buffer.take(alloc, count * 8, count / 64 + 1)?;
    let sums = held.sums.as_mut_slice();
    let bits = held.bits.as_mut_slice();
    write_lanes(closed, rows, sums, bits);
    clear_block(p, closed, places, sums, bits, left.as_mut_slice())?;
    buffer.put(held);
    rows_of(alloc, left, m)
}

/// Eight times nothing.
fn nothing_left(alloc: Global) -> Result<Vec<Left>, NoMemory>
    ensures count { IfOk result (λ left. length left.items ≡ 8) }
    ensures nothing { IfOk result (λ left. All (λ l. (l.places.items ≡ []) × (l.residues.items ≡ [])) left.items) }
{
    let mut left = Vec::with_capacity(alloc, 8)?;
    for i in 0..8u32 {
        left.push(Left::new(alloc))?;
    }
    Ok(left)
}

/// Writes eight rows into their sums.
fn write_lanes(closed: &Closed, rows: &[Poly], sums: &mut [u64], bits: &mut [u64])
    requires eight { length rows.now ≡ 8 }
    requires falling { AllPairs IsLetterwiseGreater closed.now.columns }
    requires on_columns { All (IsOnColumns closed.now.columns) rows.now }
    requires few { length closed.now.columns ≤ 1048576 }
    requires zeros { sums.old ≡ replicate (length closed.now.columns * 8) 0 }
    requires words { length bits.old ≡ length closed.now.columns / 64 + 1 }
    requires unmarked { (k : ℕ) → mark_at bits.old k ≡ 0 }
    ensures forms { All IsPolynomial rows.now }
    ensures lanes { (i : ℕ) (f : List Term) → i < 8
        → lane sums.new i ≡ dense_of closed.now.columns (slice_index_or rows.now i f) }
    ensures marks { (i : ℕ) → i < 8 → AreMarks (lane sums.new i) bits.new }
{
    for i in 0..8usize {
        write_lane(closed, &rows[i], i, sums, bits);
    }
}

/// The rows of m residues that these are.
fn rows_of(alloc: Global, left: Vec<Left>, m: u32) -> Result<Vec<Row>, NoMemory>
    requires { All (λ l. AreEntries m l.places.items l.residues.items) left.items }
    ensures { IfOk result (λ rows. rows.items ≡ map (cells_of m) left.items) }
{
    let mut rows = Vec::with_capacity(alloc, left.len())?;
    for one in left {
        rows.push(one.into_row(alloc, m)?)?;
    }
    Ok(rows)
}
