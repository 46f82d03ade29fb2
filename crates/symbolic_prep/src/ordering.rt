ghost use Rattle.std.specs.Prelude.{◌≡◌, ◌≢◌, ◌-◌, ◌%◌, ◌<◌, ◌≤◌, ◌++◌, List, ℕ, All, AllPairs, IfOk, IsTrue, None};
ghost use Rattle.std.specs.Prelude.{OnOk, length, map};
ghost use Rattle.std.specs.Prelude.{slice_index, slice_index_or};
ghost use Rattle.std.specs.List.{AllZip, range_with_len};
ghost use Rattle.symbolic_prep.specs.Orders.{IsMoved, IsRising, IsSpanIn, columns_at};
ghost use Rattle.symbolic_prep.specs.Numbers.{IsLonger};

use crate::lists::{Span, place_behind};
use std::alloc::Global;
use words::NoMemory;

/// Keys with this many places behind each have room for the number of one, if there are no more.
const NUMBERS: u64 = 1_048_576;

/// The keys by rising key, and the number of each. Where numbers have room behind the keys, one number is sorted in
/// place of two.
pub(crate) fn rising(alloc: Global, keys: &[u64]) -> Result<(Vec<u64>, Vec<u32>), NoMemory>
    requires few { length keys.now < 4294967296 }
    requires apart { AllPairs (λ a b. a ≢ b) keys.now }
    ensures { IfOk result (λ parts. (pairs : List (ℕ × ℕ)) × IsRising keys.now pairs
        × (parts.0.items ≡ map (λ p. p.0) pairs) × (parts.1.items ≡ map (λ p. p.1) pairs)) }
{
    if has_room(keys) {
        let mut sums = summed(alloc, keys)?;
        sums.sort_unstable();
        return split(alloc, sums.as_slice());
    }
    let mut pairs = numbered(alloc, keys)?;
    pairs.sort_unstable_by_key(|pair| pair.0);
    parted(alloc, pairs.as_slice())
}

/// Whether there is room behind each key for the number of one.
fn has_room(keys: &[u64]) -> bool
    ensures { IsTrue result → (length keys.now ≤ 1048576) × All (λ k. k % 1048576 ≡ 0) keys.now }
{
    if keys.len() as u64 > NUMBERS {
        return false;
    }
    for key in keys {
        if *key % NUMBERS != 0 {
            return false;
        }
    }
    true
}

/// Each key with its number behind it.
fn summed(alloc: Global, keys: &[u64]) -> Result<Vec<u64>, NoMemory>
    requires few { length keys.now ≤ 1048576 }
    requires room { All (λ k. k % 1048576 ≡ 0) keys.now }
    ensures keys { IfOk result (λ sums. map (λ s. s - s % 1048576) sums.items ≡ keys.now) }
    ensures numbers { IfOk result (λ sums. map (λ s. s % 1048576) sums.items ≡ range_with_len 0 (length keys.now)) }
{
    let mut sums = Vec::with_capacity(alloc, keys.len())?;
    for (number, key) in keys.iter().enumerate() {
        sums.push(*key + number as u64)?;
    }
    Ok(sums)
}

/// The keys alone, and the numbers behind them.
fn split(alloc: Global, sums: &[u64]) -> Result<(Vec<u64>, Vec<u32>), NoMemory>
    ensures keys { IfOk result (λ parts. parts.0.items ≡ map (λ s. s - s % 1048576) sums.now) }
    ensures numbers { IfOk result (λ parts. parts.1.items ≡ map (λ s. s % 1048576) sums.now) }
{
    let mut keys = Vec::with_capacity(alloc, sums.len())?;
    let mut numbers = Vec::with_capacity(alloc, sums.len())?;
    for sum in sums {
        let number = *sum % NUMBERS;
        keys.push(*sum - number)?;
        numbers.push(number as u32)?;
    }
    Ok((keys, numbers))
}

/// The keys, each with its number.
fn numbered(alloc: Global, keys: &[u64]) -> Result<Vec<(u64, u32)>, NoMemory>
    requires few { length keys.now < 4294967296 }
    ensures keys { IfOk result (λ pairs. map (λ p. p.0) pairs.items ≡ keys.now) }
    ensures numbers { IfOk result (λ pairs. map (λ p. p.1) pairs.items ≡ range_with_len 0 (length keys.now)) }
{
    let mut pairs = Vec::with_capacity(alloc, keys.len())?;
    for (number, key) in keys.iter().enumerate() {
        pairs.push((*key, number as u32))?;
    }
    Ok(pairs)
}

/// The keys alone, and the numbers alone.
fn parted(alloc: Global, pairs: &[(u64, u32)]) -> Result<(Vec<u64>, Vec<u32>), NoMemory>
    ensures keys { IfOk result (λ parts. parts.0.items ≡ map (λ p. p.0) pairs.now) }
    ensures numbers { IfOk result (λ parts. parts.1.items ≡ map (λ p. p.1) pairs.now) }
{
    let mut keys = Vec::with_capacity(alloc, pairs.len())?;
    let mut numbers = Vec::with_capacity(alloc, pairs.len())?;
    for pair in pairs {
        keys.push(pair.0)?;
        numbers.push(pair.1)?;
    }
    Ok((keys, numbers))
}

/// The column of each number, where the columns are listed by their numbers.
pub(crate) fn columns_of(alloc: Global, order: &[u32]) -> Result<Vec<u32>, NoMemory>
    requires few { length order.now < 4294967296 }
    requires within { All (λ n. n < length order.now) order.now }
    requires apart { AllPairs (λ a b. a ≢ b) order.now }
    ensures size { IfOk result (λ v. length v.items ≡ length order.now) }
    ensures columns { IfOk result (λ v. (c : ℕ) → c < length order.now →
        slice_index v.items (slice_index order.now c) ≡ c) }
{
    let mut columns = vec![in alloc; 0u32; order.len()]?;
    for (column, number) in order.iter().enumerate() {
        columns[*number as usize] = column as u32;
    }
    Ok(columns)
}

/// The column of each number, in its place.
pub(crate) fn rename(columns: &[u32], numbers: &mut Vec<u32>)
    requires { All (λ n. n < length columns.now) numbers.old.items }
    ensures { numbers.new.items ≡ columns_at columns.now numbers.old.items }
{
    for at in 0..numbers.len() {
        numbers[at] = columns[numbers[at] as usize];
    }
}

/// The reducers in another order, one behind another.
pub(crate) fn ordered(
    alloc: Global,
    spans: &[Option<Span>],
    numbers: &[u32],
    order: &[u32],
) -> Result<(Vec<Option<Span>>, Vec<u32>), NoMemory>
    requires order { All (λ n. n < length spans.now) order.now }
    requires within { All (IsSpanIn numbers.now) spans.now }
    ensures { IfOk result (λ parts. AllZip (IsMoved numbers.now parts.1.items)
        (map (λ n. slice_index_or spans.now n None) order.now) parts.0.items) }
{
    let mut ordered = spans_at(alloc, spans, order)?;
    let mut moved = Vec::with_capacity(alloc, numbers.len())?;
    for at in 0..ordered.len() {
        ordered[at] = push_moved(ordered[at], numbers, &mut moved)?;
    }
    Ok((ordered, moved))
}

/// The spans of some numbers.
fn spans_at(
    alloc: Global,
    spans: &[Option<Span>],
    order: &[u32],
) -> Result<Vec<Option<Span>>, NoMemory>
    requires { All (λ n. n < length spans.now) order.now }
    ensures { IfOk result (λ chosen. chosen.items ≡ map (λ n. slice_index_or spans.now n None) order.now) }
{
    let mut chosen = Vec::with_capacity(alloc, order.len())?;
    for number in order {
        chosen.push(spans[*number as usize])?;
    }
    Ok(chosen)
}

/// Adds the numbers at a span, if there is one.
fn push_moved(
    span: Option<Span>,
    numbers: &[u32],
    moved: &mut Vec<u32>,
) -> Result<Option<Span>, NoMemory>
    requires { IsSpanIn numbers.now span }
    ensures longer { OnOk result (IsLonger moved.old.items moved.new.items) }
    ensures moved { IfOk result (IsMoved numbers.now moved.new.items span) }
{
    match span {
        Some(span) => {
            let start = place_behind(moved.len())?;
            moved.extend_from_slice(&numbers[span.start as usize..span.end as usize])?;
            let end = place_behind(moved.len())?;
            Ok(Some(Span { start, end, ..span }))
        }
        None => Ok(None),
    }
}
