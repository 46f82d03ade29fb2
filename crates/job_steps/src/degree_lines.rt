ghost use Rattle.std.specs.Prelude.{◌≡◌, ◌≢◌, ◌≤◌, ◌<◌, [], All, Err, IfErr, IfOk, OnOk, length, slice_index_or};
ghost use Rattle.std.specs.List.{AllZip, flat_map, slice_range};
ghost use Rattle.rayon.specs.Numbers.{nat_range};
ghost use Rattle.free_poly.specs.Terms.{HasResidues};
ghost use Rattle.ideal_laws.specs.Engine.{of_degree};
ghost use Rattle.ideal_laws.specs.Kept.{IsKept};
ghost use Rattle.poly_writer.specs.Texts.{degree_text, element_line};
ghost use Rattle.job_steps.specs.Gains.{CountsWrites, GainsAll, IsUnwritten};
ghost use Rattle.job_steps.specs.States.{state_of};

use crate::print::{PrintFault, write_text};
use bg_io::Sink;
use field_table::Field;
use ideal_laws::Basis;
use poly_writer::{element_line, head_line};
use rayon::prelude::*;
use std::alloc::Global;
use std::thread::Threads;
use words::{Alphabet, NoMemory};

/// Writes the lines of the last degree that is done, each by itself.
pub(crate) fn write_degree<R: Threads + Sync, K: Sink>(
    rt: &R,
    alloc: Global,
    alphabet: &Alphabet,
    field: &Field,
    basis: &Basis,
    out: &mut K,
) -> Result<(), PrintFault>
    requires weights { basis.now.weights ≡ alphabet.now.weights }
    requires residues { All (HasResidues field.now) basis.now.elements }

    ensures written { OnOk result (GainsAll (state_of K.Sink out.old) (state_of K.Sink out.new)
        (degree_text alphabet.now.names field.now basis.now.done
        (of_degree basis.now.weights basis.now.done basis.now.elements))) }
    ensures unwritten { IfErr result (IsUnwritten (state_of K.Sink out.old) (state_of K.Sink out.new)
        (degree_text alphabet.now.names field.now basis.now.done
        (of_degree basis.now.weights basis.now.done basis.now.elements))) }
    ensures steady { result ≢ Err PrintFault.WriteFault → K.faults out.new ≡ K.faults out.old }
    ensures calls { CountsWrites (state_of K.Sink out.old) (state_of K.Sink out.new) result }
{
    let d = basis.done();
    let (first, end) = basis.of_degree(d);
    if first == end {
        return Ok(());
    }
    let line = head_line(alloc, d)?;
    write_text(out, line.as_slice())?;
    match write_elements(rt, alloc, alphabet, field, basis, first, end, out) {
        Ok(()) => Ok(()),
        Err(fault) => Err(fault),
    }
}

/// Writes the lines of the elements from one place to before another.
fn write_elements<R: Threads + Sync, K: Sink>(
    rt: &R,
    alloc: Global,
    alphabet: &Alphabet,
    field: &Field,
    basis: &Basis,
    first: u32,
    end: u32,
    out: &mut K,
) -> Result<(), PrintFault>
    requires rising { first ≤ end }
    requires within { end ≤ length basis.now.elements }
    requires weights { basis.now.weights ≡ alphabet.now.weights }
    requires residues { All (HasResidues field.now) basis.now.elements }

    ensures written { OnOk result (GainsAll (state_of K.Sink out.old) (state_of K.Sink out.new)
        (flat_map (element_line alphabet.now.names field.now) (slice_range basis.now.elements first end))) }
    ensures unwritten { IfErr result (IsUnwritten (state_of K.Sink out.old) (state_of K.Sink out.new)
        (flat_map (element_line alphabet.now.names field.now) (slice_range basis.now.elements first end))) }
    ensures steady { result ≢ Err PrintFault.WriteFault → K.faults out.new ≡ K.faults out.old }
    ensures calls { CountsWrites (state_of K.Sink out.old) (state_of K.Sink out.new) result }
{
    let lines = element_lines(rt, alloc, alphabet, field, basis, first, end)?;
    for place in first..end {
        write_text(out, lines[(place - first) as usize].as_slice())?;
    }
    Ok(())
}

/// The lines of the elements from one place to before another. They are made side by side.
fn element_lines<R: Threads + Sync>(
    rt: &R,
    alloc: Global,
    alphabet: &Alphabet,
    field: &Field,
    basis: &Basis,
    first: u32,
    end: u32,
) -> Result<Vec<Vec<u8>>, NoMemory>
    requires rising { first ≤ end }
    requires within { end ≤ length basis.now.elements }
    requires weights { basis.now.weights ≡ alphabet.now.weights }
    requires residues { All (HasResidues field.now) basis.now.elements }
    ensures { IfOk result (λ lines. AllZip (λ place line. line.items
        ≡ element_line alphabet.now.names field.now (slice_index_or basis.now.elements place []))
        (nat_range first end) lines.items) }
{
    let _done = basis.done();
    (first..end)
        .into_par_iter()
        .with_min_len(lines_a_part(basis, first, end))
        .map(
            move |place: u32| -> Result<Vec<u8>, NoMemory>
                requires { (place < length basis.now.elements) × (basis.now.weights ≡ alphabet.now.weights)
                    × IsKept basis.now × All (HasResidues field.now) basis.now.elements }
                ensures { IfOk result (λ line. line.items ≡ element_line alphabet.entry.now.names field.entry.now
                    (slice_index_or basis.entry.now.elements place [])) }
            { element_line(alloc, alphabet, field, basis.element(place)) },
        )
        .collect::<Result<Vec<Vec<u8>>, NoMemory>>(rt, alloc)?
}

/// How many lines a thread is to make at least. Where elements have few terms, no thread is worth its start.
fn lines_a_part(basis: &Basis, first: u32, end: u32) -> usize
    requires rising { first ≤ end }
    requires within { end ≤ length basis.now.elements }
{
    let mut terms = 0usize;
    for place in first..end {
        terms = terms.saturating_add(basis.element(place).terms().len());
    }
    let each = terms / (end - first).max(1) as usize;
    (16_384 / each.max(1)).max(1)
}
