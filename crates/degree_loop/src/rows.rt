ghost use Rattle.std.specs.Prelude.{◌≡◌, ◌+◌, ◌<◌, ◌≤◌, ◌∷◌, [], ℕ, List, All, Err, IfOk, OnOk, length};
ghost use Rattle.std.specs.List.{AllZip};
ghost use Rattle.free_poly.specs.Terms.{HasResidues};
ghost use Rattle.ideal_laws.specs.Ideal.{ideal_of};
ghost use Rattle.ideal_laws.specs.declared.limits.LimitKind.{LimitKind};
ghost use Rattle.ideal_laws.specs.declared.limits.LimitKind.TheVariants.{Rows};
ghost use Rattle.ideal_laws.specs.Closure.{AreObstructions, IsFactorFree, Overlap};
ghost use Rattle.ideal_laws.specs.Quantities.{AreRows, IsFirstPassing, IsQuantity, NonePasses};
ghost use Rattle.overlaps.specs.Listed.{AreListed, IsOf, IsRowFor};

use crate::relations::{count_of_degree, relations_of_degree};
use crate::terms::terms_below;
use field_table::Field;
use free_poly::Poly;
use ideal_laws::{Basis, EngineFault, LimitKind, Presentation};
use overlaps::{Obstruction, OverlapFault, obstructions};
use rayon::prelude::*;
use std::alloc::Global;
use std::thread::Threads;
use words::NoMemory;

/// The relations of degree d, and then the rows of its obstructions. More than the limit are refused before a row is
/// made.
pub(crate) fn rows_of_degree<R: Threads + Sync>(
    rt: &R,
    alloc: Global,
    field: &Field,
    presentation: &Presentation,
    below: &Basis,
    d: u32,
    most: u32,
) -> Result<Vec<Poly>, EngineFault>
    requires small { d ≤ 64 }
    requires weights { below.now.weights ≡ presentation.now.alphabet.weights }
    requires factor_free { IsFactorFree below.now.elements }
    requires residues { All (HasResidues field.now) below.now.elements }

    ensures rows { IfOk result (λ rows. AreRows (ideal_of field.now presentation.now) below.now.elements d rows.items) }
    ensures few { IfOk result (λ rows. length rows.items ≤ most) }
    ensures within { OnOk result (NonePasses (IsQuantity (ideal_of field.now presentation.now) below.now d)
        ((Rows, most) ∷ [])) }

    ensures limit { (kind : LimitKind) (degree value : ℕ) → result ≡ Err (EngineFault.Limit kind degree value)
        → (degree ≡ d) × IsFirstPassing (IsQuantity (ideal_of field.now presentation.now) below.now d)
        ((Rows, most) ∷ []) kind value }
{
    let given = count_of_degree(presentation, d);
    let found = obstructions_within(alloc, below, d, given, most)?;
    let mut rows = relations_of_degree(alloc, presentation, d)?;
    let mut others = obstruction_rows(rt, alloc, field, below, found.as_slice())?;
    rows.append(&mut others)?;
    Ok(rows)
}

/// The obstructions of degree d, where these and so many rows that are given are within the limit.
fn obstructions_within(
    alloc: Global,
    below: &Basis,
    d: u32,
    given: u32,
    most: u32,
) -> Result<Vec<Obstruction>, EngineFault>
    requires { IsFactorFree below.now.elements }

    ensures listed { IfOk result (λ found. AreListed below.now.weights below.now.elements d found.items) }
    ensures within { IfOk result (λ found. given + length found.items ≤ most) }

    ensures limit { (kind : LimitKind) (degree value : ℕ) → result ≡ Err (EngineFault.Limit kind degree value)
        → (degree ≡ d) × (kind ≡ Rows) × (value ≡ most + 1)
        × ((overlaps : List Overlap) × AreObstructions below.now.weights below.now.elements d overlaps
        × (most < given + length overlaps)) }
{
    match obstructions(alloc, below, d, most.saturating_sub(given)) {
        Ok(found) => {
            if given > most {
                return Err(too_many(d, most));
            }
            Ok(found)
        }
        Err(OverlapFault::TooMany) => Err(too_many(d, most)),
        Err(OverlapFault::NoMemory) => Err(EngineFault::NoMemory),
    }
}

fn too_many(d: u32, most: u32) -> EngineFault
    ensures { result ≡ EngineFault.Limit Rows d (most + 1) }
{
    EngineFault::Limit {
        kind: LimitKind::Rows,
        degree: d,
        value: u64::from(most) + 1,
    }
}

/// The rows of these obstructions, in their order. They are made side by side.
pub fn obstruction_rows<R: Threads + Sync>(
    rt: &R,
    alloc: Global,
    field: &Field,
    below: &Basis,
    found: &[Obstruction],
) -> Result<Vec<Poly>, NoMemory>
    requires obstructions { All (IsOf below.now.weights below.now.elements) found.now }
    requires residues { All (HasResidues field.now) below.now.elements }
    ensures { IfOk result (λ rows. AllZip (IsRowFor field.now below.now.weights below.now.elements) found.now
        rows.items) }
{
    found
        .par_iter()
        .with_min_len(rows_a_part(below))
        .map(
            move |obstruction: &Obstruction| -> Result<Poly, NoMemory>
                requires { IsOf below.now.weights below.now.elements obstruction.now
                    × All (HasResidues field.now) below.now.elements }
                ensures { IfOk result (IsRowFor field.entry.now below.entry.now.weights below.entry.now.elements
                    obstruction.now) }
            { obstruction.row(alloc, field, below) },
        )
        .collect::<Result<Vec<Poly>, NoMemory>>(rt, alloc)?
}

/// How many rows a thread is to have at least. Where elements have few terms, rows are made before threads have begun.
fn rows_a_part(below: &Basis) -> usize {
    let terms = terms_below(below) / u64::from(below.len().max(1));
    (32_768 / terms.max(1)).max(1) as usize
}
