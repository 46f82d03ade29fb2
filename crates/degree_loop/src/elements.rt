ghost use Rattle.std.specs.Prelude.{◌≡◌, ◌≤◌, ◌∷◌, [], ℕ, All, AllPairs, Err, IfOk, OnOk, length, map};
ghost use Rattle.words.specs.Order.{IsLetterwiseGreater};
ghost use Rattle.ideal_laws.specs.Ideal.{ideal_of};
ghost use Rattle.ideal_laws.specs.declared.limits.LimitKind.{LimitKind};
ghost use Rattle.ideal_laws.specs.declared.limits.LimitKind.TheVariants.{Terms};
ghost use Rattle.ideal_laws.specs.Basis.{IsReducedBasis};
ghost use Rattle.ideal_laws.specs.Engine.{IsNextDegree};
ghost use Rattle.ideal_laws.specs.Quantities.{IsFirstPassing, IsQuantity, NonePasses};
ghost use Rattle.free_poly.specs.Poly.{element_on};
ghost use Rattle.degree_loop.specs.Matrix.{IsMatrix};

use crate::terms::terms_with;
use back_reduce::{PivotRows, Row, reduced};
use field_table::Field;
use free_poly::Poly;
use ideal_laws::{Basis, EngineFault, LimitKind, Presentation, next_degree_law};
use rayon::prelude::*;
use row_laws::{element_of, rows_law};
use std::alloc::Global;
use std::thread::Threads;
use symbolic_prep::Closed;
use words::{Items, NoMemory, Word};

/// The elements of degree d from the pivots of its matrix, whoever found them: the reduced row echelon form over the
/// contested columns. The terms of these and of the elements below are asked at last.
pub fn elements_of<R: Threads + Sync, P: PivotRows>(
    rt: &R,
    alloc: Global,
    field: &Field,
    presentation: &Presentation,
    below: &Basis,
    d: u32,
    closed: &Closed,
    pivots: &P,
    most: u32,
) -> Result<Items<Poly>, EngineFault>
    requires next { IsNextDegree field.now presentation.now below.now d }
    requires matrix { IsMatrix (ideal_of field.now presentation.now)
        below.now.elements d closed.now (P.given pivots.now) }

    ensures elements { IfOk result (IsReducedBasis (ideal_of field.now presentation.now) d) }
    ensures few { IfOk result (λ elements. length elements ≤ most) }
    ensures within { OnOk result (NonePasses (IsQuantity (ideal_of field.now presentation.now) below.now d)
        ((Terms, most) ∷ [])) }

    ensures limit { (kind : LimitKind) (degree value : ℕ) → result ≡ Err (EngineFault.Limit kind degree value)
        → (degree ≡ d) × IsFirstPassing (IsQuantity (ideal_of field.now presentation.now) below.now d)
        ((Terms, most) ∷ []) kind value }
{
    next_degree_law(field, presentation, below, d);
    rows_law();
    let echelon = reduced(rt, alloc, field, pivots)?;
    let elements = elements_on(rt, alloc, closed.contested(), echelon.as_slice())?;
    let count = terms_with(below, elements.as_slice());
    if count > u64::from(most) {
        return Err(EngineFault::Limit {
            kind: LimitKind::Terms,
            degree: d,
            value: count,
        });
    }
    Ok(Items::from_vec(elements))
}

/// The elements with the residues of each row at the columns. They are made side by side.
fn elements_on<R: Threads + Sync>(
    rt: &R,
    alloc: Global,
    columns: &[Word],
    rows: &[Row],
) -> Result<Vec<Poly>, NoMemory>
    requires falling { AllPairs IsLetterwiseGreater columns.now }
    requires width { All (λ row. length row ≡ length columns.now) rows.now }
    ensures { IfOk result (λ elements. elements.items ≡ map (element_on columns.now) rows.now) }
{
    rows.par_iter()
        .with_min_len(rows_a_part(rows))
        .map(
            move |row: &Row| -> Result<Poly, NoMemory>
                requires { (length row.now ≡ length columns.now) × AllPairs IsLetterwiseGreater columns.now }
                ensures { IfOk result (λ element. element ≡ element_on columns.entry.now row.now) }
            { element_of(alloc, columns, row) },
        )
        .collect::<Result<Vec<Poly>, NoMemory>>(rt, alloc)?
}

/// How many rows a thread is to have at least. Where rows hold few residues, no thread is worth its start.
fn rows_a_part(rows: &[Row]) -> usize {
    let mut residues = 0usize;
    for row in rows {
        residues = residues.saturating_add(row.size());
    }
    let each = residues / rows.len().max(1);
    (32_768 / each.max(1)).max(1)
}
