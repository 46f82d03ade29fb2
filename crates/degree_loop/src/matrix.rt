ghost use Rattle.std.specs.Prelude.{◌≡◌, ℕ, Err, IfOk, OnOk};
ghost use Rattle.ideal_laws.specs.Ideal.{ideal_of};
ghost use Rattle.ideal_laws.specs.declared.limits.LimitKind.{LimitKind};
ghost use Rattle.ideal_laws.specs.Engine.{IsNextDegree};
ghost use Rattle.ideal_laws.specs.Limits.{AreLimits};
ghost use Rattle.ideal_laws.specs.Quantities.{IsFirstPassing, IsQuantity, NonePasses};
ghost use Rattle.degree_loop.specs.Limits.{matrix_limits};
ghost use Rattle.degree_loop.specs.Matrix.{IsMatrix};

use crate::rows::rows_of_degree;
use back_reduce::Problem;
use field_table::Field;
use ideal_laws::{Basis, EngineFault, Limits, Presentation, next_degree_law};
use lead_index::index_of;
use row_store::contested_rows;
use std::alloc::Global;
use std::thread::Threads;
use symbolic_prep::{Closed, close};

/// The closure of the rows of a degree, and what the rows leave at its contested columns.
#[derive(Debug, Drop)]
pub struct Matrix {
    pub closed: Closed,
    pub problem: Problem,
}

/// The matrix of degree d over the reduced basis of the degrees below (Faugère 1999). The limits on rows, columns,
/// entries and cells are asked in this order.
pub fn matrix_of<R: Threads + Sync>(
    rt: &R,
    alloc: Global,
    field: &Field,
    presentation: &Presentation,
    below: &Basis,
    d: u32,
    limits: &Limits,
) -> Result<Matrix, EngineFault>
    requires next { IsNextDegree field.now presentation.now below.now d }
    requires limits { AreLimits limits.now }

    ensures matrix { IfOk result (λ matrix. IsMatrix (ideal_of field.now presentation.now) below.now.elements d
        matrix.closed matrix.problem) }
    ensures within { OnOk result (NonePasses (IsQuantity (ideal_of field.now presentation.now) below.now d)
        (matrix_limits limits.now)) }

    ensures limit { (kind : LimitKind) (degree value : ℕ) → result ≡ Err (EngineFault.Limit kind degree value)
        → (degree ≡ d) × IsFirstPassing (IsQuantity (ideal_of field.now presentation.now) below.now d)
        (matrix_limits limits.now) kind value }
{
    next_degree_law(field, presentation, below, d);
    let rows = rows_of_degree(rt, alloc, field, presentation, below, d, limits.rows)?;
    let rows = rows.as_slice();
    let index = index_of(alloc, below)?;
    let closed = close(alloc, field, below, &index, rows, d, limits)?;
    let problem = contested_rows(rt, alloc, field, &closed, rows, d, limits)?;
    Ok(Matrix { closed, problem })
}
