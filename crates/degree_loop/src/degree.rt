ghost use Rattle.std.specs.Prelude.{◌≡◌, ◌≤◌, ℕ, Err, IfOk, OnOk, length};
ghost use Rattle.ideal_laws.specs.Ideal.{ideal_of};
ghost use Rattle.ideal_laws.specs.declared.limits.LimitKind.{LimitKind};
ghost use Rattle.ideal_laws.specs.Basis.{IsReducedBasis};
ghost use Rattle.ideal_laws.specs.Engine.{IsNextDegree};
ghost use Rattle.ideal_laws.specs.Limits.{AreLimits};
ghost use Rattle.ideal_laws.specs.Quantities.{IsFirstPassing, IsQuantity, NonePasses};
ghost use Rattle.degree_loop.specs.Accounts.{IsAccountOf};
ghost use Rattle.degree_loop.specs.Limits.{engine_limits};

use crate::account::account_of;
use crate::elements::elements_of;
use crate::finder::PivotFinder;
use crate::matrix::{Matrix, matrix_of};
use field_table::Field;
use ideal_laws::{Basis, DegreeReport, EngineFault, Limits, Presentation};
use std::alloc::Global;
use std::thread::Threads;

/// The reduced basis of degree d by linear algebra over the closure of its rows, with whoever finds the pivots. The
/// limits on rows, columns, entries, cells and terms are asked in this order.
pub fn degree_by<R: Threads + Sync, F: PivotFinder>(
    rt: &R,
    alloc: Global,
    field: &Field,
    presentation: &Presentation,
    below: &Basis,
    d: u32,
    limits: &Limits,
    finder: &F,
) -> Result<DegreeReport, EngineFault>
    requires next { IsNextDegree field.now presentation.now below.now d }
    requires limits { AreLimits limits.now }

    ensures elements { IfOk result (λ report. IsReducedBasis (ideal_of field.now presentation.now) d report.elements) }
    ensures few { IfOk result (λ report. length report.elements ≤ 16777216) }
    ensures account { IfOk result (λ report. IsAccountOf (F.tells finder.now) (ideal_of field.now presentation.now)
        below.now.elements d report.account) }
    ensures within { OnOk result (NonePasses (IsQuantity (ideal_of field.now presentation.now) below.now d)
        (engine_limits limits.now)) }

    ensures limit { (kind : LimitKind) (degree value : ℕ) → result ≡ Err (EngineFault.Limit kind degree value)
        → (degree ≡ d) × IsFirstPassing (IsQuantity (ideal_of field.now presentation.now) below.now d)
        (engine_limits limits.now) kind value }
{
    let matrix = matrix_of(rt, alloc, field, presentation, below, d, limits)?;
    let Matrix { closed, problem } = matrix;
    let rows = problem.n;
    let (pivots, calls) = finder.find(rt, alloc, field, problem)?;
    let elements = elements_of(
        rt,
        alloc,
        field,
        presentation,
        below,
        d,
        &closed,
        &pivots,
        limits.terms,
    )?;
    let account = account_of(closed, rows, calls);
    Ok(DegreeReport { elements, account })
}
