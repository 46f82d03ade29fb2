ghost use Rattle.std.specs.Prelude.{◌≡◌, ◌+◌, ◌++◌, ◌≤◌, ◌<◌, ◌↔◌, ℕ, List, All, Err, IfOk, OnErr, OnOk};
ghost use Rattle.free_poly.specs.declared.term.Term.{Term};
ghost use Rattle.free_poly.specs.Terms.{HasResidues};
ghost use Rattle.ideal_laws.specs.Ideal.{ideal_of};
ghost use Rattle.ideal_laws.specs.declared.account.Account.{Account};
ghost use Rattle.ideal_laws.specs.declared.limits.LimitKind.{LimitKind};
ghost use Rattle.ideal_laws.specs.declared.presentation.Presentation.{Presentation};
ghost use Rattle.ideal_laws.specs.Basis.{IsReducedBasis};
ghost use Rattle.ideal_laws.specs.Engine.{Elements, IsNextDegree, IsReducedUpto};
ghost use Rattle.ideal_laws.specs.Kept.{IsKept};
ghost use Rattle.ideal_laws.specs.Quantities.{IsFirstPassing, IsFirstRefused, IsQuantity, NonePasses, NonePassesUpto};

use crate::account::Account;
use crate::basis::Basis;
use crate::engine::{DegreeEngine, DegreeReport, EngineFault};
use crate::presentation::Presentation;
use field_table::Field;
use std::alloc::Global;
use std::thread::Threads;

/// Computes the next degree and appends it.
pub fn advance<R: Threads + Sync, E: DegreeEngine>(
    rt: &R,
    alloc: Global,
    engine: &mut E,
    field: &Field,
    presentation: &Presentation,
    basis: &mut Basis,
) -> Result<Account, EngineFault>
    requires { IsNextDegree field.now presentation.now basis.old (basis.old.done + 1) }

    ensures weights { basis.new.weights ≡ basis.old.weights }
    ensures kept { IsKept basis.old × IsKept basis.new }
    ensures done { OnOk result (basis.new.done ≡ basis.old.done + 1) }
    ensures elements { OnOk result ((added : List (List Term))
        × IsReducedBasis (ideal_of field.now presentation.now) (basis.old.done + 1) added
        × (basis.new.elements ≡ basis.old.elements ++ added)) }
    ensures reduced { OnOk result (IsReducedUpto field.now presentation.now.relations basis.new) }
    ensures account { IfOk result (E.may_account engine.old field.now presentation.now basis.old (basis.old.done + 1)) }
    ensures within { OnOk result (NonePasses (IsQuantity (ideal_of field.now presentation.now) basis.old
        (basis.old.done + 1)) (E.kinds engine.old)) }

    ensures limit { (kind : LimitKind) (degree value : ℕ) → result ≡ Err (EngineFault.Limit kind degree value)
        → (degree ≡ basis.old.done + 1) × IsFirstPassing (IsQuantity (ideal_of field.now presentation.now) basis.old
        (basis.old.done + 1)) (E.kinds engine.old) kind value }
    ensures unchanged { OnErr result (basis.new ≡ basis.old) }

    ensures kinds { E.kinds engine.new ≡ E.kinds engine.old }
    ensures accounts { (p : ℕ) (rs : Presentation) (b : Elements) (e : ℕ) (a : Account) →
        E.may_account engine.new p rs b e a ↔ E.may_account engine.old p rs b e a }
{
    let d = basis.done() + 1;
    let report = engine.degree(rt, alloc, field, presentation, basis, d)?;
    let DegreeReport { elements, account } = report;
    basis.push_degree(elements.into_vec())?;
    let _done = basis.done();
    Ok(account)
}

/// Computes all degrees up to a bound.
pub fn run<R: Threads + Sync, E: DegreeEngine>(
    rt: &R,
    alloc: Global,
    engine: &mut E,
    field: &Field,
    presentation: &Presentation,
    bound: u32,
) -> Result<Basis, EngineFault>
    requires some { 1 ≤ bound }
    requires small { bound ≤ 64 }
    requires residues { All (HasResidues field.now) presentation.now.relations }

    ensures done { IfOk result (λ basis. basis.done ≡ bound) }
    ensures weights { IfOk result (λ basis. basis.weights ≡ presentation.now.alphabet.weights) }
    ensures kept { IfOk result IsKept }
    ensures reduced { IfOk result (IsReducedUpto field.now presentation.now.relations) }
    ensures within { OnOk result (NonePassesUpto (ideal_of field.now presentation.now) (E.kinds engine.old) bound) }

    ensures limit { (kind : LimitKind) (degree value : ℕ) → result ≡ Err (EngineFault.Limit kind degree value)
        → IsFirstRefused (ideal_of field.now presentation.now) (E.kinds engine.old) bound kind degree value }

    ensures kinds { E.kinds engine.new ≡ E.kinds engine.old }
    ensures accounts { (p : ℕ) (rs : Presentation) (b : Elements) (e : ℕ) (a : Account) →
        E.may_account engine.new p rs b e a ↔ E.may_account engine.old p rs b e a }
{
    let mut basis = Basis::new(alloc, &presentation.alphabet);
    for _degree in 0..bound {
        let _account = advance(rt, alloc, engine, field, presentation, &mut basis)?;
    }
    Ok(basis)
}
