ghost use Rattle.std.specs.Prelude.{◌≡◌, ◌+◌, ◌++◌, ◌≤◌, ◌<◌, ◌↔◌, ℕ, List, All, Err, IfOk, OnErr, OnOk, length};
ghost use Rattle.std.specs.Thread.{IsSync};
ghost use Rattle.ideal_laws.specs.Ideal.{ideal_of};
ghost use Rattle.ideal_laws.specs.declared.account.Account.{Account};
ghost use Rattle.ideal_laws.specs.declared.limits.LimitKind.{LimitKind};
ghost use Rattle.ideal_laws.specs.declared.presentation.Presentation.{Presentation};
ghost use Rattle.ideal_laws.specs.Basis.{IsReducedBasis};
ghost use Rattle.ideal_laws.specs.Engine.{Elements, IsNextDegree};
ghost use Rattle.ideal_laws.specs.Quantities.{IsFirstPassing, IsQuantity, NonePasses};

use crate::account::Account;
use crate::basis::Basis;
use crate::limits::LimitKind;
use crate::presentation::Presentation;
use field_table::Field;
use free_poly::Poly;
use std::alloc::{AllocError, AllocFailed, Global};
use std::thread::Threads;
use words::Items;

/// Why a degree was not computed.
#[derive(Debug, Drop)]
pub enum EngineFault {
    Limit {
        kind: LimitKind,
        degree: u32,
        value: u64,
    },
    NoMemory,
}

impl From<AllocError> for EngineFault {
    ghost use Rattle.ideal_laws.specs.declared.engine.EngineFault.TheVariants.{NoMemory};

    ghost from_gives = { λ _ fault. fault ≡ NoMemory };

    fn from(_error: AllocError) -> EngineFault {
        EngineFault::NoMemory
    }
}

impl<T: Drop> From<AllocFailed<T>> for EngineFault {
    ghost use Rattle.ideal_laws.specs.declared.engine.EngineFault.TheVariants.{NoMemory};

    ghost from_gives = { λ _ fault. fault ≡ NoMemory };

    fn from(_error: AllocFailed<T>) -> EngineFault {
        EngineFault::NoMemory
    }
}

/// The elements of a degree, by falling leading word, with what the engine tells of the degree.
#[derive(Debug, Drop)]
pub struct DegreeReport {
    pub elements: Items<Poly>,
    pub account: Account,
}

/// An engine that computes the reduced basis of a degree from those below.
pub trait DegreeEngine {
    /// The limits that the engine has, with their numbers, in the order in which it asks them.
    ghost kinds: { Self → List (LimitKind × ℕ) };

    /// The accounts that the engine may give, for a modulus, a presentation, the basis below and a degree.
    ghost may_account: { Self → ℕ → Presentation → Elements → ℕ → Account → Type 0 };

    /// Want of memory may stand in the place of any answer.
    fn degree<R: Threads + Sync>(
        &mut self,
        rt: &R,
        alloc: Global,
        field: &Field,
        presentation: &Presentation,
        below: &Basis,
        d: u32,
    ) -> Result<DegreeReport, EngineFault>
        requires sync { IsSync R.row }
        requires next { IsNextDegree field.now presentation.now below.now d }

        ensures elements { IfOk result (λ report. IsReducedBasis (ideal_of field.now presentation.now) d
            report.elements) }
        ensures few { IfOk result (λ report. length report.elements ≤ 16777216) }
        ensures account { IfOk result (λ report. may_account self.old field.now presentation.now below.now d
            report.account) }
        ensures within { OnOk result (NonePasses (IsQuantity (ideal_of field.now presentation.now) below.now d)
            (kinds self.old)) }

        ensures limit { (kind : LimitKind) (degree value : ℕ) → result ≡ Err (EngineFault.Limit kind degree value)
            → (degree ≡ d) × IsFirstPassing (IsQuantity (ideal_of field.now presentation.now) below.now d)
            (kinds self.old) kind value }

        ensures kinds { kinds self.new ≡ kinds self.old }
        ensures accounts { (p : ℕ) (rs : Presentation) (b : Elements) (e : ℕ) (a : Account) →
            may_account self.new p rs b e a ↔ may_account self.old p rs b e a };
}
