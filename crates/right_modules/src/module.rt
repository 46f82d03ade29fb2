ghost use Rattle.std.specs.Prelude.{◌≡◌, ◌≤◌, ◌⊎◌, ◌↔◌, ℕ, All, IfOk, IsErrOf, OnOk, length};
ghost use Rattle.free_poly.specs.Terms.{HasResidues};
ghost use Rattle.ideal_laws.specs.Ideal.{ideal_of};
ghost use Rattle.ideal_laws.specs.declared.account.Account.{Account};
ghost use Rattle.ideal_laws.specs.declared.limits.LimitKind.{LimitKind};
ghost use Rattle.ideal_laws.specs.declared.limits.LimitKind.TheVariants.{NormalWords};
ghost use Rattle.ideal_laws.specs.declared.presentation.Presentation.{Presentation};
ghost use Rattle.ideal_laws.specs.Engine.{Elements};
ghost use Rattle.ideal_laws.specs.Quantities.{IsFirstRefused, NonePassesUpto};
ghost use Rattle.right_modules.specs.Answered.{AreModuleDegrees, AreModuleNumbers, AreShaped, IsFirstLarge};
ghost use Rattle.right_modules.specs.Answered.{IsFirstOther, fault_of, free_letters};

use crate::elements::module_degrees;
use crate::numbers::numbers_upto;
use crate::shape::first_other;
use field_table::Field;
use free_poly::Poly;
use ideal_laws::{
    DegreeEngine, EngineFault, LimitKind, Limits, Presentation, lower_law, run, setting_law,
};
use lead_index::index_of;
use std::alloc::{AllocError, Global};
use std::thread::Threads;
use words::Items;

/// The elements of a degree, by falling leading word.
#[derive(Debug, Drop)]
pub struct ModuleDegree {
    pub degree: u32,
    pub elements: Items<Poly>,
}

/// The degrees from 1 on, and the coefficients from degree 0 on.
#[derive(Debug, Drop)]
pub struct ModuleBasis {
    pub degrees: Items<ModuleDegree>,
    pub numbers: Items<u64>,
}

/// Why a module basis is not given.
#[derive(Debug, Drop)]
pub enum ModuleFault {
    /// The first relation, counted from 1, that is neither an ideal relation nor a module relation.
    Shape {
        relation: u32,
    },
    Limit {
        kind: LimitKind,
        degree: u32,
        value: u64,
    },
    NoMemory,
}

impl From<AllocError> for ModuleFault {
    ghost use Rattle.right_modules.specs.declared.module.ModuleFault.TheVariants.{NoMemory};

    ghost from_gives = { λ _ fault. fault ≡ NoMemory };

    fn from(_error: AllocError) -> ModuleFault {
        ModuleFault::NoMemory
    }
}

impl From<EngineFault> for ModuleFault {
    ghost from_gives = { λ fault own. own ≡ fault_of fault };

    fn from(fault: EngineFault) -> ModuleFault {
        match fault {
            EngineFault::Limit {
                kind,
                degree,
                value,
            } => ModuleFault::Limit {
                kind,
                degree,
                value,
            },
            EngineFault::NoMemory => ModuleFault::NoMemory,
        }
    }
}

/// The reduced basis of a right module in degrees 1 to the bound, and its coefficients in degrees 0 to there. The last
/// `gens` names are its generators; the engine is given the relations of the algebra and those of the module together.
/// Want of memory may stand in the place of any answer.
pub fn module_basis<R: Threads + Sync, E: DegreeEngine>(
    rt: &R,
    alloc: Global,
    engine: &mut E,
    field: &Field,
    presentation: &Presentation,
    gens: u32,
    bound: u32,
    limits: &Limits,
) -> Result<ModuleBasis, ModuleFault>
    requires generators { 1 ≤ gens }
    requires names { gens ≤ length presentation.now.alphabet.weights }
    requires some { 1 ≤ bound }
    requires small { bound ≤ 64 }
    requires residues { All (HasResidues field.now) presentation.now.relations }

    ensures degrees { IfOk result (λ m. AreModuleDegrees field.now presentation.now gens bound m.degrees) }
    ensures numbers { IfOk result (λ m. AreModuleNumbers field.now presentation.now gens bound m.numbers) }
    ensures few { IfOk result (λ m. All (λ n. n ≤ limits.now.normal_words) m.numbers) }
    ensures shaped { OnOk result (AreShaped presentation.now gens) }
    ensures within { OnOk result (NonePassesUpto (ideal_of field.now presentation.now) (E.kinds engine.old) bound) }

    ensures shape { (relation : ℕ) → IsErrOf result (ModuleFault.Shape relation) →
        IsFirstOther (free_letters presentation.now gens) presentation.now.relations relation }

    // The shapes are asked first, then the engine's limits, and then the numbers of normal module words.
    ensures limit { (kind : LimitKind) (degree value : ℕ) → IsErrOf result (ModuleFault.Limit kind degree value)
        → AreShaped presentation.now gens × (IsFirstRefused (ideal_of field.now presentation.now)
        (E.kinds engine.old) bound kind degree value
        ⊎ (NonePassesUpto (ideal_of field.now presentation.now) (E.kinds engine.old) bound × (kind ≡ NormalWords)
        × IsFirstLarge field.now presentation.now gens limits.now.normal_words bound degree value)) }

    ensures kinds { E.kinds engine.new ≡ E.kinds engine.old }
    ensures accounts { (p : ℕ) (rs : Presentation) (b : Elements) (e : ℕ) (a : Account) →
        E.may_account engine.new p rs b e a ↔ E.may_account engine.old p rs b e a }
{
    setting_law(field, presentation);
    lower_law();
    let free = presentation.alphabet.len() - gens;
    match first_other(presentation.relations.as_slice(), free) {
        Some(relation) => return Err(ModuleFault::Shape { relation }),
        None => {}
    }
    let basis = run(rt, alloc, engine, field, presentation, bound)?;
    let index = index_of(alloc, &basis)?;
    let numbers = numbers_upto(
        alloc,
        presentation,
        gens,
        &index,
        bound,
        limits.normal_words,
    )?;
    let degrees = module_degrees(alloc, &basis, free, bound)?;
    Ok(ModuleBasis {
        degrees: Items::from_vec(degrees),
        numbers: Items::from_vec(numbers),
    })
}
