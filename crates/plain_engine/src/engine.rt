ghost use Rattle.std.specs.Prelude.{◌≡◌, ◌≤◌};
ghost use Rattle.ideal_laws.specs.Limits.{AreLimits, standard_limits};

use crate::elements::elements_of;
use crate::products::echelon_of_products;
use degree_words::{counts_of, lists_of};
use field_table::Field;
use ideal_laws::{
    Account, Basis, DegreeEngine, DegreeReport, EngineFault, LimitKind, Limits, Presentation,
    next_degree_law,
};
use std::alloc::Global;
use std::thread::Threads;
use words::Items;

/// Computes a degree from the echelon form of all products over all of its words.
#[derive(Debug, Drop)]
pub struct PlainEngine {
    pub plain_words: u32,
    pub ghost small: { plain_words ≤ standard_limits.plain_words },
}

impl PlainEngine {
    /// An engine with the limit on plain words alone.
    pub fn new(limits: Limits) -> PlainEngine
        requires { AreLimits limits }
        ensures { result.plain_words ≡ limits.plain_words }
    {
        PlainEngine {
            plain_words: limits.plain_words,
        }
    }
}

impl DegreeEngine for PlainEngine {
    ghost use Rattle.std.specs.Prelude.{[], ◌∷◌, ◌≡◌};
    ghost use Rattle.ideal_laws.specs.declared.limits.LimitKind.TheVariants.{PlainWords};

    ghost kinds = { λ engine. (PlainWords, engine.plain_words) ∷ [] };

    ghost may_account = { λ _ _ _ _ _ account. (account.rows ≡ 0) × (account.columns ≡ []) × (account.calls ≡ []) };

    fn degree<R: Threads + Sync>(
        &mut self,
        rt: &R,
        alloc: Global,
        field: &Field,
        presentation: &Presentation,
        below: &Basis,
        d: u32,
    ) -> Result<DegreeReport, EngineFault> {
        next_degree_law(field, presentation, below, d);
        let alphabet = &presentation.alphabet;
        let counts = counts_of(alphabet, d);
        let count = counts[d as usize];
        if count > u64::from(self.plain_words) {
            return Err(EngineFault::Limit {
                kind: LimitKind::PlainWords,
                degree: d,
                value: count,
            });
        }
        let words = lists_of(alloc, alphabet, &counts, d)?;
        let lists = words.as_slice();
        let columns = lists[d as usize].as_slice();
        let echelon = echelon_of_products(rt, alloc, field, presentation, lists, d, columns)?;
        let rows = echelon.as_slice();
        let elements = elements_of(alloc, columns, rows, below)?;
        Ok(DegreeReport {
            elements: Items::from_vec(elements),
            account: Account {
                rows: 0,
                columns: Items::from_vec(Vec::new(alloc)),
                calls: Items::from_vec(Vec::new(alloc)),
            },
        })
    }
}
