ghost use Rattle.std.specs.Prelude.{◌≡◌, ◌≢◌, ◌+◌, ◌++◌, ◌∷◌, ◌≤◌, List, [], ℕ, All, IfOk, IsErrOf, OnOk, slice_index};
ghost use Rattle.free_poly.specs.declared.term.Term.{Term};
ghost use Rattle.ideal_laws.specs.Closure.{IsFactorFree};
ghost use Rattle.ideal_laws.specs.Dimension.{IsHilbertCoefficient};
ghost use Rattle.ideal_laws.specs.Engine.{IsReducedUpto};
ghost use Rattle.ideal_laws.specs.Ideal.{ideal_over};
ghost use Rattle.ideal_laws.specs.Laws.{IsSetting};
ghost use Rattle.hilbert.specs.Series.{AreCounts, IndexesLeads, IsFirstLarge};

use crate::held::{hold, words_after};
use ideal_laws::{Basis, Limits};
use lead_index::{LeadIndex, index_of};
use normal_words::NormalFault;
use std::alloc::{AllocError, Global};
use words::{Alphabet, Items};

/// Why the numbers of normal words are not all given.
#[derive(Debug, Drop)]
pub enum SeriesFault {
    /// The first degree with more normal words than the limit, the limit plus 1, and the numbers of the lower degrees.
    Limit {
        degree: u32,
        value: u64,
        below: Items<u64>,
    },
    NoMemory,
}

impl From<AllocError> for SeriesFault {
    ghost use Rattle.hilbert.specs.declared.numbers.SeriesFault.TheVariants.{NoMemory};

    ghost from_gives = { λ _ fault. fault ≡ NoMemory };

    fn from(_error: AllocError) -> SeriesFault {
        SeriesFault::NoMemory
    }
}

/// For each degree from 0 to the bound the number of its normal words.
pub fn series(
    alloc: Global,
    alphabet: &Alphabet,
    basis: &Basis,
    bound: u32,
    limits: &Limits,
) -> Result<Vec<u64>, SeriesFault>
    requires bound { bound ≤ 64 }
    requires done { bound ≤ basis.now.done }
    requires weights { basis.now.weights ≡ alphabet.now.weights }
    requires factor_free { IsFactorFree basis.now.elements }

    ensures counts { IfOk result (λ numbers. AreCounts basis.now.weights basis.now.elements limits.now.normal_words
        (bound + 1) numbers.items) }

    // Where the basis is reduced, these are the coefficients.
    ensures coefficients { IfOk result (λ numbers. (p : ℕ) (relations : List (List Term)) →
        IsSetting (ideal_over p basis.now.weights relations) → IsReducedUpto p relations basis.now
        → (d : ℕ) → d ≤ bound → IsHilbertCoefficient (ideal_over p basis.now.weights relations) d
        (slice_index numbers.items d)) }

    ensures limit { (degree value : ℕ) (below : List ℕ) → IsErrOf result (SeriesFault.Limit degree value below)
        → IsFirstLarge basis.now.weights basis.now.elements limits.now.normal_words bound degree value below }
{
    let _done = basis.done();
    let index = index_of(alloc, basis)?;
    numbers_upto(alloc, alphabet, &index, bound, limits.normal_words)
}

/// For each degree from 0 to the bound the number of words in which no word of the index stands.
fn numbers_upto(
    alloc: Global,
    alphabet: &Alphabet,
    index: &LeadIndex,
    bound: u32,
    most: u32,
) -> Result<Vec<u64>, SeriesFault>
    requires bound { bound ≤ 64 }
    requires some { All (λ l. l.word ≢ []) index.now }

    ensures counts { IfOk result (λ numbers. (G : List (List Term)) → IndexesLeads G index.now →
        AreCounts alphabet.now.weights G most (bound + 1) numbers.items) }

    ensures limit { (degree value : ℕ) (below : List ℕ) → IsErrOf result (SeriesFault.Limit degree value below)
        → (G : List (List Term)) → IndexesLeads G index.now →
        IsFirstLarge alphabet.now.weights G most bound degree value below }
{
    let mut numbers = Vec::new(alloc);
    let mut held = Vec::new(alloc);
    for degree in 0..bound + 1 {
        match words_after(alloc, alphabet, held.as_slice(), index, most) {
            Ok(words) => {
                push_number(&mut numbers, words.words().len())?;
                hold(&mut held, words)?;
            }
            Err(NormalFault::TooMany) => {
                return Err(SeriesFault::Limit {
                    degree,
                    value: u64::from(most) + 1,
                    below: Items::from_vec(numbers),
                });
            }
            Err(NormalFault::NoMemory) => return Err(SeriesFault::NoMemory),
        }
    }
    Ok(numbers)
}

fn push_number(numbers: &mut Vec<u64>, number: usize) -> Result<(), AllocError>
    ensures { OnOk result (numbers.new.items ≡ numbers.old.items ++ number ∷ []) }
{
    numbers.push(number as u64)?;
    Ok(())
}
