ghost use Rattle.std.specs.Prelude.{◌≡◌, ◌++◌, ◌≤◌, ◌∷◌, [], ℕ, All, IfOk, IsErrOf, OnOk, length, take};
ghost use Rattle.ideal_laws.specs.declared.limits.LimitKind.{LimitKind};
ghost use Rattle.ideal_laws.specs.declared.limits.LimitKind.TheVariants.{NormalWords};
ghost use Rattle.right_modules.specs.Answered.{AreModuleNumbers, IsFirstLarge};
ghost use Rattle.right_modules.specs.Extended.{TellsOutside};

use crate::extended::words_of;
use crate::module::ModuleFault;
use ideal_laws::{LimitKind, Presentation};
use lead_index::LeadIndex;
use normal_words::NormalFault;
use std::alloc::{AllocError, Global};
use words::{Items, NoMemory, Word};

/// For each degree from 0 to the bound the number of its module words in which no word of the index stands. The last
/// 8 degrees are held.
pub(crate) fn numbers_upto(
    alloc: Global,
    presentation: &Presentation,
    gens: u32,
    index: &LeadIndex,
    bound: u32,
    most: u32,
) -> Result<Vec<u64>, ModuleFault>
    requires bound { bound ≤ 64 }
    requires names { gens ≤ length presentation.now.alphabet.weights }

    ensures numbers { IfOk result (λ numbers. (p : ℕ) → TellsOutside p presentation.now gens bound index.now →
        AreModuleNumbers p presentation.now gens bound numbers.items) }
    ensures few { IfOk result (λ numbers. All (λ n. n ≤ most) numbers.items) }

    ensures limit { (kind : LimitKind) (degree value : ℕ) → IsErrOf result (ModuleFault.Limit kind degree value)
        → (kind ≡ NormalWords) × ((p : ℕ) → TellsOutside p presentation.now gens bound index.now →
        IsFirstLarge p presentation.now gens most bound degree value) }
    ensures shaped { (relation : ℕ) → IsErrOf result (ModuleFault.Shape relation) → ⊥ }
{
    let alphabet = &presentation.alphabet;
    let free = alphabet.len() - gens;
    let mut numbers = Vec::new(alloc);
    let mut held = Vec::new(alloc);
    for degree in 0..bound + 1 {
        match words_of(alloc, alphabet, free, held.as_slice(), degree, index, most) {
            Ok(words) => {
                push_number(&mut numbers, words.len())?;
                hold(&mut held, words)?;
            }
            Err(NormalFault::TooMany) => {
                return Err(ModuleFault::Limit {
                    kind: LimitKind::NormalWords,
                    degree,
                    value: u64::from(most) + 1,
                });
            }
            Err(NormalFault::NoMemory) => return Err(ModuleFault::NoMemory),
        }
    }
    Ok(numbers)
}

fn push_number(numbers: &mut Vec<u64>, number: usize) -> Result<(), AllocError>
    ensures { OnOk result (numbers.new.items ≡ numbers.old.items ++ number ∷ []) }
{
    numbers.push(number as u64)?;
    Ok(())
}

/// Puts the words of a degree before those held, of which the first 8 stay.
fn hold(held: &mut Vec<Items<Word>>, words: Vec<Word>) -> Result<(), NoMemory>
    ensures { OnOk result (held.new.items ≡ take 8 (words.items ∷ held.old.items)) }
{
    held.insert(0, Items::from_vec(words))?;
    held.truncate(8);
    Ok(())
}
