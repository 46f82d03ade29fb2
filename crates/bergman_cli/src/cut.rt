ghost use Rattle.std.specs.Prelude.{◌≡◌, ◌≤◌, IfOk, length, map, take};

use free_poly::Poly;
use ideal_laws::Presentation;
use std::alloc::{AllocError, Global};
use words::{Alphabet, Items, NoMemory};

/// The presentation by the first relations alone.
pub fn first_relations(
    alloc: Global,
    given: &Presentation,
    count: usize,
) -> Result<Presentation, NoMemory>
    requires { count ≤ length given.now.relations }
    ensures alphabet { IfOk result (λ part. part.alphabet ≡ given.now.alphabet) }
    ensures relations { IfOk result (λ part. part.relations ≡ take count given.now.relations) }
{
    let alphabet = copy_alphabet(alloc, &given.alphabet)?;
    let relations = copy_elements(alloc, &given.relations.as_slice()[..count])?;
    Ok(Presentation {
        alphabet,
        relations: Items::from_vec(relations),
    })
}

fn copy_elements(alloc: Global, elements: &[Poly]) -> Result<Vec<Poly>, NoMemory>
    ensures { IfOk result (λ v. v.items ≡ elements.now) }
{
    let mut copies = Vec::with_capacity(alloc, elements.len())?;
    for element in elements {
        copies.push(element.copy(alloc)?)?;
    }
    Ok(copies)
}

fn copy_alphabet(alloc: Global, alphabet: &Alphabet) -> Result<Alphabet, NoMemory>
    ensures { IfOk result (λ a. a ≡ alphabet.now) }
{
    let _letters = alphabet.len();
    let names = copy_names(alloc, alphabet)?;
    let weights = copy_weights(alloc, alphabet)?;
    match Alphabet::weighted(alloc, names, weights) {
        Ok(copy) => Ok(copy),
        Err(_) => Err(AllocError),
    }
}

fn copy_names(alloc: Global, alphabet: &Alphabet) -> Result<Vec<Vec<u8>>, NoMemory>
    ensures { IfOk result (λ v. map (λ name. name.items) v.items ≡ alphabet.now.names) }
{
    let mut names = Vec::new(alloc);
    for letter in 0..alphabet.len() {
        names.push(Vec::from_slice(alloc, alphabet.name(letter as u8))?)?;
    }
    Ok(names)
}

fn copy_weights(alloc: Global, alphabet: &Alphabet) -> Result<Vec<u8>, NoMemory>
    ensures { IfOk result (λ v. v.items ≡ alphabet.now.weights) }
{
    let mut weights = Vec::new(alloc);
    for letter in 0..alphabet.len() {
        weights.push(alphabet.weight(letter as u8))?;
    }
    Ok(weights)
}
