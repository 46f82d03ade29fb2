ghost use Rattle.std.specs.Prelude.{◌≡◌, ◌+◌, ◌-◌, ◌++◌, ◌<◌, ◌≤◌, ◌^◌, ℕ, IfOk, OnOk, length, map, min};
ghost use Rattle.std.specs.List.{flat_map};
ghost use Rattle.free_poly.specs.Terms.{UsesLetters};
ghost use Rattle.ideal_laws.specs.Kept.{lead_degree};
ghost use Rattle.degree_words.specs.Lists.{AreCounts};
ghost use Rattle.cofactors.specs.ProductList.{triple, triples, triples_at};

use crate::product::Product;
use degree_words::{degree_within, lists_of};
use free_poly::Poly;
use ideal_laws::Presentation;
use std::alloc::Global;
use words::{Alphabet, NoMemory, Word};

/// How many triples have degree d, where 2^64 - 1 stands for more, too. None of them is made.
pub(crate) fn count_triples(presentation: &Presentation, counts: &[u64; 65], d: u32) -> u64
    requires small { d ≤ 64 }
    requires counts { AreCounts presentation.now.alphabet.weights counts.now (d + 1) }
    ensures { result ≡ min (length (triples presentation.now.alphabet.weights presentation.now.relations d))
        (2 ^ 64 - 1) }
{
    let mut count: u64 = 0;
    for relation in presentation.relations.as_slice() {
        count = count.saturating_add(count_at(&presentation.alphabet, relation, counts, d));
    }
    count
}

/// How many of them are of a relation.
fn count_at(alphabet: &Alphabet, relation: &Poly, counts: &[u64; 65], d: u32) -> u64
    requires small { d ≤ 64 }
    requires letters { UsesLetters (length alphabet.now.weights) relation.now }
    requires counts { AreCounts alphabet.now.weights counts.now (d + 1) }
    ensures { (i : ℕ) → result ≡ min (length (triples_at alphabet.now.weights d i relation.now)) (2 ^ 64 - 1) }
{
    let degree = lead_degree_within(alphabet, relation, d + 1);
    let mut count: u64 = 0;
    for before in 0..d + 1 - degree {
        let lefts = counts[before as usize];
        let rights = counts[(d - degree - before) as usize];
        count = count.saturating_add(lefts.saturating_mul(rights));
    }
    count
}

/// The degree of the leading word, where it is at most this number, and else this number; 0 for 0.
pub fn lead_degree_within(alphabet: &Alphabet, element: &Poly, most: u32) -> u32
    requires small { most ≤ 65 }
    requires letters { UsesLetters (length alphabet.now.weights) element.now }
    ensures { result ≡ min (lead_degree alphabet.now.weights element.now) most }
{
    match element.lead() {
        Some(lead) => degree_within(alphabet, lead.letters(), most),
        None => 0,
    }
}

/// The triples of degree d in their order.
pub(crate) fn triples_of(
    alloc: Global,
    presentation: &Presentation,
    counts: &[u64; 65],
    d: u32,
) -> Result<Vec<Product>, NoMemory>
    requires small { d ≤ 64 }
    requires counts { AreCounts presentation.now.alphabet.weights counts.now (d + 1) }
    ensures { IfOk result (λ v. v.items ≡ triples presentation.now.alphabet.weights presentation.now.relations d) }
{
    let mut found = Vec::new(alloc);
    for (at, relation) in presentation.relations.as_slice().iter().enumerate() {
        let number = at as u32 + 1;
        push_triples(
            alloc,
            &presentation.alphabet,
            counts,
            d,
            number,
            relation,
            &mut found,
        )?;
    }
    Ok(found)
}

/// Appends those of a relation, by falling degree of the word before it.
fn push_triples(
    alloc: Global,
    alphabet: &Alphabet,
    counts: &[u64; 65],
    d: u32,
    number: u32,
    relation: &Poly,
    found: &mut Vec<Product>,
) -> Result<(), NoMemory>
    requires small { d ≤ 64 }
    requires letters { UsesLetters (length alphabet.now.weights) relation.now }
    requires counts { AreCounts alphabet.now.weights counts.now (d + 1) }
    ensures { OnOk result (found.new.items ≡ found.old.items ++ triples_at alphabet.now.weights d number relation.now) }
{
    let degree = lead_degree_within(alphabet, relation, d + 1);
    if degree > d {
        return Ok(());
    }
    let around = d - degree;
    let lists = lists_of(alloc, alphabet, counts, around)?;
    for behind in 0..around + 1 {
        let lefts = lists[(around - behind) as usize].as_slice();
        let rights = lists[behind as usize].as_slice();
        push_rounds(alloc, number, lefts, rights, found)?;
    }
    Ok(())
}

/// Appends the triples of each of these words before the relation and each of those behind it.
fn push_rounds(
    alloc: Global,
    number: u32,
    lefts: &[Word],
    rights: &[Word],
    found: &mut Vec<Product>,
) -> Result<(), NoMemory>
    ensures { OnOk result (found.new.items ≡ found.old.items
        ++ flat_map (λ u. map (triple number u) rights.now) lefts.now) }
{
    for left in lefts {
        push_rights(alloc, number, left, rights, found)?;
    }
    Ok(())
}

/// Appends the triples of this word before the relation and each of those behind it.
fn push_rights(
    alloc: Global,
    number: u32,
    left: &Word,
    rights: &[Word],
    found: &mut Vec<Product>,
) -> Result<(), NoMemory>
    ensures { OnOk result (found.new.items ≡ found.old.items ++ map (triple number left.now) rights.now) }
{
    for right in rights {
        found.push(Product {
            coefficient: 0,
            left: left.copy(alloc)?,
            relation: number,
            right: right.copy(alloc)?,
        })?;
    }
    Ok(())
}
