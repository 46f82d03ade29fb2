ghost use Rattle.std.specs.Prelude.{◌≡◌, ◌<◌, ◌≤◌, ◌∷◌, [], All, IfOk, cond, length, min};
ghost use Rattle.words.specs.Words.{IsOver, degree_of};
ghost use Rattle.free_poly.specs.Terms.{UsesLetters};
ghost use Rattle.ideal_laws.specs.Engine.{of_degree};

use degree_words::degree_within;
use free_poly::Poly;
use ideal_laws::Presentation;
use std::alloc::Global;
use words::{Alphabet, NoMemory};

/// How many relations have the degree.
pub(crate) fn count_of_degree(presentation: &Presentation, d: u32) -> u32
    requires { d ≤ 64 }
    ensures { result ≡ length (of_degree presentation.now.alphabet.weights d presentation.now.relations) }
{
    let mut count = 0;
    for relation in presentation.relations.as_slice() {
        if has_degree(&presentation.alphabet, relation, d) {
            count += 1;
        }
    }
    count
}

/// The relations of the degree, in their order.
pub(crate) fn relations_of_degree(
    alloc: Global,
    presentation: &Presentation,
    d: u32,
) -> Result<Vec<Poly>, NoMemory>
    requires { d ≤ 64 }
    ensures { IfOk result (λ found. found.items ≡ of_degree presentation.now.alphabet.weights d
        presentation.now.relations) }
{
    let mut found = Vec::new(alloc);
    for relation in presentation.relations.as_slice() {
        if has_degree(&presentation.alphabet, relation, d) {
            let relation = relation.copy(alloc)?;
            found.push(relation)?;
        }
    }
    Ok(found)
}

/// Whether the leading word has the degree.
fn has_degree(alphabet: &Alphabet, relation: &Poly, d: u32) -> bool
    requires small { d ≤ 64 }
    requires letters { UsesLetters (length alphabet.now.weights) relation.now }
    ensures { of_degree alphabet.now.weights d (relation.now ∷ []) ≡ cond result (relation.now ∷ []) [] }
{
    match relation.lead() {
        Some(lead) => degree_within(alphabet, lead.letters(), d + 1) == d,
        None => false,
    }
}
