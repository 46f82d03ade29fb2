ghost use Rattle.std.specs.Prelude.{◌≡◌, ◌≤◌, ◌<◌, ◌∷◌, [], None, All, IfOk, MatchResult, length, map};
ghost use Rattle.words.specs.Names.{AreNames, IsAlphabet};
ghost use Rattle.words.specs.Words.{AreWeights};
ghost use Rattle.free_poly.specs.Terms.{HasResidues};
ghost use Rattle.relation_reader.specs.Answers.{IsReadError};
ghost use Rattle.relation_reader.specs.Meaning.{Reads, pieces_of, place_fault};
ghost use Rattle.relation_reader.specs.Tokens.{SplitsFrom};

use crate::declaration::{Declaration, declaration_of};
use crate::elements::elements_of;
use crate::fault::ReaderFault;
use crate::gatherer::relations_of;
use crate::token::Token;
use field_table::Field;
use ideal_laws::Presentation;
use std::alloc::Global;
use words::{Alphabet, Items};

/// The alphabet of a declaration without a fault.
fn alphabet_of(alloc: Global, names: Vec<Vec<u8>>, weights: Vec<u8>) -> Alphabet
    requires names { AreNames (map (λ name. name.items) names.items) }
    requires weights { AreWeights weights.items }
    requires count { length weights.items ≡ length names.items }
    ensures names { result.names ≡ map (λ name. name.items) names.items }
    ensures weights { result.weights ≡ weights.items }
    ensures alphabet { IsAlphabet result }
{
    match Alphabet::weighted(alloc, names, weights) {
        Ok(alphabet) => alphabet,
        Err(_) => unreachable!(),
    }
}

/// The presentation of a text in which no fault has a place, or the fault of its first relation that has one.
pub fn presentation_of(
    alloc: Global,
    field: &Field,
    text: &[u8],
    tokens: &[Token],
) -> Result<Presentation, ReaderFault>
    requires small { length text.now ≤ 1048576 }
    requires modulus { 0 < field.now }
    requires splits { SplitsFrom text.now 0 tokens.now None }
    requires no_fault { place_fault (pieces_of text.now tokens.now None) None ≡ None }
    ensures reads { MatchResult result (λ found. Reads text.now field.now found.alphabet found.relations)
        (IsReadError text.now field.now) }
    ensures residues { IfOk result (λ found. All (HasResidues field.now) found.relations) }
{
    let Declaration {
        names,
        weights,
        end,
    } = declaration_of(alloc, text, tokens)?;
    let alphabet = alphabet_of(alloc, names, weights);
    let relations = relations_of(alloc, field, &alphabet, text, &tokens[end..])?;
    match elements_of(alloc, field, &alphabet, relations) {
        Ok(elements) => Ok(Presentation {
            alphabet,
            relations: Items::from_vec(elements),
        }),
        Err(fault) => Err(fault),
    }
}
