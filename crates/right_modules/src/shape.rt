ghost use Rattle.std.specs.Prelude.{◌≡◌, ◌^◌, ◌<◌, ◌↔◌, All, IsTrue, MatchOption, length};
ghost use Rattle.words.specs.Words.{IsOver};
ghost use Rattle.right_modules.specs.Answered.{IsFirstOther};
ghost use Rattle.right_modules.specs.Module.{IsIdealRelation, IsModuleRelation, IsModuleWord, IsShaped};

use free_poly::{Poly, Term};

/// The first relation, counted from 1, that is neither an ideal relation nor a module relation.
pub(crate) fn first_other(relations: &[Poly], free: u32) -> Option<u32>
    requires { length relations.now < 2 ^ 32 }
    ensures { MatchOption result (All (IsShaped free) relations.now)
        (λ relation. IsFirstOther free relations.now relation) }
{
    for (place, relation) in relations.iter().enumerate() {
        if !is_shaped(relation.terms(), free) {
            return Some(place as u32 + 1);
        }
    }
    None
}

fn is_shaped(terms: &[Term], free: u32) -> bool
    ensures { IsTrue result ↔ IsShaped free terms.now }
{
    has_free_words(terms, free) || has_module_words(terms, free)
}

fn has_free_words(terms: &[Term], free: u32) -> bool
    ensures { IsTrue result ↔ IsIdealRelation free terms.now }
{
    terms.iter().all(|term| is_free(term.word.letters(), free))
}

fn has_module_words(terms: &[Term], free: u32) -> bool
    ensures { IsTrue result ↔ IsModuleRelation free terms.now }
{
    terms
        .iter()
        .all(|term| is_module_word(term.word.letters(), free))
}

/// Whether the word is a generator, and then letters that are none.
pub(crate) fn is_module_word(word: &[u8], free: u32) -> bool
    ensures { IsTrue result ↔ IsModuleWord free word.now }
{
    match word {
        [] => false,
        [generator, behind @ ..] => u32::from(*generator) >= free && is_free(behind, free),
    }
}

/// Whether no generator stands in the word.
fn is_free(word: &[u8], free: u32) -> bool
    ensures { IsTrue result ↔ IsOver free word.now }
{
    word.iter().all(|letter| u32::from(*letter) < free)
}
