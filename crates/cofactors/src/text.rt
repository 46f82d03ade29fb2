ghost use Rattle.std.specs.Prelude.{◌≡◌, ◌++◌, ◌<◌, All, IfOk, codes, decimal, length};
ghost use Rattle.std.specs.List.{flat_map};
ghost use Rattle.words.specs.Words.{IsOver};
ghost use Rattle.free_poly.specs.Terms.{HasResidues, UsesLetters};
ghost use Rattle.poly_writer.specs.Texts.{line, size_text, term_text};
ghost use Rattle.cofactors.specs.Texts.{answer_text, factor_text, first_text, minus_text, normal_text, product_line};
ghost use Rattle.cofactors.specs.Texts.{residue_text};

use crate::certificate::Certificate;
use crate::product::Product;
use field_table::Field;
use free_poly::{Poly, Term};
use poly_writer::{balanced_size, push_number, push_size, push_term, push_word};
use std::alloc::Global;
use words::{Alphabet, NoMemory};

/// The answer to the question of this number, counted from 1: its normal form, and a line for each product.
pub fn answer_text(
    alloc: Global,
    alphabet: &Alphabet,
    field: &Field,
    number: u32,
    certificate: &Certificate,
) -> Result<Vec<u8>, NoMemory>
    requires letters { UsesLetters (length alphabet.now.weights) certificate.now.normal }
    requires residues { HasResidues field.now certificate.now.normal }
    requires coefficients { All (λ q. q.coefficient < field.now) certificate.now.products }
    requires lefts { All (λ q. IsOver (length alphabet.now.weights) q.left) certificate.now.products }
    requires rights { All (λ q. IsOver (length alphabet.now.weights) q.right) certificate.now.products }
    ensures { IfOk result (λ v. v.items ≡ answer_text alphabet.now.names field.now number certificate.now) }
{
    let mut text = Vec::from_slice(alloc, b"% question ")?;
    push_number(&mut text, u64::from(number))?;
    text.extend_from_slice(b"\nnormal ")?;
    push_normal(&mut text, alphabet, field, &certificate.normal)?;
    text.extend_from_slice(b"\n")?;
    for product in certificate.products.as_slice() {
        push_product(&mut text, alphabet, field, product)?;
    }
    Ok(text)
}

fn push_normal(
    text: &mut Vec<u8>,
    alphabet: &Alphabet,
    field: &Field,
    normal: &Poly,
) -> Result<(), NoMemory>
    requires letters { UsesLetters (length alphabet.now.weights) normal.now }
    requires residues { HasResidues field.now normal.now }
    ensures { IfOk result (λ _. text.new.items ≡ text.old.items
        ++ normal_text alphabet.now.names field.now normal.now) }
{
    match normal.terms() {
        [] => text.extend_from_slice(b"0"),
        [first, others @ ..] => {
            push_first(text, alphabet, field, first)?;
            for term in others {
                push_term(text, alphabet, field, term)?;
            }
            Ok(())
        }
    }
}

fn push_first(
    text: &mut Vec<u8>,
    alphabet: &Alphabet,
    field: &Field,
    term: &Term,
) -> Result<(), NoMemory>
    requires letters { IsOver (length alphabet.now.weights) term.now.word }
    requires residue { term.now.coefficient < field.now }
    ensures { IfOk result (λ _. text.new.items ≡ text.old.items ++ first_text alphabet.now.names field.now term.now) }
{
    push_minus(text, field, term.coefficient)?;
    push_size(text, balanced_size(field, term.coefficient))?;
    push_word(text, alphabet, term.word.letters())
}

/// The sign of the balanced residue, where it is negative.
fn push_minus(text: &mut Vec<u8>, field: &Field, residue: u32) -> Result<(), NoMemory>
    ensures { IfOk result (λ _. text.new.items ≡ text.old.items ++ minus_text field.now residue) }
{
    if residue > field.modulus() / 2 {
        text.extend_from_slice(b"-")?;
    }
    Ok(())
}

fn push_product(
    text: &mut Vec<u8>,
    alphabet: &Alphabet,
    field: &Field,
    product: &Product,
) -> Result<(), NoMemory>
    requires coefficient { product.now.coefficient < field.now }
    requires left { IsOver (length alphabet.now.weights) product.now.left }
    requires right { IsOver (length alphabet.now.weights) product.now.right }
    ensures { IfOk result (λ _. text.new.items ≡ text.old.items
        ++ product_line alphabet.now.names field.now product.now) }
{
    text.extend_from_slice(b"from ")?;
    push_minus(text, field, product.coefficient)?;
    push_number(text, u64::from(balanced_size(field, product.coefficient)))?;
    text.extend_from_slice(b" ")?;
    push_factor(text, alphabet, product.left.letters())?;
    text.extend_from_slice(b" ")?;
    push_number(text, u64::from(product.relation))?;
    text.extend_from_slice(b" ")?;
    push_factor(text, alphabet, product.right.letters())?;
    text.extend_from_slice(b"\n")
}

fn push_factor(text: &mut Vec<u8>, alphabet: &Alphabet, word: &[u8]) -> Result<(), NoMemory>
    requires { IsOver (length alphabet.now.weights) word.now }
    ensures { IfOk result (λ _. text.new.items ≡ text.old.items ++ factor_text alphabet.now.names word.now) }
{
    if word.is_empty() {
        return text.extend_from_slice(b"1");
    }
    push_word(text, alphabet, word)
}
