ghost use Rattle.std.specs.Prelude.{◌≡◌, ◌<◌, ◌++◌, All, length, IfOk};
ghost use Rattle.words.specs.Words.{IsOver};
ghost use Rattle.free_poly.specs.Poly.{IsMonic};
ghost use Rattle.free_poly.specs.Terms.{HasResidues, UsesLetters};
ghost use Rattle.poly_writer.specs.Texts.{degree_text, element_line, head_line, poly_text, sign_text, size_of};
ghost use Rattle.poly_writer.specs.Texts.{size_text, term_text};

use crate::piece::{push_number, push_word};
use field_table::Field;
use free_poly::{Poly, Term};
use std::alloc::Global;
use words::{Alphabet, NoMemory};

/// A monic polynomial, its terms in order.
pub fn poly_text(
    alloc: Global,
    alphabet: &Alphabet,
    field: &Field,
    poly: &Poly,
) -> Result<Vec<u8>, NoMemory>
    requires letters { UsesLetters (length alphabet.now.weights) poly.now }
    requires residues { HasResidues field.now poly.now }
    requires monic { IsMonic poly.now }
    ensures { IfOk result (λ v. v.items ≡ poly_text alphabet.now.names field.now poly.now) }
{
    let mut text = Vec::new(alloc);
    push_poly(&mut text, alphabet, field, poly)?;
    Ok(text)
}

/// The line before the elements of a degree.
pub fn head_line(alloc: Global, d: u32) -> Result<Vec<u8>, NoMemory>
    ensures { IfOk result (λ v. v.items ≡ head_line d) }
{
    let mut text = Vec::new(alloc);
    push_head(&mut text, d)?;
    Ok(text)
}

/// The line of an element.
pub fn element_line(
    alloc: Global,
    alphabet: &Alphabet,
    field: &Field,
    poly: &Poly,
) -> Result<Vec<u8>, NoMemory>
    requires letters { UsesLetters (length alphabet.now.weights) poly.now }
    requires residues { HasResidues field.now poly.now }
    requires monic { IsMonic poly.now }
    ensures { IfOk result (λ v. v.items ≡ element_line alphabet.now.names field.now poly.now) }
{
    let mut text = Vec::new(alloc);
    push_element(&mut text, alphabet, field, poly)?;
    Ok(text)
}

/// The elements of a degree, below its head line. A degree without elements has an empty text.
pub fn degree_text(
    alloc: Global,
    alphabet: &Alphabet,
    field: &Field,
    d: u32,
    elements: &[Poly],
) -> Result<Vec<u8>, NoMemory>
    requires letters { All (UsesLetters (length alphabet.now.weights)) elements.now }
    requires residues { All (HasResidues field.now) elements.now }
    requires monic { All IsMonic elements.now }
    ensures { IfOk result (λ v. v.items ≡ degree_text alphabet.now.names field.now d elements.now) }
{
    let mut text = Vec::new(alloc);
    if elements.is_empty() {
        return Ok(text);
    }
    push_head(&mut text, d)?;
    for element in elements {
        push_element(&mut text, alphabet, field, element)?;
    }
    Ok(text)
}

fn push_head(text: &mut Vec<u8>, d: u32) -> Result<(), NoMemory>
    ensures { IfOk result (λ _. text.new.items ≡ text.old.items ++ head_line d) }
{
    text.extend_from_slice(b"% ")?;
    push_number(text, u64::from(d))?;
    text.extend_from_slice(b"\n")
}

fn push_element(
    text: &mut Vec<u8>,
    alphabet: &Alphabet,
    field: &Field,
    poly: &Poly,
) -> Result<(), NoMemory>
    requires letters { UsesLetters (length alphabet.now.weights) poly.now }
    requires residues { HasResidues field.now poly.now }
    ensures { IfOk result (λ _. text.new.items ≡ text.old.items ++ element_line alphabet.now.names field.now poly.now) }
{
    push_poly(text, alphabet, field, poly)?;
    text.extend_from_slice(b"\n")
}

fn push_poly(
    text: &mut Vec<u8>,
    alphabet: &Alphabet,
    field: &Field,
    poly: &Poly,
) -> Result<(), NoMemory>
    requires letters { UsesLetters (length alphabet.now.weights) poly.now }
    requires residues { HasResidues field.now poly.now }
    ensures { IfOk result (λ _. text.new.items ≡ text.old.items ++ poly_text alphabet.now.names field.now poly.now) }
{
    match poly.terms() {
        [] => Ok(()),
        [first, others @ ..] => {
            push_word(text, alphabet, first.word.letters())?;
            for term in others {
                push_term(text, alphabet, field, term)?;
            }
            Ok(())
        }
    }
}

/// Adds a term after the first to the text: its sign, the size of its balanced coefficient unless it is 1, and its
/// word.
pub fn push_term(
    text: &mut Vec<u8>,
    alphabet: &Alphabet,
    field: &Field,
    term: &Term,
) -> Result<(), NoMemory>
    requires letters { IsOver (length alphabet.now.weights) term.now.word }
    requires residue { term.now.coefficient < field.now }
    ensures { IfOk result (λ _. text.new.items ≡ text.old.items ++ term_text alphabet.now.names field.now term.now) }
{
    push_sign(text, field, term.coefficient)?;
    push_size(text, balanced_size(field, term.coefficient))?;
    push_word(text, alphabet, term.word.letters())
}

/// Adds the sign of the balanced residue to the text.
fn push_sign(text: &mut Vec<u8>, field: &Field, residue: u32) -> Result<(), NoMemory>
    ensures { IfOk result (λ _. text.new.items ≡ text.old.items ++ sign_text field.now residue) }
{
    if residue <= field.modulus() / 2 {
        text.extend_from_slice(b"+")
    } else {
        text.extend_from_slice(b"-")
    }
}

/// The size of the balanced residue.
pub fn balanced_size(field: &Field, residue: u32) -> u32
    requires { residue < field.now }
    ensures { result ≡ size_of field.now residue }
{
    let modulus = field.modulus();
    if residue <= modulus / 2 {
        residue
    } else {
        modulus - residue
    }
}

/// Adds the size of a coefficient and a star to the text, and nothing where it is 1.
pub fn push_size(text: &mut Vec<u8>, size: u32) -> Result<(), NoMemory>
    ensures { IfOk result (λ _. text.new.items ≡ text.old.items ++ size_text size) }
{
    if size != 1 {
        push_number(text, u64::from(size))?;
        text.extend_from_slice(b"*")?;
    }
    Ok(())
}
