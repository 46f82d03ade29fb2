ghost use Rattle.std.specs.Prelude.{◌≡◌, ◌-◌, ◌*◌, ◌%◌, ◌++◌, [], ◌∷◌, All, OnOk, None, Some, true, IfOk};
ghost use Rattle.std.specs.Prelude.{if◌then◌else◌, map, replicate, false};
ghost use Rattle.words.specs.Names.{IsAlphabet};
ghost use Rattle.relation_reader.specs.Tokens.{span};
ghost use Rattle.relation_reader.specs.Grammar.{lexeme_of};
ghost use Rattle.relation_reader.specs.Gathering.{IsInside, fresh, gather, gathered, known_letter, lexemes_of};
ghost use Rattle.relation_reader.specs.Gathering.{present, whole_word, with_end, with_number, with_sign};

use crate::token::{Mark, Token};
use field_table::Field;
use free_poly::Term;
use std::alloc::Global;
use std::marker::Model;
use std::mem;
use words::{Alphabet, NoMemory, Word};

/// The relations so far, the terms of the present one, and of the present term: its word but for a last name that may
/// have an exponent, the product of its numbers, its sign, and whether it has a factor.
#[derive(Drop)]
struct Gatherer {
    relations: Vec<Vec<Term>>,
    terms: Vec<Term>,
    word: Vec<u8>,
    letter: Option<u8>,
    value: u32,
    negative: bool,
    begun: bool,
}

impl Model for Gatherer {
    ghost use Rattle.std.specs.Prelude.{map};
    ghost use Rattle.relation_reader.specs.Gathering.{Gathering};

    ghost Value = { Gathering };

    ghost view = { λ g. record {
      relations = map (λ terms. terms.items) g.relations.items;
      terms = g.terms.items;
      word = g.word.items;
      letter = g.letter;
      value = g.value;
      negative = g.negative;
      begun = g.begun;
    } };
}

impl Gatherer {
    fn new(alloc: Global, field: &Field) -> Gatherer
        ensures { result ≡ fresh field.now [] [] false }
    {
        Gatherer {
            relations: Vec::new(alloc),
            terms: Vec::new(alloc),
            word: Vec::new(alloc),
            letter: None,
            value: field.from_wide(1),
            negative: false,
            begun: false,
        }
    }

    /// Takes one more token.
    fn take(
        &mut self,
        alloc: Global,
        field: &Field,
        alphabet: &Alphabet,
        text: &[u8],
        token: Token,
    ) -> Result<(), NoMemory>
        requires inside { IsInside text.now token }
        requires alphabet { IsAlphabet alphabet.now }
        ensures { OnOk result (self.new ≡ gather field.now alphabet.now.names self.old
            (lexeme_of token.mark (span text.now token.start token.end))) }
    {
        match token.mark {
            Mark::Name => {
                let name = &text[token.start as usize..token.end as usize];
                self.take_letter(letter_of(alphabet, name));
                Ok(())
            }
            Mark::Number { value } => self.take_number(field, value),
            Mark::Star => self.end_factor(),
            Mark::Plus => self.take_sign(alloc, field, false),
            Mark::Minus => self.take_sign(alloc, field, true),
            Mark::Comma | Mark::Semicolon => self.end_relation(alloc, field),
            Mark::Caret | Mark::Colon | Mark::End => Ok(()),
        }
    }

    fn take_letter(&mut self, letter: u8)
        ensures { self.new ≡ record self.old { letter = Some letter; begun = true } }
    {
        self.letter = Some(letter);
        self.begun = true;
    }

    /// A number is a factor, or the exponent of the name before it. An exponent above 256 was refused before.
    fn take_number(&mut self, field: &Field, value: u128) -> Result<(), NoMemory>
        ensures { OnOk result (self.new ≡ with_number field.now self.old value self.old.letter) }
    {
        match self.letter {
            None => {
                self.value = times(field, self.value, value);
                self.begun = true;
                Ok(())
            }
            Some(letter) => {
                repeat(&mut self.word, letter, value.min(256) as u32)?;
                self.letter = None;
                self.begun = true;
                Ok(())
            }
        }
    }

    /// Puts the last name to the word.
    fn end_factor(&mut self) -> Result<(), NoMemory>
        ensures { OnOk result (self.new ≡ record self.old { word = whole_word self.old; letter = None }) }
    {
        match self.letter {
            None => Ok(()),
            Some(letter) => {
                self.word.push(letter)?;
                self.letter = None;
                Ok(())
            }
        }
    }

    fn take_sign(&mut self, alloc: Global, field: &Field, negative: bool) -> Result<(), NoMemory>
        ensures { OnOk result (self.new ≡ with_sign field.now self.old negative) }
    {
        self.end_term(alloc, field)?;
        self.begin_term(field, negative);
        Ok(())
    }

    fn end_relation(&mut self, alloc: Global, field: &Field) -> Result<(), NoMemory>
        ensures { OnOk result (self.new ≡ with_end field.now self.old) }
    {
        if !self.begun {
            return Ok(());
        }
        self.end_term(alloc, field)?;
        let terms = mem::replace(&mut self.terms, Vec::new(alloc));
        self.relations.push(terms)?;
        self.begin_term(field, false);
        Ok(())
    }

    /// Ends the present term, where there is one.
    fn end_term(&mut self, alloc: Global, field: &Field) -> Result<(), NoMemory>
        ensures terms { OnOk result (self.new.terms
            ≡ (if self.old.begun then self.old.terms ++ present field.now self.old ∷ [] else self.old.terms)) }
        ensures relations { OnOk result (self.new.relations ≡ self.old.relations) }
    {
        if !self.begun {
            return Ok(());
        }
        self.end_factor()?;
        let word = Word::from_letters(alloc, self.word.as_slice())?;
        let coefficient = signed(field, self.negative, self.value);
        self.terms.push(Term { word, coefficient })?;
        Ok(())
    }

    fn begin_term(&mut self, field: &Field, negative: bool)
        ensures { self.new ≡ fresh field.now self.old.relations self.old.terms negative }
    {
        self.word.clear();
        self.letter = None;
        self.value = field.from_wide(1);
        self.negative = negative;
        self.begun = false;
    }

    fn into_relations(self) -> Vec<Vec<Term>>
        ensures { map (λ terms. terms.items) result.items ≡ self.relations }
    {
        let Gatherer {
            relations,
            terms: _,
            word: _,
            letter: _,
            value: _,
            negative: _,
            begun: _,
        } = self;
        relations
    }
}

/// The letter of a name. One that is not declared was refused before.
fn letter_of(alphabet: &Alphabet, name: &[u8]) -> u8
    requires { IsAlphabet alphabet.now }
    ensures { result ≡ known_letter alphabet.now.names name.now }
{
    match alphabet.find(name) {
        Some(letter) => letter,
        None => 0,
    }
}

fn times(field: &Field, value: u32, factor: u128) -> u32
    ensures { result ≡ (value * (factor % field.now)) % field.now }
{
    field.from_wide(u128::from(value) * u128::from(field.from_wide(factor)))
}

fn signed(field: &Field, negative: bool, value: u32) -> u32
    ensures { result ≡ (if negative then (field.now - value) % field.now else value) }
{
    if !negative {
        return value;
    }
    field.from_wide(u128::from(field.modulus().saturating_sub(value)))
}

/// Appends a letter so many times.
fn repeat(word: &mut Vec<u8>, letter: u8, times: u32) -> Result<(), NoMemory>
    ensures { OnOk result (word.new.items ≡ word.old.items ++ replicate times letter) }
{
    for _at in 0..times {
        word.push(letter)?;
    }
    Ok(())
}

/// The terms of each relation, from the tokens behind the declaration.
pub fn relations_of(
    alloc: Global,
    field: &Field,
    alphabet: &Alphabet,
    text: &[u8],
    tokens: &[Token],
) -> Result<Vec<Vec<Term>>, NoMemory>
    requires inside { All (IsInside text.now) tokens.now }
    requires alphabet { IsAlphabet alphabet.now }
    ensures { IfOk result (λ v. map (λ terms. terms.items) v.items
        ≡ gathered field.now alphabet.now.names (fresh field.now [] [] false) (lexemes_of text.now tokens.now)) }
{
    let mut gatherer = Gatherer::new(alloc, field);
    for token in tokens {
        gatherer.take(alloc, field, alphabet, text, *token)?;
    }
    Ok(gatherer.into_relations())
}
