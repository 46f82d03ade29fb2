ghost use Rattle.std.specs.Prelude.{◌≡◌, ◌≤◌, ◌++◌, [], ◌∷◌, List, All, OnOk, drop, IfOk, if◌then◌else◌, length};
ghost use Rattle.std.specs.Prelude.{map, min};
ghost use Rattle.relation_reader.specs.Tokens.{span};
ghost use Rattle.relation_reader.specs.Grammar.{Lexeme, lexeme_of};
ghost use Rattle.relation_reader.specs.Gathering.{IsInside, lexemes_of, listed};

use crate::token::{Mark, Token};
use std::alloc::Global;
use std::marker::Model;
use words::NoMemory;

/// The names of a declaration so far, with the weights of all but the last, and the weight of the last.
#[derive(Drop)]
struct Listing {
    names: Vec<Vec<u8>>,
    weights: Vec<u8>,
    weight: u8,
}

impl Model for Listing {
    ghost use Rattle.std.specs.Prelude.{map};
    ghost use Rattle.relation_reader.specs.Gathering.{Listing};

    ghost Value = { Listing };

    ghost view = { λ l. record {
      names = map (λ name. name.items) l.names.items;
      weights = l.weights.items;
      weight = l.weight;
    } };
}

impl Listing {
    fn new(alloc: Global) -> Listing
        ensures { result ≡ record { names = []; weights = []; weight = 1 } }
    {
        Listing {
            names: Vec::new(alloc),
            weights: Vec::new(alloc),
            weight: 1,
        }
    }

    /// Takes one more token, and answers whether it ends the declaration.
    fn take(&mut self, alloc: Global, text: &[u8], token: Token) -> Result<bool, NoMemory>
        requires { IsInside text.now token }
        ensures { IfOk result (λ over. (ls : List Lexeme) →
            listed self.old.names self.old.weights self.old.weight
            (lexeme_of token.mark (span text.now token.start token.end) ∷ ls)
            ≡ (if over
            then record { letters = record { names = self.new.names; weights = self.new.weights }; rest = ls }
            else listed self.new.names self.new.weights self.new.weight ls)) }
    {
        match token.mark {
            Mark::Name => {
                self.take_name(alloc, &text[token.start as usize..token.end as usize])?;
                Ok(false)
            }
            Mark::Number { value } => {
                self.take_weight(value);
                Ok(false)
            }
            Mark::Comma => {
                self.end_item()?;
                Ok(false)
            }
            Mark::Semicolon => {
                self.end_item()?;
                Ok(true)
            }
            Mark::Plus | Mark::Minus | Mark::Star | Mark::Caret | Mark::Colon | Mark::End => {
                Ok(false)
            }
        }
    }

    fn take_name(&mut self, alloc: Global, name: &[u8]) -> Result<(), NoMemory>
        ensures { OnOk result (self.new ≡ record {
          names = self.old.names ++ name.now ∷ [];
          weights = self.old.weights;
          weight = self.old.weight;
        }) }
    {
        let name = Vec::from_slice(alloc, name)?;
        self.names.push(name)?;
        Ok(())
    }

    /// A weight above 8 was refused before.
    fn take_weight(&mut self, value: u128)
        ensures { self.new ≡ record { names = self.old.names; weights = self.old.weights; weight = min value 8 } }
    {
        self.weight = value.min(8) as u8;
    }

    fn end_item(&mut self) -> Result<(), NoMemory>
        ensures { OnOk result (self.new ≡ record {
          names = self.old.names;
          weights = self.old.weights ++ self.old.weight ∷ [];
          weight = 1;
        }) }
    {
        self.weights.push(self.weight)?;
        self.weight = 1;
        Ok(())
    }

    fn ended_at(self, end: usize) -> Declaration
        ensures names { map (λ name. name.items) result.names.items ≡ self.names }
        ensures weights { result.weights.items ≡ self.weights }
        ensures end { result.end ≡ end }
    {
        let Listing {
            names,
            weights,
            weight: _,
        } = self;
        Declaration {
            names,
            weights,
            end,
        }
    }
}

/// The letters of a declaration, and the place of the token behind it.
#[derive(Drop)]
pub struct Declaration {
    pub names: Vec<Vec<u8>>,
    pub weights: Vec<u8>,
    pub end: usize,
}

/// The declaration of a text, behind its first token.
pub fn declaration_of(alloc: Global, text: &[u8], tokens: &[Token]) -> Result<Declaration, NoMemory>
    requires { All (IsInside text.now) tokens.now }
    ensures within { IfOk result (λ d. d.end ≤ length tokens.now) }
    ensures letters { IfOk result (λ d. listed [] [] 1 (lexemes_of text.now (drop 1 tokens.now))
        ≡ record {
          letters = record { names = map (λ name. name.items) d.names.items; weights = d.weights.items };
          rest = lexemes_of text.now (drop d.end tokens.now);
        }) }
{
    let mut listing = Listing::new(alloc);
    for at in 1..tokens.len() {
        if listing.take(alloc, text, tokens[at])? {
            return Ok(listing.ended_at(at + 1));
        }
    }
    Ok(listing.ended_at(tokens.len()))
}
