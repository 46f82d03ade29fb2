ghost use Rattle.std.specs.Prelude.{◌≡◌, ℕ, List};
ghost use Rattle.relation_reader.specs.Grammar.{in_relation, lexeme_of, next_place, of_factor, of_term, refusal};

use crate::fault::{InputFault, Want};
use crate::token::Mark;

/// The places between tokens, by what stands before them.
#[derive(Clone, Copy)]
pub enum Place {
    Beginning,
    AfterVars,
    AfterListComma,
    AfterDeclared,
    AfterListColon,
    AfterWeight,
    AfterList,
    AfterComma,
    AfterOperator,
    AfterName,
    AfterCaret,
    AfterNumber,
    AfterLast,
    AfterEnd,
}

/// The place after a token with these bytes, where it may come.
pub fn next_place(place: Place, mark: Mark, bytes: &[u8]) -> Option<Place>
    ensures { result ≡ next_place place (lexeme_of mark bytes.now) }
{
    match place {
        Place::Beginning => of_vars(mark, bytes),
        Place::AfterVars | Place::AfterListComma => match mark {
            Mark::Name => Some(Place::AfterDeclared),
            _ => None,
        },
        Place::AfterDeclared => match mark {
            Mark::Comma => Some(Place::AfterListComma),
            Mark::Semicolon => Some(Place::AfterList),
            Mark::Colon => Some(Place::AfterListColon),
            _ => None,
        },
        Place::AfterListColon => match mark {
            Mark::Number { value: _ } => Some(Place::AfterWeight),
            _ => None,
        },
        Place::AfterWeight => match mark {
            Mark::Comma => Some(Place::AfterListComma),
            Mark::Semicolon => Some(Place::AfterList),
            _ => None,
        },
        Place::AfterList => match mark {
            Mark::Semicolon => Some(Place::AfterLast),
            _ => of_term(mark),
        },
        Place::AfterComma => of_term(mark),
        Place::AfterOperator => of_factor(mark),
        Place::AfterName => match mark {
            Mark::Caret => Some(Place::AfterCaret),
            _ => in_relation(mark),
        },
        Place::AfterCaret => match mark {
            Mark::Number { value: _ } => Some(Place::AfterNumber),
            _ => None,
        },
        Place::AfterNumber => in_relation(mark),
        Place::AfterLast => match mark {
            Mark::End => Some(Place::AfterEnd),
            _ => None,
        },
        Place::AfterEnd => None,
    }
}

fn of_vars(mark: Mark, bytes: &[u8]) -> Option<Place>
    ensures { result ≡ next_place Place.Beginning (lexeme_of mark bytes.now) }
{
    match mark {
        Mark::Name => {
            if bytes == b"vars".as_slice() {
                Some(Place::AfterVars)
            } else {
                None
            }
        }
        _ => None,
    }
}

fn of_term(mark: Mark) -> Option<Place>
    ensures { (bytes : List ℕ) → result ≡ of_term (lexeme_of mark bytes) }
{
    match mark {
        Mark::Plus | Mark::Minus => Some(Place::AfterOperator),
        _ => of_factor(mark),
    }
}

fn of_factor(mark: Mark) -> Option<Place>
    ensures { (bytes : List ℕ) → result ≡ of_factor (lexeme_of mark bytes) }
{
    match mark {
        Mark::Name => Some(Place::AfterName),
        Mark::Number { value: _ } => Some(Place::AfterNumber),
        _ => None,
    }
}

fn in_relation(mark: Mark) -> Option<Place>
    ensures { (bytes : List ℕ) → result ≡ in_relation (lexeme_of mark bytes) }
{
    match mark {
        Mark::Star | Mark::Plus | Mark::Minus => Some(Place::AfterOperator),
        Mark::Comma => Some(Place::AfterComma),
        Mark::Semicolon => Some(Place::AfterLast),
        _ => None,
    }
}

/// The fault of a token that may not come at a place.
pub fn refusal(place: Place, mark: Mark, at: u32) -> InputFault
    ensures { (bytes : List ℕ) → result ≡ refusal place (lexeme_of mark bytes) at }
{
    match place {
        Place::AfterVars => no_name(mark, at),
        Place::AfterLast | Place::AfterEnd => InputFault::AfterEnd { at },
        Place::Beginning => expected(Want::Vars, at),
        Place::AfterListComma => expected(Want::Name, at),
        Place::AfterDeclared | Place::AfterWeight => expected(Want::ListMark, at),
        Place::AfterListColon => expected(Want::Weight, at),
        Place::AfterList | Place::AfterComma => expected(Want::Term, at),
        Place::AfterOperator => expected(Want::Factor, at),
        Place::AfterName | Place::AfterNumber => expected(Want::Operator, at),
        Place::AfterCaret => expected(Want::Exponent, at),
    }
}

fn no_name(mark: Mark, at: u32) -> InputFault
    ensures { (bytes : List ℕ) → result ≡ refusal Place.AfterVars (lexeme_of mark bytes) at }
{
    match mark {
        Mark::Semicolon => InputFault::NoVariable { at },
        _ => expected(Want::Name, at),
    }
}

fn expected(what: Want, at: u32) -> InputFault
    ensures { result ≡ InputFault.Expected at what }
{
    InputFault::Expected { at, what }
}
