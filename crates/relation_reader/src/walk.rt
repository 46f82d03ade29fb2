ghost use Rattle.std.specs.Prelude.{◌≡◌, ◌≤◌, ◌<◌, ◌+◌, ◌^◌, ◌++◌, ◌∷◌, ◌||◌, ◌==◌, [], ℕ, List, Some, false};
ghost use Rattle.std.specs.Prelude.{if◌then◌else◌, not, nat_lt, map, IfOk, IsSome};
ghost use Rattle.relation_reader.specs.declared.fault.InputFault.TheVariants as faults;
ghost use Rattle.relation_reader.specs.Grammar.{lexeme_of, next_place, number};
ghost use Rattle.relation_reader.specs.Meaning.{Placed, begins_relation, declares, first_of, is_among, is_exponent};
ghost use Rattle.relation_reader.specs.Meaning.{is_weight, letters_after, passes, when};
ghost use Rattle.relation_reader.specs.Walk.{HasPassed, IsFirstHere, begin_faults, declared_faults};
ghost use Rattle.relation_reader.specs.Walk.{exponent_faults, placed, used_faults};

use crate::fault::InputFault;
use crate::place::{Place, next_place, refusal};
use crate::token::{Mark, Token};
use std::alloc::Global;
use words::NoMemory;

/// What the tokens so far leave: a place, the declared names, how many relations have begun, and how many letters the
/// term has.
#[derive(Drop)]
pub struct Walk {
    pub place: Place,
    pub names: Vec<Vec<u8>>,
    pub begun: u32,
    pub letters: u32,
}

/// The first fault that stands at a token with these bytes. `caret` is whether `^` comes next.
pub fn fault_at(walk: &Walk, token: Token, bytes: &[u8], caret: bool) -> Option<InputFault>
    ensures { IsFirstHere (map (λ name. name.items) walk.now.names.items) walk.now.begun walk.now.letters
        (placed walk.now.place token bytes.now) caret result }
{
    let at = token.start;
    if next_place(walk.place, token.mark, bytes).is_none() {
        return Some(refusal(walk.place, token.mark, at));
    }
    match walk.place {
        Place::AfterVars | Place::AfterListComma => declared_fault(&walk.names, bytes, at),
        Place::AfterListColon => weight_fault(token.mark, at),
        Place::AfterList | Place::AfterComma => begin_fault(walk, token, bytes, caret),
        Place::AfterOperator => used_fault(walk, token.mark, bytes, at, caret),
        Place::AfterCaret => exponent_fault(walk.letters, token.mark, at),
        _ => None,
    }
}

fn declared_fault(names: &[Vec<u8>], bytes: &[u8], at: u32) -> Option<InputFault>
    ensures { result ≡ first_of (declared_faults (map (λ name. name.items) names.now) bytes.now at) }
{
    if bytes.len() > 32 {
        return Some(InputFault::NameTooLong { at });
    }
    if names.len() == 64 {
        return Some(InputFault::TooManyVariables { at });
    }
    if is_among(bytes, names) {
        return Some(InputFault::RepeatedVariable { at });
    }
    None
}

fn weight_fault(mark: Mark, at: u32) -> Option<InputFault>
    ensures { (bytes : List ℕ) → result ≡ when (is_weight (λ value. value == 0 || nat_lt 8 value)
        Place.AfterListColon (lexeme_of mark bytes)) (faults.WeightOutOfRange at) }
{
    match mark {
        Mark::Number { value } => {
            if value == 0 || value > 8 {
                return Some(InputFault::WeightOutOfRange { at });
            }
            None
        }
        _ => None,
    }
}

fn begin_fault(walk: &Walk, token: Token, bytes: &[u8], caret: bool) -> Option<InputFault>
    ensures { result ≡ first_of (begin_faults (map (λ name. name.items) walk.now.names.items) walk.now.begun
        walk.now.letters caret walk.now.place (lexeme_of token.mark bytes.now) token.start) }
{
    if walk.begun == 4096 && begins_relation(walk.place, token.mark) {
        return Some(InputFault::TooManyRelations { at: token.start });
    }
    used_fault(walk, token.mark, bytes, token.start, caret)
}

fn used_fault(walk: &Walk, mark: Mark, bytes: &[u8], at: u32, caret: bool) -> Option<InputFault>
    ensures { result ≡ first_of (used_faults (map (λ name. name.items) walk.now.names.items) walk.now.letters caret
        (lexeme_of mark bytes.now) at) }
{
    match mark {
        Mark::Name => {
            if !is_among(bytes, &walk.names) {
                return Some(InputFault::UnknownVariable { at });
            }
            if passes(walk.letters, 1) && !caret {
                return Some(InputFault::WordTooLong { at });
            }
            None
        }
        _ => None,
    }
}

fn exponent_fault(letters: u32, mark: Mark, at: u32) -> Option<InputFault>
    ensures { (bytes : List ℕ) → result ≡ first_of (exponent_faults letters (lexeme_of mark bytes) at) }
{
    match mark {
        Mark::Number { value } => {
            if value > 256 {
                return Some(InputFault::ExponentTooLarge { at });
            }
            if passes(letters, value as u32) {
                return Some(InputFault::WordTooLong { at });
            }
            None
        }
        _ => None,
    }
}

/// With this many more letters the word passes 256 for the first time.
fn passes(letters: u32, more: u32) -> bool
    ensures { result ≡ passes letters more }
{
    more <= 256 && letters <= 256 && letters + more > 256
}

fn is_among(bytes: &[u8], names: &[Vec<u8>]) -> bool
    ensures { result ≡ is_among bytes.now (map (λ name. name.items) names.now) }
{
    for name in names {
        if bytes == name.as_slice() {
            return true;
        }
    }
    false
}

fn begins_relation(place: Place, mark: Mark) -> bool
    ensures { (bytes : List ℕ) → result ≡ begins_relation place (lexeme_of mark bytes) }
{
    match place {
        Place::AfterList => !is_semicolon(mark),
        Place::AfterComma => true,
        _ => false,
    }
}

fn is_semicolon(mark: Mark) -> bool
    ensures { (bytes : List ℕ) → result ≡ not (begins_relation Place.AfterList (lexeme_of mark bytes)) }
{
    match mark {
        Mark::Semicolon => true,
        _ => false,
    }
}

/// What the tokens leave with one more, which may come and has no fault.
pub fn passed(alloc: Global, walk: Walk, token: Token, bytes: &[u8]) -> Result<Walk, NoMemory>
    requires comes { IsSome (next_place walk.place (lexeme_of token.mark bytes.now)) }
    requires few { walk.begun < 2 ^ 31 }
    requires short { walk.letters < 2 ^ 31 }
    requires small { is_exponent (nat_lt 256) walk.place (lexeme_of token.mark bytes.now) ≡ false }
    ensures place { IfOk result (λ next. next_place walk.place (lexeme_of token.mark bytes.now) ≡ Some next.place) }
    ensures passed { IfOk result (λ next. (before : List Placed) →
        HasPassed (map (λ name. name.items) walk.names.items) walk.begun walk.letters before →
        HasPassed (map (λ name. name.items) next.names.items) next.begun next.letters
        (before ++ placed walk.place token bytes.now ∷ [])) }
    ensures few { IfOk result (λ next. next.begun ≤ walk.begun + 1) }
    ensures short { IfOk result (λ next. next.letters ≤ walk.letters + 256) }
{
    let Walk {
        place,
        names,
        begun,
        letters,
    } = walk;
    let next = next_place(place, token.mark, bytes).unwrap();
    let begun = begun_after(begun, place, token.mark);
    let letters = letters_after(letters, place, token.mark);
    let names = with_declared(alloc, names, place, token.mark, bytes)?;
    Ok(Walk {
        place: next,
        names,
        begun,
        letters,
    })
}

fn begun_after(begun: u32, place: Place, mark: Mark) -> u32
    requires { begun < 2 ^ 31 }
    ensures begun { (bytes : List ℕ) → result
        ≡ begun + (if begins_relation place (lexeme_of mark bytes) then 1 else 0) }
    ensures few { result ≤ begun + 1 }
{
    if begins_relation(place, mark) {
        begun + 1
    } else {
        begun
    }
}

fn letters_after(letters: u32, place: Place, mark: Mark) -> u32
    requires short { letters < 2 ^ 31 }
    requires small { is_exponent (nat_lt 256) place (lexeme_of mark []) ≡ false }
    ensures letters { (bytes : List ℕ) → result ≡ letters_after letters place (lexeme_of mark bytes) }
    ensures short { result ≤ letters + 256 }
{
    match mark {
        Mark::Name => letters + 1,
        Mark::Caret => letters.saturating_sub(1),
        Mark::Number { value } => letters + exponent_of(place, value),
        Mark::Star => letters,
        _ => 0,
    }
}

fn exponent_of(place: Place, value: u128) -> u32
    requires { is_exponent (nat_lt 256) place (number value) ≡ false }
    ensures letters { (letters : ℕ) → letters_after letters place (number value) ≡ letters + result }
    ensures short { result ≤ 256 }
{
    match place {
        Place::AfterCaret => value as u32,
        _ => 0,
    }
}

fn with_declared(
    alloc: Global,
    names: Vec<Vec<u8>>,
    place: Place,
    mark: Mark,
    bytes: &[u8],
) -> Result<Vec<Vec<u8>>, NoMemory>
    ensures { IfOk result (λ v. map (λ name. name.items) v.items ≡ map (λ name. name.items) names.items
        ++ declares place (lexeme_of mark bytes.now)) }
{
    match place {
        Place::AfterVars | Place::AfterListComma => with_name(alloc, names, mark, bytes),
        _ => Ok(names),
    }
}

fn with_name(
    alloc: Global,
    mut names: Vec<Vec<u8>>,
    mark: Mark,
    bytes: &[u8],
) -> Result<Vec<Vec<u8>>, NoMemory>
    ensures { IfOk result (λ v. map (λ name. name.items) v.items ≡ map (λ name. name.items) names.items
        ++ declares Place.AfterVars (lexeme_of mark bytes.now)) }
{
    match mark {
        Mark::Name => {
            let name = Vec::from_slice(alloc, bytes)?;
            names.push(name)?;
            Ok(names)
        }
        _ => Ok(names),
    }
}
