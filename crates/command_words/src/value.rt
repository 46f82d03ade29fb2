ghost use Rattle.std.specs.Prelude.{IsTrue, ◌↔◌, ◌≡◌, ◌<◌, ◌≤◌, ℕ, List, MatchOption, Contains};
ghost use Rattle.field_table.specs.Residues.{listed_moduli};
ghost use Rattle.command_words.specs.declared.value.Value.{Value};
ghost use Rattle.command_words.specs.Numbers.{IsNumber};
ghost use Rattle.command_words.specs.Values.{IsAnswer, IsEngine, IsModulus, IsNumberFrom, IsShow, IsValue};

use crate::job::{EngineKind, Key, Show};

const LISTED_MODULI: [u32; 10] = [2, 3, 5, 7, 11, 13, 101, 32003, 65521, 1_000_003];

/// What a word says of its key.
#[derive(Clone, Copy)]
pub enum Value {
    Count(u32),
    Shown(Show),
    Answer(bool),
    Kind(EngineKind),
}

/// The value of the key that the text says.
pub fn value_in(key: Key, text: &[u8]) -> Option<Value>
    ensures { MatchOption result ((value : Value) → IsValue key text.now value → ⊥) (IsValue key text.now) }
{
    match key {
        Key::Mod => modulus_in(text),
        Key::Deg => number_from(text, 1, 64),
        Key::Workers => number_from(text, 1, 64),
        Key::Show => show_in(text),
        Key::Trace => answer_in(text),
        Key::Engine => engine_in(text),
        Key::Schedule => number_from(text, 0, u32::MAX),
        Key::Number => number_from(text, 0, u32::MAX),
        Key::Vars => number_from(text, 2, 33),
        Key::Gens => number_from(text, 1, 64),
        Key::List => answer_in(text),
        Key::Ask => number_from(text, 1, 4096),
    }
}

fn modulus_in(text: &[u8]) -> Option<Value>
    ensures { MatchOption result ((value : Value) → IsModulus text.now value → ⊥) (IsModulus text.now) }
{
    let Some(number) = number_in(text, 1_000_003) else {
        return None;
    };
    if !is_listed(number) {
        return None;
    }
    Some(Value::Count(number))
}

fn is_listed(number: u32) -> bool
    ensures { IsTrue result ↔ Contains listed_moduli number }
{
    LISTED_MODULI.contains(&number)
}

fn number_from(text: &[u8], low: u32, high: u32) -> Option<Value>
    ensures { MatchOption result ((value : Value) → IsNumberFrom low high text.now value → ⊥)
        (IsNumberFrom low high text.now) }
{
    let Some(number) = number_in(text, high) else {
        return None;
    };
    if number < low {
        return None;
    }
    Some(Value::Count(number))
}

/// The number that the text says, or None where it is none or more than `most`.
fn number_in(text: &[u8], most: u32) -> Option<u32>
    ensures { MatchOption result ((n : ℕ) → IsNumber text.now n → most < n) (λ n. IsNumber text.now n × (n ≤ most)) }
{
    if text.is_empty() {
        return None;
    }
    let mut value: u64 = 0;
    for digit in text {
        if !digit.is_ascii_digit() {
            return None;
        }
        if value <= u64::from(most) {
            value = value * 10 + u64::from(*digit - b'0');
        }
    }
    if value <= u64::from(most) {
        Some(value as u32)
    } else {
        None
    }
}

fn show_in(text: &[u8]) -> Option<Value>
    ensures { MatchOption result ((value : Value) → IsShow text.now value → ⊥) (IsShow text.now) }
{
    match text {
        b"basis" => Some(Value::Shown(Show::Basis)),
        b"series" => Some(Value::Shown(Show::Series)),
        b"both" => Some(Value::Shown(Show::Both)),
        _ => None,
    }
}

fn answer_in(text: &[u8]) -> Option<Value>
    ensures { MatchOption result ((value : Value) → IsAnswer text.now value → ⊥) (IsAnswer text.now) }
{
    match text {
        b"yes" => Some(Value::Answer(true)),
        b"no" => Some(Value::Answer(false)),
        _ => None,
    }
}

fn engine_in(text: &[u8]) -> Option<Value>
    ensures { MatchOption result ((value : Value) → IsEngine text.now value → ⊥) (IsEngine text.now) }
{
    match text {
        b"race" => Some(Value::Kind(EngineKind::Race)),
        b"core" => Some(Value::Kind(EngineKind::Core)),
        b"seq" => Some(Value::Kind(EngineKind::Seq)),
        b"plain" => Some(Value::Kind(EngineKind::Plain)),
        _ => None,
    }
}
