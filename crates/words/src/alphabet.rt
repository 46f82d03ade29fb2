ghost use Rattle.std.specs.Prelude.{◌≡◌, ◌≢◌, ◌<◌, ◌≤◌, ◌↔◌, ◌^◌, ℕ, [], map, length, replicate, All, Contains};
ghost use Rattle.std.specs.Prelude.{IfOk, IfSome, IsErrOf, IsNone, IsOk, MatchOption, OnOk, slice_index_or};
ghost use Rattle.words.specs.Words.{AreWeights, IsOver, degree_of, weight_of};
ghost use Rattle.words.specs.Names.{AreNames, IsAlphabet, IsFaultOf, IsFirstRepeat};

use std::alloc::{AllocError, Global};
use std::marker::Model;

/// Names of variables with their weights, the first of which is the greatest letter.
#[derive(Debug, Drop)]
pub struct Alphabet {
    names: Vec<Vec<u8>>,
    weights: Vec<u8>,
}

impl Model for Alphabet {
    ghost use Rattle.std.specs.Prelude.{map};
    ghost use Rattle.words.specs.Names.{IsAlphabet, Letters};

    ghost Value = { Letters };

    ghost view = { λ a. record { names = map (λ name. name.items) a.names.items; weights = a.weights.items } };

    ghost invariant = { λ a. IsAlphabet (record {
      names = map (λ name. name.items) a.names.items;
      weights = a.weights.items;
    }) };
}

/// Why names are no alphabet.
#[derive(Debug, Drop)]
pub enum AlphabetFault {
    Empty,
    TooMany,
    /// The least place of a name that stood before, and where it stood, counted from 0.
    Repeated { first: u32, second: u32 },
    NoMemory,
}

impl From<AllocError> for AlphabetFault {
    ghost use Rattle.words.specs.declared.alphabet.AlphabetFault.TheVariants.{NoMemory};

    ghost from_gives = { λ _ fault. fault ≡ NoMemory };

    fn from(_error: AllocError) -> AlphabetFault {
        AlphabetFault::NoMemory
    }
}

impl Alphabet {
    /// The alphabet of these names, each with the weight 1.
    pub fn new(alloc: Global, names: Vec<Vec<u8>>) -> Result<Alphabet, AlphabetFault>
        ensures names { IfOk result (λ a. a.names ≡ map (λ name. name.items) names.items) }
        ensures weights { IfOk result (λ a. a.weights ≡ replicate (length names.items) 1) }
        ensures made { OnOk result (AreNames (map (λ name. name.items) names.items)) }
        ensures empty { IsErrOf result AlphabetFault.Empty ↔ (names.items ≡ []) }
        ensures many { IsErrOf result AlphabetFault.TooMany ↔ (64 < length names.items) }
        ensures repeated { (first second : ℕ) → (IsErrOf result (AlphabetFault.Repeated first second) ↔
            ((length names.items ≤ 64) × IsFirstRepeat (map (λ name. name.items) names.items) first second)) }
        ensures starved { IsErrOf result AlphabetFault.NoMemory → AreNames (map (λ name. name.items) names.items) }
    {
        if let Some(fault) = fault_of(names.as_slice()) {
            return Err(fault);
        }
        let weights = vec![in alloc; 1; names.len()]?;
        Ok(Alphabet { names, weights })
    }

    /// The alphabet of these names with these weights.
    pub fn weighted(
        _alloc: Global,
        names: Vec<Vec<u8>>,
        weights: Vec<u8>,
    ) -> Result<Alphabet, AlphabetFault>
        requires count { length weights.items ≡ length names.items }
        requires weights { AreWeights weights.items }
        ensures names { IfOk result (λ a. a.names ≡ map (λ name. name.items) names.items) }
        ensures weights { IfOk result (λ a. a.weights ≡ weights.items) }
        ensures made { IsOk result ↔ AreNames (map (λ name. name.items) names.items) }
        ensures empty { IsErrOf result AlphabetFault.Empty ↔ (names.items ≡ []) }
        ensures many { IsErrOf result AlphabetFault.TooMany ↔ (64 < length names.items) }
        ensures repeated { (first second : ℕ) → (IsErrOf result (AlphabetFault.Repeated first second) ↔
            ((length names.items ≤ 64) × IsFirstRepeat (map (λ name. name.items) names.items) first second)) }
        ensures starved { IsErrOf result AlphabetFault.NoMemory → ⊥ }
    {
        match fault_of(names.as_slice()) {
            Some(fault) => Err(fault),
            None => Ok(Alphabet { names, weights }),
        }
    }

    /// The number of names.
    pub fn len(&self) -> u32
        ensures alphabet { IsAlphabet self.now }
        ensures count { result ≡ length self.now.weights }
        ensures few { length self.now.weights ≤ 64 }
    {
        self.weights.len() as u32
    }

    pub fn name(&self, letter: u8) -> &[u8]
        requires { letter < length self.now.weights }
        ensures { result.now ≡ slice_index_or self.now.names letter [] }
    {
        self.names[letter as usize].as_slice()
    }

    pub fn weight(&self, letter: u8) -> u8
        requires { letter < length self.now.weights }
        ensures value { result ≡ weight_of self.now.weights letter }
        ensures some { 0 < result }
        ensures small { result ≤ 8 }
    {
        self.weights[letter as usize]
    }

    /// The letter of this name.
    pub fn find(&self, name: &[u8]) -> Option<u8>
        ensures none { IsNone result ↔ (Contains self.now.names name.now → ⊥) }
        ensures place { IfSome result (λ letter. (letter < length self.now.weights)
            × (slice_index_or self.now.names letter [] ≡ name.now)) }
    {
        match place_of(self.names.as_slice(), name) {
            Some(at) => Some(at as u8),
            None => None,
        }
    }
}

/// Why these names are no alphabet: there is none, there are too many, or one stands twice.
fn fault_of(names: &[Vec<u8>]) -> Option<AlphabetFault>
    ensures { MatchOption result (AreNames (map (λ name. name.items) names.now))
        (λ fault. IsFaultOf fault (map (λ name. name.items) names.now)) }
{
    if names.is_empty() {
        return Some(AlphabetFault::Empty);
    }
    if names.len() > 64 {
        return Some(AlphabetFault::TooMany);
    }
    for (second, name) in names.iter().enumerate() {
        if let Some(first) = place_of(&names[..second], name.as_slice()) {
            return Some(AlphabetFault::Repeated {
                first: first as u32,
                second: second as u32,
            });
        }
    }
    None
}

/// The place of a name among these.
fn place_of(names: &[Vec<u8>], name: &[u8]) -> Option<usize>
    ensures { MatchOption result (All (λ other. other ≢ name.now) (map (λ name. name.items) names.now))
        (λ at. (at < length names.now) × (slice_index_or (map (λ name. name.items) names.now) at [] ≡ name.now)) }
{
    for (at, other) in names.iter().enumerate() {
        if other.as_slice() == name {
            return Some(at);
        }
    }
    None
}

/// The sum of the weights of the letters.
pub fn degree(alphabet: &Alphabet, word: &[u8]) -> u64
    requires letters { IsOver (length alphabet.now.weights) word.now }
    requires small { degree_of alphabet.now.weights word.now < 2 ^ 64 }
    ensures { result ≡ degree_of alphabet.now.weights word.now }
{
    total_degree(alphabet, word) as u64
}

/// The degree, which a word of memory has below 2^67.
pub fn total_degree(alphabet: &Alphabet, word: &[u8]) -> u128
    requires letters { IsOver (length alphabet.now.weights) word.now }
    ensures { result ≡ degree_of alphabet.now.weights word.now }
{
    word_degree(alphabet.weights.as_slice(), word)
}

/// The degree by the weights alone.
pub fn word_degree(weights: &[u8], word: &[u8]) -> u128
    ensures { result ≡ degree_of weights.now word.now }
{
    let mut total = 0;
    for letter in word {
        total += u128::from(weight_at(weights, *letter));
    }
    total
}

fn weight_at(weights: &[u8], letter: u8) -> u8
    ensures { result ≡ weight_of weights.now letter }
{
    match weights.get(letter as usize) {
        Some(weight) => *weight,
        None => 1,
    }
}
