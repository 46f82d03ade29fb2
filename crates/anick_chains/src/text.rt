ghost use Rattle.std.specs.Prelude.{◌≡◌, ◌++◌, ◌<◌, ◌≤◌, ◌↔◌, ℕ, All, IfOk, IsTrue, OnOk, codes, length};
ghost use Rattle.std.specs.Prelude.{slice_index_or};
ghost use Rattle.std.specs.List.{flat_map, join_by};
ghost use Rattle.words.specs.Words.{IsOver};
ghost use Rattle.poly_writer.specs.Texts.{word_text};
ghost use Rattle.anick_chains.specs.declared.chain.Chain.{Chain};
ghost use Rattle.anick_chains.specs.Listed.{pieces_of};
ghost use Rattle.anick_chains.specs.Tallies.{count_text};
ghost use Rattle.anick_chains.specs.Texts.{HasShape, block_text, chain_line, chain_text, count_line};

use crate::chain::Chain;
use crate::tally::ChainCount;
use poly_writer::{push_number, push_word};
use std::alloc::Global;
use words::{Alphabet, NoMemory, Word};

/// For each degree and length that has a chain a line with their number, and with `list` a line for each of these
/// chains, which stand in their order.
pub fn chain_text(
    alloc: Global,
    alphabet: &Alphabet,
    chains: &[Chain],
    list: bool,
) -> Result<Vec<u8>, NoMemory>
    requires letters { All (λ c. All (IsOver (length alphabet.now.weights)) c.pieces) chains.now }
    ensures { IfOk result (λ text. text.items ≡ chain_text alphabet.now.names list chains.now) }
{
    let mut text = Vec::new(alloc);
    let mut at = 0;
    while at < chains.len() {
        let degree = chains[at].degree;
        let size = chains[at].pieces.as_slice().len();
        let end = block_end(chains, at, degree, size);
        push_block(&mut text, alphabet, &chains[at..end], degree, size, list)?;
        at = end;
    }
    Ok(text)
}

/// For each degree and length that has a chain the line with their number alone.
pub fn count_text(alloc: Global, counts: &[ChainCount]) -> Result<Vec<u8>, NoMemory>
    ensures { IfOk result (λ text. text.items ≡ count_text counts.now) }
{
    let mut text = Vec::new(alloc);
    for count in counts {
        push_count(
            &mut text,
            count.degree,
            count.size as usize,
            count.count as usize,
        )?;
    }
    Ok(text)
}

/// The place behind the chains of this degree and length that follow one another from a place on.
fn block_end(chains: &[Chain], at: usize, degree: u32, size: usize) -> usize
    requires within { at < length chains.now }
    requires first { (c : Chain) → HasShape degree size (slice_index_or chains.now at c) }
    ensures more { at < result }
    ensures within { result ≤ length chains.now }
    ensures same { (k : ℕ) (c : Chain) → at ≤ k → k < result → HasShape degree size (slice_index_or chains.now k c) }
    ensures longest { (c : Chain) → result < length chains.now →
        HasShape degree size (slice_index_or chains.now result c) → ⊥ }
{
    for end in at + 1..chains.len() {
        if !has_shape(&chains[end], degree, size) {
            return end;
        }
    }
    chains.len()
}

fn has_shape(chain: &Chain, degree: u32, size: usize) -> bool
    ensures { IsTrue result ↔ HasShape degree size chain.now }
{
    chain.degree == degree && chain.pieces.as_slice().len() == size
}

/// The chains of a degree and length.
fn push_block(
    text: &mut Vec<u8>,
    alphabet: &Alphabet,
    chains: &[Chain],
    degree: u32,
    size: usize,
    list: bool,
) -> Result<(), NoMemory>
    requires letters { All (λ c. All (IsOver (length alphabet.now.weights)) c.pieces) chains.now }
    ensures { OnOk result (text.new.items ≡ text.old.items ++ block_text alphabet.now.names list
        (record { degree = degree; size = size; chains = pieces_of chains.now })) }
{
    push_count(text, degree, size, chains.len())?;
    if !list {
        return Ok(());
    }
    push_lines(text, alphabet, chains)
}

fn push_count(text: &mut Vec<u8>, degree: u32, size: usize, count: usize) -> Result<(), NoMemory>
    ensures { OnOk result (text.new.items ≡ text.old.items ++ count_line degree size count) }
{
    text.extend_from_slice(b"% degree ")?;
    push_number(text, u64::from(degree))?;
    text.extend_from_slice(b" length ")?;
    push_number(text, size as u64)?;
    text.extend_from_slice(b" count ")?;
    push_number(text, count as u64)?;
    text.extend_from_slice(b"\n")
}

fn push_lines(text: &mut Vec<u8>, alphabet: &Alphabet, chains: &[Chain]) -> Result<(), NoMemory>
    requires letters { All (λ c. All (IsOver (length alphabet.now.weights)) c.pieces) chains.now }
    ensures { OnOk result (text.new.items ≡ text.old.items
        ++ flat_map (λ c. chain_line alphabet.now.names c.pieces) chains.now) }
{
    for chain in chains {
        push_line(text, alphabet, chain.pieces.as_slice())?;
    }
    Ok(())
}

fn push_line(text: &mut Vec<u8>, alphabet: &Alphabet, pieces: &[Word]) -> Result<(), NoMemory>
    requires letters { All (IsOver (length alphabet.now.weights)) pieces.now }
    ensures { OnOk result (text.new.items ≡ text.old.items ++ chain_line alphabet.now.names pieces.now) }
{
    push_pieces(text, alphabet, pieces)?;
    text.extend_from_slice(b"\n")
}

fn push_pieces(text: &mut Vec<u8>, alphabet: &Alphabet, pieces: &[Word]) -> Result<(), NoMemory>
    requires letters { All (IsOver (length alphabet.now.weights)) pieces.now }
    ensures { OnOk result (text.new.items ≡ text.old.items
        ++ join_by (word_text alphabet.now.names) (codes "|") pieces.now) }
{
    let Some(first) = pieces.first() else {
        return Ok(());
    };
    push_word(text, alphabet, first.letters())?;
    push_rest(text, alphabet, &pieces[1..])
}

fn push_rest(text: &mut Vec<u8>, alphabet: &Alphabet, pieces: &[Word]) -> Result<(), NoMemory>
    requires letters { All (IsOver (length alphabet.now.weights)) pieces.now }
    ensures { OnOk result (text.new.items ≡ text.old.items
        ++ flat_map (λ piece. codes "|" ++ word_text alphabet.now.names piece) pieces.now) }
{
    for piece in pieces {
        text.extend_from_slice(b"|")?;
        push_word(text, alphabet, piece.letters())?;
    }
    Ok(())
}
