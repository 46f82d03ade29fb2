ghost use Rattle.std.specs.Prelude.{◌≡◌, ◌≢◌, ◌-◌, ◌<◌, ◌≤◌, ◌++◌, length, drop, replicate, decimal, slice_index, IfOk};
ghost use Rattle.words.specs.Words.{IsOver};
ghost use Rattle.poly_writer.specs.Texts.{run_text, word_text};

use itoa::Buffer;
use words::{Alphabet, NoMemory};

/// Adds the decimal digits of a number to the text.
pub fn push_number(text: &mut Vec<u8>, number: u64) -> Result<(), NoMemory>
    ensures { IfOk result (λ _. text.new.items ≡ text.old.items ++ decimal number) }
{
    let mut digits = Buffer::new();
    text.extend_from_slice(digits.format(number).as_bytes())
}

/// Adds a word to the text as its runs of equal letters, `x^2*y`; the empty word adds nothing.
pub fn push_word(text: &mut Vec<u8>, alphabet: &Alphabet, word: &[u8]) -> Result<(), NoMemory>
    requires { IsOver (length alphabet.now.weights) word.now }
    ensures { IfOk result (λ _. text.new.items ≡ text.old.items ++ word_text alphabet.now.names word.now) }
{
    let mut at = 0;
    while at < word.len() {
        let end = run_end(word, at);
        push_run(text, alphabet, word[at], end - at)?;
        if end < word.len() {
            text.extend_from_slice(b"*")?;
        }
        at = end;
    }
    Ok(())
}

/// The place behind the run of equal letters that begins at this place.
fn run_end(word: &[u8], at: usize) -> usize
    requires { at < length word.now }
    ensures more { at < result }
    ensures within { result ≤ length word.now }
    ensures equal { drop at word.now ≡ replicate (result - at) (slice_index word.now at) ++ drop result word.now }
    ensures longest { result < length word.now → slice_index word.now result ≢ slice_index word.now at }
{
    let letter = word[at];
    for end in at + 1..word.len() {
        if word[end] != letter {
            return end;
        }
    }
    word.len()
}

fn push_run(
    text: &mut Vec<u8>,
    alphabet: &Alphabet,
    letter: u8,
    times: usize,
) -> Result<(), NoMemory>
    requires { letter < length alphabet.now.weights }
    ensures { IfOk result (λ _. text.new.items ≡ text.old.items
        ++ run_text alphabet.now.names (record { letter = letter; times = times })) }
{
    text.extend_from_slice(alphabet.name(letter))?;
    if times != 1 {
        text.extend_from_slice(b"^")?;
        push_number(text, times as u64)?;
    }
    Ok(())
}
