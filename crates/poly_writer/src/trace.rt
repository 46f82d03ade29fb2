ghost use Rattle.std.specs.Prelude.{◌≡◌, ◌<◌, ◌++◌, All, length, slice_index_or, IfOk};
ghost use Rattle.words.specs.Words.{IsOver};
ghost use Rattle.poly_writer.specs.Texts.{answer_text, call_line, trace_line, trace_text, word_text};

use crate::piece::{push_number, push_word};
use ideal_laws::{Account, Answer, Call};
use std::alloc::Global;
use words::{Alphabet, NoMemory, Word};

/// The history of the claims of a degree, a line a call, below a line with the numbers of rows and contested columns.
/// A degree without rows has an empty text.
pub fn trace_text(
    alloc: Global,
    alphabet: &Alphabet,
    d: u32,
    account: &Account,
) -> Result<Vec<u8>, NoMemory>
    requires letters { All (IsOver (length alphabet.now.weights)) account.now.columns }
    requires columns { All (λ call. call.column < length account.now.columns) account.now.calls }
    ensures { IfOk result (λ v. v.items ≡ trace_text alphabet.now.names d account.now) }
{
    let mut text = Vec::new(alloc);
    if account.rows == 0 {
        return Ok(text);
    }
    let columns = account.columns.as_slice();
    push_trace_line(&mut text, d, account.rows, columns.len())?;
    for call in account.calls.as_slice() {
        push_call(&mut text, alphabet, columns, call)?;
    }
    Ok(text)
}

fn push_trace_line(text: &mut Vec<u8>, d: u32, rows: u32, columns: usize) -> Result<(), NoMemory>
    ensures { IfOk result (λ _. text.new.items ≡ text.old.items ++ trace_line d rows columns) }
{
    text.extend_from_slice(b"# degree ")?;
    push_number(text, u64::from(d))?;
    text.extend_from_slice(b" rows ")?;
    push_number(text, u64::from(rows))?;
    text.extend_from_slice(b" columns ")?;
    push_number(text, columns as u64)?;
    text.extend_from_slice(b"\n")
}

fn push_call(
    text: &mut Vec<u8>,
    alphabet: &Alphabet,
    columns: &[Word],
    call: &Call,
) -> Result<(), NoMemory>
    requires letters { All (IsOver (length alphabet.now.weights)) columns.now }
    requires column { call.now.column < length columns.now }
    ensures { IfOk result (λ _. text.new.items ≡ text.old.items ++ call_line alphabet.now.names columns.now call.now) }
{
    push_number(text, u64::from(call.stamp))?;
    text.extend_from_slice(b" ")?;
    push_number(text, u64::from(call.seat))?;
    let word = columns[call.column as usize].letters();
    push_answer(text, alphabet, word, call.row, call.answer)?;
    text.extend_from_slice(b"\n")
}

fn push_answer(
    text: &mut Vec<u8>,
    alphabet: &Alphabet,
    word: &[u8],
    row: u32,
    answer: Answer,
) -> Result<(), NoMemory>
    requires { IsOver (length alphabet.now.weights) word.now }
    ensures { IfOk result (λ _. text.new.items ≡ text.old.items
        ++ answer_text (word_text alphabet.now.names word.now) row answer) }
{
    match answer {
        Answer::Won => {
            text.extend_from_slice(b" won ")?;
            push_word(text, alphabet, word)?;
            text.extend_from_slice(b" row ")?;
            push_number(text, u64::from(row))
        }
        Answer::Lost { row: holder, .. } => {
            text.extend_from_slice(b" lost ")?;
            push_word(text, alphabet, word)?;
            text.extend_from_slice(b" row ")?;
            push_number(text, u64::from(row))?;
            text.extend_from_slice(b" to ")?;
            push_number(text, u64::from(holder))
        }
    }
}
