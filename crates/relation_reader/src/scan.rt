ghost use Rattle.std.specs.Prelude.{◌≡◌, ℕ, ◌+◌, ◌-◌, ◌*◌, ◌<◌, ◌≤◌, true, false, length, drop, slice_index_or};
ghost use Rattle.std.specs.Prelude.{IfOk, IfSome, MatchResult, MatchOption, None, IsTrue, ◌≢◌};
ghost use Rattle.relation_reader.specs.Tokens.{IsGap, SplitsFrom, StopsAt, after_byte, begins, between, broken};
ghost use Rattle.relation_reader.specs.Tokens.{is_digit, is_letter, is_mark_byte, is_name, is_name_byte, is_number};
ghost use Rattle.relation_reader.specs.Tokens.{is_separator, span, with_digits};
ghost use Rattle.relation_reader.specs.Scan.{IsFaultAt, IsMarkOf, IsNarrowed, IsTokenAt, gap_of};

use crate::fault::InputFault;
use crate::token::{Mark, Token};
use std::alloc::Global;
use words::NoMemory;

/// The tokens of a text but for End, and the fault of tokens that ends them, where one does.
#[derive(Drop)]
pub struct Split {
    pub tokens: Vec<Token>,
    pub stop: Option<InputFault>,
}

pub fn split_of(alloc: Global, text: &[u8]) -> Result<Split, NoMemory>
    requires { length text.now ≤ 1048576 }
    ensures { IfOk result (λ s. SplitsFrom text.now 0 s.tokens.items s.stop) }
{
    let mut tokens = Vec::new(alloc);
    let mut at = 0;
    'tokens: loop {
        let start = gap_end(text, at);
        if start == text.len() {
            return Ok(Split { tokens, stop: None });
        }
        match token_at(text, start) {
            Ok(token) => {
                at = token.end as usize;
                tokens.push(token)?;
            }
            Err(fault) => {
                return Ok(Split {
                    tokens,
                    stop: Some(fault),
                });
            }
        }
    }
}

/// The end of the separators and comments from a place on.
fn gap_end(text: &[u8], from: usize) -> usize
    requires { from ≤ length text.now }
    ensures order { from ≤ result }
    ensures within { result ≤ length text.now }
    ensures gap { result < length text.now → IsGap text.now from result }
    ensures ends { result < length text.now → after_byte between (slice_index_or text.now result 0) ≡ broken }
    ensures rest { result ≡ length text.now → StopsAt text.now from None }
{
    let mut in_comment = false;
    for at in from..text.len() {
        let byte = text[at];
        if !in_comment && breaks_gap(byte) {
            return at;
        }
        in_comment = is_comment_after(in_comment, byte);
    }
    text.len()
}

fn breaks_gap(byte: u8) -> bool
    ensures yes { IsTrue result → after_byte between byte ≡ broken }
    ensures no { result ≡ false → after_byte between byte ≢ broken }
{
    !is_separator(byte) && byte != b'%'
}

fn is_comment_after(in_comment: bool, byte: u8) -> bool
    requires { in_comment ≡ false → after_byte between byte ≢ broken }
    ensures { gap_of result ≡ after_byte (gap_of in_comment) byte }
{
    if in_comment {
        byte != b'\n'
    } else {
        byte == b'%'
    }
}

/// The token that begins at a place, or the fault that stands there.
fn token_at(text: &[u8], start: usize) -> Result<Token, InputFault>
    requires small { length text.now ≤ 1048576 }
    requires within { start < length text.now }
    requires ends { after_byte between (slice_index_or text.now start 0) ≡ broken }
    ensures { MatchResult result (IsTokenAt text.now start) (IsFaultAt text.now start) }
{
    let byte = text[start];
    if is_letter(byte) {
        let end = name_end(text, start);
        return Ok(Token {
            mark: Mark::Name,
            start: start as u32,
            end: end as u32,
        });
    }
    if is_digit(byte) {
        let digits = digits_at(text, start);
        return match digits.value {
            Some(value) => Ok(Token {
                mark: Mark::Number { value },
                start: start as u32,
                end: digits.end as u32,
            }),
            None => Err(InputFault::NumberTooWide { at: start as u32 }),
        };
    }
    match mark_of(byte) {
        Some(mark) => Ok(Token {
            mark,
            start: start as u32,
            end: start as u32 + 1,
        }),
        None => Err(InputFault::BadByte { at: start as u32 }),
    }
}

fn name_end(text: &[u8], start: usize) -> usize
    requires within { start < length text.now }
    requires letter { is_letter (slice_index_or text.now start 0) ≡ true }
    ensures more { start < result }
    ensures within { result ≤ length text.now }
    ensures spelled { is_name (span text.now start result) ≡ true }
    ensures longest { begins is_name_byte (drop result text.now) ≡ false }
{
    for at in start + 1..text.len() {
        if !is_name_byte(text[at]) {
            return at;
        }
    }
    text.len()
}

/// Some digits and their number, where it is below 2^128.
#[derive(Clone, Copy)]
struct Digits {
    end: usize,
    value: Option<u128>,
}

fn digits_at(text: &[u8], start: usize) -> Digits
    requires within { start < length text.now }
    requires digit { is_digit (slice_index_or text.now start 0) ≡ true }
    ensures more { start < result.end }
    ensures within { result.end ≤ length text.now }
    ensures spelled { is_number (span text.now start result.end) ≡ true }
    ensures longest { begins is_digit (drop result.end text.now) ≡ false }
    ensures value { IsNarrowed result.value (with_digits 0 (span text.now start result.end)) }
{
    let mut value = Some(u128::from(text[start] - b'0'));
    for at in start + 1..text.len() {
        let byte = text[at];
        if !is_digit(byte) {
            return Digits { end: at, value };
        }
        value = with_digit(value, byte - b'0');
    }
    Digits {
        end: text.len(),
        value,
    }
}

fn with_digit(value: Option<u128>, digit: u8) -> Option<u128>
    ensures { (n : ℕ) → IsNarrowed value n → IsNarrowed result (n * 10 + digit) }
{
    match value {
        None => None,
        Some(number) => match number.checked_mul(10) {
            None => None,
            Some(tens) => tens.checked_add(u128::from(digit)),
        },
    }
}

fn is_separator(byte: u8) -> bool
    ensures { result ≡ is_separator byte }
{
    byte == b' ' || byte == b'\t' || byte == b'\n' || byte == b'\r'
}

fn is_digit(byte: u8) -> bool
    ensures { result ≡ is_digit byte }
{
    byte >= b'0' && byte <= b'9'
}

fn is_letter(byte: u8) -> bool
    ensures { result ≡ is_letter byte }
{
    byte >= b'A' && byte <= b'Z' || byte >= b'a' && byte <= b'z'
}

fn is_name_byte(byte: u8) -> bool
    ensures { result ≡ is_name_byte byte }
{
    is_letter(byte) || is_digit(byte) || byte == b'_'
}

fn mark_of(byte: u8) -> Option<Mark>
    ensures { MatchOption result (is_mark_byte byte ≡ false) (IsMarkOf byte) }
{
    match byte {
        b'+' => Some(Mark::Plus),
        b'-' => Some(Mark::Minus),
        b'*' => Some(Mark::Star),
        b'^' => Some(Mark::Caret),
        b',' => Some(Mark::Comma),
        b';' => Some(Mark::Semicolon),
        b':' => Some(Mark::Colon),
        _ => None,
    }
}
