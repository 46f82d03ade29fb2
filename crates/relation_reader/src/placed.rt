ghost use Rattle.std.specs.Prelude.{◌≡◌, ◌≤◌, ◌++◌, ◌∷◌, [], ℕ, List, Option, Some, None, drop, length, map, IfOk};
ghost use Rattle.relation_reader.specs.declared.fault.InputFault.{InputFault};
ghost use Rattle.relation_reader.specs.Tokens.{SplitsFrom};
ghost use Rattle.relation_reader.specs.Grammar.{lexeme_of};
ghost use Rattle.relation_reader.specs.Meaning.{Placed, faults_from, first_of, is_caret, place_fault, placed_from};
ghost use Rattle.relation_reader.specs.Meaning.{pieces_of};
ghost use Rattle.relation_reader.specs.Walk.{HasPassed, leads_caret};

use crate::fault::InputFault;
use crate::place::Place;
use crate::token::{Mark, Token};
use crate::walk::{Walk, fault_at, passed};
use std::alloc::Global;
use words::NoMemory;

/// The first fault of a text that has a place, from its tokens but for End, and the fault of tokens that ends them.
pub fn first_placed(
    alloc: Global,
    text: &[u8],
    tokens: &[Token],
    stop: Option<InputFault>,
) -> Result<Option<InputFault>, NoMemory>
    requires small { length text.now ≤ 1048576 }
    requires splits { SplitsFrom text.now 0 tokens.now stop }
    ensures { IfOk result (λ fault. fault ≡ place_fault (pieces_of text.now tokens.now stop) stop) }
{
    let mut walk = Walk {
        place: Place::Beginning,
        names: Vec::new(alloc),
        begun: 0,
        letters: 0,
    };
    for at in 0..tokens.len() {
        let token = tokens[at];
        let bytes = &text[token.start as usize..token.end as usize];
        let found = fault_at(&walk, token, bytes, is_caret_at(tokens, at + 1));
        if found.is_some() {
            return Ok(found);
        }
        walk = passed(alloc, walk, token, bytes)?;
    }
    if stop.is_some() {
        return Ok(stop);
    }
    Ok(fault_at_end(&walk, text))
}

fn is_caret_at(tokens: &[Token], at: usize) -> bool
    ensures { (text : List ℕ) (stop : Option InputFault) →
        result ≡ leads_caret (pieces_of text (drop at tokens.now) stop) }
{
    at < tokens.len() && is_caret(tokens[at].mark)
}

fn is_caret(mark: Mark) -> bool
    ensures { (bytes : List ℕ) → result ≡ is_caret (lexeme_of mark bytes) }
{
    match mark {
        Mark::Caret => true,
        _ => false,
    }
}

fn fault_at_end(walk: &Walk, text: &[u8]) -> Option<InputFault>
    requires { length text.now ≤ 1048576 }
    ensures { (before : List Placed) → HasPassed (map (λ name. name.items) walk.now.names.items) walk.now.begun
        walk.now.letters before → result ≡ first_of (faults_from before
        (placed_from (Some walk.now.place) (pieces_of text.now [] None)) ++ None ∷ []) }
{
    let end = text.len() as u32;
    let last = Token {
        mark: Mark::End,
        start: end,
        end,
    };
    fault_at(walk, last, &[], false)
}
