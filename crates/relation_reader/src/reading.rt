ghost use Rattle.std.specs.Prelude.{◌≡◌, ◌≤◌, ◌++◌, ◌∷◌, [], All, length, IfOk, MatchResult};
ghost use Rattle.free_poly.specs.Terms.{HasResidues};
ghost use Rattle.relation_reader.specs.Tokens.{AreTokens, end_token};
ghost use Rattle.relation_reader.specs.Meaning.{Reads};
ghost use Rattle.relation_reader.specs.Answers.{IsReadError, IsTokenError};

use crate::fault::ReaderFault;
use crate::placed::first_placed;
use crate::presented::presentation_of;
use crate::scan::{Split, split_of};
use crate::token::{Mark, Token};
use field_table::Field;
use ideal_laws::Presentation;
use std::alloc::Global;
use words::NoMemory;

/// The tokens of a text, with End last, or its earliest fault of tokens.
pub fn tokens(alloc: Global, text: &[u8]) -> Result<Vec<Token>, ReaderFault>
    requires { length text.now ≤ 1048576 }
    ensures { MatchResult result (λ v. AreTokens text.now v.items) (IsTokenError text.now) }
{
    let Split { tokens, stop } = split_of(alloc, text)?;
    if let Some(fault) = stop {
        return Err(ReaderFault::Text(fault));
    }
    let all = with_end(tokens, text)?;
    Ok(all)
}

fn with_end(mut tokens: Vec<Token>, text: &[u8]) -> Result<Vec<Token>, NoMemory>
    requires { length text.now ≤ 1048576 }
    ensures { IfOk result (λ v. v.items ≡ tokens.items ++ end_token (length text.now) ∷ []) }
{
    let end = text.len() as u32;
    tokens.push(Token {
        mark: Mark::End,
        start: end,
        end,
    })?;
    Ok(tokens)
}

/// The letters of a text with their weights, and its relations other than 0, or its first fault: that with the least
/// place, and where none has a place, that of the first relation with one.
pub fn read(alloc: Global, field: &Field, text: &[u8]) -> Result<Presentation, ReaderFault>
    requires { length text.now ≤ 1048576 }
    ensures reads { MatchResult result (λ found. Reads text.now field.now found.alphabet found.relations)
        (IsReadError text.now field.now) }
    ensures residues { IfOk result (λ found. All (HasResidues field.now) found.relations) }
{
    let Split { tokens, stop } = split_of(alloc, text)?;
    if let Some(fault) = first_placed(alloc, text, tokens.as_slice(), stop)? {
        return Err(ReaderFault::Text(fault));
    }
    // A modulus is above 0, which contracts know from its accessor.
    let _ = field.modulus();
    presentation_of(alloc, field, text, tokens.as_slice())
}
