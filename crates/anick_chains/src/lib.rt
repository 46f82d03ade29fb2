//! Chains over tips, after Anick: lists of words in which each word ends the only occurrence of a tip with the word
//! before it.
#![tactic(auto)]

mod chain;
mod counting;
mod listing;
mod longer;
mod merging;
mod next;
mod order;
mod tallies;
mod tally;
mod text;
mod tip_index;

ghost use Rattle.anick_chains.specs.BasisTips.{HasMinimalChains};
ghost use Rattle.anick_chains.specs.Laws.{HasExtensions, HasListedMates, HasMates, IsPairing};

pub use chain::{Chain, ChainFault};
pub use counting::chain_counts;
pub use listing::chains;
pub use tally::ChainCount;
pub use text::{chain_text, count_text};

/// The pairing law: each pair of a chain, or none, and a normal word has exactly one mate, which has the same degree
/// and a length greater or less by 1, and is the mate of its mate; so a list of all pairs of one degree of 1 or more
/// has as many of even length as of odd length.
pub fn pairing_law()
    ensures mates { HasMates }
    ensures counts { IsPairing }
    ensures listed { HasListedMates }
{}

/// The pieces that may follow a piece are exactly the ends of the tips that it begins; and up to the degree of a
/// reduced basis the chains over its leading words are those over the minimal words.
pub fn chain_laws()
    ensures extensions { HasExtensions }
    ensures minimal { HasMinimalChains }
{}
