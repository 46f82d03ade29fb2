ghost use Rattle.std.specs.Prelude.{◌≡◌, ◌<◌, ◌≤◌, ◌⊎◌, ◌++◌, ◌∷◌, [], List, All, Contains, IfOk, IsErrOf, IsTrue};
ghost use Rattle.std.specs.Prelude.{OnOk, length, map};
ghost use Rattle.free_poly.specs.declared.term.Term.{Term};
ghost use Rattle.symbolic_prep.specs.Numbers.{AreListed, IsGrown};
ghost use Rattle.symbolic_prep.specs.PackedWords.{IsPackedWord, letters_in};
ghost use Rattle.symbolic_prep.specs.Walk.{HasMore};

use crate::packing::PackedWord;
use crate::pending::ColumnFault;
use crate::residues::ResidueLists;
use crate::table::WordTable;
use std::alloc::AllocError;
use words::NoMemory;

/// The reducers of columns: where each stands, the numbers of their words, and the coefficients of their elements.
#[derive(Debug, Drop)]
pub(crate) struct Lists {
    pub(crate) spans: Vec<Option<Span>>,
    pub(crate) numbers: Vec<u32>,
    pub(crate) residues: ResidueLists,
}

/// Where the numbers of a reducer's words stand, and the element that it is a multiple of.
#[derive(Debug, Clone, Copy)]
pub(crate) struct Span {
    pub(crate) start: u32,
    pub(crate) end: u32,
    pub(crate) element: u32,
}

/// Adds some words, and lists their numbers if they are to be held.
pub(crate) fn add_words(
    words: &[PackedWord],
    most: usize,
    held: bool,
    table: &mut WordTable,
    numbers: &mut Vec<u32>,
) -> Result<(), ColumnFault>
    requires few { length table.old.words ≤ most }
    requires small { most < 4294967296 }
    requires words { All (IsPackedWord table.old.bits table.old.room) words.now }
    ensures grown { OnOk result (IsGrown table.old.words table.new.words
        (map (letters_in table.old.bits table.old.room) words.now)) }
    ensures listed { (f : List Term) → map (letters_in table.old.bits table.old.room) words.now ≡ map (λ t. t.word) f →
        OnOk result (IsTrue held → AreListed table.new.words numbers.old.items numbers.new.items f) }
    ensures within { OnOk result (length table.new.words ≤ most) }
    ensures many { IsErrOf result ColumnFault.TooMany →
        HasMore most (λ w. Contains table.old.words w ⊎ Contains
        (map (letters_in table.old.bits table.old.room) words.now) w) }
    ensures bits { OnOk result (table.new.bits ≡ table.old.bits) }
    ensures room { OnOk result (table.new.room ≡ table.old.room) }
{
    let _len = table.len();
    for word in words {
        let number = table.add(*word)?;
        if table.len() > most {
            return Err(ColumnFault::TooMany);
        }
        push_number(held, number, numbers)?;
    }
    Ok(())
}

pub(crate) fn push_number(
    held: bool,
    number: u32,
    numbers: &mut Vec<u32>,
) -> Result<(), ColumnFault>
    ensures pushed { OnOk result (IsTrue held → numbers.new.items ≡ numbers.old.items ++ number ∷ []) }
    ensures memory { IsErrOf result ColumnFault.TooMany → ⊥ }
{
    if held {
        numbers.push(number)?;
    }
    Ok(())
}

/// The place behind so many numbers, in 32 bits. More would be want of memory; no limit of entries lets them come.
pub(crate) fn place_behind(count: usize) -> Result<u32, NoMemory>
    ensures { IfOk result (λ place. place ≡ count) }
{
    if count > u32::MAX as usize {
        return Err(AllocError);
    }
    Ok(count as u32)
}
