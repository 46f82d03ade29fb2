ghost use Rattle.std.specs.Prelude.{◌≡◌};
ghost use Rattle.relation_reader.specs.declared.fault.ReaderFault.TheVariants.{NoMemory};

use std::alloc::AllocError;

/// What may come at the place of a token that may not.
#[derive(Debug, Clone, Copy, PartialEq, Eq, Drop)]
pub enum Want {
    Vars,
    Name,
    /// `,` or `;`, and `:` after a name without a weight.
    ListMark,
    Term,
    Factor,
    Exponent,
    Operator,
    Weight,
}

/// Why a text has no reading. `at` is the place of a byte, and relations are counted from 1.
#[derive(Debug, Clone, Copy, PartialEq, Eq, Drop)]
pub enum InputFault {
    BadByte { at: u32 },
    NumberTooWide { at: u32 },
    Expected { at: u32, what: Want },
    NoVariable { at: u32 },
    AfterEnd { at: u32 },
    NameTooLong { at: u32 },
    TooManyVariables { at: u32 },
    RepeatedVariable { at: u32 },
    WeightOutOfRange { at: u32 },
    TooManyRelations { at: u32 },
    UnknownVariable { at: u32 },
    ExponentTooLarge { at: u32 },
    WordTooLong { at: u32 },
    NotHomogeneous { relation: u32 },
    Constant { relation: u32 },
}

/// The fault of a text, or want of memory, which says nothing of it.
#[derive(Debug, Drop)]
pub enum ReaderFault {
    Text(InputFault),
    NoMemory,
}

impl From<AllocError> for ReaderFault {
    ghost from_gives = { λ _ fault. fault ≡ NoMemory };

    fn from(_error: AllocError) -> ReaderFault {
        ReaderFault::NoMemory
    }
}
