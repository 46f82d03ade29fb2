use words::{Items, Word};

/// The answer of a claim.
#[derive(Debug, Clone, Copy, PartialEq, Eq)]
pub enum Answer {
    Won,
    Lost { row: u32, stamp: u32 },
}

/// A claim with its answer.
#[derive(Debug, Clone, Copy, PartialEq, Eq)]
pub struct Call {
    pub seat: u32,
    pub stamp: u32,
    pub column: u32,
    pub row: u32,
    pub answer: Answer,
}

/// What an engine tells of a degree.
#[derive(Debug, Drop)]
pub struct Account {
    pub rows: u32,
    pub columns: Items<Word>,
    pub calls: Items<Call>,
}
