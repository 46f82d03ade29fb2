use words::Word;

/// A word with its coefficient.
#[derive(Debug, Drop)]
pub struct Term {
    pub word: Word,
    pub coefficient: u32,
}
