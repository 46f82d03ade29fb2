use words::Word;

/// A leading word with the number of its element.
#[derive(Debug, Drop)]
pub struct Lead {
    pub word: Word,
    pub element: u32,
}
