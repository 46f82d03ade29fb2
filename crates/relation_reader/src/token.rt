/// What a token is.
#[derive(Debug, Clone, Copy, PartialEq, Eq, Drop)]
pub enum Mark {
    Name,
    Number { value: u128 },
    Plus,
    Minus,
    Star,
    Caret,
    Comma,
    Semicolon,
    Colon,
    End,
}

/// A token with its bytes, from `start` to before `end`.
#[derive(Debug, Clone, Copy, PartialEq, Eq, Drop)]
pub struct Token {
    pub mark: Mark,
    pub start: u32,
    pub end: u32,
}
