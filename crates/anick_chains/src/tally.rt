use words::Word;

/// So many chains have this degree, this length and this last piece.
#[derive(Debug, Drop)]
pub struct Tally {
    pub degree: u32,
    pub size: u32,
    pub last: Word,
    pub count: u32,
}

/// So many chains have this degree and this length.
#[derive(Debug, Drop)]
pub struct ChainCount {
    pub degree: u32,
    pub size: u32,
    pub count: u32,
}
