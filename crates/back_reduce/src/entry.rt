/// A residue other than 0, with its column.
#[derive(Debug, Clone, Copy)]
pub struct Entry {
    pub column: usize,
    pub residue: u32,
}
