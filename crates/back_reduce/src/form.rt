ghost use Rattle.back_reduce.specs.Entries.{AreEntries};

/// The two forms in which a row is held.
#[derive(Debug, Drop)]
pub(crate) enum Form {
    Full(Vec<u32>),
    Listed(Listed),
}

/// A row of which residues are listed, with their columns. It is 0 at the other columns.
#[derive(Debug, Drop)]
pub(crate) struct Listed {
    pub width: u32,
    pub columns: Vec<u32>,
    pub residues: Vec<u32>,
    pub ghost entries: { AreEntries width columns.items residues.items },
}
