ghost use Rattle.std.specs.Prelude.{◌≡◌};
ghost use Rattle.ideal_laws.specs.Limits.{AreLimits, standard_limits};

/// What may be too large in a degree, in the order in which it is asked.
#[derive(Debug, Clone, Copy, PartialEq, Eq)]
pub enum LimitKind {
    PlainWords,
    Rows,
    Columns,
    Entries,
    Cells,
    Terms,
    NormalWords,
}

/// The greatest number of each kind.
#[derive(Debug, Clone, Copy, PartialEq, Eq)]
pub struct Limits {
    pub plain_words: u32,
    pub rows: u32,
    pub columns: u32,
    pub entries: u32,
    pub cells: u32,
    pub terms: u32,
    pub normal_words: u32,
}

impl Limits {
    pub fn standard() -> Limits
        ensures value { result ≡ standard_limits }
        ensures limits { AreLimits result }
    {
        Limits {
            plain_words: 4_096,
            rows: 1_048_576,
            columns: 1_048_576,
            entries: 16_777_216,
            cells: 67_108_864,
            terms: 16_777_216,
            normal_words: 2_097_152,
        }
    }
}
