/// What is asked for.
#[derive(Debug, Clone, Copy, PartialEq, Eq)]
pub enum Command {
    Gb,
    Make,
    Module,
    Chains,
    Normal,
}

/// What is printed.
#[derive(Debug, Clone, Copy, PartialEq, Eq)]
pub enum Show {
    Basis,
    Series,
    Both,
}

/// Which engine computes a degree.
#[derive(Debug, Clone, Copy, PartialEq, Eq)]
pub enum EngineKind {
    Race,
    Core,
    Seq,
    Plain,
}

/// What stands before the `=` of a word.
#[derive(Debug, Clone, Copy, PartialEq, Eq)]
pub enum Key {
    Mod,
    Deg,
    Workers,
    Show,
    Trace,
    Engine,
    Schedule,
    Number,
    Vars,
    Gens,
    List,
    Ask,
}

/// What the words of a command line say. A key that no word has stands with its default, and `number`, `letters`,
/// `gens` and `ask` are then 0.
#[derive(Debug, Clone, Copy, PartialEq, Eq)]
pub struct Job {
    pub command: Command,
    /// The value of `mod`.
    pub modulus: u32,
    /// The value of `deg`, the last degree.
    pub bound: u32,
    pub workers: u32,
    pub show: Show,
    pub trace: bool,
    pub engine: EngineKind,
    pub schedule: u32,
    pub number: u32,
    /// The value of `vars`.
    pub letters: u32,
    pub gens: u32,
    pub list: bool,
    pub ask: u32,
}

/// Why words are no job. Words are counted from 1, and the command is word 1.
#[derive(Debug, Clone, Copy, PartialEq, Eq)]
pub enum UsageFault {
    NoCommand,
    UnknownCommand,
    /// No `=`, or before it no key of the command.
    UnknownKey { word: u32 },
    RepeatedKey { word: u32 },
    BadValue { word: u32 },
    MissingKey { key: Key },
}
