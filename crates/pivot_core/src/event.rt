use ideal_laws::Answer;

/// The kinds of steps.
#[derive(Debug, Clone, Copy, PartialEq, Eq)]
pub enum Kind {
    Draw,
    Look,
    Put,
    Claim,
    Read,
}

/// A step of a seat.
#[derive(Debug, Clone, Copy, PartialEq, Eq)]
pub struct Event {
    pub seat: u32,
    pub kind: Kind,
}

/// What a step tells its seat.
#[derive(Debug, Clone, Copy, PartialEq, Eq)]
pub enum Reply {
    Drew(Option<u32>),
    Free,
    Held { row: u32, stamp: u32 },
    Stored,
    Claimed(Answer),
    Got(u32),
}
