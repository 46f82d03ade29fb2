use std::alloc::{AllocError, Global};
use std::sync::atomic::{AtomicU64, Ordering};

/// A place where a worker passes a gate: before or after a claim of a column in a degree.
#[derive(Debug, Clone, Copy, PartialEq, Eq)]
pub struct Spot {
    pub degree: u32,
    pub column: u32,
    pub after: bool,
}

/// What a worker passes before and after each claim. It returns and promises nothing. It may look and count, and
/// nothing that it does changes what is computed.
pub trait Gate: Sync {
    fn pass(&self, seat: u32, spot: Spot);
}

/// The gate that does nothing.
#[derive(Debug, Clone, Copy)]
pub struct OpenGate;

impl Gate for OpenGate {
    fn pass(&self, _seat: u32, _spot: Spot) {}
}

/// How many turns a planned gate holds a seat at the most.
const TURNS: u64 = 2_000_000_000;

/// How many spots of each of the first two seats a planned gate notes at the most.
const NOTES: usize = 16;

/// What a planned gate does.
#[derive(Debug, Clone, Copy, PartialEq, Eq)]
pub enum Plan {
    Open,
    /// Holds each claim of the degree until so many have come.
    Meet { degree: u32, claims: u64 },
    /// Holds the first claim of the degree until another one was answered.
    Hold { degree: u32 },
    /// Turns at each spot of the seats of one parity.
    Slow { parity: u32, turns: u64 },
}

/// The one gate that engines and the program take: open, or held and slowed as planned, with notes of the spots that
/// the first two seats met.
#[derive(Drop)]
pub struct PlannedGate {
    plan: Plan,
    come: AtomicU64,
    answered: AtomicU64,
    ran_out: AtomicU64,
    met: [AtomicU64; 2],
    notes: Vec<AtomicU64>,
}

impl PlannedGate {
    /// The gate that lets each seat pass, and notes nothing.
    pub fn open(alloc: Global) -> PlannedGate {
        PlannedGate {
            plan: Plan::Open,
            come: AtomicU64::new(0),
            answered: AtomicU64::new(0),
            ran_out: AtomicU64::new(0),
            met: [AtomicU64::new(0), AtomicU64::new(0)],
            notes: Vec::new(alloc),
        }
    }

    pub fn new(alloc: Global, plan: Plan) -> Result<PlannedGate, AllocError> {
        let mut gate = PlannedGate::open(alloc);
        gate.plan = plan;
        for _note in 0..2 * NOTES {
            gate.notes.push(AtomicU64::new(0))?;
        }
        Ok(gate)
    }

    /// Whether a seat was held to the last turn.
    pub fn ran_out(&self) -> bool {
        self.ran_out.load(Ordering::SeqCst) != 0
    }

    /// How many spots the seat met, which is 0 or 1.
    pub fn met(&self, seat: u32) -> u64 {
        self.met[seat as usize % 2].load(Ordering::SeqCst)
    }

    /// Whether this is the spot that the seat met at this place of its notes.
    pub fn is_noted(&self, seat: u32, place: usize, spot: Spot) -> bool {
        let at = seat as usize % 2 * NOTES + place % NOTES;
        match self.notes.get(at) {
            Some(note) => note.load(Ordering::SeqCst) == code_of(spot),
            None => false,
        }
    }

    fn note(&self, seat: u32, spot: Spot) {
        let seat = seat as usize % 2;
        let place = self.met[seat].fetch_add(1, Ordering::SeqCst) % NOTES as u64;
        if let Some(note) = self.notes.get(seat * NOTES + place as usize) {
            note.store(code_of(spot), Ordering::SeqCst);
        }
    }

    /// Turns until the count is this number, and for a bounded number of turns.
    fn wait(&self, count: &AtomicU64, number: u64) {
        for _turn in 0..TURNS {
            if count.load(Ordering::SeqCst) >= number {
                return;
            }
        }
        self.ran_out.store(1, Ordering::SeqCst);
    }
}

impl Gate for PlannedGate {
    fn pass(&self, seat: u32, spot: Spot) {
        if self.plan == Plan::Open {
            return;
        }
        self.note(seat, spot);
        match self.plan {
            Plan::Open => {}
            Plan::Meet { degree, claims } => {
                if spot.degree == degree && !spot.after {
                    self.come.fetch_add(1, Ordering::SeqCst);
                    self.wait(&self.come, claims);
                }
            }
            Plan::Hold { degree } => {
                if spot.degree == degree && spot.after {
                    self.answered.fetch_add(1, Ordering::SeqCst);
                } else if spot.degree == degree && self.come.fetch_add(1, Ordering::SeqCst) == 0 {
                    self.wait(&self.answered, 1);
                }
            }
            Plan::Slow { parity, turns } => {
                if seat % 2 == parity {
                    for _turn in 0..turns {
                        self.come.load(Ordering::SeqCst);
                    }
                }
            }
        }
    }
}

/// A spot as a number.
fn code_of(spot: Spot) -> u64 {
    let degree = u64::from(spot.degree % 65_536);
    degree * 8_589_934_592 + u64::from(spot.column) * 2 + u64::from(spot.after)
}
