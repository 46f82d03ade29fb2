ghost use Rattle.std.specs.Prelude.{◌≡◌, ◌+◌, ◌*◌, ◌/◌, ◌%◌, ◌<◌, ◌≤◌, ℕ};
ghost use Rattle.row_store.specs.Deals.{part_of, turned};

use free_poly::Poly;

/// How rows are dealt out: in parts of so many rows, each to the next hand, until each hand had so many turns. A place
/// counts what the hands hold, one hand behind another.
#[derive(Clone, Copy, Drop)]
pub(crate) struct Deal {
    pub size: usize,
    pub hands: usize,
    pub turns: usize,
    ghost small: { size ≤ 8 },
    ghost few: { hands * turns ≤ 134217728 },
}

impl Deal {
    /// A hand for each processor: a hand is what a thread gets. Parts have eight rows where rows are many.
    pub(crate) fn new(processors: usize, rows: usize) -> Deal
        requires some { 0 < processors }
        requires few { rows ≤ 1048576 }
        ensures whole { rows ≤ result.hands * result.turns * result.size }
    {
        let size = if rows < 32 { 1 } else { 8 };
        let hands = processors.min(32).next_power_of_two();
        let turns = rows.div_ceil(size * hands);
        Deal { size, hands, turns }
    }

    /// How many parts are dealt, of which the last may be empty.
    pub(crate) fn len(self) -> usize
        ensures { result ≡ self.hands * self.turns }
    {
        self.hands * self.turns
    }

    /// The place of a part.
    pub(crate) fn place_of(self, part: usize) -> usize
        requires { part < self.hands * self.turns }
        ensures { result ≡ turned self.hands self.turns part }
    {
        part % self.hands * self.turns + part / self.hands
    }

    /// The part at a place.
    pub(crate) fn part_at<'a>(self, rows: &'a [Poly], place: usize) -> &'a [Poly]
        requires { place < self.hands * self.turns }
        ensures { result.now ≡ part_of self.size rows.now (turned self.turns self.hands place) }
    {
        let part = place % self.turns * self.hands + place / self.turns;
        let from = (part * self.size).min(rows.len());
        let rest = &rows[from..];
        &rest[..self.size.min(rest.len())]
    }
}
