ghost use Rattle.std.specs.Prelude.{◌≡◌, ◌<◌, ◌≤◌, [], All, length, map};
ghost use Rattle.std.specs.List.{range_with_len};
ghost use Rattle.std.specs.Vec.{vec_capacity};
ghost use Rattle.std.specs.Mem.Slots.{slots_items, slots_len, IsFull};
ghost use Rattle.back_reduce.specs.declared.problem.Problem.{Problem};
ghost use Rattle.back_reduce.specs.Pivots.{ArePivots};
ghost use Rattle.pivot_core.specs.declared.view.Phase.TheVariants as phase;
ghost use Rattle.pivot_table.specs.Finished.{IsEndOf, found_holders, found_values, hand_of};
ghost use Rattle.pivot_table.specs.Shares.{share_of};
ghost use Rattle.pivot_table.specs.Workers.{IsOf, arena_of};

use crate::cells::{half_told, row_cell};
use crate::law::{Gather, Law};
use crate::race::Race;
use crate::share::{Setting, Share};
use crate::worker::Worker;
use atomic_table::{Closed, Seat, Table};
use back_reduce::{PivotRows, Problem};
use ideal_laws::Call;
use pivot_core::holder_told;
use std::alloc::Global;
use std::marker::Model;

/// The pivots that a race has found, with the calls of each worker.
#[derive(Debug, Drop)]
pub struct Finish {
    problem: Problem,
    cells: Vec<u64>,
    logs: Vec<Vec<Call>>,
}

impl Model for Finish {
    ghost use Rattle.std.specs.Prelude.{map};
    ghost use Rattle.pivot_table.specs.Finished.{Finished, IsFinished};

    ghost Value = { Finished };

    ghost view = { λ f. record {
      problem = f.problem;
      cells = f.cells.items;
      logs = map (λ log. log.items) f.logs.items;
    } };

    ghost invariant = { λ f. IsFinished
        (record { problem = f.problem; cells = f.cells.items; logs = map (λ log. log.items) f.logs.items }) };
}

impl Finish {
    /// The calls of each worker, by seat.
    pub fn logs(&self) -> &[Vec<Call>]
        ensures { map (λ log. log.items) result.now ≡ self.now.logs }
    {
        self.logs.as_slice()
    }
}

impl PivotRows for Finish {
    ghost given = { λ f. f.problem };

    ghost holders = { found_holders };

    ghost values = { found_values };

    fn problem(&self) -> &Problem {
        &self.problem
    }

    fn holder(&self, column: u32) -> Option<u32> {
        holder_told(self.cells[1 + column as usize])
    }

    fn value(&self, column: u32, at: u32) -> u32 {
        match holder_told(self.cells[1 + column as usize]) {
            Some(row) => {
                if at < column {
                    return 0;
                }
                half_told(at, self.cells[row_cell(&self.problem, row, at)])
            }
            None => 0,
        }
    }
}

impl Race {
    /// What a race has found whose workers have all ended. It takes no memory.
    pub fn close(self, crew: Vec<Worker>) -> Finish
        requires own { All (IsOf self) crew.items }
        requires seats { map (λ w. w.sight.seat) crew.items ≡ range_with_len 0 self.crew }
        requires ended { All (λ w. w.sight.phase ≡ phase.Ended) crew.items }
        ensures problem { result.problem ≡ self.problem }
        ensures run { IsEndOf self.problem self.crew result }
        ensures logs { result.logs ≡ map (λ w. w.sight.calls) crew.items }
    {
        let Race {
            table,
            field: _,
            setting,
            room,
            logs,
        } = self;
        let Setting { problem, crew: _ } = setting;
        let (seat, logs) = gathered(&table, crew, logs);
        let closed = table.close_with(seat);
        let cells = cells_of(&closed, room);
        closed.free();
        Finish {
            problem,
            cells,
            logs,
        }
    }
}

/// Takes the seats of all workers back into the first, with their calls.
fn gathered(
    table: &Table<u8, Share, Setting, Law, Global>,
    crew: Vec<Worker>,
    logs: Vec<Vec<Call>>,
) -> (Seat<u8, Share>, Vec<Vec<Call>>)
    requires own { All (IsOf (arena_of table.now.shared.table_id table.now.shared.key)) crew.items }
    requires some { 0 < length crew.items }
    requires cells { 0 < table.now.shared.table_id.words }
    requires none { logs.items ≡ [] }
    requires room { length crew.items ≤ vec_capacity logs }
    ensures table { result.0.table_id ≡ table.now.shared.table_id }
    ensures seat { result.0.me ≡ (share_of table.now.shared.key (map hand_of crew.items), []) }
    ensures logs { map (λ log. log.items) result.1.items ≡ map (λ w. w.sight.calls) crew.items }
{
    let count = crew.len();
    let mut crew = crew;
    let mut logs = logs;
    let Worker {
        view,
        published: _,
        seat,
    } = crew.remove(0);
    let mut seat = seat;
    logs.push_reserved(view.calls);
    for taken in 1..count {
        let Worker {
            view,
            published: _,
            seat: other,
        } = crew.remove(0);
        table.shared.join_seat::<Gather>(&mut seat, other);
        logs.push_reserved(view.calls);
    }
    (seat, logs)
}

/// The words of a closed table, in a list of their number.
fn cells_of(closed: &Closed<u8, Global>, room: Vec<u64>) -> Vec<u64>
    requires full { IsFull closed.now.words }
    requires count { length room.items ≡ slots_len closed.now.words }
    ensures { result.items ≡ slots_items closed.now.words }
{
    let mut cells = room;
    for at in 0..cells.len() {
        cells[at] = closed.word(at);
    }
    cells
}
