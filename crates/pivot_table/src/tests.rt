ghost use Rattle.std.specs.Prelude.{◌≡◌, ◌*◌, ◌<◌, ◌≤◌, All, IfOk, IsTrue, length, map};
ghost use Rattle.std.specs.List.{range_with_len};
ghost use Rattle.pivot_core.specs.declared.view.Phase.TheVariants as phase;
ghost use Rattle.pivot_table.specs.Workers.{IsOf};

use crate::NoMemory;
use crate::finish::Finish;
use crate::race::Race;
use crate::worker::Worker;
use back_reduce::{PivotRows, Problem};
use field_table::{Field, listed_moduli_law};
use ideal_laws::{Answer, Call};
use pivot_core::{Phase, Reply};
use std::alloc::Global;
use std::process::Abort;
use std::test::Fail;

fn sample_field(alloc: Global) -> Result<Field, NoMemory>
    ensures { IfOk result (λ field. field ≡ 101) }
{
    listed_moduli_law();
    Field::new(alloc, 101)
}

/// A race over rows of residues modulo 101, with its workers.
fn race_of(
    alloc: Global,
    m: u32,
    n: u32,
    cells: &[u32],
    crew: u32,
) -> Result<(Race, Vec<Worker>), NoMemory>
    requires shape { length cells.now ≡ n * m }
    requires residues { All (λ a. a < 101) cells.now }
    requires cells { n * m ≤ 67108864 }
    requires some { 0 < crew }
    requires few { crew ≤ 64 }
    ensures own { IfOk result (λ r. All (IsOf r.0) r.1.items) }
    ensures seats { IfOk result (λ r. map (λ w. w.sight.seat) r.1.items ≡ range_with_len 0 r.0.crew) }
    ensures columns { IfOk result (λ r. r.0.problem.m ≡ m) }
{
    let field = sample_field(alloc)?;
    let problem = Problem::from_cells(alloc, 4, 101, m, n, cells)?;
    let (race, workers) = Race::new(alloc, &field, problem, crew)?;
    Ok((race, workers))
}

/// Makes the next step of a worker, where it has one.
fn make_step(race: &Race, worker: &mut Worker) -> Option<Reply>
    requires same { IsOf race.now worker.old }
    ensures same { IsOf race.now worker.new }
    ensures seat { worker.new.sight.seat ≡ worker.old.sight.seat }
{
    let phase = worker.view().phase;
    match phase {
        Phase::Fresh => Some(Reply::Drew(race.draw(worker))),
        Phase::Looking { .. } => match race.look(worker) {
            Some(holder) => Some(Reply::Held {
                row: holder.row,
                stamp: holder.stamp,
            }),
            None => Some(Reply::Free),
        },
        Phase::Putting { .. } => {
            race.put(worker);
            Some(Reply::Stored)
        }
        Phase::Claiming { .. } => Some(Reply::Claimed(race.claim(worker))),
        Phase::Reading { .. } => Some(Reply::Got(race.read_word(worker))),
        Phase::Ended => None,
    }
}

/// Makes the next step of the worker of a seat.
fn make_step_of(race: &Race, crew: &mut Vec<Worker>, seat: usize) -> Option<Reply>
    requires own { All (IsOf race.now) crew.old.items }
    ensures own { All (IsOf race.now) crew.new.items }
    ensures seats { map (λ w. w.sight.seat) crew.new.items ≡ map (λ w. w.sight.seat) crew.old.items }
{
    if seat < crew.len() {
        return make_step(race, &mut crew[seat]);
    }
    None
}

/// Has each worker in turn make a step.
fn play_round(race: &Race, crew: &mut Vec<Worker>)
    requires own { All (IsOf race.now) crew.old.items }
    ensures own { All (IsOf race.now) crew.new.items }
    ensures seats { map (λ w. w.sight.seat) crew.new.items ≡ map (λ w. w.sight.seat) crew.old.items }
{
    for seat in 0..crew.len() {
        make_step_of(race, crew, seat);
    }
}

fn play_rounds(race: &Race, crew: &mut Vec<Worker>, rounds: u32)
    requires own { All (IsOf race.now) crew.old.items }
    ensures own { All (IsOf race.now) crew.new.items }
    ensures seats { map (λ w. w.sight.seat) crew.new.items ≡ map (λ w. w.sight.seat) crew.old.items }
{
    for _ in 0..rounds {
        play_round(race, crew);
    }
}

fn have_ended(crew: &[Worker]) -> bool
    ensures { IsTrue result → All (λ w. w.sight.phase ≡ phase.Ended) crew.now }
{
    for worker in crew {
        if worker.view().phase != Phase::Ended {
            return false;
        }
    }
    true
}

/// What the race leaves, where all workers have ended.
fn close(race: Race, crew: Vec<Worker>) -> Result<Finish, Fail>
    requires own { All (IsOf race) crew.items }
    requires seats { map (λ w. w.sight.seat) crew.items ≡ range_with_len 0 race.crew }
    ensures columns { IfOk result (λ finish. finish.problem.m ≡ race.problem.m) }
{
    if have_ended(crew.as_slice()) {
        Ok(race.close(crew))
    } else {
        Err(Fail::new("a worker goes on"))
    }
}

/// Reads the rest of a row, where the worker reads one.
fn read_rest(race: &Race, worker: &mut Worker)
    requires same { IsOf race.now worker.old }
{
    let phase = worker.view().phase;
    if let Phase::Reading { .. } = phase {
        race.read_row(worker);
    }
}

/// Seat 1 has drawn 2, 3 and found that column 0 is held by 1, 100, which leaves it a row at column 1.
#[test]
fn a_row_is_read_at_once(rt: HostRuntime) -> Result<(), Fail> {
    let (race, mut crew) = race_of(rt.alloc(), 2, 2, &[1, 100, 2, 3], 2)?;
    for seat in [0, 0, 0, 0, 0, 1, 1] {
        make_step_of(&race, &mut crew, seat);
    }
    let Some(worker) = crew.get_mut(1) else {
        return Err(Fail::new("another crew"));
    };
    read_rest(&race, worker);
    assert_eq!(rt; worker.view().phase, Phase::Looking { row: 1, column: 1 });
    assert_eq!(rt; worker.view().steps, 4);
    Ok(())
}

#[test]
fn workers_begin_fresh_by_seat(rt: HostRuntime) -> Result<(), Fail> {
    let (race, crew) = race_of(rt.alloc(), 2, 2, &[1, 100, 1, 100], 2)?;
    assert_eq!(rt; [race.degree() as usize, crew.len()], [4, 2]);
    for (worker, seat) in crew.iter().zip(0..) {
        assert_eq!(rt; worker.view().seat, seat);
        assert_eq!(rt; worker.view().phase, Phase::Fresh);
    }
    Ok(())
}

const WON_BY_SEAT_0: Call = Call {
    seat: 0,
    stamp: 1,
    column: 0,
    row: 0,
    answer: Answer::Won,
};

const WON_BY_SEAT_1: Call = Call {
    seat: 1,
    stamp: 1,
    column: 0,
    row: 1,
    answer: Answer::Won,
};

const LOST_BY_SEAT_0: Call = Call {
    seat: 0,
    stamp: 2,
    column: 0,
    row: 0,
    answer: Answer::Lost { row: 1, stamp: 1 },
};

/// Seat 1 looks at the column that row 0 holds, and has nothing to claim.
#[test]
fn a_late_seat_makes_no_call(rt: HostRuntime) -> Result<(), Fail> {
    let (race, mut crew) = race_of(rt.alloc(), 2, 2, &[1, 100, 1, 100], 2)?;
    for (seat, reply) in [
        (0, Reply::Drew(Some(0))),
        (0, Reply::Free),
        (0, Reply::Stored),
        (1, Reply::Drew(Some(1))),
        (0, Reply::Stored),
        (0, Reply::Claimed(Answer::Won)),
        (0, Reply::Drew(None)),
        (1, Reply::Held { row: 0, stamp: 1 }),
        (1, Reply::Got(1)),
        (1, Reply::Got(100)),
        (1, Reply::Drew(None)),
    ] {
        assert_eq!(rt;
            make_step_of(&race, &mut crew, seat),
            Some(reply),
            "seat {seat}"
        );
    }
    let finish = close(race, crew)?;
    let [first, second] = finish.logs() else {
        return Err(Fail::new("another crew"));
    };
    assert_eq!(rt; first.as_slice(), [WON_BY_SEAT_0].as_slice());
    assert!(rt; second.is_empty());
    Ok(())
}

/// Both seats put their rows, and seat 1 claims the column first.
#[test]
fn the_first_claim_wins(rt: HostRuntime) -> Result<(), Fail> {
    let (race, mut crew) = race_of(rt.alloc(), 2, 2, &[1, 100, 1, 100], 2)?;
    for seat in [0, 1, 0, 1, 0, 1, 0, 1, 1, 0, 0, 0, 0, 1] {
        make_step_of(&race, &mut crew, seat);
    }
    let finish = close(race, crew)?;
    let [first, second] = finish.logs() else {
        return Err(Fail::new("another crew"));
    };
    assert_eq!(rt; first.as_slice(), [LOST_BY_SEAT_0].as_slice());
    assert_eq!(rt; second.as_slice(), [WON_BY_SEAT_1].as_slice());
    Ok(())
}

/// Fails where crews of 1, 2 and 64 whose seats make their steps in turn leave other holders.
fn leave_holders(
    rt: &impl Abort,
    alloc: Global,
    m: u32,
    n: u32,
    cells: &[u32],
    holders: &[Option<u32>],
) -> Result<(), Fail>
    requires shape { length cells.now ≡ n * m }
    requires residues { All (λ a. a < 101) cells.now }
    requires cells { n * m ≤ 67108864 }
    requires holders { length holders.now ≡ m }
{
    for crew in [1, 2, 64] {
        assert!(rt; 0 < crew && crew <= 64);
        let (race, mut workers) = race_of(alloc, m, n, cells, crew)?;
        play_rounds(&race, &mut workers, 100);
        let finish = close(race, workers)?;
        for column in 0..m {
            let holder = holders[column as usize];
            assert_eq!(rt;
                finish.holder(column),
                holder,
                "column {column} of {m}, crew {crew}"
            );
            if holder.is_some() {
                assert_eq!(rt; finish.value(column, column), 1);
            }
        }
    }
    Ok(())
}

#[test]
fn the_first_rows_hold_their_columns(rt: HostRuntime) -> Result<(), Fail> {
    let alloc = rt.alloc();
    leave_holders(
        &rt,
        alloc,
        3,
        2,
        &[1, 2, 3, 0, 1, 4],
        &[Some(0), Some(1), None],
    )?;
    leave_holders(
        &rt,
        alloc,
        3,
        3,
        &[1, 2, 3, 1, 2, 3, 2, 4, 7],
        &[Some(0), None, Some(2)],
    )?;
    leave_holders(
        &rt,
        alloc,
        4,
        2,
        &[1, 2, 3, 4, 1, 2, 3, 5],
        &[Some(0), None, None, Some(1)],
    )?;
    leave_holders(&rt, alloc, 1, 3, &[0, 5, 7], &[Some(1)])?;
    leave_holders(&rt, alloc, 3, 0, &[], &[None, None, None])?;
    leave_holders(&rt, alloc, 0, 2, &[], &[])
}
