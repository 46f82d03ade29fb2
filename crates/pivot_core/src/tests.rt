ghost use Rattle.std.specs.Prelude.{◌≡◌, IfOk};

use crate::NoMemory;
use crate::event::{Event, Kind, Reply};
use crate::machine::Core;
use crate::view::{Phase, View};
use back_reduce::{PivotRows, Problem};
use field_table::{Field, listed_moduli_law};
use ideal_laws::{Answer, Call};
use std::alloc::Global;
use std::test::Fail;

/// Twice the row 1, 100 modulo 101.
fn sample_problem(alloc: Global) -> Result<Problem, NoMemory>
    ensures { IfOk result (λ problem. problem.modulus ≡ 101) }
{
    Problem::from_cells(alloc, 4, 101, 2, 2, &[1, 100, 1, 100])
}

fn sample_core(alloc: Global) -> Result<Core, NoMemory>
    ensures { IfOk result (λ core. core.crew ≡ 2) }
{
    listed_moduli_law();
    let field = Field::new(alloc, 101)?;
    Core::new(alloc, &field, sample_problem(alloc)?, 2)
}

/// Whether it is the view of this seat before its first step, in a problem of two columns.
fn is_fresh(view: &View, seat: u32) -> bool {
    view.seat == seat
        && view.phase == Phase::Fresh
        && view.current.as_slice() == [0, 0].as_slice()
        && view.seen.as_slice() == [0, 0].as_slice()
        && view.clock == 0
        && view.drawn == 0
        && view.steps == 0
        && view.calls.is_empty()
}

#[test]
fn seats_draw_rows(rt: HostRuntime) -> Result<(), Fail> {
    let alloc = rt.alloc();
    let mut core = sample_core(alloc)?;
    assert!(rt; is_fresh(core.view(0), 0) && is_fresh(core.view(1), 1));
    for (seat, kind, reply) in [
        (0, Kind::Look, None),
        (0, Kind::Draw, Some(Reply::Drew(Some(0)))),
        (2, Kind::Draw, None),
    ] {
        assert_eq!(rt;
            core.step(Event { seat, kind }),
            reply,
            "{kind:?} of seat {seat}"
        );
    }
    Ok(())
}

#[test]
fn a_draw_comes_first(rt: HostRuntime) -> Result<(), Fail> {
    let alloc = rt.alloc();
    for (kind, made) in [
        (Kind::Draw, [true, true, false]),
        (Kind::Look, [false, false, false]),
        (Kind::Put, [false, false, false]),
        (Kind::Claim, [false, false, false]),
        (Kind::Read, [false, false, false]),
    ] {
        for seat in 0..3 {
            let reply = sample_core(alloc)?.step(Event { seat, kind });
            assert_eq!(rt;
                reply.is_some(),
                made[seat as usize],
                "{kind:?} of seat {seat}"
            );
        }
    }
    Ok(())
}

#[test]
fn a_fresh_view_draws_the_first_row(rt: HostRuntime) -> Result<(), Fail> {
    listed_moduli_law();
    let alloc = rt.alloc();
    let field = Field::new(alloc, 101)?;
    let problem = sample_problem(alloc)?;
    let mut view = View::fresh(alloc, &problem, 1)?;
    assert!(rt; is_fresh(&view, 1));
    assert_eq!(rt; view.met(&field, &problem, 0), Reply::Drew(Some(0)));
    assert_eq!(rt; view.phase, Phase::Looking { row: 0, column: 0 });
    Ok(())
}

/// Seat 0 wins column 0; seat 1 loses it to row 0, and its row is 0 less that row.
#[test]
fn one_of_two_equal_rows_holds_the_column(rt: HostRuntime) -> Result<(), Fail> {
    let alloc = rt.alloc();
    let mut core = sample_core(alloc)?;
    for _ in 0..4 {
        for seat in 0..2 {
            for kind in [Kind::Draw, Kind::Look, Kind::Put, Kind::Claim, Kind::Read] {
                let _reply = core.step(Event { seat, kind });
            }
        }
    }
    if !core.ended() {
        return Err(Fail::new("the seats go on"));
    }
    let pivots = core.finish();
    if pivots.problem().m != 2 {
        return Err(Fail::new("another problem"));
    }
    assert_eq!(rt; [pivots.holder(0), pivots.holder(1)], [Some(0), None]);
    assert_eq!(rt;
        [pivots.value(0, 0), pivots.value(0, 1), pivots.value(1, 1)],
        [1, 100, 0]
    );
    let [first, second] = pivots.logs() else {
        return Err(Fail::new("another crew"));
    };
    let won = Call {
        seat: 0,
        stamp: 1,
        column: 0,
        row: 0,
        answer: Answer::Won,
    };
    let lost = Call {
        seat: 1,
        stamp: 2,
        column: 0,
        row: 1,
        answer: Answer::Lost { row: 0, stamp: 1 },
    };
    assert_eq!(rt; first.as_slice(), [won].as_slice());
    assert_eq!(rt; second.as_slice(), [lost].as_slice());
    Ok(())
}
