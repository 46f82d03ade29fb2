use crate::NoMemory;
use crate::history::{merge, replays};
use ideal_laws::{Answer, Call};
use std::alloc::Global;
use std::test::Fail;

/// A claim of column 0 for each seat, stamp and row.
fn log_of(alloc: Global, claims: &[(u32, u32, u32)]) -> Result<Vec<Call>, NoMemory> {
    let mut log = Vec::new(alloc);
    for (seat, stamp, row) in claims {
        log.push(Call {
            seat: *seat,
            stamp: *stamp,
            column: 0,
            row: *row,
            answer: Answer::Won,
        })?;
    }
    Ok(log)
}

fn rows_of(alloc: Global, calls: &[Call]) -> Result<Vec<u32>, NoMemory> {
    let mut rows = Vec::new(alloc);
    for call in calls {
        rows.push(call.row)?;
    }
    Ok(rows)
}

#[test]
fn logs_are_merged_by_stamp_then_seat_then_log(rt: HostRuntime) -> Result<(), Fail> {
    let alloc = rt.alloc();
    let none: &[(u32, u32, u32)] = &[];
    let cases: [(&[(u32, u32, u32)], &[(u32, u32, u32)], &[u32]); 5] = [
        (&[(0, 2, 5)], &[(1, 1, 6)], &[6, 5]),
        (&[(1, 3, 5)], &[(0, 3, 6)], &[6, 5]),
        (&[(2, 4, 6)], &[(2, 4, 5)], &[6, 5]),
        (
            &[(0, 3, 5), (0, 1, 6)],
            &[(1, 2, 7), (1, 3, 8)],
            &[6, 7, 5, 8],
        ),
        (none, &[(1, 1, 5), (1, 1, 5)], &[5, 5]),
    ];
    for (first, second, rows) in cases {
        let logs = vec![in alloc; log_of(alloc, first)?, log_of(alloc, second)?]?;
        let history = merge(alloc, logs.as_slice())?;
        let found = rows_of(alloc, history.calls())?;
        assert_eq!(rt; found.as_slice(), rows, "of {first:?} and {second:?}");
    }
    Ok(())
}

/// A claim by the seat with the number of its row.
fn claim(stamp: u32, column: u32, row: u32, answer: Answer) -> Call {
    Call {
        seat: row,
        stamp,
        column,
        row,
        answer,
    }
}

#[test]
fn two_claims_of_a_column_replay_in_their_order_alone(rt: HostRuntime) -> Result<(), Fail> {
    let alloc = rt.alloc();
    let first = claim(1, 0, 0, Answer::Won);
    let second = claim(2, 0, 1, Answer::Lost { row: 0, stamp: 1 });
    let logs = vec![in alloc;
        Vec::from_slice(alloc, &[first])?,
        Vec::from_slice(alloc, &[second])?,
    ]?;
    let history = merge(alloc, logs.as_slice())?;
    assert_eq!(rt; history.calls(), [first, second].as_slice());
    assert!(rt; replays(history.calls(), 2));
    assert!(rt; !replays(&[second, first], 2));
    Ok(())
}

#[test]
fn each_claim_has_the_answer_of_the_object(rt: HostRuntime) {
    let first = claim(1, 1, 4, Answer::Won);
    for (column, answer, replayed) in [
        (0, Answer::Won, true),
        (1, Answer::Won, false),
        (2, Answer::Won, false),
        (1, Answer::Lost { row: 4, stamp: 1 }, true),
        (1, Answer::Lost { row: 4, stamp: 2 }, false),
        (1, Answer::Lost { row: 5, stamp: 1 }, false),
        (0, Answer::Lost { row: 4, stamp: 1 }, false),
        (0, Answer::Lost { row: 0, stamp: 0 }, false),
    ] {
        let second = claim(2, column, 5, answer);
        assert_eq!(rt;
            replays(&[first, second], 2),
            replayed,
            "at {column} with {answer:?}"
        );
    }
}
