ghost use Rattle.std.specs.Prelude.{◌≡◌, IfOk};

use crate::raced::raced_pivots;
use back_reduce::{Problem, Row, reduced};
use bg_io::{Gate, OpenGate, Spot};
use field_table::{Field, listed_moduli_law};
use pivot_table::NoMemory;
use std::alloc::Global;
use std::sync::atomic::{AtomicU64, Ordering};
use std::test::Fail;

fn field_of_seven(alloc: Global) -> Result<Field, NoMemory>
    ensures { IfOk result (λ field. field ≡ 7) }
{
    listed_moduli_law();
    Field::new(alloc, 7)
}

fn residues_of(alloc: Global, row: &Row) -> Result<Vec<u32>, NoMemory> {
    let mut residues = vec![in alloc; 0; row.len()]?;
    row.write(residues.as_mut_slice());
    Ok(residues)
}

#[test]
fn crews_of_any_size_leave_one_form(rt: HostRuntime) -> Result<(), Fail> {
    let alloc = rt.alloc();
    let field = field_of_seven(alloc)?;
    for crew in [1, 2, 64] {
        assert!(rt; 0 < crew && crew <= 64);
        let problem = Problem::from_cells(alloc, 4, 7, 3, 2, &[1, 2, 3, 0, 1, 4])?;
        let finish = raced_pivots(&rt, alloc, &field, problem, crew, &OpenGate)?;
        let echelon = reduced(&rt, alloc, &field, &finish)?;
        let [first, second] = echelon.as_slice() else {
            return Err(Fail::new("another form"));
        };
        assert_eq!(rt;
            residues_of(alloc, first)?.as_slice(),
            [1, 0, 2].as_slice(),
            "crew {crew}"
        );
        assert_eq!(rt;
            residues_of(alloc, second)?.as_slice(),
            [0, 1, 4].as_slice(),
            "crew {crew}"
        );
    }
    Ok(())
}

/// How many claims were about to come, and how many were answered.
#[derive(Drop)]
struct Passes {
    before: AtomicU64,
    after: AtomicU64,
}

impl Gate for Passes {
    fn pass(&self, _seat: u32, spot: Spot) {
        if spot.after {
            self.after.fetch_add(1, Ordering::SeqCst);
        } else {
            self.before.fetch_add(1, Ordering::SeqCst);
        }
    }
}

/// Two of the three rows are equal, and one column is nobody's.
#[test]
fn each_claim_passes_the_gate_twice(rt: HostRuntime) -> Result<(), Fail> {
    let alloc = rt.alloc();
    let field = field_of_seven(alloc)?;
    let problem = Problem::from_cells(alloc, 4, 7, 3, 3, &[1, 2, 3, 1, 2, 3, 2, 4, 0])?;
    let gate = Passes {
        before: AtomicU64::new(0),
        after: AtomicU64::new(0),
    };
    let finish = raced_pivots(&rt, alloc, &field, problem, 2, &gate)?;
    let mut calls: usize = 0;
    for log in finish.logs() {
        calls = calls.saturating_add(log.len());
    }
    assert!(rt; calls >= 2);
    assert_eq!(rt; gate.before.load(Ordering::SeqCst), calls as u64);
    assert_eq!(rt; gate.after.load(Ordering::SeqCst), calls as u64);
    Ok(())
}
