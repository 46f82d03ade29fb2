use crate::{Gate, Plan, PlannedGate, Spot};
use std::test::Fail;

/// The second claim comes before the first one was answered, so the first one goes on at once.
#[test]
fn spots_are_noted_by_seat(rt: HostRuntime) -> Result<(), Fail> {
    let gate = PlannedGate::new(
        rt.alloc(),
        Plan::Meet {
            degree: 4,
            claims: 1,
        },
    )?;
    let before = Spot {
        degree: 4,
        column: 3,
        after: false,
    };
    let after = Spot {
        degree: 4,
        column: 3,
        after: true,
    };
    gate.pass(1, before);
    gate.pass(1, after);
    gate.pass(0, after);
    assert!(rt;
        gate.is_noted(1, 0, before) && gate.is_noted(1, 1, after) && gate.is_noted(0, 0, after)
    );
    assert!(rt; !gate.is_noted(0, 0, before) && !gate.ran_out());
    assert_eq!(rt; gate.met(1), 2);
    Ok(())
}
