ghost use Rattle.std.specs.Prelude.{◌≡◌, ◌≢◌, ◌==◌, ◌<◌, ◌≤◌, [], true, IfOk, length, slice_index};
ghost use Rattle.pivot_core.specs.declared.view.Phase.TheVariants.{Ended};
ghost use Rattle.pivot_core.specs.Phases.{is_ended};
ghost use Rattle.pivot_core.specs.Runs.{view_at};
ghost use Rattle.pivot_core.specs.Steps.{is_next};
ghost use Rattle.degree_loop.specs.Schedule.{IsChosen, IsScheduledRun, going_seats};

use back_reduce::Problem;
use field_table::{Field, number_after};
use pivot_core::{Core, CorePivots, Event, Kind, Phase, claim_laws};
use std::alloc::Global;
use words::NoMemory;

/// The pivots that a crew finds, whose seats take their steps as the generator chooses them that begins with this
/// number.
pub(crate) fn scheduled_pivots(
    alloc: Global,
    field: &Field,
    problem: Problem,
    crew: u32,
    schedule: u32,
) -> Result<CorePivots, NoMemory>
    requires some { 0 < crew }
    requires few { crew ≤ 64 }
    requires field { field.now ≡ problem.modulus }
    ensures { IfOk result (IsScheduledRun problem crew schedule) }
{
    claim_laws();
    let _modulus = field.modulus();
    let mut core = Core::new(alloc, field, problem, crew)?;
    let mut number = schedule;
    while !core.ended() {
        number = number_after(number);
        let event = chosen(&core, crew, number);
        let _reply = core.step(event);
    }
    Ok(core.finish())
}

/// The event that a number chooses.
fn chosen(core: &Core, crew: u32, number: u32) -> Event
    requires crew { core.now.crew ≡ crew }
    requires views { length core.now.state.views ≡ crew }
    requires some { going_seats core.now.problem core.now.state ≢ [] }
    ensures chosen { IsChosen core.now.problem core.now.state number result }
    ensures below { result.seat < crew }
{
    let place = number / 65_536 % going_count(core, crew);
    let seat = seat_at(core, crew, place);
    let kind = next_kind(core.view(seat).phase);
    Event { seat, kind }
}

/// How many seats have not ended.
fn going_count(core: &Core, crew: u32) -> u32
    requires crew { core.now.crew ≡ crew }
    requires views { length core.now.state.views ≡ crew }
    ensures { result ≡ length (going_seats core.now.problem core.now.state) }
{
    let mut count = 0;
    for seat in 0..crew {
        if goes_on(core, seat) {
            count += 1;
        }
    }
    count
}

/// The seat at this place among those that have not ended, counted from 0.
fn seat_at(core: &Core, crew: u32, place: u32) -> u32
    requires crew { core.now.crew ≡ crew }
    requires views { length core.now.state.views ≡ crew }
    requires within { place < length (going_seats core.now.problem core.now.state) }
    ensures seat { result ≡ slice_index (going_seats core.now.problem core.now.state) place }
    ensures below { result < crew }
    ensures going { (view_at core.now.problem core.now.state result).phase ≢ Ended }
{
    let mut before = 0;
    for seat in 0..crew {
        if goes_on(core, seat) {
            if before == place {
                return seat;
            }
            before += 1;
        }
    }
    unreachable!()
}

/// Whether the seat has not ended.
fn goes_on(core: &Core, seat: u32) -> bool
    requires { seat < core.now.crew }
    ensures { result ≡ (is_ended (view_at core.now.problem core.now.state seat).phase == 0) }
{
    match core.view(seat).phase {
        Phase::Ended => false,
        _ => true,
    }
}

/// The kind of step that comes next.
fn next_kind(phase: Phase) -> Kind
    requires { phase ≢ Ended }
    ensures { is_next result phase ≡ true }
{
    match phase {
        Phase::Fresh => Kind::Draw,
        Phase::Looking { .. } => Kind::Look,
        Phase::Putting { .. } => Kind::Put,
        Phase::Claiming { .. } => Kind::Claim,
        Phase::Reading { .. } => Kind::Read,
        Phase::Ended => unreachable!(),
    }
}
