ghost use Rattle.std.specs.Prelude.{◌≡◌, ◌≢◌, ◌+◌, ◌*◌, ◌≤◌};
ghost use Rattle.pivot_core.specs.declared.view.Phase.TheVariants as phase;
ghost use Rattle.pivot_core.specs.Calls.{steps_of_row};
ghost use Rattle.pivot_table.specs.Workers.{AreTaken, IsOf};

use bg_io::{Gate, Spot};
use pivot_core::Phase;
use pivot_table::{Race, Worker};

/// Steps until the worker has ended, and passes the gate before and after each claim.
pub fn run_worker<G: Gate>(race: &Race, worker: &mut Worker, gate: &G)
    requires same { IsOf race.now worker.old }
    requires fresh { worker.old.sight.phase ≡ phase.Fresh }
    ensures same { IsOf race.now worker.new }
    ensures seat { worker.new.sight.seat ≡ worker.old.sight.seat }
    ensures ended { worker.new.sight.phase ≡ phase.Ended }
    ensures steps { worker.new.sight.steps ≤ worker.new.sight.drawn * steps_of_row race.now.problem.m + 1 }
{
    race.draw(worker);
    while worker.view().phase != Phase::Ended {
        make_step(race, worker, gate);
    }
}

/// Makes the next step of a worker that has not ended, and where it reads a row all steps to the end of the row.
fn make_step<G: Gate>(race: &Race, worker: &mut Worker, gate: &G)
    requires same { IsOf race.now worker.old }
    requires next { worker.old.sight.phase ≢ phase.Ended }
    ensures same { IsOf race.now worker.new }
    ensures seat { worker.new.sight.seat ≡ worker.old.sight.seat }
    ensures taken { AreTaken race.now worker.old worker.new }
{
    let seat = worker.view().seat;
    let phase = worker.view().phase;
    match phase {
        Phase::Fresh => {
            race.draw(worker);
        }
        Phase::Looking { .. } => {
            race.look(worker);
        }
        Phase::Putting { .. } => race.put(worker),
        Phase::Claiming { column, .. } => {
            let degree = race.degree();
            gate.pass(
                seat,
                Spot {
                    degree,
                    column,
                    after: false,
                },
            );
            race.claim(worker);
            gate.pass(
                seat,
                Spot {
                    degree,
                    column,
                    after: true,
                },
            );
        }
        Phase::Reading { .. } => {
            race.read_row(worker);
        }
        Phase::Ended => {}
    }
}
