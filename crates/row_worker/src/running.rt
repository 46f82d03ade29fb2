ghost use Rattle.std.specs.Prelude.{◌≡◌, All, map};
ghost use Rattle.std.specs.Thread.{IsSync};
ghost use Rattle.pivot_core.specs.declared.view.Phase.TheVariants as phase;
ghost use Rattle.pivot_table.specs.Workers.{IsOf};
ghost use Rattle.row_worker.specs.Crews.{AreFresh, HaveEnded};

use crate::worker::run_worker;
use bg_io::Gate;
use pivot_table::{Race, Worker};
use std::thread::{Threads, join_mut};

/// Runs the workers of a crew at once, each in a thread of its own where one can be made: the two halves of the crew at
/// once, and so on.
pub fn race<R: Threads + Sync, G: Gate>(rt: &R, table: &Race, crew: &mut [Worker], gate: &G)
    requires own { All (IsOf table.now) crew.old }
    requires fresh { All (λ w. w.sight.phase ≡ phase.Fresh) crew.old }
    ensures own { All (IsOf table.now) crew.new }
    ensures seats { map (λ w. w.sight.seat) crew.new ≡ map (λ w. w.sight.seat) crew.old }
    ensures ended { All (λ w. w.sight.phase ≡ phase.Ended) crew.new }
{
    if crew.len() < 2 {
        if crew.len() == 1 {
            run_worker(table, &mut crew[0], gate);
        }
        return;
    }
    let (front, back) = crew.split_at_mut(crew.len() / 2);
    join_mut(
        rt,
        &mut ||
            requires { IsSync R.row × AreFresh table.now front.now }
            ensures { HaveEnded table.entry.now front.entry.now front.exit.now }
        { race(rt, table, front, gate) },
        &mut ||
            requires { IsSync R.row × AreFresh table.now back.now }
            ensures { HaveEnded table.entry.now back.entry.now back.exit.now }
        { race(rt, table, back, gate) },
    );
}
