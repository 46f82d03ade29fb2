ghost use Rattle.std.specs.Prelude.{◌≡◌, ◌<◌, ◌∷◌, [], IfOk};
ghost use Rattle.pivot_core.specs.Views.{fresh, sight_of, zeros};
ghost use Rattle.pivot_table.specs.Law.{IsPlace};
ghost use Rattle.pivot_table.specs.Shares.{fresh_hand, share};

use crate::NoMemory;
use crate::share::Share;
use atomic_table::Seat;
use back_reduce::Problem;
use pivot_core::View;
use std::alloc::Global;
use std::marker::Model;

/// A seat of a race, with its view, and what the current row has published.
#[derive(Drop)]
pub struct Worker {
    pub(crate) view: View,
    pub(crate) published: Vec<u32>,
    pub(crate) seat: Seat<u8, Share>,
}

impl Model for Worker {
    ghost use Rattle.pivot_table.specs.Workers.{Standing};

    ghost Value = { Standing };

    ghost use Rattle.pivot_table.specs.WorkerFields.{IsWorker, standing_of};

    ghost view = { standing_of };

    ghost invariant = { IsWorker };
}

impl Worker {
    /// The worker of a seat that has one fresh view.
    pub(crate) fn begin(
        alloc: Global,
        problem: &Problem,
        number: u32,
        seat: Seat<u8, Share>,
    ) -> Result<Worker, NoMemory>
        requires place { IsPlace problem.now seat.me.0.crew }
        requires seat { seat.me ≡ (share problem.now seat.me.0.crew (fresh_hand problem.now.m number ∷ []), []) }
        requires number { number < seat.me.0.crew }
        ensures table { IfOk result (λ w. w.table ≡ seat.table_id) }
        ensures problem { IfOk result (λ w. w.problem ≡ problem.now) }
        ensures crew { IfOk result (λ w. w.crew ≡ seat.me.0.crew) }
        ensures sight { IfOk result (λ w. w.sight ≡ fresh problem.now.m number) }
        ensures published { IfOk result (λ w. w.published ≡ zeros problem.now.m) }
    {
        let m = problem.m as usize;
        Ok(Worker {
            view: View::fresh(alloc, problem, number)?,
            published: vec![in alloc; 0; m]?,
            seat,
        })
    }

    pub fn view(&self) -> &View
        ensures { sight_of result.now ≡ self.now.sight }
    {
        &self.view
    }
}
