ghost use Rattle.std.specs.Prelude.{◌≡◌, ◌<◌, ◌≤◌, [], length, map};
ghost use Rattle.std.specs.Vec.{vec_capacity};
ghost use Rattle.back_reduce.specs.declared.problem.Problem.{Problem};
ghost use Rattle.back_reduce.specs.Pivots.{ArePivots};
ghost use Rattle.pivot_core.specs.Finished.{found_holders, found_values};

use crate::lists::holder_told;
use crate::next::row_word_at;
use crate::view::View;
use back_reduce::{PivotRows, Problem};
use ideal_laws::Call;
use std::marker::Model;

/// The pivots that the seats have found, with the calls of each seat.
#[derive(Debug, Drop)]
pub struct CorePivots {
    pub(crate) problem: Problem,
    pub(crate) words: Vec<u64>,
    pub(crate) logs: Vec<Vec<Call>>,
}

impl Model for CorePivots {
    ghost use Rattle.std.specs.Prelude.{map};
    ghost use Rattle.pivot_core.specs.Finished.{Finished, IsFinished};

    ghost Value = { Finished };

    ghost view = { λ c. record {
      problem = c.problem;
      words = c.words.items;
      logs = map (λ log. log.items) c.logs.items;
    } };

    ghost invariant = { λ c. IsFinished c.problem c.words.items };
}

impl CorePivots {
    /// The calls of each view, by seat.
    pub fn logs(&self) -> &[Vec<Call>]
        ensures { map (λ log. log.items) result.now ≡ self.now.logs }
    {
        self.logs.as_slice()
    }
}

impl PivotRows for CorePivots {
    ghost given = { λ f. f.problem };

    ghost holders = { found_holders };

    ghost values = { found_values };

    fn problem(&self) -> &Problem {
        &self.problem
    }

    fn holder(&self, column: u32) -> Option<u32> {
        holder_told(self.words[1 + column as usize])
    }

    fn value(&self, column: u32, at: u32) -> u32 {
        match holder_told(self.words[1 + column as usize]) {
            Some(row) => {
                if at < column {
                    return 0;
                }
                let _modulus = self.problem.modulus;
                self.words[row_word_at(&self.problem, row, at)] as u32
            }
            None => 0,
        }
    }
}

/// The calls of the views, by seat, in a list that has room for them.
pub(crate) fn calls_of(views: Vec<View>, logs: Vec<Vec<Call>>) -> Vec<Vec<Call>>
    requires none { logs.items ≡ [] }
    requires room { length views.items ≤ vec_capacity logs }
    ensures { map (λ log. log.items) result.items ≡ map (λ view. view.calls.items) views.items }
{
    let mut logs = logs;
    for view in views {
        logs.push_reserved(view.calls);
    }
    logs
}
