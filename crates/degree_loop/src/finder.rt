ghost use Rattle.std.specs.Prelude.{◌≡◌, List, IfOk};
ghost use Rattle.std.specs.Thread.{IsSync};
ghost use Rattle.ideal_laws.specs.declared.account.Call.{Call};
ghost use Rattle.back_reduce.specs.declared.problem.Problem.{Problem};

use back_reduce::{PivotRows, Problem};
use field_table::Field;
use ideal_laws::Call;
use std::alloc::Global;
use std::thread::Threads;
use words::{Items, NoMemory};

/// Who finds the pivots of a problem, and tells the calls that were made for them.
pub trait PivotFinder {
    type Found: PivotRows + Drop;

    // The calls that may be told of a problem.
    ghost tells: { Self → Problem → List Call → Type 0 };

    fn find<R: Threads + Sync>(
        &self,
        rt: &R,
        alloc: Global,
        field: &Field,
        problem: Problem,
    ) -> Result<(Self::Found, Items<Call>), NoMemory>
        requires sync { IsSync R.row }
        requires field { field.now ≡ problem.modulus }
        ensures given { IfOk result (λ found. Self.Found.given found.0 ≡ problem) }
        ensures calls { IfOk result (λ found. tells self.now problem found.1) };
}
