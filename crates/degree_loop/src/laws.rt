ghost use Rattle.degree_loop.specs.ClaimHistory.{RunAccountsTell};
ghost use Rattle.degree_loop.specs.Schedule.{LeadsToOneState};

use back_reduce::echelon_law;
use pivot_core::claim_laws;
use row_laws::rows_law;

/// What the account of a run of the machine of claims tells, whatever order the steps of its seats took. Over `Basis`
/// the premise on lower degrees is `ideal_laws::lower_law`.
pub fn claim_history_law()
    ensures { RunAccountsTell }
{
    claim_laws();
    echelon_law();
    rows_law();
}

/// The generator leaves no choice: all events that it chooses from a state on lead to one state.
pub fn schedule_law()
    ensures { LeadsToOneState }
{}
