ghost use Rattle.pivot_core.specs.Laws.{CallsFollowWhatWasMet, ClaimedPivotsLaw, HeldRowsArePivots, HeldRowsStay};
ghost use Rattle.pivot_core.specs.Laws.{HistoryMergesLogs, LooksFindCalls, OneLegalHistory, StepCounts};

/// What holds in every state of every run, whatever order the seats' steps take.
pub fn claim_laws()
    ensures claimed_pivots { ClaimedPivotsLaw }
    ensures held_rows_stay { HeldRowsStay }
    ensures held_rows_are_pivots { HeldRowsArePivots }
    ensures one_legal_history { OneLegalHistory }
    ensures history_merges_logs { HistoryMergesLogs }
    ensures looks_find_calls { LooksFindCalls }
    ensures calls_follow { CallsFollowWhatWasMet }
    ensures step_counts { StepCounts }
{}
