ghost use Rattle.job_steps.specs.Reaches.{HasOneOutcome, HasOneReach, HasOneText};

/// Each task that is posed comes exactly as far as one reach says: whether all of its degrees are done, or which
/// quantity passes first, is a function of the task. So it has exactly one text, and exactly one status of its own.
pub fn reach_law()
    ensures reach { HasOneReach }
    ensures text { HasOneText }
    ensures outcome { HasOneOutcome }
{}
