ghost use Rattle.std.specs.Prelude.{ℕ, List};
ghost use Rattle.command_words.specs.JobOf.{HasOneAnswer};

/// Each list of words has exactly one job or exactly one fault, and never both.
pub fn words_law()
    ensures { (words : List (List ℕ)) → HasOneAnswer words }
{}
